//! Says what is wrong with a value that does not fit, or with the definition of a name, and what to write instead.
#![tactic(auto)]

mod bytes;
mod circles;
mod dividing;
mod names;
mod need;
mod values;

pub use bytes::needs_low_or_high;
pub use circles::circle;
pub use dividing::{divides_by_zero, divisor_varies};
pub use names::{
    defined_at, duplicate, is_made, kind_text, name_of, no_label, reserved_name, too_many_names,
    too_many_statements,
};
pub use need::{Need, need_at};
pub use values::{
    bad_origin, needs_number, out_of_range, short_needs_label, size_varies, too_deep, too_large,
};

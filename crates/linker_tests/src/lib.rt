//! Tests of the crate `relax` that rows of `format_rows` cannot express: a ruler that counts how often it is asked,
//! generated programs compared with a plain scan, orders of thousands of jumps, and memory that is refused.
#![tactic(auto)]

#[cfg(test)]
mod compare;
#[cfg(test)]
mod counted;
#[cfg(test)]
mod generated;
#[cfg(test)]
mod large;
#[cfg(test)]
mod scan;
#[cfg(test)]
mod worked;

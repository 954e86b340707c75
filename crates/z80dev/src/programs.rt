//! The commands from sources to programs and back.

mod disassembling;
mod jobs;
mod making;
mod outputs;
mod values;

pub use disassembling::dis_file;
pub use jobs::{asm_job, build_job, link_job};
pub use making::{check_files, shared_of, sources_of};
pub use values::bad_define;

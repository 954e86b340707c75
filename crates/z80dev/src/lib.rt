//! The calls of the command `z80dev`. [`pipe`] reads a source and prints its program, and [`check_texts`] prints the verdict of a certificate.
//! The commands that make files of files go from sources to programs and back (`asm`, `link`, `build`, `check` and `dis`), or work on images of
//! disks: [`do_on_disk`] does what one of these asks for. [`laws`] has laws of programs: that each source has an answer, and that a linked
//! program runs as its statements say.
#![tactic(auto)]

mod disks;
mod fault;
pub mod laws;
mod print;
mod programs;
mod text;
mod verdict;

pub use cpm_run::{RunEnd, run};
pub use disks::do_on_disk;
pub use fault::Fault;
pub use host::{
    Answer, Bytes, DONE, End, FILE_FAULT, Files, Input, Kind, MemorySink, NewFile, REFUSED,
    ReadFault, Sink, USAGE, Unread, Watched, WatchedSink, WriteFailed, WriteFault, finish, report,
};
pub use print::{pipe, print_file};
pub use programs::{
    asm_job, bad_define, build_job, check_files, dis_file, link_job, shared_of, sources_of,
};
pub use text::{MOST_READS, read_text};
pub use verdict::check_texts;
pub use z80dev_commands::{Job, commands};
pub use z80dev_make::{
    Front, Jumps, Made, Object, Products, Refusal, SharedFile, SourceFile, SymbolForm, Told,
    Wanted, asm, build, link, program_kinds, shared_files,
};

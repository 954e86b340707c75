//! The system calls of CP/M 2.2 on a mounted disk of either format and a console: the BDOS, and the console entries of the BIOS.
//!
//! [`Bdos`] answers every call, by its number. The functions are in the modules [`console`], [`files`] and [`records`].
#![tactic(auto)]

mod bdos;
pub mod console;
pub mod files;
mod function;
pub mod laws;
mod outcome;
pub mod records;
mod registers;
mod setting;

pub use bdos::Bdos;
pub use console::Reply;
pub use cpm_disk::Stop;
pub use function::{
    BiosEntry, ConsoleCall, FileCall, Function, RecordCall, SearchCall, SettingCall,
};
pub use outcome::After;
pub use setting::Settings;

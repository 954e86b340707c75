//! The forms of a file of symbols.

/// The form of a file of symbols.
#[derive(Clone, Copy, Debug, PartialEq, Eq)]
pub enum SymbolForm {
    /// What SID and ZSID of Digital Research read: `AAAA NAME` in each line.
    Sid,
    /// Commands of ucsim, the simulator of SDCC: `var NAME rom 0xAAAA` in each line.
    Ucsim,
}

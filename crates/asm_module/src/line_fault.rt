//! Why a line cannot be parsed.

use asm_line::ScanFault;
use asm_spell::StmtFault;
use thiserror::Error;

/// Why a line cannot be parsed.
#[derive(Clone, Copy, Debug, PartialEq, Eq, Error)]
pub enum LineFault {
    #[error("{0}")]
    Scan(ScanFault),
    #[error("{0}")]
    Stmt(StmtFault),
}

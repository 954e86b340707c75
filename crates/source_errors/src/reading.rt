//! Reads one line.

ghost use Rattle.std.specs.Prelude.{◌≡◌, IfOk};
ghost use Rattle.asm_line.specs.Tokens.{lexemes};
ghost use Rattle.asm_spell.specs.Spelling.{spelled};
ghost use Rattle.asm_module.specs.Reads.Read as lines;
ghost use Rattle.source_errors.specs.Private.State.{read_of};

use asm_line::{ScanFault, Token, tokens};
use asm_module::{LineFault, StmtFault};
use asm_spell::{Line, statement};
use std::alloc::{AllocError, Global};

/// Answers what tokens parse as, or why they cannot be parsed.
fn read_tokens(alloc: Global, tokens: &[Token<'_>]) -> Result<Result<Line, LineFault>, AllocError>
    ensures { IfOk result (λ read. read_of read ≡ lines.spelled_by (spelled (lexemes tokens.entry.now))) }
{
    match statement(alloc, tokens) {
        Ok(line) => Ok(Ok(line)),
        Err(StmtFault::NoMemory) => Err(AllocError),
        Err(why) => Ok(Err(LineFault::Stmt(why))),
    }
}

/// Answers what a text parses as, or why it cannot be parsed.
pub(crate) fn read_line(alloc: Global, text: &[u8]) -> Result<Result<Line, LineFault>, AllocError>
    ensures { IfOk result (λ read. read_of read ≡ lines.read_line text.now) }
{
    match tokens(alloc, text) {
        Ok(found) => read_tokens(alloc, &found),
        Err(ScanFault::NoMemory) => Err(AllocError),
        Err(why) => Ok(Err(LineFault::Scan(why))),
    }
}

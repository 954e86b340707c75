//! Reads one line.

ghost use Rattle.std.specs.Prelude.{◌≡◌, IfOk};
ghost use Rattle.std.specs.Option.{option_map};
ghost use Rattle.asm_line.specs.Tokens.{lexemes};
ghost use Rattle.asm_text.specs.Lines.{heard};
ghost use Rattle.asm_spell.specs.Line.{line_of};
ghost use Rattle.asm_module.specs.Reads.Read as lines;
ghost use Rattle.asm_spell.specs.Spelling.{spelled};
ghost use Rattle.source_warnings.specs.Warnings.{line_read, parsed_line};

use asm_line::{ScanFault, Token, tokens};
use asm_spell::{Line, StmtFault, statement};
use std::alloc::{AllocError, Global};

/// Answers the tokens of a line; None if it cannot be cut into tokens.
pub(crate) fn heard(alloc: Global, text: &[u8]) -> Result<Option<Vec<Token<'_>>>, AllocError>
    ensures { IfOk result (λ found. option_map (λ tokens. lexemes tokens.items) found ≡ heard text.now) }
{
    match tokens(alloc, text) {
        Ok(found) => Ok(Some(found)),
        Err(ScanFault::NoMemory) => Err(AllocError),
        Err(ScanFault::BadByte) => Ok(None),
        Err(ScanFault::OpenString) => Ok(None),
        Err(ScanFault::LineTooLong) => Ok(None),
        Err(ScanFault::BadNumber) => Ok(None),
    }
}

/// Answers what tokens parse as; None if they cannot be parsed.
fn spelled(alloc: Global, tokens: &[Token<'_>]) -> Result<Option<Line>, AllocError>
    ensures { IfOk result (λ read. option_map line_of read ≡ line_read (lines.spelled_by (spelled (lexemes tokens.entry.now)))) }
{
    match statement(alloc, tokens) {
        Ok(line) => Ok(Some(line)),
        Err(StmtFault::NoMemory) => Err(AllocError),
        Err(_) => Ok(None),
    }
}

/// Answers what a line parses as; None if it cannot be parsed.
pub(crate) fn parsed(alloc: Global, text: &[u8]) -> Result<Option<Line>, AllocError>
    ensures { IfOk result (λ read. option_map line_of read ≡ parsed_line text.now) }
{
    match tokens(alloc, text) {
        Ok(found) => spelled(alloc, &found),
        Err(ScanFault::NoMemory) => Err(AllocError),
        Err(_) => Ok(None),
    }
}

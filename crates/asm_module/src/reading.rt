//! Reads the lines of an expansion, up to the first that cannot be parsed.

ghost use Rattle.std.specs.Prelude.{◌≡◌, ◌++◌, ◌∷◌, [], List, OnOk};
ghost use Rattle.asm_macro.specs.Ahead.{seen};
ghost use Rattle.asm_macro.specs.Kept.{AreOf};
ghost use Rattle.asm_line.specs.Tokens.{lexemes};
ghost use Rattle.asm_spell.specs.Spelling.{spelled};
ghost use Rattle.asm_text.specs.Lines.{Numbered};
ghost use Rattle.asm_module.specs.Private.Reading.{IsReading, Reads, ReadsLine, is_memory};
ghost use Rattle.asm_module.specs.Reads.Read as lines;

use crate::line_fault::LineFault;
use asm_line::{ScanFault, Token, tokens};
use asm_macro::{Expander, Line as MacroLine, MacroFault};
use asm_names::SourceLine;
use asm_spell::{Line, StmtFault, statement};
use std::alloc::{AllocError, Global};

/// Whether memory ran out.
fn is_memory(why: LineFault) -> bool
    ensures { result ≡ is_memory why }
{
    matches!(
        why,
        LineFault::Stmt(StmtFault::NoMemory) | LineFault::Scan(ScanFault::NoMemory)
    )
}

/// Answers what the tokens of a line parse as, or why they cannot be parsed.
fn read_tokens(alloc: Global, tokens: &[Token<'_>]) -> Result<Line, LineFault>
    ensures { ReadsLine result (lines.spelled_by (spelled (lexemes tokens.entry.now))) }
{
    match statement(alloc, tokens) {
        Ok(line) => Ok(line),
        Err(why) => Err(LineFault::Stmt(why)),
    }
}

/// Answers what a line parses as, or why it cannot be parsed. It uses the tokens that the expander kept, if it kept them.
fn read_line(alloc: Global, text: &[u8], kept: Option<Vec<Token<'_>>>) -> Result<Line, LineFault>
    requires { AreOf text.now kept }
    ensures { ReadsLine result (lines.read_line text.now) }
{
    if let Some(found) = kept {
        return read_tokens(alloc, &found);
    }
    match tokens(alloc, text) {
        Ok(found) => read_tokens(alloc, &found),
        Err(why) => Err(LineFault::Scan(why)),
    }
}

/// What lines parse as.
#[derive(Debug, Drop)]
pub(crate) struct Reading {
    /// The lines before the first that cannot be parsed.
    pub(crate) lines: Vec<SourceLine>,
    /// The number of that line, and why it cannot be parsed.
    pub(crate) unread: Option<(u32, LineFault)>,
}

impl Reading {
    /// Parses a line and appends it, unless a line before it cannot be parsed.
    fn take(
        &mut self,
        alloc: Global,
        line: MacroLine<'_>,
        kept: Option<Vec<Token<'_>>>,
    ) -> Result<(), AllocError>
        requires { AreOf line.text.now kept }
        ensures { (before : List Numbered) → Reads before self.old → OnOk result (Reads (before ++ seen line.entry ∷ []) self.new) }
    {
        if self.unread.is_some() {
            return Ok(());
        }
        let number = line.number;
        match read_line(alloc, line.text, kept) {
            Ok(line) => self.lines.push(SourceLine { number, line })?,
            Err(why) => {
                if is_memory(why) {
                    return Err(AllocError);
                }
                self.unread = Some((number, why));
            }
        }
        Ok(())
    }
}

/// Expands a source, and reads the lines of its expansion up to the first that cannot be parsed. It continues the expansion to its end even
/// then, since that may stop with an error.
///
/// # Errors
///
/// The line at which the expansion stops, and why; or the line at which memory ran out.
pub(crate) fn read_lines(alloc: Global, text: &[u8]) -> Result<Reading, (u32, MacroFault)>
    ensures { IsReading text.now result }
{
    let mut reading = Reading {
        lines: Vec::new(alloc),
        unread: None,
    };
    let mut expander = Expander::new(alloc, text);
    while expander.advance()? {
        let kept = expander.take_tokens();
        let line = expander.line();
        match reading.take(alloc, line, kept) {
            Ok(()) => {}
            Err(AllocError) => return Err((line.number, MacroFault::NoMemory)),
        }
    }
    Ok(reading)
}

//! Finds the last line that the listing shows.

ghost use Rattle.std.specs.Prelude.{◌≡◌, ◌<◌, ◌^◌, ℕ, if◌then◌else◌, length};
ghost use Rattle.asm_macro.specs.Texts.{source_lines};
ghost use Rattle.asm_spell.specs.Line.{line_of};
ghost use Rattle.asm_names.specs.Lines.{lines_of};
ghost use Rattle.asm_module.specs.Reads.Source.{end_or};
ghost use Rattle.asm_module.specs.Reads.Source as source;

use asm_macro::source_part;
use asm_names::SourceLine;
use asm_spell::{Body, Line};
use bstr::ByteSlice;

/// Answers how many lines a source has.
fn line_count(text: &[u8]) -> u32
    requires { length text.now < 2 ^ 32 }
    ensures { result ≡ length (source_lines text.now) }
{
    source_part(text).lines().count() as u32
}

/// Whether a line is an END.
fn is_end(line: &Line) -> bool
    ensures { (number other : ℕ) → end_or number other (line_of line.now) ≡ if result then number else other }
{
    matches!(
        line,
        Line::Statement {
            body: Some(Body::End(_)),
            ..
        }
    )
}

/// Answers the number of the first END line, or of the source's last line if there is none.
pub(crate) fn last_listed(lines: &[SourceLine], text: &[u8]) -> u32
    requires { length text.now < 2 ^ 32 }
    ensures { result ≡ source.last_listed (length (source_lines text.now)) (lines_of lines.now) }
{
    for line in lines {
        if is_end(&line.line) {
            return line.number;
        }
    }
    line_count(text)
}

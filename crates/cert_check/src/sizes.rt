//! Reads and writes the sizes file.

ghost use Rattle.std.specs.Prelude.{◌≡◌, ◌≢◌, ◌⊎◌, ◌≤◌, ℕ, List, Result, Ok, IfOk, MatchBool, MatchOption};
ghost use Rattle.cert_check.specs.declared.limits.TheConstants.{MOST_BYTES};
ghost use Rattle.cert_check.specs.FileTypes.{Statement, TextFault};
ghost use Rattle.cert_check.specs.Texts.{OrNoMemory, ReadsSizes, end_line};
ghost use Rattle.cert_check.specs.Private.Reading.{AreLinesRead, IsFirstFar, IsStatementRead};

use crate::limits::MOST_STATEMENTS;
use crate::lines::{behind, first_line, numbered, push_line, target};
use crate::shape::{Shape, Statement};
use crate::text_fault::TextFault;
use std::alloc::{AllocError, Global};

/// Answers the sizes file of a shape.
pub fn print_sizes(alloc: Global, shape: &Shape) -> Result<Vec<u8>, AllocError>
    ensures { IfOk result (λ text. ReadsSizes text.items (Ok shape.now)) }
{
    let mut text = Vec::from_slice(alloc, b"Z80SIZES 1\n")?;
    for statement in shape.statements() {
        let (word, number) = statement.parts();
        push_line(&mut text, word, number)?;
    }
    text.extend_from_slice(b"END\n")?;
    Ok(text)
}

/// Answers the statement of a line, if it is the line of one. A target too great for any shape may become another such
/// target.
fn statement(line: &[u8]) -> Option<Statement>
    ensures { IsStatementRead line.now result }
{
    if let Some(n) = numbered(b"F ", line) {
        return fixed(n);
    }
    if let Some(t) = target(b"J ", line) {
        return Some(Statement::Jump(t));
    }
    let t = target(b"S ", line)?;
    Some(Statement::Short(t))
}

/// Answers a statement of this size, if there may be one.
fn fixed(size: u32) -> Option<Statement>
    ensures { MatchOption result ((1 ≤ size) → (size ≤ MOST_BYTES) → ⊥) (λ s. (1 ≤ size) × (size ≤ MOST_BYTES) × (s ≡ Statement.Fixed size)) }
{
    let size = u16::try_from(size).ok()?;
    if size == 0 {
        return None;
    }
    Some(Statement::Fixed(size))
}

/// Whether it is the last line.
fn is_end(line: &[u8]) -> bool
    ensures { MatchBool result (line.now ≡ end_line) (line.now ≢ end_line) }
{
    matches!(line, b"END")
}

/// Answers the statements of the lines of the file, whatever their targets, or the first bad line.
fn statements_of(alloc: Global, text: &[u8]) -> Result<Vec<Statement>, TextFault>
    ensures { AreLinesRead text.now result }
{
    let Some(mut rest) = behind(b"Z80SIZES 1\n", text) else {
        return Err(TextFault::BadLine(1));
    };
    let mut statements = Vec::new(alloc);
    while let Some((line, after)) = first_line(rest) {
        let number = statements.len() + 2;
        if is_end(line) {
            if !after.is_empty() {
                return Err(TextFault::BadLine(number + 1));
            }
            return Ok(statements);
        }
        if statements.len() == MOST_STATEMENTS {
            return Err(TextFault::BadLine(number));
        }
        let Some(found) = statement(line) else {
            return Err(TextFault::BadLine(number));
        };
        statements.push(found)?;
        rest = after;
    }
    Err(TextFault::BadLine(statements.len() + 2))
}

/// Answers the lowest statement whose target does not exist.
fn first_far(statements: &[Statement]) -> Option<usize>
    ensures { IsFirstFar statements.now result }
{
    let count = statements.len();
    for (k, statement) in statements.iter().enumerate() {
        if !statement.is_within(count) {
            return Some(k);
        }
    }
    None
}

/// Answers the shape of the file, or its first bad line.
fn shape_of(alloc: Global, text: &[u8]) -> Result<Shape, TextFault>
    ensures { OrNoMemory (ReadsSizes text.now) result }
{
    let statements = statements_of(alloc, text)?;
    if let Some(far) = first_far(&statements) {
        return Err(TextFault::BadLine(far + 2));
    }
    Ok(Shape::new(statements))
}

/// Answers the shape of a sizes file.
///
/// # Errors
///
/// [`TextFault::BadLine`] with the first line that breaks the grammar, counted from 1: also the number of the line that
/// is missing, that has no line feed, or that comes after `END`. If the file keeps the grammar, it is the first line
/// with a target above the count of statements. [`TextFault::NoMemory`] if memory ran out.
pub fn read_sizes(alloc: Global, text: &[u8]) -> Result<Shape, TextFault>
    // The answer is what the file has, unless memory ran out.
    ensures read { OrNoMemory (ReadsSizes text.now) result }

    // A file has one value or one first bad line, so nothing else is answered.
    ensures only { (answer : Result (List Statement) TextFault) → ReadsSizes text.now answer →
        (result ≡ answer) ⊎ (result ≡ Err TextFault.NoMemory) }
{
    shape_of(alloc, text)
}

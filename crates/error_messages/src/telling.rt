//! Says what an error means.

ghost use Rattle.std.specs.Prelude.{◌≡◌, ◌<◌, ℕ, List, All, Ok, IfOk, length};
ghost use Rattle.asm_line.specs.Tokens.{Lexeme, lexemes};
ghost use Rattle.asm_line.specs.Scanned.{scanned};
ghost use Rattle.message_texts.specs.Places.{CoversTokens, IsInLine};
ghost use Rattle.message_texts.specs.Texts.{HasLines, IsNote, IsOneLine};

use crate::blocks;
use asm_line::{ScanFault, Token, form_of, tokens};
use asm_macro::MacroFault;
use asm_module::{StmtFault, Why};
use asm_parse::ExprFault;
use error_lines::{Case, SourceLines};
use message_texts::{Draft, Message, Note, place_of, shown};
use source_errors::{Finding, Known};
use std::alloc::{AllocError, Global};

/// A note as one line of printable ASCII.
fn printable(alloc: Global, note: &Note) -> Result<Note, AllocError>
    ensures { IfOk result IsNote }
{
    match note {
        Note::Help(text) => Ok(Note::Help(shown(alloc, text.as_bytes())?)),
        Note::Note(text) => Ok(Note::Note(shown(alloc, text.as_bytes())?)),
    }
}

/// Notes, each as one line of printable ASCII.
fn all_printable(alloc: Global, notes: &[Note]) -> Result<Vec<Note>, AllocError>
    ensures { IfOk result (λ all. All IsNote all.items) }
{
    let mut all = Vec::new(alloc);
    for note in notes {
        all.push(printable(alloc, note)?)?;
    }
    Ok(all)
}

/// The message of a draft, given its line and the tokens of that; none if the line cannot be cut into tokens.
fn finished(
    alloc: Global,
    line: &[u8],
    tokens: &[Token<'_>],
    draft: &Draft,
) -> Result<Message, AllocError>
    ensures within { IfOk result (λ m. IsInLine line.now m.place) }
    ensures tokens { IfOk result (λ m. 0 < length tokens.now → CoversTokens line.now (lexemes tokens.entry.now) m.place) }
    ensures lines { IfOk result HasLines }
{
    Ok(Message {
        place: place_of(line, tokens, draft.spot),
        text: shown(alloc, draft.text.as_bytes())?,
        notes: all_printable(alloc, &draft.notes)?,
    })
}

/// The message about a line's statement that has an error.
fn on_statement(case: &Case<'_>, why: StmtFault) -> Result<Draft, AllocError> {
    match why {
        StmtFault::UnknownWord => statement_errors::unknown(case),
        StmtFault::BadOperands => statement_errors::wrong_operands(case),
        StmtFault::ByteRange => value_errors::out_of_range(case),
        StmtFault::NeedsLowOrHigh => value_errors::needs_low_or_high(case),
        StmtFault::ShortNeedsLabel => value_errors::short_needs_label(case),
        StmtFault::SizeNamesLabel => value_errors::size_varies(case),
        StmtFault::BadOrg => value_errors::bad_origin(case),
        StmtFault::NeedsNumber => value_errors::needs_number(case),
        StmtFault::ReservedName => value_errors::reserved_name(case),
        StmtFault::Expr(fault) => on_expression(case, fault),
        StmtFault::NoMemory => Err(AllocError),
    }
}

/// The message about tokens that are no expression, or about one that has no value.
fn on_expression(case: &Case<'_>, why: ExprFault) -> Result<Draft, AllocError> {
    match why {
        ExprFault::Syntax => syntax_errors::no_expression(case),
        ExprFault::DivideByZero => value_errors::divides_by_zero(case),
        ExprFault::LabelDivisor => value_errors::divisor_varies(case),
        ExprFault::TooDeep => value_errors::too_deep(case),
        ExprFault::TooLarge => value_errors::too_large(case),
        ExprFault::NoMemory => Err(AllocError),
    }
}

/// The message about a line at which the expansion stops.
fn on_expansion(case: &Case<'_>, why: MacroFault) -> Result<Draft, AllocError> {
    match why {
        MacroFault::Unclosed => blocks::unclosed(case),
        MacroFault::Stray => blocks::stray(case),
        MacroFault::TooDeep => blocks::too_deep(case),
        MacroFault::TooManyLines => blocks::too_many_lines(case),
        MacroFault::Redefined => blocks::redefined(case),
        MacroFault::ConditionNamesLabel => crate::conditions::condition_names_label(case),
        MacroFault::LineTooLong => syntax_errors::too_long(case.alloc, &case.finding.text),
        MacroFault::Scan(fault) => syntax_errors::unscanned(case, fault),
        MacroFault::Expr(fault) => on_expression(case, fault),
        MacroFault::NoMemory => Err(AllocError),
    }
}

/// The message about an error.
fn drafted(case: &Case<'_>) -> Result<Draft, AllocError> {
    match case.finding.why {
        Why::Macro(why) => on_expansion(case, why),
        Why::Stmt(why) => on_statement(case, why),
        Why::Duplicate => value_errors::duplicate(case),
        Why::Undefined => crate::undefined::undefined(case),
        Why::PublicNotLabel => value_errors::no_label(case),
        Why::EquCircle => value_errors::circle(case),
        Why::TooManyStatements => value_errors::too_many_statements(case),
        Why::TooManyNames => value_errors::too_many_names(case),
        Why::NoMemory => Err(AllocError),
    }
}

/// The message about an error, given the tokens of its line.
fn drafted_by<'c>(
    alloc: Global,
    source: &'c SourceLines<'c>,
    finding: &'c Finding,
    known: Option<&'c Known>,
    tokens: &'c [Token<'c>],
) -> Result<Draft, AllocError> {
    drafted(&Case {
        alloc,
        source,
        finding,
        known,
        tokens,
        form: form_of(tokens),
    })
}

/// The message about an error of a line that cannot be cut into tokens, given none.
fn drafted_uncut<'c>(
    alloc: Global,
    source: &'c SourceLines<'c>,
    finding: &'c Finding,
    known: Option<&'c Known>,
    tokens: &'c [Token<'c>],
    fault: ScanFault,
) -> Result<Draft, AllocError> {
    let case = Case {
        alloc,
        source,
        finding,
        known,
        tokens,
        form: form_of(tokens),
    };
    syntax_errors::unscanned(&case, fault)
}

/// Answers the message about an error: where in its line it is, what it means, and what to write instead. Notes name the lines of the source
/// by their numbers in the source itself. `known` is None if the expansion stopped, so that the lines are not known.
///
/// # Errors
///
/// `AllocError` if memory ran out, or if that is the error that the finding is about.
pub fn message(
    alloc: Global,
    source: &SourceLines<'_>,
    finding: &Finding,
    known: Option<&Known>,
) -> Result<Message, AllocError>
    ensures within { IfOk result (λ m. IsInLine finding.now.text.items m.place) }
    // If the line can be cut into tokens, and has some, the place is one of them, or several side by side.
    ensures tokens { IfOk result (λ m. (cut : List Lexeme) → scanned finding.now.text.items ≡ Ok cut → 0 < length cut →
        CoversTokens finding.now.text.items cut m.place) }
    ensures lines { IfOk result HasLines }
{
    let line = finding.text.as_slice();
    match tokens(alloc, line) {
        Ok(found) => {
            let draft = drafted_by(alloc, source, finding, known, &found)?;
            finished(alloc, line, &found, &draft)
        }
        Err(ScanFault::NoMemory) => Err(AllocError),
        Err(fault) => {
            let draft = drafted_uncut(alloc, source, finding, known, &[], fault)?;
            finished(alloc, line, &[], &draft)
        }
    }
}

//! Parses directives.

ghost use Rattle.std.specs.Prelude.{◌≡◌, ◌==◌, if◌then◌else◌, IfOk, map};
ghost use Rattle.std.specs.Option.{option_map};
ghost use Rattle.std.specs.List.{list_any};
ghost use Rattle.std.specs.Map.{lookup};
ghost use Rattle.std.specs.Str.{str_eq_ignore_ascii_case};
ghost use Rattle.asm_line.specs.Tokens.{lexemes};
ghost use Rattle.asm_spell.specs.Faults.{Gives};
ghost use Rattle.asm_spell.specs.Line.{body_of, listed_names, name_texts, value_of};
ghost use Rattle.asm_spell.specs.Directives.{content, directive, end, end_body, is_empty_text, nameless, names_listed, of_bytes, of_nothing, of_origin, of_space, of_words, text_alone, text_by};
ghost use Rattle.asm_spell.specs.Private.Choices as choices;
ghost use Rattle.asm_spell.specs.Private.Choices.{directs};

use crate::cut::{Operand, each};
use crate::fault::StmtFault;
use crate::line::{Body, Value};
use crate::operand::{expression, is_one_name};
use asm_line::{Kind, Token};
use asm_parse::{KeptName, Tree};
use std::alloc::{AllocError, Global};

/// A directive.
#[derive(Clone, Copy, Debug, PartialEq, Eq)]
pub(crate) enum Directive {
    /// `DB`, `DEFB`, `DEFM`
    Bytes,
    /// `DW`, `DEFW`
    Words,
    /// `DS`, `DEFS`
    Space,
    /// `PUBLIC`, `GLOBAL`
    Public,
    /// `EXTRN`, `EXTERNAL`
    External,
    /// `ORG`
    Origin,
    /// `END`
    End,
    /// `.Z80`
    Z80,
    /// `EQU` without a name.
    Equ,
}

/// The words of all directives but EQU, which a name comes before. `explain` looks among them for the word that somebody meant.
pub const DIRECTIVES: [&str; 14] = [
    "DB", "DEFB", "DEFM", "DW", "DEFW", "DS", "DEFS", "PUBLIC", "GLOBAL", "EXTRN", "EXTERNAL",
    "ORG", "END", ".Z80",
];

/// The directive that a word of two letters names, if it names one.
fn of_two(name: &[u8]) -> Option<Directive>
    ensures { option_map directs result ≡ lookup (str_eq_ignore_ascii_case name.now) choices.of_two }
{
    if name.eq_ignore_ascii_case(b"DB") {
        Some(Directive::Bytes)
    } else if name.eq_ignore_ascii_case(b"DW") {
        Some(Directive::Words)
    } else if name.eq_ignore_ascii_case(b"DS") {
        Some(Directive::Space)
    } else {
        None
    }
}

/// The directive that a word of three letters names, if it names one.
fn of_three(name: &[u8]) -> Option<Directive>
    ensures { option_map directs result ≡ lookup (str_eq_ignore_ascii_case name.now) choices.of_three }
{
    if name.eq_ignore_ascii_case(b"ORG") {
        Some(Directive::Origin)
    } else if name.eq_ignore_ascii_case(b"END") {
        Some(Directive::End)
    } else if name.eq_ignore_ascii_case(b"EQU") {
        Some(Directive::Equ)
    } else {
        None
    }
}

/// The directive that a word of four letters names, if it names one.
fn of_four(name: &[u8]) -> Option<Directive>
    ensures { option_map directs result ≡ lookup (str_eq_ignore_ascii_case name.now) choices.of_four }
{
    if name.eq_ignore_ascii_case(b"DEFB") {
        Some(Directive::Bytes)
    } else if name.eq_ignore_ascii_case(b"DEFM") {
        Some(Directive::Bytes)
    } else if name.eq_ignore_ascii_case(b"DEFW") {
        Some(Directive::Words)
    } else if name.eq_ignore_ascii_case(b"DEFS") {
        Some(Directive::Space)
    } else if name.eq_ignore_ascii_case(b".Z80") {
        Some(Directive::Z80)
    } else {
        None
    }
}

/// The directive that a longer word names, if it names one.
fn of_more(name: &[u8]) -> Option<Directive>
    ensures { option_map directs result ≡ lookup (str_eq_ignore_ascii_case name.now) choices.of_more }
{
    if name.eq_ignore_ascii_case(b"PUBLIC") {
        Some(Directive::Public)
    } else if name.eq_ignore_ascii_case(b"GLOBAL") {
        Some(Directive::Public)
    } else if name.eq_ignore_ascii_case(b"EXTRN") {
        Some(Directive::External)
    } else if name.eq_ignore_ascii_case(b"EXTERNAL") {
        Some(Directive::External)
    } else {
        None
    }
}

/// The directive that a word names, in upper or lower case. There are at most five directives of its length to compare it with.
pub(crate) fn directive_named(name: &[u8]) -> Option<Directive>
    ensures { option_map directs result ≡ directive name.now }
{
    let letters = name.len();
    if letters == 2 {
        of_two(name)
    } else if letters == 3 {
        of_three(name)
    } else if letters == 4 {
        of_four(name)
    } else {
        of_more(name)
    }
}

/// How many bytes of a string's text stand for this byte: a quote is doubled.
fn width(byte: u8, quote: u8) -> usize
    ensures { result ≡ (if byte == quote then 2 else 1) }
{
    if byte == quote { 2 } else { 1 }
}

/// The content of a string, given its text with the quotes.
fn content(alloc: Global, text: &[u8]) -> Result<Vec<u8>, AllocError>
    ensures { IfOk result (λ bytes. bytes.items ≡ content text.now) }
{
    let mut bytes = Vec::new(alloc);
    let last = text.len().saturating_sub(1);
    let mut at = 1;
    while at < last {
        let byte = text[at];
        bytes.push(byte)?;
        at += width(byte, text[0]);
    }
    Ok(bytes)
}

/// The text of a token if it is a string.
fn text_of<'a>(token: &Token<'a>) -> Option<&'a [u8]>
    ensures { option_map (λ text. text.now) result ≡ text_by token.now.kind token.now.text.now }
{
    match token.kind {
        Kind::Quoted => Some(token.text),
        _ => None,
    }
}

/// The text of the only token, if it is a string; None for other tokens.
fn text_alone<'a>(tokens: &[Token<'a>]) -> Option<&'a [u8]>
    ensures { option_map (λ text. text.now) result ≡ text_alone (lexemes tokens.now) }
{
    match tokens {
        [token] => text_of(token),
        _ => None,
    }
}

impl Operand for Value {
    ghost use Rattle.asm_spell.specs.Line as line;
    ghost use Rattle.asm_spell.specs.Directives.{data_item};

    ghost Seen = { line.Value };

    ghost seen = { line.value_of };

    ghost reads = { data_item };

    fn read(alloc: Global, tokens: &[Token<'_>]) -> Result<Value, StmtFault> {
        match text_alone(tokens) {
            Some(text) => Ok(Value::Text(content(alloc, text)?)),
            None => Ok(Value::Byte(expression(alloc, tokens)?)),
        }
    }
}

fn is_empty_text(value: &Value) -> bool
    ensures { result ≡ is_empty_text (value_of value.now) }
{
    match value {
        Value::Text(text) => text.is_empty(),
        Value::Byte(_) => false,
    }
}

fn any_empty(values: &[Value]) -> bool
    ensures { result ≡ list_any is_empty_text (map value_of values.now) }
{
    for value in values {
        if is_empty_text(value) {
            return true;
        }
    }
    false
}

/// Parses the items of `DB`.
fn bytes(alloc: Global, tokens: &[Token<'_>]) -> Result<Body, StmtFault>
    ensures { Gives body_of result (of_bytes (lexemes tokens.entry.now)) }
{
    let values: Vec<Value> = each(alloc, tokens)?;
    if values.is_empty() || any_empty(&values) {
        return Err(StmtFault::BadOperands);
    }
    Ok(Body::Bytes(values))
}

/// Parses the items of `DW`.
fn words(alloc: Global, tokens: &[Token<'_>]) -> Result<Body, StmtFault>
    ensures { Gives body_of result (of_words (lexemes tokens.entry.now)) }
{
    let fields: Vec<Tree> = each(alloc, tokens)?;
    if fields.is_empty() {
        return Err(StmtFault::BadOperands);
    }
    Ok(Body::Words(fields))
}

/// Parses the operands of `DS`.
fn space(alloc: Global, tokens: &[Token<'_>]) -> Result<Body, StmtFault>
    ensures { Gives body_of result (of_space (lexemes tokens.entry.now)) }
{
    let mut fields: Vec<Tree> = each(alloc, tokens)?;
    let last = fields.pop();
    let before = fields.pop();
    match (before, last) {
        (None, Some(size)) => Ok(Body::Space { size, fill: None }),
        (Some(size), fill) if fields.is_empty() => Ok(Body::Space { size, fill }),
        _ => Err(StmtFault::BadOperands),
    }
}

/// Parses the operand of `ORG`.
fn origin(alloc: Global, tokens: &[Token<'_>]) -> Result<Body, StmtFault>
    ensures { Gives body_of result (of_origin (lexemes tokens.entry.now)) }
{
    let mut fields: Vec<Tree> = each(alloc, tokens)?;
    match fields.pop() {
        Some(e) if fields.is_empty() => Ok(Body::Origin(e)),
        _ => Err(StmtFault::BadOperands),
    }
}

/// Parses `.Z80`, which has no operands.
fn nothing(alloc: Global, tokens: &[Token<'_>]) -> Result<Body, StmtFault>
    ensures { Gives body_of result (of_nothing (lexemes tokens.entry.now)) }
{
    let fields: Vec<Tree> = each(alloc, tokens)?;
    if fields.is_empty() {
        Ok(Body::Z80)
    } else {
        Err(StmtFault::BadOperands)
    }
}

/// Refuses `EQU` without a name, after its operands are read for their errors.
fn nameless(alloc: Global, tokens: &[Token<'_>]) -> Result<Body, StmtFault>
    ensures { Gives body_of result (nameless (lexemes tokens.entry.now)) }
{
    let _fields: Vec<Tree> = each(alloc, tokens)?;
    Err(StmtFault::BadOperands)
}

/// An operand where a name is needed. If it is not one name, it is read as an expression for its errors.
#[derive(Debug, Drop)]
struct Judged(Option<Tree>);

impl Operand for Judged {
    ghost use Rattle.std.specs.Prelude.{Option};
    ghost use Rattle.asm_spell.specs.Line.{ExpressionItems};
    ghost use Rattle.asm_spell.specs.Directives.{name_or_expression};

    ghost Seen = { Option ExpressionItems };

    ghost seen = { λ operand. operand.0 };

    ghost reads = { name_or_expression };

    fn read(alloc: Global, tokens: &[Token<'_>]) -> Result<Judged, StmtFault> {
        if is_one_name(tokens) {
            return Ok(Judged(None));
        }
        Ok(Judged(Some(expression(alloc, tokens)?)))
    }
}

/// Parses one or more names separated by commas. The names are put into upper case.
fn names(alloc: Global, tokens: &[Token<'_>]) -> Result<Vec<Vec<u8>>, StmtFault>
    ensures { Gives (λ all. name_texts all.items) result (names_listed (lexemes tokens.entry.now)) }
{
    match asm_line::names(alloc, tokens)? {
        Some(names) => Ok(names),
        None => {
            let _operands: Vec<Judged> = each(alloc, tokens)?;
            Err(StmtFault::BadOperands)
        }
    }
}

/// Copies a list of names into the form in which a line keeps them.
fn listed(alloc: Global, names: &[Vec<u8>]) -> Result<Vec<KeptName>, AllocError>
    ensures { IfOk result (λ all. listed_names all.items ≡ name_texts names.now) }
{
    let mut all = Vec::with_capacity(alloc, names.len())?;
    for name in names {
        all.push(KeptName::from_slice(alloc, name)?)?;
    }
    Ok(all)
}

/// `END` with these names. It takes only one.
fn entry(mut names: Vec<Vec<u8>>) -> Result<Body, StmtFault>
    ensures { Gives body_of result (end_body (name_texts names.items)) }
{
    if names.len() != 1 {
        return Err(StmtFault::BadOperands);
    }
    Ok(Body::End(names.pop()))
}

/// Parses the operand of `END`: nothing, or one name.
fn end(alloc: Global, tokens: &[Token<'_>]) -> Result<Body, StmtFault>
    ensures { Gives body_of result (end (lexemes tokens.entry.now)) }
{
    match tokens {
        [] => Ok(Body::End(None)),
        [_, ..] => entry(names(alloc, tokens)?),
    }
}

/// Parses a directive, given the tokens after it.
pub(crate) fn spell_directive(
    alloc: Global,
    found: Directive,
    tokens: &[Token<'_>],
) -> Result<Body, StmtFault>
    ensures { Gives body_of result (directs found (lexemes tokens.entry.now)) }
{
    match found {
        Directive::Bytes => bytes(alloc, tokens),
        Directive::Words => words(alloc, tokens),
        Directive::Space => space(alloc, tokens),
        Directive::Public => Ok(Body::Public(listed(alloc, &names(alloc, tokens)?)?)),
        Directive::External => Ok(Body::External(listed(alloc, &names(alloc, tokens)?)?)),
        Directive::Origin => origin(alloc, tokens),
        Directive::End => end(alloc, tokens),
        Directive::Z80 => nothing(alloc, tokens),
        Directive::Equ => nameless(alloc, tokens),
    }
}

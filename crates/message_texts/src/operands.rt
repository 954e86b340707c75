//! The operands of a line, as its parser cuts and reads them.

use asm_line::{Kind, Mark, Token, is_comma, open_behind};
use z80_form::{Form, Name, Pointed, name_of};
use z80_instr::IndexRegister;

/// More parentheses than a line has bytes.
pub const DEEPEST: usize = 255;

/// An operand of a line, or a part of one: its tokens, and the number of the first of them in the line.
#[derive(Clone, Copy)]
pub struct Operand<'a> {
    pub at: usize,
    pub tokens: &'a [Token<'a>],
}

impl<'a> Operand<'a> {
    /// This number of tokens of the operand from this one on, as far as there are any.
    pub fn part(&self, from: usize, count: usize) -> Operand<'a> {
        let tail = self.tokens.get(from..).unwrap_or(&[]);
        Operand {
            at: self.at.saturating_add(from),
            tokens: tail.get(..count).unwrap_or(tail),
        }
    }

    /// The tokens between the first and the last.
    pub fn inner(&self) -> Operand<'a> {
        self.part(1, self.tokens.len().saturating_sub(2))
    }
}

/// The register or condition that a token names, if it names one.
pub fn name_in(token: &Token<'_>) -> Option<Name> {
    match token.kind {
        Kind::Name => name_of(token.text),
        Kind::OtherAf => Some(Name::OtherAf),
        _ => None,
    }
}

/// How many parentheses are open at the end of tokens, and the number of the token that opens the outermost of them.
pub fn left_open(tokens: &[Token<'_>]) -> (usize, usize) {
    let mut depth = 0usize;
    let mut outermost = 0;
    for (at, token) in tokens.iter().enumerate() {
        if depth == 0 {
            outermost = at;
        }
        depth = open_behind(depth.min(DEEPEST), token);
    }
    (depth, outermost)
}

/// Whether tokens begin with a group in parentheses, after which comes a comma or nothing.
pub fn is_whole_group(tokens: &[Token<'_>]) -> bool {
    match tokens.first() {
        Some(first) if matches!(first.kind, Kind::Mark(Mark::Open)) => (),
        _ => return false,
    }
    for count in 1..tokens.len() {
        let (open, _) = left_open(tokens.get(..count).unwrap_or(tokens));
        if open == 0 {
            return tokens.get(count).is_some_and(|next| is_comma(next));
        }
    }
    let (open, _) = left_open(tokens);
    open == 0
}

/// Whether tokens begin with a parenthesis that the last of them closes.
fn is_memory(tokens: &[Token<'_>]) -> bool {
    let [first, .., last] = tokens else {
        return false;
    };
    if !matches!(first.kind, Kind::Mark(Mark::Open))
        || !matches!(last.kind, Kind::Mark(Mark::Close))
    {
        return false;
    }
    let front = tokens.get(..tokens.len().saturating_sub(1)).unwrap_or(&[]);
    let (depth, outermost) = left_open(front);
    depth == 1 && outermost == 0
}

/// The form of a memory operand, given the tokens between its parentheses.
fn memory_form(inner: &[Token<'_>]) -> Form {
    let [first, rest @ ..] = inner else {
        return Form::AtNumber;
    };
    let register = name_in(first);
    let index = match register {
        Some(Name::Ix) => Some(IndexRegister::Ix),
        Some(Name::Iy) => Some(IndexRegister::Iy),
        _ => None,
    };
    match (index, register, rest) {
        (Some(x), _, []) => Form::AtIndex(x),
        (Some(x), _, [_, ..]) => Form::Displaced(x),
        (None, Some(Name::Hl), []) => Form::At(Pointed::Hl),
        (None, Some(Name::Bc), []) => Form::At(Pointed::Bc),
        (None, Some(Name::De), []) => Form::At(Pointed::De),
        (None, Some(Name::Sp), []) => Form::At(Pointed::Sp),
        (None, Some(Name::C), []) => Form::At(Pointed::C),
        _ => Form::AtNumber,
    }
}

/// The form of an operand: how it is written, without its expression.
pub fn form_written(operand: &Operand<'_>) -> Form {
    if let [token] = operand.tokens {
        return match name_in(token) {
            Some(name) => Form::Name(name),
            None => Form::Number,
        };
    }
    if is_memory(operand.tokens) {
        memory_form(operand.inner().tokens)
    } else {
        Form::Number
    }
}

/// The expression in an operand of an instruction, if it has one. A displacement begins with its sign.
pub fn expression_in<'a>(operand: &Operand<'a>) -> Option<Operand<'a>> {
    match form_written(operand) {
        Form::Number => Some(*operand),
        Form::AtNumber => Some(operand.inner()),
        Form::Displaced(_) => {
            let inner = operand.inner();
            Some(inner.part(1, inner.tokens.len()))
        }
        _ => None,
    }
}

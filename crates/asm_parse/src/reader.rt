//! Parses tokens by operator precedence: operators wait on a stack until an operator that binds less tightly follows, and are then
//! written after their operands.

ghost use Rattle.std.specs.Prelude.{◌≡◌, ◌≤◌, ◌⊎◌, ◌∷◌, [], List, ◌++◌, map, max, Some, Ok, Err, IfOk, IfErr};
ghost use Rattle.asm_line.specs.Tokens.{lexeme, lexemes};
ghost use Rattle.asm_parse.specs.declared.fault.ExprFault.{ExprFault};
ghost use Rattle.asm_parse.specs.Expression.{postfix};
ghost use Rattle.asm_parse.specs.Source.{operand, source_item};
ghost use Rattle.asm_parse.specs.Grammar.{IsParsed, Phrase, character, expression, symbol};
ghost use Rattle.asm_parse.specs.Parsed.{parsed, parsed_symbols};
ghost use Rattle.asm_parse.specs.Private.Parsing.{Frame, reduce};
ghost use Rattle.asm_parse.specs.Private.Readers.{room_in};
ghost use Rattle.asm_parse.specs.Private.Stacks.{IsReduced, closed_item, level_of, named_symbol, open_in, part_symbol, pendings, written};

use crate::fault::ExprFault;
use crate::few::Few;
use crate::item::{Item, Term, TermView};
use crate::operator::{Binary, Unary};
use crate::sign::{Prefix, Sign, sign_of};
use crate::tree::Tree;
use asm_line::{Kind, Mark, Token};
use common::is_reserved;
use smallvec::SmallVec;
use std::alloc::Global;

/// The most parentheses and prefix operators that may be open at one point.
pub const MOST_OPEN: usize = 32;

/// The level of the operators that bind least tightly.
const LOOSEST: u8 = 7;

/// What a token is in an expression.
#[derive(Debug, Drop)]
enum Part {
    Term(Term),
    Sign(Sign),
    Foreign,
}

/// The byte of a string of one character; None for any other string. A quote in a string is doubled.
fn character(text: &[u8]) -> Option<u8>
    ensures { result ≡ character text.now }
{
    match text {
        [_, c, _] => Some(*c),
        [quote, c, _, _] if c == quote => Some(*c),
        _ => None,
    }
}

/// What a term is in an expression: a name in upper case may be an operator, or reserved.
fn named(term: Term) -> Part
    ensures { part_symbol result ≡ named_symbol (operand term) }
{
    match term.view() {
        TermView::Name(name) => {
            if let Some(sign) = sign_of(name) {
                return Part::Sign(sign);
            }
            if is_reserved(name) {
                return Part::Foreign;
            }
        }
        TermView::Number(_) | TermView::Here => {}
    }
    Part::Term(term)
}

/// What a token is in an expression, with a name put into upper case.
fn part_of(alloc: Global, token: &Token<'_>) -> Result<Part, ExprFault>
    ensures part { IfOk result (λ part. part_symbol part ≡ symbol (lexeme token.now)) }
    ensures fault { IfErr result (λ why. why ≡ ExprFault.NoMemory) }
{
    match token.kind {
        Kind::Number(n) => Ok(Part::Term(Term::Number(n))),
        Kind::Quoted => match character(token.text) {
            Some(c) => Ok(Part::Term(Term::Number(u16::from(c)))),
            None => Ok(Part::Foreign),
        },
        Kind::Name => Ok(named(Term::upper(alloc, token.text)?)),
        Kind::Mark(mark) => Ok(match mark {
            Mark::Dollar => Part::Term(Term::Here),
            Mark::Open => Part::Sign(Sign::Open),
            Mark::Close => Part::Sign(Sign::Close),
            Mark::Plus => Part::Sign(Sign::Plus),
            Mark::Minus => Part::Sign(Sign::Minus),
            Mark::Star => Part::Sign(Sign::Star),
            Mark::Slash => Part::Sign(Sign::Slash),
            Mark::Comma | Mark::Colon => Part::Foreign,
        }),
        Kind::OtherAf => Ok(Part::Foreign),
    }
}

/// What waits for its last operand: an open parenthesis, a prefix operator or an infix operator.
#[derive(Clone, Copy, Debug, Default)]
enum Operator {
    #[default]
    Inside,
    Under(Prefix),
    RightOf(Binary),
}

/// An operator that waits, and how many parentheses and prefix operators are open up to it.
#[derive(Clone, Copy, Debug, Default)]
struct Pending {
    operator: Operator,
    count: usize,
}

/// The operators that wait, the innermost last. In most expressions only a few do at a time, and these are kept in place.
type Waiting = SmallVec<Pending, 4>;

/// How loosely an operator binds. An open parenthesis binds more loosely than all operators.
fn level_of(operator: Operator) -> u8
    ensures { result ≡ level_of operator }
{
    match operator {
        Operator::Inside => LOOSEST + 1,
        Operator::Under(Prefix::Operator(Unary::Not)) => 5,
        Operator::Under(_) => 1,
        Operator::RightOf(op) => match op {
            Binary::Multiply | Binary::Divide | Binary::Modulo => 2,
            Binary::ShiftLeft | Binary::ShiftRight => 2,
            Binary::Add | Binary::Subtract => 3,
            Binary::Equal | Binary::NotEqual | Binary::Less => 4,
            Binary::LessOrEqual | Binary::Greater | Binary::GreaterOrEqual => 4,
            Binary::And => 6,
            Binary::Or | Binary::Xor => LOOSEST,
        },
    }
}

/// How many parentheses and prefix operators are open.
fn open_in(pending: &[Pending]) -> usize
    ensures { result ≡ open_in pending.now }
{
    match pending.last() {
        Some(last) => last.count,
        None => 0,
    }
}

/// Writes an operator after its operands. A parenthesis and a prefix `+` write nothing.
fn write_operator(items: &mut Vec<Item<Term>>, operator: Operator) -> Result<(), ExprFault>
    ensures written { IfOk result (λ _. map source_item items.new.items ≡ map source_item items.old.items ++ closed_item operator) }
    ensures fault { IfErr result (λ why. why ≡ ExprFault.NoMemory) }
{
    match operator {
        Operator::Under(Prefix::Operator(op)) => items.push(Item::Unary(op))?,
        Operator::RightOf(op) => items.push(Item::Binary(op))?,
        Operator::Inside | Operator::Under(Prefix::Plus) => {}
    }
    Ok(())
}

/// Writes all waiting operators that bind at least as tightly as `level`, from the innermost on: their operands are complete.
fn reduce(pending: &mut Waiting, items: &mut Vec<Item<Term>>, level: u8) -> Result<(), ExprFault>
    requires { level ≤ 7 }
    ensures reduced { IfOk result (λ _. (frames : List Frame) (a : Phrase) → pending.old.items ≡ pendings frames →
        map source_item items.old.items ≡ written frames ++ postfix (expression a) →
        IsReduced (reduce level frames a) pending.new.items (map source_item items.new.items)) }
    ensures fault { IfErr result (λ why. why ≡ ExprFault.NoMemory) }
{
    while let Some(last) = pending.last() {
        let operator = last.operator;
        if level_of(operator) > level {
            break;
        }
        pending.pop();
        write_operator(items, operator)?;
    }
    Ok(())
}

/// How loosely the next operator may bind. The right operand of an infix operator may contain only operators that bind more
/// tightly, so operators of equal precedence group to the left.
fn room_in(pending: &[Pending]) -> u8
    ensures { result ≡ room_in pending.now }
{
    let Some(last) = pending.last() else {
        return LOOSEST;
    };
    match last.operator {
        Operator::Inside => LOOSEST,
        Operator::Under(_) => level_of(last.operator),
        Operator::RightOf(_) => level_of(last.operator) - 1,
    }
}

/// The state after some tokens.
#[derive(Debug, Drop)]
struct Reader {
    pending: Waiting,
    /// The items that are written so far, in postfix order.
    items: Vec<Item<Term>>,
    /// The most parentheses and prefix operators that were open at one point so far.
    deepest: usize,
    /// Whether an operand is complete, so that an infix operator or a closing parenthesis may follow.
    complete: bool,
}

impl Reader {
    ghost use Rattle.std.specs.Prelude.{◌∷◌, None, is_some, true};
    ghost use Rattle.asm_parse.specs.Private.Parsing.{State, finish, reading, sign_before, sign_behind, start, step};
    ghost use Rattle.asm_parse.specs.Grammar.{GrammarSymbol};
    ghost use Rattle.asm_parse.specs.Private.Readers.{HoldsIn, IsReading, Reads, frame_of, opens};

    /// Reads a prefix operator or an open parenthesis.
    fn begin(&mut self, operator: Operator) -> Result<(), ExprFault>
        ensures { (frames : List Frame) → HoldsIn frames None self.old → opens operator ≡ true →
            Reads (Some (record { frames = frame_of operator ∷ frames; operand = None })) result self.new }
    {
        let count = open_in(&self.pending).saturating_add(1);
        self.pending.push(Pending { operator, count })?;
        self.deepest = self.deepest.max(open_in(&self.pending));
        Ok(())
    }

    /// Reads an operator or parenthesis where an operand is expected.
    fn sign_before(&mut self, sign: Sign) -> Result<(), ExprFault>
        ensures { (frames : List Frame) → HoldsIn frames None self.old → Reads (sign_before sign frames) result self.new }
    {
        if let Sign::Open = sign {
            return self.begin(Operator::Inside);
        }
        let Some(prefix) = sign.prefix() else {
            return Err(ExprFault::Syntax);
        };
        let operator = Operator::Under(prefix);
        if level_of(operator) > room_in(&self.pending) {
            return Err(ExprFault::Syntax);
        }
        self.begin(operator)
    }

    /// Reads an operator or parenthesis after a complete operand.
    fn sign_behind(&mut self, sign: Sign) -> Result<(), ExprFault>
        ensures { (frames : List Frame) (a : Phrase) → HoldsIn frames (Some a) self.old → Reads (sign_behind sign frames a) result self.new }
    {
        if let Sign::Close = sign {
            reduce(&mut self.pending, &mut self.items, LOOSEST)?;
            return match self.pending.pop() {
                Some(_) => Ok(()),
                None => Err(ExprFault::Syntax),
            };
        }
        let Some(op) = sign.infix() else {
            return Err(ExprFault::Syntax);
        };
        let operator = Operator::RightOf(op);
        reduce(&mut self.pending, &mut self.items, level_of(operator))?;
        let count = open_in(&self.pending);
        self.pending.push(Pending { operator, count })?;
        self.complete = false;
        Ok(())
    }

    /// Reads one token, given what it is in an expression.
    fn take(&mut self, part: Part) -> Result<(), ExprFault>
        ensures { (state : State) → HoldsIn state.frames state.operand self.old → Reads (step (part_symbol part) state) result self.new }
    {
        match part {
            Part::Term(term) => {
                if self.complete {
                    return Err(ExprFault::Syntax);
                }
                self.items.push(Item::Leaf(term))?;
                self.complete = true;
                Ok(())
            }
            Part::Sign(sign) => {
                if self.complete {
                    self.sign_behind(sign)
                } else {
                    self.sign_before(sign)
                }
            }
            Part::Foreign => Err(ExprFault::Syntax),
        }
    }

    /// Answers the tree of all tokens, or an error if the expression is incomplete or too deep.
    fn finish(mut self) -> Result<Tree, ExprFault>
        requires { IsReading self }
        ensures { (symbols : List GrammarSymbol) (state : State) → HoldsIn state.frames state.operand self → finish state ≡ reading symbols start →
            IsParsed symbols result }
    {
        if !self.complete {
            return Err(ExprFault::Syntax);
        }
        reduce(&mut self.pending, &mut self.items, LOOSEST)?;
        if !self.pending.is_empty() {
            return Err(ExprFault::Syntax);
        }
        if self.deepest > MOST_OPEN {
            return Err(ExprFault::TooDeep);
        }
        Ok(Tree::known(Few::Many(self.items)))
    }
}

/// Parses an expression of one token. Most expressions have only one, and need none of the reader's lists.
fn term_alone(alloc: Global, token: &Token<'_>) -> Result<Tree, ExprFault>
    ensures { (result ≡ parsed_symbols (symbol (lexeme token.now) ∷ [])) ⊎ (result ≡ Err ExprFault.NoMemory) }
{
    let Part::Term(term) = part_of(alloc, token)? else {
        return Err(ExprFault::Syntax);
    };
    Ok(Tree::known(Few::One([Item::Leaf(term)])))
}

/// Parses tokens as one expression.
///
/// # Errors
///
/// [`ExprFault::Syntax`] if the tokens make no expression; otherwise [`ExprFault::TooDeep`] if more than 32 parentheses and prefix
/// operators are open at one point; [`ExprFault::NoMemory`] if memory runs out.
pub fn parse(alloc: Global, tokens: &[Token<'_>]) -> Result<Tree, ExprFault>
    ensures spelled { IsParsed (map symbol (lexemes tokens.entry.now)) result }
    // There is only one answer that the clause before allows, except that memory may run out.
    ensures parsed { (result ≡ parsed (lexemes tokens.entry.now)) ⊎ (result ≡ Err ExprFault.NoMemory) }
{
    if let [token] = tokens {
        return term_alone(alloc, token);
    }
    let mut reader = Reader {
        pending: Waiting::new(alloc),
        items: Vec::with_capacity(alloc, tokens.len())?,
        deepest: 0,
        complete: false,
    };
    for token in tokens {
        reader.take(part_of(alloc, token)?)?;
    }
    reader.finish()
}

//! Makes random expressions with their values. Names are constants `K0`, `K1` and so on, whose values are given.

use crate::draw::Draw;
use std::alloc::{AllocError, Global};

/// What an expression may contain.
#[derive(Clone, Copy)]
pub(crate) struct Scope<'a> {
    /// The values of the constants.
    pub(crate) names: &'a [u16],
    /// Whether it may contain addresses whose difference is a number.
    pub(crate) has_places: bool,
}

/// The scope of an expression with a fixed value.
pub(crate) fn scope_of(names: &[u16]) -> Scope<'_> {
    Scope {
        names,
        has_places: true,
    }
}

/// The scope of an expression that is a constant.
pub(crate) fn constant_of(names: &[u16]) -> Scope<'_> {
    Scope {
        names,
        has_places: false,
    }
}

/// An expression and its value.
#[derive(Drop)]
pub(crate) struct Expression {
    pub(crate) text: String,
    pub(crate) value: u16,
}

#[derive(Clone, Copy)]
enum Operator {
    Times,
    Over,
    Modulo,
    Left,
    Right,
    Plus,
    Minus,
    Equal,
    Unequal,
    Less,
    LessEqual,
    Greater,
    GreaterEqual,
    And,
    Or,
    Xor,
}

const PRODUCTS: [Operator; 5] = [
    Operator::Times,
    Operator::Over,
    Operator::Modulo,
    Operator::Left,
    Operator::Right,
];

const SUMS: [Operator; 2] = [Operator::Plus, Operator::Minus];

const COMPARISONS: [Operator; 6] = [
    Operator::Equal,
    Operator::Unequal,
    Operator::Less,
    Operator::LessEqual,
    Operator::Greater,
    Operator::GreaterEqual,
];

const CHOICES: [Operator; 2] = [Operator::Or, Operator::Xor];

impl Operator {
    fn text(self) -> &'static str {
        match self {
            Operator::Times => "*",
            Operator::Over => "/",
            Operator::Modulo => " MOD ",
            Operator::Left => " SHL ",
            Operator::Right => " shr ",
            Operator::Plus => "+",
            Operator::Minus => " - ",
            Operator::Equal => " EQ ",
            Operator::Unequal => " NE ",
            Operator::Less => " LT ",
            Operator::LessEqual => " LE ",
            Operator::Greater => " GT ",
            Operator::GreaterEqual => " ge ",
            Operator::And => " AND ",
            Operator::Or => " OR ",
            Operator::Xor => " xor ",
        }
    }

    /// The value of an operation, modulo 65,536 and without signs.
    fn value(self, left: u16, right: u16) -> u16 {
        match self {
            Operator::Times => left.wrapping_mul(right),
            Operator::Over => left.checked_div(right).unwrap_or(0),
            Operator::Modulo => left.checked_rem(right).unwrap_or(0),
            Operator::Left => left.checked_shl(u32::from(right)).unwrap_or(0),
            Operator::Right => left.checked_shr(u32::from(right)).unwrap_or(0),
            Operator::Plus => left.wrapping_add(right),
            Operator::Minus => left.wrapping_sub(right),
            Operator::Equal => truth(left == right),
            Operator::Unequal => truth(left != right),
            Operator::Less => truth(left < right),
            Operator::LessEqual => truth(left <= right),
            Operator::Greater => truth(left > right),
            Operator::GreaterEqual => truth(left >= right),
            Operator::And => left & right,
            Operator::Or => left | right,
            Operator::Xor => left ^ right,
        }
    }

    fn is_division(self) -> bool {
        matches!(self, Operator::Over | Operator::Modulo)
    }
}

fn truth(holds: bool) -> u16 {
    if holds { 0xFFFF } else { 0 }
}

fn pick(draw: &mut Draw, operators: &[Operator]) -> Operator {
    match operators.get(draw.index(operators.len())) {
        Some(operator) => *operator,
        None => Operator::Plus,
    }
}

/// A number in one of the bases.
pub(crate) fn number(alloc: Global, draw: &mut Draw, value: u16) -> Result<String, AllocError> {
    Ok(match draw.below(8) {
        0 => format!(in alloc; "{value:b}B")?,
        1 => format!(in alloc; "{value:o}Q")?,
        2 => format!(in alloc; "0{value:X}H")?,
        3 => format!(in alloc; "0{value:04x}h")?,
        4 => format!(in alloc; "{value:o}o")?,
        5 => format!(in alloc; "{value}D")?,
        _ => format!(in alloc; "{value}")?,
    })
}

fn plain(alloc: Global, draw: &mut Draw, value: u16) -> Result<Expression, AllocError> {
    Ok(Expression {
        text: number(alloc, draw, value)?,
        value,
    })
}

/// A number that is usually small.
fn some_number(alloc: Global, draw: &mut Draw) -> Result<Expression, AllocError> {
    let value = if draw.one_in(3) {
        draw.word()
    } else {
        draw.word() % 20
    };
    plain(alloc, draw, value)
}

fn name(alloc: Global, draw: &mut Draw, scope: Scope<'_>) -> Result<Expression, AllocError> {
    let index = draw.index(scope.names.len());
    match scope.names.get(index) {
        Some(value) => Ok(Expression {
            text: format!(in alloc; "K{index}")?,
            value: *value,
        }),
        None => some_number(alloc, draw),
    }
}

fn letter(alloc: Global, draw: &mut Draw) -> Result<Expression, AllocError> {
    let value = 65 + draw.below(26);
    let letter = char::from((value % 128) as u8);
    Ok(Expression {
        text: format!(in alloc; "'{letter}'")?,
        value: value as u16,
    })
}

/// A term with a prefix operator.
fn prefixed(alloc: Global, draw: &mut Draw) -> Result<Expression, AllocError> {
    let term = some_number(alloc, draw)?;
    let (prefix, value) = match draw.below(4) {
        0 => ("-", 0u16.wrapping_sub(term.value)),
        1 => ("+", term.value),
        2 => ("HIGH ", term.value / 256),
        _ => ("low ", term.value % 256),
    };
    Ok(Expression {
        text: format!(in alloc; "{prefix}{}", term.text)?,
        value,
    })
}

/// A sum in parentheses, or an address minus itself, which is 0.
fn parenthesized(
    alloc: Global,
    draw: &mut Draw,
    scope: Scope<'_>,
) -> Result<Expression, AllocError> {
    if scope.has_places && draw.one_in(4) {
        return Ok(Expression {
            text: format!(in alloc; "($-$)")?,
            value: 0,
        });
    }
    let left = some_number(alloc, draw)?;
    let right = some_number(alloc, draw)?;
    Ok(Expression {
        text: format!(in alloc; "({} - {})", left.text, right.text)?,
        value: left.value.wrapping_sub(right.value),
    })
}

fn leaf(alloc: Global, draw: &mut Draw, scope: Scope<'_>) -> Result<Expression, AllocError> {
    match draw.below(8) {
        0 | 1 => name(alloc, draw, scope),
        2 => letter(alloc, draw),
        3 => prefixed(alloc, draw),
        4 => parenthesized(alloc, draw, scope),
        _ => some_number(alloc, draw),
    }
}

fn joined(
    alloc: Global,
    left: Expression,
    operator: Operator,
    right: Expression,
) -> Result<Expression, AllocError> {
    Ok(Expression {
        text: format!(in alloc; "{}{}{}", left.text, operator.text(), right.text)?,
        value: operator.value(left.value, right.value),
    })
}

fn product(alloc: Global, draw: &mut Draw, scope: Scope<'_>) -> Result<Expression, AllocError> {
    let mut all = leaf(alloc, draw, scope)?;
    for _ in 0..draw.below(5) / 3 {
        let operator = pick(draw, &PRODUCTS);
        let right = if operator.is_division() {
            let divisor = 1 + draw.word() % 300;
            plain(alloc, draw, divisor)?
        } else {
            leaf(alloc, draw, scope)?
        };
        all = joined(alloc, all, operator, right)?;
    }
    Ok(all)
}

fn sum(alloc: Global, draw: &mut Draw, scope: Scope<'_>) -> Result<Expression, AllocError> {
    let mut all = product(alloc, draw, scope)?;
    for _ in 0..draw.below(6) / 3 {
        let operator = pick(draw, &SUMS);
        let right = product(alloc, draw, scope)?;
        all = joined(alloc, all, operator, right)?;
    }
    Ok(all)
}

/// A comparison or only a sum, sometimes with NOT before it.
fn comparison(alloc: Global, draw: &mut Draw, scope: Scope<'_>) -> Result<Expression, AllocError> {
    let mut all = sum(alloc, draw, scope)?;
    if draw.one_in(4) {
        let operator = pick(draw, &COMPARISONS);
        let right = sum(alloc, draw, scope)?;
        all = joined(alloc, all, operator, right)?;
    }
    if draw.one_in(8) {
        all = Expression {
            text: format!(in alloc; "NOT {}", all.text)?,
            value: !all.value,
        };
    }
    Ok(all)
}

fn conjunction(alloc: Global, draw: &mut Draw, scope: Scope<'_>) -> Result<Expression, AllocError> {
    let left = comparison(alloc, draw, scope)?;
    if draw.one_in(6) {
        let right = comparison(alloc, draw, scope)?;
        return joined(alloc, left, Operator::And, right);
    }
    Ok(left)
}

/// An expression with operators of all levels.
pub(crate) fn some_expression(
    alloc: Global,
    draw: &mut Draw,
    scope: Scope<'_>,
) -> Result<Expression, AllocError> {
    let left = conjunction(alloc, draw, scope)?;
    if draw.one_in(6) {
        let operator = pick(draw, &CHOICES);
        let right = conjunction(alloc, draw, scope)?;
        return joined(alloc, left, operator, right);
    }
    Ok(left)
}

/// The most characters of an expression within another. A line with two of them and the text around them is not too long.
const LONGEST: usize = 80;

/// A random text with this value that does not begin with a parenthesis.
pub(crate) fn text_of(
    alloc: Global,
    draw: &mut Draw,
    scope: Scope<'_>,
    value: u16,
) -> Result<String, AllocError> {
    match draw.below(4) {
        0 | 1 => number(alloc, draw, value),
        2 => {
            let known = name(alloc, draw, scope)?;
            let rest = number(alloc, draw, value.wrapping_sub(known.value))?;
            format!(in alloc; "{}+{rest}", known.text)
        }
        _ => {
            let more = some_expression(alloc, draw, scope)?;
            if more.text.len() > LONGEST {
                return number(alloc, draw, value);
            }
            let rest = number(alloc, draw, value.wrapping_sub(more.value))?;
            format!(in alloc; "{rest}+({})", more.text)
        }
    }
}

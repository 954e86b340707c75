//! What the sizes of a program depend on.

use crate::limits::MOST_STATEMENTS;
use std::marker::Model;

/// The size of one statement of a program. Targets are numbers of statements, counted from 0; the count of all
/// statements means the end.
#[derive(Clone, Copy, Debug, PartialEq, Eq)]
pub enum Statement {
    /// This many bytes, from 1 to 65,535.
    Fixed(u16),
    /// A relaxable jump to a statement, of two bytes or three.
    Jump(u32),
    /// A jump to a statement that always takes two bytes: `JR` or `DJNZ`.
    Short(u32),
}

impl Statement {
    ghost use Rattle.std.specs.Prelude.{◌≡◌, ◌++◌, ◌↔◌, IsTrue, decimal};
    ghost use Rattle.cert_check.specs.Choice.{IsStatement};
    ghost use Rattle.cert_check.specs.Texts.{statement_line};

    /// Whether a program of `count` statements may have it.
    pub(crate) fn is_within(self, count: usize) -> bool
        ensures { IsTrue result ↔ IsStatement count self }
    {
        match self {
            Statement::Fixed(bytes) => bytes >= 1,
            Statement::Jump(target) | Statement::Short(target) => target as usize <= count,
        }
    }

    /// The word of its line with the space after it, and its number.
    pub(crate) fn parts(self) -> (&'static [u8], u32)
        ensures { statement_line self ≡ result.0.now ++ decimal result.1 }
    {
        match self {
            Statement::Fixed(bytes) => (b"F ", u32::from(bytes)),
            Statement::Jump(target) => (b"J ", target),
            Statement::Short(target) => (b"S ", target),
        }
    }
}

/// The statements of a program, at most 20,000. Clauses see it as their list.
#[derive(Drop)]
pub struct Shape {
    statements: Vec<Statement>,
}

impl Model for Shape {
    ghost use Rattle.std.specs.Prelude.{List};
    ghost use Rattle.cert_check.specs.declared.shape.Statement.{Statement};
    ghost use Rattle.cert_check.specs.Choice.{IsShape};

    ghost Value = { List Statement };

    ghost view = { λ s. s.statements.items };

    ghost invariant = { λ s. IsShape s.statements.items };
}

impl Shape {
    ghost use Rattle.std.specs.Prelude.{◌≡◌, ◌↔◌, IsTrue};
    ghost use Rattle.cert_check.specs.Choice.{IsShape};

    /// Makes the shape of these statements. [`is_shape`](Shape::is_shape) has to be true of them.
    pub fn new(statements: Vec<Statement>) -> Self
        requires { IsShape statements.items }
        ensures { result ≡ statements.items }
    {
        Shape { statements }
    }

    /// Whether these statements are a shape: at most 20,000, none of 0 bytes, and each target the number of a statement
    /// or their count.
    pub fn is_shape(statements: &[Statement]) -> bool
        ensures { IsTrue result ↔ IsShape statements.now }
    {
        let count = statements.len();
        count <= MOST_STATEMENTS && statements.iter().all(|s| s.is_within(count))
    }

    /// The statements.
    pub fn statements(&self) -> &[Statement]
        ensures value { result.now ≡ self.now }
        ensures shape { IsShape result.now }
    {
        &self.statements
    }
}

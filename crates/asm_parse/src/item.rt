//! The items of expressions in postfix order.

ghost use Rattle.std.specs.Prelude.{◌≡◌, IfOk};
ghost use Rattle.common.specs.Words.{upper};
ghost use Rattle.asm_parse.specs.Source.{Name, view_item, view_operand, operand, source_item};

use crate::operator::{Binary, Unary};
use crate::short_name::ShortName;
use smallvec::SmallVec;
use std::alloc::{AllocError, Global};

/// A name as a parsed line keeps it: up to sixteen bytes are kept in place and take no other memory.
pub type KeptName = SmallVec<u8, 16>;

/// An item of an expression in postfix order: a leaf, or an operator, which comes after its operands.
#[derive(Clone, Copy, Debug, PartialEq, Eq)]
pub enum Item<L> {
    Leaf(L),
    Unary(Unary),
    Binary(Binary),
}

/// A leaf of a source's expression, as a tree keeps it. A tree is mainly a list of these, so a short name is kept in place, and
/// only a longer one takes memory of its own.
#[derive(Debug, Drop)]
pub enum Term {
    Number(u16),
    /// A name in upper case, of up to fourteen bytes.
    Short(ShortName),
    /// A name in upper case of more than fourteen bytes.
    Long(Box<Vec<u8>>),
    /// `$`: the address of the statement.
    Here,
}

/// What a term is, wherever its name is in memory.
#[derive(Clone, Copy, Debug)]
pub enum TermView<'a> {
    Number(u16),
    Name(&'a [u8]),
    Here,
}

impl Term {
    /// A term of a name, exactly as given.
    pub(crate) fn name(alloc: Global, text: &[u8]) -> Result<Term, AllocError>
        ensures { IfOk result (λ term. operand term ≡ Name text.now) }
    {
        match ShortName::new(text) {
            Some(short) => Ok(Term::Short(short)),
            None => Ok(Term::Long(Box::new(alloc, Vec::from_slice(alloc, text)?)?)),
        }
    }

    /// A term of a name, put into upper case.
    pub(crate) fn upper(alloc: Global, text: &[u8]) -> Result<Term, AllocError>
        ensures { IfOk result (λ term. operand term ≡ Name (upper text.now)) }
    {
        match ShortName::new(text) {
            Some(mut short) => {
                short.make_upper();
                Ok(Term::Short(short))
            }
            None => Ok(Term::Long(Box::new(alloc, text.to_ascii_uppercase(alloc)?)?)),
        }
    }

    /// What the term is, wherever its name is in memory.
    pub fn view(&self) -> TermView<'_>
        ensures { view_operand result ≡ operand self.now }
    {
        match self {
            Term::Number(n) => TermView::Number(*n),
            Term::Short(name) => TermView::Name(name.as_slice()),
            Term::Long(name) => TermView::Name(name.as_slice()),
            Term::Here => TermView::Here,
        }
    }
}

impl Item<Term> {
    /// What the item is, wherever its name is in memory.
    pub fn view(&self) -> Item<TermView<'_>>
        ensures { view_item result ≡ source_item self.now }
    {
        match self {
            Item::Leaf(term) => Item::Leaf(term.view()),
            Item::Unary(op) => Item::Unary(*op),
            Item::Binary(op) => Item::Binary(*op),
        }
    }
}

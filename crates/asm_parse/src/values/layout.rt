//! Statements in order, and the distances between them.

ghost use Rattle.std.specs.Prelude.{◌≡◌, ◌++◌, ◌∷◌, [], List, IfOk, OnOk, OnErr, MatchOption, ◌<◌, ◌≤◌, length, take};
ghost use Rattle.asm_parse.specs.declared.values.statement.Statement.{Statement};
ghost use Rattle.asm_parse.specs.Values.Distances.{distance, some_distance};
ghost use Rattle.asm_parse.specs.Private.Sums.{IsBefore, gap};

use crate::values::statement::Statement;
use crate::values::worth::Worth;
use std::alloc::{AllocError, Global};
use std::marker::Model;

/// What comes before an address: how many bytes of known sizes, modulo 65,536, how many relaxable jumps, and how many statements of
/// unknown size.
#[derive(Clone, Copy, Debug)]
struct Before {
    bytes: u16,
    relaxable: usize,
    unknown: usize,
}

/// How far the address p is after the address q, given what comes before each.
fn gap(p: Before, q: Before) -> Worth
    ensures { result ≡ gap p q }
{
    if p.relaxable != q.relaxable {
        Worth::Varies
    } else if p.unknown != q.unknown {
        Worth::Unknown
    } else {
        Worth::Number(p.bytes.wrapping_sub(q.bytes))
    }
}

/// A statement, and what comes before it.
#[derive(Clone, Copy, Debug)]
struct Passed {
    statement: Statement,
    before: Before,
}

/// Statements in order, each as its size, and the distances between their addresses. Clauses see the list of statements. Finding a
/// distance takes constant time, whatever is between.
#[derive(Debug, Drop)]
pub struct Layout {
    passed: Vec<Passed>,
    end: Before,
}

impl Model for Layout {
    ghost use Rattle.std.specs.Prelude.{List, map};
    ghost use Rattle.asm_parse.specs.declared.values.statement.Statement.{Statement};
    ghost use Rattle.asm_parse.specs.Private.Sums.{AreSummed};

    ghost Value = { List Statement };

    ghost view = { λ l. map (λ p. p.statement) l.passed.items };

    ghost invariant = { λ l. AreSummed l.passed.items l.end };
}

impl Layout {
    /// A layout of no statements.
    pub fn new(alloc: Global) -> Layout
        ensures { result ≡ [] }
    {
        Layout {
            passed: Vec::new(alloc),
            end: Before {
                bytes: 0,
                relaxable: 0,
                unknown: 0,
            },
        }
    }

    /// A layout of no statements, with room for this many.
    pub fn with_capacity(alloc: Global, count: usize) -> Result<Layout, AllocError>
        ensures { IfOk result (λ layout. layout ≡ []) }
    {
        Ok(Layout {
            passed: Vec::with_capacity(alloc, count)?,
            end: Before {
                bytes: 0,
                relaxable: 0,
                unknown: 0,
            },
        })
    }

    /// How many statements there are so far.
    pub fn len(&self) -> usize
        ensures { result ≡ length self.now }
    {
        self.passed.len()
    }

    /// Appends a statement. If memory runs out, the statements stay as they were.
    pub fn pass(&mut self, statement: Statement) -> Result<(), AllocError>
        ensures ok { OnOk result (self.new ≡ self.old ++ statement ∷ []) }
        ensures err { OnErr result (self.new ≡ self.old) }
    {
        self.passed.push(Passed {
            statement,
            before: self.end,
        })?;
        match statement {
            Statement::Sized(size) => self.end.bytes = self.end.bytes.wrapping_add(size),
            Statement::Relaxable => self.end.relaxable += 1,
            Statement::Unsized => self.end.unknown += 1,
        }
        Ok(())
    }

    /// What comes before a statement, or before the end; None for a number past the end.
    fn before(&self, statement: u16) -> Option<Before>
        ensures { MatchOption result (length self.now < statement) (λ b. (statement ≤ length self.now) × IsBefore (take statement self.now) b) }
    {
        let at = usize::from(statement);
        if at == self.passed.len() {
            Some(self.end)
        } else {
            self.passed.get(at).map(|passed| passed.before)
        }
    }

    /// How far statement `p` is after statement `q`, modulo 65,536. Both are numbers from 0, and the number of all statements means
    /// their end. The answer is a number if no relaxable jump is between the two and each size between them is known. It is
    /// `Varies` if a relaxable jump is between them, whatever else is, and otherwise `Unknown` if a size is not known. It is also
    /// `Varies` if `p` or `q` is past the end, since then it is no statement.
    pub fn distance(&self, p: u16, q: u16) -> Worth
        ensures { result ≡ distance self.now p q }
    {
        match (self.before(p), self.before(q)) {
            (Some(p), Some(q)) => gap(p, q),
            _ => Worth::Varies,
        }
    }

    /// How far statement `p` is from an address that is not known: `Varies` if `p` is past the end, otherwise `Unknown`.
    pub fn some_distance(&self, p: u16) -> Worth
        ensures { result ≡ some_distance self.now p }
    {
        if self.passed.len() < usize::from(p) {
            Worth::Varies
        } else {
            Worth::Unknown
        }
    }
}

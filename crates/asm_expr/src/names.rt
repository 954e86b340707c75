//! The table of a module's names: what each stands for, and how large the statements are.

ghost use Rattle.std.specs.Prelude.{◌≡◌, IfOk, IfSome, None, OnOk, OnErr, option_copied};
ghost use Rattle.asm_expr.specs.Types.{Statement};
ghost use Rattle.asm_expr.specs.Distances.{distance, some_distance};
ghost use Rattle.asm_expr.specs.Names.{AreCounted, IsCounted, empty, found, with_meaning, with_statement};
ghost use Rattle.asm_expr.specs.Private.Entries.{Knows};
ghost use Rattle.asm_expr.specs.Private.Left.{IsLeftName};

use crate::answer::Settled;
use crate::left::is_left;
use crate::meaning::Meaning;
use asm_parse::{Expr, Layout, MOST_ITEMS, Statement, Worth};
use common::NameKey;
use indexmap::IndexMap;
use std::alloc::{AllocError, Global};
use std::marker::Model;

/// What a name stands for, and what is known about settling it.
#[derive(Debug, Drop)]
struct Entry {
    meaning: Meaning,
    /// How many statements the table had when settling was found to leave the name's expression as it is.
    left_at: Option<usize>,
}

/// What each name of a module stands for, which statement's address `$` is, and the statements in order. Clauses see the table of
/// these.
#[derive(Debug, Drop)]
pub struct Names {
    entries: IndexMap<Vec<u8>, Entry, NameKey>,
    here: u16,
    statements: Layout,
}

impl Model for Names {
    ghost use Rattle.asm_expr.specs.Names.{AreCounted, Table};
    ghost use Rattle.asm_expr.specs.Private.Entries.{AreKnown, table_of};

    ghost Value = { Table };

    ghost view = { λ n. table_of n.entries.entries n.here n.statements };

    ghost invariant = { λ n. AreCounted (table_of n.entries.entries n.here n.statements) × AreKnown n.statements n.entries.entries };
}

impl Names {
    /// An empty table.
    pub fn new(alloc: Global) -> Names
        ensures { result ≡ empty }
    {
        Names::keyed(alloc, NameKey::of(&[]))
    }

    /// An empty table whose names will be looked up by this key.
    pub fn keyed(alloc: Global, key: NameKey) -> Names
        ensures { result ≡ empty }
    {
        Names {
            entries: IndexMap::with_hasher(alloc, key),
            here: 0,
            statements: Layout::new(alloc),
        }
    }

    /// An empty table whose names will be looked up by this key, with room for this many names and statements.
    pub fn with_capacity(
        alloc: Global,
        key: NameKey,
        names: usize,
        statements: usize,
    ) -> Result<Names, AllocError>
        ensures { IfOk result (λ table. table ≡ empty) }
    {
        Ok(Names {
            entries: IndexMap::with_capacity_and_hasher(alloc, names, key)?,
            here: 0,
            statements: Layout::with_capacity(alloc, statements)?,
        })
    }

    /// Adds a name in upper case that is not in the table yet. If it is an EQU name, its expression has to stand for at least as
    /// many terms and operators as it has items.
    pub fn define(&mut self, name: Vec<u8>, meaning: Meaning) -> Result<(), AllocError>
        requires new { found self.old name.items ≡ None }
        requires counted { IsCounted meaning }
        ensures ok { OnOk result (self.new ≡ with_meaning name.items meaning self.old) }
        ensures err { OnErr result (self.new ≡ self.old) }
    {
        let left_at = self.left_at(&meaning);
        self.entries.insert(name, Entry { meaning, left_at })?;
        Ok(())
    }

    /// How many statements there are so far, if settling leaves the expression of this meaning as it is; None otherwise.
    fn left_at(&self, meaning: &Meaning) -> Option<usize>
        ensures { Knows self.now.statements meaning.now result }
    {
        let Meaning::Equ(equated) = meaning else {
            return None;
        };
        let Settled::Known(expr) = &equated.settled else {
            return None;
        };
        if is_left(expr, self) {
            Some(self.statements.len())
        } else {
            None
        }
    }

    /// Sets the number of the statement whose address is `$`.
    pub fn set_here(&mut self, statement: u16)
        ensures { self.new ≡ record self.old { here = statement } }
    {
        self.here = statement;
    }

    /// The number of the statement whose address is `$`.
    pub fn here(&self) -> u16
        ensures { result ≡ self.now.here }
    {
        self.here
    }

    /// A law of the table: each EQU name's expression stands for at least as many terms and operators as it has items.
    pub fn counted(&self)
        ensures { AreCounted self.now }
    {
        let _here = self.here;
    }

    /// Appends a statement that has the same size in every choice of jumps.
    pub fn pass_fixed(&mut self, size: u16) -> Result<(), AllocError>
        ensures ok { OnOk result (self.new ≡ with_statement (Statement.Sized size) self.old) }
        ensures err { OnErr result (self.new ≡ self.old) }
    {
        self.statements.pass(Statement::Sized(size))
    }

    /// Appends a relaxable jump.
    pub fn pass_jump(&mut self) -> Result<(), AllocError>
        ensures ok { OnOk result (self.new ≡ with_statement Statement.Relaxable self.old) }
        ensures err { OnErr result (self.new ≡ self.old) }
    {
        self.statements.pass(Statement::Relaxable)
    }

    /// Appends a statement whose size is not known, because its own line has an error.
    pub fn pass_unsized(&mut self) -> Result<(), AllocError>
        ensures ok { OnOk result (self.new ≡ with_statement Statement.Unsized self.old) }
        ensures err { OnErr result (self.new ≡ self.old) }
    {
        self.statements.pass(Statement::Unsized)
    }

    /// What a name in upper case stands for; None if it is not in the table.
    pub fn meaning(&self, name: &[u8]) -> Option<&Meaning>
        ensures { option_copied result ≡ found self.now name.now }
    {
        match self.entries.get(name) {
            Some(entry) => Some(&entry.meaning),
            None => None,
        }
    }

    /// The expression that an EQU name stands for, if settling leaves it as it is. None if it does not, or if that is not known.
    pub(crate) fn left(&self, name: &[u8]) -> Option<&Expr>
        ensures { IfSome result (λ expr. IsLeftName self.now name.now expr.now) }
    {
        let entry = self.entries.get(name)?;
        let Meaning::Equ(equated) = &entry.meaning else {
            return None;
        };
        let Settled::Known(expr) = &equated.settled else {
            return None;
        };
        let Some(count) = entry.left_at else {
            return None;
        };
        if count == self.statements.len() && usize::from(equated.size) <= MOST_ITEMS {
            Some(expr)
        } else {
            None
        }
    }

    /// How far the address of statement `p` is after that of statement `q`, modulo 65,536: how many bytes the statements between
    /// them take. The answer is `Varies` if `p` or `q` is neither a statement nor the end.
    pub fn distance(&self, p: u16, q: u16) -> Worth
        ensures { result ≡ distance self.now.statements p q }
    {
        self.statements.distance(p, q)
    }

    /// How far a statement is from an address that is not known.
    pub(crate) fn some_distance(&self, p: u16) -> Worth
        ensures { result ≡ some_distance self.now.statements p }
    {
        self.statements.some_distance(p)
    }
}

//! Settles labels and externals first: what they stand for does not depend on EQU lines.

ghost use Rattle.std.specs.Prelude.{◌≡◌, ◌<◌, ◌+◌, IfOk, None, OnOk, length, map};
ghost use Rattle.std.specs.List.{IsDistinct};
ghost use Rattle.std.specs.Str.{bytes_eq};
ghost use Rattle.asm_expr.specs.Names.{empty, found, with_statement};
ghost use Rattle.asm_names.specs.Layout.{layout_of};
ghost use Rattle.asm_names.specs.Private.Placed.{Defines, HasPlaces};

use crate::kind::Kind;
use crate::layout::Layout;
use crate::table::NameTable;
use asm_expr::{Meaning, Names, Statement};
use common::NameKey;
use std::alloc::{AllocError, Global};

/// Appends a statement to those of the table.
fn pass(names: &mut Names, statement: Statement) -> Result<(), AllocError>
    ensures { OnOk result (names.new ≡ with_statement statement names.old) }
{
    match statement {
        Statement::Sized(size) => names.pass_fixed(size),
        Statement::Relaxable => names.pass_jump(),
        Statement::Unsized => names.pass_unsized(),
    }
}

/// An empty table of names that will be looked up by this key, with room for `count` names, and with all statements.
fn passed(
    alloc: Global,
    key: NameKey,
    count: usize,
    statements: &[Statement],
) -> Result<Names, AllocError>
    ensures { IfOk result (λ names. names ≡ record empty { statements = statements.now }) }
{
    let mut names = Names::with_capacity(alloc, key, count, statements.len())?;
    for statement in statements {
        pass(&mut names, *statement)?;
    }
    Ok(names)
}

/// The labels and externals so far, and the ref of the next external. A ref is a number that stands for an address.
#[derive(Debug, Drop)]
struct Places {
    names: Names,
    external: u16,
}

impl Places {
    /// Defines a label or an external. Does nothing for a name that EQU defines.
    fn define(
        &mut self,
        alloc: Global,
        name: &[u8],
        kind: Kind,
        layout: &Layout,
    ) -> Result<(), AllocError>
        requires new { found self.old.names name.now ≡ None }
        requires few { self.old.external < 65535 }
        ensures { OnOk result (Defines (layout_of layout.now) name.now kind self.old self.new) }
    {
        match kind {
            Kind::Label(line) => {
                let statement = layout.next_at(line);
                self.names
                    .define(name.to_vec(alloc)?, Meaning::Label(statement))?;
            }
            Kind::External => {
                self.names
                    .define(name.to_vec(alloc)?, Meaning::External(self.external))?;
                self.external += 1;
            }
            Kind::Equ(_) => {}
        }
        Ok(())
    }
}

/// What each label and external stands for, and the statements. The refs of externals come after those of the statements and of
/// their end.
pub(crate) fn places_of(
    alloc: Global,
    table: &NameTable,
    layout: &Layout,
) -> Result<Names, AllocError>
    requires distinct { IsDistinct bytes_eq (map (λ d. d.0) table.now) }
    requires few { (length layout.now.statements.items + 1) + length table.now < 65536 }
    ensures { IfOk result (HasPlaces table.now (layout_of layout.now)) }
{
    let mut places = Places {
        names: passed(alloc, table.key(), table.len(), &layout.statements)?,
        external: layout.statements.len() as u16 + 1,
    };
    let mut at = 0;
    while let Some((name, kind)) = table.get(at) {
        places.define(alloc, name, kind, layout)?;
        at += 1;
    }
    Ok(places.names)
}

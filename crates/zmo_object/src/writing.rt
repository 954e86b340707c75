//! Writes the one object file of a module.

ghost use Rattle.std.specs.Prelude.{◌≡◌, ◌++◌, OnOk, IfOk, All, map};
ghost use Rattle.std.specs.List.{flat_map};
ghost use Rattle.zmo_object.specs.Modules.{module_of, statement_of};
ghost use Rattle.zmo_object.specs.Rules.{IsModule};
ghost use Rattle.zmo_object.specs.Texts.{statement_text, module_text};
ghost use Rattle.zmo_object.specs.Private.{FitsWords};

use crate::header::put_header;
use crate::label::{put_externals, put_labels, put_publics};
use crate::statement::put_statement;
use crate::{Module, Statement};
use std::alloc::{AllocError, Global};

/// Appends statements.
fn put_statements(text: &mut Vec<u8>, statements: &[Statement]) -> Result<(), AllocError>
    requires { All (λ s. FitsWords (statement_of s)) statements.now }
    ensures { OnOk result (text.new.items ≡ text.old.items ++ flat_map statement_text (map statement_of statements.now)) }
{
    for statement in statements {
        put_statement(text, statement)?;
    }
    Ok(())
}

/// Answers the one object file of a module that keeps the rules.
///
/// # Errors
///
/// `AllocError` if memory ran out.
pub fn write(alloc: Global, module: &Module) -> Result<Vec<u8>, AllocError>
    requires { IsModule (module_of «module».now) }
    ensures { IfOk result (λ text. text.items ≡ module_text (module_of «module».now)) }
{
    let mut text = Vec::new(alloc);
    put_header(&mut text, module)?;
    put_statements(&mut text, &module.statements)?;
    put_labels(&mut text, &module.labels)?;
    put_publics(&mut text, &module.publics)?;
    put_externals(&mut text, &module.externals)?;
    Ok(text)
}

//! Macros and their calls.

ghost use Rattle.std.specs.Prelude.{◌≡◌, IfOk, IfSome, All, List, ℕ};
ghost use Rattle.std.specs.Option.{option_map};
ghost use Rattle.std.specs.Map.{lookup};
ghost use Rattle.std.specs.Str.{bytes_eq};
ghost use Rattle.asm_text.specs.Prepared.{macro_seen, macros_seen};
ghost use Rattle.asm_line.specs.Replacing.Views.{texts};
ghost use Rattle.asm_text.specs.Kept.{AreNames, IsKeptMacro, VariesIn};

use crate::lines::Lines;
use crate::open::{Opened, open};
use crate::plain::Plain;
use crate::span::Span;
use crate::varying::{Varying, varying_of};
use asm_line::{Names, Replacements};
use common::NameKey;
use indexmap::IndexMap;
use std::alloc::{AllocError, Global};
use std::rc::Rc;

/// A macro: its parameters in upper case, the lines of its body, and what `Macro::new` finds in them once for all calls.
#[derive(Debug, Drop)]
pub struct Macro {
    pub parameters: Vec<Vec<u8>>,
    pub body: Span,
    /// The LOCAL names and the lines after them; None if a LOCAL line is malformed.
    pub(crate) opened: Option<Opened>,
    /// The parameters, then the LOCAL names of the body.
    pub(crate) names: Rc<Names>,
    pub(crate) varying: Rc<Varying>,
}

/// What a call replaces names by, and which lines of the body may have another role there than they have as written.
#[derive(Debug, Drop)]
pub struct Call {
    pub(crate) names: Replacements,
    pub(crate) varying: Rc<Varying>,
    pub(crate) plain: Plain,
}

/// The names that each call of a macro replaces: its parameters, then its LOCAL names.
fn names_in(
    alloc: Global,
    parameters: &[Vec<u8>],
    opened: Option<&Opened>,
) -> Result<Names, AllocError>
    ensures { IfOk result (AreNames (texts parameters.now) (option_map (λ o. o.now) opened.entry)) }
{
    match opened {
        Some(opened) => Names::new(alloc, parameters, &opened.locals),
        None => Names::new(alloc, parameters, &[]),
    }
}

/// Finds which lines of a body, after its LOCAL lines, may have another role in a call than they have as written.
fn varying_in(
    alloc: Global,
    lines: &Lines<'_>,
    names: &Names,
    opened: Option<&Opened>,
) -> Result<Varying, AllocError>
    ensures { IfOk result (VariesIn lines.now names.now (option_map (λ o. o.now) opened.entry)) }
{
    let Some(opened) = opened else {
        return Ok(Varying::none(alloc));
    };
    varying_of(alloc, lines, names, opened.rest)
}

impl Macro {
    ghost use Rattle.std.specs.Prelude.{◌≡◌, IfOk};
    ghost use Rattle.asm_text.specs.Kept.{IsKeptMacro};

    /// Makes a macro. Looks through its body once for its LOCAL lines and for the lines whose role may vary, so that its calls need
    /// not.
    pub fn new(
        alloc: Global,
        lines: &Lines<'_>,
        parameters: Vec<Vec<u8>>,
        body: Span,
    ) -> Result<Macro, AllocError>
        ensures kept { IfOk result (λ m. IsKeptMacro lines.now m) }
        ensures parts { IfOk result (λ m. (m.parameters ≡ parameters) × (m.body ≡ body)) }
    {
        let opened = open(alloc, lines, body)?;
        let names = names_in(alloc, &parameters, opened.as_ref())?;
        let varying = varying_in(alloc, lines, &names, opened.as_ref())?;
        Ok(Macro {
            parameters,
            body,
            opened,
            names: Rc::new(alloc, names)?,
            varying: Rc::new(alloc, varying)?,
        })
    }
}

/// The macro with this name, which is in upper case, or None if there is none.
pub fn macro_of<'a>(macros: &'a IndexMap<Vec<u8>, Macro, NameKey>, name: &[u8]) -> Option<&'a Macro>
    ensures found { (texts : List (List ℕ)) → option_map (λ m. macro_seen texts m.now) result ≡ lookup (bytes_eq name.now) (macros_seen texts macros.now.entries) }
    ensures kept { (texts : List (List ℕ)) → All (λ e. IsKeptMacro texts e.1) macros.now.entries → IfSome result (λ m. IsKeptMacro texts m.now) }
{
    macros.get(name)
}

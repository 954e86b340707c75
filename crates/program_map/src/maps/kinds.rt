//! Tells what the statements of a program are, from its sources.

ghost use Rattle.std.specs.Prelude.{◌≡◌, ◌≤◌, ◌++◌, ℕ, Bool, IfOk, List, Ok, OnOk, length, map};
ghost use Rattle.std.specs.List.{slice_index_or};
ghost use Rattle.asm_macro.specs.Expands.{IsExpanded};
ghost use Rattle.asm_module.specs.Assembled.{Assembled, Assembles};
ghost use Rattle.asm_module.specs.Program.Described.{IsProgramOfSource};
ghost use Rattle.asm_module.specs.Reads.Read.{taken};
ghost use Rattle.asm_module.specs.Program.Statement.{Statement as Stated};
ghost use Rattle.asm_text.specs.Lines.{Numbered};
ghost use Rattle.asm_spell.specs.Line.{body_of, line_of};
ghost use Rattle.asm_names.specs.Lines.{lines_of};
ghost use Rattle.zmo_object.specs.Modules.{module_of, statement_of};
ghost use Rattle.zlink.specs.Program.Laws.{statement_count};
ghost use Rattle.zlink.specs.Sources.{Assembly, AreAssembled, modules_of, program_of};
ghost use Rattle.program_map.specs.Kinds.{kinds as all_kinds};
ghost use Rattle.program_map.specs.Private.Telling.{AreTold, is_space_statement, told};
ghost use Rattle.program_map.specs.Private.Telling as spec;

use crate::maps::kind::Kind;
use asm_module::{SourceLine, read_source};
use asm_spell::{Body, Line};
use std::alloc::{AllocError, Global};
use zlink::Source;
use zmo_object::{Module, Statement};

/// Answers what the statement of a word is, if it is not space.
fn body_kind(body: &Body) -> Option<Kind>
    ensures { result ≡ spec.body_kind (body_of body.now) }
{
    match body {
        Body::Code { .. } | Body::Jump { .. } | Body::Short { .. } => Some(Kind::Code),
        Body::Bytes(_) | Body::Words(_) => Some(Kind::Data),
        _ => None,
    }
}

/// Answers what the statement of a line is, if the line has one that is not space.
fn line_kind(line: &Line) -> Option<Kind>
    ensures { result ≡ spec.line_kind (line_of line.now) }
{
    match line {
        Line::Statement {
            body: Some(body),
            ..
        } => body_kind(body),
        _ => None,
    }
}

/// Answers what the statements of lines are, without space.
fn line_kinds(alloc: Global, lines: &[SourceLine]) -> Result<Vec<Kind>, AllocError>
    ensures { IfOk result (λ kinds. kinds.items ≡ spec.line_kinds (lines_of lines.now)) }
{
    let mut kinds = Vec::new(alloc);
    for line in lines {
        if let Some(kind) = line_kind(&line.line) {
            kinds.push(kind)?;
        }
    }
    Ok(kinds)
}

/// Whether a statement is space.
fn is_space(statement: &Statement) -> bool
    ensures { result ≡ is_space_statement (statement_of statement.now) }
{
    matches!(statement, Statement::Space { .. })
}

/// Answers what this line says; code if there is no such line.
fn said_at(said: &[Kind], number: usize) -> Kind
    ensures { result ≡ slice_index_or said.now number (Kind.Code) }
{
    match said.get(number) {
        Some(kind) => *kind,
        None => Kind::Code,
    }
}

/// Appends what the statements of a module are, given what the lines of its source say of those that are not space.
fn put_told(
    kinds: &mut Vec<Kind>,
    said: &[Kind],
    statements: &[Statement],
) -> Result<(), AllocError>
    ensures { OnOk result (kinds.new.items ≡ kinds.old.items ++ told (map statement_of statements.now) said.now) }
{
    let mut next = 0;
    for statement in statements {
        if is_space(statement) {
            kinds.push(Kind::Space)?;
        } else {
            kinds.push(said_at(said, next))?;
            next += 1;
        }
    }
    Ok(())
}

/// The statements of a module are those that its source describes, and what the lines of the source say. (A law: it does nothing, and its
/// clause is a theorem.)
pub(crate) fn told_sources()
    ensures few { (name text : List ℕ) (grow : Bool) (a : Assembled) (p : List Stated) → Assembles name text grow (Ok a) → IsProgramOfSource text grow p → length a.holds.statements ≤ length p }
    ensures told { (name text : List ℕ) (grow : Bool) (a : Assembled) (p : List Stated) (lines : List Numbered) → Assembles name text grow (Ok a) → IsProgramOfSource text grow p →
        IsExpanded text (Ok lines) → AreTold a.holds.statements p (spec.line_kinds (taken lines)) }
{
    asm_macro::laws::one_expansion();
    asm_module::laws::one_answer();
    asm_module::laws::pieces_at_places();
}

/// Appends what the statements of a module are, given the text of its source.
fn put_source(
    alloc: Global,
    kinds: &mut Vec<Kind>,
    text: &[u8],
    module: &Module,
) -> Result<(), AllocError>
    ensures { OnOk result ((name : List ℕ) (grow : Bool) (a : Assembled) (p : List Stated) → Assembles name text.now grow (Ok a) → IsProgramOfSource text.now grow p →
        module_of «module».now ≡ a.holds → length a.holds.statements ≡ length p → kinds.new.items ≡ kinds.old.items ++ all_kinds p) }
{
    told_sources();
    let Ok(source) = read_source(alloc, text) else {
        return Err(AllocError);
    };
    let said = line_kinds(alloc, &source.lines)?;
    put_told(kinds, &said, &module.statements)
}

/// Answers what the statements of the program of sources are, given their modules: instructions, `DB` and `DW`, or `DS`.
///
/// # Errors
///
/// [`AllocError`] if memory ran out, or if a source cannot be expanded, which no source of a program is.
pub fn kinds_of(
    alloc: Global,
    sources: &[Source<'_>],
    modules: &[Module],
) -> Result<Vec<Kind>, AllocError>
    ensures { IfOk result (λ kinds. (grow : Bool) (assemblies : List Assembly) → AreAssembled grow sources.now assemblies → map module_of modules.now ≡ modules_of assemblies →
        length (program_of assemblies) ≡ statement_count (modules_of assemblies) → kinds.items ≡ all_kinds (program_of assemblies)) }
{
    told_sources();
    let mut kinds = Vec::new(alloc);
    for (number, source) in sources.iter().enumerate() {
        let Some(module) = modules.get(number) else {
            return Ok(kinds);
        };
        put_source(alloc, &mut kinds, source.text, module)?;
    }
    Ok(kinds)
}

//! Prints the warnings about jumps.

ghost use Rattle.std.specs.Prelude.{◌≡◌, ◌++◌, [], decimal, IfOk, OnOk, Some, map, slice_get, slice_index, take};
ghost use Rattle.std.specs.List.{flat_map};
ghost use Rattle.std.specs.Option.{option_map_or};
ghost use Rattle.zmo_object.specs.Modules.{module_of, statement_of};
ghost use Rattle.z80dev_make.specs.Private.Shown.{shown_of};
ghost use Rattle.z80dev_make.specs.Warned.{computed_jump_text, condition_text, external_name, fixed_jump, fixed_text, label_name_at, more_text, shown_name, shown_offset_text, jump_over_text, place_in, site_text, reference_name, signed_text, site_of, jump_warning_lines, warning_message, warning_text};

use asm_module::Module;
use source_warnings::{Offset, Site, Warning};
use std::alloc::{AllocError, Global};
use z80_instr::ShortCond;
use zmo_object::Statement;

/// The most warnings that are shown.
const MOST_WARNINGS: usize = 10;

/// From this offset on, the byte is before the address.
const BACK: u16 = 32_768;

/// A source as warnings show it.
#[derive(Clone, Copy)]
pub(crate) struct Shown<'a> {
    pub(crate) path: &'a str,
    /// The line of each statement.
    pub(crate) lines: &'a [u32],
    pub(crate) module: &'a Module,
}

/// Appends a text.
fn put(out: &mut Vec<u8>, text: &str) -> Result<(), AllocError>
    ensures { OnOk result (out.new.items ≡ out.old.items ++ text.now) }
{
    out.extend_from_slice(text.as_bytes())
}

/// Appends a number.
fn put_number(alloc: Global, out: &mut Vec<u8>, number: usize) -> Result<(), AllocError>
    ensures { OnOk result (out.new.items ≡ out.old.items ++ decimal number) }
{
    let text = format!(in alloc; "{number}")?;
    put(out, &text)
}

/// Answers the line of a statement, or 0 if it has none.
pub(crate) fn line_at(lines: &[u32], statement: usize) -> u32
    ensures { result ≡ slice_index lines.now statement }
{
    match lines.get(statement) {
        Some(line) => *line,
        None => 0,
    }
}

/// Appends the line of a statement of a source, as `PATH(LINE)`.
fn put_line(
    alloc: Global,
    out: &mut Vec<u8>,
    source: &Shown<'_>,
    statement: usize,
) -> Result<(), AllocError>
    ensures { OnOk result (out.new.items ≡ out.old.items ++ place_in statement (Some (shown_of source.now))) }
{
    put(out, source.path)?;
    put(out, "(")?;
    put_number(alloc, out, line_at(source.lines, statement) as usize)?;
    put(out, ")")
}

/// Appends the line of a statement, as `PATH(LINE)`.
fn put_place(
    alloc: Global,
    out: &mut Vec<u8>,
    sources: &[Shown<'_>],
    site: Site,
) -> Result<(), AllocError>
    ensures { OnOk result (out.new.items ≡ out.old.items ++ site_text (map shown_of sources.now) site) }
{
    match sources.get(site.module) {
        Some(source) => put_line(alloc, out, source, site.statement),
        None => Ok(()),
    }
}

/// Answers the name of the first label at a statement.
fn label_at(module: &Module, reference: usize) -> &[u8]
    ensures { result.now ≡ label_name_at (module_of «module».now) reference }
{
    for label in &module.labels {
        if usize::from(label.statement) == reference {
            return &label.name;
        }
    }
    b"$"
}

/// Answers the name of an external.
fn external_at(module: &Module, number: usize) -> &[u8]
    ensures { result.now ≡ external_name (module_of «module».now) number }
{
    match module.externals.get(number) {
        Some(name) => name,
        None => b"$",
    }
}

/// Answers the name of a ref in a statement.
fn reference_name(module: &Module, statement: usize, reference: usize) -> &[u8]
    ensures { result.now ≡ reference_name (module_of «module».now) statement reference }
{
    let count = module.statements.len();
    if reference == statement {
        return b"$";
    }
    if reference <= count {
        return label_at(module, reference);
    }
    external_at(module, reference - (count + 1))
}

/// Answers a condition as a jump has it before its target.
fn condition_text(condition: Option<ShortCond>) -> &'static str
    ensures { result.now ≡ condition_text condition }
{
    match condition {
        None => "",
        Some(ShortCond::NotZero) => "NZ,",
        Some(ShortCond::Zero) => "Z,",
        Some(ShortCond::NotCarry) => "NC,",
        Some(ShortCond::Carry) => "C,",
    }
}

/// Appends what to write in place of a statement of a module, if it is a relaxable jump.
fn put_jump(
    out: &mut Vec<u8>,
    module: &Module,
    number: usize,
    statement: &Statement,
) -> Result<(), AllocError>
    ensures { OnOk result (out.new.items ≡ out.old.items ++ fixed_jump (module_of «module».now) number (statement_of statement.now)) }
{
    match statement {
        Statement::Jump {
            condition,
            target,
            ..
        } => {
            put(out, "JP ")?;
            put(out, condition_text(*condition))?;
            out.extend_from_slice(reference_name(module, number, usize::from(*target)))?;
            put(out, "+0")
        }
        _ => Ok(()),
    }
}

/// Appends what to write in place of a jump of a module.
fn put_fixed_in(out: &mut Vec<u8>, module: &Module, number: usize) -> Result<(), AllocError>
    ensures { OnOk result (out.new.items ≡ out.old.items ++ option_map_or (fixed_jump (module_of «module».now) number) (slice_get (module_of «module».now).statements number) []) }
{
    match module.statements.get(number) {
        Some(statement) => put_jump(out, module, number, statement),
        None => Ok(()),
    }
}

/// Appends what to write in place of a jump, so that it always has three bytes.
fn put_fixed(out: &mut Vec<u8>, sources: &[Shown<'_>], site: Site) -> Result<(), AllocError>
    ensures { OnOk result (out.new.items ≡ out.old.items ++ fixed_text (map shown_of sources.now) site) }
{
    match sources.get(site.module) {
        Some(source) => put_fixed_in(out, source.module, site.statement),
        None => Ok(()),
    }
}

/// Appends the number that is added, with its sign.
fn put_signed(alloc: Global, out: &mut Vec<u8>, bytes: u16) -> Result<(), AllocError>
    ensures { OnOk result (out.new.items ≡ out.old.items ++ signed_text bytes) }
{
    if bytes < BACK {
        put(out, "+")?;
        put_number(alloc, out, usize::from(bytes))
    } else {
        put(out, "-")?;
        put_number(alloc, out, 65_536 - usize::from(bytes))
    }
}

/// Appends the name of a ref in the statement at a site.
fn put_name(
    out: &mut Vec<u8>,
    sources: &[Shown<'_>],
    site: Site,
    reference: usize,
) -> Result<(), AllocError>
    ensures { OnOk result (out.new.items ≡ out.old.items ++ shown_name site.statement reference (slice_get (map shown_of sources.now) site.«module»)) }
{
    match sources.get(site.module) {
        Some(source) => {
            out.extend_from_slice(reference_name(source.module, site.statement, reference))
        }
        None => Ok(()),
    }
}

/// Appends an address with the number that is added to it.
fn put_offset(
    alloc: Global,
    out: &mut Vec<u8>,
    sources: &[Shown<'_>],
    site: Site,
    offset: Offset,
) -> Result<(), AllocError>
    ensures { OnOk result (out.new.items ≡ out.old.items ++ shown_offset_text (map shown_of sources.now) site offset) }
{
    put_name(out, sources, site, offset.reference)?;
    put_signed(alloc, out, offset.bytes)
}

/// Appends what a warning about an offset says of the jump.
fn put_jump_over(
    alloc: Global,
    out: &mut Vec<u8>,
    sources: &[Shown<'_>],
    jump: Site,
) -> Result<(), AllocError>
    ensures { OnOk result (out.new.items ≡ out.old.items ++ jump_over_text (map shown_of sources.now) jump) }
{
    put(out, " depends on the length of a jump at ")?;
    put_place(alloc, out, sources, jump)?;
    put(out, ": write ")?;
    put_fixed(out, sources, jump)?;
    put(out, " there to keep 3 bytes")
}

/// Appends what a warning about a jump says that only a computed jump reaches.
fn put_entry(out: &mut Vec<u8>, sources: &[Shown<'_>], site: Site) -> Result<(), AllocError>
    ensures { OnOk result (out.new.items ≡ out.old.items ++ computed_jump_text (map shown_of sources.now) site) }
{
    put(
        out,
        "only a computed jump reaches this jump, whose length may change: write ",
    )?;
    put_fixed(out, sources, site)?;
    put(out, " to keep 3 bytes")
}

/// Appends what a warning says.
pub(crate) fn put_message(
    alloc: Global,
    out: &mut Vec<u8>,
    sources: &[Shown<'_>],
    warning: &Warning,
) -> Result<(), AllocError>
    ensures { OnOk result (out.new.items ≡ out.old.items ++ warning_message (map shown_of sources.now) warning.now) }
{
    match warning {
        Warning::Over(site, offset, jump) => {
            put_offset(alloc, out, sources, *site, *offset)?;
            put_jump_over(alloc, out, sources, *jump)
        }
        Warning::Entry(site) => put_entry(out, sources, *site),
    }
}

/// Answers the statement that a warning is about.
pub(crate) fn site_of(warning: &Warning) -> Site
    ensures { result ≡ site_of warning.now }
{
    match warning {
        Warning::Over(site, ..) | Warning::Entry(site) => *site,
    }
}

/// Appends the line of a warning.
fn put_warning(
    alloc: Global,
    out: &mut Vec<u8>,
    sources: &[Shown<'_>],
    warning: &Warning,
) -> Result<(), AllocError>
    ensures { OnOk result (out.new.items ≡ out.old.items ++ warning_text (map shown_of sources.now) warning.now) }
{
    put(out, "warning: ")?;
    put_place(alloc, out, sources, site_of(warning))?;
    put(out, ": ")?;
    put_message(alloc, out, sources, warning)?;
    put(out, "\n")
}

/// Appends how many warnings are not shown, if there are any.
fn put_more(alloc: Global, out: &mut Vec<u8>, count: usize) -> Result<(), AllocError>
    ensures { OnOk result (out.new.items ≡ out.old.items ++ more_text count) }
{
    if count <= MOST_WARNINGS {
        return Ok(());
    }
    put(out, "warning: ")?;
    put_number(alloc, out, count - MOST_WARNINGS)?;
    put(out, " more\n")
}

/// Appends the lines of these warnings.
fn put_all(
    alloc: Global,
    out: &mut Vec<u8>,
    sources: &[Shown<'_>],
    warnings: &[Warning],
) -> Result<(), AllocError>
    ensures { OnOk result (out.new.items ≡ out.old.items ++ flat_map (warning_text (map shown_of sources.now)) warnings.now) }
{
    for warning in warnings {
        put_warning(alloc, out, sources, warning)?;
    }
    Ok(())
}

/// Answers the lines of warnings: one for each of the first ten, and one with the number of the others.
pub(crate) fn warning_lines(
    alloc: Global,
    sources: &[Shown<'_>],
    warnings: &[Warning],
) -> Result<Vec<u8>, AllocError>
    ensures { IfOk result (λ lines. lines.items ≡ jump_warning_lines (map shown_of sources.now) warnings.now) }
{
    let mut out = Vec::new(alloc);
    let count = warnings.len();
    put_all(
        alloc,
        &mut out,
        sources,
        &warnings[..count.min(MOST_WARNINGS)],
    )?;
    put_more(alloc, &mut out, count)?;
    Ok(out)
}

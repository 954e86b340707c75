//! Prints a map.

ghost use Rattle.std.specs.Prelude.{◌≡◌, ◌++◌, IfOk, OnOk};
ghost use Rattle.program_map.specs.Mapped.{mapped_module_of, mapped_program_of};
ghost use Rattle.program_map.specs.Named.{named_of};
ghost use Rattle.program_map.specs.Text.{byte_columns, free_bytes, free_line, jumps_line, last_text, map_row, module_rows, public_row};
ghost use Rattle.program_map.specs.Text as spec;

use crate::maps::figures::Figures;
use crate::maps::map::{ModuleMap, ProgramMap};
use crate::naming::PlacedName;
use crate::printing::{put, put_address, put_blanks, put_column};
use common::{FIRST_PLACE, LONGEST_PROGRAM};
use std::alloc::{AllocError, Global};

/// Answers the heading.
fn heading(tells_data: bool) -> &'static str
    ensures { result.now ≡ spec.heading tells_data }
{
    if tells_data {
        "first last     code    data   space  module\n"
    } else {
        "first last   code+data   space  module\n"
    }
}

/// Appends the bytes of a module by what they are.
fn put_bytes(
    alloc: Global,
    out: &mut Vec<u8>,
    tells_data: bool,
    figures: Figures,
) -> Result<(), AllocError>
    ensures { OnOk result (out.new.items ≡ out.old.items ++ byte_columns tells_data figures) }
{
    if tells_data {
        put_column(alloc, out, 8, figures.code as usize)?;
        put_column(alloc, out, 8, figures.data as usize)?;
    } else {
        put_column(alloc, out, 12, figures.code as usize)?;
    }
    put_column(alloc, out, 8, figures.space as usize)
}

/// Appends the address of the last byte, or dashes if there are no bytes.
fn put_last(alloc: Global, out: &mut Vec<u8>, first: u32, end: u32) -> Result<(), AllocError>
    ensures { OnOk result (out.new.items ≡ out.old.items ++ last_text first end) }
{
    if first < end {
        put_address(alloc, out, end - 1)
    } else {
        put(out, "----")
    }
}

/// Appends the row of a module, or of the whole program.
fn put_row(
    alloc: Global,
    out: &mut Vec<u8>,
    tells_data: bool,
    first: u32,
    end: u32,
    figures: Figures,
    name: &[u8],
) -> Result<(), AllocError>
    ensures { OnOk result (out.new.items ≡ out.old.items ++ map_row tells_data first end figures name.now) }
{
    put_address(alloc, out, first)?;
    put_blanks(out, 2)?;
    put_last(alloc, out, first, end)?;
    put_bytes(alloc, out, tells_data, figures)?;
    put_blanks(out, 2)?;
    out.extend_from_slice(name)?;
    put(out, "\n")
}

/// Appends the line of a public name.
fn put_public(alloc: Global, out: &mut Vec<u8>, name: &PlacedName) -> Result<(), AllocError>
    ensures { OnOk result (out.new.items ≡ out.old.items ++ public_row (named_of name.now)) }
{
    put_blanks(out, 6)?;
    put_address(alloc, out, name.place)?;
    put_blanks(out, 2)?;
    out.extend_from_slice(&name.name)?;
    put(out, "\n")
}

/// Appends the rows of a module and of its public names.
fn put_module(
    alloc: Global,
    out: &mut Vec<u8>,
    tells_data: bool,
    module: &ModuleMap,
) -> Result<(), AllocError>
    ensures { OnOk result (out.new.items ≡ out.old.items ++ module_rows tells_data (mapped_module_of «module».now)) }
{
    let ModuleMap {
        name,
        first,
        end,
        figures,
        publics,
    } = module;
    put_row(alloc, out, tells_data, *first, *end, *figures, name)?;
    for name in publics {
        put_public(alloc, out, name)?;
    }
    Ok(())
}

/// Appends how many jumps may be short, and how many are short and long.
fn put_jumps(alloc: Global, out: &mut Vec<u8>, figures: Figures) -> Result<(), AllocError>
    ensures { OnOk result (out.new.items ≡ out.old.items ++ jumps_line figures) }
{
    let jumps = figures.jumps;
    let short = figures.short;
    let long = figures.long;
    let line = format!(in alloc;
        "jumps that may be short: {jumps}, short: {short}, long: {long}\n"
    )?;
    put(out, &line)
}

/// Answers how many bytes are free after a program with this end.
fn free_bytes(end: u32) -> u32
    ensures { result ≡ free_bytes end }
{
    (FIRST_PLACE + LONGEST_PROGRAM).saturating_sub(end)
}

/// Appends how many bytes are free.
fn put_free(alloc: Global, out: &mut Vec<u8>, end: u32) -> Result<(), AllocError>
    ensures { OnOk result (out.new.items ≡ out.old.items ++ free_line end) }
{
    let count = free_bytes(end);
    let line = format!(in alloc; "free below FD00H: {count} bytes\n")?;
    put(out, &line)
}

/// Answers the text of a map: a row for each module with its first and last address, its bytes and its name, and under it its public names
/// by address; a row for the whole program; how many jumps may be short, are short and are long; and how many bytes are free below FD00H.
///
/// # Errors
///
/// [`AllocError`] if memory ran out.
pub fn map_text(alloc: Global, map: &ProgramMap) -> Result<Vec<u8>, AllocError>
    ensures { IfOk result (λ text. text.items ≡ spec.map_text (mapped_program_of map.now)) }
{
    let mut out = Vec::new(alloc);
    put(&mut out, heading(map.tells_data))?;
    for module in &map.modules {
        put_module(alloc, &mut out, map.tells_data, module)?;
    }
    let total = map.total;
    put_row(
        alloc,
        &mut out,
        map.tells_data,
        FIRST_PLACE,
        map.end,
        total,
        b"program",
    )?;
    put_jumps(alloc, &mut out, total)?;
    put_free(alloc, &mut out, map.end)?;
    Ok(out)
}

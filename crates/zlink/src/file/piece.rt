//! Writes the bytes of one statement.

ghost use Rattle.std.specs.Prelude.{◌≡◌, ◌≤◌, ◌<◌, ◌+◌, ◌++◌, All, FitsSigned, OnOk, ℕ, ◌^◌, ◌+ℤ◌, drop, length, pos, replicate, slice_index, take};
ghost use Rattle.std.specs.Int.{w8};
ghost use Rattle.relax.specs.Choice.{IsNear};
ghost use Rattle.z80_instr.specs.Codes.{Codes};
ghost use Rattle.z80_instr.specs.Table.{canonical};
ghost use Rattle.asm_stmt.specs.Cells.{written};
ghost use Rattle.asm_stmt.specs.Made.{long_jump};
ghost use Rattle.asm_module.specs.Program.Linked.{filled};
ghost use Rattle.asm_module.specs.Program.Pieces.{IsShortJump, short_jump};
ghost use Rattle.zmo_object.specs.Holes.{IsHole, LieWithin, width_size};
ghost use Rattle.zmo_object.specs.Modules.{statement_of};
ghost use Rattle.zlink.specs.Private.Pieces.{Appends, IsReady, IsSizedPiece};

use asm_parse::value;
use asm_stmt::long_jump;
use std::alloc::AllocError;
use z80_instr::{Branch, Instr, ShortCond, encode};
use zmo_object::{Hole, Statement, Width};

/// Answers the JR or DJNZ with this displacement.
fn short_jump(branch: Branch, displacement: i8) -> Instr
    ensures { result ≡ short_jump branch displacement }
{
    match branch {
        Branch::Relative(None) => Instr::JumpRelative(displacement),
        Branch::Relative(Some(condition)) => Instr::JumpRelativeIf(condition, displacement),
        Branch::CountDown => Instr::Djnz(displacement),
    }
}

/// Answers the displacement of a short jump at `from` to `to`: how far its end is from the target.
fn displacement(from: u32, to: u32) -> i8
    requires near { IsNear from to }
    requires small { from < 2 ^ 31 }
    ensures leads { pos (from + 2) +ℤ result ≡ pos to }
    ensures fits { FitsSigned w8 result }
{
    (i64::from(to) - i64::from(from) - 2) as i8
}

/// Writes an instruction.
fn put_instr(file: &mut Vec<u8>, instr: &Instr) -> Result<(), AllocError>
    ensures ok { OnOk result (file.new.items ≡ file.old.items ++ canonical instr.now) }
    ensures spelled { Codes instr.now (canonical instr.now) }
{
    let mut bytes = [0; 4];
    let len = encode(instr, &mut bytes);
    file.extend_from_slice(&bytes[..usize::from(len)])
}

/// Writes a short jump at address `from` to address `to`.
fn put_short(file: &mut Vec<u8>, branch: Branch, from: u32, to: u32) -> Result<(), AllocError>
    requires near { IsNear from to }
    requires small { from < 2 ^ 31 }
    ensures { OnOk result (Appends file.old.items file.new.items (λ bytes. IsShortJump from to branch bytes × (length bytes ≡ 2))) }
{
    let jump = short_jump(branch, displacement(from, to));
    put_instr(file, &jump)?;
    Ok(())
}

/// Writes a long jump.
fn put_long(file: &mut Vec<u8>, condition: Option<ShortCond>, to: u16) -> Result<(), AllocError>
    ensures { OnOk result (Appends file.old.items file.new.items (λ bytes. Codes (long_jump condition to) bytes × (length bytes ≡ 3))) }
{
    let jump = long_jump(condition, to);
    put_instr(file, &jump)
}

/// Writes the bytes of a DS: `size` times the same byte.
fn put_space(file: &mut Vec<u8>, size: u16, fill: u8) -> Result<(), AllocError>
    ensures { OnOk result (file.new.items ≡ file.old.items ++ replicate size fill) }
{
    let len = file.len() + usize::from(size);
    file.resize(len, fill)
}

/// Overwrites one or two bytes with a number.
fn write(bytes: &mut [u8], at: usize, width: Width, number: u16)
    requires { at + width_size width ≤ length bytes.old }
    ensures { bytes.new ≡ take at bytes.old ++ (written width number ++ drop (at + length (written width number)) bytes.old) }
{
    bytes[at] = (number % 256) as u8;
    if width == Width::Word {
        bytes[at + 1] = (number / 256) as u8;
    }
}

/// Writes the values of fix-ups over their bytes.
fn fill(bytes: &mut [u8], holes: &[Hole], table: &[u16])
    requires within { LieWithin 0 (length bytes.old) holes.now }
    requires holes { All (IsHole (length table.now) bytes.old) holes.now }
    ensures filled { bytes.new ≡ filled (λ ref. slice_index table.now ref) bytes.old holes.now }
    ensures len { length bytes.new ≡ length bytes.old }
{
    for hole in holes {
        write(bytes, hole.offset, hole.width, value(&hole.value, table));
    }
}

/// Writes bytes and fills their fix-ups.
fn put_bytes(
    file: &mut Vec<u8>,
    bytes: &[u8],
    holes: &[Hole],
    table: &[u16],
) -> Result<(), AllocError>
    requires within { LieWithin 0 (length bytes.now) holes.now }
    requires holes { All (IsHole (length table.now) bytes.now) holes.now }
    ensures filled { OnOk result (file.new.items ≡ file.old.items ++ filled (λ ref. slice_index table.now ref) bytes.now holes.now) }
    ensures len { OnOk result (length (filled (λ ref. slice_index table.now ref) bytes.now holes.now) ≡ length bytes.now) }
{
    let start = file.len();
    file.extend_from_slice(bytes)?;
    fill(&mut file[start..], holes, table);
    Ok(())
}

/// Writes a statement. `table` has the address of each ref.
pub(crate) fn put_statement(
    file: &mut Vec<u8>,
    statement: &Statement,
    at: u32,
    long: bool,
    table: &[u16],
) -> Result<(), AllocError>
    requires { IsReady at long table.now (statement_of statement.now) }
    ensures { OnOk result (Appends file.old.items file.new.items (IsSizedPiece at long table.now (statement_of statement.now))) }
{
    match statement {
        Statement::Bytes { bytes, holes } => put_bytes(file, bytes, holes, table)?,
        Statement::Jump {
            condition,
            target,
            ..
        } => {
            let to = table[usize::from(*target)];
            if long {
                put_long(file, *condition, to)?;
            } else {
                put_short(file, Branch::Relative(*condition), at, u32::from(to))?;
            }
        }
        Statement::Short { branch, target } => {
            put_short(file, *branch, at, u32::from(table[usize::from(*target)]))?;
        }
        Statement::Space { size, fill } => put_space(file, *size, *fill)?,
    }
    Ok(())
}

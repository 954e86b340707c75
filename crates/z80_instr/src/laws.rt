//! Laws of the encodings, as functions that do nothing.
ghost use Rattle.std.specs.Prelude.{◌≤◌, length};
ghost use Rattle.z80_instr.specs.declared.Instr.{Instr};
ghost use Rattle.z80_instr.specs.Table.{canonical};

/// A canonical encoding has one to four bytes, whatever the instruction's numbers are.
pub fn length()
    ensures least { (instr : Instr) → 1 ≤ length (canonical instr) }
    ensures most { (instr : Instr) → length (canonical instr) ≤ 4 }
{}

//! What a step of the machine does if memory has a .COM file that reads as a program.
ghost use Rattle.std.specs.Prelude.{◌≡◌, ◌↔◌, ℕ, ◌+◌, ◌<◌, ◌≤◌, List, Option, length, slice_index};
ghost use Rattle.z80_instr.specs.declared.Instr.{Instr};
ghost use Rattle.z80_instr.specs.declared.ShortCond.{ShortCond};
ghost use Rattle.z80_machine.specs.Types.{Step};
ghost use Rattle.z80_cpu.specs.State.{Machine, byte_at, on_cpu};
ghost use Rattle.z80_machine.specs.Turn.{IsStep};
ghost use Rattle.relax.specs.Choice.{Choice, IsValid, place};
ghost use Rattle.z80_instr.specs.declared.Branch.{Branch};
ghost use Rattle.asm_module.specs.Program.Statement.{Statement, Code, Jump, Short};
ghost use Rattle.asm_parse.specs.Expression.{Expression};
ghost use Rattle.asm_parse.specs.declared.values.atom.Atom.{Atom};
ghost use Rattle.asm_module.specs.Program.Pieces.{valued};
ghost use Rattle.z80_form.specs.declared.field.Field.{Field};
ghost use Rattle.z80_form.specs.Numbers.{with_numbers};
ghost use Rattle.zlink.specs.Reads.{Reads, shape};
ghost use Rattle.z80dev.specs.Turns.{HoldsFile, IsAtStatement, jumped, branched, IsExecuted, Walks, MakesSteps};

use z80_instr::laws::length;
use z80_machine::laws::{one_turn, turn_of_instruction};

/// Memory has a file exactly if each byte of the file is at its address.
pub fn held()
    ensures { (memory file : List ℕ) → 256 + length file ≤ length memory →
        HoldsFile memory file ↔ ((i : ℕ) → i < length file → byte_at (256 + i) memory ≡ slice_index file i) }
{}

/// There is only one step from the address of a jump. It leads to the address of the target if the condition holds or there is none, and
/// otherwise to the next statement, whether the jump is short or long. Only PC changes, and for `DJNZ` also B.
pub fn jump_step()
    ensures jump { (file : List ℕ) (program : List Statement) (c : Choice) (k target : ℕ) (condition : Option ShortCond) (step : Step) (old new : Machine) →
        Reads file program c → IsValid c (shape program) → IsAtStatement file program c k (Jump condition target) old →
        IsStep step old new ↔ ((step ≡ Step.Done) × (new ≡ on_cpu (jumped condition (place c (shape program) target) (place c (shape program) (k + 1))) old)) }
    ensures short { (file : List ℕ) (program : List Statement) (c : Choice) (k target : ℕ) (branch : Branch) (step : Step) (old new : Machine) →
        Reads file program c → IsValid c (shape program) → IsAtStatement file program c k (Short branch target) old →
        IsStep step old new ↔ ((step ≡ Step.Done) × (new ≡ on_cpu (branched branch (place c (shape program) target) (place c (shape program) (k + 1))) old)) }
{
    turn_of_instruction();
}

/// There is only one step from the address of an instruction. It carries out that instruction, with its expressions evaluated at the
/// addresses of the program, and then PC is at the next statement.
pub fn code_step()
    ensures { (file : List ℕ) (program : List Statement) (c : Choice) (k : ℕ) (instr : Instr) (numbers : List (Field × Expression Atom)) (step : Step) (old new : Machine) →
        Reads file program c → IsValid c (shape program) → IsAtStatement file program c k (Code instr numbers) old →
        IsStep step old new ↔ IsExecuted (with_numbers (valued (place c (shape program)) numbers) instr) (place c (shape program) (k + 1)) step old new }
{
    turn_of_instruction();
    length();
}

/// If n steps by statements lead to a state, n steps of the machine lead to it, and to no other.
pub fn walk()
    ensures run { (file : List ℕ) (program : List Statement) (c : Choice) (n : ℕ) (old new : Machine) →
        Reads file program c → IsValid c (shape program) → Walks file program c n old new → MakesSteps n old new }
    ensures only { (file : List ℕ) (program : List Statement) (c : Choice) (n : ℕ) (old new other : Machine) →
        Reads file program c → IsValid c (shape program) → Walks file program c n old new → MakesSteps n old other → other ≡ new }
{
    turn_of_instruction();
    length();
    one_turn();
}

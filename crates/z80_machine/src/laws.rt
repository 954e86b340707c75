//! Laws of a step, as functions that do nothing. A call of one gives the prover its clause.
ghost use Rattle.std.specs.Prelude.{◌≡◌, ◌↔◌, ℕ};
ghost use Rattle.z80_machine.specs.Types.{Instr, Step};
ghost use Rattle.z80_cpu.specs.State.{Machine};
ghost use Rattle.z80_machine.specs.Turn.{StandsAtPc, IsStep, IsTurnOf};

/// At most one instruction is at PC.
pub fn one_instruction()
    ensures { (m : Machine) (first second : Instr) (size length : ℕ) →
        StandsAtPc m first size → StandsAtPc m second length → (first ≡ second) × (size ≡ length) }
{
    z80_table::laws::prefix();
}

/// If an instruction is at PC, a step is the step of that instruction.
pub fn turn_of_instruction()
    ensures { (instr : Instr) (size : ℕ) (step : Step) (old new : Machine) →
        StandsAtPc old instr size → IsStep step old new ↔ IsTurnOf instr size step old new }
{
    one_instruction();
}

/// A machine has one step: two steps from the same state answer and leave the same.
pub fn one_turn()
    ensures { (first second : Step) (old new other : Machine) →
        IsStep first old new → IsStep second old other → (first ≡ second) × (new ≡ other) }
{
    one_instruction();
}

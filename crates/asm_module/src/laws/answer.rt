//! Laws about the answer for a source. A law is a function that does nothing and whose clause is a theorem.

ghost use Rattle.std.specs.Prelude.{◌≡◌, ℕ, Bool, List, Result};
ghost use Rattle.asm_module.specs.Program.Statement.{Statement};
ghost use Rattle.asm_module.specs.declared.fault.AsmFault.{AsmFault};
ghost use Rattle.asm_module.specs.Assembled.{Assembled, Assembles, HasCause};
ghost use Rattle.asm_module.specs.Program.Described.{IsProgramOfSource};

/// A source has one module or one first error, unless memory ran out; and it describes one program at most.
pub fn one_answer()
    ensures answer { (name text : List ℕ) (grow : Bool) (a b : Result Assembled AsmFault) → HasCause a → HasCause b →
        Assembles name text grow a → Assembles name text grow b → a ≡ b }
    ensures program { (text : List ℕ) (grow : Bool) (a b : List Statement) → IsProgramOfSource text grow a → IsProgramOfSource text grow b → a ≡ b }
{
    asm_macro::laws::one_expansion();
    asm_names::laws::given();
    asm_names::laws::distinct();
}

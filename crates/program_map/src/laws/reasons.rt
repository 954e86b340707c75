//! Laws about reasons. A law is a function that does nothing and whose clause is a theorem.

ghost use Rattle.std.specs.Prelude.{◌≡◌, ℕ, List, true, false, ◌++◌, ◌∷◌, []};
ghost use Rattle.relax.specs.declared.shape.Statement.{Statement};
ghost use Rattle.relax.specs.Choice.{Choice, IsJump, IsSettled};
ghost use Rattle.relax.specs.Growth.{IsForcing, after};
ghost use Rattle.program_map.specs.Reasons.Laws.{IsLongIn};
ghost use Rattle.program_map.specs.Reasons.Reasons.{IsReason};

/// The jumps of a reason suffice. A jump is long in every settled choice in which they are long (`needed`). And every forcing order that has
/// them, and not the jump, can go on with the jump (`forces`).
pub fn suffices()
    ensures needed { (shape : List Statement) (order : List ℕ) (from to : ℕ) (jumps : List ℕ) → IsJump shape from to → IsReason shape order from to jumps →
        (c : Choice) → IsSettled c shape → IsLongIn jumps c → c from ≡ true }
    ensures forces { (shape : List Statement) (order : List ℕ) (from to : ℕ) (jumps : List ℕ) → IsJump shape from to → IsReason shape order from to jumps →
        (before : List ℕ) → IsForcing shape before → IsLongIn jumps (after before) → after before from ≡ false → IsForcing shape (before ++ from ∷ []) }
{}

/// A jump has one reason.
pub fn one_reason()
    ensures { (shape : List Statement) (order : List ℕ) (from to : ℕ) (a b : List ℕ) → IsReason shape order from to a → IsReason shape order from to b → a ≡ b }
{}

//! Laws about warnings. A law is a function that does nothing and whose clause is a theorem.

ghost use Rattle.std.specs.Prelude.{◌≡◌, ◌≤◌, ◌<◌, ◌+◌, ℕ, Bool, None, take};
ghost use Rattle.source_warnings.specs.Jumps.Distances.{Sizes, jump_within};
ghost use Rattle.source_warnings.specs.Jumps.Laws.{bytes_under};
ghost use Rattle.source_warnings.specs.declared.jumps.part.Site.{Site};

/// If no relaxable jump is within some bytes of an address, then in every choice of jumps the byte there is the same byte of the same
/// statement. The statements are those from the address on, or those before it from the last one back. A statement that begins within these
/// bytes is as far away in one choice as in any other (`begins`); and so is the end of one that begins nearer than the byte (`ends`).
pub fn same_distance()
    ensures begins { (sizes : Sizes) (bytes : ℕ) → jump_within bytes sizes ≡ None → (one other : Site → Bool) (n : ℕ) → bytes_under one (take n sizes) ≤ bytes → bytes_under one (take n sizes) ≡ bytes_under other (take n sizes) }
    ensures ends { (sizes : Sizes) (bytes : ℕ) → jump_within bytes sizes ≡ None → (one other : Site → Bool) (n : ℕ) → bytes_under one (take n sizes) < bytes → bytes_under one (take (n + 1) sizes) ≡ bytes_under other (take (n + 1) sizes) }
{}

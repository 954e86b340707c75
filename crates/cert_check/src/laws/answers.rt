//! The law about what two files prove.

ghost use Rattle.std.specs.Prelude.{◌≡◌, ℕ, List, Result};
ghost use Rattle.cert_check.specs.declared.cert.Verdict.{Verdict};
ghost use Rattle.cert_check.specs.Types.{CheckFault};
ghost use Rattle.cert_check.specs.Checks.{Checks};

/// Two files prove one verdict at most, or have one first error.
pub fn one_answer()
    ensures { (sizes cert : List ℕ) (a b : Result Verdict CheckFault) → Checks sizes cert a → Checks sizes cert b → a ≡ b }
{
    crate::laws::one_shape();
    crate::laws::one_cert();
}

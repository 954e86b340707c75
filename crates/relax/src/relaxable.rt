//! A relaxable jump.

/// A relaxable jump: the numbers of its own statement and of its target.
#[derive(Clone, Copy)]
pub(crate) struct RelaxableJump {
    pub(crate) statement: u32,
    pub(crate) target: u32,
}

impl RelaxableJump {
    ghost use Rattle.std.specs.Prelude.{◌≡◌, ◌≢◌, true};
    ghost use Rattle.relax.specs.Private.Worklist.{PassesOver};

    /// Whether the jump goes over statement `k`, which is not its own, so that the size of `k` counts: one of its
    /// statement and its target is before `k`, and the other is not.
    pub(crate) fn passes_over(self, k: u32) -> bool
        ensures over { PassesOver self.statement self.target k → result ≡ true }
        ensures only { self.statement ≢ k → result ≡ true → PassesOver self.statement self.target k }
    {
        (self.statement < k) != (self.target <= k)
    }
}

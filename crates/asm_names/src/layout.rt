//! Where the statements of a source are, among its lines.

ghost use Rattle.std.specs.Prelude.{◌≡◌};
ghost use Rattle.asm_names.specs.Layout.{layout_of, next_at};

use asm_expr::Statement;

/// The statements of a source in order, as far as their sizes are known. For each line, `next` has the number of the first
/// statement in it or after it.
#[derive(Debug, Drop)]
pub struct Layout {
    pub next: Vec<u16>,
    pub statements: Vec<Statement>,
}

impl Layout {
    /// The number of the first statement in line `at` or after it. 0 if there is no such line.
    pub fn next_at(&self, at: usize) -> u16
        ensures { result ≡ next_at (layout_of self.now) at }
    {
        match self.next.get(at) {
            Some(number) => *number,
            None => 0,
        }
    }
}

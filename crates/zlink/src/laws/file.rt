//! Laws about files. A law is a function that does nothing and whose clause is a theorem.

ghost use Rattle.std.specs.Prelude.{◌≡◌, ℕ, List};
ghost use Rattle.relax.specs.declared.shape.Statement.{Statement};
ghost use Rattle.relax.specs.Choice.{Choice};
ghost use Rattle.zlink.specs.Program.Whole.{Placed};
ghost use Rattle.zlink.specs.File.Objects.{ReadsObjects};
ghost use Rattle.zlink.specs.File.Places.{ArePlaces};

/// Statements of modules have one file under a choice, and a shape has one list of addresses under a choice.
pub fn one_file()
    ensures file { (file other : List ℕ) (program : List Placed) (c : Choice) → ReadsObjects file program c → ReadsObjects other program c → file ≡ other }
    ensures places { (c : Choice) (shape : List Statement) (places other : List ℕ) → ArePlaces c shape places → ArePlaces c shape other → places ≡ other }
{}

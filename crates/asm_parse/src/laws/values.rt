//! Laws about expressions of an object file and about distances, as functions that do nothing. A caller calls one to use its
//! clauses.

ghost use Rattle.std.specs.Prelude.{◌≡◌, ℕ, List};
ghost use Rattle.asm_parse.specs.Types.{Atom, Binary, Item, Statement, Worth};
ghost use Rattle.asm_parse.specs.Expression.{Expression, Infix, Leaf, postfix};
ghost use Rattle.asm_parse.specs.Values.Postfix.{tree};
ghost use Rattle.asm_parse.specs.Values.Items.{IsExpr, value};
ghost use Rattle.asm_parse.specs.Values.Distances.{Step, distance};

/// Items in postfix order are those of at most one expression.
pub fn one_expression()
    ensures { (a b : Expression Atom) → postfix a ≡ postfix b → a ≡ b }
{}

/// The tree of an expression's items has these items.
pub fn same_items()
    ensures { (items : List (Item Atom)) → IsExpr items → postfix (tree items) ≡ items }
{}

/// Addresses that step by each known size are as far apart as the statements say, from whatever beginning.
pub fn one_distance()
    ensures { (statements : List Statement) (places : ℕ → ℕ) → Step statements places → (p q n : ℕ) → distance statements p q ≡ Worth.Number n →
        value places (Infix Binary.Subtract (Leaf (Atom.Ref p)) (Leaf (Atom.Ref q))) ≡ n }
{}

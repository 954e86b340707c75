//! Laws of expressions in object files. A law is a function that does nothing and whose clause is a theorem.

ghost use Rattle.std.specs.Prelude.{◌≡◌, ℕ, List, Some};
ghost use Rattle.std.specs.Option.{IfSome};
ghost use Rattle.asm_parse.specs.declared.item.Item.{Item};
ghost use Rattle.asm_parse.specs.declared.values.atom.Atom.{Atom};
ghost use Rattle.asm_parse.specs.Values.Items.{IsExpr};
ghost use Rattle.zmo_object.specs.Fields.Field.{IsBytes};
ghost use Rattle.zmo_object.specs.Fields.Postfix.{expr_of};
ghost use Rattle.zmo_object.specs.Fields.Texts.{expr_text};

/// The bytes of an expression read as this expression. If bytes read as an expression, they are the bytes of this expression.
pub fn one_spelling()
    ensures again { (items : List (Item Atom)) → IsExpr items → expr_of (expr_text items) ≡ Some items }
    ensures spelled { (bytes : List ℕ) → IsBytes bytes → IfSome (expr_of bytes) (λ items. IsExpr items × (bytes ≡ expr_text items)) }
{}

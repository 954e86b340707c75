//! Expressions of a source.

ghost use Rattle.std.specs.Prelude.{◌≡◌, [], ◌∷◌, IfOk, map};
ghost use Rattle.asm_parse.specs.declared.item.Item.{Item};
ghost use Rattle.asm_parse.specs.Few.{all};
ghost use Rattle.asm_parse.specs.Source.{AreExpressionItems, Name, source_item};

use crate::few::Few;
use crate::item::{Item, Term};
use std::alloc::{AllocError, Global};
use std::marker::Model;

/// An expression of a source: a tree, kept as its items in postfix order.
#[derive(Debug, Drop)]
pub struct Tree {
    items: Few<Item<Term>>,
}

impl Model for Tree {
    ghost use Rattle.std.specs.Prelude.{List, map};
    ghost use Rattle.asm_parse.specs.declared.item.Item.{Item};
    ghost use Rattle.asm_parse.specs.Few.{all};
    ghost use Rattle.asm_parse.specs.Source.{Operand, source_item, AreExpressionItems};

    ghost Value = { List (Item Operand) };

    ghost view = { λ t. map source_item (all t.items) };

    ghost invariant = { λ t. AreExpressionItems (map source_item (all t.items)) };
}

impl Tree {
    /// The tree with these items, which have to be those of an expression.
    pub(crate) fn known(items: Few<Item<Term>>) -> Tree
        requires { AreExpressionItems (map source_item (all items)) }
        ensures { result ≡ map source_item (all items) }
    {
        Tree { items }
    }

    /// The tree of only a name, which is in upper case.
    ///
    /// # Errors
    ///
    /// `AllocError` if memory runs out.
    pub fn name(alloc: Global, name: &[u8]) -> Result<Tree, AllocError>
        ensures { IfOk result (λ tree. tree ≡ Item.Leaf (Name name.now) ∷ []) }
    {
        let term = Term::name(alloc, name)?;
        Ok(Tree::known(Few::One([Item::Leaf(term)])))
    }

    /// The items in postfix order.
    pub fn items(&self) -> &[Item<Term>]
        ensures items { map source_item result.now ≡ self.now }
        ensures source { AreExpressionItems self.now }
    {
        self.items.as_slice()
    }
}

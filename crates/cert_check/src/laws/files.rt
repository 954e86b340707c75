//! Laws about choices, files and certificates.

ghost use Rattle.std.specs.Prelude.{◌≡◌, ℕ, true, List, Result};
ghost use Rattle.cert_check.specs.FileTypes.{Statement, Verdict, TextFault};
ghost use Rattle.cert_check.specs.Choice.{Choice, IsSettled, IsShape};
ghost use Rattle.cert_check.specs.Forcing.{after, IsForcing};
ghost use Rattle.cert_check.specs.Texts.{ReadsCert, ReadsSizes, sizes_text};
ghost use Rattle.cert_check.specs.Accepts.{Accepts, HoldsOfEveryChoice};

use crate::shape::Statement;

/// The members of a forcing order, least-first or not, are long in every settled choice.
pub fn forced(shape: &[Statement], order: &[u32])
    requires { IsForcing shape.now order.now }
    ensures { (c : Choice) → IsSettled c shape.now → (k : ℕ) → after order.now k ≡ true → c k ≡ true }
{}

/// What a good certificate shows holds of every choice of the shape that the sizes file has.
pub fn accepted()
    ensures { (sizes cert : List ℕ) (verdict : Verdict) → Accepts sizes cert verdict →
        (shape : List Statement) → IsShape shape → sizes ≡ sizes_text shape → HoldsOfEveryChoice shape verdict }
{}

/// A certificate has one order and verdict at most, or one first bad line.
pub fn one_cert()
    ensures { (text : List ℕ) (a b : Result (List ℕ × Verdict) TextFault) → ReadsCert text a → ReadsCert text b → a ≡ b }
{}

/// A sizes file has one shape at most, or one first bad line.
pub fn one_shape()
    ensures { (text : List ℕ) (a b : Result (List Statement) TextFault) → ReadsSizes text a → ReadsSizes text b → a ≡ b }
{}

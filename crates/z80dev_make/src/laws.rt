//! Laws about the calls. A law is a function that does nothing and whose clause is a theorem.

ghost use Rattle.std.specs.Prelude.{◌≡◌, ◌∷◌, ℕ, [], All, Bool, false, List, Option, Result, map};
ghost use Rattle.std.specs.List.{AllZip};
ghost use Rattle.zmo_object.specs.Modules.{Module};
ghost use Rattle.zmo_object.specs.Rules.{IsModule};
ghost use Rattle.zmo_object.specs.Texts.{module_text};
ghost use Rattle.zlink.specs.declared.fault.LinkFault.{LinkFault};
ghost use Rattle.zlink.specs.declared.linking.Linked.{Linked};
ghost use Rattle.zlink.specs.Linked.{IsLinked};
ghost use Rattle.zlink.specs.Outcomes.{AreSame, linked_outcome};
ghost use Rattle.host.specs.Answers.{Answer, MemoryAside};
ghost use Rattle.host.specs.declared.answer.Kind.TheVariants as kind;
ghost use Rattle.z80dev_make.specs.Answers.{HasKinds};
ghost use Rattle.z80dev_make.specs.Products.{program_kinds};
ghost use Rattle.z80dev_make.specs.declared.products.Products.{Products};
ghost use Rattle.z80dev_make.specs.Asm.{IsAsm};
ghost use Rattle.z80dev_make.specs.Build.{IsMade};
ghost use Rattle.z80dev_make.specs.Link.{IsLink, IsObject};
ghost use Rattle.report_texts.specs.declared.front.SourceFile.{SourceFile};
ghost use Rattle.report_texts.specs.declared.front.Front.{Front};
ghost use Rattle.z80dev_make.specs.declared.jumps.Jumps.{Jumps};

pub use report_texts::laws::{lines_behind, no_front};
use zlink::laws::one_link;
use zmo_object::laws::one_text;

/// Linking modules that were written as object files and read again gives what linking the modules themselves gives, unless memory ran out.
pub fn written()
    ensures { (modules read : List Module) (a b : Result Linked LinkFault) → All IsModule modules → AllZip IsObject (map module_text modules) read →
        IsLinked read a → IsLinked modules b → AreSame (linked_outcome a) (linked_outcome b) }
{
    // Laws: they do nothing, and this law follows from their contracts.
    one_text();
    one_link();
}

/// Whatever the commands answer, the files to write are of the kinds that they write if they succeed: `asm` an object file, `link` and `build`
/// those of a program, in their order.
pub fn written_kinds()
    ensures asm { (front : Front) (file : SourceFile) (grow : Bool) (answer : Answer) → MemoryAside (IsAsm front file grow) answer → HasKinds (kind.Object ∷ []) answer }
    ensures link { (products : Products) (objects : List (List ℕ)) (answer : Answer) → products.list ≡ false → MemoryAside (IsLink products objects) answer → HasKinds (program_kinds products) answer }
    ensures build { (front : Front) (files : List SourceFile) (grow : Bool) (products : Products) (answer : Answer) (jumps : Option Jumps) → IsMade front files grow products answer jumps → HasKinds (program_kinds products) answer }
{}

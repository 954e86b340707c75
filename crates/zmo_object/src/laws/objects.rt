//! Laws of whole object files. A law is a function that does nothing and whose clause is a theorem.

ghost use Rattle.std.specs.Prelude.{◌≡◌, ℕ, List, Ok, IfOk};
ghost use Rattle.zmo_object.specs.Modules.{Module};
ghost use Rattle.zmo_object.specs.Rules.{IsModule};
ghost use Rattle.zmo_object.specs.Fields.Field.{IsBytes};
ghost use Rattle.zmo_object.specs.Texts.{module_text};
ghost use Rattle.zmo_object.specs.Reading.{read_of};

/// The object file of a module that keeps the rules reads as this module.
pub fn one_text()
    ensures { (m : Module) → IsModule m → read_of (module_text m) ≡ Ok m }
{}

/// If bytes read as a module, this module keeps the rules and the bytes are its object file.
pub fn one_module()
    ensures { (bytes : List ℕ) → IsBytes bytes → IfOk (read_of bytes) (λ m. IsModule m × (bytes ≡ module_text m)) }
{}

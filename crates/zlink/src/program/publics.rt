//! The public names of all modules.

ghost use Rattle.std.specs.Prelude.{◌≡◌, ◌≤◌, ◌++◌, ◌∷◌, [], All, IfOk, None, OnOk, is_some, map, not};
ghost use Rattle.common.specs.declared.limits.TheConstants.{MOST_STATEMENTS};
ghost use Rattle.zmo_object.specs.Modules.{module_of};
ghost use Rattle.zmo_object.specs.Rules.{IsModule};
ghost use Rattle.zlink.specs.Program.Faults.{first_of};
ghost use Rattle.zlink.specs.Program.Laws.{statement_count};
ghost use Rattle.zlink.specs.Program.Parts.{public_found, public_labels, parts, all_publics};
ghost use Rattle.zlink.specs.Private.Joining.{Judges, clashes, once, part};

use crate::program::fault::JoinFault;
use common::{KeyMixer, NameKey};
use indexmap::IndexMap;
use std::alloc::{AllocError, Global};
use std::marker::Model;
use zmo_object::Module;

/// Public names, each with the number of a statement of the whole program.
#[derive(Drop)]
pub(crate) struct PublicNames<'a> {
    statements: IndexMap<&'a [u8], u32, NameKey>,
}

impl<'a> Model for PublicNames<'a> {
    ghost use Rattle.std.specs.Prelude.{map};
    ghost use Rattle.zlink.specs.Program.Parts.{Publics};

    ghost Value = { Publics };

    ghost view = { λ n. map (λ e. (e.0.now, e.1)) n.statements.entries };
}

/// Mixes the names of a module's labels into the key.
fn mix(mixer: &mut KeyMixer, module: &Module) {
    for label in &module.labels {
        mixer.mix(&label.name);
    }
}

/// Answers the key with which the names of these modules are hashed.
fn key_of(modules: &[Module]) -> NameKey {
    let mut mixer = KeyMixer::new();
    for module in modules {
        mix(&mut mixer, module);
    }
    mixer.key()
}

impl<'a> PublicNames<'a> {
    /// Collects the public names of all modules, or answers the first that is defined twice.
    pub(crate) fn of(alloc: Global, modules: &'a [Module]) -> Result<PublicNames<'a>, JoinFault>
        requires rules { All IsModule (map module_of modules.now) }
        requires few { statement_count (map module_of modules.now) ≤ MOST_STATEMENTS }
        ensures { Judges (first_of (once (map module_of modules.now)) (parts (map module_of modules.now))) (λ names. names ≡ all_publics (parts (map module_of modules.now))) result }
    {
        let mut names = PublicNames {
            statements: IndexMap::with_hasher(alloc, key_of(modules)),
        };
        let mut base = 0;
        for (number, module) in modules.iter().enumerate() {
            names.give(number, base, module)?;
            base += module.statements.len() as u32;
        }
        Ok(names)
    }

    /// Adds the public names of a module. It has this number, and `base` statements come before its own.
    fn give(&mut self, number: usize, base: u32, object: &'a Module) -> Result<(), JoinFault>
        requires rules { IsModule (module_of object.now) }
        requires few { base ≤ MOST_STATEMENTS }
        ensures { Judges (clashes self.old (part number base (module_of object.now))) (λ _. self.new ≡ self.old ++ public_labels (part number base (module_of object.now))) result }
    {
        for number_of_label in &object.publics {
            let label = &object.labels[usize::from(*number_of_label)];
            if !self.add(&label.name, base + u32::from(label.statement))? {
                return Err(JoinFault::DefinedTwice(number, *number_of_label));
            }
        }
        Ok(())
    }

    /// Adds a name, and answers whether it is a new one.
    fn add(&mut self, name: &'a [u8], statement: u32) -> Result<bool, AllocError>
        ensures new { IfOk result (λ is_new. is_new ≡ not (is_some (public_found self.old name.now))) }
        ensures added { OnOk result (public_found self.old name.now ≡ None → self.new ≡ self.old ++ (name.now, statement) ∷ []) }
    {
        Ok(self.statements.insert(name, statement)?.is_none())
    }

    /// Answers the number of the statement for which a public name stands, if there is such a name.
    pub(crate) fn found(&self, name: &[u8]) -> Option<u32>
        ensures { result ≡ public_found self.now name.now }
    {
        self.statements.get(name).copied()
    }
}

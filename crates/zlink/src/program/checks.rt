//! Checks that need no names.

ghost use Rattle.std.specs.Prelude.{◌≡◌, ◌≤◌, All, map};
ghost use Rattle.common.specs.declared.limits.TheConstants.{MOST_STATEMENTS};
ghost use Rattle.zmo_object.specs.Modules.{module_of};
ghost use Rattle.zmo_object.specs.Rules.{IsModule};
ghost use Rattle.zlink.specs.Program.Faults.{begins_late, enters_late, first_of, too_many};
ghost use Rattle.zlink.specs.Program.Laws.{statement_count};
ghost use Rattle.zlink.specs.Program.Parts.{parts};
ghost use Rattle.zlink.specs.Private.Joining.{part, refused};

use crate::program::fault::JoinFault;
use common::MOST_STATEMENTS;
use zmo_object::Module;

/// Refuses more statements than a program may have.
pub(crate) fn check_count(modules: &[Module]) -> Result<(), JoinFault>
    ensures { result ≡ refused (too_many (map module_of modules.now)) }
{
    let mut count = 0;
    for module in modules {
        count += module.statements.len();
        if count > MOST_STATEMENTS {
            return Err(JoinFault::TooManyStatements);
        }
    }
    Ok(())
}

/// Refuses a module that says ORG 0100H and is not the first.
pub(crate) fn check_begins(modules: &[Module]) -> Result<(), JoinFault>
    ensures { result ≡ refused (first_of begins_late (parts (map module_of modules.now))) }
{
    for (number, module) in modules.iter().enumerate() {
        if number > 0 && module.begins {
            return Err(JoinFault::BeginsNotFirst(number));
        }
    }
    Ok(())
}

/// Refuses a module whose entry is not the first statement of the program. `base` statements come before its own.
fn check_entry(number: usize, base: u32, object: &Module) -> Result<(), JoinFault>
    requires rules { IsModule (module_of object.now) }
    requires few { base ≤ MOST_STATEMENTS }
    ensures { result ≡ refused (enters_late (part number base (module_of object.now))) }
{
    let Some(entry) = object.entry else {
        return Ok(());
    };
    let label = &object.labels[usize::from(entry)];
    if base + u32::from(label.statement) > 0 {
        return Err(JoinFault::EntryNotFirst(number));
    }
    Ok(())
}

/// Refuses an entry that is not the first statement of the program.
pub(crate) fn check_entries(modules: &[Module]) -> Result<(), JoinFault>
    requires rules { All IsModule (map module_of modules.now) }
    requires few { statement_count (map module_of modules.now) ≤ MOST_STATEMENTS }
    ensures { result ≡ refused (first_of enters_late (parts (map module_of modules.now))) }
{
    let mut base = 0;
    for (number, module) in modules.iter().enumerate() {
        check_entry(number, base, module)?;
        base += module.statements.len() as u32;
    }
    Ok(())
}

//! States what the types of statements guarantee.

ghost use Rattle.std.specs.Prelude.{All, map};
ghost use Rattle.zmo_object.specs.Modules.{statement_of};
ghost use Rattle.asm_module.specs.Rules.Fitting.{FitsWord};

use zmo_object::Statement;

/// Does nothing. Its contract says that the size of space fits a word.
fn fits_word(statement: &Statement)
    ensures { FitsWord (statement_of statement.now) }
{
    if let Statement::Space { size, fill: _ } = statement {
        let _size = *size;
    }
}

/// Does nothing. Its contract says the same of each statement.
pub(crate) fn fit_words(statements: &[Statement])
    ensures { All FitsWord (map statement_of statements.now) }
{
    for statement in statements {
        fits_word(statement);
    }
}

//! Arguments that contain no sign, and so give a line no new role when they replace names.

ghost use Rattle.std.specs.Prelude.{◌≡◌};
ghost use Rattle.asm_line.specs.Replacing.Views.{texts};
ghost use Rattle.asm_text.specs.Plain.{are_plain};

use crate::signs::{Sign, has_sign};

/// For each sign, whether no argument of a call contains it.
#[derive(Clone, Copy, Debug)]
pub(crate) struct Plain {
    pub word: bool,
    pub second: bool,
}

/// Whether no parameter's argument contains a sign. A missing argument is empty, and so contains none.
fn are_plain(sign: Sign, parameters: &[Vec<u8>], arguments: &[Vec<u8>]) -> bool
    ensures { result ≡ are_plain sign (texts parameters.now) (texts arguments.now) }
{
    let mut at = 0;
    while at < parameters.len() && at < arguments.len() {
        if has_sign(sign, &arguments[at]) {
            return false;
        }
        at += 1;
    }
    true
}

/// Which signs no parameter's argument contains.
pub(crate) fn plain_to(parameters: &[Vec<u8>], arguments: &[Vec<u8>]) -> Plain
    ensures word { result.word ≡ are_plain Sign.Word (texts parameters.now) (texts arguments.now) }
    ensures second { result.second ≡ are_plain Sign.Second (texts parameters.now) (texts arguments.now) }
{
    Plain {
        word: are_plain(Sign::Word, parameters, arguments),
        second: are_plain(Sign::Second, parameters, arguments),
    }
}

//! For each line: where a block that begins with this line ends.

ghost use Rattle.std.specs.Prelude.{◌≡◌, ◌<◌, ◌≤◌, ◌^◌, length};
ghost use Rattle.asm_text.specs.Private.Nesting.{behind, no_ends, turn};

use crate::matching::Role;

/// Where a block ends if the line before this one opens it, as an index of a line. The count of all lines means that nothing closes
/// the block. A block around this line is ignored: its ENDM does not end the search.
#[derive(Clone, Copy, Debug)]
pub(crate) struct Ends {
    /// The ENDM, if the line before is MACRO or REPT.
    pub body: u32,
    /// The end of the branch, if the line before is IF or ELSE: the next ELSE or the ENDIF. Only if an ENDIF closes the IF.
    pub next: u32,
    /// The ENDIF, if the line before is IF or ELSE.
    pub last: u32,
}

/// The ends that mean that no line closes a block, among `len` lines.
pub(crate) fn no_ends(len: usize) -> Ends
    requires { len < 2 ^ 32 }
    ensures { result ≡ no_ends len }
{
    let len = len as u32;
    Ends {
        body: len,
        next: len,
        last: len,
    }
}

/// The ends for the line after `line`.
fn behind(ends: &[Ends], line: u32) -> Ends
    requires { length ends.now < 2 ^ 32 }
    ensures { result ≡ behind ends.now line }
{
    let at = line as usize + 1;
    if at < ends.len() {
        ends[at]
    } else {
        no_ends(ends.len())
    }
}

/// Finds the ends for line `at` from its role and the ends for the lines after it.
pub(crate) fn turn(role: Role, at: u32, ends: &[Ends]) -> Ends
    requires { length ends.now < 2 ^ 32 }
    ensures { result ≡ turn role at ends.now }
{
    let here = behind(ends, at);
    match role {
        Role::OpensBody => behind(ends, here.body),
        Role::EndBody => Ends { body: at, ..here },
        Role::OpensIf => Ends {
            body: here.body,
            ..behind(ends, here.last)
        },
        Role::Else => {
            if (here.last as usize) < ends.len() {
                Ends { next: at, ..here }
            } else {
                here
            }
        }
        Role::EndIf => Ends {
            next: at,
            last: at,
            ..here
        },
        Role::Other => here,
    }
}

//! Values of options that are wrong.

ghost use Rattle.std.specs.Prelude.{◌≡◌, IfOk, option_map, string_bytes};
ghost use Rattle.z80dev.specs.Values.{bad_define, bad_in_build, bad_symbols};

use crate::programs::making::form_named;
use std::alloc::{AllocError, Global};
use z80dev_commands::{Build, Shared};

/// Answers with which text the first definition that is not NAME=VALUE is refused.
pub fn bad_define(alloc: Global, shared: &Shared<'_>) -> Result<Option<String>, AllocError>
    ensures { IfOk result (λ why. option_map string_bytes why ≡ bad_define shared.now) }
{
    match z80dev_make::bad_define(alloc, &shared.defines)? {
        Some(word) => Ok(Some(format!(in alloc; "BadDefine({word})")?)),
        None => Ok(None),
    }
}

/// Answers with which text a value of `--symbols` is refused that names no form.
pub(crate) fn bad_symbols(
    alloc: Global,
    symbols: Option<&str>,
) -> Result<Option<String>, AllocError>
    ensures { IfOk result (λ why. option_map string_bytes why ≡ bad_symbols symbols.entry) }
{
    match symbols {
        Some(word) if form_named(word).is_none() => {
            Ok(Some(format!(in alloc; "BadSymbols({word})")?))
        }
        _ => Ok(None),
    }
}

/// Answers with which text the first value of `build` is refused that is wrong.
pub(crate) fn bad_in_build(alloc: Global, job: &Build<'_>) -> Result<Option<String>, AllocError>
    ensures { IfOk result (λ why. option_map string_bytes why ≡ bad_in_build job.now) }
{
    match bad_define(alloc, &job.shared)? {
        Some(why) => Ok(Some(why)),
        None => bad_symbols(alloc, job.symbols),
    }
}

//! Values of options that are wrong.

ghost use Rattle.std.specs.Prelude.{◌≡◌, IfOk, option_map, string_bytes};
ghost use Rattle.z80dev_jobs.specs.Values.{bad_color, bad_in_explain, is_color};

use std::alloc::{AllocError, Global};
use z80dev::bad_define;
use z80dev_commands::Explain;

/// Whether a word says when a command prints in colour.
fn is_color(word: &str) -> bool
    ensures { result ≡ is_color word.now }
{
    word == "always" || word == "never" || word == "auto"
}

/// Answers with which text a value of `--color` is refused that is not one of its words.
fn bad_color(alloc: Global, color: Option<&str>) -> Result<Option<String>, AllocError>
    ensures { IfOk result (λ why. option_map string_bytes why ≡ bad_color color.entry) }
{
    match color {
        Some(word) if !is_color(word) => Ok(Some(format!(in alloc; "BadColor({word})")?)),
        _ => Ok(None),
    }
}

/// Answers with which text the first value of `explain` is refused that is wrong.
pub(crate) fn bad_in_explain(alloc: Global, job: &Explain<'_>) -> Result<Option<String>, AllocError>
    ensures { IfOk result (λ why. option_map string_bytes why ≡ bad_in_explain job.now) }
{
    match bad_define(alloc, &job.shared)? {
        Some(why) => Ok(Some(why)),
        None => bad_color(alloc, job.color),
    }
}

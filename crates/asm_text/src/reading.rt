//! Reads lines to find their role or to show them in a call, without assembling them.

ghost use Rattle.std.specs.Prelude.{◌≡◌, IfOk, OnOk, Some};
ghost use Rattle.asm_line.specs.FormViews.{head_seen};
ghost use Rattle.asm_line.specs.Replacing.Views.{replacement_table};
ghost use Rattle.std.specs.Option.{option_map};
ghost use Rattle.asm_line.specs.Tokens.{lexemes};
ghost use Rattle.asm_text.specs.Lines.{form_of, heard};
ghost use Rattle.asm_text.specs.Roles.{role_of_head, is_alone};
ghost use Rattle.asm_text.specs.Prepared.{said};
ghost use Rattle.asm_text.specs.Spans.{shown};

use crate::call::Call;
use crate::matching::Role;
use crate::signs::{Sign, has_sign};
use asm_line::{BlockWord, Head, Replacements, ScanFault, Token, form_of, replace, tokens};
use std::alloc::{AllocError, Global};

/// The role of a line with this head.
pub(crate) fn role_of_head(head: Head<'_>) -> Role
    ensures { result ≡ role_of_head (head_seen head.entry) }
{
    match head {
        Head::Macro(_) => Role::OpensBody,
        Head::Block(word) => match word {
            BlockWord::Macro | BlockWord::Rept => Role::OpensBody,
            BlockWord::If => Role::OpensIf,
            BlockWord::Else => Role::Else,
            BlockWord::EndIf => Role::EndIf,
            BlockWord::EndM => Role::EndBody,
            BlockWord::Local => Role::Other,
        },
        Head::Equ(_) | Head::Word(_) | Head::Nothing => Role::Other,
    }
}

/// The tokens of a line, or None if it has a scan error.
pub(crate) fn heard(alloc: Global, line: &[u8]) -> Result<Option<Vec<Token<'_>>>, AllocError>
    ensures { IfOk result (λ found. option_map (λ tokens. lexemes tokens.items) found ≡ heard line.now) }
{
    match tokens(alloc, line) {
        Ok(found) => Ok(Some(found)),
        Err(ScanFault::NoMemory) => Err(AllocError),
        Err(ScanFault::BadByte) => Ok(None),
        Err(ScanFault::OpenString) => Ok(None),
        Err(ScanFault::LineTooLong) => Ok(None),
        Err(ScanFault::BadNumber) => Ok(None),
    }
}

/// The role of a line. A line with a scan error has none: its role is `Other`.
pub(crate) fn role_of(alloc: Global, line: &[u8]) -> Result<Role, AllocError>
    ensures { IfOk result (λ role. role ≡ role_of_head (form_of line.now).head) }
{
    if !has_sign(Sign::Word, line) {
        return Ok(Role::Other);
    }
    match heard(alloc, line)? {
        Some(found) => Ok(role_of_head(form_of(&found).head)),
        None => Ok(Role::Other),
    }
}

/// Whether a line has only a head: no label, and nothing after the head. True of a line with a scan error as well.
pub fn is_alone(alloc: Global, line: &[u8]) -> Result<bool, AllocError>
    ensures { IfOk result (λ alone. alone ≡ is_alone (form_of line.now)) }
{
    match heard(alloc, line)? {
        Some(found) => {
            let form = form_of(&found);
            Ok(form.label.is_none() && form.rest.is_empty())
        }
        None => Ok(true),
    }
}

/// Replaces what `out` holds by a line with its names replaced. A line with a scan error is copied as written.
fn put_replaced(
    alloc: Global,
    names: &Replacements,
    line: &[u8],
    out: &mut Vec<u8>,
) -> Result<(), AllocError>
    ensures { OnOk result (out.new.items ≡ shown (Some (replacement_table names.now)) line.now) }
{
    out.clear();
    match heard(alloc, line)? {
        Some(found) => replace(names, line, &found, out),
        None => out.extend_from_slice(line),
    }
}

/// Replaces what `out` holds by a line as the call shows it, or as written if there is no call.
pub fn put_shown(
    alloc: Global,
    call: Option<&Call>,
    line: &[u8],
    out: &mut Vec<u8>,
) -> Result<(), AllocError>
    ensures { OnOk result (out.new.items ≡ shown (option_map (λ c. said c.now) call.entry) line.now) }
{
    match call {
        Some(call) => put_replaced(alloc, &call.names, line, out),
        None => {
            out.clear();
            out.extend_from_slice(line)
        }
    }
}

/// The role of a line as the call shows it, or as written if there is no call. `buffer` is only working memory: its contents have
/// no meaning before or after.
pub fn role_shown(
    alloc: Global,
    call: Option<&Call>,
    line: &[u8],
    buffer: &mut Vec<u8>,
) -> Result<Role, AllocError>
    ensures { IfOk result (λ role. role ≡ role_of_head (form_of (shown (option_map (λ c. said c.now) call.entry) line.now)).head) }
{
    match call {
        Some(_) => {
            put_shown(alloc, call, line, buffer)?;
            role_of(alloc, buffer)
        }
        None => role_of(alloc, line),
    }
}

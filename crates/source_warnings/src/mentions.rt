//! Finds which names a source mentions.

ghost use Rattle.std.specs.Prelude.{◌≡◌, ◌<◌, ◌^◌, ◌++◌, ◌∷◌, [], List, ℕ, OnOk, IfOk, length};
ghost use Rattle.std.specs.List.{filter_map, flat_map};
ghost use Rattle.std.specs.Option.{option_to_list};
ghost use Rattle.asm_line.specs.Tokens.{lexeme, lexemes};
ghost use Rattle.asm_line.specs.FormViews.{form_seen, head_seen};
ghost use Rattle.asm_macro.specs.Texts.{source_lines, numbered};
ghost use Rattle.source_warnings.specs.Mentions.{is_extrn, line_mentions, mentioned_by, mentions, name_of_token};
ghost use Rattle.source_warnings.specs.Noted.{noted_on};
ghost use Rattle.source_warnings.specs.Private.Known.{Agrees};

use crate::first_lines::FirstLines;
use crate::reading::heard;
use asm_line::{Form, Head, Token, form_of, is_name};
use asm_text::Lines;
use common::NameKey;
use std::alloc::{AllocError, Global};

/// Whether the word of a line is EXTRN, or its other spelling EXTERNAL.
fn is_extrn(head: Head<'_>) -> bool
    ensures { result ≡ is_extrn (head_seen head.entry) }
{
    match head {
        Head::Word(name) => {
            name.eq_ignore_ascii_case(b"EXTRN") || name.eq_ignore_ascii_case(b"EXTERNAL")
        }
        Head::Equ(_) | Head::Macro(_) | Head::Block(_) | Head::Nothing => false,
    }
}

/// Notes a token, if it is a name.
fn note_token(
    alloc: Global,
    mentions: &mut FirstLines,
    token: &Token<'_>,
    number: u32,
) -> Result<(), AllocError>
    ensures { OnOk result (Agrees mentions.new (mentions.old ++ noted_on number (option_to_list (name_of_token (lexeme token.now))))) }
{
    if is_name(token) {
        mentions.note(&token.text.to_ascii_uppercase(alloc)?, number)?;
    }
    Ok(())
}

/// Notes the names among some tokens.
fn note_names(
    alloc: Global,
    mentions: &mut FirstLines,
    tokens: &[Token<'_>],
    number: u32,
) -> Result<(), AllocError>
    ensures { OnOk result (Agrees mentions.new (mentions.old ++ noted_on number (filter_map name_of_token (lexemes tokens.entry.now)))) }
{
    for token in tokens {
        note_token(alloc, mentions, token, number)?;
    }
    Ok(())
}

/// Notes the names that a line mentions.
fn note_line(
    alloc: Global,
    mentions: &mut FirstLines,
    text: &[u8],
    number: u32,
) -> Result<(), AllocError>
    ensures { OnOk result (Agrees mentions.new (mentions.old ++ line_mentions (record { number = number; text = text.now }))) }
{
    match heard(alloc, text)? {
        Some(found) => {
            let form = form_of(&found);
            if is_extrn(form.head) {
                return Ok(());
            }
            note_names(alloc, mentions, form.rest, number)
        }
        None => Ok(()),
    }
}

/// Answers the names that the lines of a source mention.
pub(crate) fn mentions_in(
    alloc: Global,
    lines: &Lines<'_>,
    key: NameKey,
) -> Result<FirstLines, AllocError>
    requires { length lines.now < 2 ^ 32 }
    ensures { IfOk result (λ found. Agrees found (flat_map line_mentions (numbered 1 lines.now))) }
{
    let mut mentions = FirstLines::new(alloc, key);
    for at in 0..lines.len() {
        note_line(alloc, &mut mentions, lines.line(at), at as u32 + 1)?;
    }
    Ok(mentions)
}

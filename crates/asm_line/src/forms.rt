//! How a line begins: its label and its head.

ghost use Rattle.std.specs.Prelude.{◌≡◌, ◌∷◌, ◌&&◌, codes};
ghost use Rattle.std.specs.Option.{option_map};
ghost use Rattle.asm_line.specs.Tokens.{lexeme, lexemes};
ghost use Rattle.asm_line.specs.Forms.{block_named, defined, form, headed, labelled, worded};
ghost use Rattle.asm_line.specs.Single.{is_colon, is_name, is_word};
ghost use Rattle.asm_line.specs.FormViews.{form_seen};

use crate::Token;
use crate::single::{is_colon, is_name, is_word};

/// A word that opens, divides or closes a block, or LOCAL, which lists the names that are local to a macro.
#[derive(Clone, Copy, Debug, PartialEq, Eq)]
pub enum BlockWord {
    Macro,
    Local,
    Rept,
    If,
    Else,
    EndIf,
    EndM,
}

/// The first word or definition after a line's label. Names are as written.
#[derive(Clone, Copy, Debug)]
pub enum Head<'a> {
    /// `name EQU` or `name: EQU`.
    Equ(&'a [u8]),
    /// `name MACRO`.
    Macro(&'a [u8]),
    Block(BlockWord),
    /// Any other name.
    Word(&'a [u8]),
    /// Nothing: the line ends after its label, or something other than a name follows.
    Nothing,
}

/// The parts of a line: its label, its head, and the tokens after the head.
#[derive(Clone, Copy, Debug)]
pub struct Form<'a> {
    /// The name before the colon.
    pub label: Option<&'a [u8]>,
    pub head: Head<'a>,
    /// The tokens after the head.
    pub rest: &'a [Token<'a>],
}

/// The block word that a name is, in upper or lower case, if it is one.
fn block_named(name: &[u8]) -> Option<BlockWord>
    ensures { result ≡ block_named name.now }
{
    if name.eq_ignore_ascii_case(b"MACRO") {
        Some(BlockWord::Macro)
    } else if name.eq_ignore_ascii_case(b"LOCAL") {
        Some(BlockWord::Local)
    } else if name.eq_ignore_ascii_case(b"REPT") {
        Some(BlockWord::Rept)
    } else if name.eq_ignore_ascii_case(b"IF") {
        Some(BlockWord::If)
    } else if name.eq_ignore_ascii_case(b"ELSE") {
        Some(BlockWord::Else)
    } else if name.eq_ignore_ascii_case(b"ENDIF") {
        Some(BlockWord::EndIf)
    } else if name.eq_ignore_ascii_case(b"ENDM") {
        Some(BlockWord::EndM)
    } else {
        None
    }
}

/// The form of a line whose word is this token, if it is a name.
#[inline(always)]
fn worded<'a>(
    label: Option<&'a [u8]>,
    tokens: &'a [Token<'a>],
    word: &'a Token<'a>,
    rest: &'a [Token<'a>],
) -> Form<'a>
    requires { lexemes tokens.now ≡ lexeme word.now ∷ lexemes rest.now }
    ensures { form_seen result ≡ worded (option_map (λ name. name.now) label.entry) (lexeme word.now) (lexemes rest.now) }
{
    if !is_name(word) {
        return Form {
            label,
            head: Head::Nothing,
            rest: tokens,
        };
    }
    let head = match block_named(word.text) {
        Some(block) => Head::Block(block),
        None => Head::Word(word.text),
    };
    Form { label, head, rest }
}

/// The form of a line, given its label, if it has one, and the tokens after that.
#[inline(always)]
fn headed<'a>(label: Option<&'a [u8]>, tokens: &'a [Token<'a>]) -> Form<'a>
    ensures { form_seen result ≡ headed (option_map (λ name. name.now) label.entry) (lexemes tokens.entry.now) }
{
    match tokens {
        [] => Form {
            label,
            head: Head::Nothing,
            rest: tokens,
        },
        [word] => worded(label, tokens, word, &[]),
        [name, word, rest @ ..] => {
            if is_name(name) && is_word(b"MACRO", word) {
                Form {
                    label,
                    head: Head::Macro(name.text),
                    rest,
                }
            } else {
                worded(label, tokens, name, &tokens[1..])
            }
        }
    }
}

/// The form of a line that begins with a name and a colon, given the tokens after these.
#[inline(always)]
fn labelled<'a>(name: &'a [u8], tokens: &'a [Token<'a>]) -> Form<'a>
    ensures { form_seen result ≡ labelled name.now (lexemes tokens.entry.now) }
{
    match tokens {
        [word, rest @ ..] if is_word(b"EQU", word) => Form {
            label: None,
            head: Head::Equ(name),
            rest,
        },
        _ => headed(Some(name), tokens),
    }
}

/// Whether a line that begins with these two tokens is an EQU.
fn is_equ(name: &Token<'_>, word: &Token<'_>) -> bool
    ensures { result ≡ (is_name (lexeme name.now) && is_word (codes "EQU") (lexeme word.now)) }
{
    is_name(name) && is_word(b"EQU", word)
}

/// Whether a line that begins with these two tokens has a label.
fn is_label(name: &Token<'_>, colon: &Token<'_>) -> bool
    ensures { result ≡ (is_name (lexeme name.now) && is_colon (lexeme colon.now)) }
{
    is_name(name) && is_colon(colon)
}

/// The form of a line: its label, its head, and the tokens after the head.
pub fn form_of<'a>(tokens: &'a [Token<'a>]) -> Form<'a>
    ensures { form_seen result ≡ form (lexemes tokens.entry.now) }
{
    let [name, second, rest @ ..] = tokens else {
        return headed(None, tokens);
    };
    if is_equ(name, second) {
        return Form {
            label: None,
            head: Head::Equ(name.text),
            rest,
        };
    }
    if is_label(name, second) {
        return labelled(name.text, rest);
    }
    headed(None, tokens)
}

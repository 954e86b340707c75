//! Words that are not known.

use crate::meant::meant;
use crate::split::{with_space, with_underscore, without_blank};
use asm_line::{Head, Kind, Mark, Token, is_comma};
use asm_spell::{StmtFault, statement};
use common::is_reserved;
use error_lines::{Case, do_build, is_remark, local_parameter, may_build, operands};
use message_texts::{
    Draft, directive_instead, in_z80, is_intel, joined, needs_operands, shown, undocumented,
};
use std::alloc::{AllocError, Global};

/// Whether tokens are a statement of the language, with a word of its own.
fn is_statement(alloc: Global, tokens: &[Token<'_>]) -> Result<bool, AllocError> {
    if tokens.is_empty() {
        return Ok(false);
    }
    match statement(alloc, tokens) {
        Ok(_) => Ok(true),
        Err(StmtFault::UnknownWord) => Ok(false),
        Err(StmtFault::NoMemory) => Err(AllocError),
        Err(_) => Ok(true),
    }
}

/// Whether tokens are a line of the language without errors.
fn is_line(alloc: Global, tokens: &[Token<'_>]) -> Result<bool, AllocError> {
    if tokens.is_empty() {
        return Ok(false);
    }
    match statement(alloc, tokens) {
        Ok(_) => Ok(true),
        Err(StmtFault::NoMemory) => Err(AllocError),
        Err(_) => Ok(false),
    }
}

/// A token in upper case, as it is shown.
fn upper_text(alloc: Global, text: &[u8]) -> Result<String, AllocError> {
    let upper = text.to_ascii_uppercase(alloc)?;
    shown(alloc, &upper)
}

/// The message about the line's word, given in upper case, if it belongs to another processor or to another language.
fn of_other_processor(case: &Case<'_>, word: &str) -> Result<Option<Draft>, AllocError> {
    let alloc = case.alloc;
    let better = match in_z80(alloc, word, &operands(case)?)? {
        Some(better) if may_build(case, better.as_bytes())? => Some(better),
        _ => None,
    };
    if is_intel(word) {
        let draft = case.on_word(format!(in alloc; "{word} is an 8080 mnemonic")?);
        return Ok(Some(match better {
            Some(better) => draft.help(format!(in alloc; "in Z80 `{better}`")?)?,
            None => draft,
        }));
    }
    let may_be_label = case.is_at_margin() && case.form.rest.is_empty();
    if let (Some(better), false) = (better, may_be_label) {
        let draft = not_known(case)?;
        return Ok(Some(draft.help(format!(in alloc; "in Z80 `{better}`")?)?));
    }
    let Some(better) = undocumented(word) else {
        return Ok(None);
    };
    let text = format!(in alloc;
        "{word} is not an instruction of the Z80 manual, and not supported"
    )?;
    let draft = case.on_word(text);
    Ok(Some(draft.help(String::from_str(alloc, better)?)?))
}

/// The message about the word, or of the word after it, if it belongs to another assembler.
fn foreign(case: &Case<'_>, at: usize) -> Result<Option<Draft>, AllocError> {
    let alloc = case.alloc;
    let Some(token) = case.tokens.get(at) else {
        return Ok(None);
    };
    let word = upper_text(alloc, token.text)?;
    if at == case.word_at() {
        if let Some(draft) = of_other_processor(case, &word)? {
            return Ok(Some(draft));
        }
    }
    let Some(better) = directive_instead(&word) else {
        return Ok(None);
    };
    let draft = case.draft(at, 1, format!(in alloc; "{word} is not supported")?);
    Ok(Some(draft.help(String::from_str(alloc, better)?)?))
}

/// The message about a word that is not known, without a help.
fn not_known(case: &Case<'_>) -> Result<Draft, AllocError> {
    let word = shown(case.alloc, case.word())?;
    Ok(case.on_word(format!(in case.alloc; "`{word}` is not an instruction, directive or macro")?))
}

/// The message where the macro of this name is defined in a later line.
fn defined_later(case: &Case<'_>, word: &[u8], draft: Draft) -> Result<Option<Draft>, AllocError> {
    let alloc = case.alloc;
    match case.source.macro_line(alloc, word)? {
        Some(line) => {
            let name = shown(alloc, word)?;
            let at = case.at_line(line)?;
            let note = if line > case.finding.number {
                format!(in alloc; "the macro `{name}` is defined later, {at}: define it first")?
            } else {
                format!(in alloc; "the macro `{name}` {at} is in a branch that is not assembled")?
            };
            Ok(Some(draft.note(note)?))
        }
        None => Ok(None),
    }
}

/// Whether the line's word is one that no label and no macro can have.
fn is_taken(case: &Case<'_>) -> Result<bool, AllocError> {
    Ok(is_reserved(&case.word().to_ascii_uppercase(case.alloc)?))
}

/// The message where the word is a label without its colon.
fn as_label(case: &Case<'_>, draft: Draft) -> Result<Draft, AllocError> {
    let alloc = case.alloc;
    if is_taken(case)? {
        return Ok(draft);
    }
    let word = shown(alloc, case.word())?;
    if case.form.rest.is_empty() {
        return draft.help(format!(in alloc; "a label ends with a colon: `{word}:`")?);
    }
    let next = case.tokens_at(case.rest_at(), 1);
    let rest = case.tokens_at(case.rest_at().saturating_add(1), case.tokens.len());
    let first = joined(alloc, next)?;
    let others = joined(alloc, rest)?;
    let blank = if rest.is_empty() { "" } else { " " };
    draft.help(format!(in alloc; "a label ends with a colon: `{word}: {first}{blank}{others}`")?)
}

/// The message about a word that belongs to no assembler that is known.
fn nowhere(case: &Case<'_>) -> Result<Draft, AllocError> {
    let alloc = case.alloc;
    let draft = not_known(case)?;
    if case.form.label.is_none() && is_statement(alloc, case.form.rest)? {
        return as_label(case, draft);
    }
    if let [
        Token {
            kind: Kind::Mark(Mark::Colon),
            ..
        },
        ..
    ] = case.form.rest
    {
        return draft.help(String::from_str(
            alloc,
            "a line has at most one label: put the other one on a line of its own",
        )?);
    }
    match meant(case)? {
        Some(better) => draft.help(format!(in alloc; "did you mean `{better}`?")?),
        None => unguessed(case, draft),
    }
}

/// Whether words without a comma follow the line's word, so that all may be a remark.
fn is_prose(case: &Case<'_>) -> Result<bool, AllocError> {
    match case.form.rest {
        [_, _, ..] => is_remark(case, case.form.rest),
        _ => Ok(false),
    }
}

/// The message about a word that is like no known one: it may be a label, a remark or a macro.
fn unguessed(case: &Case<'_>, draft: Draft) -> Result<Draft, AllocError> {
    let alloc = case.alloc;
    let word = shown(alloc, case.word())?;
    if is_prose(case)? {
        return draft.help(String::from_str(
            alloc,
            "a comment starts with `;`, and a label ends with a colon",
        )?);
    }
    if is_taken(case)? {
        return Ok(draft);
    }
    let draft = if case.form.label.is_none() && case.form.rest.is_empty() {
        as_label(case, draft)?
    } else {
        draft
    };
    draft.help(format!(in alloc; "a macro is defined above its first call: `{word} MACRO`")?)
}

/// The line with its first colon after the name that follows, if it builds so: `LABEL: LD A,5` for `:LABEL LD A,5`.
fn with_colon_after(case: &Case<'_>) -> Result<Option<String>, AllocError> {
    let alloc = case.alloc;
    let [colon, name, rest @ ..] = case.tokens else {
        return Ok(None);
    };
    if colon.kind != Kind::Mark(Mark::Colon) || name.kind != Kind::Name {
        return Ok(None);
    }
    let mut line = Vec::from_slice(alloc, &[*name, *colon])?;
    line.extend_from_slice(rest)?;
    if !do_build(case, &line)? {
        return Ok(None);
    }
    let text = joined(alloc, &line)?;
    Ok(Some(format!(in alloc; "the colon comes after the label: `{text}`")?))
}

/// What to write instead of a line that begins with something other than a name, if more of it tells that.
fn wordless_help(case: &Case<'_>) -> Result<Option<String>, AllocError> {
    if let Some(help) = with_colon_after(case)? {
        return Ok(Some(help));
    }
    if let Some(help) = local_parameter(case)? {
        return Ok(Some(help));
    }
    match case.tokens_at(case.word_at(), 2) {
        [first, second]
            if first.kind == Kind::Mark(Mark::Slash)
                && matches!(second.kind, Kind::Mark(Mark::Slash | Mark::Star)) => {
            Ok(Some(String::from_str(case.alloc, "a comment starts with `;`")?))
        }
        _ => Ok(None),
    }
}

/// The message about a line that begins with something other than a name.
fn wordless(case: &Case<'_>) -> Result<Draft, AllocError> {
    let alloc = case.alloc;
    let first = case.joined(case.word_at(), 1)?;
    let text = format!(in alloc; "`{first}` is not an instruction, directive or macro")?;
    let draft = case.on_word(text);
    if let Some(help) = wordless_help(case)? {
        return draft.help(help);
    }
    match case.tokens.get(case.word_at()) {
        Some(
            Token {
                kind: Kind::Number(_),
                ..
            },
        ) => draft.help(String::from_str(
            alloc,
            "a line has no number, and a label begins with a letter, `_`, `?`, `@` or `.`",
        )?),
        Some(
            Token {
                kind: Kind::Mark(Mark::Star),
                ..
            },
        ) => { draft.help(String::from_str(alloc, "a comment starts with `;`")?) }
        Some(
            Token {
                kind: Kind::Mark(Mark::Colon),
                ..
            },
        ) => draft.help(String::from_str(
            alloc,
            "`::` is not supported: a label has one colon, and PUBLIC makes it known to other sources",
        )?),
        _ => draft.help(String::from_str(alloc, "a line is `LABEL: WORD operands ; comment`")?),
    }
}

/// Whether a word that other assemblers have as a directive is a label here: whether it begins its line, and a statement follows it, or not
/// what the directive takes.
fn is_label_here(case: &Case<'_>) -> Result<bool, AllocError> {
    let alloc = case.alloc;
    if case.form.label.is_some() || !case.is_at_margin() {
        return Ok(false);
    }
    if is_line(alloc, case.form.rest)? {
        return Ok(true);
    }
    let word = upper_text(alloc, case.word())?;
    Ok(case.form.rest.is_empty() && needs_operands(&word))
}

/// Whether the token after the line's word is an operand: a name that another assembler has as a directive, but only with operands, which do
/// not follow here.
fn is_operand_after(case: &Case<'_>) -> Result<bool, AllocError> {
    let Some(name) = case.form.rest.first() else {
        return Ok(false);
    };
    let is_alone = match case.form.rest.get(1) {
        Some(next) => is_comma(next),
        None => true,
    };
    Ok(is_alone && needs_operands(&upper_text(case.alloc, name.text)?))
}

/// The message about `NAME PROC`; None if the line is none.
fn procedure(case: &Case<'_>) -> Result<Option<Draft>, AllocError> {
    let alloc = case.alloc;
    let [token] = case.form.rest else {
        return Ok(None);
    };
    let word = upper_text(alloc, token.text)?;
    let name = shown(alloc, case.word())?;
    let help = match word.as_str() {
        "PROC" => format!(in alloc; "a label ends with a colon: `{name}:`")?,
        "ENDP" => String::from_str(alloc, "leave it out")?,
        _ => return Ok(None),
    };
    let text = format!(in alloc; "{word} is not supported")?;
    Ok(Some(case.draft(case.rest_at(), 1, text).help(help)?))
}

/// The message about a word that is not known if a sign in it or a blank that is missing makes it so.
fn miswritten(case: &Case<'_>) -> Result<Option<Draft>, AllocError> {
    let alloc = case.alloc;
    let draft = not_known(case)?;
    if let Some(help) = with_underscore(case, case.word_at())? {
        return Ok(Some(draft.help(help)?));
    }
    if let Some(help) = without_blank(case)? {
        return Ok(Some(draft.help(help)?));
    }
    let Some(line) = with_space(case)? else {
        return Ok(None);
    };
    let may_be_label = case.is_at_margin() && case.form.rest.is_empty();
    let draft = if may_be_label {
        as_label(case, draft)?
    } else {
        draft
    };
    Ok(Some(draft.help(format!(in alloc; "a blank is missing: `{line}`")?)?))
}

/// The message about a line whose word is not known.
///
/// # Errors
///
/// `AllocError` if memory ran out.
pub fn unknown(case: &Case<'_>) -> Result<Draft, AllocError> {
    let Head::Word(word) = case.form.head else {
        return wordless(case);
    };
    if let Some(draft) = miswritten(case)? {
        return Ok(draft);
    }
    if let Some(draft) = procedure(case)? {
        return Ok(draft);
    }
    if is_label_here(case)? {
        return as_label(case, not_known(case)?);
    }
    if let Some(draft) = foreign(case, case.word_at())? {
        return Ok(draft);
    }
    if case.form.label.is_none() && is_line(case.alloc, case.form.rest)? {
        return nowhere(case);
    }
    if !is_operand_after(case)? {
        if let Some(draft) = foreign(case, case.rest_at())? {
            return Ok(draft);
        }
    }
    match defined_later(case, word, not_known(case)?)? {
        Some(draft) => Ok(draft),
        None => nowhere(case),
    }
}

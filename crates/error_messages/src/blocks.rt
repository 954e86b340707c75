//! Blocks, and macros.

use asm_line::{BlockWord, Head, Kind, Mark, form_of, is_name, is_word};
use common::is_reserved;
use error_lines::{
    Case, Divided, Worth, closers_after, is_in_repetition, judge, open_condition, other_opener,
    word_in,
};
use message_texts::{
    Draft, Opening, directive_instead, joined, opens, reserved_text, shown, tokens_of,
};
use std::alloc::{AllocError, Global};

/// A block word as it is written.
fn block_text(block: BlockWord) -> &'static str {
    match block {
        BlockWord::Macro => "MACRO",
        BlockWord::Local => "LOCAL",
        BlockWord::Rept => "REPT",
        BlockWord::If => "IF",
        BlockWord::Else => "ELSE",
        BlockWord::EndIf => "ENDIF",
        BlockWord::EndM => "ENDM",
    }
}

/// A text of its own.
fn owned(alloc: Global, text: &str) -> Result<String, AllocError> {
    String::from_str(alloc, text)
}

/// The message about a block without its end.
pub(crate) fn unclosed(case: &Case<'_>) -> Result<Draft, AllocError> {
    let alloc = case.alloc;
    let (word, end, opening) = match case.form.head {
        Head::Macro(_) => ("MACRO", "ENDM", Opening::Repetition),
        Head::Block(BlockWord::Rept) => ("REPT", "ENDM", Opening::Repetition),
        Head::Block(BlockWord::If) => ("IF", "ENDIF", Opening::Condition),
        _ => {
            let name = shown(alloc, case.word())?;
            let text = format!(in alloc; "a block in the macro `{name}` is not closed in it")?;
            return case.on_word(text).help(owned(
                alloc,
                "each IF and REPT of a macro ends in the macro",
            )?);
        }
    };
    let text = format!(in alloc; "this {word} has no {end}")?;
    with_end(case, case.on_word(text), end, opening)
}

/// The message about a block without its end, which also says what to write.
fn with_end(
    case: &Case<'_>,
    draft: Draft,
    end: &str,
    opening: Opening,
) -> Result<Draft, AllocError> {
    let alloc = case.alloc;
    let found = closers_after(alloc, case.source, case.finding.number, opening)?;
    if found.is_closed || case.is_expanded() {
        return draft.help(owned(
            alloc,
            "a block that begins in a branch, a macro or a REPT ends there too",
        )?);
    }
    if let Some(line) = found.other {
        let word = word_in(alloc, case.source.line(line))?;
        let at = case.at_line(line)?;
        return draft.help(format!(in alloc; "{word} {at} is not supported: write `{end}`")?);
    }
    let draft = match found.last {
        Some((closer, opener)) => {
            let closes = block_word_at(case, closer)?;
            let opens = block_word_at(case, opener)?;
            draft.note(format!(in alloc; "the {closes} closes the {opens}")?)?
        }
        None => draft,
    };
    draft.help(format!(in alloc; "write {end} after its last line")?)
}

/// The block word of a line, and where that is: `ENDIF at line 12`.
fn block_word_at(case: &Case<'_>, number: u32) -> Result<String, AllocError> {
    let found = tokens_of(case.alloc, case.source.line(number))?;
    let word = match form_of(&found).head {
        Head::Block(block) => block_text(block),
        _ => "MACRO",
    };
    let at = case.at_line(number)?;
    format!(in case.alloc; "{word} {at}")
}

/// The message about the second ELSE of an IF. None if this ELSE is not the second, or is in a macro or a REPT.
fn second_else(case: &Case<'_>) -> Result<Option<Draft>, AllocError> {
    let alloc = case.alloc;
    if case.is_expanded() {
        return Ok(None);
    }
    match open_condition(alloc, case.source, case.finding.number)? {
        Some(
            Divided {
                opener,
                other: Some(other),
            },
        ) => {
            let (opener, other) = (case.at_line(opener)?, case.at_line(other)?);
            let text = format!(in alloc; "the IF {opener} has an ELSE already, {other}")?;
            Ok(Some(case.on_word(text)))
        }
        _ => Ok(None),
    }
}

/// The message about a word that closes or divides a block that is not open.
fn closes_none(
    case: &Case<'_>,
    word: &str,
    opener: &str,
    opening: Opening,
) -> Result<Draft, AllocError> {
    let alloc = case.alloc;
    let verb = if word == "ELSE" {
        "belongs to"
    } else {
        "closes"
    };
    let text = format!(in alloc; "this {word} {verb} no {opener}")?;
    let draft = case.on_word(text);
    let before = case.finding.number;
    if word == "ELSE" {
        if let Some(draft) = second_else(case)? {
            return Ok(draft);
        }
    }
    let Some(line) = other_opener(alloc, case.source, before, opening)? else {
        return draft.help(format!(in alloc;
            "leave it out, or write the missing {opener} above it"
        )?);
    };
    let found = word_in(alloc, case.source.line(line))?;
    let at = case.at_line(line)?;
    let draft = draft.note(format!(in alloc; "{found} {at} is not supported")?)?;
    match directive_instead(&found) {
        Some(better) => draft.help(owned(alloc, better)?),
        None => Ok(draft),
    }
}

/// The message about a block word after a label.
fn labelled_block(case: &Case<'_>, block: BlockWord, label: &[u8]) -> Result<Draft, AllocError> {
    let alloc = case.alloc;
    if let BlockWord::Macro = block {
        let name = shown(alloc, label)?;
        let text = owned(alloc, "the name of a macro has no colon")?;
        let rest = case.joined(case.rest_at(), case.form.rest.len())?;
        let blank = if rest.is_empty() { "" } else { " " };
        return case
            .draft(0, 2, text)
            .help(format!(in alloc; "`{name} MACRO{blank}{rest}`")?);
    }
    let word = block_text(block);
    let text = format!(in alloc; "{word} takes no label")?;
    case.draft(0, 2, text)
        .help(owned(alloc, "put the label on a line of its own")?)
}

/// The message about a word of another assembler that opens a block, if a later line closes or divides it.
fn other_opens(case: &Case<'_>) -> Result<Option<Draft>, AllocError> {
    let alloc = case.alloc;
    let word = word_in(alloc, &case.finding.text)?;
    if !opens(Opening::Condition, &word) && !opens(Opening::Repetition, &word) {
        return Ok(None);
    }
    let draft = case.on_word(format!(in alloc; "{word} is not supported")?);
    let help = match directive_instead(&word) {
        Some(better) => Some(owned(alloc, better)?),
        None => None,
    };
    Ok(Some(draft.help_if(help)?))
}

/// What to write instead of ELSE, ENDIF or ENDM with operands.
fn without_operands(case: &Case<'_>) -> &'static str {
    let is_if = case
        .form
        .rest
        .first()
        .is_some_and(|token| is_word(b"IF", token));
    match directive_instead("ELSEIF") {
        Some(better) if is_if => better,
        _ => "a comment starts with `;`",
    }
}

/// The message about a LOCAL in the wrong place.
fn stray_local(case: &Case<'_>) -> Result<Draft, AllocError> {
    let alloc = case.alloc;
    // A list has one name more than it has commas.
    if case.form.rest.len() % 2 == 0 || !are_parameters(case) {
        let text = owned(alloc, "LOCAL lists names with commas between them")?;
        return Ok(case.on_word(text));
    }
    if !is_in_repetition(alloc, case.source, case.finding.number)? {
        return case
            .on_word(owned(alloc, "LOCAL belongs to a macro")?)
            .help(owned(alloc, "leave it out")?);
    }
    case.on_word(owned(
        alloc,
        "LOCAL must stand directly below the MACRO line, or below another LOCAL",
    )?)
    .help(owned(
        alloc,
        "move it there; a blank or comment line before it is too much",
    )?)
}

/// The message about a block word in the wrong place.
fn stray_block(case: &Case<'_>, block: BlockWord) -> Result<Draft, AllocError> {
    let alloc = case.alloc;
    let word = block_text(block);
    if let Some(label) = case.form.label {
        return labelled_block(case, block, label);
    }
    let rest = case.form.rest.len();
    match block {
        BlockWord::Macro => case
            .on_word(owned(alloc, "a macro's name comes before MACRO")?)
            .help(owned(alloc, "`NAME MACRO p,..`")?),
        BlockWord::Local => stray_local(case),
        BlockWord::Else | BlockWord::EndIf | BlockWord::EndM if rest > 0 => {
            let text = format!(in alloc; "{word} takes no operands")?;
            case.draft(case.rest_at(), rest, text)
                .help(owned(alloc, without_operands(case))?)
        }
        BlockWord::Else | BlockWord::EndIf => closes_none(case, word, "IF", Opening::Condition),
        BlockWord::EndM => closes_none(case, word, "MACRO or REPT", Opening::Repetition),
        BlockWord::If | BlockWord::Rept => {
            let text = format!(in alloc; "{word} takes one expression")?;
            Ok(case.on_word(text))
        }
    }
}

/// Whether the parameters of a macro, or the tokens after LOCAL, are names with commas between them.
fn are_parameters(case: &Case<'_>) -> bool {
    for (at, token) in case.form.rest.iter().enumerate() {
        let is_fit = if at % 2 == 0 {
            is_name(token)
        } else {
            matches!(token.kind, Kind::Mark(Mark::Comma))
        };
        if !is_fit {
            return false;
        }
    }
    true
}

/// The message about a line that cannot begin a macro.
fn stray_macro(case: &Case<'_>, name: &[u8]) -> Result<Draft, AllocError> {
    let alloc = case.alloc;
    let upper = name.to_ascii_uppercase(alloc)?;
    let name = shown(alloc, name)?;
    if is_reserved(&upper) {
        let what = reserved_text(&upper);
        let text = format!(in alloc; "`{name}` is {what} and cannot be the name of a macro")?;
        let at = case.word_at().saturating_sub(1);
        return case
            .draft(at, 1, text)
            .help(owned(alloc, "choose another name")?);
    }
    if case.form.label.is_some() {
        let text = owned(alloc, "MACRO takes no label")?;
        return case
            .draft(0, 2, text)
            .help(owned(alloc, "put the label on a line of its own")?);
    }
    let count = case.form.rest.len();
    // A list has one name more than it has commas.
    let ends_with_comma = count > 0 && count % 2 == 0;
    if !are_parameters(case) || ends_with_comma {
        let text = owned(
            alloc,
            "the parameters of a macro are names with commas between them",
        )?;
        let draft = if are_parameters(case) {
            case.draft(case.tokens.len().saturating_sub(1), 1, text)
        } else {
            case.draft(case.rest_at(), count, text)
        };
        return draft.help(format!(in alloc; "`{name} MACRO p,..`")?);
    }
    let text = owned(alloc, "a macro cannot be defined in a macro or in a REPT")?;
    case.on_word(text)
        .help(owned(alloc, "move the definition out")?)
}

/// The message about a line of a block in the wrong place.
pub(crate) fn stray(case: &Case<'_>) -> Result<Draft, AllocError> {
    let alloc = case.alloc;
    match case.form.head {
        Head::Block(block) => stray_block(case, block),
        Head::Macro(name) => stray_macro(case, name),
        _ => {
            if let Some(draft) = other_opens(case)? {
                return Ok(draft);
            }
            let name = shown(alloc, case.word())?;
            let text = format!(in alloc; "a line of the macro `{name}` is in the wrong place")?;
            case.on_word(text).help(owned(
                alloc,
                "LOCAL comes first in the body, before blank and comment lines too; no macro is defined in it; each ENDIF and ENDM closes a block of it",
            )?)
        }
    }
}

/// The message where calls are nested too deep.
pub(crate) fn too_deep(case: &Case<'_>) -> Result<Draft, AllocError> {
    let alloc = case.alloc;
    let text = owned(alloc, "calls and repetitions are nested more than 16 deep")?;
    case.on_word(text)
        .help(owned(alloc, "look for a macro that calls itself")?)
}

/// The message where there are too many lines.
pub(crate) fn too_many_lines(case: &Case<'_>) -> Result<Draft, AllocError> {
    let alloc = case.alloc;
    let text = owned(
        alloc,
        "the source takes more than 60,000 lines, those of calls and repetitions included",
    )?;
    let draft = match negative_count(case)? {
        Some(note) => case.on_word(text).note(note)?,
        None => case.on_word(text),
    };
    draft.help(owned(
        alloc,
        "divide it into modules; write many equal bytes as `DS n,byte`",
    )?)
}

/// What the count of the REPT is from which the line comes, if it is written as a negative number.
fn negative_count(case: &Case<'_>) -> Result<Option<String>, AllocError> {
    let alloc = case.alloc;
    let found = tokens_of(alloc, case.source.line(case.finding.number))?;
    let form = form_of(&found);
    if !matches!(form.head, Head::Block(BlockWord::Rept)) {
        return Ok(None);
    }
    match judge(case, form.rest)? {
        Worth::Number(count) if count >= 0x8000 => {
            let written = joined(alloc, form.rest)?;
            Ok(Some(format!(in alloc; "`REPT {written}` is {count} times")?))
        }
        _ => Ok(None),
    }
}

/// The message about a second macro of one name.
pub(crate) fn redefined(case: &Case<'_>) -> Result<Draft, AllocError> {
    let alloc = case.alloc;
    let Head::Macro(name) = case.form.head else {
        return Ok(case.on_word(owned(alloc, "a macro is defined twice")?));
    };
    let shown_name = shown(alloc, name)?;
    let text = format!(in alloc; "the macro `{shown_name}` is defined twice")?;
    let draft = case.draft(case.word_at().saturating_sub(1), 1, text);
    let draft = match case.source.macro_line(alloc, name)? {
        Some(line) if line < case.finding.number => {
            let at = case.at_line(line)?;
            draft.note(format!(in alloc; "first {at}")?)?
        }
        _ => draft,
    };
    draft.help(owned(alloc, "give one of the two another name")?)
}

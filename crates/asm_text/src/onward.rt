//! Where expansion continues when a block opens, or when some lines have been expanded.

ghost use Rattle.std.specs.Prelude.{◌≡◌, IfOk, List, Option, map, ℕ};
ghost use Rattle.std.specs.Option.{option_map};
ghost use Rattle.asm_line.specs.Replacing.Replaced.{ReplacementTable};
ghost use Rattle.asm_text.specs.Prepared.{said};
ghost use Rattle.asm_text.specs.Spans.{text_of};
ghost use Rattle.asm_text.specs.Sections.Onward.{On, behind, branch, stray, stray_in, stray_or};
ghost use Rattle.asm_text.specs.Sections.Onward as onward;
ghost use Rattle.asm_text.specs.Sections.Sections.{branches_seen, numbered_line, section_of};
ghost use Rattle.asm_text.specs.Sections.Views.{next_of, onward_seen};

use crate::call::Call;
use crate::following::{Following, Onward};
use crate::lines::Lines;
use crate::reading::{is_alone, put_shown};
use crate::span::Span;
use crate::stretch::{Choice, Place, Stretch};
use std::alloc::{AllocError, Global};

/// The number of a line that closes or divides a block, if the line has something else in it and so is misplaced.
pub fn stray(
    alloc: Global,
    lines: &Lines<'_>,
    call: Option<&Call>,
    end: Place,
) -> Result<Option<u32>, AllocError>
    ensures { IfOk result (λ number. number ≡ stray (numbered_line lines.now (option_map (λ c. said c.now) call.entry) end)) }
{
    let mut text = Vec::new(alloc);
    put_shown(alloc, call, lines.line(end.at), &mut text)?;
    if is_alone(alloc, &text)? {
        Ok(None)
    } else {
        Ok(Some(end.number))
    }
}

/// The number of the first misplaced line among those that end the branches after the first one. An IF has two branches at most: a
/// second ELSE is misplaced, and so is a line that has something else in it.
fn stray_in(
    alloc: Global,
    lines: &Lines<'_>,
    call: Option<&Call>,
    others: &[Stretch],
) -> Result<Option<u32>, AllocError>
    ensures { IfOk result (λ number. number ≡ stray_in (map (section_of lines.now (option_map (λ c. said c.now) call.entry)) others.now)) }
{
    match others {
        [] => Ok(None),
        [second] => stray(alloc, lines, call, second.end),
        [second, ..] => Ok(Some(second.end.number)),
    }
}

/// Continues with the lines `after`, unless there is the number of a misplaced line.
fn on(number: Option<u32>, after: Span) -> Onward
    ensures { (texts : List (List ℕ)) (names : Option ReplacementTable) → onward_seen texts names result ≡ stray_or number (On (text_of texts names after)) }
{
    match number {
        Some(number) => Onward::Stray(number),
        None => Onward::On(after),
    }
}

/// Continues with the second branch of an IF, or after the IF if there is none.
fn second(choice: Choice) -> Onward
    ensures { (texts : List (List ℕ)) (names : Option ReplacementTable) → onward_seen texts names result ≡ onward.second_of (branches_seen texts names choice).others (branches_seen texts names choice).after }
{
    let text = match choice.others.as_slice() {
        [] => return Onward::On(choice.after),
        [second, ..] => second.lines,
    };
    Onward::Into(text, Following::BehindSecond(choice))
}

/// Where expansion continues at an IF, given the value of its expression: 0 chooses the second branch, and each other value the
/// first.
pub fn branch(
    alloc: Global,
    lines: &Lines<'_>,
    call: Option<&Call>,
    value: u16,
    choice: Choice,
) -> Result<Onward, AllocError>
    ensures { IfOk result (λ onward. onward_seen lines.now (option_map (λ c. said c.now) call.entry) onward
        ≡ branch value (branches_seen lines.now (option_map (λ c. said c.now) call.entry) choice)) }
{
    if value == 0 {
        return match stray(alloc, lines, call, choice.first.end)? {
            Some(number) => Ok(Onward::Stray(number)),
            None => Ok(second(choice)),
        };
    }
    let text = choice.first.lines;
    Ok(Onward::Into(text, Following::BehindFirst(choice)))
}

/// Where expansion continues once some lines have been expanded, given what follows them. At a REPT, `following` is the number of
/// its repetitions.
pub fn behind(
    alloc: Global,
    lines: &Lines<'_>,
    call: Option<&Call>,
    following: Following,
) -> Result<Onward, AllocError>
    ensures { IfOk result (λ onward. onward_seen lines.now (option_map (λ c. said c.now) call.entry) onward
        ≡ behind (next_of lines.now (option_map (λ c. said c.now) call.entry) following)) }
{
    match following {
        Following::Rest(text) => Ok(Onward::On(text)),
        Following::BehindFirst(choice) => {
            if let Some(number) = stray(alloc, lines, call, choice.first.end)? {
                return Ok(Onward::Stray(number));
            }
            let number = stray_in(alloc, lines, call, &choice.others)?;
            Ok(on(number, choice.after))
        }
        Following::BehindSecond(choice) => {
            let number = stray_in(alloc, lines, call, &choice.others)?;
            Ok(on(number, choice.after))
        }
        Following::Turns(left, number, body) => {
            if left == 0 {
                let number = stray(alloc, lines, call, body.stretch.end)?;
                return Ok(on(number, body.after));
            }
            let text = Span {
                number: Some(number),
                ..body.stretch.lines
            };
            Ok(Onward::Into(text, Following::Turns(left - 1, number, body)))
        }
    }
}

//! Continues an expansion with the lines of a block, or after a block.

ghost use Rattle.std.specs.Prelude.{◌≡◌, ◌≤◌, ◌+◌, OnOk, List, Option, length, ℕ};
ghost use Rattle.asm_macro.specs.declared.take.TheConstants.{MOST_NESTED};
ghost use Rattle.asm_macro.specs.declared.expansion.TheConstants.{MOST_LINES};
ghost use Rattle.asm_line.specs.Replacing.Replaced.{ReplacementTable};
ghost use Rattle.asm_text.specs.Lines.{Numbered};
ghost use Rattle.asm_text.specs.Sections.Onward as onward;
ghost use Rattle.asm_text.specs.Sections.Sections.{branches_seen};
ghost use Rattle.asm_text.specs.Sections.Views.{next_of, onward_seen};
ghost use Rattle.asm_macro.specs.Parts.{into, onward_part, resumed};
ghost use Rattle.asm_macro.specs.Private.Frames.{innermost};
ghost use Rattle.asm_macro.specs.Private.Going.{Enters, Fits, texts_opened, turn_in, turns_opened};
ghost use Rattle.asm_macro.specs.Private.Moves.{IsSound, Resumes, most_moves, moved, rest_of, state_of, tables_in};

use crate::expansion::{Expansion, MOST_LINES};
use crate::fault::MacroFault;
use crate::moves::Stop;
use asm_text::{Choice, Following, Onward, behind, branch};

impl<'a> Expansion<'a> {
    /// Counts a repetition of a REPT, if one begins.
    fn count_turn(&mut self, following: &Following) -> Result<(), Stop>
        requires sound { IsSound self.old }
        requires shallow { length self.old.calls.items + self.old.turns + turn_in following.now ≤ MOST_NESTED }
        ensures counted { OnOk result (self.new ≡ record self.old { count = self.old.count + turn_in following.now; turns = self.old.turns + turn_in following.now }) }
        ensures few { OnOk result (self.new.count ≤ MOST_LINES) }
        ensures enters { (texts : List (List ℕ)) (names : Option ReplacementTable) (depth : ℕ) (text : List Numbered) → Enters result (state_of self.new) (depth + turn_in following.now) text (next_of texts names following.now)
            (into depth (state_of self.old) text (next_of texts names following.now)) }
    {
        match following {
            Following::Turns(_, number, _) => {
                if self.count >= MOST_LINES {
                    return Err(Stop::At(*number, MacroFault::TooManyLines));
                }
                self.count += 1;
                self.turns += 1;
                Ok(())
            }
            Following::Rest(_) => Ok(()),
            Following::BehindFirst(_) => Ok(()),
            Following::BehindSecond(_) => Ok(()),
        }
    }

    /// Continues with the lines that a block opens, or with those after it.
    fn go_with(&mut self, onward: Onward) -> Result<(), Stop>
        requires sound { IsSound self.old }
        requires fits { Fits (length self.old.calls.items + self.old.turns) (onward_seen self.old.lines (innermost (tables_in self.old)) onward) }
        ensures sound { OnOk result (IsSound self.new) }
        ensures count { OnOk result (self.new.count ≡ self.old.count + turns_opened (onward_seen self.old.lines (innermost (tables_in self.old)) onward)) }
        ensures around { OnOk result (length self.new.around.items ≡ length self.old.around.items + texts_opened (onward_seen self.old.lines (innermost (tables_in self.old)) onward)) }
        ensures gone { Resumes result (rest_of self.new) (moved (rest_of self.old).depth (rest_of self.old).around
            (onward_part (rest_of self.old).depth (state_of self.old) (onward_seen self.old.lines (innermost (tables_in self.old)) onward))) }
    {
        match onward {
            Onward::Stray(number) => Err(Stop::At(number, MacroFault::Stray)),
            Onward::On(text) => {
                self.text = text;
                Ok(())
            }
            Onward::Into(text, following) => {
                self.count_turn(&following)?;
                self.around.push(following)?;
                self.text = text;
                Ok(())
            }
        }
    }

    /// Continues with the branch of an IF that the value of its expression chooses.
    pub(crate) fn go_in(&mut self, value: u16, choice: Choice) -> Result<(), Stop>
        requires sound { IsSound self.old }
        ensures sound { OnOk result (IsSound self.new) }
        ensures count { OnOk result (self.new.count ≡ self.old.count) }
        ensures around { OnOk result (length self.new.around.items ≤ length self.old.around.items + 1) }
        ensures chosen { Resumes result (rest_of self.new) (moved (rest_of self.old).depth (rest_of self.old).around
            (onward_part (rest_of self.old).depth (state_of self.old) (onward.branch value (branches_seen self.old.lines (innermost (tables_in self.old)) choice)))) }
    {
        let onward = branch(self.alloc, &self.lines, self.calls.last(), value, choice)?;
        self.go_with(onward)
    }

    /// Continues after the lines of a block, or with the next repetition of a REPT.
    pub(crate) fn go_behind(&mut self, following: Following) -> Result<(), Stop>
        requires sound { IsSound self.old }
        requires shallow { length self.old.calls.items + self.old.turns + turn_in following ≤ MOST_NESTED }
        ensures sound { OnOk result (IsSound self.new) }
        ensures count { OnOk result (self.old.count ≤ self.new.count) }
        ensures less { OnOk result (most_moves self.new ≤ most_moves self.old) }
        ensures around { OnOk result (length self.new.around.items ≤ length self.old.around.items + 1) }
        ensures resumed { Resumes result (rest_of self.new) (moved (rest_of self.old).depth (rest_of self.old).around
            (resumed (rest_of self.old).depth (next_of self.old.lines (innermost (tables_in self.old)) following) (state_of self.old))) }
    {
        let onward = behind(self.alloc, &self.lines, self.calls.last(), following)?;
        self.go_with(onward)
    }
}

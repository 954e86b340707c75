//! Finds the bodies of MACRO and REPT and the branches of IF in the current lines.

ghost use Rattle.std.specs.Prelude.{◌≡◌, IfOk, OnOk};
ghost use Rattle.std.specs.Option.{option_map};
ghost use Rattle.asm_text.specs.Sections.Blocks.{block_body, branches_of};
ghost use Rattle.asm_text.specs.Sections.Sections.{body_seen, branches_seen};
ghost use Rattle.asm_macro.specs.Private.Frames.{innermost};
ghost use Rattle.asm_macro.specs.Private.Moves.{IsSound, rest_of, tables_in};

use crate::expansion::Expansion;
use asm_text::{Block, Choice, body_of, branches_of};
use std::alloc::AllocError;

impl<'a> Expansion<'a> {
    /// Answers the body of a MACRO or REPT if an ENDM closes it. The body begins with the next of the current lines.
    pub(crate) fn body(&mut self) -> Result<Option<Block>, AllocError>
        requires sound { IsSound self.old }
        ensures sound { OnOk result (IsSound self.new) }
        ensures kept { OnOk result (self.new ≡ record self.old { book = self.new.book; source = self.new.source }) }
        ensures body { IfOk result (λ found. option_map (body_seen self.old.lines (innermost (tables_in self.old))) found ≡ block_body (rest_of self.old).text) }
    {
        body_of(
            self.alloc,
            &self.lines,
            self.calls.last(),
            self.text,
            &mut self.source,
            &mut self.book,
        )
    }

    /// Answers the branches of an IF if an ENDIF closes it. The first branch begins with the next of the current lines.
    pub(crate) fn branches(&mut self) -> Result<Option<Choice>, AllocError>
        requires sound { IsSound self.old }
        ensures sound { OnOk result (IsSound self.new) }
        ensures kept { OnOk result (self.new ≡ record self.old { book = self.new.book; source = self.new.source }) }
        ensures branches { IfOk result (λ found. option_map (branches_seen self.old.lines (innermost (tables_in self.old))) found ≡ branches_of (rest_of self.old).text) }
    {
        branches_of(
            self.alloc,
            &self.lines,
            self.calls.last(),
            self.text,
            &mut self.source,
            &mut self.book,
        )
    }
}

//! Keeps what is known while a source is expanded, and what is left to expand; moves from line to line.

ghost use Rattle.std.specs.Prelude.{◌≡◌, ◌≢◌, ◌<◌, ◌≤◌, ◌+◌, ◌∷◌, ℕ, IfOk, OnOk, List, [], Some, length, reverse, slice_index_or};
ghost use Rattle.asm_line.specs.Replacing.Replaced.{ReplacementTable};
ghost use Rattle.asm_text.specs.Sections.Books.{IsBook};
ghost use Rattle.asm_macro.specs.Kept.{AreOf};
ghost use Rattle.asm_macro.specs.Parts.{line_part};
ghost use Rattle.asm_macro.specs.Private.Frames.{AreBooks, below, innermost};
ghost use Rattle.asm_macro.specs.declared.moves.Given.{Given};
ghost use Rattle.asm_macro.specs.Private.Moves.{Gives, Goes, IsSound, Lessens, Resumes, Takes, most_moves, moved, next_move, rest_of, state_of};

use crate::constants::Constants;
use crate::expander::Line;
use crate::moves::{Given, Stop, Taken};
use asm_line::Token;
use asm_text::{Book, Call, Following, Lines, Macro, Span, put_shown};
use common::NameKey;
use indexmap::IndexMap;
use std::alloc::{AllocError, Global};

/// The most lines and repetitions that one expansion may read.
pub const MOST_LINES: u32 = 60_000;

/// An expansion between two moves.
#[derive(Debug, Drop)]
pub(crate) struct Expansion<'a> {
    pub alloc: Global,
    /// The lines of the source.
    pub lines: Lines<'a>,
    pub macros: IndexMap<Vec<u8>, Macro, NameKey>,
    pub constants: Constants,
    /// How many LOCAL names there were.
    pub counter: u64,
    /// How many lines and repetitions were read.
    pub count: u32,
    /// What is left of the current lines.
    pub text: Span,
    /// Where expansion continues after the current lines, after the lines around them, and so on, the innermost last.
    pub around: Vec<Following>,
    /// The open calls, the innermost last.
    pub calls: Vec<Call>,
    /// How many repetitions are open.
    pub turns: usize,
    /// Where blocks end in the current lines, if the names that the innermost call replaces make blocks end elsewhere than as written.
    pub book: Book,
    /// The same for the lines around each open call, the innermost last.
    pub books: Vec<Book>,
    /// Where blocks end in the source as written.
    pub source: Book,
}

/// Answers where blocks end in the lines around a call whose body is expanded.
fn outer_book(alloc: Global, books: &mut Vec<Book>) -> Book
    ensures { (texts : List (List ℕ)) (tables : List ReplacementTable) → AreBooks texts tables (reverse books.old.items)
        → IsBook texts (innermost (below tables)) result × AreBooks texts (below tables) (reverse books.new.items) }
{
    match books.pop() {
        Some(book) => book,
        None => Book::new(alloc),
    }
}

impl<'a> Expansion<'a> {
    /// Continues after the current lines, which are all expanded, in the lines around them.
    #[inline(never)]
    fn resume(&mut self) -> Result<(), Stop>
        requires sound { IsSound self.old }
        requires inner { 0 < length self.old.around.items }
        requires over { (rest_of self.old).text ≡ [] }
        ensures sound { OnOk result (IsSound self.new) }
        ensures count { OnOk result (self.old.count ≤ self.new.count) }
        ensures less { OnOk result (most_moves self.new < most_moves self.old) }
        ensures resumed { Resumes result (rest_of self.new) (next_move (rest_of self.old)) }
    {
        let Some(next) = self.around.pop() else {
            return Ok(());
        };
        match next {
            Following::Rest(text) => {
                self.calls.pop();
                self.book = outer_book(self.alloc, &mut self.books);
                self.text = text;
                Ok(())
            }
            Following::Turns(..) => {
                self.turns -= 1;
                self.go_behind(next)
            }
            Following::BehindFirst(_) | Following::BehindSecond(_) => self.go_behind(next),
        }
    }

    /// Writes the next of the current lines, which is this line of the source, to the buffer, and answers its number.
    fn put_line(&mut self, source: &[u8], buffer: &mut Vec<u8>) -> Result<u32, AllocError>
        requires sound { IsSound self.old }
        requires at { self.old.text.at < self.old.text.end }
        requires within { self.old.text.at < length self.old.lines }
        requires source { source.now ≡ slice_index_or self.old.lines self.old.text.at [] }
        ensures sound { OnOk result (IsSound self.new) }
        ensures count { self.new.count ≡ self.old.count }
        ensures around { self.new.around ≡ self.old.around }
        ensures line { IfOk result (λ number. rest_of self.old ≡ record (rest_of self.new) { text = record { number = number; text = buffer.new.items } ∷ (rest_of self.new).text }) }
        ensures calls { self.new.calls ≡ self.old.calls }
        ensures plain { OnOk result (length self.old.calls.items ≡ 0 → source.now ≡ buffer.new.items) }
    {
        let at = self.text.at;
        put_shown(self.alloc, self.calls.last(), source, buffer)?;
        self.text.at = at + 1;
        match self.text.number {
            Some(number) => Ok(number),
            None => Ok(at as u32 + 1),
        }
    }

    /// Reads a line that was written to a buffer. Outside of calls it is a line of the source, whose tokens are kept.
    fn take_written(
        &mut self,
        number: u32,
        source: &'a [u8],
        written: &[u8],
        kept: &mut Option<Vec<Token<'a>>>,
    ) -> Result<Taken, Stop>
        requires sound { IsSound self.old }
        requires same { length self.old.calls.items ≡ 0 → source.now ≡ written.now }
        ensures sound { OnOk result (IsSound self.new) }
        ensures count { OnOk result (self.old.count < self.new.count) }
        ensures around { OnOk result (length self.new.around.items ≤ length self.old.around.items + 1) }
        ensures taken { Takes (record { number = number; text = written.now }) result (rest_of self.new) (moved (rest_of self.old).depth (rest_of self.old).around
            (line_part (rest_of self.old).depth (state_of self.old) (record { number = number; text = written.now }) (rest_of self.old).text)) }
        ensures kept { AreOf written.now kept.new }
    {
        if self.calls.is_empty() {
            let text = source;
            return self.take(Line { number, text }, kept);
        }
        *kept = None;
        let text = written;
        self.take(Line { number, text }, &mut None)
    }

    /// Reads the next of the current lines.
    fn take_line(
        &mut self,
        buffer: &mut Vec<u8>,
        kept: &mut Option<Vec<Token<'a>>>,
    ) -> Result<Option<Given>, Stop>
        requires sound { IsSound self.old }
        requires at { self.old.text.at < self.old.text.end }
        requires within { self.old.text.at < length self.old.lines }
        ensures sound { OnOk result (IsSound self.new) }
        ensures less { IfOk result (λ given. Lessens self.old given self.new) }
        ensures gives { Gives buffer.new.items result (rest_of self.new) (next_move (rest_of self.old)) }
        ensures kept { AreOf buffer.new.items kept.new }
    {
        *kept = None;
        let source = self.lines.line(self.text.at);
        let number = self.put_line(source, buffer)?;
        match self.take_written(number, source, buffer, kept)? {
            Taken::Nothing => Ok(None),
            Taken::Line => Ok(Some(Given::Line(number))),
            Taken::Last => Ok(Some(Given::Last(number))),
            Taken::Label(label) => {
                *kept = None;
                *buffer = label;
                Ok(Some(Given::Line(number)))
            }
            Taken::Refused(label) => {
                *kept = None;
                *buffer = label;
                Ok(Some(Given::Refused(number)))
            }
        }
    }

    /// Makes one move: reads a line, or continues after the current lines.
    fn step(
        &mut self,
        buffer: &mut Vec<u8>,
        kept: &mut Option<Vec<Token<'a>>>,
    ) -> Result<Option<Given>, Stop>
        requires sound { IsSound self.old }
        requires kept { AreOf buffer.old.items kept.old }
        ensures sound { OnOk result (IsSound self.new) }
        ensures less { IfOk result (λ given. Lessens self.old given self.new) }
        ensures gives { Gives buffer.new.items result (rest_of self.new) (next_move (rest_of self.old)) }
        ensures kept { AreOf buffer.new.items kept.new }
    {
        if self.text.at < self.text.end && self.text.at < self.lines.len() {
            return self.take_line(buffer, kept);
        }
        if self.around.is_empty() {
            return Ok(Some(Given::Over));
        }
        self.resume()?;
        Ok(None)
    }

    /// Makes moves until one gives a line, or the expansion ends.
    pub(crate) fn go_on(
        &mut self,
        buffer: &mut Vec<u8>,
        kept: &mut Option<Vec<Token<'a>>>,
    ) -> Result<Given, Stop>
        requires sound { IsSound self.old }
        requires kept { AreOf buffer.old.items kept.old }
        ensures sound { OnOk result (IsSound self.new) }
        ensures count { IfOk result (λ given. given ≢ Given.Over → self.old.count < self.new.count) }
        ensures goes { Goes (rest_of self.old) buffer.new.items result (rest_of self.new) }
        ensures kept { AreOf buffer.new.items kept.new }
    {
        loop {
            if let Some(given) = self.step(buffer, kept)? {
                return Ok(given);
            }
        }
    }
}

//! Gives the lines of an expansion, one after the other.

ghost use Rattle.std.specs.Prelude.{◌≡◌, ℕ, Ok, Err, None, false};
ghost use Rattle.asm_macro.specs.Ahead.{begun, Halted, IsNext, Over, seen};
ghost use Rattle.asm_macro.specs.Kept.{AreOf};
ghost use Rattle.asm_macro.specs.declared.expander.Stage.{Stage};

use crate::expansion::Expansion;
use crate::fault::MacroFault;
use crate::moves::{Given, Stop};
use crate::source::begin;
use asm_line::Token;
use std::alloc::Global;
use std::marker::Model;

/// A line of an expansion, with the number of the source line that it comes from: its own, or that of the outermost call or REPT.
#[derive(Clone, Copy, Debug, PartialEq, Eq)]
pub struct Line<'a> {
    pub number: u32,
    pub text: &'a [u8],
}

/// How far the expansion is.
#[derive(Debug, Drop)]
enum Stage<'a> {
    /// The source is not read yet.
    Before(&'a [u8]),
    Within(Expansion<'a>),
    Over,
    Halted(u32, MacroFault),
}

/// Ends the expansion. Not inlined: building a `Stage` in place would zero 480 bytes on every line.
#[inline(never)]
fn end(stage: &mut Stage<'_>)
    ensures { stage.new ≡ Stage.Over }
{
    *stage = Stage::Over;
}

/// Stops the expansion with an error at a line. Not inlined, for the same reason.
#[inline(never)]
fn halt(stage: &mut Stage<'_>, number: u32, why: MacroFault)
    ensures { stage.new ≡ Stage.Halted number why }
{
    *stage = Stage::Halted(number, why);
}

/// Expands a source line by line.
#[derive(Debug, Drop)]
pub struct Expander<'a> {
    alloc: Global,
    stage: Stage<'a>,
    /// The line that was given last, its number, and its tokens if they are kept.
    buffer: Vec<u8>,
    number: u32,
    tokens: Option<Vec<Token<'a>>>,
}

impl<'a> Model for Expander<'a> {
    ghost use Rattle.asm_macro.specs.Ahead.{Standing};
    ghost use Rattle.asm_macro.specs.Kept.{AreOf};
    ghost use Rattle.asm_macro.specs.Private.Stages.{IsSoundStage, standing};

    ghost Value = { Standing };

    ghost view = { λ e. standing e.number e.buffer.items e.stage };

    ghost invariant = { λ e. IsSoundStage e.stage × AreOf e.buffer.items e.tokens };

    ghost use Rattle.asm_macro.specs.contracts.fault.MacroFault as fault;
    ghost use Rattle.std.specs.Coded.{codes};

    ghost coded = { Prim.hlevel (codes, fault.the_row.coded) };
}

impl<'a> Expander<'a> {
    ghost use Rattle.asm_macro.specs.contracts.expander.Expander.{the_row};
    ghost use Rattle.std.specs.Borrow.{follows_so, sem};
    ghost use Rattle.std.specs.Prelude.{[], ⊤};
    ghost use mir.Syntax.{named};
    ghost use mathlib.Core.Option.{none};
    ghost use Rattle.asm_macro.specs.Given.{IsNextLine};
    ghost use Rattle.asm_macro.specs.Private.Stages.{IsStarted, Starts};

    /// Makes an expander, which reads the source only when the first line is asked for.
    pub fn new(alloc: Global, text: &'a [u8]) -> Expander<'a>
        ensures { result ≡ begun text.now }
    {
        Expander {
            alloc,
            stage: Stage::Before(text),
            buffer: Vec::new(alloc),
            number: 0,
            tokens: None,
        }
    }

    /// Reads the source, unless that is done already.
    fn start(&mut self)
        ensures { Starts self.old self.new }
    {
        let Stage::Before(text) = self.stage else {
            return;
        };
        self.stage = match begin(self.alloc, text) {
            Ok(expansion) => Stage::Within(expansion),
            Err(why) => Stage::Halted(1, why),
        };
    }

    /// Does the same as `advance`, once the source is read.
    fn go(&mut self) -> Result<bool, (u32, MacroFault)>
        requires { IsStarted self.old }
        ensures next { IsNext self.old result self.new }
        ensures over { self.old.ahead ≡ Over → result ≡ Ok false }
        ensures halted { (number : ℕ) (why : MacroFault) → self.old.ahead ≡ Halted number why → result ≡ Err (number, why) }
    {
        let reached = match &mut self.stage {
            Stage::Within(expansion) => expansion.go_on(&mut self.buffer, &mut self.tokens),
            Stage::Halted(number, why) => return Err((*number, *why)),
            Stage::Before(_) | Stage::Over => return Ok(false),
        };
        match reached {
            Ok(Given::Line(number)) => {
                self.number = number;
                Ok(true)
            }
            Ok(Given::Last(number)) => {
                self.number = number;
                end(&mut self.stage);
                Ok(true)
            }
            Ok(Given::Refused(number)) => {
                self.number = number;
                halt(&mut self.stage, number, MacroFault::Stray);
                Ok(true)
            }
            Ok(Given::Over) => {
                end(&mut self.stage);
                Ok(false)
            }
            Err(Stop::At(number, why)) => {
                halt(&mut self.stage, number, why);
                Err((number, why))
            }
            Err(Stop::NoMemory) => {
                halt(&mut self.stage, self.number, MacroFault::NoMemory);
                Err((self.number, MacroFault::NoMemory))
            }
        }
    }

    /// Goes on to the next line, which [`line`](Expander::line) then answers; false after the last line, and on each later call.
    ///
    /// # Errors
    ///
    /// The line at which the expansion stops, and why. Each later call answers the same error.
    pub fn advance(&mut self) -> Result<bool, (u32, MacroFault)>
        ensures next { IsNext self.old result self.new }
        ensures over { self.old.ahead ≡ Over → result ≡ Ok false }
        ensures halted { (number : ℕ) (why : MacroFault) → self.old.ahead ≡ Halted number why → result ≡ Err (number, why) }
    {
        self.start();
        self.go()
    }

    /// Answers the next line; None after the last line, and on each later call.
    ///
    /// # Errors
    ///
    /// The line at which the expansion stops, and why. Each later call answers the same error.
    pub fn next_line(&mut self) -> Result<Option<Line<'_>>, (u32, MacroFault)>
        ensures* next { sem 𝓛 (follows_so (the_row (record { mir = named 1; lft = [] })) (the_row (record { mir = named 1; lft = [] })) self.entry.ghost_name none (λ _ _. ⊤) (λ after. IsNextLine self.old result after)) }
        ensures over { self.old.ahead ≡ Over → result ≡ Ok None }
        ensures halted { (number : ℕ) (why : MacroFault) → self.old.ahead ≡ Halted number why → result ≡ Err (number, why) }
    {
        if self.advance()? {
            Ok(Some(self.line()))
        } else {
            Ok(None)
        }
    }

    /// Answers the line that the last call gave, if it gave one.
    pub fn line(&self) -> Line<'_>
        ensures { seen result ≡ self.now.given }
    {
        Line {
            number: self.number,
            text: self.buffer.as_slice(),
        }
    }

    /// Answers the tokens of the line that was given last, so that the caller need not tokenize it again; None if they are not kept, as for
    /// the lines of a call.
    pub fn take_tokens(&mut self) -> Option<Vec<Token<'a>>>
        ensures same { self.new ≡ self.old }
        ensures tokens { AreOf self.old.given.text result }
    {
        self.tokens.take()
    }
}

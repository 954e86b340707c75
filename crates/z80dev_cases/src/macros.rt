//! Makes macros and calls of them.

use crate::case::Kind;
use crate::code::{Numbers, code_text, random_code};
use crate::expression::{scope_of, text_of};
use crate::lines::CONDITIONS;
use crate::maker::Maker;
use std::alloc::AllocError;
use z80_instr::{Branch, Instr, Operand, Pointer, Register, RegisterPair, ShortCond, WordRegister};

/// A line of a macro with the parameters `N`, a byte, `W`, a word, and `G`, a label, and the LOCAL label `X`.
#[derive(Clone, Copy)]
pub(crate) enum Template {
    Code(Instr),
    /// `LD E,N`
    Byte,
    /// `LD HL,W`
    Word,
    /// `LD A,(W)`
    Pointer,
    /// `DB N,1+(N),'N'`
    Bytes,
    /// `JP G`
    Goal(Option<ShortCond>),
    /// `X:`
    Local,
    /// `JP X`
    Jump(Option<ShortCond>),
    /// `DJNZ X`
    CountDown,
    /// A call of the first macro.
    Call,
}

#[derive(Drop)]
pub(crate) struct Macro {
    pub(crate) lines: Vec<Template>,
}

/// The arguments of a call.
#[derive(Clone, Copy)]
struct Passed {
    byte: u8,
    word: u16,
    goal: usize,
}

impl Maker {
    fn some_template(&mut self, number: usize) -> Template {
        let condition = self.condition().0;
        match self.draw.below(12) {
            0 => Template::Byte,
            1 => Template::Word,
            2 => Template::Pointer,
            3 => Template::Bytes,
            4 | 5 => Template::Goal(condition),
            6 | 7 => Template::Jump(condition),
            8 => Template::CountDown,
            9 if number > 0 => Template::Call,
            _ => Template::Code(random_code(&mut self.draw)),
        }
    }

    /// Defines a macro.
    pub(crate) fn define(&mut self, number: usize) -> Result<(), AllocError> {
        let mut lines = Vec::new(self.alloc);
        for _ in 0..self.draw.below(3) {
            lines.push(self.some_template(number))?;
        }
        lines.push(Template::Local)?;
        for _ in 0..1 + self.draw.below(4) {
            lines.push(self.some_template(number))?;
        }
        let head = format!(in self.alloc; "M{number} MACRO N,W,G")?;
        self.put_line(&head)?;
        self.put_line("LOCAL X")?;
        for line in &lines {
            self.put_template(*line)?;
        }
        self.put_line("ENDM")?;
        self.macros.push(Macro { lines })?;
        Ok(())
    }

    fn put_template(&mut self, line: Template) -> Result<(), AllocError> {
        match line {
            Template::Code(instr) => {
                let numbers = Numbers {
                    scope: scope_of(&self.names),
                    label: None,
                };
                let coded = code_text(self.alloc, &mut self.draw, instr, &numbers)?;
                self.put_line(&coded.text)
            }
            Template::Byte => self.put_line("LD E,N"),
            Template::Word => self.put_line("ld hl,w"),
            Template::Pointer => self.put_line("LD A,(W)"),
            Template::Bytes => self.put_line("DB N,1+(N),'N'"),
            Template::Goal(condition) => self.put_conditional(condition, "G"),
            Template::Local => self.put_line("X:"),
            Template::Jump(condition) => self.put_conditional(condition, "X"),
            Template::CountDown => self.put_line("DJNZ X"),
            Template::Call => self.put_line("M0 N,W,G"),
        }
    }

    fn put_conditional(
        &mut self,
        condition: Option<ShortCond>,
        goal: &str,
    ) -> Result<(), AllocError> {
        for (other, text) in CONDITIONS {
            if other == condition {
                let line = format!(in self.alloc; "JP {text}{goal}")?;
                return self.put_line(&line);
            }
        }
        Ok(())
    }

    /// Calls a macro, if there is one.
    pub(crate) fn put_call(&mut self) -> Result<(), AllocError> {
        let number = self.draw.index(self.macros.len());
        let passed = Passed {
            byte: self.draw.byte() % 200,
            word: self.draw.word(),
            goal: self.some_label(),
        };
        let byte = text_of(
            self.alloc,
            &mut self.draw,
            scope_of(&self.names),
            u16::from(passed.byte),
        )?;
        let word = text_of(
            self.alloc,
            &mut self.draw,
            scope_of(&self.names),
            passed.word,
        )?;
        // An extra argument is ignored.
        let more = if self.draw.one_in(6) { ",(1,2)" } else { "" };
        let line = format!(in self.alloc; "M{number} {byte} ,{word},L{}{more}", passed.goal)?;
        self.within = Some(self.next_line());
        self.expand(number, passed)?;
        self.within = None;
        self.put_line(&line)
    }

    /// The lines of a macro.
    fn templates(&self, number: usize) -> Result<Vec<Template>, AllocError> {
        match self.macros.get(number) {
            Some(found) => Ok(found.lines.to_vec(self.alloc)?),
            None => Ok(Vec::new(self.alloc)),
        }
    }

    /// A new label without a name.
    fn new_local(&mut self) -> Result<usize, AllocError> {
        let local = self.labels.len();
        self.labels.push(0)?;
        Ok(local)
    }

    fn expand(&mut self, number: usize, passed: Passed) -> Result<(), AllocError> {
        let local = self.new_local()?;
        let lines = self.templates(number)?;
        for line in &lines {
            if matches!(*line, Template::Call) {
                self.expand_first(passed)?;
            } else {
                self.state_template(*line, passed, local)?;
            }
        }
        Ok(())
    }

    /// Expands the first macro, which calls no other.
    fn expand_first(&mut self, passed: Passed) -> Result<(), AllocError> {
        let local = self.new_local()?;
        let lines = self.templates(0)?;
        for line in &lines {
            self.state_template(*line, passed, local)?;
        }
        Ok(())
    }

    fn state_template(
        &mut self,
        line: Template,
        passed: Passed,
        local: usize,
    ) -> Result<(), AllocError> {
        match line {
            Template::Code(instr) => self.state(Kind::Code(instr)),
            Template::Byte => {
                let e = Operand::Register(Register::E);
                self.state(Kind::Code(Instr::LoadByte(e, passed.byte)))
            }
            Template::Word => {
                let hl = WordRegister::Pair(RegisterPair::Hl);
                self.state(Kind::Code(Instr::LoadWord(hl, passed.word)))
            }
            Template::Pointer => {
                let pointer = Pointer::Address(passed.word);
                self.state(Kind::Code(Instr::LoadA(pointer)))
            }
            Template::Bytes => {
                let from = self.data.len();
                let next = passed.byte.wrapping_add(1);
                self.data.extend_from_slice(&[passed.byte, next, b'N'])?;
                self.state(Kind::Data(from, 3))
            }
            Template::Goal(condition) => self.state(Kind::Jump(condition, passed.goal)),
            Template::Local => {
                if let Some(place) = self.labels.get_mut(local) {
                    *place = self.statements.len();
                }
                Ok(())
            }
            Template::Jump(condition) => self.state(Kind::Jump(condition, local)),
            Template::CountDown => self.state(Kind::Short(Branch::CountDown, local)),
            Template::Call => Ok(()),
        }
    }
}

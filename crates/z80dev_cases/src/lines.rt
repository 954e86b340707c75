//! Makes lines that are one statement each.

use crate::case::Kind;
use crate::code::{Coded, Numbers, code_text, random_code};
use crate::expression::{constant_of, scope_of, text_of};
use crate::maker::{Maker, Style};
use std::alloc::AllocError;
use z80_instr::{Branch, Instr, ShortCond};

/// A condition or none, and how it is written.
pub(crate) const CONDITIONS: [(Option<ShortCond>, &str); 5] = [
    (None, ""),
    (Some(ShortCond::NotZero), "NZ,"),
    (Some(ShortCond::Zero), "z,"),
    (Some(ShortCond::NotCarry), "NC,"),
    (Some(ShortCond::Carry), "C,"),
];

/// With this number of characters a line gets no more items.
const FULL: usize = 110;

/// Characters of strings. Two of them are quotes, which are written twice.
const LETTERS: [(u8, &str); 6] = [
    (b'a', "a"),
    (b'Z', "Z"),
    (b';', ";"),
    (b',', ","),
    (b' ', " "),
    (b'\'', "''"),
];

impl Maker {
    pub(crate) fn condition(&mut self) -> (Option<ShortCond>, &'static str) {
        match CONDITIONS.get(self.draw.index(CONDITIONS.len())) {
            Some(row) => *row,
            None => (None, ""),
        }
    }

    /// Adds a line that is one statement, by the style of the program.
    pub(crate) fn put_simple(&mut self) -> Result<(), AllocError> {
        let (jumps, data, spaces) = match self.style {
            Style::Mixed => (20, 35, 40),
            Style::Code => (25, 27, 28),
            Style::Few => (25, 30, 60),
            Style::Far => (45, 50, 60),
        };
        let kind = self.draw.below(100);
        if kind < 4 {
            self.put_short()
        } else if kind < jumps {
            self.put_jump()
        } else if kind < data {
            self.put_data()
        } else if kind < spaces {
            self.put_space()
        } else {
            self.put_code()
        }
    }

    /// Adds a `JP` to a label, near or anywhere.
    fn put_jump(&mut self) -> Result<(), AllocError> {
        let label = if self.draw.one_in(3) {
            self.near_label()
        } else {
            self.some_label()
        };
        let (condition, text) = self.condition();
        self.state(Kind::Jump(condition, label))?;
        let line = format!(in self.alloc; "JP {text}L{label}")?;
        self.put_line(&line)
    }

    /// Adds a `JR` or `DJNZ` to a near label.
    fn put_short(&mut self) -> Result<(), AllocError> {
        let label = self.near_label();
        let line = if self.draw.one_in(3) {
            self.state(Kind::Short(Branch::CountDown, label))?;
            format!(in self.alloc; "DJNZ L{label}")?
        } else {
            let (condition, text) = self.condition();
            self.state(Kind::Short(Branch::Relative(condition), label))?;
            format!(in self.alloc; "JR {text}L{label}")?
        };
        self.put_line(&line)
    }

    /// Adds an instruction, sometimes with a label as its word.
    fn put_code(&mut self) -> Result<(), AllocError> {
        let instr = random_code(&mut self.draw);
        let may_be_bare = !matches!(instr, Instr::Jump(_) | Instr::JumpIf(..));
        let (goal, label, add) = self.goal(may_be_bare)?;
        let has_goal = self.draw.one_in(2);
        let numbers = Numbers {
            scope: scope_of(&self.names),
            label: if has_goal { Some(goal.as_str()) } else { None },
        };
        let Coded { text, has_label } = code_text(self.alloc, &mut self.draw, instr, &numbers)?;
        self.state(if has_label {
            Kind::Labelled(instr, label, add)
        } else {
            Kind::Code(instr)
        })?;
        self.put_line(&text)
    }

    fn put_space(&mut self) -> Result<(), AllocError> {
        let most = match self.style {
            Style::Mixed | Style::Code => 20,
            Style::Few | Style::Far => 150,
        };
        let count = if self.style == Style::Far && self.draw.one_in(150) {
            64_200 + self.draw.word() % 400
        } else {
            1 + self.draw.word() % most
        };
        let size = text_of(self.alloc, &mut self.draw, constant_of(&self.names), count)?;
        if self.draw.one_in(2) {
            self.state(Kind::Space(count, 0))?;
            let line = format!(in self.alloc; "DS {size}")?;
            self.put_line(&line)
        } else {
            let fill = self.draw.byte();
            let text = text_of(
                self.alloc,
                &mut self.draw,
                scope_of(&self.names),
                u16::from(fill),
            )?;
            self.state(Kind::Space(count, fill))?;
            let line = format!(in self.alloc; "defs {size},{text}")?;
            self.put_line(&line)
        }
    }

    fn put_data(&mut self) -> Result<(), AllocError> {
        match self.draw.below(5) {
            0 => {
                let (goal, label, add) = self.goal(true)?;
                self.state(Kind::Place(label, add))?;
                let line = format!(in self.alloc; "DW {goal}")?;
                self.put_line(&line)
            }
            1 => {
                let (goal, label, add) = self.goal(true)?;
                let high = self.draw.one_in(2);
                self.state(Kind::Half(high, label, add))?;
                let word = if high { "HIGH" } else { "LOW" };
                let line = format!(in self.alloc; "DB {word} ({goal})")?;
                self.put_line(&line)
            }
            2 => self.put_words(),
            _ => self.put_bytes(),
        }
    }

    /// Notes the data from a number on as one statement.
    fn state_data(&mut self, from: usize) -> Result<(), AllocError> {
        let count = self.data.len().saturating_sub(from);
        self.state(Kind::Data(from, count))
    }

    fn put_words(&mut self) -> Result<(), AllocError> {
        let from = self.data.len();
        let mut line = String::from_str(self.alloc, "DEFW ")?;
        for number in 0..1 + self.draw.below(3) {
            if line.len() > FULL {
                break;
            }
            let value = self.draw.word();
            if number > 0 {
                line.push_str(",")?;
            }
            let text = text_of(self.alloc, &mut self.draw, scope_of(&self.names), value)?;
            line.push_str(&text)?;
            self.data.extend_from_slice(&value.to_le_bytes())?;
        }
        self.state_data(from)?;
        self.put_line(&line)
    }

    fn put_bytes(&mut self) -> Result<(), AllocError> {
        let from = self.data.len();
        let mut line = String::from_str(self.alloc, "db ")?;
        for number in 0..1 + self.draw.below(4) {
            if line.len() > FULL {
                break;
            }
            if number > 0 {
                line.push_str(" , ")?;
            }
            if self.draw.one_in(3) {
                self.put_string(&mut line)?;
            } else {
                self.put_byte(&mut line)?;
            }
        }
        self.state_data(from)?;
        self.put_line(&line)
    }

    /// Adds a byte from -128 to 255.
    fn put_byte(&mut self, line: &mut String) -> Result<(), AllocError> {
        let byte = self.draw.byte();
        let value = if byte >= 128 && self.draw.one_in(2) {
            0xFF00 + u16::from(byte)
        } else {
            u16::from(byte)
        };
        let text = text_of(self.alloc, &mut self.draw, scope_of(&self.names), value)?;
        line.push_str(&text)?;
        self.data.push(byte)?;
        Ok(())
    }

    fn put_string(&mut self, line: &mut String) -> Result<(), AllocError> {
        line.push_str("'")?;
        for _ in 0..1 + self.draw.below(9) {
            if let Some((byte, text)) = LETTERS.get(self.draw.index(LETTERS.len())) {
                line.push_str(text)?;
                self.data.push(*byte)?;
            }
        }
        line.push_str("'")?;
        Ok(())
    }
}

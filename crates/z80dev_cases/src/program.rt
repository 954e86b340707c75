//! Makes random programs.

use crate::case::{Case, Spoil, Spoiled};
use crate::draw::Draw;
use crate::expression::{constant_of, number, text_of};
use crate::maker::{Maker, Own, Style};
use std::alloc::{AllocError, Global};

const SPOILS: [Spoil; 15] = [
    Spoil::UnknownWord,
    Spoil::Undefined,
    Spoil::ByteRange,
    Spoil::OpenString,
    Spoil::DivideByZero,
    Spoil::BadOperands,
    Spoil::BadNumber,
    Spoil::NeedsLowOrHigh,
    Spoil::ReservedName,
    Spoil::BadOrg,
    Spoil::SizeNamesLabel,
    Spoil::ConditionNamesLabel,
    Spoil::Stray,
    Spoil::EquCircle,
    Spoil::Duplicate,
];

/// The text of a wrong line. `L` is followed by the number of the module's first label.
fn spoiled_text(why: Spoil) -> (&'static str, bool) {
    match why {
        Spoil::UnknownWord => ("FOO 5", false),
        Spoil::Undefined => ("LD HL,NOWHERE+1", false),
        Spoil::ByteRange => ("LD A,256", false),
        Spoil::OpenString => ("DB 1,'A", false),
        Spoil::DivideByZero => ("DW 5,5/(2-2)", false),
        Spoil::BadOperands => ("LD IXH,1", false),
        Spoil::BadNumber => ("DB 12B", false),
        Spoil::NeedsLowOrHigh => ("LD A,L", true),
        Spoil::ReservedName => ("NC: NOP", false),
        Spoil::BadOrg => ("ORG 8000H", false),
        Spoil::SizeNamesLabel => ("DS L", true),
        Spoil::ConditionNamesLabel => ("IF L", true),
        Spoil::Stray => ("ENDIF", false),
        Spoil::EquCircle => ("QQ EQU QQ+1", false),
        Spoil::Duplicate => ("DUP: NOP", false),
    }
}

impl Maker {
    /// Adds a wrong line.
    fn spoil(&mut self) -> Result<(), AllocError> {
        let Some(why) = SPOILS.get(self.draw.index(SPOILS.len())) else {
            return Ok(());
        };
        if matches!(*why, Spoil::Duplicate) {
            self.put_line("DUP:")?;
        }
        self.spoiled = Some(Spoiled {
            source: self.source,
            line: self.next_line(),
            why: *why,
        });
        let (text, has_label) = spoiled_text(*why);
        if has_label {
            let line = format!(in self.alloc; "{text}{}", self.own.first)?;
            self.put_line(&line)?;
        } else {
            self.put_line(text)?;
        }
        if matches!(*why, Spoil::ConditionNamesLabel) {
            self.put_line("ENDIF")?;
        }
        Ok(())
    }

    /// Adds a REPT with its lines.
    fn put_repeated(&mut self) -> Result<(), AllocError> {
        let times = self.draw.below(4);
        let from = self.statements.len();
        let count = text_of(
            self.alloc,
            &mut self.draw,
            constant_of(&[]),
            (times % 4) as u16,
        )?;
        let line = format!(in self.alloc; "REPT {count}")?;
        self.within = Some(self.next_line());
        self.put_line(&line)?;
        for _ in 0..1 + self.draw.below(3) {
            self.put_simple()?;
        }
        self.within = None;
        self.put_line("ENDM")?;
        let end = self.statements.len();
        for _ in 1..times {
            for index in from..end {
                if let Some(stated) = self.statements.get(index) {
                    let copy = *stated;
                    self.statements.push(copy)?;
                }
            }
        }
        if times == 0 {
            self.statements.truncate(from);
        }
        Ok(())
    }

    /// Adds a branch of an IF.
    fn put_branch(&mut self, is_taken: bool) -> Result<(), AllocError> {
        let from = self.statements.len();
        for _ in 0..self.draw.below(3) {
            self.put_simple()?;
        }
        if !is_taken {
            self.statements.truncate(from);
            if self.draw.one_in(2) {
                self.put_line("this is 'no program, #")?;
            }
        }
        Ok(())
    }

    fn put_choice(&mut self) -> Result<(), AllocError> {
        let value = if self.draw.one_in(2) {
            0
        } else {
            self.draw.word()
        };
        let condition = text_of(self.alloc, &mut self.draw, constant_of(&[]), value)?;
        let line = format!(in self.alloc; "IF {condition}")?;
        self.put_line(&line)?;
        self.put_branch(value != 0)?;
        if self.draw.one_in(2) {
            self.put_line("ELSE")?;
            self.put_branch(value == 0)?;
        }
        self.put_line("ENDIF")
    }

    /// Adds the constants of the module.
    fn put_constants(&mut self) -> Result<(), AllocError> {
        for index in 0..self.names.len() {
            let value = match self.names.get(index) {
                Some(value) => *value,
                None => 0,
            };
            let text = number(self.alloc, &mut self.draw, value)?;
            let mark = if self.draw.one_in(3) { ":" } else { "" };
            let line = format!(in self.alloc; "K{index}{mark} EQU {text}")?;
            self.put_line(&line)?;
        }
        Ok(())
    }

    /// Adds PUBLIC and EXTRN: every third label is public.
    fn put_publics(&mut self) -> Result<(), AllocError> {
        for label in 0..self.named {
            if label % 3 == 0 {
                let is_own = self.own.first <= label && label < self.own.end;
                let word = if is_own { "PUBLIC" } else { "EXTRN" };
                let line = format!(in self.alloc; "{word} L{label}")?;
                self.put_line(&line)?;
            }
        }
        Ok(())
    }

    /// Adds one line, or the lines of a block.
    fn put_item(&mut self) -> Result<(), AllocError> {
        let has_blocks = self.style != Style::Few;
        match self.draw.below(30) {
            0 | 1 if has_blocks && !self.macros.is_empty() => self.put_call(),
            2 | 3 if has_blocks => self.put_repeated(),
            4 | 5 if has_blocks => self.put_choice(),
            6 => self.end_line(),
            _ => self.put_simple(),
        }
    }

    /// Places the labels that are due, if this many items are left.
    fn put_due(&mut self, left: u32) -> Result<(), AllocError> {
        for _ in 0..self.labels_left() {
            if self.labels_left() <= self.draw.index(left as usize) {
                return Ok(());
            }
            self.place_label()?;
            match self.draw.below(4) {
                0 | 1 => self.end_line()?,
                2 if !self.macros.is_empty() => self.put_call()?,
                _ => self.put_simple()?,
            }
        }
        Ok(())
    }

    /// Adds the lines of a module between its head and its end.
    fn put_body(&mut self, count: u32, is_spoiled: bool) -> Result<(), AllocError> {
        let faulty = self.draw.below(count.max(1));
        for done in 0..count {
            if is_spoiled && done == faulty {
                self.spoil()?;
            }
            self.put_due(count - done)?;
            self.put_item()?;
        }
        for _ in 0..self.labels_left() {
            self.place_label()?;
            self.end_line()?;
        }
        Ok(())
    }

    fn put_module(&mut self, count: u32, is_spoiled: bool) -> Result<(), AllocError> {
        let is_first = self.source == 0;
        if is_first && self.draw.one_in(3) {
            self.put_line("ORG 0100H")?;
        }
        self.put_publics()?;
        self.names.clear();
        for _ in 0..self.draw.below(5) {
            let value = self.draw.word() % 3000;
            self.names.push(value)?;
        }
        let is_early = self.draw.one_in(2);
        if is_early {
            self.put_constants()?;
        }
        self.macros.clear();
        for index in 0..self.draw.below(3) {
            self.define(index as usize)?;
        }
        self.put_body(count, is_spoiled)?;
        if !is_early {
            self.put_constants()?;
        }
        if self.draw.one_in(3) {
            self.put_line("END")?;
            self.put_line("what stands 'here is no text")?;
        }
        Ok(())
    }
}

fn style_of(draw: &mut Draw) -> Style {
    match draw.below(4) {
        0 => Style::Mixed,
        1 => Style::Code,
        2 => Style::Few,
        _ => Style::Far,
    }
}

/// The number of lines in each module.
fn lines_of(draw: &mut Draw, style: Style) -> u32 {
    match style {
        Style::Few => 4 + draw.below(12),
        Style::Far => 20 + draw.below(60),
        Style::Mixed | Style::Code => 5 + draw.below(40),
    }
}

fn new_maker(alloc: Global, seed: u64) -> Maker {
    let mut draw = Draw::new(seed);
    let style = style_of(&mut draw);
    Maker {
        alloc,
        draw,
        style,
        text: Vec::new(alloc),
        source: 0,
        lines: 0,
        within: None,
        names: Vec::new(alloc),
        macros: Vec::new(alloc),
        own: Own {
            first: 0,
            end: 0,
            next: 0,
        },
        named: 0,
        labels: Vec::new(alloc),
        statements: Vec::new(alloc),
        data: Vec::new(alloc),
        spoiled: None,
    }
}

/// The random program of a seed.
pub fn random_program(alloc: Global, seed: u64) -> Result<Case, AllocError> {
    let mut maker = new_maker(alloc, seed);
    let modules = 1 + maker.draw.index(5) / 2;
    let count = lines_of(&mut maker.draw, maker.style);
    let each = maker.draw.index(count as usize / 3 + 1).saturating_add(1);
    maker.named = modules.saturating_mul(each);
    maker.labels = vec![in alloc; 0; maker.named]?;
    let faulty = if maker.draw.one_in(8) {
        maker.draw.index(modules)
    } else {
        modules
    };
    let mut texts = Vec::new(alloc);
    for source in 0..modules {
        maker.source = source;
        maker.lines = 0;
        maker.text = Vec::new(alloc);
        let first = source.saturating_mul(each);
        maker.own = Own {
            first,
            end: first.saturating_add(each),
            next: first,
        };
        maker.put_module(count, source == faulty)?;
        texts.push(maker.text.to_vec(alloc)?)?;
    }
    let Maker {
        statements,
        labels,
        data,
        spoiled,
        ..
    } = maker;
    Ok(Case {
        texts,
        statements,
        labels,
        data,
        spoiled,
    })
}

//! Words whose operands are not those that they take.

use crate::exchange::loaded;
use crate::instead::instead;
use crate::meant::meant;
use asm_line::Head;
use error_lines::{Case, builds, divided, is_remark, nameless_equ, operands, replaced};
use message_texts::{
    Counts, Draft, Operand, all_firsts, firsts, form_written, is_jump, joined, list_text,
    name_text, seconds, shown, takes,
};
use std::alloc::AllocError;
use z80_form::{Form, Mnemonic, Name, mnemonic_of};
use z80_instr::{AluOperation, BlockOperation, Rotation};

/// An instruction whose operands do not fit.
#[derive(Drop)]
struct Misfit<'c, 'a> {
    case: &'c Case<'a>,
    mnemonic: Mnemonic,
    counts: Counts,
    operands: &'c [Operand<'a>],
    /// The mnemonic in upper case.
    word: &'c str,
}

/// The operands too many: the number of the first token, which is the comma before them if there is one, and how many tokens they are.
fn surplus(case: &Case<'_>, operands: &[Operand<'_>], most: usize) -> (usize, usize) {
    let at = match operands.get(most) {
        Some(operand) if most > 0 => operand.at.saturating_sub(1),
        Some(operand) => operand.at,
        None => case.word_at(),
    };
    (at, case.tokens.len().saturating_sub(at))
}

impl<'c, 'a> Misfit<'c, 'a> {
    /// The form of this operand; a number if there is no such operand.
    fn form(&self, at: usize) -> Form {
        match self.operands.get(at) {
            Some(operand) => form_written(operand),
            None => Form::Number,
        }
    }

    /// This operand as it is written.
    fn operand_text(&self, at: usize) -> Result<String, AllocError> {
        match self.operands.get(at) {
            Some(operand) => joined(self.case.alloc, operand.tokens),
            None => Ok(String::new(self.case.alloc)),
        }
    }

    /// A message about this operand.
    fn on_operand(&self, at: usize, text: String) -> Draft {
        match self.operands.get(at) {
            Some(operand) => self.case.draft(operand.at, operand.tokens.len(), text),
            None => self.case.on_word(text),
        }
    }

    /// What to write instead of INC or DEC with a second operand, which is meant to be added or subtracted; None if nothing does that.
    fn more_than_one(&self) -> Result<Option<String>, AllocError> {
        let alloc = self.case.alloc;
        let word = self.word;
        let (l, r) = (self.operand_text(0)?, self.operand_text(1)?);
        if self.mnemonic == Mnemonic::Inc {
            if let Some(sum) = self.tried(format!(in alloc; "ADD {l},{r}")?)? {
                return Ok(Some(format!(in alloc; "{sum} adds `{r}`; `INC {l}` adds 1")?));
            }
        }
        if self.mnemonic == Mnemonic::Dec && self.form(0) == Form::Name(Name::A) {
            if let Some(difference) = self.tried(format!(in alloc; "SUB {r}")?)? {
                return Ok(Some(format!(in alloc;
                    "{difference} subtracts `{r}` from A; `DEC A` subtracts 1"
                )?));
            }
        }
        if takes(self.mnemonic, &[self.form(0)]) {
            return Ok(Some(format!(in alloc; "`{word} {l}` changes it by 1")?));
        }
        Ok(None)
    }

    /// What does the same as an instruction that the Z80 does not have; None if nothing is known.
    fn instead(&self) -> Result<Option<String>, AllocError> {
        if let (Mnemonic::Ld, Form::Name(to), Form::Name(from)) = (
            self.mnemonic,
            self.form(0),
            self.form(1),
        ) {
            if let Some(text) = loaded(self.case.alloc, to, from)? {
                return Ok(Some(text));
            }
        }
        instead(self.case, self.mnemonic, self.word, self.operands)
    }

    /// What to write instead of a change of memory with a register that gets the new byte too, which only undocumented instructions have.
    fn copied(&self) -> Result<Option<String>, AllocError> {
        let alloc = self.case.alloc;
        let word = self.word;
        let (l, r) = (self.operand_text(0)?, self.operand_text(1)?);
        let changed = self.tried(format!(in alloc; "{word} {l}")?)?;
        let loaded = self.tried(format!(in alloc; "LD {r},{l}")?)?;
        match (changed, loaded) {
            (Some(changed), Some(loaded)) => Ok(Some(format!(in alloc; "{changed} and {loaded}")?)),
            _ => Ok(None),
        }
    }

    /// What to write instead of two operands, if the mnemonic takes each of them alone.
    fn each_alone(&self) -> Result<Option<String>, AllocError> {
        let alloc = self.case.alloc;
        let word = self.word;
        let (l, r) = (self.operand_text(0)?, self.operand_text(1)?);
        let first = self.tried(format!(in alloc; "{word} {l}")?)?;
        let second = self.tried(format!(in alloc; "{word} {r}")?)?;
        match (first, second) {
            (Some(first), Some(second)) => Ok(Some(format!(in alloc;
                "each has a line of its own: {first} and {second}"
            )?)),
            _ => Ok(None),
        }
    }

    /// What to write instead of two operands, if the mnemonic takes one.
    fn one_too_many(&self) -> Result<Option<String>, AllocError> {
        if self.operands.len() != 2 || !self.counts.one {
            return Ok(None);
        }
        if matches!(self.mnemonic, Mnemonic::Inc | Mnemonic::Dec) {
            return self.more_than_one();
        }
        let is_apart = takes(self.mnemonic, &[self.form(0)])
            && takes(self.mnemonic, &[self.form(1)])
            && !matches!(
                self.mnemonic,
                Mnemonic::Alu(_) | Mnemonic::Djnz | Mnemonic::Ret
            );
        if !is_apart {
            return Ok(None);
        }
        match (self.form(0), self.form(1)) {
            (Form::AtIndex(_) | Form::Displaced(_), Form::Name(_)) => self.copied(),
            _ => self.each_alone(),
        }
    }

    /// Which registers a block instruction uses, if its operands name registers.
    fn block_uses(&self) -> Result<Option<String>, AllocError> {
        let Mnemonic::Block(operation, _) = self.mnemonic else {
            return Ok(None);
        };
        for operand in self.operands {
            if !matches!(form_written(operand), Form::Name(_) | Form::At(_)) {
                return Ok(None);
            }
        }
        let word = self.word;
        let registers = match operation {
            BlockOperation::Load => "HL, DE and BC",
            BlockOperation::Compare => "A, HL and BC",
            BlockOperation::Input | BlockOperation::Output => "B, C and HL",
        };
        Ok(Some(format!(in self.case.alloc; "`{word}` uses {registers} without naming them")?))
    }

    /// The message where there are more operands than the mnemonic takes.
    fn too_many(&self) -> Result<Draft, AllocError> {
        let alloc = self.case.alloc;
        let word = self.word;
        let text = format!(in alloc; "{word} takes {}", self.counts.text())?;
        let (at, count) = surplus(self.case, self.operands, self.counts.most());
        let draft = self.case.draft(at, count, text);
        if let Some(help) = self.instead()? {
            return draft.help(help);
        }
        if let Some(help) = self.one_too_many()? {
            return draft.help(help);
        }
        if let Some(better) = meant(self.case)? {
            return draft.help(format!(in alloc; "did you mean `{better}`?")?);
        }
        if let Some(help) = self.block_uses()? {
            return draft.help(help);
        }
        if is_remark(self.case, self.case.tokens_at(at, count))? {
            return draft.help(String::from_str(alloc, "a comment starts with `;`")?);
        }
        Ok(draft)
    }

    /// A statement between backquotes, if it builds.
    fn tried(&self, statement: String) -> Result<Option<String>, AllocError> {
        if builds(self.case, statement.as_bytes())? {
            return Ok(Some(format!(in self.case.alloc; "`{statement}`")?));
        }
        Ok(None)
    }

    /// The one operand that there is with A before or after it, or as a port, if the mnemonic takes that.
    fn with_a(&self) -> Result<Option<String>, AllocError> {
        let alloc = self.case.alloc;
        let word = self.word;
        let written = self.operand_text(0)?;
        let (first, second) = match self.mnemonic {
            Mnemonic::Ld => return Ok(None),
            Mnemonic::In => (
                format!(in alloc; "IN A,{written}")?,
                format!(in alloc; "IN A,({written})")?,
            ),
            Mnemonic::Out => (
                format!(in alloc; "OUT {written},A")?,
                format!(in alloc; "OUT ({written}),A")?,
            ),
            _ => (
                format!(in alloc; "{word} A,{written}")?,
                format!(in alloc; "{word} {written},A")?,
            ),
        };
        match self.tried(first)? {
            Some(text) => Ok(Some(text)),
            None => self.tried(second),
        }
    }

    /// The message where a condition is the only operand of a jump or a call.
    fn lone_condition(&self, name: Name) -> Result<Draft, AllocError> {
        let alloc = self.case.alloc;
        let word = self.word;
        let name = name_text(name);
        let text = format!(in alloc;
            "`{name}` is a condition here: {word} {name} needs an address after it"
        )?;
        self.on_operand(0, text).help(format!(in alloc;
            "if a label is meant, rename it: no label can have the name `{name}`"
        )?)
    }

    /// The message where there are fewer operands than the mnemonic takes.
    fn too_few(&self) -> Result<Draft, AllocError> {
        let alloc = self.case.alloc;
        let word = self.word;
        if let (Form::Name(name), 1) = (self.form(0), self.operands.len()) {
            if takes(self.mnemonic, &[Form::Name(name), Form::Number])
                && matches!(self.mnemonic, Mnemonic::Jp | Mnemonic::Jr | Mnemonic::Call)
            {
                return self.lone_condition(name);
            }
        }
        let text = format!(in alloc; "{word} takes {}", self.counts.text())?;
        if self.operands.len() == 1 {
            if let Some(better) = self.with_a()? {
                return self.on_operand(0, text).help(better);
            }
            let forms = seconds(alloc, self.mnemonic, self.form(0))?;
            if !forms.is_empty() {
                let left = self.operand_text(0)?;
                let list = list_text(alloc, self.mnemonic, &forms)?;
                return self
                    .case
                    .on_word(text)
                    .note(format!(in alloc; "after `{word} {left},` come {list}")?);
            }
        }
        let list = list_text(alloc, self.mnemonic, &all_firsts(alloc, self.mnemonic)?)?;
        let draft = self
            .case
            .on_word(text)
            .note(format!(in alloc; "its first operand is {list}")?)?;
        if self.operands.is_empty() && !self.is_rotation() {
            return Ok(draft);
        }
        match meant(self.case)? {
            Some(better) => draft.help(format!(in alloc; "did you mean `{better}`?")?),
            None => Ok(draft),
        }
    }

    /// Whether the mnemonic rotates what its operand names, and one like it rotates A without one. Any other mnemonic that lacks its operands
    /// is like words that do something else.
    fn is_rotation(&self) -> bool {
        matches!(
            self.mnemonic,
            Mnemonic::Rotate(Rotation::Rlc | Rotation::Rl | Rotation::Rrc | Rotation::Rr)
        )
    }

    /// What to write instead of two operands that do not fit.
    fn two_instead(&self) -> Result<Option<String>, AllocError> {
        let alloc = self.case.alloc;
        let word = self.word;
        let (left, right) = (self.form(0), self.form(1));
        if let Some(help) = self.instead()? {
            return Ok(Some(help));
        }
        let (l, r) = (self.operand_text(0)?, self.operand_text(1)?);
        // The other order of a load or of SBC means something else.
        let may_turn = !matches!(
            self.mnemonic,
            Mnemonic::Ld | Mnemonic::Alu(AluOperation::Sbc)
        );
        let takes_address = takes(self.mnemonic, &[left, Form::Number]);
        if is_jump(self.mnemonic) && right == Form::AtNumber && takes_address {
            return Ok(Some(format!(in alloc;
                "an address to go to has no parentheses: `{word} {l},LABEL`"
            )?));
        }
        if may_turn && takes(self.mnemonic, &[right, left]) {
            return self.tried(format!(in alloc; "{word} {r},{l}")?);
        }
        if self.mnemonic == Mnemonic::Jr && takes(Mnemonic::Jp, &[left, right]) {
            return self.tried(format!(in alloc; "JP {l},{r}")?);
        }
        Ok(None)
    }

    /// The message where the second of two operands does not fit the first.
    fn wrong_second(&self, forms: &[Form]) -> Result<Draft, AllocError> {
        let alloc = self.case.alloc;
        let word = self.word;
        let (l, r) = (self.operand_text(0)?, self.operand_text(1)?);
        let list = list_text(alloc, self.mnemonic, forms)?;
        let text = format!(in alloc; "{word} {l} takes {list}, not `{r}`")?;
        let draft = self.on_operand(1, text);
        match replaced(self.case, &r)? {
            Some(help) => draft.help(help),
            None => draft.help_if(self.two_instead()?),
        }
    }

    /// The message where the first operand does not fit.
    fn wrong_first(&self) -> Result<Draft, AllocError> {
        let alloc = self.case.alloc;
        let word = self.word;
        let count = self.operands.len();
        let l = self.operand_text(0)?;
        let forms = firsts(alloc, self.mnemonic, count)?;
        let list = list_text(alloc, self.mnemonic, &forms)?;
        let text = if self.mnemonic == Mnemonic::Jr && count == 2 {
            format!(in alloc; "JR has no condition {l}: it takes {list}")?
        } else if count == 2 {
            format!(in alloc; "the first operand of {word} is {list}, not `{l}`")?
        } else {
            format!(in alloc; "{word} takes {list}, not `{l}`")?
        };
        let draft = self.on_operand(0, text);
        if let Some(help) = replaced(self.case, &l)? {
            return draft.help(help);
        }
        draft.help_if(match count {
            1 => self.one_instead()?,
            _ => self.two_instead()?,
        })
    }

    /// What to write instead of an operand to which no jump goes.
    fn jump_instead(&self, at: usize) -> Result<Option<String>, AllocError> {
        let alloc = self.case.alloc;
        let word = self.word;
        let to_register = self.mnemonic == Mnemonic::Jp && at == 0;
        match self.form(at) {
            Form::AtNumber => Ok(Some(format!(in alloc;
                "an address to go to has no parentheses: `{word} LABEL`"
            )?)),
            Form::Name(Name::Hl | Name::Ix | Name::Iy) if to_register => {
                let written = self.operand_text(at)?;
                Ok(Some(format!(in alloc; "`JP ({written})`")?))
            }
            Form::Name(name @ (Name::Bc | Name::De)) if to_register => {
                let pair = name_text(name);
                Ok(Some(format!(in alloc; "`PUSH {pair}` and `RET` go there")?))
            }
            _ => Ok(None),
        }
    }

    /// What to write instead of one operand that does not fit.
    fn one_instead(&self) -> Result<Option<String>, AllocError> {
        let alloc = self.case.alloc;
        let word = self.word;
        let written = self.operand_text(0)?;
        if written.as_str() == "PSW" || written.as_str() == "psw" {
            return self.tried(format!(in alloc; "{word} AF")?);
        }
        if is_jump(self.mnemonic) {
            return self.jump_instead(0);
        }
        let pair = match self.form(0) {
            Form::Name(Name::A) => Name::Af,
            Form::Name(Name::B | Name::C) => Name::Bc,
            Form::Name(Name::D | Name::E) => Name::De,
            Form::Name(Name::H | Name::L) => Name::Hl,
            _ => return self.instead(),
        };
        if takes(self.mnemonic, &[Form::Name(pair)]) {
            let pair = name_text(pair);
            return Ok(Some(format!(in alloc; "`{word} {pair}`")?));
        }
        self.instead()
    }

    /// The message about the operands.
    fn told(&self) -> Result<Draft, AllocError> {
        let count = self.operands.len();
        if count > self.counts.most() {
            return self.too_many();
        }
        if !self.counts.has(count) {
            return self.too_few()?.help_if(divided(self.case)?);
        }
        if count == 1 && !takes(self.mnemonic, &[self.form(0)]) && self.counts.two {
            let forms = seconds(self.case.alloc, self.mnemonic, self.form(0))?;
            if !forms.is_empty() {
                return self.too_few();
            }
        }
        if count == 2 {
            let forms = seconds(self.case.alloc, self.mnemonic, self.form(0))?;
            if !forms.is_empty() {
                return self.wrong_second(&forms);
            }
        }
        self.wrong_first()
    }
}

/// What a directive takes, in words.
fn directive_text(word: &str) -> &'static str {
    match word {
        "DB" | "DEFB" | "DEFM" => "one item or more, and no empty string",
        "DW" | "DEFW" => "one expression or more",
        "DS" | "DEFS" => "a size, and a fill byte if need be",
        "ORG" => "one address",
        "END" => "no operand, or the label of the entry",
        ".Z80" => "no operands",
        _ => "names with commas between them",
    }
}

/// The message about a directive whose operands do not fit.
fn directive(case: &Case<'_>, word: &str) -> Result<Draft, AllocError> {
    let alloc = case.alloc;
    if word == "EQU" {
        return nameless_equ(case);
    }
    let text = format!(in alloc; "{word} takes {}", directive_text(word))?;
    let count = case.form.rest.len();
    if count == 0 {
        return Ok(case.on_word(text));
    }
    Ok(case.draft(case.rest_at(), count, text))
}

/// The message about a word that does not take its operands.
///
/// # Errors
///
/// `AllocError` if memory ran out.
pub fn wrong_operands(case: &Case<'_>) -> Result<Draft, AllocError> {
    let alloc = case.alloc;
    let upper = case.word().to_ascii_uppercase(alloc)?;
    let word = shown(alloc, &upper)?;
    let Head::Word(name) = case.form.head else {
        return directive(case, &word);
    };
    let Some(mnemonic) = mnemonic_of(name) else {
        return directive(case, &word);
    };
    let written = operands(case)?;
    let found = Misfit {
        case,
        mnemonic,
        counts: Counts::of(alloc, mnemonic)?,
        operands: &written,
        word: &word,
    };
    found.told()
}

//! The forms that a mnemonic has, read off the table of forms.

use std::alloc::{AllocError, Global};
use z80_form::{Form, Mnemonic, Name, Pointed, instruction};
use z80_instr::IndexRegister;

/// Every form that an operand can have, in the order in which they are listed.
const FORMS: [Form; 35] = [
    Form::Name(Name::A),
    Form::Name(Name::B),
    Form::Name(Name::C),
    Form::Name(Name::D),
    Form::Name(Name::E),
    Form::Name(Name::H),
    Form::Name(Name::L),
    Form::Name(Name::I),
    Form::Name(Name::R),
    Form::Name(Name::Bc),
    Form::Name(Name::De),
    Form::Name(Name::Hl),
    Form::Name(Name::Sp),
    Form::Name(Name::Af),
    Form::Name(Name::OtherAf),
    Form::Name(Name::Ix),
    Form::Name(Name::Iy),
    Form::Name(Name::Nz),
    Form::Name(Name::Z),
    Form::Name(Name::Nc),
    Form::Name(Name::Po),
    Form::Name(Name::Pe),
    Form::Name(Name::P),
    Form::Name(Name::M),
    Form::At(Pointed::Hl),
    Form::At(Pointed::Bc),
    Form::At(Pointed::De),
    Form::At(Pointed::Sp),
    Form::At(Pointed::C),
    Form::AtIndex(IndexRegister::Ix),
    Form::AtIndex(IndexRegister::Iy),
    Form::Displaced(IndexRegister::Ix),
    Form::Displaced(IndexRegister::Iy),
    Form::AtNumber,
    Form::Number,
];

/// A register or condition as it is written.
pub fn name_text(name: Name) -> &'static str {
    match name {
        Name::A => "A",
        Name::B => "B",
        Name::C => "C",
        Name::D => "D",
        Name::E => "E",
        Name::H => "H",
        Name::L => "L",
        Name::I => "I",
        Name::R => "R",
        Name::Af => "AF",
        Name::OtherAf => "AF'",
        Name::Bc => "BC",
        Name::De => "DE",
        Name::Hl => "HL",
        Name::Ix => "IX",
        Name::Iy => "IY",
        Name::Sp => "SP",
        Name::Nz => "NZ",
        Name::Z => "Z",
        Name::Nc => "NC",
        Name::Po => "PO",
        Name::Pe => "PE",
        Name::P => "P",
        Name::M => "M",
    }
}

/// A form as messages list it. The number of a jump is where it goes.
fn form_text(mnemonic: Mnemonic, form: Form) -> &'static str {
    match form {
        Form::Name(name) => name_text(name),
        Form::At(Pointed::Hl) => "(HL)",
        Form::At(Pointed::Bc) => "(BC)",
        Form::At(Pointed::De) => "(DE)",
        Form::At(Pointed::Sp) => "(SP)",
        Form::At(Pointed::C) => "(C)",
        Form::AtIndex(IndexRegister::Ix) => "(IX)",
        Form::AtIndex(IndexRegister::Iy) => "(IY)",
        Form::Displaced(IndexRegister::Ix) => "(IX+d)",
        Form::Displaced(IndexRegister::Iy) => "(IY+d)",
        Form::AtNumber => match mnemonic {
            Mnemonic::In | Mnemonic::Out => "(port)",
            _ => "(address)",
        },
        Form::Number => match mnemonic {
            Mnemonic::Jp | Mnemonic::Call => "an address",
            Mnemonic::Jr | Mnemonic::Djnz => "an address in reach (`$+n`)",
            _ => "a number",
        },
    }
}

/// Whether a mnemonic goes to an address.
pub fn is_jump(mnemonic: Mnemonic) -> bool {
    matches!(
        mnemonic,
        Mnemonic::Jp | Mnemonic::Call | Mnemonic::Jr | Mnemonic::Djnz
    )
}

/// Whether a mnemonic takes operands of these forms.
pub fn takes(mnemonic: Mnemonic, forms: &[Form]) -> bool {
    instruction(mnemonic, forms).is_some()
}

/// The forms that the second operand of a mnemonic can have after this first one.
///
/// # Errors
///
/// `AllocError` if memory ran out.
pub fn seconds(alloc: Global, mnemonic: Mnemonic, first: Form) -> Result<Vec<Form>, AllocError> {
    let mut found = Vec::new(alloc);
    for form in &FORMS {
        if takes(mnemonic, &[first, *form]) {
            found.push(*form)?;
        }
    }
    Ok(found)
}

/// Whether a mnemonic takes two operands, the first of them of this form.
fn has_second(mnemonic: Mnemonic, first: Form) -> bool {
    for form in &FORMS {
        if takes(mnemonic, &[first, *form]) {
            return true;
        }
    }
    false
}

/// The forms that the first of this number of operands of a mnemonic can have: of one operand or of two.
///
/// # Errors
///
/// `AllocError` if memory ran out.
pub fn firsts(alloc: Global, mnemonic: Mnemonic, count: usize) -> Result<Vec<Form>, AllocError> {
    let mut found = Vec::new(alloc);
    for form in &FORMS {
        let is_taken = if count == 1 {
            takes(mnemonic, &[*form])
        } else {
            has_second(mnemonic, *form)
        };
        if is_taken {
            found.push(*form)?;
        }
    }
    Ok(found)
}

/// The forms that the first operand of a mnemonic can have, whether a second one follows or not.
///
/// # Errors
///
/// `AllocError` if memory ran out.
pub fn all_firsts(alloc: Global, mnemonic: Mnemonic) -> Result<Vec<Form>, AllocError> {
    let mut found = Vec::new(alloc);
    for form in &FORMS {
        if takes(mnemonic, &[*form]) || has_second(mnemonic, *form) {
            found.push(*form)?;
        }
    }
    Ok(found)
}

/// How many operands a mnemonic takes.
#[derive(Clone, Copy)]
pub struct Counts {
    pub(crate) none: bool,
    pub one: bool,
    pub two: bool,
}

impl Counts {
    /// How many operands this mnemonic takes.
    ///
    /// # Errors
    ///
    /// `AllocError` if memory ran out.
    pub fn of(alloc: Global, mnemonic: Mnemonic) -> Result<Counts, AllocError> {
        Ok(Counts {
            none: takes(mnemonic, &[]),
            one: !firsts(alloc, mnemonic, 1)?.is_empty(),
            two: !firsts(alloc, mnemonic, 2)?.is_empty(),
        })
    }

    /// Whether this number of operands is among these.
    pub fn has(self, count: usize) -> bool {
        match count {
            0 => self.none,
            1 => self.one,
            2 => self.two,
            _ => false,
        }
    }

    /// The least that is among these.
    pub(crate) fn least(self) -> usize {
        if self.none {
            0
        } else if self.one {
            1
        } else {
            2
        }
    }

    /// The most that is among these.
    pub fn most(self) -> usize {
        if self.two {
            2
        } else if self.one {
            1
        } else {
            0
        }
    }

    /// What a mnemonic takes, in words.
    pub fn text(self) -> &'static str {
        match (self.none, self.one, self.two) {
            (true, true, _) => "no operand or one",
            (true, false, _) => "no operands",
            (false, true, true) => "one operand or two",
            (false, true, false) => "one operand",
            (false, false, _) => "two operands",
        }
    }
}

/// Items in words: `A, B or C`.
fn joined_by_or(alloc: Global, items: &[&'static str]) -> Result<String, AllocError> {
    let mut text = String::new(alloc);
    for (at, item) in items.iter().enumerate() {
        if at > 0 {
            let is_last = at.saturating_add(1) == items.len();
            text.push_str(if is_last { " or " } else { ", " })?;
        }
        text.push_str(item)?;
    }
    Ok(text)
}

/// Forms of an operand of a mnemonic in words: `A, B, (HL) or a number`.
///
/// # Errors
///
/// `AllocError` if memory ran out.
pub fn list_text(alloc: Global, mnemonic: Mnemonic, forms: &[Form]) -> Result<String, AllocError> {
    let mut items = Vec::new(alloc);
    for form in forms {
        if *form == Form::Number && is_jump(mnemonic) {
            items.push("a label")?;
        }
        items.push(form_text(mnemonic, *form))?;
    }
    joined_by_or(alloc, &items)
}

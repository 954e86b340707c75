//! Parsed lines.

use asm_parse::{Few, KeptName, Tree};
use z80_form::Field;
use z80_instr::{Branch, Instr, ShortCond};

/// An item of `DB`.
#[derive(Debug, Drop)]
pub enum Value {
    /// The bytes of a string; there is at least one.
    Text(Vec<u8>),
    Byte(Tree),
}

/// A word and its operands. Names are in upper case.
#[derive(Debug, Drop)]
pub enum Body {
    /// An instruction with zeros in place of its numbers, and for each number its field and its expression.
    Code {
        instr: Instr,
        numbers: Few<(Field, Tree)>,
    },
    /// A relaxable jump: `JP` to one name, without a condition or on one that `JR` can test too.
    Jump {
        condition: Option<ShortCond>,
        target: Vec<u8>,
    },
    /// `JR` or `DJNZ` to one name.
    Short {
        branch: Branch,
        target: Vec<u8>,
    },
    /// `DB`
    Bytes(Vec<Value>),
    /// `DW`
    Words(Vec<Tree>),
    /// `DS`, and the byte that fills the space, if there is one.
    Space {
        size: Tree,
        fill: Option<Tree>,
    },
    /// `PUBLIC`
    Public(Vec<KeptName>),
    /// `EXTRN`
    External(Vec<KeptName>),
    /// `ORG`
    Origin(Tree),
    /// `END`, and the name of the entry, if there is one.
    End(Option<Vec<u8>>),
    /// `.Z80`
    Z80,
}

/// A parsed line.
#[derive(Debug, Drop)]
pub enum Line {
    /// `name EQU e`
    Equ {
        name: Vec<u8>,
        value: Tree,
    },
    /// A label and a statement, each if the line has one.
    Statement {
        label: Option<Vec<u8>>,
        body: Option<Body>,
    },
}

//! The mnemonics of the 8080, and what each is on the Z80.

use crate::{Operand, joined};
use asm_line::Token;
use std::alloc::{AllocError, Global};

/// A mnemonic of the 8080, and the statement of the Z80. In that, `1` and `2` stand for the operands, and `p` for the register pair that the
/// first operand names. PUSH and POP, which also take PSW, are words of the Z80, so they are in no row.
type Row = (&'static str, &'static str);

const MOVES: [Row; 13] = [
    ("MOV", "LD 1,2"),
    ("MVI", "LD 1,2"),
    ("LXI", "LD p,2"),
    ("LDA", "LD A,(1)"),
    ("STA", "LD (1),A"),
    ("LHLD", "LD HL,(1)"),
    ("SHLD", "LD (1),HL"),
    ("LDAX", "LD A,(p)"),
    ("STAX", "LD (p),A"),
    ("XCHG", "EX DE,HL"),
    ("XTHL", "EX (SP),HL"),
    ("SPHL", "LD SP,HL"),
    ("PCHL", "JP (HL)"),
];

const SUMS: [Row; 20] = [
    ("ADI", "ADD A,1"),
    ("ACI", "ADC A,1"),
    ("SUI", "SUB 1"),
    ("SBB", "SBC A,1"),
    ("SBI", "SBC A,1"),
    ("ANA", "AND 1"),
    ("ANI", "AND 1"),
    ("XRA", "XOR 1"),
    ("XRI", "XOR 1"),
    ("ORA", "OR 1"),
    ("ORI", "OR 1"),
    ("CMP", "CP 1"),
    ("INR", "INC 1"),
    ("DCR", "DEC 1"),
    ("INX", "INC p"),
    ("DCX", "DEC p"),
    ("DAD", "ADD HL,p"),
    ("RAL", "RLA"),
    ("RAR", "RRA"),
    ("CMA", "CPL"),
];

const OTHERS: [Row; 26] = [
    ("STC", "SCF"),
    ("CMC", "CCF"),
    ("HLT", "HALT"),
    ("JMP", "JP 1"),
    ("JNZ", "JP NZ,1"),
    ("JZ", "JP Z,1"),
    ("JNC", "JP NC,1"),
    ("JC", "JP C,1"),
    ("JPO", "JP PO,1"),
    ("JPE", "JP PE,1"),
    ("JM", "JP M,1"),
    ("CNZ", "CALL NZ,1"),
    ("CZ", "CALL Z,1"),
    ("CNC", "CALL NC,1"),
    ("CC", "CALL C,1"),
    ("CPO", "CALL PO,1"),
    ("CPE", "CALL PE,1"),
    ("CM", "CALL M,1"),
    ("RNZ", "RET NZ"),
    ("RZ", "RET Z"),
    ("RNC", "RET NC"),
    ("RC", "RET C"),
    ("RPO", "RET PO"),
    ("RPE", "RET PE"),
    ("RP", "RET P"),
    ("RM", "RET M"),
];

/// Words of other processors and languages.
const FOREIGN: [Row; 16] = [
    ("GOTO", "JP 1"),
    ("JUMP", "JP 1"),
    ("BRA", "JP 1"),
    ("BEQ", "JP Z,1"),
    ("BNE", "JP NZ,1"),
    ("BCS", "JP C,1"),
    ("BCC", "JP NC,1"),
    ("JNE", "JP NZ,1"),
    ("JE", "JP Z,1"),
    ("GOSUB", "CALL 1"),
    ("JSR", "CALL 1"),
    ("BSR", "CALL 1"),
    ("RETURN", "RET"),
    ("RTS", "RET"),
    ("CLC", "OR A"),
    ("SEC", "SCF"),
];

/// The statement of a row with this word.
pub(crate) fn row_of(rows: &[Row], word: &str) -> Option<&'static str> {
    for (own, text) in rows {
        if *own == word {
            return Some(*text);
        }
    }
    None
}

/// The statement of the Z80 for a mnemonic of the 8080 in upper case.
fn pattern_of(word: &str) -> Option<&'static str> {
    row_of(&MOVES, word)
        .or(row_of(&SUMS, word))
        .or(row_of(&OTHERS, word))
}

/// Whether tokens are only this name.
fn is_name(tokens: &[Token<'_>], name: &[u8]) -> bool {
    match tokens {
        [token] => token.text.eq_ignore_ascii_case(name),
        _ => false,
    }
}

/// The name of the Z80 for a register pair that a row's first operand names, by the name of either processor; None if it names none. PSW is
/// not one of them: it is AF only for PUSH and POP.
fn pair_of(tokens: &[Token<'_>]) -> Option<&'static str> {
    if is_name(tokens, b"B") || is_name(tokens, b"BC") {
        Some("BC")
    } else if is_name(tokens, b"D") || is_name(tokens, b"DE") {
        Some("DE")
    } else if is_name(tokens, b"H") || is_name(tokens, b"HL") {
        Some("HL")
    } else if is_name(tokens, b"SP") {
        Some("SP")
    } else {
        None
    }
}

/// Whether no statement of a row takes this operand.
fn is_never_taken(operand: &Operand<'_>) -> bool {
    operand.tokens.is_empty() || is_name(operand.tokens, b"PSW")
}

/// Appends an operand of the 8080 as the Z80 writes it.
fn put_operand(
    alloc: Global,
    text: &mut String,
    operand: Option<&Operand<'_>>,
) -> Result<(), AllocError> {
    match operand {
        Some(operand) if is_name(operand.tokens, b"M") => text.push_str("(HL)"),
        Some(operand) => text.push_str(&joined(alloc, operand.tokens)?),
        None => Ok(()),
    }
}

/// Whether a word in upper case is a mnemonic of the 8080.
pub fn is_intel(word: &str) -> bool {
    pattern_of(word).is_some()
}

/// The number of operands that a statement of a row takes.
fn operands_of(pattern: &str) -> usize {
    if pattern.contains('2') {
        2
    } else if pattern.contains('1') || pattern.contains('p') {
        1
    } else {
        0
    }
}

/// The statement of the Z80 that a line of the 8080, of another processor or of another language is, given its word in upper case; None if
/// nothing is known, if the line has another number of operands, or if they are not of the kind that the mnemonic takes.
///
/// # Errors
///
/// `AllocError` if memory ran out.
pub fn in_z80(
    alloc: Global,
    word: &str,
    operands: &[Operand<'_>],
) -> Result<Option<String>, AllocError> {
    let Some(pattern) = pattern_of(word).or(row_of(&FOREIGN, word)) else {
        return Ok(None);
    };
    if operands.iter().any(|operand| is_never_taken(operand))
        || operands.len() != operands_of(pattern)
    {
        return Ok(None);
    }
    let mut text = String::new(alloc);
    for letter in pattern.chars() {
        match letter {
            '1' => put_operand(alloc, &mut text, operands.first())?,
            '2' => put_operand(alloc, &mut text, operands.get(1))?,
            'p' => match operands.first().and_then(|operand| pair_of(operand.tokens)) {
                Some(pair) => text.push_str(pair)?,
                None => return Ok(None),
            },
            _ => text.push(letter)?,
        }
    }
    Ok(Some(text))
}

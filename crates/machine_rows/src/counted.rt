//! Compares the operations on all bytes with a plain computation in whole numbers.

use row_text::Row;
use z80_cpu::Flags;
use z80_instr::AluOperation;

/// Whether a sum or difference of two signed bytes is outside -128 to 127. Each was made 128 larger, so it is from 0 to 255, and the sum
/// is 256 larger than it is.
fn leaves_byte(lifted: u32) -> bool {
    !(128..=383).contains(&lifted)
}

fn leaves_word(lifted: u32) -> bool {
    !(32768..=98303).contains(&lifted)
}

fn has_even_parity(byte: u8) -> bool {
    let bits: [u8; 8] = [1, 2, 4, 8, 16, 32, 64, 128];
    bits.iter().filter(|&&bit| byte / bit % 2 == 1).count() % 2 == 0
}

/// The flags before an operation: all are 1 except the carry.
fn before(carry: bool) -> Flags {
    Flags {
        carry,
        ..Flags::from_byte(0xFE)
    }
}

/// All flags after an operation on bytes. Bits 5 and 3 are kept.
fn after(
    value: u32,
    half_carry: bool,
    parity_overflow: bool,
    subtract: bool,
    carry: bool,
) -> Flags {
    Flags {
        sign: value >= 128,
        zero: value == 0,
        bit_5: true,
        half_carry,
        bit_3: true,
        parity_overflow,
        subtract,
        carry,
    }
}

/// A sum and its flags.
fn sum(a: u8, b: u8, carry: bool) -> (u32, Flags) {
    let (x, y, c) = (a as u32, b as u32, carry as u32);
    let overflows = leaves_byte((x + 128) % 256 + (y + 128) % 256 + c);
    let sum = (x + y + c) % 256;
    let half_carry = x % 16 + y % 16 + c >= 16;
    (
        sum,
        after(sum, half_carry, overflows, false, x + y + c >= 256),
    )
}

/// A difference and its flags.
fn difference(a: u8, b: u8, borrow: bool) -> (u32, Flags) {
    let (x, y, c) = (a as u32, b as u32, borrow as u32);
    let overflows = leaves_byte(256 + (x + 128) % 256 - (y + 128) % 256 - c);
    let difference = (256 + x - y - c) % 256;
    (
        difference,
        after(difference, x % 16 < y % 16 + c, overflows, true, x < y + c),
    )
}

/// Whether a bit of AND, XOR or OR is 1, given the bits of the two bytes.
fn is_one(operation: AluOperation, x: u8, y: u8) -> bool {
    match operation {
        AluOperation::And => x == 1 && y == 1,
        AluOperation::Xor => x != y,
        _ => x == 1 || y == 1,
    }
}

/// AND, XOR and OR bit by bit, and the flags.
fn combination(operation: AluOperation, a: u8, b: u8) -> (u32, Flags) {
    let bits: [u8; 8] = [1, 2, 4, 8, 16, 32, 64, 128];
    let mut value = 0u8;
    for bit in bits {
        if is_one(operation, a / bit % 2, b / bit % 2) {
            value = value.wrapping_add(bit);
        }
    }
    let half_carry = operation == AluOperation::And;
    (
        value as u32,
        after(
            value as u32,
            half_carry,
            has_even_parity(value),
            false,
            false,
        ),
    )
}

/// The result of an operation, and its flags. CP has the flags of SUB and leaves A as it is.
fn counted(operation: AluOperation, a: u8, b: u8, carry: bool) -> (u32, Flags) {
    match operation {
        AluOperation::Add => sum(a, b, false),
        AluOperation::Adc => sum(a, b, carry),
        AluOperation::Sub => difference(a, b, false),
        AluOperation::Sbc => difference(a, b, carry),
        AluOperation::Cp => (a as u32, difference(a, b, false).1),
        _ => combination(operation, a, b),
    }
}

/// Whether an operation has the computed result and flags.
fn is_counted(operation: AluOperation, a: u8, b: u8, carry: bool) -> bool {
    let mut flags = before(carry);
    let value = flags.operate(operation, a, b);
    (value as u32, flags) == counted(operation, a, b, carry)
}

/// How often an operation agrees with the computation, for this A, all second bytes, and the carry 0 and 1.
fn agreed_at(operation: AluOperation, a: u8) -> u32 {
    let mut agreed = 0u32;
    for b in 0..=255 {
        for carry in [false, true] {
            if is_counted(operation, a, b, carry) {
                agreed = agreed.wrapping_add(1);
            }
        }
    }
    agreed
}

/// How often an operation agrees with the computation, for all pairs of bytes and the carry 0 and 1.
fn agreed(operation: AluOperation) -> u32 {
    let mut agreed = 0u32;
    for a in 0..=255 {
        agreed = agreed.wrapping_add(agreed_at(operation, a));
    }
    agreed
}

/// Two decimal digits as a byte.
fn decimal(number: u8) -> u8 {
    number % 100 / 10 * 16 + number % 10
}

/// Whether DAA makes the sum of two decimal numbers decimal.
fn adjusts_sum(x: u8, y: u8) -> bool {
    let mut flags = before(true);
    let sum = flags.add(decimal(x), decimal(y), false);
    let adjusted = flags.adjust(sum);
    let total = x as u32 + y as u32;
    adjusted as u32 == total % 100 / 10 * 16 + total % 10
        && flags.carry == (total >= 100)
        && !flags.subtract
        && flags.parity_overflow == has_even_parity(adjusted)
}

/// Whether DAA makes the difference of two decimal numbers decimal.
fn adjusts_difference(x: u8, y: u8) -> bool {
    let mut flags = before(true);
    let difference = flags.subtract(decimal(x), decimal(y), false);
    let adjusted = flags.adjust(difference);
    let rest = (300 + x as u32 - y as u32) % 100;
    adjusted as u32 == rest / 10 * 16 + rest % 10
        && flags.carry == (x < y)
        && flags.subtract
        && flags.sign == (adjusted >= 128)
        && flags.zero == (adjusted == 0)
}

/// The number of pairs of decimal numbers for which DAA makes the sum decimal, or the difference.
fn agreed_decimals(subtracts: bool) -> u32 {
    let mut agreed = 0u32;
    for x in 0..100 {
        for y in 0..100 {
            let adjusts = if subtracts {
                adjusts_difference(x, y)
            } else {
                adjusts_sum(x, y)
            };
            if adjusts {
                agreed = agreed.wrapping_add(1);
            }
        }
    }
    agreed
}

const WORDS: [u16; 14] = [
    0x0000, 0x0001, 0x00FF, 0x0100, 0x0FFF, 0x1000, 0x1234, 0x7FFF, 0x8000, 0x8001, 0xA987, 0xEFFF,
    0xF000, 0xFFFF,
];

/// Whether ADD of words agrees with the computation.
fn adds_words(a: u16, b: u16, carry: bool) -> bool {
    let (x, y) = (a as u32, b as u32);
    let mut flags = before(carry);
    let expected = Flags {
        half_carry: x % 4096 + y % 4096 >= 4096,
        subtract: false,
        carry: x + y >= 65536,
        ..flags
    };
    let value = flags.add_word(a, b, false);
    value as u32 == (x + y) % 65536 && flags == expected
}

/// Whether ADC of words agrees with the computation.
fn adds_words_with_carry(a: u16, b: u16, carry: bool) -> bool {
    let (x, y, c) = (a as u32, b as u32, carry as u32);
    let sum = (x + y + c) % 65536;
    let mut flags = before(carry);
    let expected = Flags {
        sign: sum >= 32768,
        zero: sum == 0,
        half_carry: x % 4096 + y % 4096 + c >= 4096,
        parity_overflow: leaves_word((x + 32768) % 65536 + (y + 32768) % 65536 + c),
        subtract: false,
        carry: x + y + c >= 65536,
        ..flags
    };
    let value = flags.adc_word(a, b);
    value as u32 == sum && flags == expected
}

/// Whether SBC of words agrees with the computation.
fn subtracts_words(a: u16, b: u16, borrow: bool) -> bool {
    let (x, y, c) = (a as u32, b as u32, borrow as u32);
    let difference = (65536 + x - y - c) % 65536;
    let mut flags = before(borrow);
    let expected = Flags {
        sign: difference >= 32768,
        zero: difference == 0,
        half_carry: x % 4096 < y % 4096 + c,
        parity_overflow: leaves_word(65536 + (x + 32768) % 65536 - (y + 32768) % 65536 - c),
        subtract: true,
        carry: x < y + c,
        ..flags
    };
    let value = flags.sbc_word(a, b);
    value as u32 == difference && flags == expected
}

/// An operation on words.
#[derive(Clone, Copy)]
enum OnWords {
    Add,
    Adc,
    Sbc,
}

/// The number of pairs of `WORDS`, with the carry 0 and 1, for which an operation agrees with the computation.
fn agreed_words(operation: OnWords) -> u32 {
    let mut agreed = 0u32;
    for a in WORDS {
        for b in WORDS {
            for carry in [false, true] {
                let agrees = match operation {
                    OnWords::Add => adds_words(a, b, carry),
                    OnWords::Adc => adds_words_with_carry(a, b, carry),
                    OnWords::Sbc => subtracts_words(a, b, carry),
                };
                if agrees {
                    agreed = agreed.wrapping_add(1);
                }
            }
        }
    }
    agreed
}

/// The number of bytes that are the same again after they are taken as flags.
fn agreed_flags() -> u32 {
    let mut agreed = 0u32;
    for byte in 0..=255 {
        if Flags::from_byte(byte).to_byte() == byte {
            agreed = agreed.wrapping_add(1);
        }
    }
    agreed
}

/// What `every` counts.
#[derive(Clone, Copy)]
enum Every {
    Bytes(AluOperation),
    Words(OnWords),
    DecimalSums,
    DecimalDifferences,
    Flags,
}

/// The words of `every`.
const COUNTS: [(&str, Every); 14] = [
    ("ADD", Every::Bytes(AluOperation::Add)),
    ("ADC", Every::Bytes(AluOperation::Adc)),
    ("SUB", Every::Bytes(AluOperation::Sub)),
    ("SBC", Every::Bytes(AluOperation::Sbc)),
    ("AND", Every::Bytes(AluOperation::And)),
    ("XOR", Every::Bytes(AluOperation::Xor)),
    ("OR", Every::Bytes(AluOperation::Or)),
    ("CP", Every::Bytes(AluOperation::Cp)),
    ("ADD of words", Every::Words(OnWords::Add)),
    ("ADC of words", Every::Words(OnWords::Adc)),
    ("SBC of words", Every::Words(OnWords::Sbc)),
    ("ADD and DAA", Every::DecimalSums),
    ("SUB and DAA", Every::DecimalDifferences),
    ("byte of flags", Every::Flags),
];

fn count_named(name: &str) -> Option<Every> {
    for (word, every) in &COUNTS {
        if *word == name {
            return Some(*every);
        }
    }
    None
}

/// For how many numbers an operation agrees with the computation.
fn count_of(every: Every) -> u32 {
    match every {
        Every::Bytes(operation) => agreed(operation),
        Every::Words(operation) => agreed_words(operation),
        Every::DecimalSums => agreed_decimals(false),
        Every::DecimalDifferences => agreed_decimals(true),
        Every::Flags => agreed_flags(),
    }
}

/// Prints for how many numbers an operation agrees with the computation.
pub(crate) fn answer_every(row: &mut Row) {
    match count_named(row.rest()) {
        Some(every) => write!(row, " {}", count_of(every)),
        None => row.refuse("no such operation"),
    }
}

/// Prints the letters of flags.
pub(crate) fn answer_flags(row: &mut Row) {
    let flags = Flags::from_byte(row.hexadecimal_byte());
    write!(row, " {flags}")
}

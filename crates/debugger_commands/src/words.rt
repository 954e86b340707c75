//! The words of a line, and what a word is as a number or an address.

ghost use Rattle.std.specs.Prelude.{◌≡◌, ◌<◌, ◌≤◌, ◌==◌, ◌++◌, ◌∷◌, [], IfOk, Ok, OnOk, filter, length, map, option_map};
ghost use Rattle.std.specs.Char.{is_ascii_whitespace};
ghost use Rattle.std.specs.List.{position, position_or_len, slice_split};
ghost use Rattle.std.specs.Option.{IfSome};
ghost use Rattle.asm_line.specs.Tokens.{lexemes};
ghost use Rattle.debugger_commands.specs.Typed.{address_and_offset, address_in_register, address_near, address_or_value, cut, is_typed_word, line_words, named_address, number_typed, one_number, printed_address, turns_of};
ghost use Rattle.debugger_commands.specs.Private.Parts.{parts_left};

use asm_line::{Kind, ScanFault, Token, tokens};
use state_text::{Labels, is_same_name, register_limit, register_named};
use std::alloc::{AllocError, Global};
use z80_cpu::Cpu;

/// How many digits an address is printed with.
const ADDRESS_DIGITS: usize = 4;

/// How many bytes are before the first white space.
fn part_len(text: &[u8]) -> usize
    ensures len { result ≡ position_or_len is_ascii_whitespace text.now }
    ensures within { result ≤ length text.now }
{
    text.iter().take_while(|b| !b.is_ascii_whitespace()).count()
}

/// The bytes before the first white space, and those after it, if there is some.
fn first_part(text: &[u8]) -> (&[u8], Option<&[u8]>)
    ensures parts { slice_split is_ascii_whitespace text.now ≡ result.0.now ∷ parts_left (option_map (λ after. after.now) result.1) }
    ensures shorter { IfSome result.1 (λ after. length after.now < length text.now) }
{
    let (part, from) = text.split_at(part_len(text));
    match from.split_first() {
        Some((_, after)) => (part, Some(after)),
        None => (part, None),
    }
}

/// Adds a word, unless it is empty.
fn push_word<'a>(words: &mut Vec<&'a [u8]>, part: &'a [u8]) -> Result<(), AllocError>
    ensures { OnOk result (map (λ w. w.now) words.new.items ≡ map (λ w. w.now) words.old.items ++ filter is_typed_word (part.now ∷ [])) }
{
    if part.is_empty() {
        return Ok(());
    }
    words.push(part)?;
    Ok(())
}

/// The words of a line.
pub(crate) fn words_of<'a>(alloc: Global, line: &'a [u8]) -> Result<Vec<&'a [u8]>, AllocError>
    ensures { IfOk result (λ found. map (λ w. w.now) found.items ≡ line_words line.now) }
{
    let mut found = Vec::new(alloc);
    let mut rest = Some(line);
    while let Some(text) = rest {
        let (part, after) = first_part(text);
        push_word(&mut found, part)?;
        rest = after;
    }
    Ok(found)
}

/// Where this byte is for the first time.
fn place_of(word: &[u8], byte: u8) -> Option<usize>
    ensures place { result ≡ position (λ b. b == byte) word.now }
    ensures within { IfSome result (λ at. at < length word.now) }
{
    word.iter().position(|b| *b == byte)
}

/// What is before and what is after the first place of this byte in a word.
pub(crate) fn cut(word: &[u8], byte: u8) -> Option<(&[u8], &[u8])>
    ensures { option_map (λ parts. (parts.0.now, parts.1.now)) result ≡ cut byte word.now }
{
    match place_of(word, byte) {
        Some(at) => {
            let (before, _) = word.split_at(at);
            let (_, after) = word.split_at(at + 1);
            Some((before, after))
        }
        None => None,
    }
}

/// A number of turns, if the word is one.
pub(crate) fn turns_of(word: &[u8]) -> Option<u64>
    ensures { result ≡ turns_of word.now }
{
    let digits = str::from_utf8(word).ok()?;
    u64::from_str_radix(digits, 10).ok()
}

/// The number that these tokens are, if it is the whole word.
fn only_number(word: &[u8], found: &[Token<'_>]) -> Option<u16>
    ensures { result ≡ one_number word.now (Ok (lexemes found.now)) }
{
    match found {
        [token] => match token.kind {
            Kind::Number(n) if token.text == word => Some(n),
            _ => None,
        },
        _ => None,
    }
}

/// A number of the assembler, if the word is one.
pub(crate) fn number_of(alloc: Global, word: &[u8]) -> Result<Option<u16>, AllocError>
    ensures { IfOk result (λ number. number ≡ number_typed word.now) }
{
    match tokens(alloc, word) {
        Ok(found) => Ok(only_number(word, &found)),
        Err(ScanFault::NoMemory) => Err(AllocError),
        Err(ScanFault::BadByte) => Ok(None),
        Err(ScanFault::OpenString) => Ok(None),
        Err(ScanFault::LineTooLong) => Ok(None),
        Err(ScanFault::BadNumber) => Ok(None),
    }
}

/// The address that the answers print as this word: four hexadecimal digits.
fn printed_address(word: &[u8]) -> Option<u16>
    ensures { result ≡ printed_address word.now }
{
    if word.len() != ADDRESS_DIGITS || word[0] == b'+' {
        return None;
    }
    let digits = str::from_utf8(word).ok()?;
    u16::from_str_radix(digits, 16).ok()
}

/// PC, or the value of the register of two bytes with this name; `None` if no register may be named.
fn address_in_register(registers: Option<&Cpu>, word: &[u8]) -> Option<u16>
    ensures { result ≡ address_in_register (option_map (λ cpu. cpu.now) registers.entry) word.now }
{
    let cpu = registers?;
    if is_same_name(word, b"PC") {
        return Some(cpu.pc);
    }
    let register = register_named(word)?;
    if register_limit(register) > 0xFF {
        Some(register.value(cpu))
    } else {
        None
    }
}

/// The address of a label, or the one in a register.
fn named_address(labels: &Labels, registers: Option<&Cpu>, word: &[u8]) -> Option<u16>
    ensures { result ≡ named_address labels.now (option_map (λ cpu. cpu.now) registers.entry) word.now }
{
    match labels.address_of(word) {
        Some(address) => Some(address),
        None => address_in_register(registers, word),
    }
}

/// The address before this sign, and the number after it.
fn address_and_offset(
    alloc: Global,
    labels: &Labels,
    registers: Option<&Cpu>,
    word: &[u8],
    sign: u8,
) -> Result<Option<(u16, u16)>, AllocError>
    ensures { IfOk result (λ parts. parts ≡ address_and_offset labels.now (option_map (λ cpu. cpu.now) registers.entry) (cut «sign» word.now)) }
{
    let Some((name, offset)) = cut(word, sign) else {
        return Ok(None);
    };
    let Some(address) = named_address(labels, registers, name) else {
        return Ok(None);
    };
    match number_of(alloc, offset)? {
        Some(offset) => Ok(Some((address, offset))),
        None => Ok(None),
    }
}

/// The address that is a number after or before a name, as in `TEXT+1` or `SP-2`.
fn address_near(
    alloc: Global,
    labels: &Labels,
    registers: Option<&Cpu>,
    word: &[u8],
) -> Result<Option<u16>, AllocError>
    ensures { IfOk result (λ address. address ≡ address_near labels.now (option_map (λ cpu. cpu.now) registers.entry) word.now) }
{
    if let Some((address, offset)) = address_and_offset(alloc, labels, registers, word, b'+')? {
        return Ok(Some(address.wrapping_add(offset)));
    }
    match address_and_offset(alloc, labels, registers, word, b'-')? {
        Some((address, offset)) => Ok(Some(address.wrapping_sub(offset))),
        None => Ok(None),
    }
}

/// The address that a word is: a label, a register of two bytes, an address as the answers print it, a name with a number, or a number of
/// the assembler. Without registers it is the value of a condition.
pub(crate) fn address_of(
    alloc: Global,
    labels: &Labels,
    registers: Option<&Cpu>,
    word: &[u8],
) -> Result<Option<u16>, AllocError>
    ensures { IfOk result (λ address. address ≡ address_or_value labels.now (option_map (λ cpu. cpu.now) registers.entry) word.now) }
{
    if let Some(address) = named_address(labels, registers, word) {
        return Ok(Some(address));
    }
    if let Some(address) = printed_address(word) {
        return Ok(Some(address));
    }
    match address_near(alloc, labels, registers, word)? {
        Some(address) => Ok(Some(address)),
        None => number_of(alloc, word),
    }
}

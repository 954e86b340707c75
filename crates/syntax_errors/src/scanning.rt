//! Bytes, numbers and strings that are none.

use asm_line::{Head, Kind, LONGEST_LINE, ScanFault, continues_name, form_of, is_comma};
use bstr::ByteSlice;
use common::is_reserved;
use error_lines::{Case, builds};
use message_texts::{
    Draft, Extent, ONE_STATEMENT, Spot, begins_statement, directive_instead, first_uncut,
    is_whole_group, of_preprocessor, shown, tokens_of, unicode_instead,
};
use std::alloc::{AllocError, Global};
use z80_form::mnemonic_of;

/// The three bytes with which many editors begin a file in UTF-8.
const BYTE_ORDER_MARK: &[u8] = b"\xEF\xBB\xBF";

/// The bytes before the first `;`.
fn before_comment(bytes: &[u8]) -> &[u8] {
    match bytes.split_once_str(b";") {
        Some((front, _)) => front,
        None => bytes,
    }
}

/// A line that cannot be cut into tokens, and where the token begins that has the error.
#[derive(Drop)]
struct Uncut<'c, 'a> {
    alloc: Global,
    case: &'c Case<'a>,
    line: &'c [u8],
    extent: Extent,
    /// The bytes that have the error.
    token: &'c [u8],
}

/// Digits as this assembler writes a number: a 0 before a letter, and the letter of the base.
fn number_text(alloc: Global, digits: &[u8], base: &str) -> Result<String, AllocError> {
    let upper = digits.to_ascii_uppercase(alloc)?;
    let zero = match upper.first() {
        Some(first) if first.is_ascii_alphabetic() => "0",
        _ => "",
    };
    let digits = shown(alloc, &upper)?;
    format!(in alloc; "{zero}{digits}{base}")
}

/// Digits in hexadecimal as this assembler writes them; None if one is none.
///
/// # Errors
///
/// `AllocError` if memory ran out.
pub fn hexadecimal(alloc: Global, digits: &[u8]) -> Result<Option<String>, AllocError> {
    if digits.is_empty() || !digits.iter().all(|b| b.is_ascii_hexdigit()) {
        return Ok(None);
    }
    Ok(Some(number_text(alloc, digits, "H")?))
}

/// The digits of a number, without the letter of its base after them: `101` of `101B`.
pub(crate) fn without_letter(digits: &[u8], letter: u8) -> &[u8] {
    match digits {
        [front @ .., last] if last.to_ascii_lowercase() == letter => front,
        _ => digits,
    }
}

/// How a number of another assembler is written, given its digits, and the name, the letter and the value of its base; None if one is no digit
/// of this base.
fn based(
    alloc: Global,
    digits: &[u8],
    name: &str,
    letter: &str,
    base: u32,
) -> Result<Option<String>, AllocError> {
    if !is_number(digits, base) {
        return Ok(None);
    }
    let number = number_text(alloc, digits, letter)?;
    Ok(Some(format!(in alloc; "{name} is written `{number}`")?))
}

/// What to write instead of a number of another assembler, such as `0x1F`, `0b101` or `1F`.
fn meant_number(alloc: Global, token: &[u8]) -> Result<Option<String>, AllocError> {
    match token {
        [b'0', b'x' | b'X', digits @ ..] => {
            based(alloc, without_letter(digits, b'h'), "hexadecimal", "H", 16)
        }
        [b'0', b'b' | b'B', digits @ ..] => {
            based(alloc, without_letter(digits, b'b'), "binary", "B", 2)
        }
        [b'0', b'o' | b'O', digits @ ..] => {
            based(alloc, without_letter(digits, b'o'), "octal", "O", 8)
        }
        _ => match hexadecimal(alloc, token)? {
            Some(number) => Ok(Some(format!(in alloc; "hexadecimal is written `{number}`")?)),
            None => Ok(None),
        },
    }
}

/// The digits of a number without the letter of its base, and that letter's base in words, with its article; all digits if the last one is no letter.
fn base_of(token: &[u8]) -> (&[u8], &'static str, u32) {
    match token {
        [digits @ .., b'h' | b'H'] => (digits, "a hexadecimal", 16),
        [digits @ .., b'b' | b'B'] => (digits, "a binary", 2),
        [digits @ .., b'o' | b'O' | b'q' | b'Q'] => (digits, "an octal", 8),
        [digits @ .., b'd' | b'D'] => (digits, "a decimal", 10),
        _ => (token, "a decimal", 10),
    }
}

/// Whether a byte is a digit of this base, which is 2, 8, 10 or 16.
fn is_digit(byte: u8, base: u32) -> bool {
    match base {
        2 => matches!(byte, b'0'..=b'1'),
        8 => matches!(byte, b'0'..=b'7'),
        10 => byte.is_ascii_digit(),
        _ => byte.is_ascii_hexdigit(),
    }
}

/// The first byte that is no digit of this base.
fn no_digit(digits: &[u8], base: u32) -> Option<u8> {
    for byte in digits {
        if !is_digit(*byte, base) {
            return Some(*byte);
        }
    }
    None
}

/// Whether bytes are digits of this base, one at least.
fn is_number(digits: &[u8], base: u32) -> bool {
    !digits.is_empty() && no_digit(digits, base).is_none()
}

impl<'c, 'a> Uncut<'c, 'a> {
    /// A message about the bytes that have the error.
    fn draft(&self, text: String) -> Draft {
        Draft::new(
            self.alloc,
            Spot::Bytes(self.extent.at, self.extent.len),
            text,
        )
    }

    /// Whether the token comes directly after `$`.
    fn is_after_dollar(&self) -> bool {
        let before = self.extent.at.checked_sub(1);
        match before {
            Some(at) => self.line.get(at) == Some(&b'$'),
            None => false,
        }
    }

    /// The message about a word that begins as a number, and is none.
    fn bad_number(&self) -> Result<Draft, AllocError> {
        let alloc = self.alloc;
        let token = shown(alloc, self.token)?;
        let (digits, name, base) = base_of(self.token);
        let Some(wrong) = no_digit(digits, base) else {
            let text = format!(in alloc; "{token} is above 65535 (0FFFFH)")?;
            return self.draft(text).help(String::from_str(
                alloc,
                "a word holds up to 65535, a byte up to 255; a larger number takes several words",
            )?);
        };
        if self.is_after_dollar() {
            let text = format!(in alloc; "`{token}` is not a number (`$` is the current address)")?;
            return match meant_number(alloc, self.token)? {
                Some(help) => self
                    .draft(text)
                    .help(format!(in alloc; "{help}, without `$`")?),
                None => self.draft(text).help_if(None),
            };
        }
        let wrong = shown(alloc, &[wrong])?;
        let text = format!(in alloc; "`{token}` is not a number: `{wrong}` is not {name} digit")?;
        let draft = self.draft(text);
        match meant_number(alloc, self.token)? {
            Some(help) => draft.help(help),
            None => draft.help(String::from_str(
                alloc,
                "a word that begins with a digit is a number; a name begins with a letter, `_`, `?`, `@` or `.`",
            )?),
        }
    }

    /// The message about a string without an end.
    fn open_string(&self) -> Result<Draft, AllocError> {
        let alloc = self.alloc;
        let text = String::from_str(alloc, "this string has no closing quote")?;
        self.draft(text).help(String::from_str(
            alloc,
            "add the quote; a quote in a string is written twice: `'it''s'`",
        )?)
    }

    /// The line up to its comment with these bytes in place of the one that has the error, if it builds so.
    fn replaced(&self, bytes: &[u8]) -> Result<Option<String>, AllocError> {
        let mut all = Vec::from_slice(self.alloc, self.before())?;
        all.extend_from_slice(bytes)?;
        all.extend_from_slice(self.rest())?;
        let statement = before_comment(&all).trim();
        if builds(self.case, statement)? {
            return Ok(Some(shown(self.alloc, statement)?));
        }
        Ok(None)
    }

    /// Whether an operand of an instruction begins at the byte that has the error.
    fn begins_operand(&self) -> Result<bool, AllocError> {
        let found = tokens_of(self.alloc, self.before())?;
        let is_instruction = match form_of(&found).head {
            Head::Word(word) => mnemonic_of(word).is_some(),
            _ => false,
        };
        match found.last() {
            Some(last) if is_instruction => {
                let is_word = last.kind == Kind::Name
                    && !is_reserved(&last.text.to_ascii_uppercase(self.alloc)?);
                Ok(is_word || is_comma(last))
            }
            _ => Ok(false),
        }
    }

    /// The letters and digits directly after the byte that has the error.
    fn behind(&self) -> &'c [u8] {
        let line = self.line;
        let from = line.get(self.extent.at.saturating_add(1)..);
        let rest = from.unwrap_or(&[]);
        let len = rest
            .iter()
            .take_while(|b| b.is_ascii_alphanumeric())
            .count();
        let front = rest.get(..len);
        front.unwrap_or(&[])
    }

    /// What to write instead of `#` or `&` and what follows it.
    fn unmarked(&self, digits: &[u8], otherwise: &str) -> Result<String, AllocError> {
        let alloc = self.alloc;
        let is_decimal = digits.iter().all(|b| b.is_ascii_digit());
        match hexadecimal(alloc, digits)? {
            Some(number) if is_decimal => {
                format!(in alloc; "{otherwise}; hexadecimal is written `{number}`")
            }
            Some(number) => format!(in alloc; "hexadecimal is written `{number}`"),
            None => String::from_str(alloc, otherwise),
        }
    }

    /// The bytes after the one that has the error.
    fn rest(&self) -> &'c [u8] {
        let line = self.line;
        line.get(self.extent.at.saturating_add(1)..).unwrap_or(&[])
    }

    /// The bytes before the one that has the error.
    fn before(&self) -> &'c [u8] {
        let line = self.line;
        let (before, _) = line.split_at(self.extent.at.min(line.len()));
        before
    }

    /// Whether the byte is in the middle of a name, and, if it is, whether it is in the first word of the line.
    fn is_in_name(&self) -> (bool, bool) {
        let before = self.before();
        let is_in = match (before.last(), self.rest().first()) {
            (Some(left), Some(right)) => continues_name(*left) && continues_name(*right),
            _ => false,
        };
        (is_in, is_in && before.iter().all(|b| continues_name(*b)))
    }

    /// What to write instead of `&`.
    fn ampersand(&self) -> Result<String, AllocError> {
        let joins = "`&` does not join names: a parameter is replaced only as a whole name";
        match self.is_in_name() {
            (true, true) => String::from_str(self.alloc, joins),
            (true, false) => {
                format!(in self.alloc; "the operator is `AND`, with blanks around it; {joins}")
            }
            _ => match self.behind() {
                [b'h' | b'H', digits @ ..] => self.unmarked(digits, "the operator is `AND`"),
                [b'b' | b'B', digits @ ..] if is_number(digits, 2) => {
                    self.of_two_bases(digits, "B", "binary")
                }
                [b'd' | b'D', digits @ ..] if is_number(digits, 10) => {
                    self.of_two_bases(digits, "", "decimal")
                }
                digits => self.unmarked(digits, "the operator is `AND`"),
            },
        }
    }

    /// What to write instead of `&` before digits whose first one may also be the letter of a base.
    fn of_two_bases(&self, digits: &[u8], letter: &str, name: &str) -> Result<String, AllocError> {
        let alloc = self.alloc;
        let own = number_text(alloc, digits, letter)?;
        match hexadecimal(alloc, self.behind())? {
            Some(number) if digits.len() < 4 => {
                format!(in alloc; "{name} is written `{own}`, hexadecimal `{number}`")
            }
            _ => format!(in alloc; "{name} is written `{own}`"),
        }
    }

    /// What to write instead of `#` before a constant. A whole operand in parentheses would be memory without it.
    fn without_mark(&self) -> Result<String, AllocError> {
        let alloc = self.alloc;
        let found = tokens_of(alloc, self.rest())?;
        if self.begins_operand()? && is_whole_group(&found) {
            let means =
                "constants need no mark, and parentheses around a whole operand mean memory";
            return match self.replaced(b"0+")? {
                Some(line) => format!(in alloc; "{means}: `{line}`"),
                None => String::from_str(alloc, means),
            };
        }
        match self.replaced(b"")? {
            Some(line) => format!(in alloc; "constants need no mark: `{line}`"),
            None => String::from_str(alloc, "constants need no mark"),
        }
    }

    /// What to write instead of `##` directly after a name; None if it is not that.
    fn double_sign(&self) -> Result<Option<String>, AllocError> {
        let alloc = self.alloc;
        let found = tokens_of(alloc, self.before())?;
        match (found.last(), self.rest().first()) {
            (Some(last), Some(b'#')) if last.kind == Kind::Name => {
                let name = shown(alloc, last.text)?;
                Ok(Some(format!(in alloc; "`##` is not supported: write `EXTRN {name}`")?))
            }
            _ => Ok(None),
        }
    }

    /// Whether the byte begins a remark: whether it is after a blank, and what is before it builds.
    fn begins_remark(&self) -> Result<bool, AllocError> {
        let before = self.before();
        match before.last() {
            Some(b' ' | b'\t') => builds(self.case, before),
            _ => Ok(false),
        }
    }

    /// What to write instead of `#`.
    fn number_sign(&self) -> Result<String, AllocError> {
        let alloc = self.alloc;
        if self.before().trim().is_empty() {
            return of_preprocessor(alloc, before_comment(self.rest()));
        }
        if let Some(help) = self.double_sign()? {
            return Ok(help);
        }
        if self.begins_remark()? {
            return String::from_str(alloc, "a comment starts with `;`");
        }
        self.unmarked(self.behind(), &self.without_mark()?)
    }

    /// What to write instead of a word of another assembler that begins the line; None if none does.
    fn other_word(&self) -> Result<Option<String>, AllocError> {
        let alloc = self.alloc;
        let found = tokens_of(alloc, self.before())?;
        let Head::Word(word) = form_of(&found).head else {
            return Ok(None);
        };
        let upper = word.to_ascii_uppercase(alloc)?;
        let word = shown(alloc, &upper)?;
        match directive_instead(&word) {
            Some(better) => Ok(Some(format!(in alloc; "{word} is not supported: {better}")?)),
            None => Ok(None),
        }
    }

    /// What to write instead of `<` or `>` before an operand, which takes one byte of an address in other assemblers; None if it is not that.
    fn byte_sign(&self, operator: &str) -> Result<Option<String>, AllocError> {
        let alloc = self.alloc;
        if self.behind().is_empty() || !self.begins_operand()? {
            return Ok(None);
        }
        let name = shown(alloc, self.behind())?;
        let with_blank = format!(in alloc; "{operator} ")?;
        match self.replaced(with_blank.as_bytes())? {
            Some(_) => Ok(Some(format!(in alloc; "the byte is `{operator} {name}`")?)),
            None => Ok(None),
        }
    }

    /// What to write instead of `<` or `>`, given the operator that takes one byte there in other assemblers.
    fn angle(&self, byte: u8, operator: &str) -> Result<String, AllocError> {
        let alloc = self.alloc;
        if let Some(help) = self.other_word()? {
            return Ok(help);
        }
        if let Some(help) = self.byte_sign(operator)? {
            return Ok(help);
        }
        let text = match (byte, self.rest().first()) {
            (b'<', Some(b'>')) => "the operator is `NE`",
            (b'<', Some(b'=')) => "the operator is `LE`",
            (b'<', Some(b'<')) => "the operator is `SHL`",
            (b'>', Some(b'=')) => "the operator is `GE`",
            (b'>', Some(b'>')) => "the operator is `SHR`",
            _ => other_instead(byte),
        };
        String::from_str(alloc, text)
    }

    /// What to write instead of a byte that this assembler does not have.
    fn instead(&self, byte: u8) -> Result<String, AllocError> {
        let alloc = self.alloc;
        match byte {
            b'#' => self.number_sign(),
            b'&' => self.ampersand(),
            b'%' => self.binary(),
            b'<' => self.angle(byte, "LOW"),
            b'>' => self.angle(byte, "HIGH"),
            b'!' | b'\\' | b'|' if begins_statement(alloc, self.rest())? => {
                String::from_str(alloc, ONE_STATEMENT)
            }
            _ => String::from_str(alloc, other_instead(byte)),
        }
    }

    /// What to write instead of `%`.
    fn binary(&self) -> Result<String, AllocError> {
        let alloc = self.alloc;
        let digits = self.behind();
        if !digits.is_empty() && digits.iter().all(|b| matches!(b, b'0' | b'1')) {
            let number = number_text(alloc, digits, "B")?;
            return format!(in alloc;
                "binary is written `{number}`, without `%`; the remainder is `MOD`"
            );
        }
        String::from_str(
            alloc,
            "binary is written `101B`, without `%`; the remainder is `MOD`",
        )
    }

    /// The message about a byte that is not ASCII.
    fn beyond_ascii(&self, byte: u8) -> Result<Draft, AllocError> {
        let alloc = self.alloc;
        let text = format!(in alloc; "byte {byte:02X}H is allowed only in strings and comments")?;
        let rest = self.line.get(self.extent.at..).unwrap_or(&[]);
        self.draft(text)
            .help(String::from_str(alloc, unicode_instead(rest))?)
    }

    /// The message about a byte that no token has.
    fn bad_byte(&self) -> Result<Draft, AllocError> {
        let alloc = self.alloc;
        let byte = self.token.first().copied().unwrap_or(0);
        if byte == b'\'' || byte == b'"' {
            let text = String::from_str(alloc, "this string has a control character")?;
            return self.draft(text).help(String::from_str(
                alloc,
                "write its code outside of the quotes: `'line',13,10`",
            )?);
        }
        if self.case.finding.number == 1 && self.line.starts_with(BYTE_ORDER_MARK) {
            let text = String::from_str(
                alloc,
                "the file begins with a byte order mark (EFH BBH BFH)",
            )?;
            return self
                .draft(text)
                .help(String::from_str(alloc, "save it without one")?);
        }
        if byte >= 0x80 {
            return self.beyond_ascii(byte);
        }
        if byte < b' ' || byte == 127 {
            let places = if byte == 127 {
                "strings and comments"
            } else {
                "comments"
            };
            let text = format!(in alloc;
                "byte {byte:02X}H is a control character, which is allowed only in {places}"
            )?;
            return self.draft(text).help(String::from_str(
                alloc,
                "a line ends with LF, or with CR and LF",
            )?);
        }
        let token = shown(alloc, &[byte])?;
        let text = format!(in alloc; "unexpected `{token}`")?;
        self.draft(text).help(self.instead(byte)?)
    }
}

/// What to write instead of a printable byte that this assembler does not have.
fn other_instead(byte: u8) -> &'static str {
    match byte {
        b'=' => "a name is defined by `NAME EQU 5`, and the comparison is `EQ`",
        b'<' => "the operators are `LT`, `LE` and `SHL`; an argument of a macro has no brackets",
        b'>' => "the operators are `GT`, `GE` and `SHR`; an argument of a macro has no brackets",
        b'!' => "the operators are `NOT` and `NE`",
        b'|' => "the operator is `OR`",
        b'^' => "the operator is `XOR`",
        b'~' => "the operator is `NOT`",
        b'[' | b']' | b'{' | b'}' => "memory and groups are in `(` and `)`",
        b'\\' => ONE_STATEMENT,
        b'`' => "a string is between two `'` or two `\"`",
        _ => "a comment starts with `;`",
    }
}

/// The message about a line that is too long.
///
/// # Errors
///
/// `AllocError` if memory ran out.
pub fn too_long(alloc: Global, line: &[u8]) -> Result<Draft, AllocError> {
    let count = line.len();
    let text = format!(in alloc; "this line has {count} bytes, and a line has at most 255")?;
    let rest = count.saturating_sub(LONGEST_LINE);
    Draft::new(alloc, Spot::Bytes(LONGEST_LINE, rest), text).help(String::from_str(
        alloc,
        "divide the line; the arguments of a call count too",
    )?)
}

/// The message about a line that cannot be cut into tokens.
///
/// # Errors
///
/// `AllocError` if memory ran out.
pub fn unscanned(case: &Case<'_>, why: ScanFault) -> Result<Draft, AllocError> {
    let alloc = case.alloc;
    let line = case.finding.text.as_slice();
    let extent = first_uncut(alloc, line);
    let rest = line.get(extent.at..).unwrap_or(&[]);
    let uncut = Uncut {
        alloc,
        case,
        line,
        extent,
        token: rest.get(..extent.len).unwrap_or(rest),
    };
    match why {
        ScanFault::BadByte => uncut.bad_byte(),
        ScanFault::OpenString => uncut.open_string(),
        ScanFault::BadNumber => uncut.bad_number(),
        ScanFault::LineTooLong => too_long(alloc, line),
        ScanFault::NoMemory => Err(AllocError),
    }
}

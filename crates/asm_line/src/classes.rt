//! The classes of bytes, and how long a run of a class is at the front.

ghost use Rattle.std.specs.Prelude.{◌≡◌, ◌≤◌, length};
ghost use Rattle.std.specs.List.{prefix_len};
ghost use Rattle.std.specs.Char.{is_ascii_alphanumeric};
ghost use Rattle.asm_line.specs.Classes.{begins_name, continues_name, is_blank, is_control, is_quote};

fn is_blank(byte: u8) -> bool
    ensures { result ≡ is_blank byte }
{
    byte == b' ' || byte == b'\t'
}

/// Whether a name can begin with this byte: a letter, `_`, `?`, `@` or `.`.
pub fn begins_name(byte: u8) -> bool
    ensures { result ≡ begins_name byte }
{
    byte.is_ascii_alphabetic() || matches!(byte, b'_' | b'?' | b'@' | b'.')
}

/// Whether this byte can come after the first byte of a name: a letter, `_`, `?`, `@`, `.` or a digit.
pub fn continues_name(byte: u8) -> bool
    ensures { result ≡ continues_name byte }
{
    begins_name(byte) || byte.is_ascii_digit()
}

pub(crate) fn is_quote(byte: u8) -> bool
    ensures { result ≡ is_quote byte }
{
    byte == b'\'' || byte == b'"'
}

pub(crate) fn is_control(byte: u8) -> bool
    ensures { result ≡ is_control byte }
{
    byte < b' ' && byte != b'\t'
}

/// How many blanks the bytes begin with.
pub fn blank_len(bytes: &[u8]) -> usize
    ensures len { result ≡ prefix_len is_blank bytes.now }
    ensures within { result ≤ length bytes.now }
{
    bytes.iter().take_while(|b| is_blank(**b)).count()
}

pub(crate) fn name_len(bytes: &[u8]) -> usize
    ensures len { result ≡ prefix_len continues_name bytes.now }
    ensures within { result ≤ length bytes.now }
{
    bytes.iter().take_while(|b| continues_name(**b)).count()
}

pub(crate) fn number_len(bytes: &[u8]) -> usize
    ensures len { result ≡ prefix_len is_ascii_alphanumeric bytes.now }
    ensures within { result ≤ length bytes.now }
{
    bytes
        .iter()
        .take_while(|b| b.is_ascii_alphanumeric())
        .count()
}

//! Counts how many jumps of a program are short and how many are long.

ghost use Rattle.std.specs.Prelude.{◌≡◌, ◌≤◌};
ghost use Rattle.z80dev_make.specs.Jumps.{begins_line, jumps_in, jumps_of, lines_with};

use std::fmt;
use zlink::{BuildFault, Built};

const LF: u8 = 0x0A;

/// The relaxable jumps of a program.
#[derive(Clone, Copy, Debug, PartialEq, Eq)]
pub struct Jumps {
    pub short: usize,
    pub long: usize,
}

/// How the jumps are printed. Each short jump saves a byte, compared with a program whose jumps are all long.
impl fmt::Display for Jumps {
    ghost use Rattle.std.specs.Prelude.{Some};
    ghost use Rattle.z80dev_make.specs.Jumps.{jumps_text};

    ghost output = { λ jumps. Some (jumps_text jumps) };

    fn fmt<W: fmt::Write>(&self, f: &mut fmt::Formatter<W>) -> fmt::Result {
        let short = self.short;
        let long = self.long;
        let jumps = if short == 1 { "jump" } else { "jumps" };
        let bytes = if short == 1 { "byte" } else { "bytes" };
        write!(
            f,
            "{short} {jumps} short, {long} long, {short} {bytes} saved"
        )
    }
}

/// Answers 1 if `byte` is a line feed and the next byte is this letter, otherwise 0.
fn begins_line(letter: u8, byte: u8, rest: &[u8]) -> usize
    ensures count { result ≡ begins_line letter byte rest.now }
    ensures bound { result ≤ 1 }
{
    match rest {
        [next, ..] => { if byte == LF && *next == letter { 1 } else { 0 } }
        [] => 0,
    }
}

/// Answers how many lines of a file begin with a letter, without counting its first line.
fn lines_with(letter: u8, text: &[u8]) -> usize
    ensures { result ≡ lines_with letter text.now }
{
    let mut count = 0;
    let mut rest = text;
    while let Some((byte, behind)) = rest.split_first() {
        count += begins_line(letter, *byte, behind);
        rest = behind;
    }
    count
}

/// Answers the jumps of a program, counted in its sizes file and its certificate.
fn jumps_in(sizes: &[u8], cert: &[u8]) -> Jumps
    ensures { result ≡ jumps_in sizes.now cert.now }
{
    let long = lines_with(b'L', cert);
    let short = lines_with(b'J', sizes).saturating_sub(long);
    Jumps { short, long }
}

/// Answers the jumps of a program that was built.
pub(crate) fn jumps_of(building: &Result<Built, BuildFault>) -> Option<Jumps>
    ensures { result ≡ jumps_of building.now }
{
    match building {
        Ok(built) => Some(jumps_in(&built.sizes, &built.cert)),
        Err(_) => None,
    }
}

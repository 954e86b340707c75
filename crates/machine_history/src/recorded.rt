//! The files of sessions at a keyboard.

ghost use Rattle.std.specs.Prelude.{◌≡◌, ◌++◌, ◌∷◌, ◌<◌, ◌≤◌, ◌^◌, [], ℕ, All, IfOk, IfSome, List, MatchOption, OnOk, Some, codes, decimal, false, length, true};
ghost use Rattle.hex.specs.Hex.{encode_upper};
ghost use Rattle.cpm_run.specs.declared.arriving.Arrival.{Arrival as TheArrival};
ghost use Rattle.machine_history.specs.Private.Cuts.{Lacks};
ghost use Rattle.machine_history.specs.declared.recorded.Line.TheVariants as line;
ghost use Rattle.std.specs.List.{flat_map};
ghost use Rattle.cpm_run.specs.Play.{IsInOrder};
ghost use Rattle.machine_history.specs.Recorded.{IsNoRecord, IsRecord, HasWidths, arrival_line, closing_line, record_text};

use cpm_run::Arrival;
use std::alloc::{AllocError, Global};

/// A session: each byte that came, and the number of steps that were made.
#[derive(Drop)]
pub struct Recorded {
    pub arrivals: Vec<Arrival>,
    pub last: u64,
}

/// A line of a file of a session.
enum Line {
    Byte(Arrival),
    /// The number of steps that were made.
    End(u64),
}

/// Appends the line of a byte that came.
fn put_arrival(alloc: Global, text: &mut Vec<u8>, arrival: Arrival) -> Result<(), AllocError>
    ensures { OnOk result (text.new.items ≡ text.old.items ++ arrival_line arrival) }
{
    let turn = arrival.turn;
    let number = format!(in alloc; "{turn}")?;
    let byte = hex::encode_upper(alloc, &[arrival.byte][..])?;
    text.extend_from_slice(number.as_bytes())?;
    text.push(b' ')?;
    text.extend_from_slice(byte.as_bytes())?;
    text.push(b'\n')?;
    Ok(())
}

/// The lines of the bytes that came.
fn arrival_lines(alloc: Global, arrivals: &[Arrival]) -> Result<Vec<u8>, AllocError>
    ensures { IfOk result (λ text. text.items ≡ flat_map arrival_line arrivals.now) }
{
    let mut text = Vec::new(alloc);
    for arrival in arrivals {
        put_arrival(alloc, &mut text, *arrival)?;
    }
    Ok(text)
}

/// The file of a session of `turns` steps: a line for each byte that came, with the number of steps before it and the byte in hexadecimal, and
/// then a line with the number of steps and END.
pub fn record_file(alloc: Global, arrivals: &[Arrival], turns: u64) -> Result<Vec<u8>, AllocError>
    ensures { IfOk result (λ text. text.items ≡ record_text arrivals.now turns) }
{
    let mut text = arrival_lines(alloc, arrivals)?;
    let number = format!(in alloc; "{turns}")?;
    text.extend_from_slice(number.as_bytes())?;
    text.extend_from_slice(b" END\n")?;
    Ok(text)
}

/// Whether the numbers of steps do not go down, and none is above the last.
fn is_in_order(arrivals: &[Arrival], last: u64) -> bool
    ensures yes { result ≡ true → IsInOrder arrivals.now last }
    ensures no { result ≡ false → ¬ IsInOrder arrivals.now last }
{
    let mut most = 0;
    for arrival in arrivals {
        if arrival.turn < most {
            return false;
        }
        most = arrival.turn;
    }
    most <= last
}

/// The parts before and after the first such byte.
fn cut(text: &[u8], byte: u8) -> Option<(&[u8], &[u8])>
    ensures parts { MatchOption result (Lacks byte text.now) (λ found. Lacks byte found.0.now × (text.now ≡ found.0.now ++ byte ∷ found.1.now)) }
    ensures shorter { IfSome result (λ found. length found.1.now < length text.now) }
{
    let len = text.iter().take_while(|other| **other != byte).count();
    let (front, rest) = text.split_at(len);
    match rest {
        [_, after @ ..] => Some((front, after)),
        [] => None,
    }
}

/// The number of these decimal digits.
fn number_of(digits: &[u8]) -> Option<u64>
    ensures { (n : ℕ) → n < 2 ^ 64 → digits.now ≡ decimal n → result ≡ Some n }
{
    let text = str::from_utf8(digits).ok()?;
    text.parse().ok()
}

/// The byte of these two hexadecimal digits.
fn byte_of(digits: &[u8]) -> Option<u8>
    ensures { (byte : ℕ) → byte < 256 → digits.now ≡ encode_upper (byte ∷ []) → result ≡ Some byte }
{
    let mut byte = [0; 1];
    match hex::decode_to_slice(digits, &mut byte) {
        Ok(()) => Some(byte[0]),
        Err(_) => None,
    }
}

/// A line with this number and this word after it.
fn line_of(number: u64, word: &[u8]) -> Option<Line>
    ensures byte { (byte : ℕ) → byte < 256 → word.now ≡ encode_upper (byte ∷ []) → result ≡ Some (line.Byte (record { turn = number; byte = byte })) }
    ensures end { word.now ≡ codes "END" → result ≡ Some (line.End number) }
{
    if word == b"END".as_slice() {
        return Some(Line::End(number));
    }
    let byte = byte_of(word)?;
    Some(Line::Byte(Arrival { turn: number, byte }))
}

/// The line at the front of a file of a session, and what follows it.
fn first_line(text: &[u8]) -> Option<(Line, &[u8])>
    ensures byte { (arrival : TheArrival) (rest : List ℕ) → HasWidths arrival → text.now ≡ arrival_line arrival ++ rest → MatchOption result ⊥ (λ found. (found.0 ≡ line.Byte arrival) × (found.1.now ≡ rest)) }
    ensures end { (last : ℕ) (rest : List ℕ) → last < 2 ^ 64 → text.now ≡ closing_line last ++ rest → MatchOption result ⊥ (λ found. (found.0 ≡ line.End last) × (found.1.now ≡ rest)) }
    ensures shorter { IfSome result (λ found. length found.1.now < length text.now) }
{
    let (digits, rest) = cut(text, b' ')?;
    let (word, after) = cut(rest, b'\n')?;
    let number = number_of(digits)?;
    let line = line_of(number, word)?;
    Some((line, after))
}

/// What a file of a session has, as far as it can be read line by line.
fn lines_of(alloc: Global, text: &[u8]) -> Result<Option<Recorded>, AllocError>
    ensures { (arrivals : List TheArrival) (last : ℕ) → All HasWidths arrivals → last < 2 ^ 64 → text.now ≡ record_text arrivals last
        → IfOk result (λ found. MatchOption found ⊥ (λ recorded. (recorded.arrivals.items ≡ arrivals) × (recorded.last ≡ last))) }
{
    let mut arrivals = Vec::new(alloc);
    let mut rest = text;
    while let Some((line, after)) = first_line(rest) {
        match line {
            Line::Byte(arrival) => arrivals.push(arrival)?,
            Line::End(last) => return Ok(Some(Recorded { arrivals, last })),
        }
        rest = after;
    }
    Ok(None)
}

/// Reads the file of a session. `None` if it is not one, byte for byte as [`record_file`] writes it, or if a number of steps, also that of END,
/// is smaller than the one before.
pub fn read_record(alloc: Global, text: &[u8]) -> Result<Option<Recorded>, AllocError>
    ensures { IfOk result (λ found. MatchOption found (IsNoRecord text.now) (λ recorded. IsRecord text.now recorded.arrivals.items recorded.last)) }
{
    let Some(recorded) = lines_of(alloc, text)? else {
        return Ok(None);
    };
    let again = record_file(alloc, &recorded.arrivals, recorded.last)?;
    if again.as_slice() == text && is_in_order(&recorded.arrivals, recorded.last) {
        return Ok(Some(recorded));
    }
    Ok(None)
}

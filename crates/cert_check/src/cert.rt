//! What a certificate says, and its file.

ghost use Rattle.std.specs.Prelude.{◌≡◌, ◌⊎◌, ◌<◌, ◌^◌, ℕ, All, List, Result, IfOk};
ghost use Rattle.cert_check.specs.FileTypes.{TextFault, Verdict};
ghost use Rattle.cert_check.specs.Texts.{OrNoMemory, IsCert, ReadsCert, answered_certificate, cert_text};
ghost use Rattle.cert_check.specs.Private.Reading.{IsCertLine};

use crate::lines::{behind, first_line, numbered, push_line};
use crate::text_fault::TextFault;
use std::alloc::{AllocError, Global};

/// What a certificate shows of a shape.
#[derive(Clone, Copy, Debug, PartialEq, Eq)]
pub enum Verdict {
    /// The fewest bytes are this many.
    Best(u32),
    /// This [`Short`](crate::Statement::Short) does not reach its target in any choice that fits, so none fits.
    Range(u32),
    /// No choice takes fewer bytes than this, which is more than 64,512.
    TooLarge(u32),
}

impl Verdict {
    ghost use Rattle.std.specs.Prelude.{◌≡◌, ◌++◌, decimal};
    ghost use Rattle.cert_check.specs.Texts.{verdict_line, verdict_number};

    /// The word of its line with the space after it, and its number.
    fn parts(self) -> (&'static [u8], u32)
        ensures line { verdict_line self ≡ result.0.now ++ decimal result.1 }
        ensures number { result.1 ≡ verdict_number self }
    {
        match self {
            Verdict::Best(n) => (b"BEST ", n),
            Verdict::Range(k) => (b"RANGE ", k),
            Verdict::TooLarge(n) => (b"SIZE ", n),
        }
    }
}

/// A forcing order and what is shown after it.
#[derive(Debug, Drop, PartialEq, Eq)]
pub struct Cert {
    /// The numbers of the jumps that have to be long, each because of those before it.
    pub order: Vec<u32>,
    /// What is shown once they are long.
    pub verdict: Verdict,
}

/// A line of a certificate after the header.
enum CertLine {
    Forced(u32),
    Last(Verdict),
}

/// Answers what a line means, if it is a line of a certificate.
fn cert_line(line: &[u8]) -> Option<CertLine>
    ensures { IsCertLine line.now result }
{
    if let Some(k) = numbered(b"L ", line) {
        return Some(CertLine::Forced(k));
    }
    if let Some(n) = numbered(b"BEST ", line) {
        return Some(CertLine::Last(Verdict::Best(n)));
    }
    if let Some(k) = numbered(b"RANGE ", line) {
        return Some(CertLine::Last(Verdict::Range(k)));
    }
    let n = numbered(b"SIZE ", line)?;
    Some(CertLine::Last(Verdict::TooLarge(n)))
}

/// Answers what the lines of the file say, or the first bad line.
fn cert_of(alloc: Global, text: &[u8]) -> Result<Cert, TextFault>
    ensures { OrNoMemory (ReadsCert text.now) (answered_certificate result) }
{
    let Some(mut rest) = behind(b"Z80CERT 1\n", text) else {
        return Err(TextFault::BadLine(1));
    };
    let mut order = Vec::new(alloc);
    while let Some((line, after)) = first_line(rest) {
        let number = order.len() + 2;
        match cert_line(line) {
            Some(CertLine::Forced(k)) => order.push(k)?,
            Some(CertLine::Last(_)) if !after.is_empty() => {
                return Err(TextFault::BadLine(number + 1));
            }
            Some(CertLine::Last(verdict)) => return Ok(Cert { order, verdict }),
            None => return Err(TextFault::BadLine(number)),
        }
        rest = after;
    }
    Err(TextFault::BadLine(order.len() + 2))
}

/// Does nothing. Its contract says that numbers of these types are below 4,294,967,296, as those of a certificate have
/// to be.
fn numbers_fit(order: &[u32], number: u32)
    ensures members { All (λ k. k < 2 ^ 32) order.now }
    ensures number { number < 2 ^ 32 }
{}

/// Answers the certificate of a forcing order and a verdict.
pub fn print_cert(alloc: Global, cert: &Cert) -> Result<Vec<u8>, AllocError>
    ensures text { IfOk result (λ text. text.items ≡ cert_text cert.now.order.items cert.now.verdict) }
    ensures numbers { IfOk result (λ _. IsCert cert.now.order.items cert.now.verdict) }
{
    let mut text = Vec::from_slice(alloc, b"Z80CERT 1\n")?;
    for k in &cert.order {
        push_line(&mut text, b"L ", *k)?;
    }
    let (word, number) = cert.verdict.parts();
    push_line(&mut text, word, number)?;
    numbers_fit(&cert.order, number);
    Ok(text)
}

/// Answers the forcing order and the verdict of a certificate.
///
/// # Errors
///
/// [`TextFault::BadLine`] with the first line that breaks the grammar, counted from 1: also the number of the line that
/// is missing, that has no line feed, or that comes after the last. [`TextFault::NoMemory`] if memory ran out.
pub fn read_cert(alloc: Global, text: &[u8]) -> Result<Cert, TextFault>
    // The answer is what the file has, unless memory ran out.
    ensures read { OrNoMemory (ReadsCert text.now) (answered_certificate result) }

    // A file has one value or one first bad line, so nothing else is answered.
    ensures only { (answer : Result (List ℕ × Verdict) TextFault) → ReadsCert text.now answer →
        (answered_certificate result ≡ answer) ⊎ (answered_certificate result ≡ Err TextFault.NoMemory) }
{
    cert_of(alloc, text)
}

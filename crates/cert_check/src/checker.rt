//! Checks a sizes file and a certificate against each other.

ghost use Rattle.std.specs.Prelude.{◌≡◌, ◌⊎◌, List, Result, IfOk};
ghost use Rattle.cert_check.specs.declared.shape.Statement.{Statement};
ghost use Rattle.cert_check.specs.declared.cert.Verdict.{Verdict};
ghost use Rattle.cert_check.specs.Choice.{IsShape};
ghost use Rattle.cert_check.specs.Texts.{sizes_text};
ghost use Rattle.cert_check.specs.Accepts.{HoldsOfEveryChoice};
ghost use Rattle.cert_check.specs.Types.{CheckFault};
ghost use Rattle.cert_check.specs.Checks.{Checks, IsChecked};

use crate::fault::CheckFault;
use crate::forced::follow;
use crate::laws::{accepted, one_answer};
use crate::layout::sizes_of;
use crate::verdict::judge;
use crate::{TextFault, Verdict, read_cert, read_sizes};
use std::alloc::Global;

/// Answers the verdict that the files prove, or their first error.
fn judged(alloc: Global, sizes: &[u8], cert: &[u8]) -> Result<Verdict, CheckFault>
    ensures { IsChecked sizes.now cert.now result }
{
    let shape = match read_sizes(alloc, sizes) {
        Ok(shape) => shape,
        Err(TextFault::BadLine(line)) => return Err(CheckFault::BadSizes(line)),
        Err(TextFault::NoMemory) => return Err(CheckFault::NoMemory),
    };
    let cert = match read_cert(alloc, cert) {
        Ok(cert) => cert,
        Err(TextFault::BadLine(line)) => return Err(CheckFault::BadCertificate(line)),
        Err(TextFault::NoMemory) => return Err(CheckFault::NoMemory),
    };
    let statements = shape.statements();
    let long = follow(alloc, statements, &cert.order)?;
    let sizes = sizes_of(alloc, statements, &long)?;
    judge(statements, &long, &sizes, cert.verdict)?;
    Ok(cert.verdict)
}

/// Checks a certificate against the sizes of a program, and answers what it proves. Testing one line takes constant
/// time, so the whole check takes time in proportion to the lengths of the two files.
///
/// # Errors
///
/// The first of these that is found: a bad line of the sizes file, then of the certificate; then, for each member of
/// the order, that it is not a relaxable jump, is named twice, or is not forced by those before it; then, for `BEST`,
/// the lowest jump that is short and does not reach its target, and a wrong total; for `RANGE`, a statement that is not
/// out of range; for `SIZE`, a wrong total. [`CheckFault::NoMemory`] if memory ran out, at any point.
pub fn check(alloc: Global, sizes: &[u8], cert: &[u8]) -> Result<Verdict, CheckFault>
    // The answer is what the files prove, unless memory ran out: a verdict that the certificate shows, or the first
    // error.
    ensures answer { IsChecked sizes.now cert.now result }

    // The files prove one thing only, so nothing else is answered.
    ensures only { (answer : Result Verdict CheckFault) → Checks sizes.now cert.now answer →
        (result ≡ answer) ⊎ (result ≡ Err CheckFault.NoMemory) }

    // Whoever made the files, a verdict holds of every choice of the shape that the sizes file has.
    ensures verdict { IfOk result (λ verdict. (shape : List Statement) → IsShape shape → sizes.now ≡ sizes_text shape →
        HoldsOfEveryChoice shape verdict) }
{
    // Laws: they do nothing, and the clauses `only` and `verdict` follow from their contracts.
    one_answer();
    accepted();
    judged(alloc, sizes, cert)
}

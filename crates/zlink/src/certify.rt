//! Makes the sizes file and the certificate of a program.

ghost use Rattle.std.specs.Prelude.{◌≡◌, IfOk, map};
ghost use Rattle.relax.specs.Choice.{IsShape};
ghost use Rattle.relax.specs.Growth.{IsGrowth};
ghost use Rattle.cert_check.specs.Choice.{IsShape as IsToldShape};
ghost use Rattle.zlink.specs.Certified.{IsCertified, told_size, told_verdict};

use cert_check::{Cert, print_cert, print_sizes};
use relax::Growth;
use std::alloc::{AllocError, Global};

/// A sizes file and its certificate.
#[derive(Drop)]
pub(crate) struct Texts {
    pub(crate) sizes: Vec<u8>,
    pub(crate) cert: Vec<u8>,
}

/// Converts a statement's size to the checker's type.
fn tell(statement: relax::Statement) -> cert_check::Statement
    ensures { result ≡ told_size statement }
{
    match statement {
        relax::Statement::Fixed(size) => cert_check::Statement::Fixed(size),
        relax::Statement::Jump(target) => cert_check::Statement::Jump(target),
        relax::Statement::Short(target) => cert_check::Statement::Short(target),
    }
}

/// Converts a verdict to the checker's type.
fn tell_verdict(verdict: relax::Verdict) -> cert_check::Verdict
    ensures { result ≡ told_verdict verdict }
{
    match verdict {
        relax::Verdict::Best(total) => cert_check::Verdict::Best(total),
        relax::Verdict::Range(statement) => cert_check::Verdict::Range(statement),
        relax::Verdict::TooLarge(total) => cert_check::Verdict::TooLarge(total),
    }
}

/// Converts a shape to the checker's type.
fn tell_shape(alloc: Global, shape: &relax::Shape) -> Result<cert_check::Shape, AllocError>
    ensures { IfOk result (λ s. s ≡ map told_size shape.now) }
{
    let told = shape.statements();
    let mut statements = Vec::with_capacity(alloc, told.len())?;
    for statement in told {
        statements.push(tell(*statement))?;
    }
    Ok(cert_check::Shape::new(statements))
}

/// Makes the sizes file of a shape, and the certificate with the order and the verdict of its growth.
pub(crate) fn certify(
    alloc: Global,
    shape: &relax::Shape,
    growth: &Growth,
) -> Result<Texts, AllocError>
    requires { IsGrowth shape.now growth.now }
    ensures { IfOk result (λ t. IsCertified shape.now growth.now.order.items growth.now.verdict t.sizes.items t.cert.items) }
{
    let told = tell_shape(alloc, shape)?;
    let cert = Cert {
        order: growth.order.to_vec(alloc)?,
        verdict: tell_verdict(growth.verdict),
    };
    Ok(Texts {
        sizes: print_sizes(alloc, &told)?,
        cert: print_cert(alloc, &cert)?,
    })
}

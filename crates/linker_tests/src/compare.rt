//! Compares `least` with `grow` over a counting ruler, and with the plain scan.

ghost use Rattle.std.specs.Prelude.{◌≡◌, IfOk};

use crate::counted::Counted;
use crate::scan::scan;
use relax::{Growth, Shape, Statement, Sums, grow, least};
use std::alloc::Global;
use std::process::Abort;
use std::test::Fail;

/// Answers the shape of these statements, or a failed test.
pub(crate) fn shape_of(alloc: Global, statements: &[Statement]) -> Result<Shape, Fail>
    ensures { IfOk result (λ s. s ≡ statements.now) }
{
    if !Shape::is_shape(statements) {
        return Err(Fail::from("no shape"));
    }
    Ok(Shape::new(statements.to_vec(alloc)?))
}

/// Answers what `least` does, if `grow` over a counting ruler gives the same order and asks the ruler as often.
pub(crate) fn grown(
    rt: &impl Abort,
    alloc: Global,
    statements: &[Statement],
) -> Result<Growth, Fail> {
    let shape = shape_of(alloc, statements)?;
    let growth = least(alloc, &shape)?;
    let mut ruler = Counted::new(Sums::new(alloc, &shape)?);
    let order = grow(alloc, &mut ruler)?;
    assert!(rt; order.as_slice() == growth.order.as_slice());
    assert_eq!(rt; ruler.tests, growth.probes);
    assert_eq!(rt; ruler.growths, growth.order.len() as u64);
    Ok(growth)
}

/// Answers the same, if the plain scan finds this order and this verdict too.
pub(crate) fn scanned(
    rt: &impl Abort,
    alloc: Global,
    statements: &[Statement],
) -> Result<Growth, Fail> {
    let growth = grown(rt, alloc, statements)?;
    let scanned = scan(alloc, statements)?;
    assert!(rt;
        scanned.order.as_slice() == growth.order.as_slice(),
        "{statements:?}"
    );
    assert!(rt; scanned.verdict == growth.verdict, "{statements:?}");
    Ok(growth)
}

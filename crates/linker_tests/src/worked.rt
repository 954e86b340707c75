//! The programs of the rows `least` of `format_rows`, which say what is expected.

ghost use Rattle.std.specs.Prelude.{◌≡◌};

use crate::compare::{scanned, shape_of};
use crate::counted::Counted;
use relax::Statement::{Fixed, Jump, Short};
use relax::{Statement, Sums, grow};
use std::alloc::Global;
use std::test::Fail;

/// Parses a statement: F and its size, or J or S and its target.
fn statement_of(word: &str) -> Result<Statement, Fail> {
    if let Some(number) = word.strip_prefix("J") {
        return Ok(Jump(u32::from_str_radix(number, 10)?));
    }
    if let Some(number) = word.strip_prefix("S") {
        return Ok(Short(u32::from_str_radix(number, 10)?));
    }
    let number = word.strip_prefix("F").unwrap_or(word);
    Ok(Fixed(u16::from_str_radix(number, 10)?))
}

fn statements_of(alloc: Global, text: &str) -> Result<Vec<Statement>, Fail> {
    let mut statements = Vec::new(alloc);
    for word in text.split_terminator(' ') {
        statements.push(statement_of(word)?)?;
    }
    Ok(statements)
}

#[test]
fn worked_programs(rt: HostRuntime) -> Result<(), Fail> {
    for text in [
        "",
        "J2 F127 F1",
        "J2 F128 F1",
        "F126 J0",
        "F127 J0",
        "J3 F125 J4 F128 F1",
        "J4 F124 J0 F1",
        "F64510 J1",
        "S3 F125 J4 F128 F1",
        "S2 F128",
        "J4 S4 F129 S1",
        "F64511 J1",
        "F65535 S0",
        "F65535 F65535 F1",
    ] {
        let statements = statements_of(rt.alloc(), text)?;
        let _growth = scanned(&rt, rt.alloc(), &statements)?;
    }
    Ok(())
}

/// If memory is refused to it, `grow` leaves the ruler as it was, so it works the second time.
#[test]
fn grows_after_a_refusal(rt: HostRuntime) -> Result<(), Fail> {
    let statements = [Jump(3), Fixed(125), Jump(4), Fixed(128), Fixed(1)];
    let shape = shape_of(rt.alloc(), &statements)?;
    let mut ruler = Counted::new(Sums::new(rt.alloc(), &shape)?);
    let order = match grow(rt.alloc(), &mut ruler) {
        Ok(order) => order,
        Err(_) => {
            assert_eq!(rt; ruler.tests, 0);
            assert_eq!(rt; ruler.growths, 0);
            grow(rt.alloc(), &mut ruler)?
        }
    };
    assert_eq!(rt; order.as_slice(), [2, 0].as_slice());
    assert_eq!(rt; ruler.tests, 3);
    assert_eq!(rt; ruler.growths, 2);
    Ok(())
}

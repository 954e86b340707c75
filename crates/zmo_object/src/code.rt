//! Codes of one byte in an object file: conditions, branches and widths.

ghost use Rattle.std.specs.Prelude.{◌≡◌};
ghost use Rattle.zmo_object.specs.Fields.Field.{FieldReturns, code_field};
ghost use Rattle.zmo_object.specs.Codes.{branch_code, branch_of, jump_condition_code, condition_of, width_code, width_of};

use crate::field::byte;
use crate::field_fault::FieldFault;
use crate::{Branch, ShortCond, Width};

/// The conditions of a relaxable jump, in the order of their codes.
pub const CONDITIONS: [Option<ShortCond>; 5] = [
    None,
    Some(ShortCond::NotZero),
    Some(ShortCond::Zero),
    Some(ShortCond::NotCarry),
    Some(ShortCond::Carry),
];

/// The branches of jumps that are always short, in the order of their codes.
pub const BRANCHES: [Branch; 6] = [
    Branch::Relative(None),
    Branch::Relative(Some(ShortCond::NotZero)),
    Branch::Relative(Some(ShortCond::Zero)),
    Branch::Relative(Some(ShortCond::NotCarry)),
    Branch::Relative(Some(ShortCond::Carry)),
    Branch::CountDown,
];

pub(crate) fn condition_code(condition: Option<ShortCond>) -> u8
    ensures { result ≡ jump_condition_code condition }
{
    match condition {
        None => 0,
        Some(ShortCond::NotZero) => 1,
        Some(ShortCond::Zero) => 2,
        Some(ShortCond::NotCarry) => 3,
        Some(ShortCond::Carry) => 4,
    }
}

pub(crate) fn branch_code(branch: Branch) -> u8
    ensures { result ≡ branch_code branch }
{
    match branch {
        Branch::Relative(condition) => condition_code(condition),
        Branch::CountDown => 5,
    }
}

pub(crate) fn width_code(width: Width) -> u8
    ensures { result ≡ width_code width }
{
    match width {
        Width::Byte => 1,
        Width::Word => 2,
    }
}

pub(crate) fn condition(bytes: &[u8]) -> Result<(Option<ShortCond>, &[u8]), FieldFault>
    ensures { FieldReturns (λ x. (x.0, x.1.now)) result (code_field condition_of bytes.now) }
{
    let (code, rest) = byte(bytes)?;
    match CONDITIONS.get(usize::from(code)) {
        Some(condition) => Ok((*condition, rest)),
        None => Err(FieldFault::BadField(bytes.len())),
    }
}

/// Answers the branch that has this code. With `--grow` only `DJNZ` is always short.
fn branch_of(grow: bool, code: u8) -> Option<Branch>
    ensures { result ≡ branch_of grow code }
{
    if grow && code != 5 {
        return None;
    }
    BRANCHES.get(usize::from(code)).copied()
}

pub(crate) fn branch(grow: bool, bytes: &[u8]) -> Result<(Branch, &[u8]), FieldFault>
    ensures { FieldReturns (λ x. (x.0, x.1.now)) result (code_field (branch_of grow) bytes.now) }
{
    let (code, rest) = byte(bytes)?;
    match branch_of(grow, code) {
        Some(branch) => Ok((branch, rest)),
        None => Err(FieldFault::BadField(bytes.len())),
    }
}

fn width_of(code: u8) -> Option<Width>
    ensures { result ≡ width_of code }
{
    if code == 1 {
        Some(Width::Byte)
    } else if code == 2 {
        Some(Width::Word)
    } else {
        None
    }
}

pub(crate) fn width(bytes: &[u8]) -> Result<(Width, &[u8]), FieldFault>
    ensures { FieldReturns (λ x. (x.0, x.1.now)) result (code_field width_of bytes.now) }
{
    let (code, rest) = byte(bytes)?;
    match width_of(code) {
        Some(width) => Ok((width, rest)),
        None => Err(FieldFault::BadField(bytes.len())),
    }
}

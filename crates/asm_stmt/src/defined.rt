//! Tests whether the names in operands stand for something.

ghost use Rattle.std.specs.Prelude.{◌≡◌, ◌↔◌, IsTrue, option_copied};
ghost use Rattle.std.specs.List.{list_all};
ghost use Rattle.asm_expr.specs.Settling.{is_known};
ghost use Rattle.asm_spell.specs.Line.{body_of, value_of};
ghost use Rattle.asm_stmt.specs.Made.{AreDefined};
ghost use Rattle.asm_stmt.specs.Private.Defined.{fill_defined, is_defined, operands_defined, value_defined};

use asm_expr::{Names, Tree};
use asm_spell::{Body, Value};
use z80_form::Field;

fn is_defined(tree: &Tree, names: &Names) -> bool
    ensures { result ≡ is_defined names.now tree.now }
{
    asm_expr::is_defined(tree, names)
}

fn numbers_defined(numbers: &[(Field, Tree)], names: &Names) -> bool
    ensures { result ≡ list_all (λ n. is_defined names.now n.1) numbers.now }
{
    numbers.iter().all(|number| is_defined(&number.1, names))
}

fn value_defined(value: &Value, names: &Names) -> bool
    ensures { result ≡ value_defined names.now (value_of value.now) }
{
    match value {
        Value::Text(_) => true,
        Value::Byte(tree) => is_defined(tree, names),
    }
}

fn values_defined(values: &[Value], names: &Names) -> bool
    ensures { result ≡ list_all (λ v. value_defined names.now (value_of v)) values.now }
{
    values.iter().all(|value| value_defined(value, names))
}

fn fields_defined(fields: &[Tree], names: &Names) -> bool
    ensures { result ≡ list_all (is_defined names.now) fields.now }
{
    fields.iter().all(|tree| is_defined(tree, names))
}

fn fill_defined(fill: Option<&Tree>, names: &Names) -> bool
    ensures { result ≡ fill_defined names.now (option_copied fill.entry) }
{
    match fill {
        Some(tree) => is_defined(tree, names),
        None => true,
    }
}

fn operands_defined(body: &Body, names: &Names) -> bool
    ensures { result ≡ operands_defined names.now (body_of body.now) }
{
    match body {
        Body::Code { instr: _, numbers } => numbers_defined(numbers.as_slice(), names),
        Body::Jump {
            condition: _,
            target,
        } => names.meaning(target).is_some(),
        Body::Short { branch: _, target } => names.meaning(target).is_some(),
        Body::Bytes(values) => values_defined(values, names),
        Body::Words(fields) => fields_defined(fields, names),
        Body::Space { size, fill } => {
            is_defined(size, names) && fill_defined(fill.as_ref(), names)
        }
        Body::Origin(tree) => is_defined(tree, names),
        Body::Public(_) | Body::External(_) | Body::End(_) | Body::Z80 => true,
    }
}

/// Whether each name in the operands stands for something, as [`settle`](crate::settle) requires. The names that `PUBLIC`, `EXTRN` and
/// `END` list are not operands.
pub fn are_defined(body: &Body, names: &Names) -> bool
    ensures { IsTrue result ↔ AreDefined names.now (body_of body.now) }
{
    operands_defined(body, names)
}

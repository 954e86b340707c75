//! Parses instructions.

ghost use Rattle.std.specs.Prelude.{◌≡◌, ◌∷◌, [], IfOk, Some};
ghost use Rattle.std.specs.List.{cons_option};
ghost use Rattle.std.specs.Option.{option_and_then, option_map};
ghost use Rattle.asm_line.specs.Tokens.{lexemes};
ghost use Rattle.z80_form.specs.Numbers.{field_of};
ghost use Rattle.asm_parse.specs.Few.{all};
ghost use Rattle.asm_spell.specs.Faults.{Gives, each};
ghost use Rattle.asm_spell.specs.Line.{body_of};
ghost use Rattle.asm_spell.specs.Operands.{pieces, written_operand};
ghost use Rattle.asm_spell.specs.Spelling.{instruction, instruction_by, jump_to, only_name, field_expression, target_by};
ghost use Rattle.asm_spell.specs.Private.Choices.{jumps};
ghost use Rattle.asm_spell.specs.Private.Cutting.{holds, with_others};

use crate::cut::{Operand, each_left, first_operand};
use crate::fault::StmtFault;
use crate::jump::{Jump, jump_of};
use crate::line::Body;
use crate::operand::Written;
use asm_line::Token;
use asm_parse::{Few, Item, TermView, Tree};
use std::alloc::{AllocError, Global};
use z80_form::{Field, Mnemonic, field_of};
use z80_instr::Instr;

/// The name, if an expression is only one name.
fn name_in(tree: &Tree) -> Option<&[u8]>
    ensures { option_map (λ name. name.now) result ≡ only_name (Some tree.now) }
{
    match tree.items() {
        [Item::Leaf(term)] => match term.view() {
            TermView::Name(name) => Some(name),
            TermView::Number(_) | TermView::Here => None,
        },
        _ => None,
    }
}

/// The name, if an operand is only one name.
fn target_by(operand: &Written) -> Option<&[u8]>
    ensures { option_map (λ name. name.now) result ≡ target_by (holds operand.now) }
{
    match &operand.expression {
        Some(tree) if operand.is_name => name_in(tree),
        _ => None,
    }
}

/// The kind of jump and its target, if the instruction with this last operand is a jump to one name.
fn jump(instr: Instr, last: &Written) -> Option<(Jump, &[u8])>
    ensures { option_map (λ to. jumps to.0 to.1.now) result ≡ option_and_then (jump_to instr) (target_by (holds last.now)) }
{
    match jump_of(instr) {
        Some(jump) => target_by(last).map(|name| (jump, name)),
        None => None,
    }
}

/// The expression of an operand and the field of the instruction that it fills, if it has one.
fn number(instr: Instr, operand: Written) -> Option<(Field, Tree)>
    ensures { result ≡ field_expression (field_of instr operand.form) operand.expression }
{
    match (field_of(instr, operand.form), operand.expression) {
        (Some(field), Some(tree)) => Some((field, tree)),
        _ => None,
    }
}

/// The expressions of two operands and the fields that they fill.
fn numbers(
    alloc: Global,
    first: Option<(Field, Tree)>,
    second: Option<(Field, Tree)>,
) -> Result<Few<(Field, Tree)>, AllocError>
    ensures { IfOk result (λ found. all found ≡ cons_option first (cons_option second [])) }
{
    match (first, second) {
        (Some(first), Some(second)) => Ok(Few::Many(Vec::from_array(alloc, [first, second])?)),
        (Some(only), None) | (None, Some(only)) => Ok(Few::One([only])),
        (None, None) => Ok(Few::Many(Vec::new(alloc))),
    }
}

/// The instruction that a mnemonic without operands names.
fn bare(alloc: Global, mnemonic: Mnemonic) -> Result<Body, StmtFault>
    ensures { Gives body_of result (instruction_by mnemonic []) }
{
    match z80_form::instruction(mnemonic, &[]) {
        Some(instr) => Ok(Body::Code {
            instr,
            numbers: Few::Many(Vec::new(alloc)),
        }),
        None => Err(StmtFault::BadOperands),
    }
}

/// The instruction or jump that a mnemonic with one operand names.
fn with_one(alloc: Global, mnemonic: Mnemonic, only: Written) -> Result<Body, StmtFault>
    ensures { Gives body_of result (instruction_by mnemonic (holds only ∷ [])) }
{
    let Some(instr) = z80_form::instruction(mnemonic, &[only.form]) else {
        return Err(StmtFault::BadOperands);
    };
    if let Some((jump, name)) = jump(instr, &only) {
        return Ok(jump.to(Vec::from_slice(alloc, name)?));
    }
    let numbers = match number(instr, only) {
        Some(found) => Few::One([found]),
        None => Few::Many(Vec::new(alloc)),
    };
    Ok(Body::Code { instr, numbers })
}

/// The instruction or jump that a mnemonic with two operands names.
fn with_two(
    alloc: Global,
    mnemonic: Mnemonic,
    left: Written,
    right: Written,
) -> Result<Body, StmtFault>
    ensures { Gives body_of result (instruction_by mnemonic (holds left ∷ holds right ∷ [])) }
{
    let Some(instr) = z80_form::instruction(mnemonic, &[left.form, right.form]) else {
        return Err(StmtFault::BadOperands);
    };
    if let Some((jump, name)) = jump(instr, &right) {
        return Ok(jump.to(Vec::from_slice(alloc, name)?));
    }
    let numbers = numbers(alloc, number(instr, left), number(instr, right))?;
    Ok(Body::Code { instr, numbers })
}

/// Parses the remaining operands of a mnemonic, after the comma of the first, and answers the instruction or jump.
fn with_more(
    alloc: Global,
    mnemonic: Mnemonic,
    left: Written,
    tokens: &[Token<'_>],
) -> Result<Body, StmtFault>
    ensures { Gives body_of result (with_others mnemonic (holds left) (each written_operand (pieces 0 (lexemes tokens.entry.now)))) }
{
    let (operand, behind) = first_operand(tokens);
    let right = Written::read(alloc, operand)?;
    if behind.is_none() {
        return with_two(alloc, mnemonic, left, right);
    }
    // An error in an operand is reported before the error that there are too many.
    let _others: Vec<Written> = each_left(alloc, behind)?;
    // Called for its clause: no instruction has three operands.
    z80_form::laws::spelled();
    Err(StmtFault::BadOperands)
}

/// Parses an instruction, given its mnemonic and the tokens after it.
pub(crate) fn instruction(
    alloc: Global,
    mnemonic: Mnemonic,
    tokens: &[Token<'_>],
) -> Result<Body, StmtFault>
    ensures { Gives body_of result (instruction mnemonic (lexemes tokens.entry.now)) }
{
    if tokens.is_empty() {
        return bare(alloc, mnemonic);
    }
    let (operand, behind) = first_operand(tokens);
    let first = Written::read(alloc, operand)?;
    match behind {
        Some(rest) => with_more(alloc, mnemonic, first, rest),
        None => with_one(alloc, mnemonic, first),
    }
}

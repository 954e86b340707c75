//! What instructions and jumps make.

ghost use Rattle.std.specs.Prelude.{◌≡◌, ◌≢◌, ◌++◌, ◌∷◌, [], All, List, None, OnOk, option_copied};
ghost use Rattle.z80_form.specs.declared.field.Field.{Field};
ghost use Rattle.asm_expr.specs.Names.{found};
ghost use Rattle.asm_spell.specs.Faults.{Gives};
ghost use Rattle.asm_stmt.specs.Made.{Fillings, IsDefined, code, coded, jump_by, long_jump, made_of, ref_of, short_by, widened, field_width};
ghost use Rattle.zmo_object.specs.Holes.{width_size};
ghost use Rattle.asm_stmt.specs.Fields.{IsAllowed};
ghost use Rattle.asm_stmt.specs.Private.Laying.{Codes};

use crate::cell::Filling;
use crate::data::{number_or_0, put_hole, still_told};
use crate::field::fill;
use crate::piece::{Made, Piece};
use asm_expr::{Meaning, Names, Tree};
use asm_spell::{Branch, StmtFault};
use std::alloc::{AllocError, Global};
use z80_form::{Field, with_number};
use z80_instr::{Cond, Instr, ShortCond, encode, size};
use zmo_object::{Hole, Width};

/// Answers how many bytes a number takes, if its value may depend on addresses.
fn width_of(field: Field) -> Width
    ensures { result ≡ field_width field }
{
    match field {
        Field::Word => Width::Word,
        _ => Width::Byte,
    }
}

fn size_of(width: Width) -> usize
    ensures { result ≡ width_size width }
{
    match width {
        Width::Byte => 1,
        Width::Word => 2,
    }
}

/// An instruction with some of its numbers put in.
#[derive(Drop)]
struct Coded {
    instr: Instr,
    size: usize,
    holes: Vec<Hole>,
    /// Whether the value of each number is known, or a fix-up stands for it.
    told: bool,
}

impl Coded {
    ghost use Rattle.std.specs.Prelude.{◌≡◌, ◌++◌, ◌∷◌, [], IfOk, List, OnOk};
    ghost use Rattle.z80_instr.specs.declared.Instr.{Instr};
    ghost use Rattle.asm_spell.specs.Faults.{Gives};
    ghost use Rattle.asm_stmt.specs.Fields.{IsAllowed};
    ghost use Rattle.asm_stmt.specs.Made.{Fillings, coded, made_of};
    ghost use Rattle.asm_stmt.specs.Private.Laying.{Codes};

    fn new(alloc: Global, instr: Instr) -> Coded
        ensures { Codes instr [] result }
    {
        Coded {
            instr,
            size: usize::from(size(&instr)),
            holes: Vec::new(alloc),
            told: true,
        }
    }

    /// Puts a number in. One that depends on addresses takes the last bytes of the instruction.
    fn put(&mut self, field: Field, filling: Filling) -> Result<(), AllocError>
        requires { IsAllowed field filling }
        ensures { (instr : Instr) (numbers : Fillings) → Codes instr numbers self.old → OnOk result (Codes instr (numbers ++ (field, filling) ∷ []) self.new) }
    {
        self.instr = with_number(self.instr, field, number_or_0(&filling));
        self.told = still_told(self.told, &filling);
        let width = width_of(field);
        let offset = self.size.saturating_sub(size_of(width));
        put_hole(&mut self.holes, offset, width, filling)?;
        Ok(())
    }

    /// Answers what the instruction makes.
    fn made(self, alloc: Global) -> Result<Made, AllocError>
        ensures { (instr : Instr) (numbers : Fillings) → Codes instr numbers self → IfOk result (λ made. made_of made ≡ coded instr numbers) }
    {
        if !self.told {
            return Ok(Made::Unknown);
        }
        let mut out = [0; 4];
        let len = usize::from(encode(&self.instr, &mut out));
        let bytes = Vec::from_slice(alloc, &out[..len])?;
        Ok(Made::Piece(Piece::Bytes {
            bytes,
            holes: self.holes,
        }))
    }
}

/// Answers what an instruction makes, given its numbers.
pub(crate) fn code(
    alloc: Global,
    instr: Instr,
    numbers: &[(Field, Tree)],
    names: &Names,
) -> Result<Made, StmtFault>
    requires { All (λ n. IsDefined names.now n.1) numbers.now }
    ensures { Gives made_of result (code names.now instr numbers.entry.now) }
{
    let mut coded = Coded::new(alloc, instr);
    for (field, tree) in numbers {
        coded.put(*field, fill(alloc, *field, tree, names)?)?;
    }
    Ok(coded.made(alloc)?)
}

/// Answers the condition of a short jump as a condition of a long jump.
fn widened(condition: ShortCond) -> Cond
    ensures { result ≡ widened condition }
{
    match condition {
        ShortCond::NotZero => Cond::NotZero,
        ShortCond::Zero => Cond::Zero,
        ShortCond::NotCarry => Cond::NotCarry,
        ShortCond::Carry => Cond::Carry,
    }
}

/// Answers the JP to an address.
pub fn long_jump(condition: Option<ShortCond>, to: u16) -> Instr
    ensures { result ≡ long_jump condition to }
{
    match condition {
        None => Instr::Jump(to),
        Some(condition) => Instr::JumpIf(widened(condition), to),
    }
}

/// Answers the ref of a label or an external, or None for any other name.
pub(crate) fn ref_of(meaning: Option<&Meaning>) -> Option<u16>
    ensures { result ≡ ref_of (option_copied meaning.entry) }
{
    match meaning {
        Some(Meaning::Label(r) | Meaning::External(r)) => Some(*r),
        _ => None,
    }
}

/// Answers what JP to a name makes: a relaxable jump if the name is a label or an external, otherwise an instruction of three bytes.
pub(crate) fn jump(
    alloc: Global,
    condition: Option<ShortCond>,
    target: &[u8],
    names: &Names,
) -> Result<Made, StmtFault>
    requires { found names.now target.now ≢ None }
    ensures { Gives made_of result (jump_by (ref_of (found names.now target.now)) names.now condition target.now) }
{
    match ref_of(names.meaning(target)) {
        Some(target) => Ok(Made::Piece(Piece::Jump { condition, target })),
        None => {
            let tree = Tree::name(alloc, target)?;
            code(
                alloc,
                long_jump(condition, 0),
                &[(Field::Word, tree)],
                names,
            )
        }
    }
}

/// Answers what JR or DJNZ to a name makes.
pub(crate) fn short(branch: Branch, target: &[u8], names: &Names) -> Result<Made, StmtFault>
    ensures { Gives made_of result (short_by (ref_of (found names.now target.now)) branch) }
{
    match ref_of(names.meaning(target)) {
        Some(target) => Ok(Made::Piece(Piece::Short { branch, target })),
        None => Err(StmtFault::ShortNeedsLabel),
    }
}

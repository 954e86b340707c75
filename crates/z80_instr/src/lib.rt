//! The documented instructions of the Zilog Z80 as values, and the bytes of each.
//!
//! The terms and the order are those of the Z80 CPU User Manual (UM0080). Every value of [`Instr`]
//! is a documented instruction: forms that the manual does not have cannot be written.
#![tactic(auto)]

mod code;
mod encoding;
pub mod laws;
mod length;
mod mnemonic;
mod number;
mod put;

pub use encoding::encode;
pub use length::size;

/// An 8-bit register: the manual's r.
#[derive(Clone, Copy, Debug, PartialEq, Eq)]
pub enum Register {
    B,
    C,
    D,
    E,
    H,
    L,
    A,
}

/// An index register.
#[derive(Clone, Copy, Debug, PartialEq, Eq)]
pub enum IndexRegister {
    Ix,
    Iy,
}

/// A byte in memory that most 8-bit operations can take in the place of a register.
#[derive(Clone, Copy, Debug, PartialEq, Eq)]
pub enum Memory {
    /// The byte at HL: `(HL)`.
    Hl,
    /// The byte at an index register and a displacement: `(IX+d)`, `(IY+d)`.
    Indexed(IndexRegister, i8),
}

/// An 8-bit operand: the manual's m, and its s without n.
#[derive(Clone, Copy, Debug, PartialEq, Eq)]
pub enum Operand {
    Register(Register),
    Memory(Memory),
}

/// A byte in memory that only A can be loaded from or stored to.
#[derive(Clone, Copy, Debug, PartialEq, Eq)]
pub enum Pointer {
    /// `(BC)`
    Bc,
    /// `(DE)`
    De,
    /// `(nn)`
    Address(u16),
}

/// A register pair, or the stack pointer: the manual's dd and ss.
#[derive(Clone, Copy, Debug, PartialEq, Eq)]
pub enum RegisterPair {
    Bc,
    De,
    Hl,
    Sp,
}

/// A 16-bit register that LD, INC and DEC can have.
#[derive(Clone, Copy, Debug, PartialEq, Eq)]
pub enum WordRegister {
    Pair(RegisterPair),
    Index(IndexRegister),
}

/// HL, or an index register in its place.
#[derive(Clone, Copy, Debug, PartialEq, Eq)]
pub enum HlOrIndex {
    Hl,
    Index(IndexRegister),
}

/// What ADD IX and ADD IY add: the manual's pp and rr.
#[derive(Clone, Copy, Debug, PartialEq, Eq)]
pub enum Addend {
    Bc,
    De,
    /// The index register itself: `ADD IX,IX`.
    Itself,
    Sp,
}

/// What PUSH and POP take: the manual's qq, and the index registers.
#[derive(Clone, Copy, Debug, PartialEq, Eq)]
pub enum StackOperand {
    Bc,
    De,
    Hl,
    Af,
    Index(IndexRegister),
}

/// A condition of the flags: the manual's cc.
#[derive(Clone, Copy, Debug, PartialEq, Eq)]
pub enum Cond {
    NotZero,
    Zero,
    NotCarry,
    Carry,
    ParityOdd,
    ParityEven,
    Plus,
    Minus,
}

/// A condition that JR can have.
#[derive(Clone, Copy, Debug, PartialEq, Eq)]
pub enum ShortCond {
    NotZero,
    Zero,
    NotCarry,
    Carry,
}

/// The kind of a jump that is always short.
#[derive(Clone, Copy, Debug, PartialEq, Eq)]
pub enum Branch {
    /// `JR`, with its condition if it has one.
    Relative(Option<ShortCond>),
    /// `DJNZ`
    CountDown,
}

/// An operation of the arithmetic and logic unit on A and a byte.
#[derive(Clone, Copy, Debug, PartialEq, Eq)]
pub enum AluOperation {
    Add,
    Adc,
    Sub,
    Sbc,
    And,
    Xor,
    Or,
    Cp,
}

/// A rotation or a shift of a byte.
#[derive(Clone, Copy, Debug, PartialEq, Eq)]
pub enum Rotation {
    Rlc,
    Rrc,
    Rl,
    Rr,
    Sla,
    Sra,
    Srl,
}

/// A number of three bits, 0 to 7: the number of a bit, a restart address divided by 8, a field of
/// an opcode.
#[derive(Clone, Copy, Debug, PartialEq, Eq)]
pub enum Octal {
    Zero,
    One,
    Two,
    Three,
    Four,
    Five,
    Six,
    Seven,
}

/// An interrupt mode.
#[derive(Clone, Copy, Debug, PartialEq, Eq)]
pub enum InterruptMode {
    Zero,
    One,
    Two,
}

/// What a block instruction does with each byte.
#[derive(Clone, Copy, Debug, PartialEq, Eq)]
pub enum BlockOperation {
    /// From (HL) to (DE).
    Load,
    /// A with (HL).
    Compare,
    /// From port C to (HL).
    Input,
    /// From (HL) to port C.
    Output,
}

/// Whether a block instruction counts up or down, and whether it repeats.
#[derive(Clone, Copy, Debug, PartialEq, Eq)]
pub enum BlockStep {
    Increment,
    Decrement,
    IncrementRepeat,
    DecrementRepeat,
}

/// A documented instruction with its numbers, by the groups of the manual.
///
/// A number n is a `u8`, an address or a word nn a `u16`. A displacement d and a relative distance e
/// are `i8`: e counts from the instruction that follows.
#[derive(Clone, Copy, Debug, PartialEq, Eq)]
pub enum Instr {
    // 8-bit load group
    /// `LD r,r'`, `LD r,(HL)`, `LD r,(IX+d)`
    Load(Register, Operand),
    /// `LD (HL),r`, `LD (IX+d),r`
    Store(Memory, Register),
    /// `LD r,n`, `LD (HL),n`, `LD (IX+d),n`
    LoadByte(Operand, u8),
    /// `LD A,(BC)`, `LD A,(DE)`, `LD A,(nn)`
    LoadA(Pointer),
    /// `LD (BC),A`, `LD (DE),A`, `LD (nn),A`
    StoreA(Pointer),
    /// `LD A,I`
    LoadAFromI,
    /// `LD A,R`
    LoadAFromR,
    /// `LD I,A`
    LoadIFromA,
    /// `LD R,A`
    LoadRFromA,

    // 16-bit load group
    /// `LD dd,nn`, `LD IX,nn`
    LoadWord(WordRegister, u16),
    /// `LD HL,(nn)`, `LD dd,(nn)`, `LD IX,(nn)`
    LoadWordFrom(WordRegister, u16),
    /// `LD (nn),HL`, `LD (nn),dd`, `LD (nn),IX`
    StoreWord(WordRegister, u16),
    /// `LD SP,HL`, `LD SP,IX`
    LoadSp(HlOrIndex),
    /// `PUSH qq`, `PUSH IX`
    Push(StackOperand),
    /// `POP qq`, `POP IX`
    Pop(StackOperand),

    // Exchange, block transfer, and search group
    /// `EX DE,HL`
    ExDeHl,
    /// `EX AF,AF'`
    ExAf,
    /// `EXX`
    Exx,
    /// `EX (SP),HL`, `EX (SP),IX`
    ExSp(HlOrIndex),
    /// `LDI`, `LDIR`, `LDD`, `LDDR`, `CPI` .. `CPDR`, and `INI` .. `OTDR` of the input and output
    /// group
    Block(BlockOperation, BlockStep),

    // 8-bit arithmetic group
    /// `ADD A,r`, `ADD A,(HL)`, `ADD A,(IX+d)`, and so `ADC`, `SUB`, `SBC`, `AND`, `OR`, `XOR`, `CP`
    Alu(AluOperation, Operand),
    /// `ADD A,n`, and so the others
    AluByte(AluOperation, u8),
    /// `INC r`, `INC (HL)`, `INC (IX+d)`
    Inc(Operand),
    /// `DEC r`, `DEC (HL)`, `DEC (IX+d)`
    Dec(Operand),

    // General-purpose arithmetic and CPU control groups
    /// `DAA`
    Daa,
    /// `CPL`
    Cpl,
    /// `NEG`
    Neg,
    /// `CCF`
    Ccf,
    /// `SCF`
    Scf,
    /// `NOP`
    Nop,
    /// `HALT`
    Halt,
    /// `DI`
    Di,
    /// `EI`
    Ei,
    /// `IM 0`, `IM 1`, `IM 2`
    Im(InterruptMode),

    // 16-bit arithmetic group
    /// `ADD HL,ss`
    AddHl(RegisterPair),
    /// `ADC HL,ss`
    AdcHl(RegisterPair),
    /// `SBC HL,ss`
    SbcHl(RegisterPair),
    /// `ADD IX,pp`, `ADD IY,rr`
    AddIndex(IndexRegister, Addend),
    /// `INC ss`, `INC IX`
    IncWord(WordRegister),
    /// `DEC ss`, `DEC IX`
    DecWord(WordRegister),

    // Rotate and shift group
    /// `RLCA`
    Rlca,
    /// `RLA`
    Rla,
    /// `RRCA`
    Rrca,
    /// `RRA`
    Rra,
    /// `RLC r`, `RLC (HL)`, `RLC (IX+d)`, and so `RL`, `RRC`, `RR`, `SLA`, `SRA`, `SRL`
    Rotate(Rotation, Operand),
    /// `RLD`
    Rld,
    /// `RRD`
    Rrd,

    // Bit set, reset, and test group
    /// `BIT b,r`, `BIT b,(HL)`, `BIT b,(IX+d)`
    Bit(Octal, Operand),
    /// `SET b,r`, `SET b,(HL)`, `SET b,(IX+d)`
    Set(Octal, Operand),
    /// `RES b,r`, `RES b,(HL)`, `RES b,(IX+d)`
    Res(Octal, Operand),

    // Jump group
    /// `JP nn`
    Jump(u16),
    /// `JP cc,nn`
    JumpIf(Cond, u16),
    /// `JR e`
    JumpRelative(i8),
    /// `JR cc,e`
    JumpRelativeIf(ShortCond, i8),
    /// `JP (HL)`, `JP (IX)`
    JumpIndirect(HlOrIndex),
    /// `DJNZ e`
    Djnz(i8),

    // Call and return group
    /// `CALL nn`
    Call(u16),
    /// `CALL cc,nn`
    CallIf(Cond, u16),
    /// `RET`
    Ret,
    /// `RET cc`
    RetIf(Cond),
    /// `RETI`
    Reti,
    /// `RETN`
    Retn,
    /// `RST p`, of the address p divided by 8
    Restart(Octal),

    // Input and output group
    /// `IN A,(n)`
    InA(u8),
    /// `IN r,(C)`
    InC(Register),
    /// `OUT (n),A`
    OutA(u8),
    /// `OUT (C),r`
    OutC(Register),
}

//! Registers by their names.

ghost use Rattle.std.specs.Prelude.{◌≡◌, find};
ghost use Rattle.std.specs.Str.{str_eq_ignore_ascii_case};
ghost use Rattle.state_text.specs.RegisterNames.{register_limit, register_name, register_named};

use z80_cpu::Cpu;

/// A register or a pair of registers.
#[derive(Clone, Copy, Debug, PartialEq, Eq)]
pub enum RegisterName {
    A,
    B,
    C,
    D,
    E,
    H,
    L,
    Af,
    Bc,
    De,
    Hl,
    Ix,
    Iy,
    Sp,
}

impl RegisterName {
    ghost use Rattle.std.specs.Prelude.{◌≡◌};
    ghost use Rattle.state_text.specs.RegisterNames.{named_register, register_name};

    /// The value of the register.
    pub fn value(self, cpu: &Cpu) -> u16
        ensures { result ≡ named_register self cpu.now }
    {
        match self {
            RegisterName::A => u16::from(cpu.main.a),
            RegisterName::B => u16::from(cpu.main.b),
            RegisterName::C => u16::from(cpu.main.c),
            RegisterName::D => u16::from(cpu.main.d),
            RegisterName::E => u16::from(cpu.main.e),
            RegisterName::H => u16::from(cpu.main.h),
            RegisterName::L => u16::from(cpu.main.l),
            RegisterName::Af => cpu.main.af(),
            RegisterName::Bc => cpu.main.bc(),
            RegisterName::De => cpu.main.de(),
            RegisterName::Hl => cpu.main.hl(),
            RegisterName::Ix => cpu.ix,
            RegisterName::Iy => cpu.iy,
            RegisterName::Sp => cpu.sp,
        }
    }

    /// The name of the register.
    pub fn name(self) -> &'static str
        ensures { result.now ≡ register_name self }
    {
        match self {
            RegisterName::A => "A",
            RegisterName::B => "B",
            RegisterName::C => "C",
            RegisterName::D => "D",
            RegisterName::E => "E",
            RegisterName::H => "H",
            RegisterName::L => "L",
            RegisterName::Af => "AF",
            RegisterName::Bc => "BC",
            RegisterName::De => "DE",
            RegisterName::Hl => "HL",
            RegisterName::Ix => "IX",
            RegisterName::Iy => "IY",
            RegisterName::Sp => "SP",
        }
    }
}

const REGISTERS: [RegisterName; 14] = [
    RegisterName::A,
    RegisterName::B,
    RegisterName::C,
    RegisterName::D,
    RegisterName::E,
    RegisterName::H,
    RegisterName::L,
    RegisterName::Af,
    RegisterName::Bc,
    RegisterName::De,
    RegisterName::Hl,
    RegisterName::Ix,
    RegisterName::Iy,
    RegisterName::Sp,
];

/// The greatest value that a register can have.
pub fn register_limit(register: RegisterName) -> u16
    ensures { result ≡ register_limit register }
{
    match register {
        RegisterName::A => 0xFF,
        RegisterName::B => 0xFF,
        RegisterName::C => 0xFF,
        RegisterName::D => 0xFF,
        RegisterName::E => 0xFF,
        RegisterName::H => 0xFF,
        RegisterName::L => 0xFF,
        _ => 0xFFFF,
    }
}

/// Whether two names are the same, in upper or lower case.
pub fn is_same_name(name: &[u8], other: &[u8]) -> bool
    ensures { result ≡ str_eq_ignore_ascii_case name.now other.now }
{
    name.eq_ignore_ascii_case(other)
}

/// The first of these registers with this name, in upper or lower case.
fn first_named(registers: &[RegisterName], word: &[u8]) -> Option<RegisterName>
    ensures { result ≡ find (λ it. str_eq_ignore_ascii_case (register_name it) word.now) registers.now }
{
    for register in registers {
        if is_same_name(register.name().as_bytes(), word) {
            return Some(*register);
        }
    }
    None
}

/// The register with this name, in upper or lower case.
pub fn register_named(word: &[u8]) -> Option<RegisterName>
    ensures { result ≡ register_named word.now }
{
    first_named(&REGISTERS, word)
}

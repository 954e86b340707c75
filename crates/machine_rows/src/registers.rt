//! The settings of a machine that rows begin with, and what changes in it.

use row_text::Row;
use z80_instr::InterruptMode;
use z80_machine::{Cpu, Flags, Memory, Registers, Watch};

/// A machine, and the addresses at which `run` stops it.
#[derive(Drop)]
pub(crate) struct Job {
    pub(crate) cpu: Cpu,
    pub(crate) memory: Memory,
    pub(crate) watch: Watch,
}

/// A register, or an address at which `run` stops.
#[derive(Clone, Copy)]
enum Place {
    Main(Pair),
    Shadow(Pair),
    Word(Word),
    Small(Small),
}

/// A register pair.
#[derive(Clone, Copy)]
enum Pair {
    Af,
    Bc,
    De,
    Hl,
}

/// A register of a word, or a watched address.
#[derive(Clone, Copy)]
enum Word {
    Pc,
    Sp,
    Ix,
    Iy,
    From,
    At,
}

/// A register of a byte or less.
#[derive(Clone, Copy)]
enum Small {
    F,
    I,
    R,
    Mode,
    FlipFlops,
}

const PLACES: [(&str, Place); 19] = [
    ("af", Place::Main(Pair::Af)),
    ("bc", Place::Main(Pair::Bc)),
    ("de", Place::Main(Pair::De)),
    ("hl", Place::Main(Pair::Hl)),
    ("af'", Place::Shadow(Pair::Af)),
    ("bc'", Place::Shadow(Pair::Bc)),
    ("de'", Place::Shadow(Pair::De)),
    ("hl'", Place::Shadow(Pair::Hl)),
    ("pc", Place::Word(Word::Pc)),
    ("sp", Place::Word(Word::Sp)),
    ("ix", Place::Word(Word::Ix)),
    ("iy", Place::Word(Word::Iy)),
    ("from", Place::Word(Word::From)),
    ("at", Place::Word(Word::At)),
    ("f", Place::Small(Small::F)),
    ("i", Place::Small(Small::I)),
    ("r", Place::Small(Small::R)),
    ("im", Place::Small(Small::Mode)),
    ("iff", Place::Small(Small::FlipFlops)),
];

fn place_named(name: &str) -> Option<Place> {
    for (word, place) in &PLACES {
        if *word == name {
            return Some(*place);
        }
    }
    None
}

/// Writes bytes from an address on.
pub(crate) fn store(memory: &mut Memory, from: u16, bytes: &[u8]) {
    let mut address = from;
    for byte in bytes {
        memory.set(address, *byte);
        address = address.wrapping_add(1);
    }
}

/// Writes bytes that are given in hexadecimal.
pub(crate) fn store_digits(row: &mut Row, memory: &mut Memory, from: u16, digits: &str) {
    match hex::decode(row.alloc(), digits) {
        Ok(bytes) => store(memory, from, &bytes),
        Err(_) => row.refuse("no bytes in hexadecimal"),
    }
}

fn set_pair(registers: &mut Registers, pair: Pair, word: u16) {
    match pair {
        Pair::Af => registers.set_af(word),
        Pair::Bc => registers.set_bc(word),
        Pair::De => registers.set_de(word),
        Pair::Hl => registers.set_hl(word),
    }
}

fn set_word(job: &mut Job, place: Word, word: u16) {
    match place {
        Word::Pc => job.cpu.pc = word,
        Word::Sp => job.cpu.sp = word,
        Word::Ix => job.cpu.ix = word,
        Word::Iy => job.cpu.iy = word,
        Word::From => job.watch.from = word,
        Word::At => job.watch.at = word,
    }
}

fn set_small(cpu: &mut Cpu, place: Small, byte: u8) {
    match place {
        Small::F => cpu.main.flags = Flags::from_byte(byte),
        Small::I => cpu.i = byte,
        Small::R => cpu.r = byte,
        Small::Mode => {
            cpu.mode = match byte {
                0 => InterruptMode::Zero,
                1 => InterruptMode::One,
                _ => InterruptMode::Two,
            }
        }
        Small::FlipFlops => {
            cpu.iff1 = byte / 16 == 1;
            cpu.iff2 = byte % 16 == 1;
        }
    }
}

/// Sets a register or a watched address.
fn set_place(row: &mut Row, job: &mut Job, place: Place, word: u16) {
    match place {
        Place::Main(pair) => set_pair(&mut job.cpu.main, pair, word),
        Place::Shadow(pair) => set_pair(&mut job.cpu.shadow, pair, word),
        Place::Word(place) => set_word(job, place, word),
        Place::Small(place) if word < 256 => set_small(&mut job.cpu, place, word as u8),
        Place::Small(_) => row.refuse("no byte"),
    }
}

/// Sets memory from an address of four digits on, or sets a register.
fn set(row: &mut Row, job: &mut Job, setting: &str) {
    let Some((name, value)) = setting.split_once('=') else {
        return row.refuse("no value");
    };
    match u16::from_str_radix(name, 16) {
        Ok(address) if name.len() == 4 => store_digits(row, &mut job.memory, address, value),
        _ => match (place_named(name), u16::from_str_radix(value, 16)) {
            (Some(place), Ok(word)) => set_place(row, job, place, word),
            _ => row.refuse("no such register"),
        },
    }
}

/// Makes a machine with PC 0100H and SP 8000H, which stops at the addresses of a system whose BIOS is at FF00H and whose BDOS is at
/// FE06H. Then it sets what the row says. None: there is no memory for it.
pub(crate) fn job_of(row: &mut Row) -> Option<Job> {
    let mut job = Job {
        cpu: Cpu::default(),
        memory: Memory::new(row.alloc()).ok()?,
        watch: Watch {
            from: 0xFF00,
            at: 0xFE06,
        },
    };
    job.cpu.pc = 0x0100;
    job.cpu.sp = 0x8000;
    for setting in row.rest().split(' ') {
        set(row, &mut job, setting);
    }
    Some(job)
}

/// The registers that are smaller than a word: I, R, the mode and both flip-flops.
fn small_ones(cpu: &Cpu) -> [(&'static str, u16); 4] {
    let mode = match cpu.mode {
        InterruptMode::Zero => 0,
        InterruptMode::One => 1,
        InterruptMode::Two => 2,
    };
    [
        ("I", u16::from(cpu.i)),
        ("R", u16::from(cpu.r)),
        ("IM", mode),
        ("IFF", u16::from(cpu.iff1) * 16 + u16::from(cpu.iff2)),
    ]
}

/// The registers that are words.
fn words(cpu: &Cpu) -> [(&'static str, u16); 12] {
    let (main, shadow) = (&cpu.main, &cpu.shadow);
    [
        ("PC", cpu.pc),
        ("SP", cpu.sp),
        ("AF", main.af()),
        ("BC", main.bc()),
        ("DE", main.de()),
        ("HL", main.hl()),
        ("IX", cpu.ix),
        ("IY", cpu.iy),
        ("AF'", shadow.af()),
        ("BC'", shadow.bc()),
        ("DE'", shadow.de()),
        ("HL'", shadow.hl()),
    ]
}

/// Prints each register that changed, with its value.
pub(crate) fn show_changes(row: &mut Row, old: &Cpu, new: &Cpu) {
    for ((name, before), (_, after)) in words(old).into_iter().zip(words(new)) {
        if before != after {
            write!(row, " {name}={after:04X}");
        }
    }
    for ((name, before), (_, after)) in small_ones(old).into_iter().zip(small_ones(new)) {
        if before != after {
            write!(row, " {name}={after:02X}");
        }
    }
}

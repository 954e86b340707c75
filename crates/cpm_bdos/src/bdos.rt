//! The BDOS.

use crate::console::{Reply, direct, is_ready, print, put, put_raw, read_line, take, take_raw};
use crate::files::{Search, close, erase, make, open, rename, search_first, search_next};
use crate::function::{
    BiosEntry, ConsoleCall, FileCall, Function, RecordCall, SearchCall, SettingCall,
};
use crate::outcome::After;
use crate::records::{read_at, read_next, set_random, size, write_at, write_next};
use crate::registers::{answered, byte_answered, nothing_answered, put_value};
use crate::setting::{FIRST_DMA, set_by};
use cpm_console::{Console, MemoryConsole, Terminal};
use cpm_disk::{Disk, Stop};
use cpm_image::{MemoryImage, Sectors};
use std::alloc::{AllocError, Global};
use std::marker::Model;
use z80_cpu::{Cpu, Memory};

/// The state of the system: a mounted disk, which is drive A, a console, the address of the DMA buffer, the user from 0 to 31, and the
/// last search.
#[derive(Drop)]
pub struct Bdos<S: Sectors, C: Console> {
    disk: Disk<S>,
    terminal: Terminal<C>,
    dma: u16,
    user: u8,
    search: Option<Search>,
}

impl<S: Sectors, C: Console> Model for Bdos<S, C> {
    ghost use Rattle.std.specs.Prelude.{◌<◌};
    ghost use Rattle.cpm_image.specs.declared.directory.entry.TheConstants.{USERS};
    ghost use Rattle.cpm_bdos.specs.System.{System};

    ghost Value = { System S C };

    ghost view = { λ b. record { disk = b.disk; terminal = b.terminal; dma = b.dma; user = b.user; search = b.search } };

    ghost invariant = { λ b. b.user < USERS };
}

impl<S: Sectors, C: Console> Bdos<S, C> {
    ghost use Rattle.std.specs.Prelude.{◌≡◌, OnErr};
    ghost use Rattle.cpm_console.specs.Screen.{screen};
    ghost use Rattle.cpm_bdos.specs.System.{IsKeptAtStop, new_system};
    ghost use Rattle.cpm_bdos.specs.Answer.{Answers, BiosAnswers, CallAnswers, ConsoleAnswers, EntryAnswers, FileAnswers, RecordAnswers, SearchAnswers, SettingAnswers};

    /// The state at the start: the console at column 0, the DMA buffer at 0080H, user 0, and no search.
    pub fn new(disk: Disk<S>, console: C) -> Bdos<S, C>
        ensures { result ≡ new_system disk console }
    {
        Bdos {
            disk,
            terminal: Terminal::new(console),
            dma: FIRST_DMA,
            user: 0,
            search: None,
        }
    }

    /// The disk and the console as the calls have left them.
    pub fn into_parts(self) -> (Disk<S>, C)
        ensures disk { result.0 ≡ self.disk }
        ensures console { result.1 ≡ self.terminal.console }
    {
        (self.disk, self.terminal.console)
    }

    pub fn disk(&self) -> &Disk<S>
        ensures { result.now ≡ self.now.disk }
    {
        &self.disk
    }

    pub fn console(&self) -> &C
        ensures { result.now ≡ self.now.terminal.console }
    {
        &self.terminal.console
    }

    /// The column of the cursor.
    pub fn column(&self) -> u16
        ensures { result ≡ self.now.terminal.column }
    {
        self.terminal.column
    }

    /// The address of the buffer that the next record is read to or written from.
    pub fn dma(&self) -> u16
        ensures { result ≡ self.now.dma }
    {
        self.dma
    }

    /// The user from 0 to 31 whose files the calls see.
    pub fn user(&self) -> u8
        ensures { result ≡ self.now.user }
    {
        self.user
    }

    /// Makes the system call of the function in C with its argument in DE. The value goes to HL, and L to A and H to B. Other
    /// registers and the flags stay.
    ///
    /// # Errors
    ///
    /// [`Stop::UnsupportedFunction`] if no function has the number; others as the functions say. A stop leaves the registers and the
    /// memory as they were. What the console has taken and put is not undone.
    pub fn call(&mut self, cpu: &mut Cpu, memory: &mut Memory) -> Result<After, Stop>
        ensures answer { CallAnswers S.sectors S.faults C.dialog self.old self.new cpu.old cpu.new memory.old memory.new result }
        ensures stopped { OnErr result ((cpu.new ≡ cpu.old) × IsKeptAtStop self.old self.new memory.old memory.new) }
    {
        let Some(function) = Function::of(cpu.main.c) else {
            return Err(Stop::UnsupportedFunction(cpu.main.c));
        };
        match self.answer(function, cpu.main.de(), memory) {
            Ok(Reply::Value(value)) => {
                put_value(cpu, value);
                Ok(After::Return)
            }
            Ok(Reply::WarmBoot) => Ok(After::WarmBoot),
            Err(stop) => Err(stop),
        }
    }

    /// Makes a call of the BIOS. Entry 2 answers in A whether input is left, entry 3 answers the next byte in A, and entry 4 puts the
    /// byte in C. Bytes pass unchanged.
    ///
    /// # Errors
    ///
    /// [`Stop::UnsupportedBios`] for every other entry, [`Stop::EndOfInput`], [`Stop::ConsoleFault`]. A stop leaves the registers as they
    /// were.
    pub fn bios(&mut self, entry: u8, cpu: &mut Cpu) -> Result<After, Stop>
        ensures { BiosAnswers C.dialog self.old self.new entry cpu.old cpu.new result }
    {
        match BiosEntry::of(entry) {
            Some(known) => self.enter(known, cpu),
            None => Err(Stop::UnsupportedBios(entry)),
        }
    }

    fn enter(&mut self, entry: BiosEntry, cpu: &mut Cpu) -> Result<After, Stop>
        ensures others { self.new ≡ record self.old { terminal = self.new.terminal } }
        ensures answer { EntryAnswers entry (screen C.dialog self.old.terminal) (screen C.dialog self.new.terminal) cpu.old cpu.new result }
    {
        match entry {
            BiosEntry::ConsoleStatus => cpu.main.a = is_ready(&self.terminal),
            BiosEntry::ConsoleInput => cpu.main.a = take_raw(&mut self.terminal)?,
            BiosEntry::ConsoleOutput => put_raw(&mut self.terminal, cpu.main.c)?,
        }
        Ok(After::Return)
    }

    fn answer(
        &mut self,
        function: Function,
        argument: u16,
        memory: &mut Memory,
    ) -> Result<Reply, Stop>
        ensures { Answers S.sectors S.faults C.dialog function argument self.old self.new memory.old memory.new result }
    {
        match function {
            Function::SystemReset => Ok(Reply::WarmBoot),
            Function::Console(call) => self.console_call(call, argument, memory),
            Function::Setting(call) => answered(self.setting_call(call, argument)),
            Function::Search(call) => answered(self.search_call(call, argument, memory)),
            Function::File(call) => answered(self.file_call(call, argument, memory)),
            Function::Record(call) => answered(self.record_call(call, argument, memory)),
        }
    }

    fn console_call(
        &mut self,
        call: ConsoleCall,
        argument: u16,
        memory: &mut Memory,
    ) -> Result<Reply, Stop>
        ensures others { self.new ≡ record self.old { terminal = self.new.terminal } }
        ensures answer { ConsoleAnswers call argument (screen C.dialog self.old.terminal) (screen C.dialog self.new.terminal) memory.old memory.new result }
    {
        let byte = (argument % 256) as u8;
        match call {
            ConsoleCall::Input => byte_answered(take(&mut self.terminal)),
            ConsoleCall::Output => nothing_answered(put(&mut self.terminal, byte)),
            ConsoleCall::Direct => byte_answered(direct(&mut self.terminal, byte)),
            ConsoleCall::PrintString => {
                nothing_answered(print(&mut self.terminal, memory, argument))
            }
            ConsoleCall::ReadLine => read_line(&mut self.terminal, memory, argument),
            ConsoleCall::Status => Ok(Reply::Value(u16::from(is_ready(&self.terminal)))),
        }
    }

    fn setting_call(&mut self, call: SettingCall, argument: u16) -> Result<u16, Stop>
        ensures others { self.new ≡ record self.old { dma = self.new.dma; user = self.new.user } }
        ensures answer { SettingAnswers call argument self.old.dma self.old.user self.new.dma self.new.user result }
    {
        let settings = set_by(call, argument, self.dma, self.user)?;
        self.dma = settings.dma;
        self.user = settings.user;
        Ok(settings.value)
    }

    fn search_call(
        &mut self,
        call: SearchCall,
        argument: u16,
        memory: &mut Memory,
    ) -> Result<u16, Stop>
        ensures others { self.new ≡ record self.old { search = self.new.search } }
        ensures answer { SearchAnswers S.sectors call argument self.old.disk self.old.user self.old.dma self.old.search self.new.search memory.old memory.new result }
    {
        match call {
            SearchCall::First => search_first(
                &self.disk,
                self.user,
                self.dma,
                &mut self.search,
                memory,
                argument,
            ),
            SearchCall::Next => Ok(search_next(&self.disk, self.dma, &mut self.search, memory)),
        }
    }

    fn file_call(&mut self, call: FileCall, argument: u16, memory: &mut Memory) -> Result<u16, Stop>
        ensures others { self.new ≡ record self.old { disk = self.new.disk } }
        ensures answer { FileAnswers S.sectors S.faults call argument self.old.disk self.new.disk self.old.user memory.old memory.new result }
    {
        match call {
            FileCall::Open => open(&self.disk, self.user, memory, argument),
            FileCall::Close => close(&self.disk, self.user, memory, argument),
            FileCall::Erase => erase(&mut self.disk, self.user, memory, argument),
            FileCall::Make => make(&mut self.disk, self.user, memory, argument),
            FileCall::Rename => rename(&mut self.disk, self.user, memory, argument),
        }
    }

    fn record_call(
        &mut self,
        call: RecordCall,
        argument: u16,
        memory: &mut Memory,
    ) -> Result<u16, Stop>
        ensures others { self.new ≡ record self.old { disk = self.new.disk } }
        ensures answer { RecordAnswers S.sectors S.faults call argument self.old.disk self.new.disk self.old.user self.old.dma memory.old memory.new result }
    {
        let (user, dma) = (self.user, self.dma);
        match call {
            RecordCall::ReadNext => read_next(&mut self.disk, user, dma, memory, argument),
            RecordCall::WriteNext => write_next(&mut self.disk, user, dma, memory, argument),
            RecordCall::ReadRandom => read_at(&mut self.disk, user, dma, memory, argument),
            RecordCall::WriteRandom => write_at(&mut self.disk, user, dma, memory, argument),
            RecordCall::FileSize => size(&self.disk, user, memory, argument),
            RecordCall::SetRandom => set_random(self.disk.kind(), memory, argument),
        }
    }
}

impl Bdos<MemoryImage, MemoryConsole> {
    ghost use Rattle.std.specs.Prelude.{◌≡◌, IfOk};

    /// A second system in the same state, with copies of the disk and of the console.
    ///
    /// # Errors
    ///
    /// [`AllocError`] if memory runs out.
    pub fn copied(&self, alloc: Global) -> Result<Bdos<MemoryImage, MemoryConsole>, AllocError>
        ensures { IfOk result (λ copy. copy ≡ self.now) }
    {
        Ok(Bdos {
            disk: self.disk.copied(alloc)?,
            terminal: Terminal {
                console: self.terminal.console.copied()?,
                column: self.terminal.column,
            },
            dma: self.dma,
            user: self.user,
            search: self.search,
        })
    }
}

impl<S: Sectors> Bdos<S, MemoryConsole> {
    ghost use Rattle.std.specs.Prelude.{◌≡◌, is_ok, if◌then◌else◌};
    ghost use Rattle.cpm_console.specs.Dialog.{output_cleared, typed_in};
    ghost use Rattle.cpm_bdos.specs.System.{with_console};

    /// Adds bytes to the end of the console's input.
    ///
    /// # Errors
    ///
    /// [`AllocError`] if memory runs out. Then the system is as it was.
    pub fn type_in(&mut self, bytes: &[u8]) -> Result<(), AllocError>
        ensures { self.new ≡ (if is_ok result then with_console (typed_in bytes.now self.old.terminal.console) self.old else self.old) }
    {
        self.terminal.console.type_in(bytes)
    }

    /// Forgets what the console has put.
    pub fn clear_output(&mut self)
        ensures { self.new ≡ with_console (output_cleared self.old.terminal.console) self.old }
    {
        self.terminal.console.clear_output();
    }
}

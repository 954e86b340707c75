//! A session: commands, a line each, and what is printed for them.

ghost use Rattle.std.specs.Prelude.{◌≡◌, drop};
ghost use Rattle.debugger.specs.Session.{at_place};

use crate::setting::{chosen, set};
use crate::text::{
    put_breakpoint, put_files, put_instructions, put_missed, put_outcome, put_output, put_point,
    put_stack, put_stops, put_watch, put_where, put_who,
};
use debugger_commands::{Command, HELP, Verb, command_of, put_help, refusal_line};
use machine_history::{Goal, History, Hit, Outcome, ReturnPlace, Stops, Watch, call_place};
use state_text::{Breakpoint, Condition, Labels, RegisterName, put_memory, put_registers};
use std::alloc::{AllocError, Global};

/// The most turns that one command makes which runs to something: `run`, `next` or `finish`.
pub const MOST_TURNS: u64 = 100_000_000;

/// What `back-run` says if nothing held at any earlier turn, so that it goes to the start.
const NOTHING_HELD: &[u8] = b"nothing held before: this is the start\n";

/// What is said if nothing is set.
const NOTHING_SET: &[u8] = b"no breakpoints, and no watched bytes\n";

/// What is said if nothing is set at an address.
const NOTHING_THERE: &[u8] = b"no breakpoint and no watched byte is there\n";

/// A session about one run.
#[derive(Drop)]
pub struct Session<'a> {
    alloc: Global,
    history: History<'a>,
    stops: Stops,
    labels: Labels,
    listing: &'a [u8],
    is_over: bool,
}

/// The bytes after these first ones; none if there are fewer.
fn bytes_since(bytes: &[u8], count: usize) -> &[u8]
    ensures { result.now ≡ drop «count» bytes.now }
{
    bytes.get(count..).unwrap_or(&[])
}

/// PC at a place, with its SP.
fn at_place(place: ReturnPlace) -> Goal
    ensures { result ≡ at_place place }
{
    Goal::At(Breakpoint {
        address: place.address,
        condition: Some(Condition {
            register: RegisterName::Sp,
            value: place.sp,
        }),
    })
}

impl<'a> Session<'a> {
    ghost use Rattle.std.specs.Prelude.{◌≡◌, ◌||◌, [], ℕ, IfOk, List, false, length};
    ghost use Rattle.machine_history.specs.Calls.{call_place};
    ghost use Rattle.machine_history.specs.Stops.{IsLast};
    ghost use Rattle.debugger.specs.Instructions.{code_text};
    ghost use Rattle.state_text.specs.Printing.Memory.{memory_text};
    ghost use Rattle.state_text.specs.Printing.Registers.{registers_text};
    ghost use Rattle.debugger.specs.Text.{Printed, Says, SaysWhere, SaysWho, Watches, breakpoint_line, listed_stops, missed_text, output_text, stack_text, stops_text, watch_line, where_text};
    ghost use Rattle.debugger_commands.specs.Help.{help_answer};
    ghost use Rattle.machine_history.specs.declared.stops.Stops.{Stops as TheStops};
    ghost use Rattle.debugger.specs.Session.{BackNexts, BackRuns, GoesTo, Obeys, Moves, Nexts, RunsOn, Sets, is_quit};
    ghost use Rattle.machine_history.specs.Walk.{IsTrue_of_run, Shown};
    ghost use Rattle.debugger_commands.specs.declared.command.Command.TheVariants as command;

    /// A session without breakpoints.
    pub fn new(alloc: Global, history: History<'a>, labels: Labels) -> Session<'a>
        ensures history { result.history ≡ history.entry }
        ensures breakpoints { result.stops.breakpoints.items ≡ [] }
        ensures watches { result.stops.watches.items ≡ [] }
        ensures over { result.is_over ≡ false }
        ensures labels { result.labels ≡ labels }
        ensures listing { result.listing.now ≡ [] }
    {
        Session {
            alloc,
            history,
            stops: Stops::new(alloc),
            labels,
            listing: &[],
            is_over: false,
        }
    }

    /// The same session with the listing of the program. `where` shows its lines.
    pub fn with_listing(mut self, listing: &'a [u8]) -> Session<'a>
        ensures history { result.history ≡ self.entry.history }
        ensures stops { result.stops ≡ self.entry.stops }
        ensures over { result.is_over ≡ self.entry.is_over }
        ensures labels { result.labels ≡ self.entry.labels }
        ensures listing { result.listing ≡ listing.entry }
    {
        self.listing = listing;
        self
    }

    /// Whether the session was quit.
    pub fn is_over(&self) -> bool
        ensures { result ≡ self.now.is_over }
    {
        self.is_over
    }

    /// A law: what is shown is the point after its number of turns.
    pub(crate) fn knows(&self)
        ensures { IsTrue_of_run self.now.history }
    {
        let _ = self.history.turn();
    }

    /// Makes many turns, until a breakpoint or a watched byte holds, the goal is reached, or the run has ended.
    fn run(&mut self, goal: Option<Goal>) -> Result<Option<Outcome>, AllocError>
        ensures start { self.new.history.start ≡ self.old.history.start }
        ensures after { IsTrue_of_run self.new.history }
        ensures others { self.new ≡ record self.old { history = self.new.history } }
        ensures runs { IfOk result (λ told. RunsOn goal self.old.stops self.old.history self.new.history told) }
    {
        let limit = MOST_TURNS.min(u64::MAX - self.history.turn());
        Ok(Some(self.history.run(self.alloc, goal, &self.stops, limit)?))
    }

    /// Goes to the point after this number of turns, or to the end of the run if that comes first.
    fn go_to(&mut self, turn: u64) -> Result<Option<Outcome>, AllocError>
        ensures start { self.new.history.start ≡ self.old.history.start }
        ensures after { IsTrue_of_run self.new.history }
        ensures others { self.new ≡ record self.old { history = self.new.history } }
        ensures goes { IfOk result (λ told. GoesTo turn self.new.history told) }
    {
        self.history.go_to(self.alloc, turn)?;
        Ok(None)
    }

    /// Makes one turn, or as many as the call at PC takes.
    fn next(&mut self) -> Result<Option<Outcome>, AllocError>
        ensures start { self.new.history.start ≡ self.old.history.start }
        ensures after { IsTrue_of_run self.new.history }
        ensures others { self.new ≡ record self.old { history = self.new.history } }
        ensures nexts { IfOk result (λ told. Nexts (call_place self.old.history.point.state) self.old.stops self.old.history self.new.history told) }
    {
        match call_place(self.history.point().snapshot()) {
            Some(place) => self.run(Some(at_place(place))),
            None => {
                let turn = self.history.turn().saturating_add(1);
                self.go_to(turn)
            }
        }
    }

    /// Goes back to the last turn at which a breakpoint or a watched byte held; to turn 0 if there is none.
    fn back_run(&mut self) -> Result<Option<Outcome>, AllocError>
        ensures start { self.new.history.start ≡ self.old.history.start }
        ensures after { IsTrue_of_run self.new.history }
        ensures others { self.new ≡ record self.old { history = self.new.history } }
        ensures moves { IfOk result (λ told. BackRuns self.old.stops self.old.history self.new.history told) }
    {
        let before = self.history.turn().saturating_sub(1);
        match self.history.last(self.alloc, &self.stops, before)? {
            Some((turn, hit)) => {
                self.history.go_to(self.alloc, turn)?;
                Ok(Some(Outcome::Held(hit)))
            }
            None => self.go_to(0),
        }
    }

    /// Goes back to the call over which `next` leads here, or by one turn.
    fn back_next(&mut self) -> Result<Option<Outcome>, AllocError>
        ensures start { self.new.history.start ≡ self.old.history.start }
        ensures after { IsTrue_of_run self.new.history }
        ensures others { self.new ≡ record self.old { history = self.new.history } }
        ensures moves { IfOk result (λ told. BackNexts self.old.history self.new.history told) }
    {
        let before = self.history.turn().saturating_sub(1);
        let call = self.history.call_before(self.alloc)?;
        self.go_to(call.unwrap_or(before))
    }

    /// Goes to another turn, as a command asks; or stays.
    fn go(&mut self, command: Command) -> Result<Option<Outcome>, AllocError>
        ensures start { self.new.history.start ≡ self.old.history.start }
        ensures after { IsTrue_of_run self.new.history }
        ensures others { self.new ≡ record self.old { history = self.new.history } }
        ensures moves { IfOk result (λ told. Moves command self.old.stops self.old.history self.new.history told) }
    {
        let turn = self.history.turn();
        match command {
            Command::Step(count) => self.go_to(turn.saturating_add(count)),
            Command::Back(count) => self.go_to(turn.saturating_sub(count)),
            Command::Turn(number) => self.go_to(number),
            Command::Run(None) => self.run(None),
            Command::Run(Some(address)) => self.run(Some(Goal::At(Breakpoint {
                address,
                condition: None,
            }))),
            Command::Next => self.next(),
            Command::Finish => {
                let sp = self.history.point().snapshot().cpu().sp;
                self.run(Some(Goal::ReturnAbove(sp)))
            }
            Command::BackRun => self.back_run(),
            Command::BackNext => self.back_next(),
            _ => Ok(None),
        }
    }

    /// Obeys a command: it goes to another turn, sets breakpoints and watched bytes, or ends the session. Answers how it ended if the
    /// command runs to something.
    ///
    /// # Errors
    ///
    /// [`AllocError`] if memory runs out.
    pub fn obey(&mut self, command: Command) -> Result<Option<Outcome>, AllocError>
        ensures start { self.new.history.start ≡ self.old.history.start }
        ensures after { IsTrue_of_run self.new.history }
        ensures moves { IfOk result (λ told. Moves command self.old.stops self.old.history self.new.history told) }
        ensures sets { IfOk result (λ _. Sets command self.old.stops self.new.stops) }
        ensures over { IfOk result (λ _. self.new.is_over ≡ (self.old.is_over || is_quit command)) }
        ensures labels { self.new.labels ≡ self.old.labels }
        ensures listing { self.new.listing ≡ self.old.listing }
    {
        let told = self.go(command)?;
        set(self.alloc, &mut self.stops, command)?;
        self.is_over = self.is_over || command == Command::Quit;
        Ok(told)
    }

    /// The last turn that changed a byte, up to the one that is shown.
    fn last_change(&self, address: u16) -> Result<Option<(u64, Hit)>, AllocError>
        ensures { IfOk result (λ last. (stops : TheStops) × Watches address stops × IsLast stops self.now.history self.now.history.turn last) }
    {
        let mut stops = Stops::new(self.alloc);
        stops.watches.push(Watch {
            from: address,
            count: 1,
        })?;
        self.history.last(self.alloc, &stops, self.history.turn())
    }

    /// The registers, the flags, the address of the buffer for records, and the user.
    fn registers(&self) -> Result<Vec<u8>, AllocError>
        ensures { IfOk result (λ text. text.items ≡ registers_text self.now.history.point.state.machine.cpu self.now.history.point.state.system.dma self.now.history.point.state.system.user) }
    {
        let snapshot = self.history.point().snapshot();
        let (cpu, dma, user) = (snapshot.cpu(), snapshot.dma(), snapshot.user());
        let mut text = Vec::new(self.alloc);
        put_registers(self.alloc, &mut text, cpu, dma, user)?;
        Ok(text)
    }

    /// Bytes of memory.
    fn memory(&self, from: u16, count: u16) -> Result<Vec<u8>, AllocError>
        ensures { IfOk result (λ text. text.items ≡ memory_text self.now.history.point.state.machine.memory from «count») }
    {
        let memory = self.history.point().snapshot().memory();
        let mut text = Vec::new(self.alloc);
        put_memory(self.alloc, &mut text, memory, from, count)?;
        Ok(text)
    }

    /// The last turn that changed a byte.
    fn who(&self, address: u16) -> Result<Vec<u8>, AllocError>
        ensures { IfOk result (λ text. SaysWho address self.now.history self.now.labels text.items) }
    {
        let last = self.last_change(address)?;
        let mut text = Vec::new(self.alloc);
        put_who(self.alloc, &self.labels, address, last, &mut text)?;
        Ok(text)
    }

    /// PC with its label, and its line of the listing.
    fn place(&self) -> Result<Vec<u8>, AllocError>
        ensures { IfOk result (λ text. text.items ≡ where_text self.now.labels self.now.listing.now self.now.history.point.state.machine.memory self.now.history.point.state.machine.cpu.pc) }
    {
        let snapshot = self.history.point().snapshot();
        let pc = snapshot.cpu().pc;
        let memory = snapshot.memory();
        let mut text = Vec::new(self.alloc);
        put_where(
            self.alloc,
            &self.labels,
            self.listing,
            memory,
            pc,
            &mut text,
        )?;
        Ok(text)
    }

    /// The line of a breakpoint.
    fn breakpoint(&self, breakpoint: Breakpoint) -> Result<Vec<u8>, AllocError>
        ensures { IfOk result (λ text. text.items ≡ breakpoint_line self.now.labels breakpoint) }
    {
        let mut text = Vec::new(self.alloc);
        put_breakpoint(self.alloc, &self.labels, breakpoint, &mut text)?;
        Ok(text)
    }

    /// The line of watched bytes.
    fn watched(&self, from: u16, count: u16) -> Result<Vec<u8>, AllocError>
        ensures { IfOk result (λ text. text.items ≡ watch_line self.now.labels from «count») }
    {
        let mut text = Vec::new(self.alloc);
        put_watch(self.alloc, &self.labels, from, count, &mut text)?;
        Ok(text)
    }

    /// The lines of breakpoints and watched bytes, each after some text; or `none`, if there are none.
    fn stop_lines(&self, none: &[u8], before: &[u8], stops: &Stops) -> Result<Vec<u8>, AllocError>
        ensures { IfOk result (λ text. text.items ≡ stops_text none.now before.now self.now.labels stops.now.breakpoints.items stops.now.watches.items) }
    {
        let mut text = Vec::new(self.alloc);
        put_stops(self.alloc, &self.labels, none, before, stops, &mut text)?;
        Ok(text)
    }

    /// The lines of the breakpoints and the watched bytes, for the commands that print them.
    fn listed(&self, command: Command) -> Result<Vec<u8>, AllocError>
        ensures { IfOk result (λ text. text.items ≡ listed_stops self.now.labels self.now.stops command) }
    {
        match command {
            Command::Info => self.stop_lines(NOTHING_SET, b"", &self.stops),
            Command::Delete(None) => self.stop_lines(NOTHING_SET, b"deleted ", &self.stops),
            Command::Delete(Some(address)) => {
                let there = chosen(self.alloc, &self.stops, address, true)?;
                self.stop_lines(NOTHING_THERE, b"deleted ", &there)
            }
            _ => Ok(Vec::new(self.alloc)),
        }
    }

    /// What is printed for a command that goes to another turn, and ended so: what the program has printed since, why the command stopped,
    /// or `none` if nothing stopped it, and the turn. `printed` is how many bytes the program had printed before.
    fn moved(
        &self,
        none: &[u8],
        told: Option<Outcome>,
        printed: usize,
    ) -> Result<Vec<u8>, AllocError>
        ensures { (old : Shown) (before : List ℕ) → Printed old before → printed ≡ length before → IfOk result (λ text. SaysWhere none.now told old self.now.history self.now.labels text.items) }
    {
        let point = self.history.point();
        let mut text = Vec::new(self.alloc);
        let output = bytes_since(point.snapshot().output(), printed);
        put_output(self.alloc, output, &mut text)?;
        put_outcome(self.alloc, &self.labels, none, told, &mut text)?;
        put_point(
            self.alloc,
            &self.labels,
            self.history.turn(),
            point,
            &mut text,
        )?;
        Ok(text)
    }

    /// The same for `run`: it says so if no step of it led to its address.
    fn ran(
        &self,
        address: Option<u16>,
        told: Option<Outcome>,
        printed: usize,
    ) -> Result<Vec<u8>, AllocError>
        ensures { (old : Shown) (before : List ℕ) → Printed old before → printed ≡ length before → IfOk result (λ text. SaysWhere (missed_text self.now.labels address) told old self.now.history self.now.labels text.items) }
    {
        let mut missed = Vec::new(self.alloc);
        put_missed(self.alloc, &self.labels, address, &mut missed)?;
        self.moved(&missed, told, printed)
    }

    /// The list of the commands, or its lines of one.
    fn help(&self, asked: Option<Verb>) -> Result<Vec<u8>, AllocError>
        ensures { IfOk result (λ text. text.items ≡ help_answer asked) }
    {
        let Some(verb) = asked else {
            return Ok(HELP.to_vec(self.alloc)?);
        };
        let mut text = Vec::new(self.alloc);
        put_help(self.alloc, verb, &mut text)?;
        Ok(text)
    }

    /// Instructions.
    fn code(&self, from: u16, count: u16) -> Result<Vec<u8>, AllocError>
        ensures { IfOk result (λ text. text.items ≡ code_text self.now.labels self.now.history.point.state.machine from «count») }
    {
        let snapshot = self.history.point().snapshot();
        let mut text = Vec::new(self.alloc);
        put_instructions(self.alloc, &self.labels, snapshot, from, count, &mut text)?;
        Ok(text)
    }

    /// What the program has printed.
    fn output(&self) -> Result<Vec<u8>, AllocError>
        ensures { IfOk result (λ text. (bytes : List ℕ) × Printed self.now.history bytes × (text.items ≡ output_text bytes)) }
    {
        let mut text = Vec::new(self.alloc);
        put_output(
            self.alloc,
            self.history.point().snapshot().output(),
            &mut text,
        )?;
        Ok(text)
    }

    /// The words on top of the stack.
    fn stack(&self) -> Result<Vec<u8>, AllocError>
        ensures { IfOk result (λ text. text.items ≡ stack_text self.now.labels self.now.history.point.state.machine.memory self.now.history.point.state.machine.cpu.sp) }
    {
        let snapshot = self.history.point().snapshot();
        let mut text = Vec::new(self.alloc);
        put_stack(self.alloc, &self.labels, snapshot, &mut text)?;
        Ok(text)
    }

    /// The files of the disk.
    fn files(&self) -> Result<Vec<u8>, AllocError> {
        let mut text = Vec::new(self.alloc);
        put_files(
            self.alloc,
            self.history.point().snapshot().disk(),
            &mut text,
        )?;
        Ok(text)
    }

    /// What is printed for a command, which has been done and ended so. `listed` has the lines of the breakpoints and the watched bytes before
    /// it, if it prints them, and `printed` is how many bytes the program had printed.
    fn said(
        &self,
        command: Command,
        told: Option<Outcome>,
        listed: Vec<u8>,
        printed: usize,
    ) -> Result<Vec<u8>, AllocError>
        ensures { (stops : TheStops) (old : Shown) (before : List ℕ) → listed.items ≡ listed_stops self.now.labels stops command → Printed old before → printed ≡ length before
            → IfOk result (λ text. Says command stops told old self.now.history self.now.labels self.now.listing.now text.items) }
    {
        match command {
            Command::Registers => self.registers(),
            Command::Memory(from, count) => self.memory(from, count),
            Command::Who(address) => self.who(address),
            Command::Where => self.place(),
            Command::Break(breakpoint) => self.breakpoint(breakpoint),
            Command::Watch(from, count) => self.watched(from, count),
            Command::Delete(_) => Ok(listed),
            Command::Info => Ok(listed),
            Command::Quit => Ok(Vec::new(self.alloc)),
            Command::Disassemble(from, count) => self.code(from, count),
            Command::Stack => self.stack(),
            Command::Output => self.output(),
            Command::Files => self.files(),
            Command::Help(asked) => self.help(asked),
            Command::Step(_) => self.moved(b"", told, printed),
            Command::Back(_) => self.moved(b"", told, printed),
            Command::Turn(_) => self.moved(b"", told, printed),
            Command::Run(address) => self.ran(address, told, printed),
            Command::Next => self.moved(b"", told, printed),
            Command::Finish => self.moved(b"", told, printed),
            Command::BackRun => self.moved(NOTHING_HELD, told, printed),
            Command::BackNext => self.moved(b"", told, printed),
        }
    }

    /// Obeys a line, and answers what is printed for it: nothing for a blank line, and why for a line that is refused.
    ///
    /// # Errors
    ///
    /// [`AllocError`] if memory runs out.
    pub fn answer(&mut self, line: &[u8]) -> Result<Vec<u8>, AllocError>
        ensures start { self.new.history.start ≡ self.old.history.start }
        ensures after { IsTrue_of_run self.new.history }
        ensures labels { self.new.labels ≡ self.old.labels }
        ensures listing { self.new.listing ≡ self.old.listing }
        ensures obeys { IfOk result (λ text. Obeys self.old.labels self.old.listing.now line.now self.old.history self.old.stops self.old.is_over self.new.history self.new.stops self.new.is_over text.items) }
    {
        let snapshot = self.history.point().snapshot();
        let printed = snapshot.output().len();
        match command_of(self.alloc, line, &self.labels, snapshot.cpu())? {
            Ok(Some(command)) => {
                let listed = self.listed(command)?;
                let told = self.obey(command)?;
                self.said(command, told, listed, printed)
            }
            Ok(None) => Ok(Vec::new(self.alloc)),
            Err(refused) => refusal_line(self.alloc, refused),
        }
    }
}

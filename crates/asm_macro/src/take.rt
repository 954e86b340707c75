//! Reads a line and decides what it leads to: it is given, or it defines a macro, or it opens a block, or it calls a macro.

ghost use Rattle.std.specs.Prelude.{◌≡◌, ◌<◌, ◌≤◌, ◌+◌, ◌||◌, nat_lt, All, IfOk, IfSome, OnOk, Ok, List, ℕ, None, Some, codes, false, length, true};
ghost use Rattle.std.specs.Option.{option_map};
ghost use Rattle.asm_macro.specs.declared.take.TheConstants.{MOST_NESTED};
ghost use Rattle.asm_line.specs.Tokens.{lexemes};
ghost use Rattle.asm_line.specs.Scanned.{scanned};
ghost use Rattle.common.specs.Words.{upper};
ghost use Rattle.asm_line.specs.FormViews.{form_seen, head_seen};
ghost use Rattle.asm_line.specs.Replacing.Views.{texts};
ghost use Rattle.asm_line.specs.Replacing.Replaced.{ReplacementTable};
ghost use Rattle.asm_text.specs.Kept.{IsCall, IsKeptMacro};
ghost use Rattle.asm_text.specs.Prepared.{SaySame, body_texts, macro_seen, macros_seen, said};
ghost use Rattle.std.specs.Str.{bytes_eq};
ghost use Rattle.asm_macro.specs.Private.Entering.{Entered};
ghost use Rattle.asm_macro.specs.State.{called_by, macro_called, macro_named, constant_table};
ghost use Rattle.asm_macro.specs.Values.{value_of_tokens};
ghost use Rattle.asm_macro.specs.Ahead.{seen};
ghost use Rattle.asm_text.specs.Sections.Blocks.{block_body, branches_of};
ghost use Rattle.asm_macro.specs.Judged.{is_counted, parameters};
ghost use Rattle.asm_macro.specs.Parts.{conditional, line_part, repeated, word_part};
ghost use Rattle.asm_macro.specs.Private.Stopped.{stopped};
ghost use Rattle.asm_macro.specs.Private.Frames.{innermost};
ghost use Rattle.asm_macro.specs.Private.Heads.{by_head, defined, kept};
ghost use Rattle.asm_macro.specs.Kept.{AreOf};
ghost use Rattle.asm_macro.specs.Private.Moves.{IsSound, Resumes, Takes, moved, rest_of, state_of};

use crate::expander::Line;
use crate::expansion::{Expansion, MOST_LINES};
use crate::fault::MacroFault;
use crate::moves::{Stop, Taken, begun, refused};
use asm_line::{BlockWord, Form, Head, ScanFault, Token, form_of, names, tokens};
use asm_text::{Book, Call, Following, Macro, Span, label_before, macro_of, prepare, stray};
use common::{NameKey, is_reserved};
use indexmap::IndexMap;
use std::alloc::{AllocError, Global};
use std::mem;

/// The most calls and repetitions that may be nested.
pub const MOST_NESTED: usize = 16;

/// Answers the error of a line; running out of memory belongs to no line.
fn stopped(number: u32, why: MacroFault) -> Stop
    ensures { result ≡ stopped number why }
{
    match why {
        MacroFault::NoMemory => Stop::NoMemory,
        _ => Stop::At(number, why),
    }
}

/// Whether a line counts as read: each does, except LOCAL and the words that divide or close a block.
fn is_counted(head: Head<'_>) -> bool
    ensures { result ≡ is_counted (head_seen head.entry) }
{
    !matches!(
        head,
        Head::Block(BlockWord::Local | BlockWord::Else | BlockWord::EndIf | BlockWord::EndM)
    )
}

/// Answers the parameters of a macro, in upper case: none, or names with commas between them. Answers None if the tokens are no such list.
fn parameters(alloc: Global, tokens: &[Token<'_>]) -> Result<Option<Vec<Vec<u8>>>, AllocError>
    ensures { IfOk result (λ found. option_map (λ all. texts all.items) found ≡ parameters (lexemes tokens.entry.now)) }
{
    if tokens.is_empty() {
        Ok(Some(Vec::new(alloc)))
    } else {
        names(alloc, tokens)
    }
}

/// Whether a MACRO line is misplaced: it has a label, is in a call or repetition, or has a reserved name.
fn may_not_stand(labelled: bool, depth: usize, reserved: bool) -> bool
    ensures { result ≡ ((labelled || nat_lt 0 depth) || reserved) }
{
    labelled || depth > 0 || reserved
}

/// Answers the macro that a word in upper case calls, if it calls one. EQU is recognized before macros, so it calls none, even if a macro
/// has this name.
fn called_by<'m>(macros: &'m IndexMap<Vec<u8>, Macro, NameKey>, word: &[u8]) -> Option<&'m Macro>
    ensures found { (texts : List (List ℕ)) → option_map (λ m. macro_seen texts m.now) result ≡ called_by word.now (macros_seen texts macros.now.entries) }
    ensures kept { (texts : List (List ℕ)) → All (λ e. IsKeptMacro texts e.1) macros.now.entries → IfSome result (λ m. IsKeptMacro texts m.now) }
{
    if word == b"EQU".as_slice() {
        None
    } else {
        macro_of(macros, word)
    }
}

/// The longest word that is looked up as a macro name without allocating memory.
const SHORT: usize = 16;

/// Whether a word is short, calls no macro and is not END.
fn is_plain(macros: &IndexMap<Vec<u8>, Macro, NameKey>, word: &[u8]) -> bool
    ensures none { (texts : List (List ℕ)) → result ≡ true → called_by (upper word.now) (macros_seen texts macros.now.entries) ≡ None }
    ensures no_end { result ≡ true → bytes_eq (upper word.now) (codes "END") ≡ false }
{
    if word.len() > SHORT {
        return false;
    }
    let mut bytes = [0; SHORT];
    let name = &mut bytes[..word.len()];
    name.copy_from_slice(word);
    name.make_ascii_uppercase();
    called_by(macros, name).is_none() && &*name != b"END".as_slice()
}

impl<'a> Expansion<'a> {
    /// Reads a line `IF e`.
    #[inline(never)]
    fn condition(&mut self, line: Line<'_>, tokens: &[Token<'_>]) -> Result<(), Stop>
        requires sound { IsSound self.old }
        ensures sound { OnOk result (IsSound self.new) }
        ensures count { OnOk result (self.new.count ≡ self.old.count) }
        ensures around { OnOk result (length self.new.around.items ≤ length self.old.around.items + 1) }
        ensures taken { Resumes result (rest_of self.new) (moved (rest_of self.old).depth (rest_of self.old).around
            (conditional (rest_of self.old).depth (state_of self.old) (seen line.entry) (branches_of (rest_of self.old).text) (value_of_tokens (constant_table (state_of self.old)) (lexemes tokens.entry.now)))) }
    {
        let found = self.branches()?;
        let Some(choice) = found else {
            return Err(Stop::At(line.number, MacroFault::Unclosed));
        };
        match self.constants.value_of(self.alloc, tokens) {
            Ok(value) => self.go_in(value, choice),
            Err(why) => Err(stopped(line.number, why)),
        }
    }

    /// Reads a line `REPT n`.
    #[inline(never)]
    fn repetition(&mut self, line: Line<'_>, tokens: &[Token<'_>]) -> Result<(), Stop>
        requires sound { IsSound self.old }
        ensures sound { OnOk result (IsSound self.new) }
        ensures count { OnOk result (self.old.count ≤ self.new.count) }
        ensures around { OnOk result (length self.new.around.items ≤ length self.old.around.items + 1) }
        ensures taken { Resumes result (rest_of self.new) (moved (rest_of self.old).depth (rest_of self.old).around
            (repeated (rest_of self.old).depth (state_of self.old) (seen line.entry) (block_body (rest_of self.old).text) (value_of_tokens (constant_table (state_of self.old)) (lexemes tokens.entry.now)))) }
    {
        let found = self.body()?;
        let Some(body) = found else {
            return Err(Stop::At(line.number, MacroFault::Unclosed));
        };
        match self.constants.value_of(self.alloc, tokens) {
            Ok(value) => {
                if self.calls.len() + self.turns >= MOST_NESTED {
                    return Err(Stop::At(line.number, MacroFault::TooDeep));
                }
                self.go_behind(Following::Turns(value, line.number, body))
            }
            Err(why) => Err(stopped(line.number, why)),
        }
    }

    /// Begins the body of a call.
    fn enter(
        &mut self,
        line: Line<'_>,
        body: Span,
        call: Call,
        counter: u64,
    ) -> Result<(), AllocError>
        requires sound { IsSound self.old }
        requires call { IsCall self.old.lines call }
        requires shallow { length self.old.calls.items + self.old.turns < MOST_NESTED }
        ensures sound { OnOk result (IsSound self.new) }
        ensures count { OnOk result (self.new.count ≡ self.old.count) }
        ensures around { OnOk result (length self.new.around.items ≤ length self.old.around.items + 1) }
        ensures entered { OnOk result ((names_said : ReplacementTable) → SaySame (said call) names_said → Entered (rest_of self.old) (seen line.entry).number names_said (body_texts self.old.lines body) counter (rest_of self.new)) }
    {
        asm_line::laws::by_names();
        self.around.push(Following::Rest(self.text))?;
        self.calls.push(call)?;
        let book = mem::replace(&mut self.book, Book::new(self.alloc));
        self.books.push(book)?;
        self.counter = counter;
        self.text = Span {
            number: Some(line.number),
            ..body
        };
        Ok(())
    }

    /// Reads a line that begins with a word: a call if a macro has this name; otherwise END or any other line.
    fn word(
        &mut self,
        line: Line<'_>,
        tokens: &[Token<'_>],
        form: Form<'_>,
        name: &[u8],
    ) -> Result<Taken, Stop>
        requires sound { IsSound self.old }
        ensures sound { OnOk result (IsSound self.new) }
        ensures count { OnOk result (self.new.count ≡ self.old.count) }
        ensures around { OnOk result (length self.new.around.items ≤ length self.old.around.items + 1) }
        ensures taken { Takes (seen line.entry) result (rest_of self.new) (moved (rest_of self.old).depth (rest_of self.old).around
            (word_part (rest_of self.old).depth (state_of self.old) (seen line.entry) (form_seen form.entry) (lexemes tokens.entry.now) (rest_of self.old).text (upper name.now) (macro_called (state_of self.old) (upper name.now)))) }
    {
        let key = name.to_ascii_uppercase(self.alloc)?;
        let Some(called) = called_by(&self.macros, &key) else {
            if key.as_slice() == b"END".as_slice() {
                return Ok(Taken::Last);
            }
            return Ok(Taken::Line);
        };
        if self.calls.len() + self.turns >= MOST_NESTED {
            return Err(Stop::At(line.number, MacroFault::TooDeep));
        }
        let label = label_before(self.alloc, line.text, tokens, form)?;
        let prepared = prepare(
            self.alloc,
            called,
            line.text,
            tokens,
            form.rest,
            self.counter,
        )?;
        match prepared {
            None => refused(line.number, label),
            Some(ready) => {
                self.enter(line, ready.body, ready.call, ready.counter)?;
                Ok(begun(label))
            }
        }
    }

    /// Keeps a macro, if its body is closed.
    fn keep(&mut self, line: Line<'_>, key: Vec<u8>, parameters: Vec<Vec<u8>>) -> Result<(), Stop>
        requires sound { IsSound self.old }
        requires outside { length self.old.calls.items ≡ 0 }
        requires new { macro_named (state_of self.old) key.items ≡ None }
        ensures sound { OnOk result (IsSound self.new) }
        ensures count { OnOk result (self.new.count ≡ self.old.count) }
        ensures around { OnOk result (length self.new.around.items ≤ length self.old.around.items + 1) }
        ensures taken { Resumes result (rest_of self.new) (moved (rest_of self.old).depth (rest_of self.old).around
            (kept (state_of self.old) (seen line.entry) key.items (texts parameters.items) (block_body (rest_of self.old).text))) }
    {
        let found = self.body()?;
        let Some(body) = found else {
            return Err(Stop::At(line.number, MacroFault::Unclosed));
        };
        let end = body.stretch.end;
        let strays = stray(self.alloc, &self.lines, self.calls.last(), end)?;
        if let Some(number) = strays {
            return Err(Stop::At(number, MacroFault::Stray));
        }
        let called = Macro::new(self.alloc, &self.lines, parameters, body.stretch.lines)?;
        self.macros.insert(key, called)?;
        self.text = body.after;
        Ok(())
    }

    /// Reads a line `name MACRO ..`.
    #[inline(never)]
    fn define(&mut self, line: Line<'_>, form: Form<'_>, name: &[u8]) -> Result<(), Stop>
        requires sound { IsSound self.old }
        ensures sound { OnOk result (IsSound self.new) }
        ensures count { OnOk result (self.new.count ≡ self.old.count) }
        ensures around { OnOk result (length self.new.around.items ≤ length self.old.around.items + 1) }
        ensures taken { Resumes result (rest_of self.new) (moved (rest_of self.old).depth (rest_of self.old).around
            (defined (rest_of self.old).depth (state_of self.old) (seen line.entry) (form_seen form.entry) name.now (rest_of self.old).text)) }
    {
        let key = name.to_ascii_uppercase(self.alloc)?;
        let depth = self.calls.len() + self.turns;
        if may_not_stand(form.label.is_some(), depth, is_reserved(&key)) {
            return Err(Stop::At(line.number, MacroFault::Stray));
        }
        let found = parameters(self.alloc, form.rest)?;
        let Some(parameters) = found else {
            return Err(Stop::At(line.number, MacroFault::Stray));
        };
        if macro_of(&self.macros, &key).is_some() {
            return Err(Stop::At(line.number, MacroFault::Redefined));
        }
        self.keep(line, key, parameters)
    }

    /// Reads a line that is counted, by its first words.
    fn take_head(
        &mut self,
        line: Line<'_>,
        tokens: &[Token<'_>],
        form: Form<'_>,
    ) -> Result<Taken, Stop>
        requires sound { IsSound self.old }
        ensures sound { OnOk result (IsSound self.new) }
        ensures count { OnOk result (self.old.count ≤ self.new.count) }
        ensures around { OnOk result (length self.new.around.items ≤ length self.old.around.items + 1) }
        ensures taken { Takes (seen line.entry) result (rest_of self.new) (moved (rest_of self.old).depth (rest_of self.old).around
            (by_head (head_seen form.entry.head) (rest_of self.old).depth (state_of self.old) (seen line.entry) (form_seen form.entry) (lexemes tokens.entry.now) (rest_of self.old).text)) }
    {
        match form.head {
            Head::Equ(name) => {
                self.constants.learn(self.alloc, name, form.rest)?;
                Ok(Taken::Line)
            }
            Head::Macro(name) => {
                self.define(line, form, name)?;
                Ok(Taken::Nothing)
            }
            Head::Block(BlockWord::Rept) if form.label.is_none() => {
                self.repetition(line, form.rest)?;
                Ok(Taken::Nothing)
            }
            Head::Block(BlockWord::If) if form.label.is_none() => {
                self.condition(line, form.rest)?;
                Ok(Taken::Nothing)
            }
            Head::Block(_) => Err(Stop::At(line.number, MacroFault::Stray)),
            Head::Word(name) if is_plain(&self.macros, name) => Ok(Taken::Line),
            Head::Word(name) => self.word(line, tokens, form, name),
            Head::Nothing => Ok(Taken::Line),
        }
    }

    /// Reads a line that was tokenized.
    fn take_form(&mut self, line: Line<'_>, tokens: &[Token<'_>]) -> Result<Taken, Stop>
        requires sound { IsSound self.old }
        requires scanned { scanned line.text.now ≡ Ok (lexemes tokens.now) }
        ensures sound { OnOk result (IsSound self.new) }
        ensures count { OnOk result (self.old.count < self.new.count) }
        ensures around { OnOk result (length self.new.around.items ≤ length self.old.around.items + 1) }
        ensures taken { Takes (seen line.entry) result (rest_of self.new) (moved (rest_of self.old).depth (rest_of self.old).around
            (line_part (rest_of self.old).depth (state_of self.old) (seen line.entry) (rest_of self.old).text)) }
    {
        let form = form_of(tokens);
        if !is_counted(form.head) {
            return Err(Stop::At(line.number, MacroFault::Stray));
        }
        if self.count >= MOST_LINES {
            return Err(Stop::At(line.number, MacroFault::TooManyLines));
        }
        self.count += 1;
        self.take_head(line, tokens, form)
    }

    /// Reads a line, which the rest of the current lines follows, and keeps its tokens.
    pub(crate) fn take<'b>(
        &mut self,
        line: Line<'b>,
        kept: &mut Option<Vec<Token<'b>>>,
    ) -> Result<Taken, Stop>
        requires sound { IsSound self.old }
        ensures sound { OnOk result (IsSound self.new) }
        ensures count { OnOk result (self.old.count < self.new.count) }
        ensures around { OnOk result (length self.new.around.items ≤ length self.old.around.items + 1) }
        ensures taken { Takes (seen line.entry) result (rest_of self.new) (moved (rest_of self.old).depth (rest_of self.old).around
            (line_part (rest_of self.old).depth (state_of self.old) (seen line.entry) (rest_of self.old).text)) }
        ensures kept { AreOf line.entry.text.now kept.new }
    {
        *kept = None;
        match tokens(self.alloc, line.text) {
            Ok(found) => {
                let taken = self.take_form(line, &found)?;
                *kept = Some(found);
                Ok(taken)
            }
            Err(ScanFault::NoMemory) => Err(Stop::NoMemory),
            Err(why) => {
                if self.count >= MOST_LINES {
                    return Err(Stop::At(line.number, MacroFault::TooManyLines));
                }
                Err(stopped(line.number, MacroFault::from(why)))
            }
        }
    }
}

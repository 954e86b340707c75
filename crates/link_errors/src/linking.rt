//! Reports the errors of the modules of sources together.

ghost use Rattle.std.specs.Prelude.{◌≡◌, [], All, IfOk, OnOk, map, string_bytes, true};
ghost use Rattle.std.specs.List.{list_any};
ghost use Rattle.report_texts.specs.Faults.Refusals.{program_refusal_text};
ghost use Rattle.report_texts.specs.Reports.{bears_name};
ghost use Rattle.link_errors.specs.Names.{link_name};
ghost use Rattle.zmo_object.specs.Modules.{module_of};
ghost use Rattle.zmo_object.specs.Rules.{IsModule};

use crate::joined::{NameLines, Sought, find};
use crate::reaching::{put_range, put_size};
use asm_module::{Lines, Module};
use common::{KeyMixer, NameKey};
use indexmap::IndexMap;
use message_texts::Note;
use report_texts::{Refusal, Report, Severity, Told, Where};
use std::alloc::{AllocError, Global};
use written_lines::{Site, Sources};
use zlink::{JoinFault, LinkFault, Misfit};

/// The names of errors as a refusal prints them.
///
/// # Errors
///
/// [`AllocError`] if memory ran out.
pub fn name_of(alloc: Global, refusal: Refusal) -> Result<String, AllocError>
    ensures { IfOk result (λ name. string_bytes name ≡ program_refusal_text [] refusal) }
{
    let told = Told { path: "", refusal };
    format!(in alloc; "{told}")
}

/// Answers a name as a text; bytes that are none of ASCII do not come in names.
pub(crate) fn shown<'a>(name: &'a [u8]) -> &'a str {
    match str::from_utf8(name) {
        Ok(text) => text,
        Err(_) => "?",
    }
}

/// Answers the report of an error of modules, with a note if there is one.
pub(crate) fn error_at(
    alloc: Global,
    at: Option<Where>,
    text: String,
    refusal: Refusal,
    note: Option<Note>,
) -> Result<Report, AllocError> {
    let mut notes = Vec::new(alloc);
    if let Some(note) = note {
        notes.push(note)?;
    }
    Ok(Report {
        severity: Severity::Error,
        at,
        text,
        name: name_of(alloc, refusal)?,
        notes,
    })
}

/// A public label: its module, and its number there.
#[derive(Clone, Copy)]
struct Public {
    module: usize,
    label: u16,
}

/// The public labels of modules by their names.
#[derive(Drop)]
struct Publics<'a> {
    names: IndexMap<&'a [u8], Public, NameKey>,
}

/// Mixes the names of public labels into a key.
fn mix(mixer: &mut KeyMixer, module: &Module) {
    for number in &module.publics {
        if let Some(label) = module.labels.get(usize::from(*number)) {
            mixer.mix(&label.name);
        }
    }
}

/// The key for a table of public labels.
fn key_of(modules: &[Module]) -> NameKey {
    let mut mixer = KeyMixer::new();
    for module in modules {
        mix(&mut mixer, module);
    }
    mixer.key()
}

/// The sources, and in each the lines of its names.
#[derive(Clone, Copy)]
struct Named<'n, 's, 'f> {
    sources: &'n Sources<'s, 'f>,
    names: &'n [NameLines],
}

impl<'n, 's, 'f> Named<'n, 's, 'f> {
    /// The line of a label of a source; 1 if it has none.
    fn label(&self, source: usize, name: &[u8]) -> u32 {
        match self.names.get(source) {
            Some(names) => names.label(name),
            None => 1,
        }
    }

    /// The line with the EXTRN of a name; the first line if there is none.
    fn external(&self, source: usize, name: &[u8]) -> Site<'n> {
        match self.names.get(source) {
            Some(names) => names.site(self.sources, source, name),
            None => Site::plain(1, self.sources.line(source, 1)),
        }
    }

    /// The external of this name, if its EXTRN is in a shared file, also in the body of a macro there: several sources may have that.
    fn shared(
        &self,
        alloc: Global,
        source: usize,
        name: &[u8],
    ) -> Result<Option<SharedExternal>, AllocError> {
        let line = self.external(source, name).line;
        if line as usize > self.sources.before {
            return Ok(None);
        }
        Ok(Some(SharedExternal {
            line,
            name: name.to_vec(alloc)?,
        }))
    }
}

/// An external that a line of a shared file declares.
#[derive(PartialEq, Eq, Hash, Drop)]
struct SharedExternal {
    /// The line, which in a macro is one of the body.
    line: u32,
    name: Vec<u8>,
}

/// The first of the sources that have an external of a shared file, and how many sources have it.
#[derive(Clone, Copy)]
struct Concerned {
    first: usize,
    count: usize,
}

/// The externals of shared files.
#[derive(Drop)]
struct SharedExternals {
    externals: IndexMap<SharedExternal, Concerned, NameKey>,
}

impl SharedExternals {
    /// Adds those of a module, which has this number.
    fn add(
        &mut self,
        alloc: Global,
        named: Named<'_, '_, '_>,
        number: usize,
        module: &Module,
    ) -> Result<(), AllocError> {
        for name in &module.externals {
            if let Some(shared) = named.shared(alloc, number, name)? {
                let (first, count) = match self.externals.get(&shared) {
                    Some(known) => (known.first, known.count),
                    None => (number, 0),
                };
                let count = count.saturating_add(1);
                self.externals.insert(shared, Concerned { first, count })?;
            }
        }
        Ok(())
    }

    /// How many sources the error of an external of this source concerns; None if an earlier source has it by the same line of a shared file.
    fn concerned(
        &self,
        alloc: Global,
        named: Named<'_, '_, '_>,
        number: usize,
        name: &[u8],
    ) -> Result<Option<usize>, AllocError> {
        let Some(shared) = named.shared(alloc, number, name)? else {
            return Ok(Some(1));
        };
        Ok(match self.externals.get(&shared) {
            Some(known) if known.first != number => None,
            Some(known) => Some(known.count),
            None => Some(1),
        })
    }
}

/// The externals of shared files that modules have.
fn shared_externals(
    alloc: Global,
    named: Named<'_, '_, '_>,
    modules: &[Module],
) -> Result<SharedExternals, AllocError> {
    let mut mixer = KeyMixer::new();
    for module in modules {
        mixer.mix_all(&module.externals);
    }
    let mut shared = SharedExternals {
        externals: IndexMap::with_hasher(alloc, mixer.key()),
    };
    for (number, module) in modules.iter().enumerate() {
        shared.add(alloc, named, number, module)?;
    }
    Ok(shared)
}

/// Answers the report of a label that is public in two modules.
fn twice(
    alloc: Global,
    named: Named<'_, '_, '_>,
    name: &[u8],
    first: Public,
    second: Public,
) -> Result<Report, AllocError> {
    let shown = shown(name);
    let line = named.label(second.module, name);
    let at = named.sources.named(alloc, second.module, line, name)?;
    let other = named
        .sources
        .located(first.module, named.label(first.module, name));
    let (path, line) = (other.path, other.line);
    let note = format!(in alloc; "first in {path}, line {line}")?;
    error_at(
        alloc,
        Some(at),
        format!(in alloc; "`{shown}` is public in two sources")?,
        Refusal::Modules(JoinFault::DefinedTwice(second.module, second.label)),
        Some(Note::Note(note)),
    )
}

impl<'a> Publics<'a> {
    /// Adds the public labels of a module, and reports those that are there already.
    fn add(
        &mut self,
        alloc: Global,
        named: Named<'_, '_, '_>,
        number: usize,
        module: &'a Module,
        reports: &mut Vec<Report>,
    ) -> Result<(), AllocError> {
        for label in &module.publics {
            let Some(found) = module.labels.get(usize::from(*label)) else {
                return Ok(());
            };
            let name = found.name.as_slice();
            let own = Public {
                module: number,
                label: *label,
            };
            match self.names.get(name).copied() {
                Some(first) => reports.push(twice(alloc, named, name, first, own)?)?,
                None => {
                    self.names.insert(name, own)?;
                }
            }
        }
        Ok(())
    }

    /// Reports the externals of a module that are public nowhere; one that a line of a shared file declares only for the first source.
    fn put_unresolved(
        &self,
        alloc: Global,
        named: Named<'_, '_, '_>,
        shared: &SharedExternals,
        number: usize,
        module: &Module,
        reports: &mut Vec<Report>,
    ) -> Result<(), AllocError> {
        for (external, name) in module.externals.iter().enumerate() {
            if self.names.get(name.as_slice()).is_none() {
                if let Some(count) = shared.concerned(alloc, named, number, name)? {
                    reports.push(unresolved(alloc, named, number, external, name, count)?)?;
                }
            }
        }
        Ok(())
    }
}

/// Answers the report of an external that is public nowhere, which this number of sources have.
fn unresolved(
    alloc: Global,
    named: Named<'_, '_, '_>,
    module: usize,
    external: usize,
    name: &[u8],
    count: usize,
) -> Result<Report, AllocError> {
    let shown = shown(name);
    let site = named.external(module, name);
    let mut report = error_at(
        alloc,
        Some(named.sources.mark(alloc, module, site, name)?),
        format!(in alloc; "`{shown}` is public in no source")?,
        Refusal::Modules(JoinFault::Unresolved(module, external)),
        Some(Note::Help(format!(in alloc;
            "write `PUBLIC {shown}` in the source that has the label, and give that source too"
        )?)),
    )?;
    named
        .sources
        .put_calls(alloc, module, site, &mut report.notes)?;
    if count > 1 {
        report.notes.push(Note::Note(format!(in alloc;
            "this EXTRN is in a shared file, and concerns {count} sources"
        )?))?;
    }
    Ok(report)
}

/// Reports all names that are public twice, and all externals that are public nowhere.
fn put_names(
    alloc: Global,
    sources: &Sources<'_, '_>,
    modules: &[Module],
    reports: &mut Vec<Report>,
) -> Result<(), AllocError> {
    let mut names = Vec::with_capacity(alloc, modules.len())?;
    for number in 0..modules.len() {
        names.push(NameLines::of(alloc, sources.text(number))?)?;
    }
    let named = Named {
        sources,
        names: &names,
    };
    let mut publics = Publics {
        names: IndexMap::with_hasher(alloc, key_of(modules)),
    };
    for (number, module) in modules.iter().enumerate() {
        publics.add(alloc, named, number, module, reports)?;
    }
    let shared = shared_externals(alloc, named, modules)?;
    for (number, module) in modules.iter().enumerate() {
        publics.put_unresolved(alloc, named, &shared, number, module, reports)?;
    }
    Ok(())
}

/// Answers the report of an ORG in a source that is not the first.
fn begins_late(
    alloc: Global,
    sources: &Sources<'_, '_>,
    module: usize,
) -> Result<Report, AllocError> {
    let path = sources.path(module);
    error_at(
        alloc,
        Some(find(alloc, sources, module, Sought::Origin)?),
        String::from_str(alloc, "only the first source may have an ORG")?,
        Refusal::Modules(JoinFault::BeginsNotFirst(module)),
        Some(Note::Help(format!(in alloc; "give {path} first, or leave the ORG out")?)),
    )
}

/// Answers the report of an END whose entry is not where the program begins.
fn entry_late(
    alloc: Global,
    sources: &Sources<'_, '_>,
    module: usize,
) -> Result<Report, AllocError> {
    error_at(
        alloc,
        Some(find(alloc, sources, module, Sought::End)?),
        String::from_str(
            alloc,
            "a program starts with its first statement, and END names another",
        )?,
        Refusal::Modules(JoinFault::EntryNotFirst(module)),
        Some(Note::Help(String::from_str(
            alloc,
            "begin the first source with a jump to the entry, and write END without a name",
        )?)),
    )
}

/// Reports the errors of modules together, given the first of them.
///
/// # Errors
///
/// [`AllocError`] if memory ran out.
pub fn put_link_errors(
    alloc: Global,
    sources: &Sources<'_, '_>,
    modules: &[Module],
    lines: &[Lines],
    fault: &LinkFault,
    reports: &mut Vec<Report>,
) -> Result<(), AllocError>
    requires { All IsModule (map module_of modules.now) }
{
    match fault {
        LinkFault::TooManyStatements => reports.push(error_at(
            alloc,
            None,
            String::from_str(alloc, "the program has more than 20,000 statements")?,
            Refusal::of_link(fault),
            None,
        )?)?,
        LinkFault::BeginsNotFirst(module) => reports.push(begins_late(alloc, sources, *module)?)?,
        LinkFault::EntryNotFirst(module) => reports.push(entry_late(alloc, sources, *module)?)?,
        LinkFault::DefinedTwice(..) | LinkFault::Unresolved(..) => {
            put_names(alloc, sources, modules, reports)?
        }
        LinkFault::NoFit {
            why: Misfit::Range(_),
            ..
        } => put_range(alloc, sources, modules, lines, reports)?,
        LinkFault::NoFit {
            why: Misfit::TooLarge(total),
            ..
        } => put_size(alloc, sources, modules, lines, *total, reports)?,
        LinkFault::NoMemory => return Err(AllocError),
    }
    Ok(())
}

/// Answers the report of an error of modules that says this, and has no place.
fn plain(alloc: Global, fault: &LinkFault, text: String) -> Result<Report, AllocError>
    ensures { IfOk result (λ r. bears_name (link_name fault.now) r ≡ true) }
{
    Ok(Report {
        severity: Severity::Error,
        at: None,
        text,
        name: name_of(alloc, Refusal::of_link(fault))?,
        notes: Vec::new(alloc),
    })
}

/// Appends the report of an error of modules, about which nothing else is known.
///
/// # Errors
///
/// [`AllocError`] if memory ran out.
pub fn put_plain(
    alloc: Global,
    fault: &LinkFault,
    reports: &mut Vec<Report>,
) -> Result<(), AllocError>
    ensures { OnOk result (list_any (bears_name (link_name fault.now)) reports.new.items ≡ true) }
{
    let text = String::from_str(alloc, "the sources cannot be linked")?;
    let report = plain(alloc, fault, text)?;
    reports.push(report)?;
    Ok(())
}

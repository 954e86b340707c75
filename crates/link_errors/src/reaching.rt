//! Reports jumps that do not reach their targets, and programs that are too large.

ghost use Rattle.std.specs.Prelude.{All, map};
ghost use Rattle.zmo_object.specs.Modules.{module_of};
ghost use Rattle.zmo_object.specs.Rules.{IsModule};

use crate::linking::{error_at, shown};
use asm_module::{Lines, Module};
use message_texts::Note;
use relax::least;
use report_texts::{Refusal, Report};
use std::alloc::{AllocError, Global};
use written_lines::{Expansions, Site, Sources, mentioned};
use z80_instr::{Branch, ShortCond};
use zlink::laws::laid_out;
use zlink::{Links, Misfit, join, places_of, shape_of};
use zmo_object::Statement;

/// How far a short jump reaches, counted from the next statement.
const FARTHEST: u32 = 127;

const FARTHEST_BACK: u32 = 128;

/// The most bytes that a program may take.
const MOST_BYTES: u32 = 64_512;

/// How many bytes a short jump takes.
const SHORT: u32 = 2;

/// The modules of a program, the files and lines that they come from, and where their statements are in the choice of jumps that takes the
/// fewest bytes.
#[derive(Drop)]
struct Placed<'p, 'f> {
    sources: &'p Sources<'p, 'f>,
    modules: &'p [Module],
    lines: &'p [Lines],
    links: Vec<Links>,
    places: Vec<u32>,
    expansions: Expansions,
}

/// A jump that does not reach its target.
#[derive(Clone, Copy)]
struct Far {
    branch: Branch,
    distance: u32,
    is_back: bool,
}

/// Answers where the statements of modules are.
fn place_all<'p, 'f>(
    alloc: Global,
    sources: &'p Sources<'p, 'f>,
    modules: &'p [Module],
    lines: &'p [Lines],
) -> Result<Placed<'p, 'f>, AllocError>
    requires { All IsModule (map module_of modules.now) }
{
    laid_out();
    let links = match join(alloc, modules) {
        Ok(links) => links,
        Err(_) => return Err(AllocError),
    };
    let shape = shape_of(alloc, modules, &links)?;
    let growth = least(alloc, &shape)?;
    let places = places_of(alloc, shape.statements(), &growth.long)?;
    Ok(Placed {
        sources,
        modules,
        lines,
        links,
        places,
        expansions: Expansions::of(alloc, sources)?,
    })
}

impl<'p, 'f> Placed<'p, 'f> {
    /// Answers the address of a statement of the program.
    fn place(&self, statement: usize) -> u32 {
        match self.places.get(statement) {
            Some(place) => *place,
            None => 0,
        }
    }

    /// Answers the number in the program of the statement for which a ref of a module stands.
    fn statement_of(&self, number: usize, module: &Module, reference: usize) -> usize {
        let Some(links) = self.links.get(number) else {
            return 0;
        };
        let count = module.statements.len();
        if reference <= count {
            return (links.base as usize).saturating_add(reference);
        }
        match links.externals.get(reference - count - 1) {
            Some(statement) => *statement as usize,
            None => 0,
        }
    }

    /// Answers how a jump misses its target that is always short; None if it does not.
    fn far(
        &self,
        number: usize,
        module: &'p Module,
        at: usize,
        branch: Branch,
        reference: usize,
    ) -> Option<Far> {
        let own = self.statement_of(number, module, at);
        let next = self.place(own).saturating_add(SHORT);
        let target = self.place(self.statement_of(number, module, reference));
        let is_back = target < next;
        let distance = next.abs_diff(target);
        let most = if is_back { FARTHEST_BACK } else { FARTHEST };
        if distance <= most {
            return None;
        }
        Some(Far {
            branch,
            distance,
            is_back,
        })
    }

    /// Answers the number of the line of a statement; 0 if there is no such statement.
    fn line_at(&self, module: usize, statement: usize) -> u32 {
        let Some(own) = self.lines.get(module) else {
            return 0;
        };
        match own.each.get(statement) {
            Some(line) => *line,
            None => 0,
        }
    }

    /// Answers the name for which a ref of a module stands in a line.
    fn name(
        &self,
        alloc: Global,
        line: &[u8],
        module: &'p Module,
        reference: usize,
    ) -> Result<&'p [u8], AllocError> {
        let count = module.statements.len();
        if reference <= count {
            return mentioned(alloc, line, module, reference);
        }
        match module.externals.get(reference - count - 1) {
            Some(name) => Ok(name),
            None => Ok(b"?"),
        }
    }

    /// Answers the report of a jump that does not reach its target, which has this name.
    fn report(
        &self,
        alloc: Global,
        number: usize,
        statement: u32,
        site: Site<'_>,
        far: Far,
        target: &[u8],
    ) -> Result<Report, AllocError> {
        let at = self.sources.mark(alloc, number, site, target)?;
        let name = site.own_text(alloc, shown(target))?;
        let help = Note::Help(far.help(alloc, &name)?);
        let text = far.text(alloc, &name)?;
        let refusal = Refusal::NoFit(Misfit::Range(statement));
        let mut report = error_at(alloc, Some(at), text, refusal, Some(help))?;
        self.sources
            .put_calls(alloc, number, site, &mut report.notes)?;
        Ok(report)
    }

    /// Reports a statement, if it is a jump that does not reach its target.
    fn put_statement(
        &self,
        alloc: Global,
        number: usize,
        module: &'p Module,
        at: usize,
        reports: &mut Vec<Report>,
    ) -> Result<(), AllocError> {
        let Some(Statement::Short { branch, target }) = module.statements.get(at) else {
            return Ok(());
        };
        let Some(far) = self.far(number, module, at, *branch, usize::from(*target)) else {
            return Ok(());
        };
        let statement = u32::try_from(self.statement_of(number, module, at)).unwrap_or(u32::MAX);
        let line = self.line_at(number, at);
        let site = self.expansions.site(self.sources, number, at, line);
        let name = self.name(alloc, site.text, module, usize::from(*target))?;
        reports.push(self.report(alloc, number, statement, site, far, name)?)?;
        Ok(())
    }

    /// Reports the jumps of a module that do not reach their targets.
    fn put_module(
        &self,
        alloc: Global,
        number: usize,
        module: &'p Module,
        reports: &mut Vec<Report>,
    ) -> Result<(), AllocError> {
        for at in 0..module.statements.len() {
            self.put_statement(alloc, number, module, at, reports)?;
        }
        Ok(())
    }

    /// Answers how many bytes a module takes.
    fn size(&self, number: usize, module: &Module) -> u32 {
        let first = self.place(self.statement_of(number, module, 0));
        let end = self.place(self.statement_of(number, module, module.statements.len()));
        end.saturating_sub(first)
    }
}

/// Answers how a condition is written in a jump, with its comma.
fn condition_text(condition: Option<ShortCond>) -> &'static str {
    match condition {
        None => "",
        Some(ShortCond::NotZero) => "NZ,",
        Some(ShortCond::Zero) => "Z,",
        Some(ShortCond::NotCarry) => "NC,",
        Some(ShortCond::Carry) => "C,",
    }
}

impl Far {
    /// What is wrong with a jump to the label of this name.
    fn text(&self, alloc: Global, name: &str) -> Result<String, AllocError> {
        let word = match self.branch {
            Branch::Relative(_) => "JR",
            Branch::CountDown => "DJNZ",
        };
        let distance = self.distance;
        if self.is_back {
            let over = distance.saturating_sub(FARTHEST_BACK);
            return format!(in alloc;
                "`{name}` is {distance} bytes back, {over} too many for {word} (at most 128 back)"
            );
        }
        let over = distance.saturating_sub(FARTHEST);
        format!(in alloc;
            "`{name}` is {distance} bytes away, {over} too many for {word} (at most 127 forward)"
        )
    }

    /// What to write instead.
    fn help(&self, alloc: Global, name: &str) -> Result<String, AllocError> {
        match self.branch {
            Branch::Relative(condition) => {
                let condition = condition_text(condition);
                format!(in alloc; "write `JP {condition}{name}`, or build with --grow")
            }
            Branch::CountDown => format!(in alloc;
                "write `DEC B` and `JP NZ,{name}`; unlike DJNZ, DEC changes flags"
            ),
        }
    }
}

/// Reports all jumps that are always short and do not reach their targets, in the choice of the others that takes the fewest bytes.
pub(crate) fn put_range(
    alloc: Global,
    sources: &Sources<'_, '_>,
    modules: &[Module],
    lines: &[Lines],
    reports: &mut Vec<Report>,
) -> Result<(), AllocError>
    requires { All IsModule (map module_of modules.now) }
{
    let placed = place_all(alloc, sources, modules, lines)?;
    for (number, module) in modules.iter().enumerate() {
        placed.put_module(alloc, number, module, reports)?;
    }
    Ok(())
}

/// Appends how many bytes a module takes, as a note.
fn put_size_of(
    alloc: Global,
    placed: &Placed<'_, '_>,
    number: usize,
    module: &Module,
    notes: &mut Vec<Note>,
) -> Result<(), AllocError> {
    let path = placed.sources.path(number);
    let bytes = placed.size(number, module);
    notes.push(Note::Note(format!(in alloc; "{path} takes {bytes} bytes")?))?;
    Ok(())
}

/// Reports that a program takes too many bytes.
pub(crate) fn put_size(
    alloc: Global,
    sources: &Sources<'_, '_>,
    modules: &[Module],
    lines: &[Lines],
    total: u32,
    reports: &mut Vec<Report>,
) -> Result<(), AllocError>
    requires { All IsModule (map module_of modules.now) }
{
    let placed = place_all(alloc, sources, modules, lines)?;
    let over = total.saturating_sub(MOST_BYTES);
    let text = format!(in alloc;
        "the program takes at least {total} bytes, {over} too many (at most {MOST_BYTES})"
    )?;
    let mut report = error_at(
        alloc,
        None,
        text,
        Refusal::NoFit(Misfit::TooLarge(total)),
        None,
    )?;
    for (number, module) in modules.iter().enumerate() {
        put_size_of(alloc, &placed, number, module, &mut report.notes)?;
    }
    reports.push(report)?;
    Ok(())
}

//! Builds each case and tests the answer.

use crate::choices::{FEW, count_of, fewest};
use crate::layout::{Layout, MOST, Shape, layout_of, shape_of};
use crate::listings::listed;
use crate::missed::Missed;
use crate::reading::first_other;
use crate::walks::walk;
use asm_expr::ExprFault::DivideByZero;
use asm_line::ScanFault::{BadNumber, OpenString};
use cert_check::{Verdict, check};
use program_map::listing;
use std::alloc::{AllocError, Global};
use z80dev_cases::{Case, Spoil, Spoiled, random_program};
use zlink::MacroFault::{ConditionNamesLabel, Scan, Stray};
use zlink::StmtFault::{
    BadOperands, BadOrg, ByteRange, Expr, NeedsLowOrHigh, ReservedName, SizeNamesLabel, UnknownWord,
};
use zlink::Why::{self, Duplicate, EquCircle, Macro, Stmt, Undefined};
use zlink::{AsmFault, BuildFault, Built, LinkFault, Misfit, Source, build};

/// The number of cases with each kind of answer.
#[derive(Clone, Copy, Debug)]
pub struct Tally {
    /// Cases that were built, and the number of steps that they ran in all.
    pub built: u32,
    pub turns: u64,
    /// Cases that were refused for their wrong line.
    pub spoiled: u32,
    /// Cases that were refused because a short jump does not reach, or for their size.
    pub range: u32,
    pub size: u32,
    /// Cases for which all choices of short and long jumps were tried.
    pub tried: u32,
}

impl Tally {
    pub fn new() -> Tally {
        Tally {
            built: 0,
            turns: 0,
            spoiled: 0,
            range: 0,
            size: 0,
            tried: 0,
        }
    }
}

/// The error of a wrong line.
fn why_of(spoil: Spoil) -> Why {
    match spoil {
        Spoil::UnknownWord => Stmt(UnknownWord),
        Spoil::Undefined => Undefined,
        Spoil::ByteRange => Stmt(ByteRange),
        Spoil::OpenString => Macro(Scan(OpenString)),
        Spoil::DivideByZero => Stmt(Expr(DivideByZero)),
        Spoil::BadOperands => Stmt(BadOperands),
        Spoil::BadNumber => Macro(Scan(BadNumber)),
        Spoil::NeedsLowOrHigh => Stmt(NeedsLowOrHigh),
        Spoil::ReservedName => Stmt(ReservedName),
        Spoil::BadOrg => Stmt(BadOrg),
        Spoil::SizeNamesLabel => Stmt(SizeNamesLabel),
        Spoil::ConditionNamesLabel => Macro(ConditionNamesLabel),
        Spoil::Stray => Macro(Stray),
        Spoil::EquCircle => EquCircle,
        Spoil::Duplicate => Duplicate,
    }
}

/// The sources of a case, each named with a letter.
fn sources_of<'a>(alloc: Global, case: &'a Case) -> Result<Vec<Source<'a>>, AllocError> {
    let names: [&'static [u8]; 3] = [b"A", b"B", b"C"];
    let mut sources = Vec::new(alloc);
    for (name, text) in names.iter().zip(&case.texts) {
        sources.push(Source { name, text })?;
    }
    Ok(sources)
}

/// Tests that each statement is at its address, comes from its line and has its own bytes.
fn check_statements(case: &Case, layout: &Layout, built: &Built) -> Result<(), Missed> {
    let is_counted = built.statements.len() == case.statements.len();
    if !is_counted || built.com.len() != layout.total() as usize {
        return Err(Missed::Length);
    }
    for (number, (origin, stated)) in built.statements.iter().zip(&case.statements).enumerate() {
        let is_right = origin.place == layout.place(number)
            && origin.source == stated.source
            && origin.line == stated.line;
        if !is_right {
            return Err(Missed::Origin(number));
        }
    }
    match first_other(case, layout, &built.com) {
        Some(number) => Err(Missed::Bytes(number)),
        None => Ok(()),
    }
}

/// Tests that a listing has the bytes of the file.
fn check_listing(alloc: Global, case: &Case, built: &Built) -> Result<(), Missed> {
    let sources = sources_of(alloc, case)?;
    let text = listing(alloc, built, &sources)?;
    match listed(alloc, &text)? {
        Some(bytes) if bytes == built.com => Ok(()),
        _ => Err(Missed::Listing),
    }
}

/// Tests that the checker proves this verdict.
fn check_verdict(alloc: Global, sizes: &[u8], cert: &[u8], wanted: Verdict) -> Result<(), Missed> {
    match check(alloc, sizes, cert) {
        Ok(verdict) if verdict == wanted => Ok(()),
        _ => Err(Missed::Certificate),
    }
}

/// Tests what was built, and answers the number of steps that it ran.
fn check_built(alloc: Global, case: &Case, layout: &Layout, built: &Built) -> Result<u64, Missed> {
    check_statements(case, layout, built)?;
    let best = Verdict::Best(layout.total());
    check_verdict(alloc, &built.sizes, &built.cert, best)?;
    check_listing(alloc, case, built)?;
    walk(alloc, case, layout, &built.com)
}

/// Tests that a case is refused because no choice fits, for this reason.
fn check_unfit(alloc: Global, fault: &LinkFault, wanted: Misfit) -> Result<(), Missed> {
    let LinkFault::NoFit { why, sizes, cert } = fault else {
        return Err(Missed::Refusal);
    };
    if *why != wanted {
        return Err(Missed::Refusal);
    }
    let verdict = match wanted {
        Misfit::Range(statement) => Verdict::Range(statement),
        Misfit::TooLarge(total) => Verdict::TooLarge(total),
    };
    check_verdict(alloc, sizes, cert, verdict)
}

/// Tests, for a small case, that no choice of jumps has fewer bytes.
fn check_fewest(alloc: Global, shape: &Shape, layout: &Layout) -> Result<(), Missed> {
    let wanted = match layout.out_of_range {
        Some(_) => None,
        None => Some(layout.total()),
    };
    if fewest(alloc, shape)? == wanted {
        Ok(())
    } else {
        Err(Missed::Fewest)
    }
}

/// Why no choice fits, if none does.
fn misfit_of(layout: &Layout) -> Option<Misfit> {
    match layout.out_of_range {
        Some(statement) => Some(Misfit::Range((statement % 65_536) as u32)),
        None if layout.total() > MOST => Some(Misfit::TooLarge(layout.total())),
        None => None,
    }
}

/// Tests the answer for a case without a wrong line.
fn check_answer(
    alloc: Global,
    case: &Case,
    answer: &Result<Built, BuildFault>,
    tally: &mut Tally,
) -> Result<(), Missed> {
    let shape = shape_of(alloc, case)?;
    let layout = layout_of(alloc, &shape)?;
    if count_of(&shape) <= FEW {
        check_fewest(alloc, &shape, &layout)?;
        tally.tried = tally.tried.saturating_add(1);
    }
    match (answer, misfit_of(&layout)) {
        (Ok(built), None) => {
            let turns = check_built(alloc, case, &layout, built)?;
            tally.built = tally.built.saturating_add(1);
            tally.turns = tally.turns.saturating_add(turns);
            Ok(())
        }
        (Err(BuildFault::Link(fault)), Some(wanted)) => {
            check_unfit(alloc, fault, wanted)?;
            match wanted {
                Misfit::Range(_) => tally.range = tally.range.saturating_add(1),
                Misfit::TooLarge(_) => tally.size = tally.size.saturating_add(1),
            }
            Ok(())
        }
        (Ok(_), Some(_)) => Err(Missed::Built),
        (Err(_), _) => Err(Missed::Refusal),
    }
}

/// Builds a case.
fn answer_of(alloc: Global, case: &Case) -> Result<Result<Built, BuildFault>, AllocError> {
    let sources = sources_of(alloc, case)?;
    Ok(build(alloc, &sources))
}

/// Tests that a case is refused for its wrong line.
fn check_spoiled(answer: &Result<Built, BuildFault>, spoiled: Spoiled) -> Result<(), Missed> {
    let fault = AsmFault {
        line: spoiled.line,
        why: why_of(spoiled.why),
    };
    let wanted = BuildFault::Asm {
        source: spoiled.source,
        fault,
    };
    match answer {
        Err(found) if *found == wanted => Ok(()),
        Err(_) => Err(Missed::Refusal),
        Ok(_) => Err(Missed::Built),
    }
}

/// Builds the random program of a seed, and compares the whole answer with what plain code computes.
///
/// # Errors The first difference.
pub fn try_program(alloc: Global, seed: u64, tally: &mut Tally) -> Result<(), Missed> {
    let case = random_program(alloc, seed)?;
    let answer = answer_of(alloc, &case)?;
    match case.spoiled {
        Some(spoiled) => {
            check_spoiled(&answer, spoiled)?;
            tally.spoiled = tally.spoiled.saturating_add(1);
            Ok(())
        }
        None => check_answer(alloc, &case, &answer, tally),
    }
}

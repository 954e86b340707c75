//! Counts the bytes and the jumps of a module.

ghost use Rattle.std.specs.Prelude.{◌≡◌, ◌≤◌, ◌<◌, ◌+◌, ◌-◌, ◌==◌, ◌&&◌, ◌^◌, if◌then◌else◌, length, map, slice_index};
ghost use Rattle.zmo_object.specs.Modules.{statement_of};
ghost use Rattle.program_map.specs.Figures.{Ascend, CountedStatement, all_counted, is_code_kind, is_data_kind, is_relaxable_statement, is_space_kind, kind_at};
ghost use Rattle.program_map.specs.Figures as spec;
ghost use Rattle.program_map.specs.Private.Adding.{added, seen_kinds};

use crate::maps::kind::Kind;
use zmo_object::Statement;

/// How many bytes and relaxable jumps a module has.
#[derive(Clone, Copy, Debug, PartialEq, Eq)]
pub struct Figures {
    /// The bytes of its instructions. If nothing but its object file is known, those of its data too.
    pub code: u32,
    /// The bytes of its `DB` and `DW` lines.
    pub data: u32,
    /// The bytes of its `DS` lines.
    pub space: u32,
    /// The jumps that may be short or long.
    pub jumps: usize,
    /// Those of them that are short.
    pub short: usize,
    /// Those of them that are long.
    pub long: usize,
}

/// The figures of a module without statements.
pub(crate) const NOTHING: Figures = Figures {
    code: 0,
    data: 0,
    space: 0,
    jumps: 0,
    short: 0,
    long: 0,
};

/// Answers what an object file tells of a statement.
fn kind_in_object(statement: &Statement) -> Kind
    ensures { result ≡ spec.kind_in_object (statement_of statement.now) }
{
    match statement {
        Statement::Space { .. } => Kind::Space,
        _ => Kind::Code,
    }
}

/// Answers what a statement is, by the source if that is known, and otherwise by the object.
fn kind_of(kinds: Option<&[Kind]>, number: usize, statement: &Statement) -> Kind
    ensures { result ≡ kind_at (seen_kinds kinds.entry) number (statement_of statement.now) }
{
    let Some(kinds) = kinds else {
        return kind_in_object(statement);
    };
    match kinds.get(number) {
        Some(kind) => *kind,
        None => kind_in_object(statement),
    }
}

/// Whether a statement is a jump that may be short or long.
fn is_relaxable(statement: &Statement) -> bool
    ensures { result ≡ is_relaxable_statement (statement_of statement.now) }
{
    matches!(statement, Statement::Jump { .. })
}

/// Answers a number of bytes, or 0 if the condition does not hold.
fn bytes_if(holds: bool, bytes: u32) -> u32
    ensures { result ≡ if holds then bytes else 0 }
{
    if holds { bytes } else { 0 }
}

/// Answers 1, or 0 if the condition does not hold.
fn one_if(holds: bool) -> usize
    ensures { result ≡ if holds then 1 else 0 }
{
    if holds { 1 } else { 0 }
}

/// Answers figures with one more statement.
fn with_statement(figures: Figures, kind: Kind, bytes: u32, is_jump: bool) -> Figures
    requires bytes { figures.code + figures.data + figures.space + bytes < 2 ^ 32 }
    requires jumps { (figures.jumps + 1 < 2 ^ 64) × (figures.short + 1 < 2 ^ 64) × (figures.long + 1 < 2 ^ 64) }
    ensures { result ≡ added figures (record { kind = kind; bytes = bytes; relaxable = is_jump }) }
{
    Figures {
        code: figures.code + bytes_if(matches!(kind, Kind::Code), bytes),
        data: figures.data + bytes_if(matches!(kind, Kind::Data), bytes),
        space: figures.space + bytes_if(matches!(kind, Kind::Space), bytes),
        jumps: figures.jumps + one_if(is_jump),
        short: figures.short + one_if(is_jump && bytes == 2),
        long: figures.long + one_if(is_jump && bytes == 3),
    }
}

/// Answers the figures of a module, given what its statements are, their addresses and that of their end.
pub(crate) fn figures_of(
    kinds: Option<&[Kind]>,
    places: &[u32],
    statements: &[Statement],
) -> Figures
    requires ascend { Ascend places.now }
    requires long { length statements.now < length places.now }
    ensures figures { result ≡ spec.figures (all_counted (seen_kinds kinds.entry) places.now (map statement_of statements.now)) }
    ensures bytes { slice_index places.now 0 + (result.code + result.data + result.space) ≡ slice_index places.now (length statements.now) }
    ensures jumps { (result.jumps ≤ length statements.now) × (result.short ≤ length statements.now) × (result.long ≤ length statements.now) }
{
    let mut figures = NOTHING;
    for (number, statement) in statements.iter().enumerate() {
        let kind = kind_of(kinds, number, statement);
        let bytes = places[number + 1] - places[number];
        figures = with_statement(figures, kind, bytes, is_relaxable(statement));
    }
    figures
}

//! Finds the addresses of the statements of a case, with as many short jumps as possible. For each address it adds up the sizes from the
//! beginning. It makes a jump that does not reach long, until none is left.

use std::alloc::{AllocError, Global};
use z80_table::size;
use z80dev_cases::{Case, Kind};

/// The most bytes that a program can have.
pub(crate) const MOST: u32 = 64_512;

/// A jump with a target that can be short.
#[derive(Clone, Copy)]
pub(crate) struct Jump {
    pub(crate) statement: usize,
    pub(crate) target: usize,
    /// Whether it has a long form.
    pub(crate) may_grow: bool,
}

/// The sizes of the statements if all jumps are short, and the jumps.
#[derive(Drop)]
pub(crate) struct Shape {
    pub(crate) sizes: Vec<u32>,
    pub(crate) jumps: Vec<Jump>,
}

/// The addresses of the statements and of the end, and which jumps are long.
#[derive(Drop)]
pub(crate) struct Layout {
    pub(crate) places: Vec<u32>,
    pub(crate) long: Vec<bool>,
    /// The number of the first jump that is always short and does not reach.
    pub(crate) out_of_range: Option<usize>,
}

impl Layout {
    /// The address of a statement, or of the end if it is after the last one.
    pub(crate) fn place(&self, statement: usize) -> u32 {
        match self.places.get(statement) {
            Some(place) => *place,
            None => 0,
        }
    }

    /// The number of bytes.
    pub(crate) fn total(&self) -> u32 {
        match self.places.last() {
            Some(end) => end.saturating_sub(0x100),
            None => 0,
        }
    }

    pub(crate) fn is_long(&self, statement: usize) -> bool {
        matches!(self.long.get(statement), Some(true))
    }
}

/// The number of the statement of a label.
pub(crate) fn target_of(case: &Case, label: usize) -> usize {
    match case.labels.get(label) {
        Some(statement) => *statement,
        None => 0,
    }
}

fn size_of_kind(kind: Kind) -> u32 {
    match kind {
        Kind::Code(instr) | Kind::Labelled(instr, _, _) => u32::from(size(&instr)),
        Kind::Jump(..) | Kind::Short(..) | Kind::Place(..) => 2,
        Kind::Data(_, count) => (count % 65_536) as u32,
        Kind::Half(..) => 1,
        Kind::Space(count, _) => u32::from(count),
    }
}

/// The shape of a case.
pub(crate) fn shape_of(alloc: Global, case: &Case) -> Result<Shape, AllocError> {
    let mut sizes = Vec::new(alloc);
    let mut jumps = Vec::new(alloc);
    for (statement, stated) in case.statements.iter().enumerate() {
        sizes.push(size_of_kind(stated.kind))?;
        if let Kind::Jump(_, label) | Kind::Short(_, label) = stated.kind {
            jumps.push(Jump {
                statement,
                target: target_of(case, label),
                may_grow: matches!(stated.kind, Kind::Jump(..)),
            })?;
        }
    }
    Ok(Shape { sizes, jumps })
}

/// The addresses with a choice of long jumps.
pub(crate) fn places_of(
    alloc: Global,
    shape: &Shape,
    long: &[bool],
) -> Result<Vec<u32>, AllocError> {
    let mut places = Vec::new(alloc);
    let mut place: u32 = 0x100;
    for (statement, size) in shape.sizes.iter().enumerate() {
        places.push(place)?;
        let more = if matches!(long.get(statement), Some(true)) {
            1
        } else {
            0
        };
        place = place.saturating_add(size.saturating_add(more));
    }
    places.push(place)?;
    Ok(places)
}

/// Whether a short jump reaches its target, which has to be at most 126 bytes before its address and at most 129 after it.
pub(crate) fn reaches(places: &[u32], jump: Jump) -> bool {
    match (places.get(jump.statement), places.get(jump.target)) {
        (Some(from), Some(to)) => to.saturating_add(126) >= *from
            && *to <= from.saturating_add(129),
        _ => false,
    }
}

/// The layout of a shape with the fewest long jumps.
pub(crate) fn layout_of(alloc: Global, shape: &Shape) -> Result<Layout, AllocError> {
    let mut long = vec![in alloc; false; shape.sizes.len()]?;
    for _ in 0..shape.jumps.len() {
        let places = places_of(alloc, shape, &long)?;
        let mut has_grown = false;
        for jump in &shape.jumps {
            if jump.may_grow && !reaches(&places, *jump) {
                if let Some(is_long) = long.get_mut(jump.statement) {
                    has_grown = has_grown || !*is_long;
                    *is_long = true;
                }
            }
        }
        if !has_grown {
            break;
        }
    }
    let places = places_of(alloc, shape, &long)?;
    let mut out_of_range = None;
    for jump in &shape.jumps {
        if !jump.may_grow && out_of_range.is_none() && !reaches(&places, *jump) {
            out_of_range = Some(jump.statement);
        }
    }
    Ok(Layout {
        places,
        long,
        out_of_range,
    })
}

//! Sorts the bytes of a file by the source lines that they come from.

ghost use Rattle.std.specs.Prelude.{◌≡◌, ◌++◌, ◌-◌, ◌≤◌, ℕ, IfOk, List, OnOk, Option, filter, length, map};
ghost use Rattle.std.specs.List.{flat_map, prefix_len};
ghost use Rattle.zlink.specs.Built.{origin_of};
ghost use Rattle.program_map.specs.Listings.Listing.{file_between, file_bytes};
ghost use Rattle.program_map.specs.Listings.Listing as spec;
ghost use Rattle.program_map.specs.Private.Runs.{Ascends, HasLines, IsBehind, cell_of, cells_in, is_before, is_on};

use common::FIRST_PLACE;
use std::alloc::{AllocError, Global};
use zlink::Origin;

/// A byte of a file, and the source line that it comes from.
#[derive(Clone, Copy, Debug, PartialEq, Eq)]
pub(crate) struct Cell {
    /// The number of its source, from 0.
    pub(crate) source: usize,
    /// The number of its line, from 1.
    pub(crate) line: u32,
    /// Its number in the file, from 0.
    pub(crate) number: usize,
    pub(crate) value: u8,
}

/// Answers the address of the first of some statements.
fn first_place(statements: &[Origin]) -> Option<u32>
    ensures { result ≡ spec.first_place (map origin_of statements.now) }
{
    match statements {
        [first, ..] => Some(first.place),
        [] => None,
    }
}

/// Answers how many bytes of the file come before an address.
fn count_before(place: u32) -> usize
    ensures { result ≡ place - FIRST_PLACE }
{
    place.saturating_sub(FIRST_PLACE) as usize
}

/// Answers the bytes from an address up to the next one, or to the end if there is no next one.
fn between(file: &[u8], place: u32, next: Option<u32>) -> &[u8]
    ensures { result.now ≡ spec.file_between place next file.now }
{
    let bytes = file.get(count_before(place)..).unwrap_or(&[]);
    match next {
        Some(next) => bytes
            .get(..next.saturating_sub(place) as usize)
            .unwrap_or(bytes),
        None => bytes,
    }
}

/// Appends the bytes of a statement, given the address of the next one if there is one.
fn put_cells(
    cells: &mut Vec<Cell>,
    file: &[u8],
    origin: &Origin,
    next: Option<u32>,
) -> Result<(), AllocError>
    ensures { OnOk result (cells.new.items ≡ cells.old.items ++ map (cell_of origin.now.source origin.now.line) (spec.file_between origin.now.place next (file_bytes file.now))) }
{
    let Origin {
        place,
        source,
        line,
    } = *origin;
    let first = count_before(place);
    for (index, value) in between(file, place, next).iter().enumerate() {
        cells.push(Cell {
            source,
            line,
            number: first + index,
            value: *value,
        })?;
    }
    Ok(())
}

/// Answers the bytes of all statements, in their order.
fn all_cells(alloc: Global, file: &[u8], statements: &[Origin]) -> Result<Vec<Cell>, AllocError>
    ensures { IfOk result (λ cells. cells.items ≡ flat_map cells_in (spec.listed_statements (file_bytes file.now) (map origin_of statements.now))) }
{
    let mut cells = Vec::new(alloc);
    let mut rest = statements;
    while let Some((origin, behind)) = rest.split_first() {
        put_cells(&mut cells, file, origin, first_place(behind))?;
        rest = behind;
    }
    Ok(cells)
}

/// Answers the bytes of all statements by line. The bytes of one line are in the order of its statements.
pub(crate) fn cells_by_line(
    alloc: Global,
    file: &[u8],
    statements: &[Origin],
) -> Result<Vec<Cell>, AllocError>
    ensures { IfOk result (λ cells. HasLines (λ _ _. Unit {0}) cells.items (flat_map cells_in (spec.listed_statements (file_bytes file.now) (map origin_of statements.now)))) }
{
    let mut cells = all_cells(alloc, file, statements)?;
    cells.sort_by_key(|cell| (cell.source, cell.line))?;
    Ok(cells)
}

/// Answers how many cells at the front belong to lines before this one.
fn count_passed(cells: &[Cell], source: usize, line: u32) -> usize
    ensures value { result ≡ prefix_len (is_before source line) cells.now }
    ensures within { result ≤ length cells.now }
{
    cells
        .iter()
        .take_while(|cell| cell.source < source || cell.source == source && cell.line < line)
        .count()
}

/// Answers how many cells at the front belong to this line.
fn count_on(cells: &[Cell], source: usize, line: u32) -> usize
    ensures value { result ≡ prefix_len (is_on source line) cells.now }
    ensures within { result ≤ length cells.now }
{
    cells
        .iter()
        .take_while(|cell| cell.source == source && cell.line == line)
        .count()
}

/// Answers the cells of a line, and those of the lines after it.
pub(crate) fn split_line(cells: &[Cell], source: usize, line: u32) -> (&[Cell], &[Cell])
    requires { Ascends cells.now }
    ensures own { result.0.now ≡ filter (is_on source line) cells.now }
    ensures others { HasLines (IsBehind source line) result.1.now cells.now }
{
    let (_, rest) = cells.split_at(count_passed(cells, source, line));
    rest.split_at(count_on(rest, source, line))
}

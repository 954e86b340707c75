//! Tables of names for rows.

ghost use Rattle.asm_expr.specs.Names.{IsCounted};

use asm_expr::{Meaning, Names, Tree, equate, is_defined, parse};
use asm_line::tokens;
use row_text::Row;
use std::alloc::{AllocError, Global};

/// Parses an expression. None if it has an error.
pub(crate) fn tree_of(alloc: Global, text: &[u8]) -> Option<Tree> {
    parse(alloc, &tokens(alloc, text).ok()?).ok()
}

/// Defines a name that is not defined yet.
pub(crate) fn define(row: &mut Row, names: &mut Names, name: &[u8], meaning: Meaning)
    requires { IsCounted meaning }
{
    let Ok(name) = name.to_vec(row.alloc()) else {
        return row.refuse("no memory");
    };
    if names.meaning(&name).is_some() {
        return row.refuse("a name twice");
    }
    if names.define(name, meaning).is_err() {
        row.refuse("no memory");
    }
}

/// Defines a name by EQU.
pub(crate) fn define_equ(row: &mut Row, names: &mut Names, name: &[u8], text: &[u8]) {
    let Some(tree) = tree_of(row.alloc(), text) else {
        return row.refuse("no expression");
    };
    if !is_defined(&tree, names) {
        return row.refuse("a name that stands for nothing");
    }
    match equate(row.alloc(), &tree, names) {
        Ok(meaning) => define(row, names, name, meaning),
        Err(_) => row.refuse("no value"),
    }
}

/// A statement that a module has.
#[derive(Clone, Copy)]
enum Passed {
    Fixed(u16),
    Jump,
    Unsized,
}

/// Appends a statement to a table.
fn pass(names: &mut Names, statement: &Passed) -> Result<(), AllocError> {
    match statement {
        Passed::Fixed(size) => names.pass_fixed(*size),
        Passed::Jump => names.pass_jump(),
        Passed::Unsized => names.pass_unsized(),
    }
}

/// Appends statements to a table.
fn pass_all(row: &mut Row, names: &mut Names, statements: &[Passed]) {
    for statement in statements {
        if pass(names, statement).is_err() {
            return row.refuse("no memory");
        }
    }
}

/// Defines labels, each with the number of its statement.
fn define_labels(row: &mut Row, names: &mut Names, labels: &[(&[u8], u16)]) {
    for (name, statement) in labels {
        define(row, names, name, Meaning::Label(*statement));
    }
}

/// A table of names: the statements of a module, the number of the one that is `$`, and labels with the numbers of their
/// statements.
fn module_of(row: &mut Row, statements: &[Passed], here: u16, labels: &[(&[u8], u16)]) -> Names {
    let mut names = Names::new(row.alloc());
    pass_all(row, &mut names, statements);
    names.set_here(here);
    define_labels(row, &mut names, labels);
    names
}

/// Adds names that EQU defines to a table.
fn define_equs(row: &mut Row, names: &mut Names, equs: &[(&[u8], &[u8])]) {
    for (name, text) in equs {
        define_equ(row, names, name, text);
    }
}

/// Four statements and five labels: W before 3 bytes, X before 4 bytes, Y at a relaxable jump, V before a byte, and END at the end.
fn five(row: &mut Row) -> Names {
    module_of(
        row,
        &[
            Passed::Fixed(3),
            Passed::Fixed(4),
            Passed::Jump,
            Passed::Fixed(1),
        ],
        1,
        &[(b"W", 0), (b"X", 1), (b"Y", 2), (b"V", 3), (b"END", 4)],
    )
}

/// The same table with names that EQU defines: a fixed distance, a constant, an address, five times each of the first two, a
/// distance that varies, twice that, and twice that again; and names of fourteen and fifteen bytes.
fn five_with_equs(row: &mut Row) -> Names {
    let mut names = five(row);
    define_equs(
        row,
        &mut names,
        &[
            (b"LEN", b"Y-W"),
            (b"FIVE", b"2+3"),
            (b"PLACE", b"+X"),
            (b"LENS", b"LEN+LEN+LEN+LEN+LEN"),
            (b"FIVES", b"FIVE+FIVE+FIVE+FIVE+FIVE"),
            (b"REACH", b"V-X"),
            (b"TWICE", b"REACH+REACH"),
            (b"FOUR", b"TWICE+TWICE"),
            (b"FOURTEEN_BYTES", b"2+4"),
            (b"FIFTEEN_BYTES_X", b"FOURTEEN_BYTES+1"),
        ],
    );
    names
}

/// X is at a statement of 3 bytes, and Y after it. N is a name whose own line has an error, and NM is one more. V is N bytes after
/// X, and BOTH is the sum of both addresses.
fn beside_faulty(row: &mut Row) -> Names {
    let mut names = module_of(row, &[Passed::Fixed(3)], 0, &[(b"X", 0), (b"Y", 1)]);
    define(row, &mut names, b"N", Meaning::Faulty);
    define_equs(
        row,
        &mut names,
        &[(b"NM", b"N+1"), (b"V", b"X+N"), (b"BOTH", b"X+Y")],
    );
    names
}

/// PA is before 3 bytes, PB before a statement of unknown size, PC before 2 bytes, PD at a relaxable jump, PE1 before a statement
/// of unknown size, and PF at the end. N is a name whose own line has an error.
fn unsized_ones(row: &mut Row) -> Names {
    let mut names = module_of(
        row,
        &[
            Passed::Fixed(3),
            Passed::Unsized,
            Passed::Fixed(2),
            Passed::Jump,
            Passed::Unsized,
        ],
        2,
        &[
            (b"PA", 0),
            (b"PB", 1),
            (b"PC", 2),
            (b"PD", 3),
            (b"PE1", 4),
            (b"PF", 5),
        ],
    );
    define(row, &mut names, b"N", Meaning::Faulty);
    names
}

/// The same table with names that EQU defines: K and KL, whose values vary, and KL with LOW as its outermost operator; and KN,
/// which is N.
fn unsized_with_equs(row: &mut Row) -> Names {
    let mut names = unsized_ones(row);
    define_equs(
        row,
        &mut names,
        &[(b"K", b"PA+N"), (b"KL", b"LOW (PA+N)"), (b"KN", b"(N)")],
    );
    names
}

/// Seven statements. The third is `$`: it takes two bytes itself, and statements of four and of three bytes come before it. A
/// relaxable jump, one byte, a statement of unknown size and one byte follow. There are labels before and after `$`, an external, a
/// constant EQU name without a value, and a name whose line has an error.
fn seven(row: &mut Row) -> Names {
    let mut names = module_of(
        row,
        &[
            Passed::Fixed(4),
            Passed::Fixed(3),
            Passed::Fixed(2),
            Passed::Jump,
            Passed::Fixed(1),
            Passed::Unsized,
            Passed::Fixed(1),
        ],
        2,
        &[(b"X", 0), (b"NEAR", 3), (b"AHEAD", 4), (b"LATE", 6)],
    );
    define(row, &mut names, b"EXT", Meaning::External(8));
    define(row, &mut names, b"UNSURE", Meaning::UnknownConstant);
    define(row, &mut names, b"BAD", Meaning::Faulty);
    names
}

/// The table with this number. Table 0 has no names.
pub(crate) fn table(row: &mut Row, number: u32) -> Names {
    match number {
        1 => five(row),
        2 => five_with_equs(row),
        3 => beside_faulty(row),
        4 => unsized_ones(row),
        5 => unsized_with_equs(row),
        6 => seven(row),
        _ => Names::new(row.alloc()),
    }
}

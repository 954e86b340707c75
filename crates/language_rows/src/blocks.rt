//! Rows about where blocks end.

use asm_text::{Branches, Links, Role, links_of};
use row_text::Row;
use std::alloc::{AllocError, Global};

/// The words that open, divide or close a block, with the role of a line that begins with each.
const ROLES: [(&str, Role); 5] = [
    ("REPT", Role::OpensBody),
    ("ENDM", Role::EndBody),
    ("IF", Role::OpensIf),
    ("ELSE", Role::Else),
    ("ENDIF", Role::EndIf),
];

/// The role of a line with this word.
fn role_of(word: &str) -> Role {
    for (name, role) in &ROLES {
        if *name == word {
            return *role;
        }
    }
    Role::Other
}

/// The roles of lines with these words, one in each line.
fn roles_of(alloc: Global, words: &str) -> Result<Vec<Role>, AllocError> {
    let mut roles = Vec::new(alloc);
    for word in words.split_terminator(' ') {
        roles.push(role_of(word))?;
    }
    Ok(roles)
}

/// The links of lines with these words. None if there are too many words.
fn links_in(alloc: Global, words: &str) -> Option<Links> {
    let roles = roles_of(alloc, words).ok()?;
    if roles.len() >= 100 {
        return None;
    }
    links_of(alloc, roles).ok()
}

/// The first line of a block, the line before which it has to end, and the links of the row's words.
#[derive(Drop)]
struct Asked {
    from: usize,
    to: usize,
    links: Links,
}

fn asked_by(row: &mut Row) -> Asked {
    let (from, to) = (row.decimal() as usize, row.decimal() as usize);
    let words = row.rest();
    let links = match links_in(row.alloc(), words) {
        Some(links) => links,
        None => {
            row.refuse("too many words");
            Links::none(row.alloc())
        }
    };
    Asked { from, to, links }
}

/// Prints how many lines a body has.
pub(crate) fn answer_body(row: &mut Row) {
    let asked = asked_by(row);
    match asked.links.body(asked.from, asked.to) {
        Some(count) => write!(row, " {count}"),
        None => write!(row, " no end"),
    }
}

fn show_branches(row: &mut Row, found: &Branches) {
    write!(row, " {}", found.first);
    for count in &found.others {
        write!(row, " {count}");
    }
}

/// Prints how many lines each branch of an IF has.
pub(crate) fn answer_branches(row: &mut Row) {
    let asked = asked_by(row);
    match asked.links.branches(row.alloc(), asked.from, asked.to) {
        Ok(Some(found)) => show_branches(row, &found),
        Ok(None) => write!(row, " no end"),
        Err(_) => row.refuse("no memory"),
    }
}

/// Prints what links of no lines answer. Making these takes no memory.
pub(crate) fn answer_no_lines(row: &mut Row) {
    let links = Links::none(row.alloc());
    write!(row, " {} lines, {:?}", links.len(), links.body(0, 1))
}

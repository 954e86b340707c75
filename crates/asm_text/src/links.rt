//! The roles of some lines, and where each block in them ends.

ghost use Rattle.std.specs.Prelude.{◌≡◌, ◌<◌, ◌^◌, IfOk, [], length};
ghost use Rattle.asm_text.specs.declared.matching.Role.{Role};

use crate::ends::{Ends, no_ends, turn};
use crate::matching::Role;
use std::alloc::{AllocError, Global};
use std::marker::Model;

/// How many lines each branch of an IF has: the first, and each that follows an ELSE.
#[derive(Debug, Drop)]
pub struct Branches {
    pub first: usize,
    pub others: Vec<usize>,
}

/// The role of each of some lines, and where each block in them ends. Clauses see the roles.
#[derive(Debug, Drop)]
pub struct Links {
    roles: Vec<Role>,
    ends: Vec<Ends>,
}

impl Model for Links {
    ghost use Rattle.std.specs.Prelude.{List};
    ghost use Rattle.asm_text.specs.declared.matching.Role.{Role};
    ghost use Rattle.asm_text.specs.Private.Nesting.{IsMatched};

    ghost Value = { List Role };

    ghost view = { λ l. l.roles.items };

    ghost invariant = { λ l. IsMatched l.roles.items l.ends.items };
}

/// Finds where each block in some lines ends, from the roles of the lines. Takes time linear in their count.
pub fn links_of(alloc: Global, roles: Vec<Role>) -> Result<Links, AllocError>
    requires { length roles.items < 2 ^ 32 }
    ensures { IfOk result (λ links. links ≡ roles.items) }
{
    let len = roles.len();
    let mut ends = vec![in alloc; no_ends(len); len]?;
    let mut at = len;
    while at > 0 {
        at -= 1;
        let here = turn(roles[at], at as u32, &ends);
        ends[at] = here;
    }
    Ok(Links { roles, ends })
}

impl Links {
    ghost use Rattle.std.specs.Prelude.{◌≡◌, ◌<◌, ◌+◌, IfOk, IfSome, [], length, drop, map, sum};
    ghost use Rattle.std.specs.Option.{option_map};
    ghost use Rattle.asm_text.specs.Nesting.Blocks.{between, body_length, branch_lengths};
    ghost use Rattle.asm_text.specs.Nesting.Views.{lengths_seen};
    ghost use Rattle.asm_text.specs.Private.Nesting.{ends_of};

    /// The links of no lines. They take no memory.
    pub fn none(alloc: Global) -> Links
        ensures { result ≡ [] }
    {
        Links {
            roles: Vec::new(alloc),
            ends: Vec::new(alloc),
        }
    }

    /// How many lines these links are of.
    pub fn len(&self) -> usize
        ensures { result ≡ length self.now }
    {
        self.roles.len()
    }

    /// Where a block that begins with line `line` ends.
    fn ends(&self, line: usize) -> Ends
        ensures { result ≡ ends_of (length self.now) line (drop line self.now) }
    {
        if line < self.ends.len() {
            self.ends[line]
        } else {
            no_ends(self.ends.len())
        }
    }

    /// How many lines the body of a MACRO or REPT has that begins at line `from`; None if no ENDM before line `to` closes it. Takes
    /// constant time, however long the body is.
    pub fn body(&self, from: usize, to: usize) -> Option<usize>
        ensures is { result ≡ body_length 0 (between from to self.now) }
        ensures within { IfSome result (λ n. n < length (between from to self.now)) }
    {
        let end = self.ends(from).body as usize;
        if end < to.min(self.len()) {
            Some(end - from)
        } else {
            None
        }
    }

    /// How many lines each branch of an IF has whose first branch begins at line `from`; None if no ENDIF before line `to` closes
    /// the IF. Takes time linear in the count of its branches.
    pub fn branches(
        &self,
        alloc: Global,
        from: usize,
        to: usize,
    ) -> Result<Option<Branches>, AllocError>
        ensures is { IfOk result (λ found. option_map lengths_seen found ≡ branch_lengths 0 0 (between from to self.now)) }
        ensures within { IfOk result (λ found. IfSome found (λ b. b.first + sum (map (λ n. n + 1) b.others.items) < length (between from to self.now))) }
    {
        let ends = self.ends(from);
        let last = ends.last as usize;
        if last >= to.min(self.len()) {
            return Ok(None);
        }
        let first = ends.next as usize;
        let mut others = Vec::new(alloc);
        let mut at = first;
        while at < last {
            let next = self.ends(at + 1).next as usize;
            others.push(next - at - 1)?;
            at = next;
        }
        Ok(Some(Branches {
            first: first - from,
            others,
        }))
    }
}

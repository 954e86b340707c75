//! Lines of a macro's body that may have another role in a call than they have as written.

ghost use Rattle.std.specs.Prelude.{◌≡◌, ◌≤◌, ◌<◌, [], IfOk, Some, length, slice_index_or, true};
ghost use Rattle.std.specs.List.{filter, list_any};
ghost use Rattle.asm_line.specs.Tokens.{lexeme, lexemes};
ghost use Rattle.asm_line.specs.Replacing.Fronts.{goes_on};
ghost use Rattle.asm_line.specs.Replacing.Replaced.{ReplacementTable};
ghost use Rattle.asm_line.specs.Replacing.Views.{in_call};
ghost use Rattle.asm_text.specs.Kept.{HasOnly, IsCall, IsVarying, Suffice};
ghost use Rattle.asm_text.specs.Lines.{heard};
ghost use Rattle.asm_text.specs.Prepared.{said};
ghost use Rattle.asm_text.specs.Stands.{Stand, Stands};
ghost use Rattle.asm_text.specs.Private.Varying.{asked, asked_labelled, asked_of, first_varies, is_held, is_of_blocks, may_vary, may_vary_plain, with_next};

use crate::call::Call;
use crate::lines::Lines;
use crate::matching::Role;
use crate::reading::{heard, put_shown, role_of, role_of_head};
use crate::signs::{Sign, has_sign};
use crate::span::Span;
use asm_line::{Kind, Mark, Names, Token, form_of, is_name};
use std::alloc::{AllocError, Global};

/// Which of the lines from `at` to the one before `end` may have another role in a call than they have as written, by their
/// indexes.
#[derive(Debug, Drop)]
pub(crate) struct Varying {
    pub at: usize,
    pub end: usize,
    pub places: Vec<u32>,
    /// Those of `places` whose lines may have another role even if no argument contains `Sign::Word`.
    pub with_word: Vec<u32>,
    /// Those of `places` whose lines may have another role even if no argument contains `Sign::Second`.
    pub with_second: Vec<u32>,
    /// Those of `places` whose lines may have another role even if no argument contains either sign.
    pub with_both: Vec<u32>,
}

impl Varying {
    /// The varying lines of an empty range: there are none.
    pub fn none(alloc: Global) -> Varying {
        Varying {
            at: 0,
            end: 0,
            places: Vec::new(alloc),
            with_word: Vec::new(alloc),
            with_second: Vec::new(alloc),
            with_both: Vec::new(alloc),
        }
    }
}

/// Whether a token is one of these names, which a call replaces.
fn is_held(alloc: Global, names: &Names, token: &Token<'_>) -> Result<bool, AllocError>
    ensures { IfOk result (λ held. held ≡ is_held (in_call names.now [] 0) (lexeme token.now)) }
{
    if !is_name(token) {
        return Ok(false);
    }
    let key = token.text.to_ascii_uppercase(alloc)?;
    Ok(names.has(&key))
}

/// Whether one of these tokens is one of these names.
fn any_held(alloc: Global, names: &Names, tokens: &[Token<'_>]) -> Result<bool, AllocError>
    ensures { IfOk result (λ held. held ≡ list_any (is_held (in_call names.now [] 0)) (lexemes tokens.now)) }
{
    for token in tokens {
        if is_held(alloc, names, token)? {
            return Ok(true);
        }
    }
    Ok(false)
}

/// `count`, plus one if `token` is a number or a string. When the next token is replaced, a number or string before it may become
/// longer, so the next token matters too.
fn with_next(token: &Token<'_>, count: usize) -> usize
    requires { count < 5 }
    ensures { result ≡ with_next (goes_on token.now.kind) count }
{
    match token.kind {
        Kind::Number(_) | Kind::Quoted => count + 1,
        _ => count,
    }
}

/// How many first tokens decide the head of a line that begins with a name and a colon, given its tokens after these two.
fn asked_labelled(rest: &[Token<'_>]) -> usize
    ensures { result ≡ asked_labelled (lexemes rest.now) }
{
    match rest {
        [_, last, ..] => with_next(last, 4),
        _ => 5,
    }
}

/// How many first tokens of a line decide its head, plus one if the last of these may become longer when the next is replaced. If
/// the line has too few tokens to say, the answer is 5, which is more than it has.
fn asked(tokens: &[Token<'_>]) -> usize
    ensures { result ≡ asked (lexemes tokens.now) }
{
    let [_, second, rest @ ..] = tokens else {
        return 5;
    };
    if matches!(second.kind, Kind::Mark(Mark::Colon)) {
        asked_labelled(rest)
    } else {
        with_next(second, 2)
    }
}

/// Those tokens of a line that may change its role if they are replaced. If the line begins with a block word, these are all its
/// tokens, since the line loses its role when replacement makes it too long.
fn asked_of<'a, 'b>(role: Role, tokens: &'b [Token<'a>]) -> &'b [Token<'a>]
    ensures { lexemes result.now ≡ asked_of role (lexemes tokens.now) }
{
    match role {
        Role::Other => tokens.get(..asked(tokens)).unwrap_or(tokens),
        _ => tokens,
    }
}

/// Whether the role of a line may depend on what these names are replaced by.
fn may_vary(alloc: Global, names: &Names, line: &[u8]) -> Result<bool, AllocError>
    ensures { IfOk result (λ varies. varies ≡ may_vary (in_call names.now [] 0) (heard line.now)) }
{
    match heard(alloc, line)? {
        Some(found) => {
            let role = role_of_head(form_of(&found).head);
            any_held(alloc, names, asked_of(role, &found))
        }
        None => Ok(false),
    }
}

/// The index of a line in four bytes. It fits, since a source has fewer than 2^32 bytes.
fn place_of(at: usize) -> Result<u32, AllocError>
    ensures { IfOk result (λ place. place ≡ at) }
{
    let Ok(place) = u32::try_from(at) else {
        return Err(AllocError);
    };
    Ok(place)
}

/// The indexes of the lines of a body that may have another role in a call than they have as written, whatever the arguments are.
fn places_of(
    alloc: Global,
    lines: &Lines<'_>,
    names: &Names,
    body: Span,
) -> Result<Vec<u32>, AllocError>
    ensures { IfOk result (λ places. (t : ReplacementTable) → HasOnly t (in_call names.now [] 0) → Suffice lines.now body.at body.end places.items t) }
{
    asm_line::laws::unreplaced();
    asm_line::laws::front_stays();
    let mut places = Vec::new(alloc);
    let mut at = body.at;
    while at < body.end && at < lines.len() {
        if may_vary(alloc, names, lines.line(at))? {
            places.push(place_of(at)?)?;
        }
        at += 1;
    }
    Ok(places)
}

/// Whether a line with this role opens, divides or closes a block.
fn is_of_blocks(role: Role) -> bool
    ensures { result ≡ is_of_blocks role }
{
    !matches!(role, Role::Other)
}

/// Whether a line's first token may be a block word in a call: it is a block word or one of these names, or it is a number or
/// string and the next token is one of these names.
fn first_varies(alloc: Global, names: &Names, tokens: &[Token<'_>]) -> Result<bool, AllocError>
    ensures { IfOk result (λ varies. varies ≡ first_varies (in_call names.now [] 0) (lexemes tokens.now)) }
{
    let [first, ..] = tokens else {
        return Ok(false);
    };
    if is_of_blocks(role_of_head(form_of(&tokens[..1]).head)) {
        return Ok(true);
    }
    let front = tokens.get(..with_next(first, 1)).unwrap_or(tokens);
    any_held(alloc, names, front)
}

/// Whether the role of a line may depend on what these names are replaced by if no argument contains this sign. If the first token
/// of a line stays as it is and is no block word, only a colon or MACRO as the second token can give the line a role.
fn may_vary_plain(alloc: Global, names: &Names, sign: Sign, line: &[u8]) -> Result<bool, AllocError>
    ensures { IfOk result (λ varies. varies ≡ may_vary_plain sign (in_call names.now [] 0) line.now) }
{
    if has_sign(sign, line) {
        return Ok(true);
    }
    match sign {
        Sign::Word => Ok(false),
        Sign::Second => match heard(alloc, line)? {
            Some(found) => first_varies(alloc, names, &found),
            None => Ok(false),
        },
    }
}

/// Those of `places` whose lines may have another role in a call even if no argument contains this sign.
fn places_with(
    alloc: Global,
    lines: &Lines<'_>,
    names: &Names,
    sign: Sign,
    places: &[u32],
) -> Result<Vec<u32>, AllocError>
    ensures { IfOk result (λ some. some.items ≡ filter (λ k. may_vary_plain sign (in_call names.now [] 0) (slice_index_or lines.now k [])) places.now) }
{
    let mut some = Vec::new(alloc);
    for place in places {
        if may_vary_plain(alloc, names, sign, lines.line(*place as usize))? {
            some.push(*place)?;
        }
    }
    Ok(some)
}

/// Finds which lines of a body may have another role in a call that replaces these names.
pub(crate) fn varying_of(
    alloc: Global,
    lines: &Lines<'_>,
    names: &Names,
    body: Span,
) -> Result<Varying, AllocError>
    ensures varying { IfOk result (IsVarying lines.now (in_call names.now [] 0)) }
    ensures range { IfOk result (λ found. (found.at ≡ body.at) × (found.end ≡ body.end)) }
{
    asm_line::laws::front_stays();
    let places = places_of(alloc, lines, names, body)?;
    let with_word = places_with(alloc, lines, names, Sign::Word, &places)?;
    let with_second = places_with(alloc, lines, names, Sign::Second, &places)?;
    let with_both = places_with(alloc, lines, names, Sign::Second, &with_word)?;
    Ok(Varying {
        at: body.at,
        end: body.end,
        places,
        with_word,
        with_second,
        with_both,
    })
}

impl Call {
    ghost use Rattle.std.specs.Prelude.{◌≡◌};
    ghost use Rattle.asm_text.specs.Kept.{asked_places};

    /// The indexes of the lines that may have another role in this call, given which signs its arguments contain.
    fn asked_places(&self) -> &[u32]
        ensures { result.now ≡ asked_places self.now }
    {
        let varying: &Varying = &self.varying;
        match (self.plain.word, self.plain.second) {
            (false, false) => &varying.places,
            (true, false) => &varying.with_word,
            (false, true) => &varying.with_second,
            (true, true) => &varying.with_both,
        }
    }
}

/// Whether line `at` has the role in the call that it has as written. Answers true if the line is outside of the span.
fn stands(
    alloc: Global,
    lines: &Lines<'_>,
    call: &Call,
    span: Span,
    at: usize,
) -> Result<bool, AllocError>
    ensures { IfOk result (λ stands. stands ≡ true → span.at ≤ at → at < span.end → at < length lines.now → Stands lines.now (Some (said call.now)) at) }
{
    if at < span.at || at >= span.end || at >= lines.len() {
        return Ok(true);
    }
    let mut buffer = Vec::new(alloc);
    put_shown(alloc, Some(call), lines.line(at), &mut buffer)?;
    let shown = role_of(alloc, &buffer)?;
    let plain = role_of(alloc, lines.line(at))?;
    Ok(shown == plain)
}

/// Whether each line of a span has the role in the call that it has as written. Reads only the lines that may have another one.
/// Answers false for a span that is not within the lines that were looked at for this call's macro.
pub fn all_stand(
    alloc: Global,
    lines: &Lines<'_>,
    call: &Call,
    span: Span,
) -> Result<bool, AllocError>
    requires { IsCall lines.now call.now }
    ensures { IfOk result (λ stand. stand ≡ true → Stand lines.now (Some (said call.now)) span.at span.end) }
{
    let varying: &Varying = &call.varying;
    if span.at < varying.at || varying.end < span.end {
        return Ok(false);
    }
    let places = call.asked_places();
    let mut next = 0;
    while next < places.len() {
        if !stands(alloc, lines, call, span, places[next] as usize)? {
            return Ok(false);
        }
        next += 1;
    }
    Ok(true)
}

// The patterns of LIKE.
ghost use Rattle.std.specs.Prelude.{◌≡◌, ◌≤◌, ◌++◌, ◌∷◌, ◌&&◌, [], IfOk, OnOk, false, length, map, reverse};
ghost use Rattle.std.specs.List.{zip};
ghost use Rattle.std.specs.Str.{chars};
ghost use Rattle.sql_values.specs.Patterns.{behind_part, first_part, is_like, parts_of, plain_part};
ghost use Rattle.sql_values.specs.Matching.{parts_row, empty_row, whole_matches, next_row, rest_row, taken_row, takes};

use crate::characters::characters;
use std::alloc::{AllocError, Global};

/// A part of a pattern.
#[derive(Clone, Copy)]
pub(crate) enum Part {
    AnyText,
    AnyCharacter,
    Exactly(char),
}

impl Part {
    // Whether the part stands for this one character.
    fn takes(self, character: char) -> bool
        ensures { result ≡ takes self character }
    {
        match self {
            Part::AnyText => false,
            Part::AnyCharacter => true,
            Part::Exactly(own) => character == own,
        }
    }
}

/// Whether a text is like a pattern (JSR 283, 6.7.16 Comparison): `%` is any text, `_` one character of Unicode, and
/// `\` takes the next character as it is. It takes time and memory by the product of the two lengths at most.
#[tactic(auto, using(crate::proofs::Rests::whole))]
pub(crate) fn is_like(alloc: Global, text: &str, pattern: &str) -> Result<bool, AllocError>
    ensures { IfOk result (λ like. like ≡ is_like text.now pattern.now) }
{
    let backwards = backwards(alloc, text)?;
    let parts = parts_backwards(alloc, &characters(alloc, pattern)?)?;
    all_match(alloc, &parts, &backwards)
}

// The characters of a text, the last first.
fn backwards(alloc: Global, text: &str) -> Result<Vec<char>, AllocError>
    ensures { IfOk result (λ all. all.items ≡ reverse (chars text.now)) }
{
    let mut all = characters(alloc, text)?;
    all.reverse();
    Ok(all)
}

// Whether the characters are of the pattern with these parts, both with the last first.
fn all_match(alloc: Global, parts: &[Part], backwards: &[char]) -> Result<bool, AllocError>
    ensures { IfOk result (λ like. like ≡ whole_matches (parts_row parts.now backwards.now)) }
{
    let mut row = empty_row(alloc, backwards)?;
    let mut left = parts;
    while let [part, rest @ ..] = left {
        left = rest;
        row = next_row(alloc, *part, backwards, &row)?;
    }
    Ok(last(&row))
}

// Whether the whole text, the longest of the rests, is of the pattern.
fn last(row: &[bool]) -> bool
    ensures { result ≡ whole_matches row.now }
{
    match row.last() {
        Some(matched) => *matched,
        None => false,
    }
}

// The parts of a pattern's characters, the last first.
#[tactic(auto, using(crate::proofs::Parts::more_parts))]
fn parts_backwards(alloc: Global, characters: &[char]) -> Result<Vec<Part>, AllocError>
    ensures { IfOk result (λ parts. parts.items ≡ reverse (parts_of characters.now)) }
{
    let mut parts = Vec::new(alloc);
    let mut left = characters;
    while let [character, rest @ ..] = left {
        parts.push(first_part(*character, rest))?;
        left = behind_part(*character, rest);
    }
    parts.reverse();
    Ok(parts)
}

// The part that a character begins, with those behind it.
fn first_part(character: char, rest: &[char]) -> Part
    ensures { result ≡ first_part character rest.now }
{
    match rest {
        [next, ..] => {
            if character == '\\' {
                Part::Exactly(*next)
            } else {
                plain_part(character)
            }
        }
        [] => plain_part(character),
    }
}

// What is left behind the part that a character begins.
fn behind_part(character: char, rest: &[char]) -> &[char]
    ensures left { result.now ≡ behind_part character rest.now }
    ensures bound { length result.now ≤ length rest.now }
{
    match rest {
        [_, more @ ..] => { if character == '\\' { more } else { rest } }
        [] => rest,
    }
}

// The part of a character with no `\` before it.
fn plain_part(character: char) -> Part
    ensures { result ≡ plain_part character }
{
    match character {
        '%' => Part::AnyText,
        '_' => Part::AnyCharacter,
        _ => Part::Exactly(character),
    }
}

// Which rests of a text, the shortest first, are of the pattern with no parts: only the empty one.
fn empty_row(alloc: Global, backwards: &[char]) -> Result<Vec<bool>, AllocError>
    ensures { IfOk result (λ row. row.items ≡ empty_row backwards.now) }
{
    let mut row = row_of(alloc, true)?;
    push_unmatched(&mut row, backwards)?;
    Ok(row)
}

// The row of one rest.
fn row_of(alloc: Global, matched: bool) -> Result<Vec<bool>, AllocError>
    ensures { IfOk result (λ row. row.items ≡ matched ∷ []) }
{
    let mut row = Vec::new(alloc);
    row.push(matched)?;
    Ok(row)
}

// Appends a rest that isn't matched for each character.
fn push_unmatched(row: &mut Vec<bool>, backwards: &[char]) -> Result<(), AllocError>
    ensures { OnOk result (row.new.items ≡ row.old.items ++ map (λ c. false) backwards.now) }
{
    let mut left = backwards;
    while let [_, rest @ ..] = left {
        left = rest;
        row.push(false)?;
    }
    Ok(())
}

// Which rests of a text, the shortest first, are of a pattern with one more part before the others.
fn next_row(
    alloc: Global,
    part: Part,
    backwards: &[char],
    row: &[bool],
) -> Result<Vec<bool>, AllocError>
    ensures { IfOk result (λ next. next.items ≡ next_row part backwards.now row.now) }
{
    match part {
        Part::AnyText => rest_row(alloc, row),
        _ => taken_row(alloc, part, backwards, row),
    }
}

// The part takes some text, so a shorter rest may be of the others.
fn rest_row(alloc: Global, row: &[bool]) -> Result<Vec<bool>, AllocError>
    ensures { IfOk result (λ next. next.items ≡ rest_row false row.now) }
{
    let mut next = Vec::new(alloc);
    push_rests(&mut next, row)?;
    Ok(next)
}

// Appends for each rest whether it or a shorter one is matched.
fn push_rests(next: &mut Vec<bool>, row: &[bool]) -> Result<(), AllocError>
    ensures { OnOk result (next.new.items ≡ next.old.items ++ rest_row false row.now) }
{
    let mut any = false;
    let mut left = row;
    while let [matched, rest @ ..] = left {
        left = rest;
        any = *matched || any;
        next.push(any)?;
    }
    Ok(())
}

// The part takes one character.
fn taken_row(
    alloc: Global,
    part: Part,
    backwards: &[char],
    row: &[bool],
) -> Result<Vec<bool>, AllocError>
    ensures { IfOk result (λ next. next.items ≡ taken_row (takes part) backwards.now row.now) }
{
    let mut next = row_of(alloc, false)?;
    push_taken(&mut next, part, backwards, row)?;
    Ok(next)
}

// Appends for each character whether the part takes it and the rest behind it is matched.
fn push_taken(
    next: &mut Vec<bool>,
    part: Part,
    backwards: &[char],
    row: &[bool],
) -> Result<(), AllocError>
    ensures { OnOk result (next.new.items ≡ next.old.items ++ map (λ e. takes part e.0 && e.1) (zip backwards.now row.now)) }
{
    let mut left = backwards;
    let mut right = row;
    while let [character, characters @ ..] = left {
        let [matched, rest @ ..] = right else {
            break;
        };
        next.push(part.takes(*character) && *matched)?;
        left = characters;
        right = rest;
    }
    Ok(())
}

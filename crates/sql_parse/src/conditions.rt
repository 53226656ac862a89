// What is asked of a row.
ghost use Rattle.std.specs.Prelude.{◌≡◌};
ghost use Rattle.std.specs.Option.{option_map};
ghost use Rattle.sql_parse.specs.Grammar.{and_with, compared, filter_at, follows_name, in_brackets, led_name_first, negated, not_at, not_first, or_with, read_path, place_call, selector_before, test_at, tested};
ghost use Rattle.sql_pieces.specs.Reading.{Reads, ReadsAs};
ghost use Rattle.sql_parse.specs.Depths.{tested_in};
ghost use Rattle.sql_query.specs.Trees.{look_of, test_of};

use crate::depth::{Nested, and, not, or};
use crate::operands::{constant, operand, operator, operator_first};
use jr_path::{Name, Path};
use sql_pieces::{
    Placed, Sign, SqlFault, behind, path_first, selector_first, sign_first, word_first,
};
use sql_query::{Condition, DEEPEST, Operand};
use sql_select::{Cursor, both, only_or};
use std::alloc::Global;

// Whether what can follow a property's first name comes first: `.`, an operator or IS.
fn follows_name(pieces: &[Placed]) -> bool
    ensures { result ≡ follows_name pieces.now }
{
    sign_first(Sign::Dot, pieces) || operator_first(pieces).is_some() || word_first("IS", pieces)
}

// Whether a name comes first that what can follow a name follows; LIKE and IS too are names there.
fn led_name_first(pieces: &[Placed]) -> bool
    ensures { result ≡ led_name_first pieces.now }
{
    selector_first(pieces) && follows_name(behind(pieces))
}

// Whether NOT comes first, as the keyword: unless what follows can follow a name and is none itself.
fn not_first(pieces: &[Placed]) -> bool
    ensures { result ≡ not_first pieces.now }
{
    word_first("NOT", pieces) && (!follows_name(behind(pieces)) || led_name_first(behind(pieces)))
}

// Whether NOT comes next, as the keyword.
fn is_not(cursor: &Cursor<'_>) -> bool
    ensures { result ≡ not_first cursor.now.pieces }
{
    not_first(cursor.pieces)
}

// A path, in quotes or in brackets.
fn path(cursor: &mut Cursor<'_>) -> Result<Path, SqlFault>
    ensures { Reads result cursor.new (read_path cursor.old) }
{
    let Some(path) = path_first(cursor.pieces)? else {
        return Err(cursor.fault());
    };
    cursor.advance();
    Ok(path)
}

// [name ,]
fn selector_before(cursor: &mut Cursor<'_>, names: &[Name]) -> Result<u32, SqlFault>
    ensures { Reads result cursor.new (selector_before names.now cursor.old) }
{
    if selector_first(cursor.pieces) {
        let selector = cursor.declared(names)?;
        cursor.sign(Sign::Comma)?;
        return Ok(selector);
    }
    let selector = only_or(names, cursor.place())?;
    Ok(selector)
}

// ( [name ,] path ), behind a function's word
fn place_call(cursor: &mut Cursor<'_>, names: &[Name]) -> Result<(u32, Path), SqlFault>
    ensures { Reads result cursor.new (place_call names.now cursor.old) }
{
    cursor.advance();
    cursor.sign(Sign::Open)?;
    let selector = selector_before(cursor, names)?;
    let path = path(cursor)?;
    let close = cursor.sign(Sign::Close);
    let (path, ()) = both(path, close)?;
    Ok((selector, path))
}

// op static, behind an operand
fn compared(cursor: &mut Cursor<'_>, operand: Operand) -> Result<Condition, SqlFault>
    ensures { ReadsAs test_of result cursor.new (compared (look_of operand) cursor.old) }
{
    let operator = operator(cursor);
    let (operand, operator) = both(operand, operator)?;
    let value = constant(cursor);
    let (operand, value) = both(operand, value)?;
    Ok(Condition::Compare(operand, operator, value))
}

// IS NOT NULL behind a property, or op static behind any operand
fn tested(cursor: &mut Cursor<'_>, operand: Operand) -> Result<Condition, SqlFault>
    ensures { ReadsAs test_of result cursor.new (tested (look_of operand) cursor.old) }
{
    match operand.into_property() {
        Ok(property) => {
            if !cursor.is_word("IS") {
                return compared(cursor, Operand::Property(property));
            }
            cursor.advance();
            cursor.word("NOT")?;
            cursor.word("NULL")?;
            Ok(Condition::Has(property))
        }
        Err(other) => compared(cursor, other),
    }
}

// property IS NOT NULL | operand op static
// | ISSAMENODE([name,] path) | ISCHILDNODE([name,] path) | ISDESCENDANTNODE([name,] path)
#[tactic(auto, unfolding(crate::specs::Grammar::test_at))]
fn test(cursor: &mut Cursor<'_>, alloc: Global, names: &[Name]) -> Result<Condition, SqlFault>
    ensures { ReadsAs test_of result cursor.new (test_at names.now cursor.old) }
{
    if cursor.is_call("ISSAMENODE") {
        let (selector, path) = place_call(cursor, names)?;
        return Ok(Condition::Same(selector, path));
    }
    if cursor.is_call("ISCHILDNODE") {
        let (selector, path) = place_call(cursor, names)?;
        return Ok(Condition::Child(selector, path));
    }
    if cursor.is_call("ISDESCENDANTNODE") {
        let (selector, path) = place_call(cursor, names)?;
        return Ok(Condition::Descendant(selector, path));
    }
    let room = cursor.pieces;
    let operand = operand(cursor, alloc, names, room, 0)?;
    tested(cursor, operand)
}

// NOT not; `level` counts this NOT.
#[cycle(condition)]
#[tactic(auto, unfolding(crate::specs::Grammar::negated))]
fn negated(
    cursor: &mut Cursor<'_>,
    alloc: Global,
    names: &[Name],
    room: &[Placed],
    level: usize,
) -> Result<Nested, SqlFault>
    ensures { ReadsAs tested_in result cursor.new (negated (not_at names.now room.now) cursor.old) }
{
    cursor.advance();
    let inner = negation(cursor, alloc, names, room, level)?;
    let nested = not(alloc, inner)?;
    Ok(nested)
}

// ( or ); `level` counts this `(`.
#[cycle(condition)]
#[tactic(auto, unfolding(crate::specs::Grammar::in_brackets))]
fn grouped(
    cursor: &mut Cursor<'_>,
    alloc: Global,
    names: &[Name],
    room: &[Placed],
    level: usize,
) -> Result<Nested, SqlFault>
    ensures { ReadsAs tested_in result cursor.new (in_brackets (not_at names.now room.now) cursor.old) }
{
    cursor.advance();
    let nested = condition(cursor, alloc, names, room, level)?;
    cursor.closed(nested)
}

// not = NOT not | primary; primary = ( or ) | .. No more NOT and `(` stand inside one another than `room` has
// pieces; this stands inside so many as `level` says, and no more than DEEPEST have memory.
#[cycle(condition)]
fn negation(
    cursor: &mut Cursor<'_>,
    alloc: Global,
    names: &[Name],
    room: &[Placed],
    level: usize,
) -> Result<Nested, SqlFault>
    ensures { ReadsAs tested_in result cursor.new (not_at names.now room.now cursor.old) }
{
    let [_, room @ ..] = room else {
        return Err(cursor.fault());
    };
    if level > DEEPEST {
        return Err(SqlFault::Memory);
    }
    if is_not(cursor) {
        return negated(cursor, alloc, names, room, level + 1);
    }
    if cursor.is_sign(Sign::Open) {
        return grouped(cursor, alloc, names, room, level + 1);
    }
    let condition = test(cursor, alloc, names)?;
    Ok(Nested {
        condition,
        depth: 0,
    })
}

// and = not {AND not}
#[cycle(condition)]
fn conjunction(
    cursor: &mut Cursor<'_>,
    alloc: Global,
    names: &[Name],
    room: &[Placed],
    level: usize,
) -> Result<Nested, SqlFault>
    ensures { ReadsAs tested_in result cursor.new (and_with (not_at names.now room.now) cursor.old) }
{
    let mut left = negation(cursor, alloc, names, room, level)?;
    let mut turns = cursor.pieces;
    while let [_, more @ ..] = turns {
        if !cursor.is_word("AND") {
            break;
        }
        turns = more;
        cursor.advance();
        let right = negation(cursor, alloc, names, room, level);
        let (first, right) = both(left, right)?;
        left = and(alloc, first, right)?;
    }
    Ok(left)
}

// or = and {OR and}
#[cycle(condition)]
fn condition(
    cursor: &mut Cursor<'_>,
    alloc: Global,
    names: &[Name],
    room: &[Placed],
    level: usize,
) -> Result<Nested, SqlFault>
    ensures { ReadsAs tested_in result cursor.new (or_with (not_at names.now room.now) cursor.old) }
{
    let mut left = conjunction(cursor, alloc, names, room, level)?;
    let mut turns = cursor.pieces;
    while let [_, more @ ..] = turns {
        if !cursor.is_word("OR") {
            break;
        }
        turns = more;
        cursor.advance();
        let right = conjunction(cursor, alloc, names, room, level);
        let (first, right) = both(left, right)?;
        left = or(alloc, first, right)?;
    }
    Ok(left)
}

// [WHERE or]
#[tactic(auto, unfolding(crate::specs::Grammar::filter_at))]
pub(crate) fn filter(
    cursor: &mut Cursor<'_>,
    alloc: Global,
    names: &[Name],
) -> Result<Option<Condition>, SqlFault>
    ensures { ReadsAs (option_map test_of) result cursor.new (filter_at names.now cursor.old) }
{
    if cursor.is_word("WHERE") {
        cursor.advance();
        let room = cursor.pieces;
        let nested = condition(cursor, alloc, names, room, 0)?;
        return Ok(Some(nested.condition));
    }
    Ok(None)
}

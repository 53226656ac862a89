// Operands and values.
ghost use Rattle.std.specs.Prelude.{◌≡◌, IfErr, IfOk};
ghost use Rattle.sql_parse.specs.Grammar.{cast_at, cast_value, first_kind, kind_at, literal_at, operand_at, operand_call, operator_at, operator_first, operator_in, plain_operand, property_call, selector_call, static_at, cast_text};
ghost use Rattle.sql_pieces.specs.Reading.{Reads, ReadsAs};
ghost use Rattle.sql_query.specs.Trees.{look_of};
ghost use Rattle.sql_query.specs.Trees as tree;

use jr_path::{Name, Text};
use jr_value::{Kind, Value};
use sql_pieces::{Placed, Says, Sign, SqlFault, is_a, kind_first, literal_first, text_first};
use sql_query::{DEEPEST, Operand, Operator, PropertyOf};
use sql_select::{Cursor, both, only_or};
use std::alloc::Global;

fn operator_in(says: &Says) -> Option<Operator>
    ensures { result ≡ operator_in says.now }
{
    match says {
        Says::Sign(Sign::Equal) => Some(Operator::Equal),
        Says::Sign(Sign::Unequal) => Some(Operator::Unequal),
        Says::Sign(Sign::Less) => Some(Operator::Less),
        Says::Sign(Sign::AtMost) => Some(Operator::AtMost),
        Says::Sign(Sign::Greater) => Some(Operator::Greater),
        Says::Sign(Sign::AtLeast) => Some(Operator::AtLeast),
        Says::Word(name) => {
            if is_a("LIKE", name.as_str().as_bytes()) {
                Some(Operator::Like)
            } else {
                None
            }
        }
        _ => None,
    }
}

// The operator that comes first.
pub(crate) fn operator_first(pieces: &[Placed]) -> Option<Operator>
    ensures { result ≡ operator_first pieces.now }
{
    match pieces {
        [piece, ..] => operator_in(&piece.says),
        [] => None,
    }
}

fn first_kind(first: Option<Kind>, kind: Kind) -> Option<Kind>
    ensures { result ≡ first_kind first kind }
{
    match first {
        Some(first) => Some(first),
        None => Some(kind),
    }
}

// LOWER of an operand, where it has memory.
fn lower(alloc: Global, operand: Operand) -> Result<Operand, SqlFault>
    ensures ok { IfOk result (λ lower. look_of lower ≡ tree.Lower (look_of operand)) }
    ensures err { IfErr result (λ fault. fault ≡ SqlFault.Memory) }
{
    let operand = Box::new(alloc, operand)?;
    Ok(Operand::Lower(operand))
}

// UPPER of an operand, where it has memory.
fn upper(alloc: Global, operand: Operand) -> Result<Operand, SqlFault>
    ensures ok { IfOk result (λ upper. look_of upper ≡ tree.Upper (look_of operand)) }
    ensures err { IfErr result (λ fault. fault ≡ SqlFault.Memory) }
{
    let operand = Box::new(alloc, operand)?;
    Ok(Operand::Upper(operand))
}

// ( property ), behind a function's word
fn property_call(cursor: &mut Cursor<'_>, names: &[Name]) -> Result<PropertyOf, SqlFault>
    ensures { Reads result cursor.new (property_call names.now cursor.old) }
{
    cursor.open()?;
    let property = cursor.property(names)?;
    cursor.closed(property)
}

// ( [name] ), behind a function's word
fn selector_call(cursor: &mut Cursor<'_>, names: &[Name]) -> Result<u32, SqlFault>
    ensures { Reads result cursor.new (selector_call names.now cursor.old) }
{
    cursor.open()?;
    if cursor.is_sign(Sign::Close) {
        let selector = only_or(names, cursor.place())?;
        cursor.advance();
        return Ok(selector);
    }
    let selector = cursor.declared(names)?;
    cursor.closed(selector)
}

// property | LENGTH(property) | NAME([name]) | LOCALNAME([name])
fn plain_operand(cursor: &mut Cursor<'_>, names: &[Name]) -> Result<Operand, SqlFault>
    ensures { ReadsAs look_of result cursor.new (plain_operand names.now cursor.old) }
{
    if cursor.is_call("LENGTH") {
        return property_call(cursor, names).map(Operand::Length);
    }
    if cursor.is_call("NAME") {
        return selector_call(cursor, names).map(Operand::Name);
    }
    if cursor.is_call("LOCALNAME") {
        return selector_call(cursor, names).map(Operand::LocalName);
    }
    cursor.property(names).map(Operand::Property)
}

// ( operand ), behind a function's word; `level` counts this operand.
#[cycle(operand)]
fn operand_call(
    cursor: &mut Cursor<'_>,
    alloc: Global,
    names: &[Name],
    room: &[Placed],
    level: usize,
) -> Result<Operand, SqlFault>
    ensures { ReadsAs look_of result cursor.new (operand_call (operand_at names.now room.now) cursor.old) }
{
    cursor.open()?;
    let operand = operand(cursor, alloc, names, room, level)?;
    cursor.closed(operand)
}

// operand = property | LENGTH(property) | NAME([name]) | LOCALNAME([name]) | LOWER(operand) | UPPER(operand).
// No more operands stand inside one another than `room` has pieces; this stands inside so many as `level` says, and
// no more than DEEPEST have memory.
#[cycle(operand)]
pub(crate) fn operand(
    cursor: &mut Cursor<'_>,
    alloc: Global,
    names: &[Name],
    room: &[Placed],
    level: usize,
) -> Result<Operand, SqlFault>
    ensures { ReadsAs look_of result cursor.new (operand_at names.now room.now cursor.old) }
{
    let [_, room @ ..] = room else {
        return Err(cursor.fault());
    };
    if level > DEEPEST {
        return Err(SqlFault::Memory);
    }
    if cursor.is_call("LOWER") {
        let operand = operand_call(cursor, alloc, names, room, level + 1)?;
        return lower(alloc, operand);
    }
    if cursor.is_call("UPPER") {
        let operand = operand_call(cursor, alloc, names, room, level + 1)?;
        return upper(alloc, operand);
    }
    plain_operand(cursor, names)
}

// op = = | <> | < | <= | > | >= | LIKE
pub(crate) fn operator(cursor: &mut Cursor<'_>) -> Result<Operator, SqlFault>
    ensures { Reads result cursor.new (operator_at cursor.old) }
{
    let Some(operator) = operator_first(cursor.pieces) else {
        return Err(cursor.fault());
    };
    cursor.advance();
    Ok(operator)
}

// text | number | TRUE | FALSE | $name
fn literal(cursor: &mut Cursor<'_>) -> Result<Value, SqlFault>
    ensures { Reads result cursor.new (literal_at cursor.old) }
{
    let Some(value) = literal_first(cursor.pieces)? else {
        return Err(cursor.fault());
    };
    cursor.advance();
    Ok(value)
}

// A text, with its value in a CAST.
fn text(cursor: &mut Cursor<'_>) -> Result<(Text, Option<Value>), SqlFault>
    ensures { Reads result cursor.new (cast_text cursor.old) }
{
    let Some(text) = text_first(cursor.pieces)? else {
        return Err(cursor.fault());
    };
    cursor.advance();
    Ok(text)
}

// The word of a kind.
fn kind(cursor: &mut Cursor<'_>) -> Result<Kind, SqlFault>
    ensures { Reads result cursor.new (kind_at cursor.old) }
{
    let Some(kind) = kind_first(cursor.pieces) else {
        return Err(cursor.fault());
    };
    cursor.advance();
    Ok(kind)
}

// The value of a CAST. Where the text has no value of the kind, the kind is noted, and the text stands for it.
fn cast_value(cursor: &mut Cursor<'_>, kind: Kind, text: Text, value: Option<Value>) -> Value
    ensures { (result, cursor.new) ≡ cast_value kind (text, value) cursor.old }
{
    match value {
        Some(value) => value,
        None => {
            cursor.refused = first_kind(cursor.refused, kind);
            Value::Str(text)
        }
    }
}

// CAST(text AS kind)
fn cast(cursor: &mut Cursor<'_>) -> Result<Value, SqlFault>
    ensures { Reads result cursor.new (cast_at cursor.old) }
{
    cursor.advance();
    cursor.sign(Sign::Open)?;
    let text = text(cursor)?;
    let word = cursor.word("AS");
    let (text, ()) = both(text, word)?;
    let kind = kind(cursor);
    let (text, kind) = both(text, kind)?;
    let close = cursor.sign(Sign::Close);
    let ((text, value), ()) = both(text, close)?;
    Ok(cast_value(cursor, kind, text, value))
}

// static = text | number | TRUE | FALSE | $name | CAST(text AS kind)
pub(crate) fn constant(cursor: &mut Cursor<'_>) -> Result<Value, SqlFault>
    ensures { Reads result cursor.new (static_at cursor.old) }
{
    if cursor.is_word("CAST") {
        let value = cast(cursor)?;
        return Ok(value);
    }
    let value = literal(cursor)?;
    Ok(value)
}

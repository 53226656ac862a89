// By what the rows of a query are ordered.
ghost use Rattle.std.specs.Prelude.{◌≡◌, ◌++◌, ◌∷◌, [], IfOk, map};
ghost use Rattle.sql_parse.specs.Grammar.{direction_at, first_order, order_at, order_more, orders_at};
ghost use Rattle.sql_pieces.specs.Reading.{Reads, ReadsAs};
ghost use Rattle.sql_query.specs.Trees.{by_of};

use crate::operands::operand;
use jr_path::{List, Name};
use sql_pieces::{Sign, SqlFault};
use sql_query::{Direction, Order};
use sql_select::Cursor;
use std::alloc::Global;

// [ASC | DESC]
fn direction(cursor: &mut Cursor<'_>) -> Result<Direction, SqlFault>
    ensures { Reads result cursor.new (direction_at cursor.old) }
{
    if cursor.is_word("ASC") {
        cursor.advance();
        return Ok(Direction::Ascending);
    }
    if cursor.is_word("DESC") {
        cursor.advance();
        return Ok(Direction::Descending);
    }
    Ok(Direction::Ascending)
}

// order = operand [ASC | DESC]
fn order(cursor: &mut Cursor<'_>, alloc: Global, names: &[Name]) -> Result<Order, SqlFault>
    ensures { ReadsAs by_of result cursor.new (order_at names.now cursor.old) }
{
    let room = cursor.pieces;
    let operand = operand(cursor, alloc, names, room, 0)?;
    let direction = direction(cursor)?;
    Ok(Order { operand, direction })
}

// The orders, as far as the first.
fn first_order(
    cursor: &mut Cursor<'_>,
    alloc: Global,
    names: &[Name],
) -> Result<List<Order>, SqlFault>
    ensures { ReadsAs (map by_of) result cursor.new (first_order names.now cursor.old) }
{
    cursor.word("BY")?;
    let order = order(cursor, alloc, names)?;
    let mut orders = List::new(alloc);
    orders.push(order)?;
    Ok(orders)
}

// A further order, behind its comma.
fn order_more(
    cursor: &mut Cursor<'_>,
    alloc: Global,
    names: &[Name],
    orders: List<Order>,
) -> Result<List<Order>, SqlFault>
    ensures { ReadsAs (map by_of) result cursor.new (order_more names.now (map by_of orders) cursor.old) }
{
    cursor.advance();
    let order = order(cursor, alloc, names)?;
    let mut orders = orders;
    orders.push(order)?;
    Ok(orders)
}

// [ORDER BY order {, order}]
#[tactic(auto, unfolding(crate::specs::Grammar::orders_at))]
pub(crate) fn orders(
    cursor: &mut Cursor<'_>,
    alloc: Global,
    names: &[Name],
) -> Result<List<Order>, SqlFault>
    ensures { ReadsAs (map by_of) result cursor.new (orders_at names.now cursor.old) }
{
    if !cursor.is_word("ORDER") {
        return Ok(List::new(alloc));
    }
    cursor.advance();
    let mut orders = first_order(cursor, alloc, names)?;
    let mut turns = cursor.pieces;
    while let [_, more @ ..] = turns {
        if !cursor.is_sign(Sign::Comma) {
            break;
        }
        turns = more;
        orders = order_more(cursor, alloc, names, orders)?;
    }
    Ok(orders)
}

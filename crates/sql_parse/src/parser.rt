// A query from its text.
ghost use Rattle.std.specs.Prelude.{◌≡◌, Err, None, Ok, Some, length};
ghost use Rattle.jr_value.specs.declared.value.Kind.{Kind};
ghost use Rattle.jr_value.specs.declared.value.Kind.TheVariants.{Str};
ghost use Rattle.sql_parse.specs.Grammar.{IsAnswer, IsParsed, end_at, query_at, rest_at};
ghost use Rattle.sql_pieces.specs.Reading.{Gives, Reads, ReadsAs};
ghost use Rattle.sql_query.specs.Trees.{asked_of, rest_of};

use crate::conditions::filter;
use crate::orders::orders;
use jr_path::{List, Name};
use jr_value::{Kind, Value};
use sql_pieces::{Placed, SqlFault, pieces_of};
use sql_query::{Condition, Order, Query};
use sql_select::{Cursor, both};
use std::alloc::Global;

// Nothing is left.
fn end(cursor: &Cursor<'_>) -> Result<(), SqlFault>
    ensures { Gives result (end_at cursor.now) }
{
    if cursor.is_over() {
        Ok(())
    } else {
        Err(cursor.fault())
    }
}

// [WHERE or] [ORDER BY order {, order}], and the end
#[tactic(auto, unfolding(crate::specs::Grammar::rest_at))]
fn rest(
    cursor: &mut Cursor<'_>,
    alloc: Global,
    names: &[Name],
) -> Result<(Option<Condition>, List<Order>), SqlFault>
    ensures { ReadsAs rest_of result cursor.new (rest_at names.now cursor.old) }
{
    let filter = filter(cursor, alloc, names)?;
    let orders = orders(cursor, alloc, names);
    let (filter, orders) = both(filter, orders)?;
    let end = end(cursor);
    let ((filter, orders), ()) = both((filter, orders), end)?;
    Ok((filter, orders))
}

// query = SELECT columns FROM selector {join} [WHERE or] [ORDER BY order {, order}]
fn query(cursor: &mut Cursor<'_>, alloc: Global) -> Result<Query, SqlFault>
    ensures { ReadsAs asked_of result cursor.new (query_at cursor.old) }
{
    let (sources, columns) = cursor.selected(alloc)?;
    let (filter, orders) = rest(cursor, alloc, sources.names.as_slice())?;
    Ok(Query {
        types: sources.types,
        joins: sources.joins,
        columns,
        filter,
        orders,
    })
}

// The query, unless the text of a CAST had no value of this kind.
fn answer(query: Query, refused: Option<Kind>) -> Result<Query, SqlFault>
    ensures none { refused ≡ None → result ≡ Ok query }
    ensures some { (kind : Kind) → refused ≡ Some kind → result ≡ Err (SqlFault.Cast kind Str) }
{
    match refused {
        Some(kind) => Err(SqlFault::Cast(kind, Kind::Str)),
        None => Ok(query),
    }
}

// The query of these pieces, in a text of this length.
fn query_of(alloc: Global, pieces: &[Placed], stop: usize) -> Result<Query, SqlFault>
    ensures { IsAnswer pieces.now stop result }
{
    let mut cursor = Cursor {
        pieces,
        stop,
        refused: None,
    };
    let query = query(&mut cursor, alloc)?;
    answer(query, cursor.refused)
}

/// Reads a query of JCR-SQL2 (JSR 283, 6.7): `SELECT columns FROM selector {join} [WHERE condition] [ORDER BY orders]`,
/// with the values of its bind variables.
///
/// `InvalidQuery` has the offset of the first byte of the first token that can't stand there, or the text's length at
/// its end. A name of a selector that isn't declared, a property without a selector's name where there are several,
/// a bind variable without a value and a word or a bracketed text that is no name are such tokens. In a join's condition
/// the selectors up to its own are declared. A fault of the columns' names counts once the selectors that it rests on
/// are read. `Cast`, with the kind and STRING, names the first CAST whose text has no value of its kind; it comes only
/// where the text is in the grammar.
pub fn parse(alloc: Global, text: &str, vars: &[(Name, Value)]) -> Result<Query, SqlFault>
    ensures { IsParsed text.now vars.now result }
{
    let pieces = pieces_of(alloc, text, vars)?;
    query_of(alloc, pieces.as_slice(), text.len())
}

// What a query answers (JSR 283, 6 Query).
ghost use Rattle.std.specs.Prelude.{◌≡◌, Err, IfOk, List, Ok, Result, is_none, map, string_bytes};
ghost use Rattle.std.specs.Option.{option_copied};
ghost use Rattle.jr_tree.specs.Trees.{Nodes};
ghost use Rattle.jr_types.specs.declared.TypeDef.{TypeDef};
ghost use Rattle.jr_types.specs.Types.{subtypes, type_named};
ghost use Rattle.sql_eval.specs.RowTexts.{rows_data};
ghost use Rattle.sql_eval.specs.Rows.{AreRows};
ghost use Rattle.jcr_trans.specs.Texts.{ok_text};
ghost use Rattle.jcr_law.specs.Queries.{QueryAnswers, unknown_selector};
ghost use Rattle.jcr_law.specs.State.{Call};
ghost use Rattle.jcr_call.specs.Reading.{AnswersQuery, AnswersRead, ShowsRows};

use crate::replies::cause_told;
use jr_items::{no_query, no_type, wrong_kind};
use jr_path::{DeepCopy, Keyed, Name, Text};
use jr_tree::Tree;
use jr_types::Registry;
use jr_value::Value;
use sql_eval::{Row, rows_text};
use sql_parse::parse;
use sql_pieces::SqlFault;
use sql_plan::rows_fast;
use sql_query::Query;
use std::alloc::{AllocError, Global};

/// The reply to a query over a tree (JSR 283, 6 Query): 11 with the offset where the text is none;
/// 5 where a CAST has no value; 3 with the first selector's type that nobody registered; else the
/// rows.
pub fn query_reply(
    alloc: Global,
    types: &Registry,
    base: &Tree,
    text: &Text,
    vars: &Keyed<Name, Value>,
) -> Result<String, AllocError>
    ensures { (c : Call) → types.now ≡ c.types → base.now ≡ c.base → IfOk result (λ reply.
        QueryAnswers c text.now vars.now (string_bytes reply)) }
{
    let vars = pairs_of(alloc, vars)?;
    let parsed = parse(alloc, text.as_str(), vars.as_slice());
    drop(vars);
    match parsed {
        Ok(query) => {
            let reply = read_reply(alloc, types, base, &query);
            drop(query);
            reply
        }
        Err(fault) => fault_reply(alloc, fault),
    }
}

/// The bind variables in their order.
pub fn pairs_of(alloc: Global, vars: &Keyed<Name, Value>) -> Result<Vec<(Name, Value)>, AllocError>
    ensures { IfOk result (λ pairs. pairs.items ≡ vars.now) }
{
    let mut pairs = Vec::new(alloc);
    for (name, value) in vars.inner() {
        pairs.push((name.copy()?, value.copy()?))?;
    }
    Ok(pairs)
}

// Why a text is no query.
fn fault_reply(alloc: Global, fault: SqlFault) -> Result<String, AllocError>
    ensures { (types : List TypeDef) (tree : Nodes) → IfOk result (λ reply.
        AnswersRead types tree (Err fault) (string_bytes reply)) }
{
    match fault {
        SqlFault::InvalidQuery(offset) => cause_told(alloc, no_query(alloc, offset)),
        SqlFault::Cast(asked, given) => cause_told(alloc, wrong_kind(alloc, asked, given)),
        SqlFault::Memory => Err(AllocError),
    }
}

// The reply to a query that was read.
fn read_reply(
    alloc: Global,
    types: &Registry,
    base: &Tree,
    query: &Query,
) -> Result<String, AllocError>
    ensures { IfOk result (λ reply.
        AnswersQuery types.now base.now query.now (string_bytes reply)) }
{
    match unknown_selector(types, query) {
        Some(name) => cause_told(alloc, no_type(alloc, name)),
        None => rows_reply(alloc, types, base, query),
    }
}

/// The first selector's type that nobody registered.
pub fn unknown_selector<'a>(types: &Registry, query: &'a Query) -> Option<&'a Name>
    ensures { option_copied result ≡ unknown_selector types.now query.now }
{
    query
        .selector_types()
        .iter()
        .find(|name| is_unknown(types, name))
}

fn is_unknown(types: &Registry, name: &Name) -> bool
    ensures { result ≡ is_none (type_named types.now name.now) }
{
    types.get(name).is_none()
}

// The reply that shows the rows of a query.
fn rows_reply(
    alloc: Global,
    types: &Registry,
    base: &Tree,
    query: &Query,
) -> Result<String, AllocError>
    ensures { IfOk result (λ reply. ShowsRows types.now base.now query.now (string_bytes reply)) }
{
    let rows = rows_of(alloc, types, base, query)?;
    let text = shown(alloc, rows.as_slice());
    drop(rows);
    text
}

fn shown(alloc: Global, rows: &[Row]) -> Result<String, AllocError>
    ensures { IfOk result (λ reply. string_bytes reply ≡ ok_text (rows_data rows.now)) }
{
    let shown = rows_text(alloc, rows)?;
    format!(in alloc; "ok {shown}")
}

fn rows_of(
    alloc: Global,
    types: &Registry,
    base: &Tree,
    query: &Query,
) -> Result<Vec<Row>, AllocError>
    ensures { IfOk result (λ rows. AreRows query.now
        (map (subtypes types.now) query.now.types) base.now rows.items) }
{
    let sets = sets_of(alloc, types, query.selector_types())?;
    rows_fast(alloc, query, sets.as_slice(), base)
}

/// The names of the types of each selector.
pub fn sets_of(
    alloc: Global,
    types: &Registry,
    names: &[Name],
) -> Result<Vec<Vec<Name>>, AllocError>
    ensures { IfOk result (λ sets. map (λ set. set.items) sets.items
        ≡ map (subtypes types.now) names.now) }
{
    let mut sets = Vec::new(alloc);
    for name in names {
        sets.push(types.subtypes(name)?)?;
    }
    Ok(sets)
}

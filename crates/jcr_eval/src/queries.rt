// What a query answers (JSR 283, 6 Query).
ghost use Rattle.std.specs.Prelude.{◌≡◌, ◌≢◌, ◌↔◌, IfOk, IsTrue, OnOk, bytes_eq, map};
ghost use Rattle.oak_machine.specs.History.{history_of};
ghost use Rattle.jr_items.specs.Refusals.{no_query, no_type, wrong_kind};
ghost use Rattle.jr_types.specs.Types.{subtypes};
ghost use Rattle.sql_pieces.specs.declared.fault.SqlFault.TheVariants.{Memory};
ghost use Rattle.sql_eval.specs.RowTexts.{rows_data};
ghost use Rattle.sql_eval.specs.Rows.{AreRows};
ghost use Rattle.jcr_trans.specs.Texts.{ok_text};
ghost use Rattle.jcr_call.specs.Reading.{AnswersQuery, ShowsRows};
ghost use Rattle.jcr_eval.specs.Asked.{IsReadSo, refuses_fault};
ghost use Rattle.jcr_past.specs.Shown.{is_refusal};
ghost use Rattle.jcr_eval.specs.TaskCauses.{QueryCause};

use jcr_call::{pairs_of, sets_of, unknown_selector};
use jcr_law::JcrLaw;
use jcr_past::{call_of, is_refusal};
use jr_items::{no_query, no_type, wrong_kind};
use jr_path::{Keyed, Name, Text};
use jr_tree::Tree;
use jr_types::Registry;
use jr_value::{Kind, Value};
use oak_machine::Journal;
use sql_eval::{Row, rows, rows_are_one, rows_text};
use sql_parse::parse;
use sql_pieces::SqlFault;
use sql_query::Query;
use std::alloc::{AllocError, Global};

pub(crate) fn query_says(
    alloc: Global,
    law: &JcrLaw,
    journal: &Journal,
    session: u32,
    query: &Text,
    vars: &Keyed<Name, Value>,
    text: &str,
) -> Result<bool, AllocError>
    ensures { IfOk result (λ b. IsTrue b
        ↔ QueryCause law.now (history_of journal.now) session query.now vars.now text.now) }
{
    match call_of(
        alloc,
        law,
        &journal.start,
        journal.events.as_slice(),
        session,
    )? {
        Some(call) => answers(alloc, &law.types, &call.base, query, vars, text),
        None => Ok(false),
    }
}

// Whether the text is what a query answers.
fn answers(
    alloc: Global,
    types: &Registry,
    base: &Tree,
    query: &Text,
    vars: &Keyed<Name, Value>,
    text: &str,
) -> Result<bool, AllocError>
    ensures { IfOk result (IsReadSo types.now base.now query.now vars.now text.now) }
{
    let vars = pairs_of(alloc, vars)?;
    match parse(alloc, query.as_str(), vars.as_slice()) {
        Ok(query) => answers_query(alloc, types, base, &query, text),
        Err(fault) => answers_fault(alloc, fault, text),
    }
}

// Whether the text is why a text is no query.
fn answers_fault(alloc: Global, fault: SqlFault, text: &str) -> Result<bool, AllocError>
    ensures ok { IfOk result (λ b. b ≡ refuses_fault text.now fault) }
    ensures read { OnOk result (fault ≢ Memory) }
{
    match fault {
        SqlFault::InvalidQuery(offset) => is_no_query(alloc, offset, text),
        SqlFault::Cast(asked, given) => is_wrong_kind(alloc, asked, given, text),
        SqlFault::Memory => Err(AllocError),
    }
}

fn is_no_query(alloc: Global, offset: usize, text: &str) -> Result<bool, AllocError>
    ensures { IfOk result (λ b. b ≡ is_refusal text.now (no_query offset)) }
{
    let refusal = no_query(alloc, offset);
    is_refusal(alloc, text, &refusal)
}

fn is_wrong_kind(alloc: Global, asked: Kind, given: Kind, text: &str) -> Result<bool, AllocError>
    ensures { IfOk result (λ b. b ≡ is_refusal text.now (wrong_kind asked given)) }
{
    let refusal = wrong_kind(alloc, asked, given);
    is_refusal(alloc, text, &refusal)
}

fn is_no_type(alloc: Global, name: &Name, text: &str) -> Result<bool, AllocError>
    ensures { IfOk result (λ b. b ≡ is_refusal text.now (no_type name.now)) }
{
    let refusal = no_type(alloc, name);
    is_refusal(alloc, text, &refusal)
}

// Whether the text is what a query that was read answers.
fn answers_query(
    alloc: Global,
    types: &Registry,
    base: &Tree,
    query: &Query,
    text: &str,
) -> Result<bool, AllocError>
    ensures { IfOk result (λ b. IsTrue b ↔ AnswersQuery types.now base.now query.now text.now) }
{
    match unknown_selector(types, query) {
        Some(name) => is_no_type(alloc, name, text),
        None => shows_rows(alloc, types, base, query, text),
    }
}

// Whether the text shows the rows of a query.
fn shows_rows(
    alloc: Global,
    types: &Registry,
    base: &Tree,
    query: &Query,
    text: &str,
) -> Result<bool, AllocError>
    ensures { IfOk result (λ b. IsTrue b ↔ ShowsRows types.now base.now query.now text.now) }
{
    rows_are_one();
    let rows = rows_of(alloc, types, base, query)?;
    is_rows_text(alloc, text, rows.as_slice())
}

fn is_rows_text(alloc: Global, text: &str, rows: &[Row]) -> Result<bool, AllocError>
    ensures { IfOk result (λ b. b ≡ bytes_eq text.now (ok_text (rows_data rows.now))) }
{
    let shown = rows_text(alloc, rows)?;
    let reply = format!(in alloc; "ok {shown}")?;
    Ok(text == reply.as_str())
}

fn rows_of(
    alloc: Global,
    types: &Registry,
    base: &Tree,
    query: &Query,
) -> Result<Vec<Row>, AllocError>
    ensures { IfOk result (λ rows. AreRows query.now
        (map (subtypes types.now) query.now.types) base.now rows.items) }
{
    let sets = sets_of(alloc, types, query.selector_types())?;
    rows(alloc, query, sets.as_slice(), base)
}

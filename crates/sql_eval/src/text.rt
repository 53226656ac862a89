// The text of rows.
ghost use Rattle.std.specs.Prelude.{◌≡◌, IfOk, string_bytes};
ghost use Rattle.serde_json.specs.View.{view};
ghost use Rattle.serde_json.specs.Written.{compact_text};
ghost use Rattle.sql_eval.specs.RowTexts.{cell_data, row_data, rows_data};

use crate::row::{Cell, Row};
use jr_json::property_json;
use serde_json::Value as Json;
use std::alloc::{AllocError, Global};

/// The text of rows: JSON with no spaces, a list of a list for each row, with the path of a node as a text, the JSON of
/// a property, or `null`.
#[tactic(auto, using(crate::proofs::PlainRows::rows_plain))]
pub fn rows_text(alloc: Global, rows: &[Row]) -> Result<String, AllocError>
    ensures { IfOk result (λ text. string_bytes text ≡ compact_text (rows_data rows.now)) }
{
    let json = rows_json(alloc, rows)?;
    Ok(json.to_string(alloc)?)
}

fn rows_json(alloc: Global, rows: &[Row]) -> Result<Json, AllocError>
    ensures { IfOk result (λ json. view json ≡ rows_data rows.now) }
{
    let mut items = Vec::new(alloc);
    for row in rows {
        items.push(row_json(alloc, row)?)?;
    }
    Ok(Json::Array(items))
}

fn row_json(alloc: Global, row: &Row) -> Result<Json, AllocError>
    ensures { IfOk result (λ json. view json ≡ row_data row.now) }
{
    let mut items = Vec::new(alloc);
    for cell in row.cells.as_slice() {
        items.push(cell_json(alloc, cell)?)?;
    }
    Ok(Json::Array(items))
}

fn cell_json(alloc: Global, cell: &Cell) -> Result<Json, AllocError>
    ensures { IfOk result (λ json. view json ≡ cell_data cell.now) }
{
    match cell {
        Cell::Node(path) => Ok(Json::String(path.text()?)),
        Cell::Value(property) => property_json(alloc, property),
        Cell::Null => Ok(Json::Null),
    }
}

// Background work, step by step.
use crate::replies::Row;
use crate::texts::cut;
use crate::{background, changes, collections, commits, observed, recoveries, settings, splits};
use oak_store::DocTable;
use rows::{Out, number};
use std::alloc::{AllocError, Global};

// WORD ARGUMENTS | NUMBER DOCUMENTS | MEANWHILE: of the documents, of which the first draws the
// number behind this one.
pub(crate) fn add(line: &str, out: &mut Out) {
    let (task, rest) = cut(line, '|');
    let (documents, meanwhile) = cut(rest, '|');
    let (drawn, documents) = cut(documents.trim(), ' ');
    let (word, arguments) = cut(task.trim(), ' ');
    let row = Row {
        arguments,
        meanwhile,
    };
    match table(number(drawn), out.alloc) {
        Ok(table) => add_row(&row, word, documents, table, out),
        Err(_) => out.is_broken = true,
    }
}

// The empty table behind a number.
fn table(drawn: u64, alloc: Global) -> Result<DocTable, AllocError> {
    DocTable::of(alloc, Vec::new(alloc), drawn)
}

fn add_row(row: &Row<'_>, word: &str, documents: &str, table: DocTable, out: &mut Out) {
    let mut table = table;
    changes::make_all(documents, &mut table, out);
    add_task(row, word, &mut table, out);
    drop(table);
}

fn add_task(row: &Row<'_>, word: &str, table: &mut DocTable, out: &mut Out) {
    match word {
        "#" => out.put(row.arguments),
        "back" => background::add_write(row, table, out),
        "learn" => background::add_read(row, table, out),
        "sweep" => background::add_sweep(row, table, out),
        "split" => splits::add(row, table, out),
        "collect" => collections::add(row, table, out),
        "commit" => commits::add(row, table, out),
        "changes" => observed::add(row, table, out),
        "recover" => recoveries::add(row, table, out),
        "settings" => settings::add(row, table, out),
        _ => out.is_broken = true,
    }
}

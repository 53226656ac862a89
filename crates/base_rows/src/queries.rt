// Queries: rows that add a node or give it a property, or a text to be cut, read or evaluated.
use crate::texts::{push_times, put_kinds};
use jr_json::property_text;
use jr_path::{DeepCopy, List, Name, Path};
use jr_tree::{Node, Tree};
use jr_value::Value;
use rows::{Out, cut, json_of, property_or_false, short};
use serde_json::Value as Json;
use sql_eval::{Cell, Row, rows as plain_rows, rows_text};
use sql_lex::{LexFault, Token, TokenKind, lex};
use sql_parse::parse;
use sql_pieces::SqlFault;
use sql_plan::rows_fast;
use sql_query::{Condition, Operand, Query};
use std::alloc::{AllocError, Global};

pub(crate) fn add(line: &str, tree: &mut Tree, out: &mut Out) {
    let (word, text) = cut(line);
    match word {
        "node" => add_node(text, tree, out),
        "put" => add_property(text, tree, out),
        "tree" => *tree = Tree::new(out.alloc),
        "lex" => add_tokens(text, out),
        "blank" => add_tokens(" \t\r\n", out),
        "deep" => add_deep(text, tree, out),
        _ => add_query(word, text, tree, out),
    }
}

// node PATH
fn add_node(path: &str, tree: &mut Tree, out: &mut Out) {
    let path = out.path_or_root(path);
    match out.name("nt:unstructured") {
        Some(kind) => put_node(path, Node::of_type(out.alloc, kind), tree, out),
        None => out.is_broken = true,
    }
}

fn put_node(path: Path, node: Result<Node, AllocError>, tree: &mut Tree, out: &mut Out) {
    match node {
        Ok(node) => out.note(tree.insert(path, node)),
        Err(_) => out.is_broken = true,
    }
}

// put PATH NAME JSON
fn add_property(text: &str, tree: &mut Tree, out: &mut Out) {
    let (path, rest) = cut(text);
    let (name, text) = cut(rest);
    let path = out.path_or_root(path);
    let json = json_of(text, out);
    put_json(&path, name, &json, tree, out);
    drop(json);
}

fn put_json(path: &Path, name: &str, json: &Option<Json>, tree: &mut Tree, out: &mut Out) {
    match json {
        Some(json) => put_property(path, name, json, tree, out),
        None => out.is_broken = true,
    }
}

fn put_property(path: &Path, name: &str, json: &Json, tree: &mut Tree, out: &mut Out) {
    let property = property_or_false(json, out);
    match out.name(name) {
        Some(name) => out.note(tree.put(path, name, property)),
        None => {
            drop(property);
            out.is_broken = true;
        }
    }
}

// lex TEXT: each token as the letter of its kind and its offsets.
fn add_tokens(text: &str, out: &mut Out) {
    match lex(out.alloc, text) {
        Ok(tokens) => put_tokens(tokens.as_slice(), out),
        Err(LexFault::InvalidQuery(at)) => out.put_number(at as u64),
        Err(LexFault::Memory) => out.put("memory"),
    }
}

fn put_tokens(tokens: &[Token], out: &mut Out) {
    for token in tokens {
        out.put(letter(token.kind));
        out.put_number(token.start as u64);
        out.put("-");
        out.put_number(token.end as u64);
        out.put(" ");
    }
}

fn letter(kind: TokenKind) -> &'static str {
    match kind {
        TokenKind::Word => "w",
        TokenKind::Bracketed => "b",
        TokenKind::Text => "t",
        TokenKind::Number => "n",
        TokenKind::Variable => "v",
        TokenKind::Sign => "s",
    }
}

fn add_query(word: &str, text: &str, tree: &Tree, out: &mut Out) {
    let vars = vars(out);
    let query = parse(out.alloc, text, vars.as_slice());
    match &query {
        Ok(query) => put_query(word, query, tree, out),
        Err(fault) => add_fault(fault, out),
    }
    drop(query);
}

fn add_fault(fault: &SqlFault, out: &mut Out) {
    match fault {
        SqlFault::InvalidQuery(at) => out.put_number(*at as u64),
        SqlFault::Cast(required, found) => put_kinds(*required, *found, out),
        SqlFault::Memory => out.put("memory"),
    }
}

// The variable v, which is 5.
fn vars(out: &mut Out) -> List<(Name, Value)> {
    let mut vars = List::new(out.alloc);
    if let Some(name) = out.name("v") {
        let put = vars.push((name, Value::Long(5)));
        out.note(put);
    }
    vars
}

// condition, counts, rows, text, count or fast, and a query.
fn put_query(word: &str, query: &Query, tree: &Tree, out: &mut Out) {
    match word {
        "condition" => put_filter(query, out),
        "counts" => put_counts(query, out),
        _ => put_found(word, query, sets(query, out).as_slice(), tree, out),
    }
}

fn put_found(word: &str, query: &Query, sets: &[Vec<Name>], tree: &Tree, out: &mut Out) {
    match word {
        "rows" => put_rows(plain_rows(out.alloc, query, sets, tree), out),
        "text" => put_texts(query, sets, tree, out),
        "count" => put_count(plain_rows(out.alloc, query, sets, tree), out),
        "fast" => put_count(rows_fast(out.alloc, query, sets, tree), out),
        _ => out.put("?"),
    }
}

// How many selectors, joins, columns and orders it has.
fn put_counts(query: &Query, out: &mut Out) {
    out.put_number(query.selector_types().len() as u64);
    out.put_numbered(" ", query.joins.len() as u64);
    out.put_numbered(" ", query.columns.len() as u64);
    out.put_numbered(" ", query.orders.len() as u64);
}

// Of the condition the properties that are compared, with ! for NOT, & for AND and | for OR.
fn put_filter(query: &Query, out: &mut Out) {
    if let Some(filter) = &query.filter {
        put_condition(filter, out);
    }
}

fn put_condition(condition: &Condition, out: &mut Out) {
    match condition {
        Condition::Not(inside) => {
            out.put("!");
            put_condition(inside, out);
        }
        Condition::And(left, right) => {
            out.put("(");
            put_condition(left, out);
            out.put("&");
            put_condition(right, out);
            out.put(")");
        }
        Condition::Or(left, right) => {
            out.put("(");
            put_condition(left, out);
            out.put("|");
            put_condition(right, out);
            out.put(")");
        }
        Condition::Compare(Operand::Property(property), _, _) => out.put(property.name.as_str()),
        _ => out.put("?"),
    }
}

// The text of the rows, and whether those by a plan have it too.
fn put_texts(query: &Query, sets: &[Vec<Name>], tree: &Tree, out: &mut Out) {
    let plain = text_of(out.alloc, plain_rows(out.alloc, query, sets, tree));
    let fast = text_of(out.alloc, rows_fast(out.alloc, query, sets, tree));
    put_same(&plain, &fast, out);
    drop(plain);
    drop(fast);
}

fn text_of(alloc: Global, rows: Result<Vec<Row>, AllocError>) -> Result<String, AllocError> {
    rows_text(alloc, &rows?)
}

fn put_same(plain: &Result<String, AllocError>, fast: &Result<String, AllocError>, out: &mut Out) {
    match (plain, fast) {
        (Ok(plain), Ok(fast)) => put_one(plain.as_str(), fast.as_str(), out),
        _ => out.is_broken = true,
    }
}

fn put_one(plain: &str, fast: &str, out: &mut Out) {
    if plain != fast {
        out.put("not the rows of the plan: ");
    }
    out.put(plain);
}

fn put_count(rows: Result<Vec<Row>, AllocError>, out: &mut Out) {
    match rows {
        Ok(rows) => out.put_number(rows.len() as u64),
        Err(_) => out.is_broken = true,
    }
}

// deep COUNT|BEFORE|OPEN|INSIDE|CLOSE|AFTER: as text, of BEFORE, so many OPEN, INSIDE, so many
// CLOSE, and AFTER.
fn add_deep(text: &str, tree: &Tree, out: &mut Out) {
    let query = deep_query(text, out);
    add_query("text", query.as_str(), tree, out);
}

fn deep_query(text: &str, out: &mut Out) -> String {
    let (count, rest) = cut_bar(text);
    let (before, rest) = cut_bar(rest);
    let (open, rest) = cut_bar(rest);
    let (inside, rest) = cut_bar(rest);
    let (close, after) = cut_bar(rest);
    let count = short(count);
    let mut query = String::new(out.alloc);
    push_times(&mut query, 1, before, out);
    push_times(&mut query, count, open, out);
    push_times(&mut query, 1, inside, out);
    push_times(&mut query, count, close, out);
    push_times(&mut query, 1, after, out);
    query
}

fn cut_bar(text: &str) -> (&str, &str) {
    text.split_once('|').unwrap_or((text, ""))
}

// Of each selector its type alone.
fn sets(query: &Query, out: &mut Out) -> List<Vec<Name>> {
    let mut sets = List::new(out.alloc);
    for kind in query.selector_types() {
        let put = sets.push(set_of(kind, out));
        out.note(put);
    }
    sets
}

fn set_of(kind: &Name, out: &mut Out) -> Vec<Name> {
    let mut set = List::new(out.alloc);
    out.push(&mut set, kind.copy());
    set.into_inner()
}

// The cells, row by row.
fn put_rows(rows: Result<Vec<Row>, AllocError>, out: &mut Out) {
    match rows {
        Ok(rows) => put_all(rows.as_slice(), out),
        Err(_) => out.is_broken = true,
    }
}

fn put_all(rows: &[Row], out: &mut Out) {
    for row in rows {
        put_cells(row.cells.as_slice(), out);
    }
}

fn put_cells(cells: &[Cell], out: &mut Out) {
    for cell in cells {
        put_cell(cell, out);
        out.put(" ");
    }
}

fn put_cell(cell: &Cell, out: &mut Out) {
    match cell {
        Cell::Node(path) => out.put_path(path),
        Cell::Value(value) => out.put_made(property_text(out.alloc, value)),
        Cell::Null => out.put("null"),
    }
}

// What comes of each line.
use jr_builtin::builtin;
use jr_docs::document_line;
use jr_docs_read::{DocFault, read_document};
use jr_open::{are_in_order, open};
use oak_doc::Document;
use oak_open::{OpenFault, Opened};
use rows::{Out, items_in, json_of, small};
use serde_json::Value as Json;

/// Puts out what comes of a line.
pub fn add(line: &str, out: &mut Out) {
    match json_of(line, out) {
        Some(json) => add_case(&json, out),
        None => out.put("no JSON"),
    }
}

fn add_case(json: &Json, out: &mut Out) {
    let mut documents = Vec::new(out.alloc);
    if !push_all(items_in(json, "documents"), &mut documents, out) {
        return out.put("no document");
    }
    let clusters = number_in(json, "clusters");
    let sessions = number_in(json, "sessions");
    add_opened(documents, clusters, sessions, out);
}

// The number of that name; 1, where there is none.
fn number_in(json: &Json, name: &str) -> u32 {
    match json.get(name) {
        Some(number) => small(number),
        None => 1,
    }
}

// Whether all of these are documents.
fn push_all(items: &[Json], documents: &mut Vec<Document>, out: &mut Out) -> bool {
    for item in items {
        if !push(item, documents, out) {
            return false;
        }
    }
    true
}

fn push(item: &Json, documents: &mut Vec<Document>, out: &mut Out) -> bool {
    match read_document(out.alloc, item) {
        Ok(document) => {
            let pushed = documents.push(document);
            out.is_broken = out.is_broken || pushed.is_err();
            true
        }
        Err(DocFault::NotADocument) => false,
        Err(DocFault::Memory) => {
            out.is_broken = true;
            true
        }
    }
}

fn add_opened(documents: Vec<Document>, clusters: u32, sessions: u32, out: &mut Out) {
    if clusters < 1 || clusters > 8 || sessions > 64 {
        return out.put("no such numbers");
    }
    if !are_in_order(documents.as_slice()) {
        return out.put("not in order");
    }
    match builtin(out.alloc) {
        Ok(types) => match open(out.alloc, documents, clusters, sessions, &types) {
            Ok(opened) => put_opened(&opened, out),
            Err(fault) => put_fault(fault, out),
        },
        Err(_) => out.is_broken = true,
    }
}

fn put_opened(opened: &Opened, out: &mut Out) {
    for (_, document) in opened.table.documents().iter() {
        put_line(document, out);
    }
    out.put("opened");
}

fn put_line(document: &Document, out: &mut Out) {
    let line = document_line(out.alloc, document);
    out.put_made(line);
    out.put("\n");
}

fn put_fault(fault: OpenFault, out: &mut Out) {
    match fault {
        OpenFault::Unsound { rule, document } => {
            out.put("rule ");
            out.put_number(u64::from(rule));
            out.put(" document ");
            out.put_number(document as u64);
        }
        OpenFault::Memory => out.is_broken = true,
    }
}

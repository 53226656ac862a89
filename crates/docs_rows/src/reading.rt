// What comes of each line.
use crate::telling::put_document;
use jr_docs::document_line;
use jr_docs_read::{DocFault, read_document};
use oak_doc::Document;
use rows::{Out, cut, json_of};
use serde_json::Value as Json;

// What is put out of a document: its line, or its fields one after the other.
#[derive(Clone, Copy)]
enum Way {
    Print,
    Tell,
}

/// Puts out what comes of a line.
pub fn add(line: &str, out: &mut Out) {
    let (word, rest) = cut(line);
    match word {
        "print" => add_text(rest, Way::Print, out),
        "tell" => add_text(rest, Way::Tell, out),
        _ => out.put("no row"),
    }
}

fn add_text(text: &str, way: Way, out: &mut Out) {
    let json = json_of(text, out);
    match &json {
        Some(json) => add_json(json, way, out),
        None => out.put("no JSON"),
    }
    drop(json);
}

fn add_json(json: &Json, way: Way, out: &mut Out) {
    let read = read_document(out.alloc, json);
    match &read {
        Ok(document) => put(document, way, out),
        Err(fault) => put_fault(fault, out),
    }
    drop(read);
}

fn put(document: &Document, way: Way, out: &mut Out) {
    match way {
        Way::Print => put_line(document, out),
        Way::Tell => put_document(document, out),
    }
}

fn put_line(document: &Document, out: &mut Out) {
    let line = document_line(out.alloc, document);
    out.put_made(line);
}

fn put_fault(fault: &DocFault, out: &mut Out) {
    match fault {
        DocFault::NotADocument => out.put("no document"),
        DocFault::Memory => out.is_broken = true,
    }
}

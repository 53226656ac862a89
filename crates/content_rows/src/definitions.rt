// Type definitions as text: what a text means, and how types print.
use cnd_print::print_cnd;
use jr_cnd::{Cnd, NoCnd, read_cnd};
use jr_path::{DeepCopy, List};
use jr_types::{Registry, TypeDef};
use rows::{Out, json_of};
use serde_json::Value as Json;
use std::alloc::AllocError;

// The canonical text of the text that is given as JSON, with `again` where it reads back as it
// prints, or the kind of fault and its offset.
pub(crate) fn add(given: &str, out: &mut Out) {
    let json = json_of(given, out);
    add_given(&json, out);
    drop(json);
}

fn add_given(json: &Option<Json>, out: &mut Out) {
    match json {
        Some(Json::String(text)) => add_meaning(text.as_str(), out),
        _ => out.put("no text"),
    }
}

fn add_meaning(text: &str, out: &mut Out) {
    match read_cnd(out.alloc, text) {
        Ok(cnd) => add_canonical(&cnd, out),
        Err(fault) => put_fault(fault, out),
    }
}

fn put_fault(fault: NoCnd, out: &mut Out) {
    match fault {
        NoCnd::Syntax(offset) => out.put_numbered("syntax ", offset as u64),
        NoCnd::BadDef(offset) => out.put_numbered("definition ", offset as u64),
        NoCnd::Memory => out.is_broken = true,
    }
}

fn add_canonical(cnd: &Cnd, out: &mut Out) {
    match print_cnd(out.alloc, cnd) {
        Ok(text) => put_read_again(text.as_str(), out),
        Err(_) => out.is_broken = true,
    }
}

fn put_read_again(text: &str, out: &mut Out) {
    put_quoted(text, out);
    if prints_as(text, out) {
        out.put(" again");
    }
}

// Whether the text is read, and prints as itself.
fn prints_as(text: &str, out: &Out) -> bool {
    match read_cnd(out.alloc, text) {
        Ok(cnd) => prints_to(&cnd, text, out),
        Err(_) => false,
    }
}

fn prints_to(cnd: &Cnd, text: &str, out: &Out) -> bool {
    match print_cnd(out.alloc, cnd) {
        Ok(printed) => printed.as_str() == text,
        Err(_) => false,
    }
}

// A text as it stands in JSON.
fn put_quoted(text: &str, out: &mut Out) {
    let json = Json::try_from_str(out.alloc, text);
    put_json(&json, out);
    drop(json);
}

fn put_json(json: &Result<Json, AllocError>, out: &mut Out) {
    match json {
        Ok(json) => out.put_made(json.to_string(out.alloc)),
        Err(_) => out.is_broken = true,
    }
}

// NAMES: the text of these built-in types.
pub(crate) fn add_printed(types: &Registry, names: &str, out: &mut Out) {
    let cnd = definitions_of(types, names, out);
    match print_cnd(out.alloc, &cnd) {
        Ok(text) => put_quoted(text.as_str(), out),
        Err(_) => out.is_broken = true,
    }
}

fn definitions_of(types: &Registry, names: &str, out: &mut Out) -> Cnd {
    let mut definitions = List::new(out.alloc);
    for name in names.split_whitespace() {
        push_copy(&mut definitions, type_named(types, name, out), out);
    }
    Cnd {
        prefixes: List::new(out.alloc),
        definitions,
    }
}

fn push_copy(definitions: &mut List<TypeDef>, definition: Option<&TypeDef>, out: &mut Out) {
    if let Some(definition) = definition {
        out.push(definitions, definition.copy());
    }
}

pub(crate) fn type_named<'a>(
    types: &'a Registry,
    name: &str,
    out: &mut Out,
) -> Option<&'a TypeDef> {
    match out.name(name) {
        Some(name) => types.get(&name),
        None => None,
    }
}

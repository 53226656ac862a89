// The node types of scripts, as text.
use crate::values::put_json;
use cnd_print::print_cnd;
use jr_cnd::Cnd;
use jr_path::{DeepCopy, List};
use jr_script::{Script, ScriptFault, read_script};
use jr_types::{Registry, TypeDef};
use rows::{Out, cut};
use serde_json::Value as Json;
use std::alloc::AllocError;

// NAME,NAME SCRIPT: the canonical text of those of the script's types that have these names.
pub(crate) fn add(asked: &str, out: &mut Out) {
    let (names, script) = cut(asked);
    let read = read_script(out.alloc, script.as_bytes());
    put_read(&read, names, out);
    drop(read);
}

fn put_read(read: &Result<Script, ScriptFault>, names: &str, out: &mut Out) {
    match read {
        Ok(script) => put_types(&script.types, names, out),
        Err(_) => out.put("no script"),
    }
}

fn put_types(types: &Registry, names: &str, out: &mut Out) {
    let cnd = Cnd {
        prefixes: List::new(out.alloc),
        definitions: named(types, names, out),
    };
    put_quoted(print_cnd(out.alloc, &cnd), out);
}

// A text as it stands in JSON.
fn put_quoted(text: Result<String, AllocError>, out: &mut Out) {
    match text {
        Ok(text) => put_text(text.as_str(), out),
        Err(_) => out.is_broken = true,
    }
}

fn put_text(text: &str, out: &mut Out) {
    let json = Json::try_from_str(out.alloc, text);
    put_json(&json, out);
    drop(json);
}

// Copies of the types of these names.
fn named(types: &Registry, names: &str, out: &mut Out) -> List<TypeDef> {
    let mut definitions = List::new(out.alloc);
    for name in names.split(',') {
        push_copy(&mut definitions, type_of(types, name, out), out);
    }
    definitions
}

fn push_copy(definitions: &mut List<TypeDef>, definition: Option<&TypeDef>, out: &mut Out) {
    if let Some(definition) = definition {
        out.push(definitions, definition.copy());
    }
}

fn type_of<'a>(types: &'a Registry, name: &str, out: &mut Out) -> Option<&'a TypeDef> {
    match out.name(name) {
        Some(name) => types.get(&name),
        None => None,
    }
}

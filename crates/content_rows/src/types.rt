// Node types: definitions that come behind the built-in ones, and what a tree breaks of them.
use crate::definitions::type_named;
use crate::shows::put_all;
use crate::trees::tree_of;
use jr_defs::{NoType, read_type};
use jr_edited::Edited;
use jr_path::{DeepCopy, Name, Path};
use jr_rules::{TypesOut, check};
use jr_tree::Tree;
use jr_types::{Registry, TypeDef, TypeFault};
use rows::{Out, cut, items_of, json_of};
use serde_json::Value as Json;
use std::alloc::AllocError;

// `type` DEFINITIONS, `violation` DEFINITIONS, `subtypes` NAME DEFINITIONS, `is_a` NAME NAME,
// `added` NAMES
pub(crate) fn add(types: &mut Registry, word: &str, asked: &str, given: &str, out: &mut Out) {
    match word {
        "added" => add_again(types, asked, out),
        "is_a" => add_is_a(types, cut(asked), out),
        "subtypes" => add_subtypes(types, cut(asked), out),
        "type" => add_type(types, asked, out),
        "violation" => add_violation(types, asked, given, out),
        _ => out.is_broken = true,
    }
}

fn add_type(types: &mut Registry, definitions: &str, out: &mut Out) {
    if register(types, definitions, out) {
        out.put("read");
    }
}

// Registers the definitions of a list, and tells whether all are; puts the refusal of the first
// that isn't.
pub(crate) fn register(types: &mut Registry, definitions: &str, out: &mut Out) -> bool {
    let json = json_of(definitions, out);
    let is_done = register_read(types, &json, out);
    drop(json);
    is_done
}

fn register_read(types: &mut Registry, json: &Option<Json>, out: &mut Out) -> bool {
    match json {
        Some(json) => register_all(types, items_of(json), out),
        None => refused("no list", out),
    }
}

fn register_all(types: &mut Registry, items: Option<&[Json]>, out: &mut Out) -> bool {
    let Some(items) = items else {
        return refused("no list", out);
    };
    for item in items {
        if !register_one(types, item, out) {
            return false;
        }
    }
    true
}

pub(crate) fn register_one(types: &mut Registry, item: &Json, out: &mut Out) -> bool {
    match read_type(out.alloc, item) {
        Ok(definition) => put_added(types.add(definition), out),
        Err(NoType::NoDefinition) => refused("no definition", out),
        Err(NoType::Memory) => broken(out),
    }
}

// Whether the type is registered; puts the rule that it breaks.
fn put_added(added: Result<(), TypeFault>, out: &mut Out) -> bool {
    match added {
        Ok(()) => true,
        Err(TypeFault::BadType(rule)) => {
            out.put_numbered("bad type ", u64::from(rule));
            false
        }
        Err(TypeFault::Memory) => broken(out),
    }
}

fn refused(text: &str, out: &mut Out) -> bool {
    out.put(text);
    false
}

pub(crate) fn broken(out: &mut Out) -> bool {
    out.is_broken = true;
    false
}

// Built-in types, added to a registry of none one behind another.
fn add_again(builtin: &Registry, names: &str, out: &mut Out) {
    let mut types = Registry::new(out.alloc);
    match &mut types {
        Ok(types) => add_names(builtin, types, names, out),
        Err(_) => out.is_broken = true,
    }
    drop(types);
}

fn add_names(builtin: &Registry, types: &mut Registry, names: &str, out: &mut Out) {
    for name in names.split_whitespace() {
        if !add_copy(type_named(builtin, name, out), types, out) {
            return;
        }
    }
    out.put("added");
}

fn add_copy(definition: Option<&TypeDef>, types: &mut Registry, out: &mut Out) -> bool {
    match definition {
        Some(definition) => put_added(copied_to(definition, types), out),
        None => broken(out),
    }
}

fn copied_to(definition: &TypeDef, types: &mut Registry) -> Result<(), TypeFault> {
    match definition.copy() {
        Ok(copy) => types.add(copy),
        Err(_) => Err(TypeFault::Memory),
    }
}

fn add_is_a(types: &Registry, names: (&str, &str), out: &mut Out) {
    match (out.name(names.0), out.name(names.1)) {
        (Some(name), Some(of)) => put_truth(types.is_a(&name, &of), out),
        _ => out.is_broken = true,
    }
}

fn put_truth(is_so: bool, out: &mut Out) {
    out.put(if is_so { "true" } else { "false" });
}

// NAME DEFINITIONS
fn add_subtypes(types: &mut Registry, asked: (&str, &str), out: &mut Out) {
    if register(types, asked.1, out) {
        add_subtypes_of(types, asked.0, out);
    }
}

fn add_subtypes_of(types: &Registry, name: &str, out: &mut Out) {
    match out.name(name) {
        Some(name) => put_subtypes(types.subtypes(&name), out),
        None => out.is_broken = true,
    }
}

fn put_subtypes(names: Result<Vec<Name>, AllocError>, out: &mut Out) {
    match names {
        Ok(names) => put_some_names(names.as_slice(), out),
        Err(_) => out.is_broken = true,
    }
}

fn put_some_names(names: &[Name], out: &mut Out) {
    if names.is_empty() {
        out.put("nothing");
    }
    put_all(names, out);
}

// What the tree breaks first, by path, by rule, and then by item.
fn add_violation(types: &mut Registry, definitions: &str, given: &str, out: &mut Out) {
    if register(types, definitions, out) {
        check_given(types, given, out);
    }
}

fn check_given(types: &Registry, given: &str, out: &mut Out) {
    let tree = tree_of(given, out);
    if passes(types, &tree, out) {
        out.put("ok");
    }
}

// Whether all nodes pass.
fn passes(types: &Registry, tree: &Tree, out: &mut Out) -> bool {
    for (path, _) in tree.iter() {
        if !check_one(types, tree, path, out) {
            return false;
        }
    }
    true
}

// Whether the node passes; puts what it breaks first.
fn check_one(types: &Registry, tree: &Tree, path: &Path, out: &mut Out) -> bool {
    if !tree.has(path) {
        return broken(out);
    }
    let edited = Edited::unchanged(out.alloc, tree);
    let checked = check(types, &edited, path);
    put_checked(&checked, out);
    let is_ok = checked.is_ok();
    drop(checked);
    is_ok
}

fn put_checked(checked: &Result<(), TypesOut>, out: &mut Out) {
    if let Err(fault) = checked {
        put_violation(fault, out);
    }
}

fn put_violation(fault: &TypesOut, out: &mut Out) {
    match fault {
        TypesOut::Violation { node, item, rule } => put_broken(node, item, *rule, out),
        TypesOut::Memory => out.is_broken = true,
    }
}

fn put_broken(node: &Path, item: &Name, rule: u8, out: &mut Out) {
    out.put_number(u64::from(rule));
    out.put(" ");
    out.put_path(node);
    out.put(" ");
    out.put(item.as_str());
}

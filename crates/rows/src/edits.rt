// Edits: lists of writes ["here",P], ["gone",P], ["put",P,N,V], ["unset",P,N]; ["add",P] or
// ["add",P,TYPE] is a node with its type, and ["remove",P] a node of a tree that goes with each of
// its properties.
use crate::json::{items_of, property_of, text_at};
use crate::out::Out;
use jr_items::OwnName;
use jr_path::{DeepCopy, List, Name, Path};
use jr_tree::{Edit, Node, Tree, Write};
use jr_value::{Property, Value};
use serde_json::Value as Json;
use std::alloc::{AllocError, Global};

/// The edit that JSON is; none where it is none.
pub fn edit_of(json: &Json, tree: &Tree, out: &mut Out) -> Option<Edit> {
    let mut writes = List::new(out.alloc);
    if !push_writes(&mut writes, items_of(json), tree, out) {
        return None;
    }
    Some(Edit { writes })
}

fn push_writes(
    writes: &mut List<Write>,
    items: Option<&[Json]>,
    tree: &Tree,
    out: &mut Out,
) -> bool {
    let Some(items) = items else {
        return false;
    };
    for item in items {
        if !push_write(writes, items_of(item).unwrap_or(&[]), tree, out) {
            return false;
        }
    }
    true
}

fn push_write(writes: &mut List<Write>, item: &[Json], tree: &Tree, out: &mut Out) -> bool {
    match out.path(text_at(item, 1)) {
        Some(path) => push_of(writes, item, &path, tree.get(&path), out),
        None => false,
    }
}

fn push_of(
    writes: &mut List<Write>,
    item: &[Json],
    path: &Path,
    node: Option<&Node>,
    out: &mut Out,
) -> bool {
    match text_at(item, 0) {
        "here" => pushed(writes, here(path), out),
        "gone" => pushed(writes, gone(path), out),
        "add" => push_node(writes, path, text_at(item, 2), out),
        "remove" => push_removal(writes, path, node, out),
        "put" => push_put(writes, path, item, out),
        "unset" => push_unset(writes, path, text_at(item, 2), out),
        _ => false,
    }
}

fn pushed(writes: &mut List<Write>, made: Result<Write, AllocError>, out: &mut Out) -> bool {
    match made {
        Ok(write) => {
            let put = writes.push(write);
            out.note(put);
            true
        }
        Err(_) => {
            out.is_broken = true;
            false
        }
    }
}

fn here(path: &Path) -> Result<Write, AllocError> {
    Ok(Write::Here(path.copy()?))
}

fn gone(path: &Path) -> Result<Write, AllocError> {
    Ok(Write::Gone(path.copy()?))
}

fn put(path: &Path, name: Name, property: Property) -> Result<Write, AllocError> {
    match path.copy() {
        Ok(path) => Ok(Write::Put(path, name, property)),
        Err(error) => {
            drop(property);
            Err(error)
        }
    }
}

fn unset(path: &Path, name: Name) -> Result<Write, AllocError> {
    Ok(Write::Unset(path.copy()?, name))
}

fn push_node(writes: &mut List<Write>, path: &Path, kind: &str, out: &mut Out) -> bool {
    pushed(writes, here(path), out) && push_type(writes, path, kind, out)
}

fn push_type(writes: &mut List<Write>, path: &Path, kind: &str, out: &mut Out) -> bool {
    let kind = if kind.is_empty() {
        "nt:unstructured"
    } else {
        kind
    };
    match out.name(kind) {
        Some(kind) => pushed(writes, typed(path, kind, out.alloc), out),
        None => false,
    }
}

fn typed(path: &Path, kind: Name, alloc: Global) -> Result<Write, AllocError> {
    put(
        path,
        OwnName::PrimaryType.name(alloc)?,
        Property::Single(Value::Name(kind)),
    )
}

fn push_removal(writes: &mut List<Write>, path: &Path, node: Option<&Node>, out: &mut Out) -> bool {
    match node {
        Some(node) => pushed(writes, gone(path), out) && push_unsets(writes, path, node, out),
        None => false,
    }
}

fn push_unsets(writes: &mut List<Write>, path: &Path, node: &Node, out: &mut Out) -> bool {
    for (name, _) in node.props.iter() {
        if !push_unset(writes, path, name.as_str(), out) {
            return false;
        }
    }
    true
}

fn push_put(writes: &mut List<Write>, path: &Path, item: &[Json], out: &mut Out) -> bool {
    match item.get(3) {
        Some(value) => push_value(writes, path, text_at(item, 2), value, out),
        None => false,
    }
}

fn push_value(
    writes: &mut List<Write>,
    path: &Path,
    name: &str,
    value: &Json,
    out: &mut Out,
) -> bool {
    let property = property_of(value, out);
    match out.name(name) {
        Some(name) => push_some(writes, path, name, property, out),
        None => {
            drop(property);
            false
        }
    }
}

fn push_some(
    writes: &mut List<Write>,
    path: &Path,
    name: Name,
    property: Option<Property>,
    out: &mut Out,
) -> bool {
    match property {
        Some(property) => pushed(writes, put(path, name, property), out),
        None => false,
    }
}

fn push_unset(writes: &mut List<Write>, path: &Path, name: &str, out: &mut Out) -> bool {
    match out.name(name) {
        Some(name) => pushed(writes, unset(path, name), out),
        None => false,
    }
}

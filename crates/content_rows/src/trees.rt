// A tree from JSON: an object with a member for each path, an object with a property for each name.
use jr_items::OwnName;
use jr_path::{DeepCopy, Path};
use jr_tree::{Node, Tree};
use rows::{Out, json_of, property_or_false};
use serde_json::{Map, Value as Json};
use std::alloc::{AllocError, Global};

// The tree of a text, in which `/` is always there.
pub(crate) fn tree_of(text: &str, out: &mut Out) -> Tree {
    let mut tree = Tree::new(out.alloc);
    let root = Path::root(out.alloc);
    insert(&mut tree, &root, Ok(Node::new(out.alloc)), out);
    add_nodes(&mut tree, false, text, out);
    tree
}

// Puts the nodes of a text; those for which no type is given have one where it is asked for.
pub(crate) fn add_nodes(tree: &mut Tree, is_typed: bool, text: &str, out: &mut Out) {
    let json = json_of(text, out);
    match &json {
        Some(json) => add_object(tree, is_typed, json, out),
        None => out.is_broken = true,
    }
    drop(json);
}

pub(crate) fn add_object(tree: &mut Tree, is_typed: bool, json: &Json, out: &mut Out) {
    match json {
        Json::Object(members) => add_members(tree, is_typed, members, out),
        _ => out.is_broken = true,
    }
}

fn add_members(tree: &mut Tree, is_typed: bool, members: &Map<String, Json>, out: &mut Out) {
    for (path, json) in members.iter() {
        let path = out.path_or_root(path.as_str());
        insert(tree, &path, first_node(is_typed, out.alloc), out);
        add_properties(tree, &path, json, out);
    }
}

fn first_node(is_typed: bool, alloc: Global) -> Result<Node, AllocError> {
    if is_typed {
        return Node::of_type(alloc, OwnName::Unstructured.name(alloc)?);
    }
    Ok(Node::new(alloc))
}

// Puts a node.
pub(crate) fn insert(tree: &mut Tree, path: &Path, node: Result<Node, AllocError>, out: &mut Out) {
    match (node, path.copy()) {
        (Ok(node), Ok(path)) => out.note(tree.insert(path, node)),
        _ => out.is_broken = true,
    }
}

fn add_properties(tree: &mut Tree, path: &Path, json: &Json, out: &mut Out) {
    match json {
        Json::Object(members) => put_properties(tree, path, members, out),
        _ => out.is_broken = true,
    }
}

fn put_properties(tree: &mut Tree, path: &Path, members: &Map<String, Json>, out: &mut Out) {
    for (name, json) in members.iter() {
        put_property(tree, path, name.as_str(), json, out);
    }
}

// Puts a property.
pub(crate) fn put_property(tree: &mut Tree, path: &Path, name: &str, json: &Json, out: &mut Out) {
    let property = property_or_false(json, out);
    match out.name(name) {
        Some(name) => out.note(tree.put(path, name, property)),
        None => {
            drop(property);
            out.is_broken = true;
        }
    }
}

// The nodes of a `tree` argument, and maps from names.
ghost use Rattle.std.specs.Prelude.{◌≡◌, [], None};
ghost use Rattle.serde_json.specs.Data.{array};
ghost use Rattle.serde_json.specs.Find.{get};
ghost use Rattle.std.specs.Prelude.{codes};
ghost use Rattle.serde_json.specs.View.{view, items_view, members_view};
ghost use Rattle.jr_args.specs.Outcomes.{Answers, AnswersOnto};
ghost use Rattle.jr_args.specs.Trees.{are_texts, are_trees, below_of, child_of, is_field, is_list_of_texts, is_tree, entry_of, mixin_of, mixins_of, node_of, optional_of, properties_read, members_in, nodes_of, some_name_of, json_text_in, tree_of, type_of, variables_of};
ghost use Rattle.jr_args.specs.Values.{property_read, value_of};

use crate::fault::Fault;
use crate::values::{name, property, value};
use jcr_trans::TreeNode;
use jr_path::{DeepCopy, Keyed, List, Name, Path};
use jr_value::{Property, Value};
use serde_json::{Map, Value as Json};
use std::alloc::Global;

// ---- the form

// Whether the JSON is a node of a tree: an object with no other keys than `type`, `mixins`, `props` and `nodes`, which
// are a text, a list of texts, an object, and an object of nodes.
#[cycle(form)]
pub fn is_tree(json: &Json) -> bool
    ensures { result ≡ is_tree (view json.now) }
{
    match json {
        Json::Object(fields) => {
            for (key, field) in fields.iter() {
                if !is_field(key.as_str(), field) {
                    return false;
                }
            }
            true
        }
        _ => false,
    }
}

#[cycle(form)]
fn is_field(key: &str, field: &Json) -> bool
    ensures { result ≡ is_field key.now (view field.now) (are_trees (view field.now)) }
{
    if key == "type" {
        return field.is_string();
    }
    if key == "mixins" {
        return is_list_of_texts(field);
    }
    if key == "props" {
        return field.is_object();
    }
    if key == "nodes" {
        return are_trees(field);
    }
    false
}

#[cycle(form)]
fn are_trees(json: &Json) -> bool
    ensures { result ≡ are_trees (view json.now) }
{
    match json {
        Json::Object(nodes) => {
            for (_key, node) in nodes.iter() {
                if !is_tree(node) {
                    return false;
                }
            }
            true
        }
        _ => false,
    }
}

fn is_list_of_texts(json: &Json) -> bool
    ensures { result ≡ is_list_of_texts (view json.now) }
{
    match json {
        Json::Array(items) => are_texts(items),
        _ => false,
    }
}

fn are_texts(items: &[Json]) -> bool
    ensures { result ≡ are_texts (items_view items.now) }
{
    match items {
        [] => true,
        [first, rest @ ..] => first.is_string() && are_texts(rest),
    }
}

// ---- what it means

// The text that the JSON is; empty where it is none.
pub fn text_in(json: &Json) -> &str
    ensures { result.now ≡ json_text_in (view json.now) }
{
    match json {
        Json::String(text) => text.as_str(),
        _ => "",
    }
}

fn mixins(alloc: Global, json: &Json) -> Result<List<Name>, Fault>
    ensures { Answers (mixins_of (view json.now)) result }
{
    match json {
        Json::Array(items) => names(alloc, items),
        _ => Ok(List::new(alloc)),
    }
}

fn mixin(alloc: Global, json: &Json) -> Result<Name, Fault>
    ensures { Answers (mixin_of (view json.now)) result }
{
    name(alloc, text_in(json))
}

fn names(alloc: Global, items: &[Json]) -> Result<List<Name>, Fault>
    ensures { Answers (mixins_of (array (items_view items.now))) result }
{
    let mut names = Vec::new(alloc);
    for (index, item) in items.iter().enumerate() {
        match mixin(alloc, item) {
            Ok(name) => names.push(name)?,
            Err(fault) => return Err(fault.in_item(index)),
        }
    }
    Ok(List::of(names))
}

fn props(alloc: Global, json: &Json) -> Result<Keyed<Name, Property>, Fault>
    ensures { Answers (properties_read (view json.now)) result }
{
    let mut props = Keyed::new(alloc);
    if let Json::Object(members) = json {
        for (key, member) in members.iter() {
            match prop(alloc, key.as_str(), member) {
                Ok((name, property)) => props.put(name, property)?,
                Err(fault) => return Err(fault.in_member(alloc, key.as_str())),
            }
        }
    }
    Ok(props)
}

fn prop(alloc: Global, key: &str, member: &Json) -> Result<(Name, Property), Fault>
    ensures { Answers (entry_of property_read key.now (view member.now)) result }
{
    let name = name(alloc, key)?;
    let property = property(alloc, member)?;
    Ok((name, property))
}

// The variables of a query.
pub fn variables(alloc: Global, json: &Json) -> Result<Keyed<Name, Value>, Fault>
    ensures { Answers (variables_of (view json.now)) result }
{
    let mut variables = Keyed::new(alloc);
    if let Json::Object(members) = json {
        for (key, member) in members.iter() {
            match variable(alloc, key.as_str(), member) {
                Ok((name, value)) => variables.put(name, value)?,
                Err(fault) => return Err(fault.in_member(alloc, key.as_str())),
            }
        }
    }
    Ok(variables)
}

fn variable(alloc: Global, key: &str, member: &Json) -> Result<(Name, Value), Fault>
    ensures { Answers (entry_of value_of key.now (view member.now)) result }
{
    let name = name(alloc, key)?;
    let value = value(alloc, member)?;
    Ok((name, value))
}

fn type_name(alloc: Global, json: &Json) -> Result<Option<Name>, Fault>
    ensures { Answers (type_of (view json.now)) result }
{
    some_name(alloc, text_in(json))
}

pub fn some_name(alloc: Global, text: &str) -> Result<Option<Name>, Fault>
    ensures { Answers (some_name_of text.now) result }
{
    let name = name(alloc, text)?;
    Ok(Some(name))
}

fn type_in(alloc: Global, json: &Json) -> Result<Option<Name>, Fault>
    ensures { Answers (optional_of (codes "type") None type_of (get (codes "type") (view json.now))) result }
{
    match json.get("type") {
        None => Ok(None),
        Some(field) => match type_name(alloc, field) {
            Ok(name) => Ok(name),
            Err(fault) => Err(fault.in_member(alloc, "type")),
        },
    }
}

fn mixins_in(alloc: Global, json: &Json) -> Result<List<Name>, Fault>
    ensures { Answers (optional_of (codes "mixins") [] mixins_of (get (codes "mixins") (view json.now))) result }
{
    match json.get("mixins") {
        None => Ok(List::new(alloc)),
        Some(field) => match mixins(alloc, field) {
            Ok(names) => Ok(names),
            Err(fault) => Err(fault.in_member(alloc, "mixins")),
        },
    }
}

fn props_in(alloc: Global, json: &Json) -> Result<Keyed<Name, Property>, Fault>
    ensures { Answers (optional_of (codes "props") [] properties_read (get (codes "props") (view json.now))) result }
{
    match json.get("props") {
        None => Ok(Keyed::new(alloc)),
        Some(field) => match props(alloc, field) {
            Ok(props) => Ok(props),
            Err(fault) => Err(fault.in_member(alloc, "props")),
        },
    }
}

// A node alone.
fn node(alloc: Global, path: Path, json: &Json) -> Result<TreeNode, Fault>
    ensures { Answers (node_of path (view json.now)) result }
{
    let node_type = type_in(alloc, json)?;
    let mixins = mixins_in(alloc, json)?;
    let props = props_in(alloc, json)?;
    Ok(TreeNode {
        path,
        node_type,
        mixins,
        props,
    })
}

// Puts the node and all below behind the nodes so far, in path order.
#[cycle(tree)]
pub fn tree(
    alloc: Global,
    path: &Path,
    json: &Json,
    nodes: &mut List<TreeNode>,
) -> Result<(), Fault>
    ensures { AnswersOnto (tree_of path.now (view json.now)) nodes.old nodes.new result }
{
    if !json.is_object() {
        return Ok(());
    }
    let node = node(alloc, path.copy()?, json)?;
    nodes.push(node)?;
    below(alloc, path, json, nodes)
}

// The same of the nodes below one.
#[cycle(tree)]
fn below(alloc: Global, path: &Path, json: &Json, nodes: &mut List<TreeNode>) -> Result<(), Fault>
    ensures { AnswersOnto (nodes_of path.now (members_in (view json.now))) nodes.old nodes.new result }
{
    let Json::Object(fields) = json else {
        return Ok(());
    };
    for (key, field) in fields.iter() {
        if key.as_str() == "nodes" {
            return match children(alloc, path, field, nodes) {
                Ok(()) => Ok(()),
                Err(fault) => Err(fault.in_member(alloc, key.as_str())),
            };
        }
    }
    Ok(())
}

#[cycle(tree)]
fn children(
    alloc: Global,
    path: &Path,
    json: &Json,
    nodes: &mut List<TreeNode>,
) -> Result<(), Fault>
    ensures { AnswersOnto (below_of path.now (view json.now)) nodes.old nodes.new result }
{
    match json {
        Json::Object(members) => {
            for (key, member) in members.iter() {
                match child(alloc, path, key.as_str(), member, nodes) {
                    Ok(()) => {}
                    Err(fault) => return Err(fault.in_member(alloc, key.as_str())),
                }
            }
            Ok(())
        }
        _ => Ok(()),
    }
}

#[cycle(tree)]
fn child(
    alloc: Global,
    path: &Path,
    key: &str,
    json: &Json,
    nodes: &mut List<TreeNode>,
) -> Result<(), Fault>
    ensures { AnswersOnto (child_of path.now key.now (view json.now)) nodes.old nodes.new result }
{
    let name = name(alloc, key)?;
    tree(alloc, &path.child(&name)?, json, nodes)
}

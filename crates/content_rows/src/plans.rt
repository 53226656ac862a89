// Plans of edits.
use crate::locks::words_of;
use crate::shows::{put_child, put_refusal};
use crate::trees::add_nodes;
use crate::types::register;
use jcr_plan::{Assured, Plan, plan_of, plan_of_change};
use jcr_ref::dangling;
use jr_edited::Edited;
use jr_path::{DeepCopy, List, Path};
use jr_tree::{Edit, Refusal, Tree};
use jr_types::Registry;
use oak_clash::{Mark, MarkAt};
use rows::{Out, cut, edit_of, json_of};
use serde_json::Value as Json;
use std::alloc::{AllocError, Global};

// DEFINITIONS EDIT TOKENS: the marks of the plan, or its refusal. The tree has the initial nodes
// too, and a node for which no type is given is an nt:unstructured. `plan` asks both calls, the
// second one assured that the types are met, and that no reference dangles where that is so;
// `whole_plan` asks the first alone; `change_plan` the second alone, assured of both though it may
// not be so.
pub(crate) fn add(types: &mut Registry, word: &str, asked: &str, given: &str, out: &mut Out) {
    let (definitions, asked) = cut(asked);
    if register(types, definitions, out) {
        add_plan(types, word, asked, given, out);
    }
}

fn add_plan(types: &Registry, word: &str, asked: &str, given: &str, out: &mut Out) {
    let mut tree = initial(out);
    add_nodes(&mut tree, true, given, out);
    add_edit(types, &tree, word, cut(asked), out);
}

fn initial(out: &mut Out) -> Tree {
    match Tree::initial(out.alloc) {
        Ok(tree) => tree,
        Err(_) => {
            out.is_broken = true;
            Tree::new(out.alloc)
        }
    }
}

fn add_edit(types: &Registry, tree: &Tree, word: &str, asked: (&str, &str), out: &mut Out) {
    let edit = edit_in(asked.0, tree, out);
    let tokens = words_of(asked.1, out);
    put_asked(word, types, tree, &edit, tokens.as_slice(), out);
}

fn edit_in(text: &str, tree: &Tree, out: &mut Out) -> Edit {
    let json = json_of(text, out);
    let edit = edit_read(&json, tree, out);
    drop(json);
    match edit {
        Some(edit) => edit,
        None => no_edit(out),
    }
}

fn edit_read(json: &Option<Json>, tree: &Tree, out: &mut Out) -> Option<Edit> {
    match json {
        Some(json) => edit_of(json, tree, out),
        None => None,
    }
}

fn no_edit(out: &mut Out) -> Edit {
    out.is_broken = true;
    Edit {
        writes: List::new(out.alloc),
    }
}

fn put_asked(
    word: &str,
    types: &Registry,
    tree: &Tree,
    edit: &Edit,
    tokens: &[String],
    out: &mut Out,
) {
    match word {
        "whole_plan" => put_plan(whole_plan(types, tree, edit, tokens, out.alloc), out),
        "change_plan" => put_plan(change_plan(types, tree, edit, tokens, true, out.alloc), out),
        _ => put_both(types, tree, edit, tokens, out),
    }
}

fn whole_plan(
    types: &Registry,
    tree: &Tree,
    edit: &Edit,
    tokens: &[String],
    alloc: Global,
) -> Result<Result<Plan, Refusal>, AllocError> {
    let edit = edit.copy()?;
    Ok(plan_of(alloc, types, tree, edit, tokens))
}

fn change_plan(
    types: &Registry,
    tree: &Tree,
    edit: &Edit,
    tokens: &[String],
    referring: bool,
    alloc: Global,
) -> Result<Result<Plan, Refusal>, AllocError> {
    let edit = edit.copy()?;
    let after = Edited::of(alloc, tree, &edit)?;
    let assured = Assured {
        typed: true,
        referring,
    };
    Ok(plan_of_change(alloc, types, tree, &after, edit, tokens, assured))
}

// The answer of both calls, which is the same.
fn put_both(types: &Registry, tree: &Tree, edit: &Edit, tokens: &[String], out: &mut Out) {
    let referring = is_referring(tree, out.alloc);
    let mut other = Out::new(out.alloc);
    let changed = change_plan(types, tree, edit, tokens, referring, out.alloc);
    put_plan(changed, &mut other);
    let begin = out.text.len();
    put_plan(whole_plan(types, tree, edit, tokens, out.alloc), out);
    put_unless_same(begin, other.text.as_str(), out);
}

fn is_referring(tree: &Tree, alloc: Global) -> bool {
    let found = dangling(alloc, tree);
    let is_referring = matches!(&found, Ok(None));
    drop(found);
    is_referring
}

fn put_unless_same(begin: usize, other: &str, out: &mut Out) {
    if out.text.as_str().get(begin..) == Some(other) {
        return;
    }
    out.put(" but of the change alone: ");
    out.put(other);
}

fn put_plan(plan: Result<Result<Plan, Refusal>, AllocError>, out: &mut Out) {
    match &plan {
        Ok(Ok(plan)) => put_marks(plan.marks.as_slice(), out),
        Ok(Err(refusal)) => put_refusal(refusal, out),
        Err(_) => out.is_broken = true,
    }
    drop(plan);
}

fn put_marks(marks: &[MarkAt], out: &mut Out) {
    out.put("plan");
    for mark in marks {
        put_mark(mark, out);
    }
}

fn put_mark(mark: &MarkAt, out: &mut Out) {
    match &mark.mark {
        Mark::Exists => put_at(" exists:", &mark.path, out),
        Mark::Guard => put_at(" guard:", &mark.path, out),
        Mark::Touch => put_at(" touch:", &mark.path, out),
        Mark::Prop(name) => {
            out.put(" prop:");
            put_child(&mark.path, name, out);
        }
    }
}

fn put_at(word: &str, path: &Path, out: &mut Out) {
    out.put(word);
    out.put_path(path);
}

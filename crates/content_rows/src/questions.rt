// What comes of each line.
use crate::{definitions, events, locks, plans, references, trees, types, versions, view};
use jr_builtin::builtin;
use jr_path::Path;
use jr_tree::Tree;
use jr_types::Registry;
use rows::{Out, cut};
use std::alloc::AllocError;

/// Puts out what comes of a line. Lines leave nothing to those behind them.
pub fn add(line: &str, out: &mut Out) {
    let (question, given) = line.split_once(" | ").unwrap_or((line, "{}"));
    let (word, asked) = cut(question);
    add_line(word, asked, given, out);
}

fn add_line(word: &str, asked: &str, given: &str, out: &mut Out) {
    match word {
        "events" => events::add(asked, given, out),
        "definitions" => definitions::add(given, out),
        "identifier"
        | "by_id"
        | "referrers"
        | "dangling"
        | "locked_by"
        | "lock_edit"
        | "unlock_edit"
        | "frozen_by"
        | "history"
        | "version_names" => { add_of_tree(word, asked, given, out) }
        _ => add_of_types(word, asked, given, out),
    }
}

// WORD PATH ARGUMENTS, of a tree
fn add_of_tree(word: &str, asked: &str, given: &str, out: &mut Out) {
    let tree = trees::tree_of(given, out);
    match word {
        "identifier" | "by_id" | "referrers" | "dangling" => {
            references::add(&tree, word, asked, out)
        }
        _ => add_of_path(&tree, word, asked, out),
    }
}

fn add_of_path(tree: &Tree, word: &str, asked: &str, out: &mut Out) {
    let (path, rest) = cut(asked);
    let path = out.path_or_root(path);
    add_at(tree, word, &path, rest, out);
}

fn add_at(tree: &Tree, word: &str, path: &Path, rest: &str, out: &mut Out) {
    match word {
        "history" => references::add_history(tree, path, rest, out),
        "version_names" => references::add_names(tree, path, out),
        _ => locks::add(tree, word, path, rest, out),
    }
}

// The built-in types are there.
fn add_of_types(word: &str, asked: &str, given: &str, out: &mut Out) {
    let mut types = builtin(out.alloc);
    add_over(&mut types, word, asked, given, out);
    drop(types);
}

fn add_over(
    types: &mut Result<Registry, AllocError>,
    word: &str,
    asked: &str,
    given: &str,
    out: &mut Out,
) {
    match types {
        Ok(types) => add_with(types, word, asked, given, out),
        Err(_) => out.is_broken = true,
    }
}

fn add_with(types: &mut Registry, word: &str, asked: &str, given: &str, out: &mut Out) {
    match word {
        "printed" => definitions::add_printed(types, asked, out),
        "versions" => versions::add(types, asked, given, out),
        "view" => view::add(types, asked, given, out),
        "plan" | "whole_plan" | "change_plan" => plans::add(types, word, asked, given, out),
        _ => types::add(types, word, asked, given, out),
    }
}

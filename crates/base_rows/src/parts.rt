// Parts of a tree.
use crate::trees::Kept;
use jr_part::{Need, Part};
use jr_path::{DeepCopy, List, Name, Path};
use jr_rev::Revision;
use jr_tree::{Edit, Node, Tree};
use rows::{Out, cut};
use std::alloc::AllocError;

// Whether there is such a row.
pub(crate) fn add(word: &str, rest: &str, kept: &mut Kept, out: &mut Out) -> bool {
    match word {
        "known" => add_known(rest, &kept.tree, &mut kept.part, out),
        "listed" => add_listed(rest, &mut kept.part, out),
        "lacks" => add_lacks(rest, &kept.part, out),
        "part" => add_part(rest, &kept.part, out),
        "whole" => add_whole(&kept.part, out),
        "follow" => add_follow(&kept.edit, &mut kept.part, out),
        _ => return false,
    }
    true
}

// PATH: what the tree has there is put.
fn add_known(rest: &str, tree: &Tree, part: &mut Part, out: &mut Out) {
    let path = out.path_or_root(rest);
    out.note(put_known(&path, tree, part));
}

fn put_known(path: &Path, tree: &Tree, part: &mut Part) -> Result<(), AllocError> {
    match tree.get(path) {
        Some(node) => part.put_node(path, Some(node.copy()?)),
        None => part.put_node(path, None),
    }
}

// PATH NAME: the one child of that name is listed, or none without a name.
fn add_listed(rest: &str, part: &mut Part, out: &mut Out) {
    let (path, name) = cut(rest);
    let path = out.path_or_root(path);
    let name = out.name(name);
    put_listed(&path, name, part, out);
}

fn put_listed(path: &Path, name: Option<Name>, part: &mut Part, out: &mut Out) {
    let mut names: List<(Name, Option<Revision>)> = List::new(out.alloc);
    if let Some(name) = name {
        let put = names.push((name, None));
        out.note(put);
    }
    out.note(part.put_children(path, names));
}

// KIND PATH: what lacks first.
fn add_lacks(rest: &str, part: &Part, out: &mut Out) {
    let (kind, path) = cut(rest);
    let need = need_of(kind, out.path_or_root(path));
    let copy = need.copy();
    put_copy(&copy, part, out);
    drop(need);
    drop(copy);
}

fn put_copy(need: &Result<Need, AllocError>, part: &Part, out: &mut Out) {
    match need {
        Ok(need) => put_lacking(part.lacks(need), out),
        Err(_) => out.is_broken = true,
    }
}

fn need_of(kind: &str, path: Path) -> Need {
    match kind {
        "node" => Need::Node(path),
        "children" => Need::Children(path),
        "subtree" => Need::Subtree(path),
        _ => Need::All,
    }
}

fn put_lacking(lacking: Result<Option<Need>, AllocError>, out: &mut Out) {
    match &lacking {
        Ok(Some(need)) => put_need(need, out),
        Ok(None) => out.put("nothing"),
        Err(_) => out.is_broken = true,
    }
    drop(lacking);
}

fn put_need(need: &Need, out: &mut Out) {
    match need {
        Need::Node(path) => put_path("node ", path, out),
        Need::Children(path) => put_path("children ", path, out),
        Need::Subtree(path) => put_path("subtree ", path, out),
        Need::All => out.put("all"),
    }
}

fn put_path(kind: &str, path: &Path, out: &mut Out) {
    out.put(kind);
    out.put_path(path);
}

// PATH: how many properties the node has, and the names of its children.
fn add_part(rest: &str, part: &Part, out: &mut Out) {
    let path = out.path_or_root(rest);
    put_size(part.node(&path), out);
    put_children(part.children(&path), out);
}

fn put_size(node: Option<Option<&Node>>, out: &mut Out) {
    match node {
        Some(Some(node)) => out.put_number(node.props.len() as u64),
        Some(None) => out.put("absent"),
        None => out.put("unknown"),
    }
}

fn put_children(names: Option<&[(Name, Option<Revision>)]>, out: &mut Out) {
    match names {
        Some(names) => put_names(names, out),
        None => out.put(" unlisted"),
    }
}

fn put_names(names: &[(Name, Option<Revision>)], out: &mut Out) {
    for (name, _) in names {
        out.put(" ");
        out.put(name.as_str());
    }
}

// How many nodes the whole tree has, once nothing lacks.
fn add_whole(part: &Part, out: &mut Out) {
    let lacking = part.lacks(&Need::All);
    match &lacking {
        Ok(None) => out.put_number(part.whole().len() as u64),
        Ok(Some(_)) => out.put("lacking"),
        Err(_) => out.is_broken = true,
    }
    drop(lacking);
}

// The writes that are not applied yet are made of the part, once nothing lacks.
fn add_follow(edit: &Edit, part: &mut Part, out: &mut Out) {
    let lacking = part.lacks(&Need::All);
    match &lacking {
        Ok(None) => out.note(part.apply(edit, None)),
        Ok(Some(_)) => out.put("lacking"),
        Err(_) => out.is_broken = true,
    }
    drop(lacking);
}

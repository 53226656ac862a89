// Identifiers, references, and the histories of versions.
use crate::shows::{put_found, put_item, put_names, put_writes};
use jcr_ref::{
    HistoryWrites, by_id, dangling, history_writes, identifier, referrers, version_names,
};
use jr_path::{Item, Path};
use jr_rev::RevVec;
use jr_tree::{Tree, Who};
use rows::{Out, cut, short};
use std::alloc::AllocError;

// `identifier` SESSION COUNT, `by_id` TEXT, `referrers` TEXT, `dangling`
pub(crate) fn add(tree: &Tree, word: &str, asked: &str, out: &mut Out) {
    let (first, rest) = cut(asked);
    match word {
        "identifier" => out.put_made(identifier(out.alloc, short(first), short(rest))),
        "by_id" => put_found(by_id(out.alloc, tree, first), out),
        "referrers" => put_items(referrers(out.alloc, tree, first), out),
        _ => put_dangling(dangling(out.alloc, tree), out),
    }
}

fn put_dangling(found: Result<Option<Item>, AllocError>, out: &mut Out) {
    match &found {
        Ok(Some(item)) => put_item(item, out),
        Ok(None) => out.put("none"),
        Err(_) => out.is_broken = true,
    }
    drop(found);
}

fn put_items(items: Result<Vec<Item>, AllocError>, out: &mut Out) {
    match items {
        Ok(items) => put_all(items.as_slice(), out),
        Err(_) => out.is_broken = true,
    }
}

fn put_all(items: &[Item], out: &mut Out) {
    if items.is_empty() {
        out.put("nothing");
    }
    let mut between = "";
    for item in items {
        out.put(between);
        put_item(item, out);
        between = " ";
    }
}

// PATH SESSION EARLIER IDS: what the node writes for its history.
pub(crate) fn add_history(tree: &Tree, path: &Path, rest: &str, out: &mut Out) {
    match history_writes(out.alloc, tree, path, &who_of(rest)) {
        Ok(Some(history)) => put_history(&history, out),
        Ok(None) => out.put("no name"),
        Err(_) => out.is_broken = true,
    }
}

fn who_of(text: &str) -> Who {
    let (session, rest) = cut(text);
    let (earlier, ids) = cut(rest);
    Who {
        session: short(session),
        earlier: short(earlier),
        ids: short(ids),
        base: RevVec::start(1),
    }
}

fn put_history(history: &HistoryWrites, out: &mut Out) {
    out.put_numbered("draws ", u64::from(history.drawn));
    out.put(": ");
    put_writes(history.writes.as_slice(), out);
}

pub(crate) fn add_names(tree: &Tree, path: &Path, out: &mut Out) {
    put_names(version_names(out.alloc, tree, path), out);
}

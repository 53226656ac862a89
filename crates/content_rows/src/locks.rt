// Locks and checked-in nodes.
use crate::shows::{put_edit, put_found};
use jcr_lock::{frozen_by, lock_edit, locked_by, unlock_edit};
use jr_edited::Edited;
use jr_path::{List, Path};
use jr_tree::Tree;
use rows::{Out, cut};

// `locked_by` PATH TOKENS, `lock_edit` PATH `deep` TOKEN (another word for a shallow one),
// `unlock_edit` PATH TOKENS, `frozen_by` PATH
pub(crate) fn add(tree: &Tree, word: &str, path: &Path, rest: &str, out: &mut Out) {
    match word {
        "lock_edit" => add_lock(tree, path, cut(rest), out),
        "unlock_edit" => add_unlock(tree, path, rest, out),
        "locked_by" => add_locked(tree, path, rest, out),
        _ => add_frozen(tree, path, out),
    }
}

fn add_lock(tree: &Tree, path: &Path, asked: (&str, &str), out: &mut Out) {
    let edit = lock_edit(out.alloc, tree, path, asked.0 == "deep", asked.1);
    put_edit(edit, out);
}

fn add_unlock(tree: &Tree, path: &Path, tokens: &str, out: &mut Out) {
    let tokens = words_of(tokens, out);
    put_edit(unlock_edit(out.alloc, tree, path, tokens.as_slice()), out);
}

fn add_locked(tree: &Tree, path: &Path, tokens: &str, out: &mut Out) {
    let tokens = words_of(tokens, out);
    let edited = Edited::unchanged(out.alloc, tree);
    put_found(locked_by(out.alloc, &edited, path, tokens.as_slice()), out);
}

fn add_frozen(tree: &Tree, path: &Path, out: &mut Out) {
    let edited = Edited::unchanged(out.alloc, tree);
    put_found(frozen_by(out.alloc, &edited, path), out);
}

pub(crate) fn words_of(text: &str, out: &mut Out) -> List<String> {
    let mut words = List::new(out.alloc);
    for word in text.split_whitespace() {
        out.push(&mut words, String::from_str(out.alloc, word));
    }
    words
}

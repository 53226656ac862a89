// Vectors of revisions, and paths, compared.
use crate::texts::push_times;
use jr_path::{DeepCopy, Item, Keyed, List, Name, Path, PathFault, PathText, Text};
use jr_rev::RevVec;
use rows::{Out, cut, revision, vector};
use std::alloc::AllocError;

// Whether there is such a row.
pub(crate) fn add(word: &str, rest: &str, out: &mut Out) -> bool {
    match word {
        "start" => out.put_vector(&RevVec::start(2)),
        "parts" => add_parts(rest, out),
        "deep" => add_deep(out),
        "copies" => add_copies(out),
        _ => return add_compared(word, cut(rest), out),
    }
    true
}

fn add_compared(word: &str, texts: (&str, &str), out: &mut Out) -> bool {
    let first = vector(texts.0);
    match word {
        "sees" => out.put_answer(first.sees(revision(texts.1))),
        "below" => out.put_answer(first.is_below(&vector(texts.1))),
        "least" => out.put_vector(&first.min_with(&vector(texts.1))),
        "greatest" => out.put_vector(&first.max_with(&vector(texts.1))),
        _ => return false,
    }
    true
}

// PATH NAME: whether the path with the name below it has them as its parts.
fn add_parts(rest: &str, out: &mut Out) {
    let (path, name) = cut(rest);
    let path = out.path_or_root(path);
    let name = out.name(name);
    let answer = are_parts(&Item { path, name });
    out.put_answer(answer);
}

fn are_parts(item: &Item) -> bool {
    match &item.name {
        Some(name) => is_below(&item.path, name) && is_item_copied(item),
        None => false,
    }
}

fn is_below(path: &Path, name: &Name) -> bool {
    match path.child(name) {
        Ok(child) => is_child(path, &child),
        Err(_) => false,
    }
}

fn is_child(path: &Path, child: &Path) -> bool {
    child.is_under(path) && !path.is_under(child) && is_parent(path, child)
}

fn is_parent(path: &Path, child: &Path) -> bool {
    is_prefix(path, child) && is_path(&child.parent(), path)
}

fn is_prefix(path: &Path, child: &Path) -> bool {
    match child.prefix(child.depth().saturating_sub(1)) {
        Ok(prefix) => prefix == *path,
        Err(_) => false,
    }
}

fn is_path(found: &Result<Option<Path>, AllocError>, path: &Path) -> bool {
    match found {
        Ok(Some(found)) => found == path,
        _ => false,
    }
}

fn is_item_copied(item: &Item) -> bool {
    match item.copy() {
        Ok(copy) => copy == *item,
        Err(_) => false,
    }
}

// Whether a text of 65 names is read as too deep.
fn add_deep(out: &mut Out) {
    let mut text = String::new(out.alloc);
    push_times(&mut text, 65, "/a", out);
    let read = PathText::read(out.alloc, text.as_str());
    out.put_answer(is_deep(&read));
    drop(read);
}

fn is_deep(read: &Result<PathText, PathFault>) -> bool {
    match read {
        Ok(text) => is_too_deep(text),
        Err(_) => false,
    }
}

fn is_too_deep(text: &PathText) -> bool {
    let copy = text.copy();
    let is_too_deep = matches!(&copy, Ok(PathText::TooDeep(65)));
    drop(copy);
    is_too_deep
}

fn add_copies(out: &mut Out) {
    let list = listed(out);
    let map = mapped(out);
    out.put_answer(is_list_copied(&list) && is_map_copied(&map));
}

fn listed(out: &mut Out) -> List<(u8, u32, Text)> {
    let mut text = Text::new(out.alloc);
    let put = text.push_str("ab");
    out.note(put);
    let mut list = List::new(out.alloc);
    let put = list.push((1, 2, text));
    out.note(put);
    list
}

fn is_list_copied(list: &List<(u8, u32, Text)>) -> bool {
    match list.copy() {
        Ok(copy) => is_first(copy.as_slice()),
        Err(_) => false,
    }
}

fn is_first(items: &[(u8, u32, Text)]) -> bool {
    match items {
        [(_, _, text)] => text.as_str() == "ab",
        _ => false,
    }
}

fn mapped(out: &mut Out) -> Keyed<u64, Option<bool>> {
    let mut map = Keyed::new(out.alloc);
    let put = map.put(3, None);
    out.note(put);
    let put = map.put(1, Some(true));
    out.note(put);
    map.remove(&3);
    map
}

fn is_map_copied(map: &Keyed<u64, Option<bool>>) -> bool {
    match map.copy() {
        Ok(copy) => copy.get(&1) == Some(&Some(true)) && copy.len() == 1,
        Err(_) => false,
    }
}

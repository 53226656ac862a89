// Trees and edits.
use jr_part::Part;
use jr_path::{DeepCopy, List, Name, Path};
use jr_tree::{Datum, Edit, Refusal, Tree, Write, changes};
use jr_value::{Property, Value};
use rows::{Out, cut};
use std::alloc::{AllocError, Global};

// What lines before have left: a tree, the writes that are not applied yet, and a part of a tree.
#[derive(Drop)]
pub(crate) struct Kept {
    pub(crate) tree: Tree,
    pub(crate) edit: Edit,
    pub(crate) part: Part,
}

impl Kept {
    pub(crate) fn new(alloc: Global) -> Result<Kept, AllocError> {
        let tree = Tree::initial(alloc)?;
        Ok(Kept {
            tree,
            edit: no_edit(alloc),
            part: Part::new(alloc),
        })
    }
}

fn no_edit(alloc: Global) -> Edit {
    Edit {
        writes: List::new(alloc),
    }
}

// Whether there is such a row.
pub(crate) fn add(word: &str, rest: &str, kept: &mut Kept, out: &mut Out) -> bool {
    match word {
        "here" | "gone" | "put" | "unset" => add_write(word, rest, &mut kept.edit, out),
        "apply" => apply(kept, out),
        "changes" => add_changes(&kept.tree, false, out),
        "undoing" => add_changes(&kept.tree, true, out),
        "node" => add_node(rest, &kept.tree, out),
        "refusal" => add_refusal(out),
        _ => return false,
    }
    true
}

// PATH of the node, or PATH NUMBER of its property p.
fn add_write(word: &str, rest: &str, edit: &mut Edit, out: &mut Out) {
    let (path, number) = cut(rest);
    let path = out.path_or_root(path);
    match out.name("p") {
        Some(name) => out.note(edit.writes.push(write_of(word, path, name, number))),
        None => out.is_broken = true,
    }
}

fn write_of(word: &str, path: Path, name: Name, number: &str) -> Write {
    match word {
        "here" => Write::Here(path),
        "gone" => Write::Gone(path),
        "unset" => Write::Unset(path, name),
        _ => Write::Put(path, name, long(number.parse().unwrap_or(0))),
    }
}

fn long(number: i64) -> Property {
    Property::Single(Value::Long(number))
}

// A copy of the tree takes a copy of the writes.
fn apply(kept: &mut Kept, out: &mut Out) {
    match kept.tree.copy() {
        Ok(tree) => kept.tree = tree,
        Err(_) => out.is_broken = true,
    }
    match kept.edit.copy() {
        Ok(edit) => out.note(kept.tree.apply(&edit, None)),
        Err(_) => out.is_broken = true,
    }
    kept.edit = no_edit(out.alloc);
}

// The changes from the initial tree, or back to it.
fn add_changes(tree: &Tree, is_back: bool, out: &mut Out) {
    match Tree::initial(out.alloc) {
        Ok(initial) => put_between(&initial, tree, is_back, out),
        Err(_) => out.is_broken = true,
    }
}

fn put_between(initial: &Tree, tree: &Tree, is_back: bool, out: &mut Out) {
    if is_back {
        put_changes(changes(tree, initial), out);
    } else {
        put_changes(changes(initial, tree), out);
    }
}

fn put_changes(edit: Result<Edit, AllocError>, out: &mut Out) {
    match edit {
        Ok(edit) => put_edit(&edit, out),
        Err(_) => out.is_broken = true,
    }
}

// Each write as a letter and its path.
fn put_edit(edit: &Edit, out: &mut Out) {
    for write in edit.writes.inner() {
        out.put(letter(write));
        out.put_path(write.path());
        out.put(" ");
    }
}

fn letter(write: &Write) -> &'static str {
    match write {
        Write::Here(_) => "h",
        Write::Gone(_) => "g",
        Write::Put(..) => "p",
        Write::Unset(..) => "u",
    }
}

// PATH: how many nodes there are at and below it, its children's names, and its property p.
fn add_node(path: &str, tree: &Tree, out: &mut Out) {
    let path = out.path_or_root(path);
    put_size(tree.subtree(&path), out);
    put_children(tree.children(&path), out);
    put_p(&path, tree, out);
}

fn put_size(below: Result<Tree, AllocError>, out: &mut Out) {
    match below {
        Ok(below) => out.put_number(below.len() as u64),
        Err(_) => out.is_broken = true,
    }
}

fn put_children(names: Result<Vec<Name>, AllocError>, out: &mut Out) {
    match names {
        Ok(names) => put_names(names.as_slice(), out),
        Err(_) => out.is_broken = true,
    }
}

fn put_names(names: &[Name], out: &mut Out) {
    for name in names {
        out.put(" ");
        out.put(name.as_str());
    }
}

fn put_p(path: &Path, tree: &Tree, out: &mut Out) {
    match out.name("p") {
        Some(name) => put_property(tree.property(path, &name), out),
        None => out.is_broken = true,
    }
}

fn put_property(property: Option<&Property>, out: &mut Out) {
    if let Some(property) = property {
        out.put(" = ");
        out.put_property(property);
    }
}

// Whether a refusal's copy names what it names.
fn add_refusal(out: &mut Out) {
    let mut parts = List::new(out.alloc);
    let put = parts.push(Datum::Number(7));
    out.note(put);
    let refusal = Refusal { number: 5, parts };
    out.put_answer(is_refusal(&refusal.copy()));
}

fn is_refusal(copy: &Result<Refusal, AllocError>) -> bool {
    match copy {
        Ok(copy) => is_seven(copy.parts.as_slice()),
        Err(_) => false,
    }
}

fn is_seven(parts: &[Datum]) -> bool {
    matches!(parts.first(), Some(Datum::Number(7)))
}

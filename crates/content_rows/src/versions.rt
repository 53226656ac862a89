// Versions: steps of a session on a tree, one behind another; what they answer is put with ` > `
// between.
use crate::json::{is_true_at, items, items_read, number_at};
use crate::shows::{put_names, put_refusal, put_word, put_writes};
use crate::trees::{insert, put_property, tree_of};
use crate::types::register_one;
use jcr_frozen::find_history;
use jcr_ref::{HistoryWrites, history_writes, version_names};
use jcr_restore::restore_edit;
use jcr_version::{checked_in_version, checkin_edit, checkout_edit, label_edit, unlabel_edit};
use jr_path::{DeepCopy, List, Name, Path};
use jr_rev::RevVec;
use jr_tree::{Edit, Node, Refusal, Tree, Who, Write};
use jr_types::Registry;
use jr_value::Property;
use rows::{Out, json_of, text_at, vector};
use serde_json::Value as Json;
use std::alloc::{AllocError, Global};

// What the steps work on: the tree, who runs the steps, the last edit, and whether a step has told
// its answer.
#[derive(Drop)]
struct Site {
    tree: Tree,
    who: Who,
    last: Edit,
    told: bool,
}

// STEPS: a list of lists, of which each begins with a word
pub(crate) fn add(types: &mut Registry, steps: &str, given: &str, out: &mut Out) {
    let mut site = site_on(tree_of(given, out), out.alloc);
    let steps = json_of(steps, out);
    add_steps(&mut site, types, items_read(&steps), out);
    drop(steps);
    drop(site);
}

fn site_on(tree: Tree, alloc: Global) -> Site {
    Site {
        tree,
        who: first_who(),
        last: Edit {
            writes: List::new(alloc),
        },
        told: false,
    }
}

fn first_who() -> Who {
    Who {
        session: 0,
        earlier: 0,
        ids: 0,
        base: RevVec::start(1),
    }
}

fn add_steps(site: &mut Site, types: &mut Registry, steps: &[Json], out: &mut Out) {
    for step in steps {
        add_step(site, types, items(step), out);
    }
}

fn add_step(site: &mut Site, types: &mut Registry, step: &[Json], out: &mut Out) {
    match text_at(step, 0) {
        "type" => add_type(types, step.get(1), out),
        "ids" => site.who.ids = number_at(step, 1),
        "who" => set_who(&mut site.who, number_at(step, 1), number_at(step, 2)),
        "drawn" => tell_drawn(site, out),
        "writes" => tell_writes(site, out),
        "base" => site.who.base = vector(text_at(step, 1)),
        word => add_at(site, types, word, step, out),
    }
}

pub(crate) fn add_type(types: &mut Registry, definition: Option<&Json>, out: &mut Out) {
    match definition {
        Some(definition) => {
            register_one(types, definition, out);
        }
        None => out.is_broken = true,
    }
}

fn set_who(who: &mut Who, session: u32, earlier: u32) {
    who.session = session;
    who.earlier = earlier;
}

fn tell_drawn(site: &mut Site, out: &mut Out) {
    tell_behind(&mut site.told, out);
    out.put_number(u64::from(site.who.ids));
}

fn tell_writes(site: &mut Site, out: &mut Out) {
    tell_behind(&mut site.told, out);
    put_writes(site.last.writes.as_slice(), out);
}

fn add_at(site: &mut Site, types: &Registry, word: &str, step: &[Json], out: &mut Out) {
    match Path::parse_unlimited(out.alloc, text_at(step, 1)) {
        Ok(path) => add_of(site, types, word, &path, step, out),
        Err(_) => out.is_broken = true,
    }
}

fn add_of(
    site: &mut Site,
    types: &Registry,
    word: &str,
    path: &Path,
    step: &[Json],
    out: &mut Out,
) {
    match word {
        "add" => add_node(&mut site.tree, path, text_at(step, 2), out),
        "set" => set(&mut site.tree, path, step, out),
        "unset" => unset(&mut site.tree, path, text_at(step, 2), out),
        "remove" => remove(&mut site.tree, path, out),
        "begin" => begin(site, path, out),
        _ => tell(site, types, word, path, step, out),
    }
}

pub(crate) fn tell_behind(told: &mut bool, out: &mut Out) {
    if *told {
        out.put(" > ");
    }
    *told = true;
}

// A node without properties where no type is named.
fn add_node(tree: &mut Tree, path: &Path, kind: &str, out: &mut Out) {
    match out.name(kind) {
        Some(kind) => insert(tree, path, Node::of_type(out.alloc, kind), out),
        None => insert(tree, path, Ok(Node::new(out.alloc)), out),
    }
}

fn set(tree: &mut Tree, path: &Path, step: &[Json], out: &mut Out) {
    match step.get(3) {
        Some(value) => put_property(tree, path, text_at(step, 2), value, out),
        None => out.is_broken = true,
    }
}

fn unset(tree: &mut Tree, path: &Path, name: &str, out: &mut Out) {
    let mut writes = List::new(out.alloc);
    match out.name(name) {
        Some(name) => out.push(&mut writes, unset_of(path, name)),
        None => out.is_broken = true,
    }
    out.note(tree.apply(&Edit { writes }, None));
}

fn unset_of(path: &Path, name: Name) -> Result<Write, AllocError> {
    Ok(Write::Unset(path.copy()?, name))
}

fn remove(tree: &mut Tree, path: &Path, out: &mut Out) {
    let edit = removal(tree, path, out);
    out.note(tree.apply(&edit, None));
}

fn removal(tree: &Tree, path: &Path, out: &mut Out) -> Edit {
    let mut writes = List::new(out.alloc);
    match tree.under(path) {
        Ok(nodes) => push_gone(&mut writes, nodes.as_slice(), out),
        Err(_) => out.is_broken = true,
    }
    Edit { writes }
}

fn push_gone(writes: &mut List<Write>, nodes: &[(&Path, &Node)], out: &mut Out) {
    for (at, _) in nodes {
        out.push(writes, gone(at));
    }
}

fn gone(path: &Path) -> Result<Write, AllocError> {
    Ok(Write::Gone(path.copy()?))
}

// What the node writes for its history, once it has its identifier.
fn begin(site: &mut Site, path: &Path, out: &mut Out) {
    match history_writes(out.alloc, &site.tree, path, &site.who) {
        Ok(Some(history)) => out.note(begun(site, history)),
        Ok(None) => out.put("no name"),
        Err(_) => out.is_broken = true,
    }
}

fn begun(site: &mut Site, history: HistoryWrites) -> Result<(), AllocError> {
    site.who.ids = site.who.ids.wrapping_add(history.drawn);
    let writes = history.writes;
    site.tree.apply(&Edit { writes }, None)
}

fn tell(site: &mut Site, types: &Registry, word: &str, path: &Path, step: &[Json], out: &mut Out) {
    tell_behind(&mut site.told, out);
    match word {
        "checkin" => tell_checkin(site, types, path, out),
        "checkout" => tell_checkout(site, path, out),
        "label" => tell_label(site, path, step, out),
        "unlabel" => tell_unlabel(site, path, text_at(step, 2), out),
        "restore" => tell_restore(site, types, path, text_at(step, 2), out),
        _ => show_of(&site.tree, word, path, text_at(step, 2), out),
    }
}

// What the tree shows.
fn show_of(tree: &Tree, word: &str, path: &Path, name: &str, out: &mut Out) {
    match word {
        "versions" => tell_versions(tree, path, out),
        "get" => tell_property(tree, path, name, out),
        "list" => put_names(tree.children(path), out),
        "show" => show(tree, path, out),
        _ => out.is_broken = true,
    }
}

// A check-in that answers writes answers the version's name.
fn tell_checkin(site: &mut Site, types: &Registry, path: &Path, out: &mut Out) {
    let name = version_after(out.alloc, &site.tree, path);
    let edit = checkin_edit(out.alloc, types, &site.tree, path, &mut site.who);
    if edit.is_ok() {
        put_name(&name, out);
    }
    drop(name);
    finish(site, edit, out);
}

fn version_after(alloc: Global, tree: &Tree, path: &Path) -> Result<Option<Name>, AllocError> {
    match find_history(alloc, "checkin", tree, path) {
        Ok(history) => checked_in_version(alloc, tree, path, &history),
        Err(_) => Ok(None),
    }
}

fn put_name(name: &Result<Option<Name>, AllocError>, out: &mut Out) {
    match name {
        Ok(Some(name)) => out.put(name.as_str()),
        Ok(None) => out.put("none"),
        Err(_) => out.is_broken = true,
    }
}

fn finish(site: &mut Site, edit: Result<Edit, Refusal>, out: &mut Out) {
    match edit {
        Ok(edit) => apply(site, edit, out),
        Err(refusal) => put_refusal(&refusal, out),
    }
}

fn apply(site: &mut Site, edit: Edit, out: &mut Out) {
    let applied = site.tree.apply(&edit, None);
    out.note(applied);
    site.last = edit;
}

fn tell_checkout(site: &mut Site, path: &Path, out: &mut Out) {
    let edit = checkout_edit(out.alloc, &site.tree, path);
    tell_edit(site, edit, out);
}

fn tell_restore(site: &mut Site, types: &Registry, path: &Path, version: &str, out: &mut Out) {
    let edit = restore_edit(out.alloc, types, &site.tree, path, version);
    tell_edit(site, edit, out);
}

fn tell_edit(site: &mut Site, edit: Result<Edit, Refusal>, out: &mut Out) {
    put_done(&edit, out);
    finish(site, edit, out);
}

// `null` where nothing is written.
fn put_done(edit: &Result<Edit, Refusal>, out: &mut Out) {
    if let Ok(edit) = edit {
        let is_empty = edit.writes.as_slice().is_empty();
        out.put(if is_empty { "null" } else { "ok" });
    }
}

fn tell_label(site: &mut Site, path: &Path, step: &[Json], out: &mut Out) {
    match out.name(text_at(step, 3)) {
        Some(name) => set_label(
            site,
            path,
            text_at(step, 2),
            &name,
            is_true_at(step, 4),
            out,
        ),
        None => out.is_broken = true,
    }
}

fn set_label(site: &mut Site, path: &Path, version: &str, label: &Name, take: bool, out: &mut Out) {
    let edit = label_edit(out.alloc, &site.tree, path, version, label, take);
    tell_edit(site, edit, out);
}

fn tell_unlabel(site: &mut Site, path: &Path, label: &str, out: &mut Out) {
    match out.name(label) {
        Some(name) => {
            let edit = unlabel_edit(out.alloc, &site.tree, path, &name);
            tell_edit(site, edit, out);
        }
        None => out.is_broken = true,
    }
}

fn tell_versions(tree: &Tree, path: &Path, out: &mut Out) {
    match find_history(out.alloc, "versions", tree, path) {
        Ok(history) => put_names(version_names(out.alloc, tree, &history), out),
        Err(refusal) => put_refusal(&refusal, out),
    }
}

fn tell_property(tree: &Tree, path: &Path, name: &str, out: &mut Out) {
    match out.name(name) {
        Some(name) => put_found(tree.property(path, &name), out),
        None => out.is_broken = true,
    }
}

fn put_found(property: Option<&Property>, out: &mut Out) {
    match property {
        Some(property) => out.put_property(property),
        None => out.put("none"),
    }
}

// The nodes at and below a path with their properties.
fn show(tree: &Tree, path: &Path, out: &mut Out) {
    match tree.under(path) {
        Ok(nodes) => show_all(nodes.as_slice(), out),
        Err(_) => out.is_broken = true,
    }
}

fn show_all(nodes: &[(&Path, &Node)], out: &mut Out) {
    let mut between = "";
    for (at, node) in nodes {
        out.put(between);
        out.put_path(at);
        show_properties(node, out);
        between = "; ";
    }
}

fn show_properties(node: &Node, out: &mut Out) {
    for (name, property) in node.props.iter() {
        put_word(name.as_str(), out);
        out.put(" ");
        out.put_property(property);
    }
}

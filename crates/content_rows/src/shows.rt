// Paths, items, names, writes and refusals as texts.
use jcr_trans::refusal_text;
use jr_path::{Item, Name, Path};
use jr_tree::{Edit, Refusal, Write};
use rows::Out;
use std::alloc::AllocError;

// A path, or `none`.
pub(crate) fn put_found(found: Result<Option<Path>, AllocError>, out: &mut Out) {
    match found {
        Ok(Some(path)) => out.put_path(&path),
        Ok(None) => out.put("none"),
        Err(_) => out.is_broken = true,
    }
}

// The path of a property is that of its node, with its name behind it.
pub(crate) fn put_item(item: &Item, out: &mut Out) {
    match &item.name {
        Some(name) => put_child(&item.path, name, out),
        None => out.put_path(&item.path),
    }
}

pub(crate) fn put_child(path: &Path, name: &Name, out: &mut Out) {
    match path.child(name) {
        Ok(path) => out.put_path(&path),
        Err(_) => out.is_broken = true,
    }
}

pub(crate) fn put_names(names: Result<Vec<Name>, AllocError>, out: &mut Out) {
    match names {
        Ok(names) => put_all(names.as_slice(), out),
        Err(_) => out.is_broken = true,
    }
}

pub(crate) fn put_all(names: &[Name], out: &mut Out) {
    let mut between = "";
    for name in names {
        out.put(between);
        out.put(name.as_str());
        between = " ";
    }
}

// The writes, one behind another with a semicolon.
pub(crate) fn put_writes(writes: &[Write], out: &mut Out) {
    let mut between = "";
    for write in writes {
        out.put(between);
        put_write(write, out);
        between = "; ";
    }
}

fn put_write(write: &Write, out: &mut Out) {
    out.put(match write {
        Write::Here(_) => "here ",
        Write::Gone(_) => "gone ",
        Write::Put(_, _, _) => "put ",
        Write::Unset(_, _) => "unset ",
    });
    out.put_path(write.path());
    put_rest(write, out);
}

fn put_rest(write: &Write, out: &mut Out) {
    match write {
        Write::Put(_, name, property) => {
            put_word(name.as_str(), out);
            out.put(" ");
            out.put_property(property);
        }
        Write::Unset(_, name) => put_word(name.as_str(), out),
        _ => {}
    }
}

pub(crate) fn put_word(word: &str, out: &mut Out) {
    out.put(" ");
    out.put(word);
}

pub(crate) fn put_refusal(refusal: &Refusal, out: &mut Out) {
    let text = refusal_text(out.alloc, refusal);
    out.put_made(text);
}

// The writes of an edit, or its refusal.
pub(crate) fn put_edit(edit: Result<Edit, Refusal>, out: &mut Out) {
    match edit {
        Ok(edit) => put_writes(edit.writes.as_slice(), out),
        Err(refusal) => put_refusal(&refusal, out),
    }
}

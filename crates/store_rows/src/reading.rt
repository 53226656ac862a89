// Nodes and children over documents at rest, at once and one document at a time.
use crate::replies::answer;
use crate::tables::{at_time, put_count};
use jr_path::{List, Name, Path};
use jr_rev::{Pin, RevVec, Revision};
use jr_tree::Node;
use oak_doc::Ask;
use oak_read::{ReadOut, Reader, find_children, find_node};
use oak_store::DocTable;
use rows::{Out, cut};
use std::alloc::AllocError;
use std::mem;

// What the base sees up to a time; the sweep vector sees the start alone.
fn pin(time: &str) -> Pin {
    let sweep = RevVec::start(1);
    let mut base = sweep;
    base.set(at_time(time));
    Pin { base, sweep }
}

// TIME PATH: how many properties the node has, or none; and the same by a reader, with the replies
// that it took.
pub(crate) fn add_node(rest: &str, table: &mut DocTable, out: &mut Out) {
    let (time, text) = cut(rest);
    let path = out.path_or_root(text);
    put_node(&pin(time), &path, table, out);
    drop(path);
}

fn put_node(pin: &Pin, path: &Path, table: &mut DocTable, out: &mut Out) {
    match find_node(out.alloc, table.documents(), pin, path) {
        Ok(node) => put_size(node, out),
        Err(_) => out.is_broken = true,
    }
    read(Reader::node(out.alloc, path, pin), table, out);
}

fn put_size(node: Option<Node>, out: &mut Out) {
    match &node {
        Some(node) => put_count(node.props.len() as u64, out),
        None => out.put("none "),
    }
    drop(node);
}

// TIME PATH: how many children the node has, in the same way.
pub(crate) fn add_children(rest: &str, table: &mut DocTable, out: &mut Out) {
    let (time, text) = cut(rest);
    let path = out.path_or_root(text);
    put_children(&pin(time), &path, table, out);
    drop(path);
}

fn put_children(pin: &Pin, path: &Path, table: &mut DocTable, out: &mut Out) {
    match find_children(out.alloc, table.documents(), pin, path) {
        Ok(names) => put_names(List::of(names), out),
        Err(_) => out.is_broken = true,
    }
    read(Reader::children(out.alloc, path, pin), table, out);
}

fn put_names(names: List<(Name, Option<Revision>)>, out: &mut Out) {
    put_count(names.len() as u64, out);
    drop(names);
}

fn read(reader: Result<Reader, AllocError>, table: &mut DocTable, out: &mut Out) {
    match reader {
        Ok(reader) => read_on(reader, table, out),
        Err(_) => out.is_broken = true,
    }
}

// Reads to the end; a reader that goes on after nine replies is left.
fn read_on(reader: Reader, table: &mut DocTable, out: &mut Out) {
    let mut reader = reader;
    let replies = feed_all(&mut reader, table, out);
    if reader.is_done() {
        put_read(reader.take(), out);
        put_count(replies, out);
    } else {
        mem::forget(reader);
        out.put("too many replies");
    }
}

// Feeds the reader until it is done, and tells how many replies it took.
fn feed_all(reader: &mut Reader, table: &mut DocTable, out: &mut Out) -> u64 {
    for replies in 0..10 {
        if reader.is_done() {
            return replies;
        }
        match reader.next() {
            Ok(ask) => feed(ask, reader, table, out),
            Err(_) => out.is_broken = true,
        }
    }
    10
}

fn feed(ask: Ask, reader: &mut Reader, table: &mut DocTable, out: &mut Out) {
    let reply = answer("", &ask, table, out);
    drop(ask);
    let fed = reader.feed(reply);
    out.note(fed);
}

fn put_read(read: ReadOut, out: &mut Out) {
    match read {
        ReadOut::Node(node) => put_size(node, out),
        ReadOut::Children(names) => put_names(names, out),
    }
}

// Commands as they are read.
use crate::scripts::put_fault;
use jcr_trans::{Command, TreeNode};
use jr_args::{Fault, command, pointer};
use jr_path::{Path, Text};
use rows::{Out, json_of};
use serde_json::Value as Json;
use std::alloc::AllocError;

// The rule that is broken and its place, or the name of the command and the paths of its nodes.
pub(crate) fn add(text: &str, out: &mut Out) {
    let json = json_of(text, out);
    match &json {
        Some(json) => add_json(json, out),
        None => out.put("no JSON"),
    }
    drop(json);
}

fn add_json(json: &Json, out: &mut Out) {
    let read = command(out.alloc, json);
    match &read {
        Ok(command) => put_command(command, out),
        Err(fault) => put_command_fault(fault, out),
    }
    drop(read);
}

fn put_command_fault(fault: &Fault, out: &mut Out) {
    match fault {
        Fault::Bad { rule, steps } => put_place(*rule, pointer(out.alloc, steps), out),
        Fault::Memory => out.put("memory"),
    }
}

fn put_place(rule: u8, pointer: Result<Text, AllocError>, out: &mut Out) {
    match pointer {
        Ok(pointer) => put_fault(rule, pointer.as_str(), out),
        Err(_) => out.is_broken = true,
    }
}

fn put_command(command: &Command, out: &mut Out) {
    out.put("ok ");
    out.put(command.word());
    if let Command::Tree(path, nodes) = command {
        put_nodes(path, nodes.inner(), out);
    }
}

fn put_nodes(path: &Path, nodes: &[TreeNode], out: &mut Out) {
    put_path(path, out);
    for node in nodes {
        put_path(&node.path, out);
    }
}

fn put_path(path: &Path, out: &mut Out) {
    out.put(" ");
    out.put_path(path);
}

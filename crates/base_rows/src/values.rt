// Values from texts.
use jr_json::value_json;
use jr_value::{Kind, Value};
use rows::{Out, cut};
use serde_json::Value as Json;
use std::alloc::AllocError;

// KIND TEXT: the JSON of the kind's value that the text is, or `none`.
pub(crate) fn add(rest: &str, out: &mut Out) {
    let (kind, text) = cut(rest);
    match Kind::from_word(kind) {
        Some(kind) => add_text(kind, text, out),
        None => out.put("no kind"),
    }
}

fn add_text(kind: Kind, text: &str, out: &mut Out) {
    let value = Value::from_text(out.alloc, kind, text);
    put_value(&value, out);
    drop(value);
}

fn put_value(value: &Result<Option<Value>, AllocError>, out: &mut Out) {
    match value {
        Ok(Some(value)) => put_found(value, out),
        Ok(None) => out.put("none"),
        Err(_) => out.is_broken = true,
    }
}

fn put_found(value: &Value, out: &mut Out) {
    let json = value_json(out.alloc, value);
    put_json(&json, out);
    drop(json);
}

pub(crate) fn put_json(json: &Result<Json, AllocError>, out: &mut Out) {
    match json {
        Ok(json) => out.put_made(json.to_string(out.alloc)),
        Err(_) => out.is_broken = true,
    }
}

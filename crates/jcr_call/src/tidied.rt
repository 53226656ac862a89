// Replies that show how splits and collections ended.
ghost use Rattle.std.specs.Prelude.{◌≡◌, IfOk, OnOk, false, map, string_bytes};
ghost use Rattle.serde_json.specs.Data.{array, no_members, object, put};
ghost use Rattle.serde_json.specs.View.{items_of, members_view, view};
ghost use Rattle.serde_json.specs.Written.{has_float};
ghost use Rattle.jcr_trans.specs.Texts.{ok_text};
ghost use Rattle.jcr_law.specs.Tasks.{collected_data, skip_data, skipped_data, split_data};

use jr_path::DocId;
use oak_doc::{Collected, SplitEnd};
use serde_json::{Map, Value as Json};
use std::alloc::{AllocError, Global};

/// The reply that shows how a split ended (Oak, DocumentNodeStore: "Previous documents"): what it
/// moved, as `ok {"moved":1}`, or the numbers read and found.
#[tactic(auto, using(crate::proofs::NoFloat::split_plain))]
pub fn split_reply(alloc: Global, end: &SplitEnd) -> Result<String, AllocError>
    ensures { IfOk result (λ reply. string_bytes reply ≡ ok_text (split_data end.now)) }
{
    let json = split_json(alloc, end)?;
    let reply = json_reply(alloc, &json);
    drop(json);
    reply
}

/// The reply that shows what a collection did (Oak, DocumentNodeStore: "Revision garbage
/// collection"): entries pruned, documents removed, and what was skipped.
#[tactic(auto, using(crate::proofs::NoFloat::collected_plain))]
pub fn collected_reply(alloc: Global, done: &Collected) -> Result<String, AllocError>
    ensures { IfOk result (λ reply. string_bytes reply ≡ ok_text (collected_data done.now)) }
{
    let json = collected_json(alloc, done)?;
    let reply = json_reply(alloc, &json);
    drop(json);
    reply
}

// The reply that shows the JSON.
fn json_reply(alloc: Global, json: &Json) -> Result<String, AllocError>
    requires { has_float (view json.now) ≡ false }
    ensures { IfOk result (λ reply. string_bytes reply ≡ ok_text (view json.now)) }
{
    let shown = json.to_string(alloc)?;
    Ok(format!(in alloc; "ok {shown}")?)
}

fn split_json(alloc: Global, end: &SplitEnd) -> Result<Json, AllocError>
    ensures { IfOk result (λ json. view json ≡ split_data end.now) }
{
    match end {
        SplitEnd::Split(moved) => one_member(alloc, "moved", Json::from(*moved)),
        SplitEnd::Skipped(read, found) => {
            one_member(alloc, "skipped", skip_json(alloc, *read, *found)?)
        }
    }
}

// An object of one member.
fn one_member(alloc: Global, name: &str, json: Json) -> Result<Json, AllocError>
    ensures { IfOk result (λ made. view made ≡ object (put name.now (view json) no_members)) }
{
    let mut members = Map::new(alloc);
    match put_member(&mut members, alloc, name, json) {
        Ok(()) => Ok(Json::Object(members)),
        Err(AllocError) => {
            drop(members);
            Err(AllocError)
        }
    }
}

// The numbers read and found of something skipped.
fn skip_json(alloc: Global, read: u64, found: u64) -> Result<Json, AllocError>
    ensures { IfOk result (λ json. view json ≡ array (items_of (skip_data read found))) }
{
    let mut items = Vec::new(alloc);
    items.push(Json::from(read))?;
    items.push(Json::from(found))?;
    Ok(Json::Array(items))
}

fn collected_json(alloc: Global, done: &Collected) -> Result<Json, AllocError>
    ensures { IfOk result (λ json. view json ≡ collected_data done.now) }
{
    let skipped = all_skipped_json(alloc, done.skipped.as_slice())?;
    let mut members = Map::new(alloc);
    put_member(&mut members, alloc, "skipped", skipped)?;
    put_member(&mut members, alloc, "entries", Json::from(done.entries))?;
    put_member(&mut members, alloc, "documents", Json::from(done.documents))?;
    Ok(Json::Object(members))
}

fn put_member(
    members: &mut Map<String, Json>,
    alloc: Global,
    name: &str,
    json: Json,
) -> Result<(), AllocError>
    ensures { OnOk result (members_view members.new.entries
        ≡ put name.now (view json) (members_view members.old.entries)) }
{
    members.insert(String::from_str(alloc, name)?, json)?;
    Ok(())
}

fn all_skipped_json(alloc: Global, skipped: &[(DocId, u64, u64)]) -> Result<Json, AllocError>
    ensures { IfOk result (λ json. view json ≡ array (items_of (map skipped_data skipped.now))) }
{
    let mut items = Vec::new(alloc);
    for one in skipped {
        match skipped_json(alloc, one) {
            Ok(json) => items.push(json)?,
            Err(AllocError) => {
                drop(items);
                return Err(AllocError);
            }
        }
    }
    Ok(Json::Array(items))
}

// A document that was skipped, with the numbers read and found.
fn skipped_json(alloc: Global, one: &(DocId, u64, u64)) -> Result<Json, AllocError>
    ensures { IfOk result (λ json. view json ≡ skipped_data one.now) }
{
    let mut items = Vec::new(alloc);
    items.push(Json::String(one.0.text(alloc)?))?;
    items.push(Json::from(one.1))?;
    items.push(Json::from(one.2))?;
    Ok(Json::Array(items))
}

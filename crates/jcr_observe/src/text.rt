// The text of events.
ghost use Rattle.std.specs.Prelude.{◌≡◌, IfOk, string_bytes};
ghost use Rattle.std.specs.Option.{option_copied};
ghost use Rattle.serde_json.specs.View.{view};
ghost use Rattle.jr_path.specs.Ids.{path_text};
ghost use Rattle.jr_path.specs.Names.{item_path};
ghost use Rattle.jcr_observe.specs.Texts.{event_data, events_data, events_text, item_data};

use crate::event::JcrEvent;
use jr_path::Item;
use serde_json::Value as Json;
use std::alloc::{AllocError, Global};

/// The text of events: a JSON list with a list for each, as `[[1,"/a"],[4,"/a/p"],[64,null]]`: the code, and the path of the
/// item, which has a property's name last; null where the event has no item.
#[tactic(auto, using(crate::proofs::NoFloat::events_plain))]
pub fn events_text(alloc: Global, events: &[JcrEvent]) -> Result<String, AllocError>
    ensures { IfOk result (λ text. string_bytes text ≡ events_text events.now) }
{
    let json = events_json(alloc, events)?;
    Ok(json.to_string(alloc)?)
}

fn events_json(alloc: Global, events: &[JcrEvent]) -> Result<Json, AllocError>
    ensures { IfOk result (λ json. view json ≡ events_data events.now) }
{
    let mut items = Vec::new(alloc);
    for event in events {
        items.push(event_json(alloc, event)?)?;
    }
    Ok(Json::Array(items))
}

fn event_json(alloc: Global, event: &JcrEvent) -> Result<Json, AllocError>
    ensures { IfOk result (λ json. view json ≡ event_data event.now) }
{
    let mut items = Vec::new(alloc);
    items.push(Json::from(event.code))?;
    items.push(item_json(event)?)?;
    Ok(Json::Array(items))
}

fn item_json(event: &JcrEvent) -> Result<Json, AllocError>
    ensures { IfOk result (λ json. view json ≡ item_data event.now.item) }
{
    match &event.item {
        Some(item) => Ok(Json::String(text_of_item(item)?)),
        None => Ok(Json::Null),
    }
}

// The text of an item's path, which has the property's name last.
fn text_of_item(item: &Item) -> Result<String, AllocError>
    ensures { IfOk result (λ text. string_bytes text ≡ path_text (item_path item.now)) }
{
    match &item.name {
        Some(name) => {
            let path = item.path.child(name)?;
            Ok(path.text()?)
        }
        None => Ok(item.path.text()?),
    }
}

// How keys and values of the maps of a document are written.
ghost use Rattle.std.specs.Prelude.{◌≡◌, ◌∷◌, [], ℕ, List, IfOk};
ghost use Rattle.std.specs.Fmt.{decimal};
ghost use Rattle.std.specs.String.{string_bytes};
ghost use Rattle.serde_json.specs.Data.{Data, array, boolean, string};
ghost use Rattle.serde_json.specs.View.{items_of, view};
ghost use Rattle.jr_docs.specs.Documents.{collision_data, commit_data, note_data, number_data};
ghost use Rattle.jr_docs.specs.Documents.{pin_data, held_data};
ghost use Rattle.jr_path.specs.Ids.{path_text};
ghost use Rattle.jr_path.specs.Names.{item_path};
ghost use Rattle.jr_rev.specs.Texts.{revision_text, vector_text};

use jr_json::property_json;
use jr_path::{Item, Text};
use jr_rev::{Pin, RevVec, Revision, revision_text};
use jr_value::Property;
use serde_json::Value as Json;
use std::alloc::{AllocError, Global};

/// A key of a map, which a text spells.
pub trait Spelled: Ord {
    ghost text: { Self → List ℕ };

    fn spell(&self, alloc: Global) -> Result<String, AllocError>
        ensures { IfOk result (λ t. string_bytes t ≡ text self.now) };
}

impl Spelled for Revision {
    ghost text = { λ r. revision_text r };

    fn spell(&self, alloc: Global) -> Result<String, AllocError> {
        String::from_str(alloc, revision_text(self).as_str())
    }
}

impl Spelled for Text {
    ghost text = { λ t. t };

    fn spell(&self, alloc: Global) -> Result<String, AllocError> {
        String::from_str(alloc, self.as_str())
    }
}

impl Spelled for u32 {
    ghost text = { λ n. decimal n };

    fn spell(&self, alloc: Global) -> Result<String, AllocError> {
        self.to_string(alloc)
    }
}

/// The form in which a value stands in a map.
pub trait Form<V> {
    ghost shown: { V → Data };

    fn json(alloc: Global, value: &V) -> Result<Json, AllocError>
        ensures { IfOk result (λ json. view json ≡ shown value.now) };
}

/// A truth value as itself.
pub struct Truth;

impl Form<bool> for Truth {
    ghost shown = { boolean };

    fn json(_alloc: Global, value: &bool) -> Result<Json, AllocError> {
        Ok(Json::Bool(*value))
    }
}

/// A number as itself.
pub struct Number;

impl Form<u32> for Number {
    ghost shown = { λ n. number_data n };

    fn json(_alloc: Global, value: &u32) -> Result<Json, AllocError> {
        Ok(Json::from(*value))
    }
}

/// That a revision is committed, as `"c"`.
pub struct Committed;

impl Form<()> for Committed {
    ghost shown = { λ u. commit_data u };

    fn json(alloc: Global, _value: &()) -> Result<Json, AllocError> {
        Json::try_from_str(alloc, "c")
    }
}

/// That there is a mark, as `true`.
pub struct Noted;

impl Form<()> for Noted {
    ghost shown = { λ u. note_data u };

    fn json(_alloc: Global, _value: &()) -> Result<Json, AllocError> {
        Ok(Json::Bool(true))
    }
}

/// A collision as the marking revision and the item's path.
pub struct Collision;

impl Form<(Revision, Item)> for Collision {
    ghost shown = { λ c. collision_data c };

    fn json(alloc: Global, value: &(Revision, Item)) -> Result<Json, AllocError> {
        let revision = revision_json(alloc, &value.0)?;
        let item = item_json(alloc, &value.1)?;
        pair_json(alloc, revision, item)
    }
}

/// The value of a property, or `null`.
pub struct Held;

impl Form<Option<Property>> for Held {
    ghost shown = { λ x. held_data x };

    fn json(alloc: Global, value: &Option<Property>) -> Result<Json, AllocError> {
        match value {
            Some(property) => property_json(alloc, property),
            None => Ok(Json::Null),
        }
    }
}

/// A vector with its sweep vector.
pub struct Pair;

impl Form<Pin> for Pair {
    ghost shown = { λ p. pin_data p };

    fn json(alloc: Global, value: &Pin) -> Result<Json, AllocError> {
        let base = vector_json(alloc, &value.base)?;
        let sweep = vector_json(alloc, &value.sweep)?;
        pair_json(alloc, base, sweep)
    }
}

// A list of two.
fn pair_json(alloc: Global, first: Json, second: Json) -> Result<Json, AllocError>
    ensures { IfOk result (λ json.
        view json ≡ array (items_of (view first ∷ view second ∷ []))) }
{
    let mut items = Vec::new(alloc);
    items.push(first)?;
    items.push(second)?;
    Ok(Json::Array(items))
}

/// The text of a vector.
pub fn vector_text(alloc: Global, vector: &RevVec) -> Result<String, AllocError>
    ensures { IfOk result (λ text. string_bytes text ≡ vector_text vector.now) }
{
    let mut bytes = Vec::new(alloc);
    vector.put_text(&mut bytes)?;
    Ok(String::from_utf8(bytes).unwrap())
}

fn vector_json(alloc: Global, vector: &RevVec) -> Result<Json, AllocError>
    ensures { IfOk result (λ json. view json ≡ string (vector_text vector.now)) }
{
    Ok(Json::String(vector_text(alloc, vector)?))
}

/// The text of a revision.
pub fn revision_json(alloc: Global, revision: &Revision) -> Result<Json, AllocError>
    ensures { IfOk result (λ json. view json ≡ string (revision_text revision.now)) }
{
    Json::try_from_str(alloc, revision_text(revision).as_str())
}

// The path of an item.
fn item_json(alloc: Global, item: &Item) -> Result<Json, AllocError>
    ensures { IfOk result (λ json. view json ≡ string (path_text (item_path item.now))) }
{
    let text = item_text(item)?;
    Json::try_from_str(alloc, text.as_str())
}

fn item_text(item: &Item) -> Result<String, AllocError>
    ensures { IfOk result (λ text. string_bytes text ≡ path_text (item_path item.now)) }
{
    match &item.name {
        Some(name) => item.path.child(name)?.text(),
        None => item.path.text(),
    }
}

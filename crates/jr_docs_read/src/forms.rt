// How keys and values of the maps of a document are read.
ghost use Rattle.std.specs.Prelude.{◌≡◌, ℕ, All, IfOk, List as Seq, map};
ghost use Rattle.std.proofs.lemmas.Map.Lookups.{exact_unsigned};
ghost use Rattle.std.specs.declared.cmp.Ordering.TheVariants.{Equal};
ghost use Rattle.std.specs.Fmt.{decimal};
ghost use Rattle.serde_json.specs.Data.{Data, array, boolean};
ghost use Rattle.serde_json.specs.View.{items_of, view};
ghost use Rattle.jr_docs.proofs.Keys.{one_number, one_revision_text};
ghost use Rattle.jr_docs.specs.Documents.{collision_data, commit_data, held_data, note_data};
ghost use Rattle.jr_docs.specs.Documents.{number_data, pin_data};
ghost use Rattle.jr_docs_read.specs.Ranges.{AreTyped, IsAny, IsHeldInRange, IsNodeCollision};
ghost use Rattle.jr_docs_read.specs.Ranges.{IsPinInRange, IsShort, IsTyped};
ghost use Rattle.jr_docs_read.specs.Reading.{Obtains};
ghost use Rattle.jr_json.specs.Json.{property_data};
ghost use Rattle.jr_path.proofs.Maps.{name_exact};
ghost use Rattle.jr_path.specs.declared.path.Item.{Item};
ghost use Rattle.jr_rev.proofs.Order.{revision_exact};
ghost use Rattle.jr_rev.specs.Grammar.{FitsFields};
ghost use Rattle.jr_rev.specs.Texts.{revision_text};
ghost use Rattle.jr_rev.specs.declared.revision.Revision.{Revision};
ghost use Rattle.jr_rev.specs.declared.vector.Pin.{Pin};
ghost use Rattle.jr_value.specs.Ranges.{IsReadableProperty};
ghost use Rattle.jr_value.specs.declared.value.Property.{Property};

use crate::DocFault;
use crate::texts::{read_path, read_revision, revision_of, text_of, vector_of};
use jr_json::{ValueFault, read_property};
use jr_path::{Item, Text};
use jr_rev::{Pin, Revision};
use jr_value::{Property, Value};
use serde_json::Value as Json;
use std::alloc::Global;

/// A key of a map, which a text spells.
pub trait Key: Ord {
    ghost text: { Self → Seq ℕ };

    ghost fits: { Self → Type 0 };

    fn read(alloc: Global, bytes: &str) -> Result<Self, DocFault>
        ensures complete { (k : Self) → fits k → text k ≡ bytes.now
            → Obtains (λ found. found ≡ k) result }
        ensures in_range { IfOk result fits };

    // Each text is that of one key.
    ghost one_text: { (a b : Self) → fits a → fits b → text a ≡ text b → a ≡ b };

    // Only equal keys tie.
    ghost exact: { (a b : Self) → Self.Ord.cmp a b ≡ Equal → a ≡ b };
}

impl Key for Revision {
    ghost text = { λ r. revision_text r };

    ghost fits = { λ r. FitsFields r };

    ghost one_text = { one_revision_text };

    ghost exact = { revision_exact };

    fn read(_alloc: Global, bytes: &str) -> Result<Revision, DocFault> {
        read_revision(bytes)
    }
}

impl Key for Text {
    ghost text = { λ t. t };

    ghost fits = { λ t. IsAny t };

    ghost one_text = { λ a b _ _ same. same };

    ghost exact = { name_exact };

    fn read(alloc: Global, bytes: &str) -> Result<Text, DocFault> {
        Ok(Text::copy_of(alloc, bytes)?)
    }
}

impl Key for u32 {
    ghost text = { λ n. decimal n };

    ghost fits = { λ n. IsShort n };

    ghost one_text = { one_number };

    ghost exact = { exact_unsigned };

    fn read(_alloc: Global, bytes: &str) -> Result<u32, DocFault> {
        match bytes.parse::<u32>() {
            Ok(number) => Ok(number),
            Err(_) => Err(DocFault::NotADocument),
        }
    }
}

/// The form in which a value stands in a map.
pub trait Form<V> {
    ghost shown: { V → Data };

    ghost fits: { V → Type 0 };

    fn read(alloc: Global, json: &Json) -> Result<V, DocFault>
        ensures complete { (v : V) → fits v → shown v ≡ view json.now
            → Obtains (λ found. found ≡ v) result }
        ensures in_range { IfOk result fits };
}

/// A truth value as itself.
pub struct Truth;

impl Form<bool> for Truth {
    ghost shown = { boolean };

    ghost fits = { λ b. IsAny b };

    fn read(_alloc: Global, json: &Json) -> Result<bool, DocFault> {
        match json {
            Json::Bool(truth) => Ok(*truth),
            _ => Err(DocFault::NotADocument),
        }
    }
}

/// A number as itself.
pub struct Number;

impl Form<u32> for Number {
    ghost shown = { λ n. number_data n };

    ghost fits = { λ n. IsShort n };

    fn read(_alloc: Global, json: &Json) -> Result<u32, DocFault> {
        number_of(json)
    }
}

/// A whole number of 32 bits.
pub fn number_of(json: &Json) -> Result<u32, DocFault>
    ensures complete { (n : ℕ) → IsShort n → number_data n ≡ view json.now
        → Obtains (λ found. found ≡ n) result }
    ensures in_range { IfOk result IsShort }
{
    match u32::try_from(count_of(json)?) {
        Ok(number) => Ok(number),
        Err(_) => Err(DocFault::NotADocument),
    }
}

/// A whole number of 64 bits.
pub fn count_of(json: &Json) -> Result<u64, DocFault>
    ensures { (n : ℕ) → number_data n ≡ view json.now
        → Obtains (λ found. found ≡ n) result }
{
    match json.as_u64() {
        Some(number) => Ok(number),
        None => Err(DocFault::NotADocument),
    }
}

/// That a revision is committed.
pub struct Committed;

impl Form<()> for Committed {
    ghost shown = { λ u. commit_data u };

    ghost fits = { λ u. IsAny u };

    fn read(_alloc: Global, _json: &Json) -> Result<(), DocFault> {
        Ok(())
    }
}

/// That there is a mark.
pub struct Noted;

impl Form<()> for Noted {
    ghost shown = { λ u. note_data u };

    ghost fits = { λ u. IsAny u };

    fn read(_alloc: Global, _json: &Json) -> Result<(), DocFault> {
        Ok(())
    }
}

/// A collision: the marking revision, and the item's path, which is read as that of a node.
pub struct Collision;

impl Form<(Revision, Item)> for Collision {
    ghost shown = { λ c. collision_data c };

    ghost fits = { λ c. IsNodeCollision c };

    fn read(alloc: Global, json: &Json) -> Result<(Revision, Item), DocFault> {
        match json {
            Json::Array(items) => collision_of(alloc, items),
            _ => Err(DocFault::NotADocument),
        }
    }
}

#[tactic(auto, using(crate::proofs::Ranged::node_fits))]
fn collision_of(alloc: Global, items: &[Json]) -> Result<(Revision, Item), DocFault>
    ensures complete { (c : Revision × Item) → IsNodeCollision c
        → collision_data c ≡ array (items_of (map view items.now))
        → Obtains (λ found. found ≡ c) result }
    ensures in_range { IfOk result IsNodeCollision }
{
    match items {
        [revision, item] => {
            let revision = revision_of(revision)?;
            let path = read_path(alloc, text_of(item)?)?;
            Ok((revision, Item { path, name: None }))
        }
        _ => Err(DocFault::NotADocument),
    }
}

/// The value of a property, or `null`.
pub struct Held;

impl Form<Option<Property>> for Held {
    ghost shown = { λ x. held_data x };

    ghost fits = { λ x. IsHeldInRange x };

    fn read(alloc: Global, json: &Json) -> Result<Option<Property>, DocFault> {
        match json {
            Json::Null => Ok(None),
            _ => Ok(Some(property_of(alloc, json)?)),
        }
    }
}

fn property_of(alloc: Global, json: &Json) -> Result<Property, DocFault>
    ensures complete { (p : Property) → IsReadableProperty p → property_data p ≡ view json.now
        → Obtains (λ found. found ≡ p) result }
    ensures in_range { IfOk result IsReadableProperty }
{
    match read_property(alloc, json) {
        Ok(property) => {
            are_typed(&property);
            Ok(property)
        }
        Err(ValueFault::ValueFormat(_, _)) => Err(DocFault::NotADocument),
        Err(ValueFault::Memory) => Err(DocFault::Memory),
    }
}

// Numbers and identifiers fit their types. It does nothing: callers learn the fact.
fn are_typed(property: &Property)
    ensures { AreTyped property.now }
{
    match property {
        Property::Single(value) => is_typed(value),
        Property::Many(_, values) => all_typed(values.as_slice()),
    }
}

fn all_typed(values: &[Value])
    ensures { All IsTyped values.now }
{
    for value in values {
        is_typed(value);
    }
}

fn is_typed(value: &Value)
    ensures { IsTyped value.now }
{
    match value {
        Value::Long(number) => {
            let _value = *number;
        }
        Value::Date(number) => {
            let _value = *number;
        }
        Value::Reference(id) => {
            let _value = *id;
        }
        Value::WeakReference(id) => {
            let _value = *id;
        }
        _ => {}
    }
}

/// A vector with its sweep vector.
pub struct Pair;

impl Form<Pin> for Pair {
    ghost shown = { λ p. pin_data p };

    ghost fits = { λ p. IsPinInRange p };

    fn read(_alloc: Global, json: &Json) -> Result<Pin, DocFault> {
        match json {
            Json::Array(items) => pin_of(items),
            _ => Err(DocFault::NotADocument),
        }
    }
}

#[tactic(auto, using(crate::proofs::Ranged::pin_fits))]
fn pin_of(items: &[Json]) -> Result<Pin, DocFault>
    ensures complete { (p : Pin) → IsPinInRange p
        → pin_data p ≡ array (items_of (map view items.now))
        → Obtains (λ found. found ≡ p) result }
    ensures in_range { IfOk result IsPinInRange }
{
    match items {
        [base, sweep] => {
            let base = vector_of(base)?;
            let sweep = vector_of(sweep)?;
            Ok(Pin { base, sweep })
        }
        _ => Err(DocFault::NotADocument),
    }
}

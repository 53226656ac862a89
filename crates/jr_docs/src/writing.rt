// The JSON of documents.
ghost use Rattle.std.specs.Prelude.{◌≡◌, ◌∷◌, ◌++◌, [], IfOk, OnOk, codes, map};
ghost use Rattle.std.specs.String.{string_bytes};
ghost use Rattle.serde_json.specs.Data.{array, boolean, put, string};
ghost use Rattle.serde_json.specs.View.{view, members_view, items_of};
ghost use Rattle.jr_docs.specs.Documents.{by_revision, collision_data, commit_data, document_data};
ghost use Rattle.jr_docs.specs.Documents.{document_line, fields_at, listed_data, node_fields};
ghost use Rattle.jr_docs.specs.Documents.{note_data, number_data, prev_data, prev_fields};
ghost use Rattle.jr_docs.specs.Documents.{property_field, settings_fields, sweep_field};
ghost use Rattle.jr_docs.specs.Documents.{vector_field};
ghost use Rattle.jr_path.specs.Ids.{id_text};
ghost use Rattle.jr_path.specs.declared.path.DocId.TheVariants.{Prev};
ghost use Rattle.jr_docs.specs.Members.{map_data, put_field, put_fields, unless_empty};

use crate::forms::{
    Collision, Committed, Form, Held, Noted, Number, Pair, Spelled, Truth, revision_json,
    vector_text,
};
use jr_path::{DocId, Keyed, List, Name, Path};
use jr_rev::{RevVec, Revision};
use jr_value::Property;
use oak_doc::{Document, PrevEntry};
use serde_json::{Map, Value as Json};
use std::alloc::{AllocError, Global};

// The members of an object.
type Members = Map<String, Json>;

/// The JSON of a document, with the fields of its kind: its id and number, and what there is of
/// the others.
pub fn document_json(alloc: Global, document: &Document) -> Result<Json, AllocError>
    ensures { IfOk result (λ json. view json ≡ document_data document.now) }
{
    let mut members = Map::new(alloc);
    put_id(alloc, &mut members, &document.id)?;
    put(
        alloc,
        &mut members,
        "_modCount",
        Json::from(document.mod_count),
    )?;
    put_fields(alloc, &mut members, document)?;
    Ok(Json::Object(members))
}

/// The line of a document, without its end: its JSON with no spaces.
pub fn document_line(alloc: Global, document: &Document) -> Result<String, AllocError>
    ensures { IfOk result (λ line. string_bytes line ≡ document_line document.now) }
{
    let json = document_json(alloc, document)?;
    json.to_string(alloc)
}

fn put_id(alloc: Global, members: &mut Members, id: &DocId) -> Result<(), AllocError>
    ensures { OnOk result (members_view members.new.entries
        ≡ put (codes "_id") (string (id_text id.now)) (members_view members.old.entries)) }
{
    let text = id.text(alloc)?;
    put(alloc, members, "_id", Json::String(text))
}

fn put_fields(alloc: Global, members: &mut Members, document: &Document) -> Result<(), AllocError>
    ensures { OnOk result (members_view members.new.entries
        ≡ put_fields (members_view members.old.entries) (fields_at document.now.id document.now)) }
{
    match &document.id {
        DocId::Node(path) => put_node(alloc, members, path, document),
        DocId::Prev(_, _) => put_prev(alloc, members, document),
        DocId::Settings => put_settings(alloc, members, document),
    }
}

fn put_node(
    alloc: Global,
    members: &mut Members,
    path: &Path,
    document: &Document,
) -> Result<(), AllocError>
    ensures { OnOk result (members_view members.new.entries
        ≡ put_fields (members_view members.old.entries) (node_fields path.now document.now)) }
{
    put_commits(alloc, members, document)?;
    put_marks(alloc, members, document)?;
    put_vectors(alloc, members, path, document)?;
    put_listed(alloc, members, path, &document.prev)?;
    put_properties(alloc, members, &document.props)
}

fn put_commits(alloc: Global, members: &mut Members, document: &Document) -> Result<(), AllocError>
    ensures { OnOk result (members_view members.new.entries
        ≡ put_fields (members_view members.old.entries)
        ((codes "_deleted", by_revision boolean document.now.deleted)
        ∷ (codes "_commitRoot", by_revision number_data document.now.commit_root)
        ∷ (codes "_revisions", by_revision commit_data document.now.revisions) ∷ [])) }
{
    put_map::<Revision, bool, Truth>(alloc, members, "_deleted", &document.deleted)?;
    put_map::<Revision, u32, Number>(alloc, members, "_commitRoot", &document.commit_root)?;
    put_map::<Revision, (), Committed>(alloc, members, "_revisions", &document.revisions)
}

fn put_marks(alloc: Global, members: &mut Members, document: &Document) -> Result<(), AllocError>
    ensures { OnOk result (members_view members.new.entries
        ≡ put_fields (members_view members.old.entries)
        ((codes "_collisions", by_revision collision_data document.now.collisions)
        ∷ (codes "_touched", by_revision note_data document.now.touched)
        ∷ (codes "_guard", by_revision note_data document.now.guard) ∷ [])) }
{
    put_map::<Revision, _, Collision>(alloc, members, "_collisions", &document.collisions)?;
    put_map::<Revision, (), Noted>(alloc, members, "_touched", &document.touched)?;
    put_map::<Revision, (), Noted>(alloc, members, "_guard", &document.guard)
}

fn put_vectors(
    alloc: Global,
    members: &mut Members,
    path: &Path,
    document: &Document,
) -> Result<(), AllocError>
    ensures { OnOk result (members_view members.new.entries
        ≡ put_fields (members_view members.old.entries)
        ((codes "_lastRev", vector_field document.now.last_rev)
        ∷ (codes "_sweepRev", sweep_field path.now document.now.sweep_rev) ∷ [])) }
{
    put_vector(alloc, members, "_lastRev", &document.last_rev)?;
    put_sweep(alloc, members, path, &document.sweep_rev)
}

// The sweep vector, which only the root has.
fn put_sweep(
    alloc: Global,
    members: &mut Members,
    path: &Path,
    sweep: &RevVec,
) -> Result<(), AllocError>
    ensures { OnOk result (members_view members.new.entries
        ≡ put_field (members_view members.old.entries)
        (codes "_sweepRev", sweep_field path.now sweep.now)) }
{
    match path.names() {
        [] => put_vector(alloc, members, "_sweepRev", sweep),
        _ => Ok(()),
    }
}

// The text of a vector, unless it is empty.
fn put_vector(
    alloc: Global,
    members: &mut Members,
    name: &str,
    vector: &RevVec,
) -> Result<(), AllocError>
    ensures { OnOk result (members_view members.new.entries
        ≡ put_field (members_view members.old.entries) (name.now, vector_field vector.now)) }
{
    let text = vector_text(alloc, vector)?;
    if text.is_empty() {
        return Ok(());
    }
    put(alloc, members, name, Json::String(text))
}

// The previous documents that are listed, where there are some.
fn put_listed(
    alloc: Global,
    members: &mut Members,
    path: &Path,
    prev: &List<PrevEntry>,
) -> Result<(), AllocError>
    ensures { OnOk result (members_view members.new.entries
        ≡ put_field (members_view members.old.entries)
        (codes "_prev", unless_empty (listed_data path.now) prev.now)) }
{
    match prev.as_slice() {
        [] => Ok(()),
        entries => put_entries(alloc, members, path, entries),
    }
}

fn put_entries(
    alloc: Global,
    members: &mut Members,
    path: &Path,
    prev: &[PrevEntry],
) -> Result<(), AllocError>
    ensures { OnOk result (members_view members.new.entries
        ≡ put (codes "_prev") (listed_data path.now prev.now) (members_view members.old.entries)) }
{
    let items = listed_json(alloc, path, prev)?;
    put(alloc, members, "_prev", Json::Array(items))
}

fn listed_json(alloc: Global, path: &Path, prev: &[PrevEntry]) -> Result<Vec<Json>, AllocError>
    ensures { IfOk result (λ items. map view items.items ≡ map (prev_data path.now) prev.now) }
{
    let mut items = Vec::new(alloc);
    for entry in prev {
        put_item(alloc, &mut items, path, entry)?;
    }
    Ok(items)
}

fn put_item(
    alloc: Global,
    items: &mut Vec<Json>,
    path: &Path,
    entry: &PrevEntry,
) -> Result<(), AllocError>
    ensures { OnOk result (map view items.new.items
        ≡ map view items.old.items ++ prev_data path.now entry.now ∷ []) }
{
    let json = prev_json(alloc, path, entry)?;
    items.push(json)?;
    Ok(())
}

fn prev_json(alloc: Global, path: &Path, entry: &PrevEntry) -> Result<Json, AllocError>
    ensures { IfOk result (λ json. view json ≡ prev_data path.now entry.now) }
{
    let text = prev_text(alloc, entry.number, path)?;
    let high = revision_json(alloc, &entry.high)?;
    let low = revision_json(alloc, &entry.low)?;
    three_json(alloc, Json::String(text), high, low)
}

// The text of the id of a previous document.
fn prev_text(alloc: Global, number: u64, path: &Path) -> Result<String, AllocError>
    ensures { IfOk result (λ text. string_bytes text ≡ id_text (Prev number path.now)) }
{
    let path = path.text()?;
    Ok(format!(in alloc; "p{number:x}:{path}")?)
}

// A list of three.
fn three_json(alloc: Global, first: Json, second: Json, third: Json) -> Result<Json, AllocError>
    ensures { IfOk result (λ json. view json
        ≡ array (items_of (view first ∷ view second ∷ view third ∷ []))) }
{
    let mut items = Vec::new(alloc);
    items.push(first)?;
    items.push(second)?;
    items.push(third)?;
    Ok(Json::Array(items))
}

fn put_properties(
    alloc: Global,
    members: &mut Members,
    props: &Keyed<Name, Keyed<Revision, Option<Property>>>,
) -> Result<(), AllocError>
    ensures { OnOk result (members_view members.new.entries
        ≡ put_fields (members_view members.old.entries) (map property_field props.now)) }
{
    for (name, values) in props.inner() {
        put_property(alloc, members, name, values)?;
    }
    Ok(())
}

fn put_property(
    alloc: Global,
    members: &mut Members,
    name: &Name,
    values: &Keyed<Revision, Option<Property>>,
) -> Result<(), AllocError>
    ensures { OnOk result (members_view members.new.entries
        ≡ put_field (members_view members.old.entries) (property_field (name.now, values.now))) }
{
    let member = property_name(alloc, name)?;
    put_map::<Revision, _, Held>(alloc, members, member.as_str(), values)
}

// The name of a property's member.
fn property_name(alloc: Global, name: &Name) -> Result<String, AllocError>
    ensures { IfOk result (λ text. string_bytes text ≡ codes "p:" ++ name.now) }
{
    let name = name.as_str();
    Ok(format!(in alloc; "p:{name}")?)
}

fn put_prev(alloc: Global, members: &mut Members, document: &Document) -> Result<(), AllocError>
    ensures { OnOk result (members_view members.new.entries
        ≡ put_fields (members_view members.old.entries) (prev_fields document.now)) }
{
    put_map::<Revision, u32, Number>(alloc, members, "_commitRoot", &document.commit_root)?;
    put_properties(alloc, members, &document.props)
}

fn put_settings(alloc: Global, members: &mut Members, document: &Document) -> Result<(), AllocError>
    ensures { OnOk result (members_view members.new.entries
        ≡ put_fields (members_view members.old.entries) (settings_fields document.now)) }
{
    put(alloc, members, "_sessions", Json::from(document.sessions))?;
    let checkpoints = map_json::<_, _, Pair>(alloc, &document.checkpoints)?;
    put(alloc, members, "checkpoints", checkpoints)?;
    let readers = map_json::<_, _, Pair>(alloc, &document.readers)?;
    put(alloc, members, "readers", readers)
}

// ---- members

fn put(alloc: Global, members: &mut Members, name: &str, json: Json) -> Result<(), AllocError>
    ensures { OnOk result (members_view members.new.entries
        ≡ put name.now (view json) (members_view members.old.entries)) }
{
    let name = String::from_str(alloc, name)?;
    members.insert(name, json)?;
    Ok(())
}

// A map, where it isn't empty.
fn put_map<K: Spelled, V, F: Form<V>>(
    alloc: Global,
    members: &mut Members,
    name: &str,
    map: &Keyed<K, V>,
) -> Result<(), AllocError>
    ensures { OnOk result (members_view members.new.entries
        ≡ put_field (members_view members.old.entries)
        (name.now, unless_empty (map_data K.text F.shown) map.now)) }
{
    if map.is_empty() {
        return Ok(());
    }
    let json = map_json::<K, V, F>(alloc, map)?;
    put(alloc, members, name, json)
}

// A map as an object.
fn map_json<K: Spelled, V, F: Form<V>>(alloc: Global, map: &Keyed<K, V>) -> Result<Json, AllocError>
    ensures { IfOk result (λ json. view json ≡ map_data K.text F.shown map.now) }
{
    let mut members = Map::new(alloc);
    for (key, value) in map.inner() {
        put_entry::<K, V, F>(alloc, &mut members, key, value)?;
    }
    Ok(Json::Object(members))
}

fn put_entry<K: Spelled, V, F: Form<V>>(
    alloc: Global,
    members: &mut Members,
    key: &K,
    value: &V,
) -> Result<(), AllocError>
    ensures { OnOk result (members_view members.new.entries
        ≡ put (K.text key.now) (F.shown value.now) (members_view members.old.entries)) }
{
    let name = key.spell(alloc)?;
    let json = F::json(alloc, value)?;
    members.insert(name, json)?;
    Ok(())
}

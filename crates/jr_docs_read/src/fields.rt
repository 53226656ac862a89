// The fields of a document from the members of its JSON.
ghost use Rattle.std.specs.Prelude.{◌≡◌, ◌<◌, ◌^◌, ◌++◌, ℕ, All, List as Seq, Some, [], map};
ghost use Rattle.std.specs.Prelude.{◌≢◌, ◌↔◌, IfOk, IsTrue, OnOk, Option, codes, false, filter};
ghost use Rattle.std.specs.BTreeMap.{insert_entry};
ghost use Rattle.std.specs.Option.{option_map};
ghost use Rattle.serde_json.specs.Data.{Data, array, string};
ghost use Rattle.serde_json.specs.Find.{get};
ghost use Rattle.serde_json.specs.View.{items_of, members_view, view};
ghost use Rattle.jr_docs.specs.Documents.{document_data, held_data, listed_data, prev_data};
ghost use Rattle.jr_docs.specs.Documents.{vector_field};
ghost use Rattle.jr_docs.specs.Members.{map_data, unless_empty};
ghost use Rattle.jr_docs_read.specs.Printed.{as_node, as_printed, has_entries, numbered, of_root};
ghost use Rattle.jr_docs_read.specs.Ranges.{ArePropsInRange, IsByRevision, IsHeldInRange};
ghost use Rattle.jr_docs_read.specs.Ranges.{IsListedInRange, IsReadSoFar};
ghost use Rattle.jr_docs_read.specs.Ranges.{IsPathInRange, IsStorable, IsVectorInRange};
ghost use Rattle.jr_docs_read.specs.Reading.{Obtains, is_property, printed_members};
ghost use Rattle.jr_docs_read.specs.Reading.{with_commits, with_marks_of, with_vectors};
ghost use Rattle.jr_path.specs.Grammar.{IsName};
ghost use Rattle.jr_path.specs.Ids.{id_text};
ghost use Rattle.jr_path.specs.Names.{name_cmp};
ghost use Rattle.jr_path.specs.declared.name.Name.{Name};
ghost use Rattle.jr_path.specs.declared.path.DocId.TheVariants as doc_id;
ghost use Rattle.jr_path.specs.declared.path.Path.{Path};
ghost use Rattle.jr_rev.specs.Texts.{revision_text};
ghost use Rattle.jr_rev.specs.Vectors.{Entries, no_entries};
ghost use Rattle.jr_rev.specs.declared.revision.Revision.{Revision};
ghost use Rattle.jr_value.specs.declared.value.Property.{Property};
ghost use Rattle.oak_doc.specs.declared.document.Document.{Document};
ghost use Rattle.oak_doc.specs.declared.document.PrevEntry.{PrevEntry};

use crate::DocFault;
use crate::fault::fault_of;
use crate::forms::{Collision, Committed, Held, Noted, Number, Pair, Truth, number_of};
use crate::maps::{read_map, read_object};
use crate::texts::{id_in, revision_of, vector_of};
use jr_path::{DocId, Keyed, List, Name};
use jr_rev::{RevVec, Revision};
use jr_value::Property;
use oak_doc::{Document, PrevEntry};
use serde_json::{Map, Value as Json};
use std::alloc::Global;

/// The values of each property.
pub type Props = Keyed<Name, Keyed<Revision, Option<Property>>>;

/// Reads what the document of a node has.
pub fn read_node(alloc: Global, json: &Json, document: &mut Document) -> Result<(), DocFault>
    ensures complete { (d : Document) (p : Path) → IsStorable d → d.id ≡ doc_id.Node p
        → document_data d ≡ view json.now → document.old ≡ numbered d.id d.mod_count
        → Obtains (λ _. document.new ≡ as_printed d) result }
    ensures in_range { IsReadSoFar document.old → OnOk result (IsReadSoFar document.new) }
{
    read_commits(alloc, json, document)?;
    read_marks(alloc, json, document)?;
    read_vectors(json, document)?;
    read_listed(alloc, json.get("_prev"), &mut document.prev)?;
    read_properties(alloc, json, &mut document.props)
}

fn read_commits(alloc: Global, json: &Json, document: &mut Document) -> Result<(), DocFault>
    ensures complete { (d : Document) (p : Path) → IsStorable d → d.id ≡ doc_id.Node p
        → document_data d ≡ view json.now → document.old.deleted ≡ []
        → document.old.commit_root ≡ [] → document.old.revisions ≡ []
        → Obtains (λ _. document.new ≡ with_commits d document.old) result }
    ensures in_range { IsReadSoFar document.old → OnOk result (IsReadSoFar document.new) }
{
    read_map::<Revision, bool, Truth>(alloc, json.get("_deleted"), &mut document.deleted)?;
    read_map::<Revision, u32, Number>(alloc, json.get("_commitRoot"), &mut document.commit_root)?;
    read_map::<Revision, (), Committed>(alloc, json.get("_revisions"), &mut document.revisions)
}

fn read_marks(alloc: Global, json: &Json, document: &mut Document) -> Result<(), DocFault>
    ensures complete { (d : Document) (p : Path) → IsStorable d → d.id ≡ doc_id.Node p
        → document_data d ≡ view json.now → document.old.collisions ≡ []
        → document.old.touched ≡ [] → document.old.guard ≡ []
        → Obtains (λ _. document.new ≡ with_marks_of d document.old) result }
    ensures in_range { IsReadSoFar document.old → OnOk result (IsReadSoFar document.new) }
{
    read_map::<Revision, _, Collision>(alloc, json.get("_collisions"), &mut document.collisions)?;
    read_map::<Revision, (), Noted>(alloc, json.get("_touched"), &mut document.touched)?;
    read_map::<Revision, (), Noted>(alloc, json.get("_guard"), &mut document.guard)
}

fn read_vectors(json: &Json, document: &mut Document) -> Result<(), DocFault>
    ensures complete { (d : Document) (p : Path) → IsStorable d → d.id ≡ doc_id.Node p
        → document_data d ≡ view json.now → document.old.id ≡ doc_id.Node p
        → document.old.last_rev ≡ no_entries → document.old.sweep_rev ≡ no_entries
        → Obtains (λ _. document.new ≡ with_vectors p d document.old) result }
    ensures in_range { IsReadSoFar document.old → OnOk result (IsReadSoFar document.new) }
{
    read_vector_into(json.get("_lastRev"), &mut document.last_rev)?;
    if is_root(&document.id) {
        return read_vector_into(json.get("_sweepRev"), &mut document.sweep_rev);
    }
    Ok(())
}

// Whether it is the id of the root's document.
fn is_root(id: &DocId) -> bool
    ensures { (p : Path) → id.now ≡ doc_id.Node p → IsTrue result ↔ (p ≡ []) }
{
    match id {
        DocId::Node(path) => path.depth() == 0,
        _ => false,
    }
}

// Reads a vector into a place, where there is one.
fn read_vector_into(json: Option<&Json>, vector: &mut RevVec) -> Result<(), DocFault>
    ensures complete { (v : Entries) → IsVectorInRange v
        → option_map (λ found. view found.now) json.entry ≡ vector_field v
        → vector.old ≡ no_entries → Obtains (λ _. vector.new ≡ v) result }
    ensures in_range { IsVectorInRange vector.old → OnOk result (IsVectorInRange vector.new) }
{
    if let Some(json) = json {
        *vector = vector_of(json)?;
    }
    Ok(())
}

fn read_listed(
    alloc: Global,
    json: Option<&Json>,
    prev: &mut List<PrevEntry>,
) -> Result<(), DocFault>
    ensures complete { (p : Path) (es : Seq PrevEntry) → IsPathInRange p → All IsListedInRange es
        → option_map (λ found. view found.now) json.entry ≡ unless_empty (listed_data p) es
        → prev.old ≡ [] → Obtains (λ _. prev.new ≡ es) result }
    ensures in_range { All IsListedInRange prev.old → OnOk result (All IsListedInRange prev.new) }
{
    match json {
        None => Ok(()),
        Some(json) => read_list(alloc, json, prev),
    }
}

fn read_list(alloc: Global, json: &Json, prev: &mut List<PrevEntry>) -> Result<(), DocFault>
    ensures complete { (p : Path) (es : Seq PrevEntry) → IsPathInRange p → All IsListedInRange es
        → listed_data p es ≡ view json.now
        → Obtains (λ _. prev.new ≡ prev.old ++ es) result }
    ensures in_range { All IsListedInRange prev.old → OnOk result (All IsListedInRange prev.new) }
{
    match json {
        Json::Array(items) => read_entries(alloc, items, prev),
        _ => Err(DocFault::NotADocument),
    }
}

fn read_entries(alloc: Global, items: &[Json], prev: &mut List<PrevEntry>) -> Result<(), DocFault>
    ensures complete { (p : Path) (es : Seq PrevEntry) → IsPathInRange p → All IsListedInRange es
        → listed_data p es ≡ array (items_of (map view items.now))
        → Obtains (λ _. prev.new ≡ prev.old ++ es) result }
    ensures in_range { All IsListedInRange prev.old → OnOk result (All IsListedInRange prev.new) }
{
    for item in items {
        prev.push(read_entry(alloc, item)?)?;
    }
    Ok(())
}

fn read_entry(alloc: Global, json: &Json) -> Result<PrevEntry, DocFault>
    ensures complete { (p : Path) (e : PrevEntry) → IsPathInRange p → IsListedInRange e
        → prev_data p e ≡ view json.now → Obtains (λ found. found ≡ e) result }
    ensures in_range { IfOk result IsListedInRange }
{
    match json {
        Json::Array(items) => entry_of(alloc, items),
        _ => Err(DocFault::NotADocument),
    }
}

#[tactic(auto, using(crate::proofs::Ranged::listed_fits))]
fn entry_of(alloc: Global, items: &[Json]) -> Result<PrevEntry, DocFault>
    ensures complete { (p : Path) (e : PrevEntry) → IsPathInRange p → IsListedInRange e
        → prev_data p e ≡ array (items_of (map view items.now))
        → Obtains (λ found. found ≡ e) result }
    ensures in_range { IfOk result IsListedInRange }
{
    match items {
        [id, high, low] => {
            let number = number_in_id(alloc, id)?;
            let high = revision_of(high)?;
            let low = revision_of(low)?;
            Ok(PrevEntry { number, high, low })
        }
        _ => Err(DocFault::NotADocument),
    }
}

// The number in the id of a previous document.
fn number_in_id(alloc: Global, json: &Json) -> Result<u64, DocFault>
    ensures complete { (n : ℕ) (p : Path) → n < 2 ^ 64 → IsPathInRange p
        → string (id_text (doc_id.Prev n p)) ≡ view json.now → Obtains (λ found. found ≡ n) result }
    ensures in_range { IfOk result (λ n. n < 2 ^ 64) }
{
    let id = id_in(alloc, json)?;
    match &id {
        DocId::Prev(number, _) => Ok(*number),
        _ => Err(DocFault::NotADocument),
    }
}

/// Reads what a previous document has.
pub fn read_prev(alloc: Global, json: &Json, document: &mut Document) -> Result<(), DocFault>
    ensures complete { (d : Document) (n : ℕ) (p : Path) → IsStorable d → d.id ≡ doc_id.Prev n p
        → document_data d ≡ view json.now → document.old ≡ numbered d.id d.mod_count
        → Obtains (λ _. document.new ≡ as_printed d) result }
    ensures in_range { IsReadSoFar document.old → OnOk result (IsReadSoFar document.new) }
{
    read_map::<Revision, u32, Number>(alloc, json.get("_commitRoot"), &mut document.commit_root)?;
    read_properties(alloc, json, &mut document.props)
}

fn read_properties(alloc: Global, json: &Json, props: &mut Props) -> Result<(), DocFault>
    ensures complete { (d : Document) → IsStorable d → d.id ≢ doc_id.Settings
        → document_data d ≡ view json.now → props.old ≡ []
        → Obtains (λ _. props.new ≡ filter has_entries d.props) result }
    ensures in_range { ArePropsInRange props.old → OnOk result (ArePropsInRange props.new) }
{
    match json {
        Json::Object(members) => read_members_of(alloc, members, props),
        _ => Err(DocFault::NotADocument),
    }
}

// Reads the members whose names begin as a property's does.
fn read_members_of(
    alloc: Global,
    members: &Map<String, Json>,
    props: &mut Props,
) -> Result<(), DocFault>
    ensures complete { (d : Document) → IsStorable d → d.id ≢ doc_id.Settings
        → printed_members d ≡ members_view members.now.entries → props.old ≡ []
        → Obtains (λ _. props.new ≡ filter has_entries d.props) result }
    ensures in_range { ArePropsInRange props.old → OnOk result (ArePropsInRange props.new) }
{
    for (name, value) in members {
        read_property(alloc, name.as_str(), value, props)?;
    }
    Ok(())
}

// Reads a member that is a property's, and passes over one of another field.
fn read_property(
    alloc: Global,
    member: &str,
    json: &Json,
    props: &mut Props,
) -> Result<(), DocFault>
    ensures complete { (n : Name) (es : Seq (Revision × Option Property)) → IsName n
        → IsByRevision IsHeldInRange es → codes "p:" ++ n ≡ member.now
        → map_data revision_text held_data es ≡ view json.now
        → Obtains (λ _. props.new ≡ insert_entry name_cmp props.old n es) result }
    ensures other { is_property member.now ≡ false
        → Obtains (λ _. props.new ≡ props.old) result }
    ensures in_range { ArePropsInRange props.old → OnOk result (ArePropsInRange props.new) }
{
    match member.strip_prefix("p:") {
        Some(name) => put_property(alloc, name, json, props),
        None => Ok(()),
    }
}

fn put_property(alloc: Global, name: &str, json: &Json, props: &mut Props) -> Result<(), DocFault>
    ensures complete { (es : Seq (Revision × Option Property)) → IsName name.now
        → IsByRevision IsHeldInRange es → map_data revision_text held_data es ≡ view json.now
        → Obtains (λ _. props.new ≡ insert_entry name_cmp props.old name.now es) result }
    ensures in_range { ArePropsInRange props.old → OnOk result (ArePropsInRange props.new) }
{
    let name = read_name(alloc, name)?;
    let mut values = Keyed::new(alloc);
    read_object::<Revision, _, Held>(alloc, json, &mut values)?;
    props.put(name, values)?;
    Ok(())
}

fn read_name(alloc: Global, text: &str) -> Result<Name, DocFault>
    ensures complete { IsName text.now → Obtains (λ found. found ≡ text.now) result }
    ensures in_range { IfOk result IsName }
{
    match Name::parse(alloc, text) {
        Ok(name) => Ok(name),
        Err(fault) => Err(fault_of(fault)),
    }
}

/// Reads what the document of the settings has.
pub fn read_settings(alloc: Global, json: &Json, document: &mut Document) -> Result<(), DocFault>
    ensures complete { (d : Document) → IsStorable d → d.id ≡ doc_id.Settings
        → document_data d ≡ view json.now → document.old ≡ numbered d.id d.mod_count
        → Obtains (λ _. document.new ≡ as_printed d) result }
    ensures in_range { IsReadSoFar document.old → OnOk result (IsReadSoFar document.new) }
{
    document.sessions = number_of(member(json, "_sessions")?)?;
    read_object::<_, _, Pair>(
        alloc,
        member(json, "checkpoints")?,
        &mut document.checkpoints,
    )?;
    read_object::<_, _, Pair>(alloc, member(json, "readers")?, &mut document.readers)
}

/// What an object has at a name.
pub fn member<'a>(json: &'a Json, name: &str) -> Result<&'a Json, DocFault>
    ensures { (d : Data) → get name.now (view json.now) ≡ Some d
        → Obtains (λ found. view found.now ≡ d) result }
{
    match json.get(name) {
        Some(found) => Ok(found),
        None => Err(DocFault::NotADocument),
    }
}

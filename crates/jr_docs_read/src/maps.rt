// Maps from their JSON.
ghost use Rattle.std.specs.Prelude.{◌≡◌, [], List as Seq, OnOk};
ghost use Rattle.std.specs.BTreeMap.{insert_entry};
ghost use Rattle.std.specs.Option.{option_map};
ghost use Rattle.serde_json.specs.Data.{no_members};
ghost use Rattle.serde_json.specs.View.{members_view, view};
ghost use Rattle.jr_docs.specs.Members.{map_data, members_of_map, put_all, unless_empty};
ghost use Rattle.jr_docs_read.specs.Ranges.{IsMapOf};
ghost use Rattle.jr_docs_read.specs.Reading.{Obtains};

use crate::DocFault;
use crate::forms::{Form, Key};
use jr_path::Keyed;
use serde_json::{Map, Value as Json};
use std::alloc::Global;

/// Reads a map into an empty one, where there is one.
pub fn read_map<K: Key + Drop, V: Drop, F: Form<V>>(
    alloc: Global,
    json: Option<&Json>,
    map: &mut Keyed<K, V>,
) -> Result<(), DocFault>
    ensures complete { (es : Seq (K × V)) → IsMapOf K.cmp K.fits F.fits es
        → option_map (λ found. view found.now) json.entry
        ≡ unless_empty (map_data K.text F.shown) es
        → map.old ≡ [] → Obtains (λ _. map.new ≡ es) result }
    ensures in_range { IsMapOf K.cmp K.fits F.fits map.old
        → OnOk result (IsMapOf K.cmp K.fits F.fits map.new) }
{
    match json {
        None => Ok(()),
        Some(json) => read_object::<K, V, F>(alloc, json, map),
    }
}

/// Reads an object into an empty map.
pub fn read_object<K: Key + Drop, V: Drop, F: Form<V>>(
    alloc: Global,
    json: &Json,
    map: &mut Keyed<K, V>,
) -> Result<(), DocFault>
    ensures complete { (es : Seq (K × V)) → IsMapOf K.cmp K.fits F.fits es
        → map_data K.text F.shown es ≡ view json.now
        → map.old ≡ [] → Obtains (λ _. map.new ≡ es) result }
    ensures in_range { IsMapOf K.cmp K.fits F.fits map.old
        → OnOk result (IsMapOf K.cmp K.fits F.fits map.new) }
{
    match json {
        Json::Object(members) => read_members::<K, V, F>(alloc, members, map),
        _ => Err(DocFault::NotADocument),
    }
}

// Puts what each member says, in their order.
fn read_members<K: Key + Drop, V: Drop, F: Form<V>>(
    alloc: Global,
    members: &Map<String, Json>,
    map: &mut Keyed<K, V>,
) -> Result<(), DocFault>
    ensures complete { (es : Seq (K × V)) → IsMapOf K.cmp K.fits F.fits es
        → put_all no_members (members_of_map K.text F.shown es)
        ≡ members_view members.now.entries
        → map.old ≡ [] → Obtains (λ _. map.new ≡ es) result }
    ensures in_range { IsMapOf K.cmp K.fits F.fits map.old
        → OnOk result (IsMapOf K.cmp K.fits F.fits map.new) }
{
    for (name, value) in members {
        read_member::<K, V, F>(alloc, name.as_str(), value, map)?;
    }
    Ok(())
}

fn read_member<K: Key + Drop, V: Drop, F: Form<V>>(
    alloc: Global,
    name: &str,
    json: &Json,
    map: &mut Keyed<K, V>,
) -> Result<(), DocFault>
    ensures complete { (k : K) (v : V) → K.fits k → F.fits v
        → K.text k ≡ name.now → F.shown v ≡ view json.now
        → Obtains (λ _. map.new ≡ insert_entry K.cmp map.old k v) result }
    ensures in_range { IsMapOf K.cmp K.fits F.fits map.old
        → OnOk result (IsMapOf K.cmp K.fits F.fits map.new) }
{
    let key = K::read(alloc, name)?;
    let value = F::read(alloc, json)?;
    map.put(key, value)?;
    Ok(())
}

// A map in the order of its keys, seen as the list of its entries.
ghost use Rattle.std.specs.Prelude.{◌≡◌, ◌↔◌, [], IfOk, IsTrue, OnOk, OnErr, filter, is_some, length, not};
ghost use Rattle.std.specs.BTreeMap.{is_at, insert_entry};
ghost use Rattle.std.specs.List.Sorted.{IsStrictlySortedBy};
ghost use Rattle.std.specs.Map.{keys_of, lookup, remove_entry};
ghost use Rattle.std.specs.Option.{option_copied};
ghost use Rattle.std.specs.Borrow.{sem};
ghost use Rattle.jr_list.specs.Lending.{lends_entries};

use crate::DeepCopy;
use std::alloc::{AllocError, Global};
use std::collections::BTreeMap;
use std::collections::btree_map::Iter;
use std::default::Emptied;
use std::marker::Model;

/// A finite map in the order of its keys, which rise; contracts see the list of its entries.
pub struct Keyed<K: Ord, V> {
    map: BTreeMap<K, V>,
}

// By hand, so that its parts are let go in one call.
impl<K: Ord + Drop, V: Drop> Drop for Keyed<K, V> {
    fn drop(self) {
        let Keyed { map } = self;
        drop(map);
    }
}

impl<K: Ord, V> Model for Keyed<K, V> {
    ghost use Rattle.std.specs.Prelude.{List as Seq};

    ghost Value = { Seq (K × V) };

    ghost view = { λ m. m.map.entries };
}

impl<K: Ord, V> Keyed<K, V> {
    /// The empty map. It takes no memory.
    pub fn new(alloc: Global) -> Self
        ensures { result ≡ [] }
    {
        Keyed {
            map: BTreeMap::new(alloc),
        }
    }

    /// Takes over a map, without memory.
    pub fn of(map: BTreeMap<K, V>) -> Self
        ensures { result ≡ map.entries }
    {
        Keyed { map }
    }

    pub fn inner(&self) -> &BTreeMap<K, V>
        ensures { result.now.entries ≡ self.now }
    {
        &self.map
    }

    /// What is left in the map that is lent is what this map then has.
    pub fn inner_mut(&mut self) -> &mut BTreeMap<K, V>
        ensures* writes_back { sem 𝓛 (lends_entries K.row V.row K.Ord self.entry result) }
        ensures shows { result.now.entries ≡ self.old }
    {
        &mut self.map
    }

    /// Gives the map back, without memory.
    pub fn into_inner(self) -> BTreeMap<K, V>
        ensures { result.entries ≡ self }
    {
        let Keyed { map } = self;
        map
    }

    /// How many entries it has. Their keys rise.
    pub fn len(&self) -> usize
        ensures len { result ≡ length self.now }
        ensures ordered { IsStrictlySortedBy K.cmp (keys_of self.now) }
    {
        self.map.len()
    }

    pub fn is_empty(&self) -> bool
        ensures { IsTrue result ↔ (self.now ≡ []) }
    {
        self.map.is_empty()
    }

    /// The entries in the order of their keys.
    pub fn iter(&self) -> Iter<'_, K, V>
        ensures { result ≡ self.now }
    {
        self.map.iter()
    }
}

impl<K: Ord + Drop, V: Drop> Keyed<K, V> {
    pub fn get(&self, key: &K) -> Option<&V>
        ensures { option_copied result ≡ lookup (is_at (K.cmp key.now)) self.now }
    {
        self.map.get(key)
    }

    pub fn contains(&self, key: &K) -> bool
        ensures { result ≡ is_some (lookup (is_at (K.cmp key.now)) self.now) }
    {
        self.map.contains_key(key)
    }

    /// Puts a value at a key, in the place of one that is there.
    pub fn put(&mut self, key: K, value: V) -> Result<(), AllocError>
        ensures ok { OnOk result (self.new ≡ insert_entry K.cmp self.old key value) }
        ensures err { OnErr result (self.new ≡ self.old) }
    {
        self.map.insert(key, value)?;
        Ok(())
    }

    /// Drops what stands at a key, and keeps every other entry in order. It takes no memory.
    pub fn remove(&mut self, key: &K)
        ensures entries { self.new ≡ remove_entry (is_at (K.cmp key.now)) self.old }
        ensures others { self.new ≡ filter (λ e. not (is_at (K.cmp key.now) e.0)) self.old }
    {
        self.map.remove(key);
    }
}

impl<K: Ord + DeepCopy + Drop, V: DeepCopy + Drop> DeepCopy for Keyed<K, V> {
    fn copy(&self) -> Result<Keyed<K, V>, AllocError> {
        let mut map = BTreeMap::emptied(&self.map)?;
        for (key, value) in &self.map {
            map.insert(key.copy()?, value.copy()?)?;
        }
        Ok(Keyed { map })
    }
}

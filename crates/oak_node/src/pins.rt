// Pins, in the order of their owners.
ghost use Rattle.std.specs.Prelude.{◌≡◌, ◌<◌, ◌≤◌, MatchResult, OnOk, OnErr, IsOk, IsSome, length, set, insert, filter, fold};
ghost use Rattle.std.specs.BTreeMap.{is_at, insert_entry};
ghost use Rattle.std.specs.List.Sorted.{IsStrictlySortedBy};
ghost use Rattle.std.specs.Map.{lookup, keys_of, remove_entry};
ghost use Rattle.std.specs.Ordering.{nat_cmp, ord_min};
ghost use Rattle.jr_rev.specs.Revisions.{revision_cmp};
ghost use Rattle.jr_rev.specs.Vectors.{is_below, own_in, start_of};
ghost use Rattle.oak_node.specs.Pins.{IsPlaceOf, IsGapOf};

use jr_rev::{Pin, RevVec, Revision};
use std::alloc::AllocError;

// The owner's pin.
pub(crate) fn find(pins: &[(u32, Pin)], owner: u32) -> Option<Pin>
    requires { IsStrictlySortedBy nat_cmp (keys_of pins.now) }
    ensures { result ≡ lookup (is_at (nat_cmp owner)) pins.now }
{
    match place(pins, owner) {
        Ok(at) => Some(pins[at].1),
        Err(_) => None,
    }
}

// Puts the owner's pin in the place of one that it has, without memory, or else in a new place.
pub(crate) fn put(pins: &mut Vec<(u32, Pin)>, owner: u32, pin: &Pin) -> Result<(), AllocError>
    requires { IsStrictlySortedBy nat_cmp (keys_of pins.old.items) }
    ensures ok { OnOk result (pins.new.items ≡ insert_entry nat_cmp pins.old.items owner pin.now) }
    ensures err { OnErr result (pins.new.items ≡ pins.old.items) }
    ensures kept { IsSome (lookup (is_at (nat_cmp owner)) pins.old.items) → IsOk result }
{
    match place(pins, owner) {
        Ok(at) => {
            set_at(pins, at, owner, pin);
            Ok(())
        }
        Err(at) => insert_at(pins, at, owner, pin),
    }
}

// Puts the owner's pin in the place of the one that it has.
pub(crate) fn replace(pins: &mut Vec<(u32, Pin)>, owner: u32, pin: &Pin)
    requires ordered { IsStrictlySortedBy nat_cmp (keys_of pins.old.items) }
    requires there { IsSome (lookup (is_at (nat_cmp owner)) pins.old.items) }
    ensures { pins.new.items ≡ insert_entry nat_cmp pins.old.items owner pin.now }
{
    let Ok(at) = place(pins, owner) else {
        unreachable!();
    };
    set_at(pins, at, owner, pin);
}

// Drops the owner's pin, where it has one.
pub(crate) fn remove(pins: &mut Vec<(u32, Pin)>, owner: u32)
    requires { IsStrictlySortedBy nat_cmp (keys_of pins.old.items) }
    ensures { pins.new.items ≡ remove_entry (is_at (nat_cmp owner)) pins.old.items }
{
    if let Ok(at) = place(pins, owner) {
        pins.remove(at);
    }
}

// Puts the owner's pin in the place of what stands there.
fn set_at(pins: &mut Vec<(u32, Pin)>, at: usize, owner: u32, pin: &Pin)
    requires { at < length pins.old.items }
    ensures { pins.new.items ≡ set pins.old.items at (owner, pin.now) }
{
    pins[at] = (owner, *pin);
}

// Puts the owner's pin in a new place.
fn insert_at(pins: &mut Vec<(u32, Pin)>, at: usize, owner: u32, pin: &Pin) -> Result<(), AllocError>
    requires { at ≤ length pins.old.items }
    ensures ok { OnOk result (pins.new.items ≡ insert pins.old.items at (owner, pin.now)) }
    ensures err { OnErr result (pins.new.items ≡ pins.old.items) }
{
    pins.insert(at, (owner, *pin))?;
    Ok(())
}

// Where the owner's pin stands, or where it would go.
fn place(pins: &[(u32, Pin)], owner: u32) -> Result<usize, usize>
    requires { IsStrictlySortedBy nat_cmp (keys_of pins.now) }
    ensures { MatchResult result (IsPlaceOf pins.now owner) (IsGapOf pins.now owner) }
{
    pins.binary_search_by_key(&owner, |pin| pin.0)
}

// The earliest of an own entry of a cluster node, and of the revisions of that node that stand in
// the bases of the pins above a vector.
#[tactic(auto, using(crate::proofs::Changes::oldest_more))]
pub(crate) fn oldest(pins: &[(u32, Pin)], known: &RevVec, cluster: u32, own: Revision) -> Revision
    ensures { result ≡ fold (λ e pin. ord_min revision_cmp e (own_in cluster pin.1.base)) own
        (filter (λ pin. is_below known.now pin.1.base) pins.now) }
{
    let mut oldest = own;
    for (_, pin) in pins {
        if known.is_below(&pin.base) {
            oldest = oldest.min(own_in(cluster, &pin.base));
        }
    }
    oldest
}

// The revision of a cluster node that stands in a vector, or its start.
pub(crate) fn own_in(cluster: u32, vector: &RevVec) -> Revision
    ensures { result ≡ own_in cluster vector.now }
{
    match vector.get(cluster) {
        Some(own) => Revision {
            time: own.time,
            counter: own.counter,
            cluster,
        },
        None => start_of(cluster),
    }
}

// The revision at which a cluster node starts.
pub(crate) fn start_of(cluster: u32) -> Revision
    ensures { result ≡ start_of cluster }
{
    Revision {
        time: 0,
        counter: 0,
        cluster,
    }
}

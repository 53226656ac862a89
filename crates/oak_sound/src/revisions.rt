// The rule of revisions.
ghost use Rattle.std.specs.Prelude.{◌≡◌, ◌∷◌, [], true};
ghost use Rattle.std.specs.List.{flat_map, list_all};
ghost use Rattle.std.specs.Map.{keys_of};
ghost use Rattle.std.specs.Option.{option_map_or};
ghost use Rattle.jr_rev.specs.Vectors.{entry};
ghost use Rattle.oak_sound.specs.Sound.{first_breaking, is_drawable, keeps_revisions};
ghost use Rattle.oak_sound.specs.Sound.{keyed_revisions, other_revisions, eight, of_pin, of_vector};

use crate::committed::ById;
use jr_path::{Item, Keyed, Name};
use jr_rev::{Pin, RevVec, Revision};
use jr_value::Property;
use oak_doc::{Document, PrevEntry};

// The first document with a revision that such a repository doesn't draw.
pub(crate) fn first_with_others(documents: &ById, clusters: u32) -> Option<usize>
    ensures { result ≡ first_breaking (λ before e. keeps_revisions clusters e.1) [] documents.now }
{
    let _ = documents.len();
    for (at, (_, document)) in documents.iter().enumerate() {
        if !keeps_revisions(document, clusters) {
            return Some(at);
        }
    }
    None
}

fn keeps_revisions(document: &Document, clusters: u32) -> bool
    ensures { result ≡ keeps_revisions clusters document.now }
{
    keeps_kept(document, clusters) && keeps_named(document, clusters)
}

fn keeps_kept(document: &Document, clusters: u32) -> bool
    ensures { result ≡ list_all (is_drawable clusters) (keyed_revisions document.now) }
{
    are_drawable(&document.deleted, clusters)
        && are_drawable(&document.commit_root, clusters)
        && are_drawable(&document.revisions, clusters)
        && are_drawable(&document.touched, clusters)
        && are_drawable(&document.guard, clusters)
        && are_drawable_values(&document.props, clusters)
}

fn keeps_named(document: &Document, clusters: u32) -> bool
    ensures { result ≡ list_all (is_drawable clusters) (other_revisions document.now) }
{
    are_drawable_collisions(&document.collisions, clusters)
        && are_drawable_ranges(document.prev.as_slice(), clusters)
        && is_drawable_vector(&document.last_rev, clusters)
        && is_drawable_vector(&document.sweep_rev, clusters)
        && are_drawable_pins(&document.checkpoints, clusters)
        && are_drawable_pins(&document.readers, clusters)
}

fn is_drawable(r: Revision, clusters: u32) -> bool
    ensures { result ≡ is_drawable clusters r }
{
    r.counter == 0 && r.time < 1 << 62 && 1 <= r.cluster && r.cluster <= clusters
}

fn are_drawable<V>(entries: &Keyed<Revision, V>, clusters: u32) -> bool
    ensures { result ≡ list_all (is_drawable clusters) (keys_of entries.now) }
{
    for (r, _) in entries.iter() {
        if !is_drawable(*r, clusters) {
            return false;
        }
    }
    true
}

fn are_drawable_values(
    props: &Keyed<Name, Keyed<Revision, Option<Property>>>,
    clusters: u32,
) -> bool
    ensures { result ≡ list_all (is_drawable clusters) (flat_map (λ p. keys_of p.1) props.now) }
{
    for (_, values) in props.iter() {
        if !are_drawable(values, clusters) {
            return false;
        }
    }
    true
}

fn are_drawable_collisions(collisions: &Keyed<Revision, (Revision, Item)>, clusters: u32) -> bool
    ensures { result ≡ list_all (is_drawable clusters)
        (flat_map (λ e. e.0 ∷ e.1.0 ∷ []) collisions.now) }
{
    for (r, (other, _)) in collisions.iter() {
        if !(is_drawable(*r, clusters) && is_drawable(*other, clusters)) {
            return false;
        }
    }
    true
}

fn are_drawable_ranges(listed: &[PrevEntry], clusters: u32) -> bool
    ensures { result ≡ list_all (is_drawable clusters)
        (flat_map (λ e. e.high ∷ e.low ∷ []) listed.now) }
{
    for entry in listed {
        if !(is_drawable(entry.high, clusters) && is_drawable(entry.low, clusters)) {
            return false;
        }
    }
    true
}

fn is_drawable_vector(vector: &RevVec, clusters: u32) -> bool
    ensures { result ≡ list_all (is_drawable clusters) (of_vector vector.now) }
{
    are_drawable_entries(vector, clusters)
}

fn are_drawable_entries(vector: &RevVec, clusters: u32) -> bool
    ensures { result ≡ list_all
        (λ k. option_map_or (is_drawable clusters) (entry vector.now k) true) eight }
{
    [1, 2, 3, 4, 5, 6, 7, 8]
        .iter()
        .all(|k| is_drawable_at(vector, clusters, *k))
}

// Whether there is no entry of a cluster node, or it is drawable.
fn is_drawable_at(vector: &RevVec, clusters: u32, k: u32) -> bool
    ensures { result ≡ option_map_or (is_drawable clusters) (entry vector.now k) true }
{
    match vector.get(k) {
        Some(r) => is_drawable(r, clusters),
        None => true,
    }
}

fn is_drawable_pin(pin: &Pin, clusters: u32) -> bool
    ensures { result ≡ list_all (is_drawable clusters) (of_pin pin.now) }
{
    is_drawable_vector(&pin.base, clusters) && is_drawable_vector(&pin.sweep, clusters)
}

fn are_drawable_pins<K: Ord>(pins: &Keyed<K, Pin>, clusters: u32) -> bool
    ensures { result ≡ list_all (is_drawable clusters) (flat_map (λ e. of_pin e.1) pins.now) }
{
    for (_, pin) in pins.iter() {
        if !is_drawable_pin(pin, clusters) {
            return false;
        }
    }
    true
}

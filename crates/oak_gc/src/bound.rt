// The bound of a collection: the least of all pairs that were read.
ghost use Rattle.std.specs.Prelude.{◌≡◌, fold};
ghost use Rattle.std.specs.Map.{values_of};
ghost use Rattle.jr_rev.specs.declared.vector.Pin.{Pin};
ghost use Rattle.oak_gc.specs.Bounds.{kept_pairs, lesser_pair, root_pair};
ghost use Rattle.oak_gc.specs.Collecting.{no_pair};

use jr_path::Keyed;
use jr_rev::{Pin, RevVec};
use oak_doc::Document;

// The pair that sees nothing.
pub(crate) fn no_pair() -> Pin
    ensures { result ≡ no_pair }
{
    Pin {
        base: RevVec::none(),
        sweep: RevVec::none(),
    }
}

// What the root has published, and how far it was swept.
pub(crate) fn root_pair(root: &Document) -> Pin
    ensures { result ≡ root_pair root.now }
{
    Pin {
        base: root.last_rev,
        sweep: root.sweep_rev,
    }
}

// The lesser of two pairs, in both vectors.
pub(crate) fn lesser_pair(a: &Pin, b: &Pin) -> Pin
    ensures { result ≡ lesser_pair a.now b.now }
{
    Pin {
        base: a.base.min_with(&b.base),
        sweep: a.sweep.min_with(&b.sweep),
    }
}

// The least of a pair and some others.
pub(crate) fn least_of(bound: Pin, pins: &[Pin]) -> Pin
    ensures { result ≡ fold lesser_pair bound pins.now }
{
    let mut least = bound;
    for pin in pins {
        least = lesser_pair(&least, pin);
    }
    least
}

// The least of a pair and those that the settings keep.
pub(crate) fn least_kept(bound: Pin, settings: &Document) -> Pin
    ensures { result ≡ fold lesser_pair bound (kept_pairs settings.now) }
{
    least_value(least_value(bound, &settings.checkpoints), &settings.readers)
}

// The least of a pair and the values of a map.
fn least_value<K: Ord>(bound: Pin, pins: &Keyed<K, Pin>) -> Pin
    ensures { result ≡ fold lesser_pair bound (values_of pins.now) }
{
    let mut least = bound;
    for (_, pin) in pins.iter() {
        least = lesser_pair(&least, pin);
    }
    least
}

// The revisions that a cluster node drew above its head's own entry.
ghost use Rattle.std.specs.Prelude.{◌≡◌, ◌∷◌, ◌++◌, [], false, filter, OnErr, OnOk};
ghost use Rattle.std.specs.List.Sorted.{IsStrictlySortedBy};
ghost use Rattle.jr_rev.specs.Revisions.{revision_cmp, is_before};
ghost use Rattle.oak_node.specs.Memory.{revisions_in};
ghost use Rattle.oak_node.specs.Heads.{with_end, local_from, last_drawn};

use jr_rev::Revision;
use std::alloc::AllocError;

/// A revision that a cluster node drew, and whether it has ended.
#[derive(Clone, Copy, PartialEq, Eq)]
pub struct Drawn {
    pub revision: Revision,
    pub ended: bool,
}

// Puts a revision behind those drawn before, in flight.
pub(crate) fn put_in_flight(drawn: &mut Vec<Drawn>, revision: Revision) -> Result<(), AllocError>
    ensures ok { OnOk result
        (drawn.new.items ≡ drawn.old.items ++ record { revision = revision; ended = false } ∷ []) }
    ensures err { OnErr result (drawn.new.items ≡ drawn.old.items) }
{
    drawn.push(Drawn {
        revision,
        ended: false,
    })?;
    Ok(())
}

// Ends a revision, gives the head's own entry from then on, and keeps what is above it.
pub(crate) fn settle(drawn: &mut Vec<Drawn>, own: Revision, r: Revision) -> Revision
    requires { IsStrictlySortedBy revision_cmp (own ∷ revisions_in drawn.old.items) }
    ensures local { result ≡ local_from own (with_end drawn.old.items r) }
    ensures rest { drawn.new.items
        ≡ filter (λ d. is_before result d.revision) (with_end drawn.old.items r) }
{
    end(drawn.as_mut_slice(), r);
    let local = local(own, drawn.as_slice());
    drawn.retain(|d| local < d.revision);
    local
}

// Ends a revision.
fn end(drawn: &mut [Drawn], r: Revision)
    ensures { drawn.new ≡ with_end drawn.old r }
{
    for d in drawn.iter_mut() {
        if d.revision == r {
            d.ended = true;
        }
    }
}

// The greatest of `own` and of the drawn revisions that is below every one in flight. They rise
// from `own` on, so it is the last before the first one in flight.
fn local(own: Revision, drawn: &[Drawn]) -> Revision
    requires { IsStrictlySortedBy revision_cmp (own ∷ revisions_in drawn.now) }
    ensures { result ≡ local_from own drawn.now }
{
    let mut local = own;
    for d in drawn {
        if !d.ended {
            break;
        }
        local = d.revision;
    }
    local
}

// The last of the drawn revisions, or else `own`.
pub(crate) fn last(own: Revision, drawn: &[Drawn]) -> Revision
    ensures { result ≡ last_drawn own drawn.now }
{
    match drawn.last() {
        Some(last) => last.revision,
        None => own,
    }
}

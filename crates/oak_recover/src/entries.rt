// The revisions of a cluster node in the entries of a document.
ghost use Rattle.std.specs.Prelude.{◌≡◌, ◌&&◌, ◌==◌, IfOk, OnOk, map};
ghost use Rattle.std.specs.List.{fold};
ghost use Rattle.std.specs.Map.{keys_of};
ghost use Rattle.oak_recover.specs.Dead.{is_after, revisions_after, with_after, with_each};

use jr_path::{Keyed, Name};
use jr_rev::Revision;
use jr_value::Property;
use oak_doc::Document;
use std::alloc::{AllocError, Global};

// The revisions of a cluster node behind one of them.
#[derive(Clone, Copy)]
pub(crate) struct After {
    pub(crate) cluster: u32,
    pub(crate) last: Revision,
}

// Those in the entries of a document, each once, but for its collisions.
pub(crate) fn revisions_after(
    alloc: Global,
    after: After,
    document: &Document,
) -> Result<Keyed<Revision, ()>, AllocError>
    ensures { IfOk result (λ revisions. revisions ≡ revisions_after after.cluster after.last document.now) }
{
    let mut revisions = Keyed::new(alloc);
    put_entries(after, &document.deleted, &mut revisions)?;
    put_statuses(after, document, &mut revisions)?;
    put_marks(after, document, &mut revisions)?;
    put_values(after, &document.props, &mut revisions)?;
    Ok(revisions)
}

// Puts those of the notes of commit roots and of the statuses.
fn put_statuses(
    after: After,
    document: &Document,
    revisions: &mut Keyed<Revision, ()>,
) -> Result<(), AllocError>
    ensures { OnOk result (revisions.new ≡ with_each after.cluster after.last
        (with_each after.cluster after.last revisions.old (keys_of document.now.commit_root)) (keys_of document.now.revisions)) }
{
    put_entries(after, &document.commit_root, revisions)?;
    put_entries(after, &document.revisions, revisions)
}

// Puts those of the marks.
fn put_marks(
    after: After,
    document: &Document,
    revisions: &mut Keyed<Revision, ()>,
) -> Result<(), AllocError>
    ensures { OnOk result (revisions.new ≡ with_each after.cluster after.last
        (with_each after.cluster after.last revisions.old (keys_of document.now.touched)) (keys_of document.now.guard)) }
{
    put_entries(after, &document.touched, revisions)?;
    put_entries(after, &document.guard, revisions)
}

// Puts those of the properties.
fn put_values(
    after: After,
    props: &Keyed<Name, Keyed<Revision, Option<Property>>>,
    revisions: &mut Keyed<Revision, ()>,
) -> Result<(), AllocError>
    ensures { OnOk result (revisions.new ≡ fold (with_each after.cluster after.last) revisions.old
        (map (λ p. keys_of p.1) props.now)) }
{
    for (_, values) in props.iter() {
        put_entries(after, values, revisions)?;
    }
    Ok(())
}

// Puts those of some entries.
fn put_entries<V>(
    after: After,
    entries: &Keyed<Revision, V>,
    revisions: &mut Keyed<Revision, ()>,
) -> Result<(), AllocError>
    ensures { OnOk result (revisions.new ≡ with_each after.cluster after.last revisions.old (keys_of entries.now)) }
{
    for (r, _) in entries.iter() {
        put_after(after, *r, revisions)?;
    }
    Ok(())
}

// Puts a revision, where it is one of them.
fn put_after(
    after: After,
    r: Revision,
    revisions: &mut Keyed<Revision, ()>,
) -> Result<(), AllocError>
    ensures { OnOk result (revisions.new ≡ with_after after.cluster after.last revisions.old r) }
{
    if after.has(r) {
        return revisions.put(r, ());
    }
    Ok(())
}

impl After {
    // Whether a revision is one of them.
    fn has(self, r: Revision) -> bool
        ensures { result ≡ is_after self.cluster self.last r }
    {
        r.cluster == self.cluster && self.last < r
    }
}

// What a recovery knows of the document that it read last.
ghost use Rattle.std.specs.Prelude.{◌≡◌, IfOk, OnOk, map, not};
ghost use Rattle.std.specs.List.{filter, fold};
ghost use Rattle.std.specs.Map.{keys_of};
ghost use Rattle.std.specs.Option.{option_copied};
ghost use Rattle.jr_rev.specs.Vectors.{sees};
ghost use Rattle.oak_recover.specs.Reading.{root_answered, doubts_in, is_confirmed, unread_document, read_of, roots_of, with_doubt, with_later, with_other, without_doubt};

use crate::entries::{After, revisions_after};
use jr_path::{DeepCopy, DocId, Keyed};
use jr_rev::{RevVec, Revision};
use oak_doc::Document;
use oak_read::commit_root_of;
use std::alloc::{AllocError, Global};

// A document, and what is known of the stopped node's revisions there.
pub(crate) struct Reading {
    pub(crate) at: DocId,
    // The revisions that aren't known to be committed, each with its commit root. Once all of these were asked, they
    // are dead.
    pub(crate) doubts: Keyed<Revision, DocId>,
    // The greatest of those that are committed.
    pub(crate) committed: Option<Revision>,
    // The commit root that is asked, and those that are left to be asked.
    pub(crate) asked: DocId,
    pub(crate) left: Keyed<DocId, ()>,
}

// By hand, so that its parts are let go in one call.
impl Drop for Reading {
    fn drop(self) {
        let Reading {
            at,
            doubts,
            committed: _,
            asked,
            left,
        } = self;
        drop(at);
        drop(doubts);
        drop(asked);
        drop(left);
    }
}

impl Reading {
    // What is known before a document is read. It takes no memory.
    pub(crate) fn nothing(alloc: Global) -> Reading
        ensures { result ≡ unread_document }
    {
        Reading {
            at: DocId::Settings,
            doubts: Keyed::new(alloc),
            committed: None,
            asked: DocId::Settings,
            left: Keyed::new(alloc),
        }
    }

    // What is known of a document before any other is asked.
    pub(crate) fn of(
        alloc: Global,
        sweep: &RevVec,
        after: After,
        document: &Document,
    ) -> Result<Reading, AllocError>
        ensures { IfOk result (λ reading. reading ≡ read_of sweep.now after.cluster after.last document.now) }
    {
        let revisions = revisions_after(alloc, after, document)?;
        let mut reading = Reading {
            at: document.id.copy()?,
            doubts: doubts_in(alloc, sweep, document, &revisions)?,
            committed: swept_in(sweep, &revisions),
            asked: DocId::Settings,
            left: Keyed::new(alloc),
        };
        reading.answer(&document.id, Some(document));
        reading.left = roots_of(alloc, &document.id, &reading.doubts)?;
        Ok(reading)
    }

    // A commit root, or none, was found: whatever it has is committed.
    pub(crate) fn answer(&mut self, root: &DocId, found: Option<&Document>)
        ensures { self.new ≡ root_answered self.old root.now (option_copied found.entry) }
    {
        self.committed = confirmed_in(root, found, &self.doubts, self.committed);
        self.doubts
            .inner_mut()
            .retain(|r, own| !is_confirmed(root, found, r, own));
    }

    // The commit root that is asked was found, or there is none.
    pub(crate) fn answer_asked(&mut self, found: Option<&Document>)
        ensures { self.new ≡ root_answered self.old self.old.asked (option_copied found.entry) }
    {
        let root = std::mem::replace(&mut self.asked, DocId::Settings);
        self.answer(&root, found);
        self.asked = root;
    }

    // A dead revision is undone.
    pub(crate) fn drop_doubt(&mut self, r: Revision)
        ensures { self.new ≡ without_doubt self.old r }
    {
        self.doubts.remove(&r);
    }
}

// Whether this is the commit root of a revision, and has it.
fn is_confirmed(root: &DocId, found: Option<&Document>, r: &Revision, own: &DocId) -> bool
    ensures { result ≡ is_confirmed root.now (option_copied found.entry) (r.now, own.now) }
{
    match found {
        Some(document) => own == root && document.revisions.contains(r),
        None => false,
    }
}

// The greatest of a revision and of those of which this is the commit root, and has them.
fn confirmed_in(
    root: &DocId,
    found: Option<&Document>,
    doubts: &Keyed<Revision, DocId>,
    committed: Option<Revision>,
) -> Option<Revision>
    ensures { result ≡ fold with_later committed (keys_of (filter (is_confirmed root.now (option_copied found.entry)) doubts.now)) }
{
    let mut latest = committed;
    for (r, own) in doubts.iter() {
        if is_confirmed(root, found, r, own) {
            latest = later(latest, *r);
        }
    }
    latest
}

// The later of two revisions, where there are two.
fn later(latest: Option<Revision>, r: Revision) -> Option<Revision>
    ensures { result ≡ with_later latest r }
{
    match latest {
        Some(found) => { if found < r { Some(r) } else { Some(found) } }
        None => Some(r),
    }
}

// The greatest of some revisions that the sweep vector sees.
fn swept_in(sweep: &RevVec, revisions: &Keyed<Revision, ()>) -> Option<Revision>
    ensures { result ≡ fold with_later None (filter (sees sweep.now) (keys_of revisions.now)) }
{
    let mut latest = None;
    for (r, _) in revisions.iter() {
        if sweep.sees(*r) {
            latest = later(latest, *r);
        }
    }
    latest
}

// The others, each with its commit root as the document tells it.
fn doubts_in(
    alloc: Global,
    sweep: &RevVec,
    document: &Document,
    revisions: &Keyed<Revision, ()>,
) -> Result<Keyed<Revision, DocId>, AllocError>
    ensures { IfOk result (λ doubts. doubts ≡ doubts_in sweep.now document.now (keys_of revisions.now)) }
{
    let mut doubts = Keyed::new(alloc);
    for (r, _) in revisions.iter() {
        if !sweep.sees(*r) {
            doubts.put(*r, commit_root_of(alloc, document, *r)?)?;
        }
    }
    Ok(doubts)
}

// The commit roots, each once, in store order, but for the document itself.
fn roots_of(
    alloc: Global,
    own: &DocId,
    doubts: &Keyed<Revision, DocId>,
) -> Result<Keyed<DocId, ()>, AllocError>
    ensures { IfOk result (λ roots. roots ≡ roots_of own.now doubts.now) }
{
    let mut roots = Keyed::new(alloc);
    for (_, root) in doubts.iter() {
        put_other(own, root, &mut roots)?;
    }
    Ok(roots)
}

// Puts an id, but for that of the document itself.
fn put_other(own: &DocId, root: &DocId, roots: &mut Keyed<DocId, ()>) -> Result<(), AllocError>
    ensures { OnOk result (roots.new ≡ with_other own.now roots.old root.now) }
{
    if root == own {
        return Ok(());
    }
    roots.put(root.copy()?, ())
}

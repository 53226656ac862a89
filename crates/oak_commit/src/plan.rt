// What a commit is to do, and what of it is computed once.
ghost use Rattle.std.specs.Prelude.{◌≡◌, IfOk, map};
ghost use Rattle.std.specs.Option.{option_copied};
ghost use Rattle.jr_path.specs.Ids.{names_of};
ghost use Rattle.oak_clash.specs.Clashes.{marks_at};
ghost use Rattle.oak_commit.specs.Clashing.{found};
ghost use Rattle.oak_commit.specs.Meeting.{due_in, dues_in, met_in};
ghost use Rattle.oak_commit.specs.Places.{IsComputed};
ghost use Rattle.oak_commit.specs.Writing.{last_op, write_op, written_ids};

use crate::met::{Due, met_in};
use crate::ops::{last_op, put_entries_at, put_markings_of, put_rooting, written_ids};
use crate::places::{Places, marks_here, places_of_marks, places_of_writes};
use jr_path::{DeepCopy, DocId, List, Path};
use jr_rev::{RevVec, Revision};
use jr_tree::Edit;
use oak_clash::{Mark, MarkAt, commit_root};
use oak_doc::{Document, UpdateOp};
use std::alloc::{AllocError, Global};
use std::marker::Model;

// An edit with its marks; contracts see these two.
pub(crate) struct Plan {
    alloc: Global,
    edit: Edit,
    marks: List<MarkAt>,
    ids: List<DocId>,
    root: Path,
    writes: Places,
    marked: Places,
}

// By hand, so that its parts are let go in one call.
impl Drop for Plan {
    fn drop(self) {
        let Plan {
            alloc: _,
            edit,
            marks,
            ids,
            root,
            writes,
            marked,
        } = self;
        drop(edit);
        drop(marks);
        drop(ids);
        drop(root);
        drop(writes);
        drop(marked);
    }
}

impl Model for Plan {
    ghost use Rattle.oak_commit.specs.Places.{IsComputed, Planned};

    ghost Value = { Planned };

    ghost view = { λ p. record { edit = p.edit; marks = p.marks } };

    ghost invariant = { λ p. IsComputed p.edit p.marks p.ids p.root p.writes p.marked };
}

impl Plan {
    pub(crate) fn of(alloc: Global, edit: Edit, marks: List<MarkAt>) -> Result<Plan, AllocError>
        ensures { IfOk result (λ plan. plan ≡ record { edit = edit; marks = marks }) }
    {
        let (ids, root, writes, marked) = computed(alloc, &edit, &marks)?;
        Ok(Plan {
            alloc,
            edit,
            marks,
            ids,
            root,
            writes,
            marked,
        })
    }

    // The ids of its documents, in store order.
    pub(crate) fn ids(&self) -> &[DocId]
        ensures { result.now ≡ written_ids self.now.marks }
    {
        self.ids.as_slice()
    }

    // The write of the document of an id.
    pub(crate) fn write(&self, r: Revision, id: &DocId) -> Result<UpdateOp, AllocError>
        ensures { IfOk result (λ op. op ≡ write_op r self.now.edit.writes self.now.marks (names_of id.now)) }
    {
        match id {
            DocId::Node(path) | DocId::Prev(_, path) => self.write_at(r, path),
            DocId::Settings => self.write_at(r, &Path::root(self.alloc)),
        }
    }

    fn write_at(&self, r: Revision, path: &Path) -> Result<UpdateOp, AllocError>
        ensures { IfOk result (λ op. op ≡ write_op r self.now.edit.writes self.now.marks path.now) }
    {
        let mut changes = List::new(self.alloc);
        put_entries_at(
            &mut changes,
            r,
            path,
            self.edit.writes.as_slice(),
            &self.writes,
        )?;
        put_rooting(&mut changes, r, path, &self.root)?;
        let mine = self.marks_at(path)?;
        put_markings_of(&mut changes, r, mine.as_slice())?;
        Ok(UpdateOp {
            id: DocId::Node(path.copy()?),
            create: true,
            cond: None,
            changes,
        })
    }

    // The last write.
    pub(crate) fn last(&self, r: Revision) -> Result<UpdateOp, AllocError>
        ensures { IfOk result (λ op. op ≡ last_op r self.now.marks) }
    {
        last_op(self.alloc, r, self.marks.as_slice(), &self.root)
    }

    // What a revision, by its base, finds in the document of an id as it was before its write.
    pub(crate) fn found(
        &self,
        base: &RevVec,
        r: Revision,
        id: &DocId,
        before: Option<&Document>,
    ) -> Result<Vec<Due>, AllocError>
        ensures { IfOk result (λ dues. dues.items ≡ dues_in (option_copied before.entry)
            (found base.now r (names_of id.now) self.now.marks (option_copied before.entry))) }
    {
        let Some(document) = before else {
            return Ok(Vec::new(self.alloc));
        };
        match id {
            DocId::Node(path) | DocId::Prev(_, path) => self.found_at(base, r, path, document),
            DocId::Settings => self.found_at(base, r, &Path::root(self.alloc), document),
        }
    }

    fn found_at(
        &self,
        base: &RevVec,
        r: Revision,
        path: &Path,
        document: &Document,
    ) -> Result<Vec<Due>, AllocError>
        ensures { IfOk result (λ dues. dues.items ≡ map (due_in document.now)
            (met_in base.now r path.now (marks_at path.now self.now.marks) document.now)) }
    {
        let mine = self.marks_at(path)?;
        met_in(self.alloc, base, r, path, mine.as_slice(), document)
    }

    // The marks at a path.
    fn marks_at(&self, path: &Path) -> Result<Vec<Mark>, AllocError>
        ensures { IfOk result (λ marks. marks.items ≡ marks_at path.now self.now.marks) }
    {
        marks_here(self.alloc, path, self.marks.as_slice(), &self.marked)
    }
}

// What is computed once of a commit: the ids of its documents, its commit root, and where its writes and its marks
// stand.
fn computed(
    alloc: Global,
    edit: &Edit,
    marks: &List<MarkAt>,
) -> Result<(List<DocId>, Path, Places, Places), AllocError>
    ensures { IfOk result (λ c. IsComputed edit.now marks.now c.0 c.1 c.2 c.3) }
{
    let ids = written_ids(alloc, marks.as_slice())?;
    let root = commit_root(alloc, marks.as_slice())?;
    let writes = places_of_writes(alloc, edit.writes.as_slice())?;
    let marked = places_of_marks(alloc, marks.as_slice())?;
    Ok((ids, root, writes, marked))
}

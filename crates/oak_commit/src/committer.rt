// The committing automaton.
ghost use Rattle.std.specs.Prelude.{◌≡◌, [], IfOk, IsTrue, None, OnErr, OnOk, Some, false, length, slice_get};
ghost use Rattle.std.specs.Option.{option_copied, option_map};
ghost use Rattle.jr_path.specs.Ids.{names_of};
ghost use Rattle.oak_commit.specs.Clashing.{mark_op};
ghost use Rattle.oak_commit.specs.Committing.{advanced, asks_undo, begun, blocked, due_of, end_due, ended_by, fed, fed_end, fed_going, fed_look, fed_undoing, fed_update, is_past, look_due, looks_at, mark_due, refused, undo_due, undo_id, wanting, with_undone, without_memory, written_by, written_paths};
ghost use Rattle.oak_commit.specs.Kept.{SettlesLook};
ghost use Rattle.oak_commit.specs.Stages.{end_stage, going_stage, stage_of, undo_stage, update_stage};
ghost use Rattle.oak_doc.specs.declared.asks.Ask.TheVariants as ask;

use crate::look::{Look, Looked, look_before};
use crate::met::Due;
use crate::ops::mark_op;
use crate::plan::Plan;
use crate::{CommitEnd, Stage};
use jr_path::{DeepCopy, DocId, Item, List};
use jr_rev::{RevVec, Revision};
use jr_tree::Edit;
use oak_clash::MarkAt;
use oak_doc::{Ask, Document, Kept, MemoryAsk, Reply, UpdateOp};
use std::alloc::{AllocError, Global};
use std::marker::Model;

/// Commits an edit with its marks as a revision, one document at a time (Oak, DocumentNodeStore: commit). It writes
/// each marked node's document, in store order, and looks at the document as it was before, and at the previous
/// documents that it listed then, for which it asks one after another: each other revision that its base doesn't see,
/// and that has a clashing mark there, gets a note of the collision on its own commit root, unless it is committed there.
/// The last write, on the commit root, is the commit point. Where the other is committed, or where somebody noted a
/// collision with this revision before its last write, it is refused; then, or where memory is refused before the commit
/// point, it undoes what it wrote. It ends in its node's memory.
pub struct Committer {
    alloc: Global,
    revision: Revision,
    base: RevVec,
    plan: Plan,
    // How many documents are written.
    written: usize,
    // How many of these are undone.
    undone: usize,
    // The marks to make before anything else is written.
    due: Vec<Due>,
    // The document that was written last, as it was before, while previous documents of it are looked at.
    looking: Option<Look>,
    // How it ends, once that is settled.
    outcome: Option<CommitEnd>,
    // Whether the node's memory has ended it.
    ended: bool,
}

// By hand, so that its parts are let go in one call.
impl Drop for Committer {
    fn drop(self) {
        let Committer {
            alloc: _,
            revision: _,
            base: _,
            plan,
            written: _,
            undone: _,
            due,
            looking,
            outcome,
            ended: _,
        } = self;
        drop(plan);
        drop(due);
        drop(looking);
        drop(outcome);
    }
}

impl Model for Committer {
    ghost use Rattle.std.specs.Prelude.{◌≤◌, length};
    ghost use Rattle.oak_commit.specs.Committing.{Committing, written_paths};
    ghost use Rattle.oak_commit.specs.Kept.{shown};

    ghost Value = { Committing };

    ghost view = { λ c. shown c.revision c.base c.plan c.written c.undone c.due.items c.looking c.outcome c.ended };

    ghost invariant = { λ c. (c.undone ≤ c.written) × (c.written ≤ length (written_paths c.plan.marks)) };
}

impl Committer {
    /// Begins the commit of a revision that is drawn, with its base. What undoing takes of memory is taken here.
    pub fn new(
        alloc: Global,
        r: Revision,
        base: &RevVec,
        edit: Edit,
        marks: List<MarkAt>,
    ) -> Result<Committer, AllocError>
        ensures { IfOk result (λ committer. committer ≡ begun r base.now edit marks) }
    {
        Ok(Committer {
            alloc,
            revision: r,
            base: *base,
            plan: Plan::of(alloc, edit, marks)?,
            written: 0,
            undone: 0,
            due: Vec::new(alloc),
            looking: None,
            outcome: None,
            ended: false,
        })
    }

    /// Which kind of operation is due.
    pub fn stage(&self) -> Stage
        ensures { result ≡ stage_of self.now }
    {
        match &self.outcome {
            None => self.going_stage(),
            Some(CommitEnd::Committed(_)) => self.end_stage(),
            Some(CommitEnd::Clash { .. } | CommitEnd::Memory) => self.undo_stage(),
        }
    }

    /// Its revision.
    pub fn revision(&self) -> Revision
        ensures { result ≡ self.now.revision }
    {
        self.revision
    }

    /// How many documents it writes.
    pub fn documents(&self) -> usize
        ensures { result ≡ length (written_paths self.now.marks) }
    {
        self.plan.ids().len()
    }

    /// Lends its own item of the mark that is due, if one is.
    pub fn due_item(&self) -> Option<&Item>
        ensures { option_copied result ≡ option_map (λ f. f.mine) (slice_get self.now.writer.due 0) }
    {
        match self.due.first() {
            Some(due) => Some(&due.mine),
            None => None,
        }
    }

    /// The other revision of the mark that is due, if one is.
    pub fn due_other(&self) -> Option<Revision>
        ensures { result ≡ option_map (λ f. f.other) (slice_get self.now.writer.due 0) }
    {
        match self.due.first() {
            Some(due) => Some(due.other),
            None => None,
        }
    }

    /// The one operation that is due, or Done. Past the commit point and while it undoes, this takes no memory.
    pub fn next(&self) -> Result<Ask, AllocError>
        ensures ask { IfOk result (λ ask. ask ≡ due_of self.now) }
        ensures going { OnErr result (self.now.outcome ≡ None) }
    {
        match &self.outcome {
            None => self.going_due(),
            Some(CommitEnd::Committed(_)) => Ok(self.end_due()),
            Some(CommitEnd::Clash { .. } | CommitEnd::Memory) => Ok(self.undo_due()),
        }
    }

    /// Lends the id of the document to undo.
    pub fn undo_id(&self) -> &DocId
        requires { IsTrue (asks_undo (due_of self.now)) }
        ensures { undo_id self.now ≡ Some result.now }
    {
        &self.plan.ids()[self.undone]
    }

    /// Takes the reply to what is due. A reply of another kind, and one to Done, changes nothing. Memory is refused only
    /// for what is found in a document that was just written, or in a previous one: then the document counts as written,
    /// since it is to be undone, and the committer undoes for want of memory.
    pub fn feed(&mut self, reply: Reply) -> Result<(), AllocError>
        ensures ok { OnOk result (self.new ≡ fed self.old reply) }
        ensures err { OnErr result (self.new ≡ wanting (fed self.old reply)) }
        ensures only { OnErr result (IsTrue (looks_at self.old reply)) }
    {
        match &self.outcome {
            None => self.feed_going(reply),
            Some(CommitEnd::Committed(_)) => {
                self.feed_end(reply);
                Ok(())
            }
            Some(CommitEnd::Clash { .. } | CommitEnd::Memory) => {
                self.feed_undoing(reply);
                Ok(())
            }
        }
    }

    /// Memory was refused for what was due: it turns to undoing.
    pub fn refuse_memory(&mut self)
        requires { is_past self.old.outcome ≡ false }
        ensures { self.new ≡ without_memory self.old }
    {
        if self.outcome.is_none() {
            self.want();
        }
    }

    /// How it ended.
    pub fn end(self) -> CommitEnd
        requires { due_of self ≡ ask.Done }
        ensures { self.outcome ≡ Some result }
    {
        let mut committer = self;
        let outcome = committer.outcome.take();
        drop(committer);
        match outcome {
            Some(end) => end,
            None => CommitEnd::Memory,
        }
    }

    // Which kind is due before the commit point, or at it.
    fn going_stage(&self) -> Stage
        ensures { result ≡ going_stage self.now }
    {
        match &self.looking {
            Some(_) => Stage::Look,
            None => self.update_stage(),
        }
    }

    // Which kind of update is due before the commit point, or at it.
    fn update_stage(&self) -> Stage
        ensures { result ≡ update_stage self.now }
    {
        if !self.due.is_empty() {
            return Stage::Mark;
        }
        if self.written < self.plan.ids().len() {
            Stage::Write
        } else {
            Stage::Last
        }
    }

    // Which kind is due behind all updates.
    fn end_stage(&self) -> Stage
        ensures { result ≡ end_stage self.now }
    {
        if self.ended {
            Stage::Done
        } else {
            Stage::Finish
        }
    }

    // Which kind is due while it undoes.
    fn undo_stage(&self) -> Stage
        ensures { result ≡ undo_stage self.now }
    {
        if self.undone < self.written {
            Stage::Undo
        } else {
            self.end_stage()
        }
    }

    // What is due before the commit point, or at it.
    fn going_due(&self) -> Result<Ask, AllocError>
        ensures { IfOk result (λ ask. ask ≡ look_due self.now self.now.looking) }
    {
        match &self.looking {
            Some(look) => Ok(Ask::Find(look.first.copy()?)),
            None => Ok(Ask::Update(self.update_due()?)),
        }
    }

    // The update that is due before the commit point, or the commit point.
    fn update_due(&self) -> Result<UpdateOp, AllocError>
        ensures { IfOk result (λ op. ask.Update op ≡ mark_due self.now self.now.writer.due) }
    {
        if let Some(due) = self.due.first() {
            return mark_op(self.alloc, &due.root, due.other, self.revision, &due.theirs);
        }
        match self.plan.ids().get(self.written) {
            Some(id) => self.plan.write(self.revision, id),
            None => self.plan.last(self.revision),
        }
    }

    // What is due behind all updates.
    fn end_due(&self) -> Ask
        ensures { result ≡ end_due self.now }
    {
        if self.ended {
            Ask::Done
        } else {
            Ask::Memory(MemoryAsk::Finish(self.revision))
        }
    }

    // What is due while it undoes.
    fn undo_due(&self) -> Ask
        ensures { result ≡ undo_due self.now self.now.writer.written }
    {
        if self.undone < self.written {
            Ask::Undo(self.revision)
        } else {
            self.end_due()
        }
    }

    // A reply before the commit point.
    fn feed_going(&mut self, reply: Reply) -> Result<(), AllocError>
        requires { self.old.outcome ≡ None }
        ensures ok { OnOk result (self.new ≡ fed_going self.old reply) }
        ensures err { OnErr result (self.new ≡ wanting (fed_going self.old reply)) }
        ensures only { OnErr result (IsTrue (looks_at self.old reply)) }
    {
        match self.looking.take() {
            Some(look) => self.feed_look(look, reply),
            None => self.feed_update(reply),
        }
    }

    // A reply to the question for a previous document, by how far the look was.
    fn feed_look(&mut self, look: Look, reply: Reply) -> Result<(), AllocError>
        requires going { self.old.outcome ≡ None }
        requires looked { self.old.looking ≡ None }
        ensures ok { OnOk result (self.new
            ≡ fed_look (record self.old { looking = Some look }) look reply) }
        ensures err { OnErr result (self.new
            ≡ wanting (fed_look (record self.old { looking = Some look }) look reply)) }
        ensures only { OnErr result
            (IsTrue (looks_at (record self.old { looking = Some look }) reply)) }
    {
        match reply {
            Reply::Found(previous) => {
                let looked = look.go_on(
                    self.alloc,
                    &self.plan,
                    &self.base,
                    self.revision,
                    previous,
                );
                self.settle(looked)
            }
            other => {
                drop(other);
                drop(self.looking.replace(look));
                Ok(())
            }
        }
    }

    // How far a look is now.
    fn settle(&mut self, looked: Result<Looked, AllocError>) -> Result<(), AllocError>
        ensures { SettlesLook looked self.old self.new result }
    {
        match looked {
            Ok(Looked::Met(due)) => {
                self.due = due.into_inner();
                Ok(())
            }
            Ok(Looked::More(look)) => {
                drop(self.looking.replace(look));
                Ok(())
            }
            Err(error) => {
                self.want();
                Err(error)
            }
        }
    }

    // A reply to an update.
    fn feed_update(&mut self, reply: Reply) -> Result<(), AllocError>
        requires going { self.old.outcome ≡ None }
        requires looked { self.old.looking ≡ None }
        ensures ok { OnOk result (self.new ≡ fed_update self.old reply) }
        ensures err { OnErr result (self.new ≡ wanting (fed_update self.old reply)) }
        ensures only { OnErr result (IsTrue (looks_at self.old reply)) }
    {
        match reply {
            Reply::Updated(before) => self.advance(before),
            Reply::Unmet(_, kept) => {
                self.block(kept);
                Ok(())
            }
            Reply::NoMemory => {
                self.want();
                Ok(())
            }
            other => {
                drop(other);
                Ok(())
            }
        }
    }

    // The update that was due is made.
    fn advance(&mut self, before: Option<Document>) -> Result<(), AllocError>
        requires going { self.old.outcome ≡ None }
        requires looked { self.old.looking ≡ None }
        ensures ok { OnOk result (self.new ≡ advanced self.old before) }
        ensures err { OnErr result (self.new ≡ wanting (advanced self.old before)) }
        ensures only { OnErr result (IsTrue (looks_at self.old (Reply.Updated before))) }
    {
        if !self.due.is_empty() {
            self.due.remove(0);
            drop(before);
            return Ok(());
        }
        self.go_on(before)
    }

    // A document is written, or the last write is made.
    fn go_on(&mut self, before: Option<Document>) -> Result<(), AllocError>
        requires going { self.old.outcome ≡ None }
        requires looked { self.old.looking ≡ None }
        requires marked { self.old.writer.due ≡ [] }
        ensures ok { OnOk result (self.new ≡ written_by self.old self.old.writer.left before) }
        ensures err { OnErr result (self.new
            ≡ wanting (written_by self.old self.old.writer.left before)) }
        ensures only { OnErr result (IsTrue (looks_at self.old (Reply.Updated before))) }
    {
        let Some(id) = self.plan.ids().get(self.written) else {
            self.outcome = Some(CommitEnd::Committed(self.revision));
            drop(before);
            return Ok(());
        };
        let looked = look_before(
            self.alloc,
            &self.plan,
            &self.base,
            self.revision,
            id,
            before,
        );
        self.written += 1;
        self.settle(looked)
    }

    // The condition of the update that was due is false.
    fn block(&mut self, kept: Kept)
        requires { self.old.outcome ≡ None }
        ensures { self.new ≡ blocked self.old kept }
    {
        if !self.due.is_empty() {
            let due = self.due.remove(0);
            self.refuse(due.mine, due.other);
            return;
        }
        if self.written < self.plan.ids().len() {
            return;
        }
        if let Kept::Entry(other, item) = kept {
            self.refuse(item, other);
        }
    }

    // Refused, with its own item and the other.
    fn refuse(&mut self, item: Item, other: Revision)
        requires { self.old.outcome ≡ None }
        ensures { self.new ≡ refused self.old item other }
    {
        self.due.clear();
        self.outcome = Some(CommitEnd::Clash { item, other });
    }

    // It undoes for want of memory.
    fn want(&mut self)
        ensures { self.new ≡ wanting self.old }
    {
        self.due.clear();
        drop(self.looking.take());
        drop(self.outcome.replace(CommitEnd::Memory));
    }

    // A reply while it undoes.
    fn feed_undoing(&mut self, reply: Reply)
        ensures { self.new ≡ fed_undoing self.old reply }
    {
        match reply {
            Reply::Undone => self.count_undone(),
            Reply::Finished => self.end_undone(),
            other => drop(other),
        }
    }

    // One more document is undone.
    fn count_undone(&mut self)
        ensures { self.new ≡ with_undone self.old }
    {
        if self.undone < self.written {
            self.undone += 1;
        }
    }

    // It is ended, where all is undone.
    fn end_undone(&mut self)
        ensures { self.new ≡ ended_by self.old self.old.writer.written }
    {
        if self.undone == self.written {
            self.ended = true;
        }
    }

    // A reply behind all updates.
    fn feed_end(&mut self, reply: Reply)
        ensures { self.new ≡ fed_end self.old reply }
    {
        if let Reply::Finished = &reply {
            self.ended = true;
        }
        drop(reply);
    }
}

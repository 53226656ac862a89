// A world under a law.
ghost use Rattle.std.specs.Prelude.{ℕ, IfOk, IfSome, IsFalse, IsSome, IsTrue, None, OnErr, OnOk, Some, is_some, length, map, slice_get, ◌-◌, ◌<◌, ◌^◌, ◌↔◌, ◌≡◌, ◌≤◌, ◌⊎◌};
ghost use Rattle.std.specs.Borrow.{GName};
ghost use Rattle.std.specs.List.{range_with_len};
ghost use Rattle.std.specs.Option.{option_map};
ghost use Rattle.jr_path.specs.declared.path.Item.{Item};
ghost use Rattle.jr_path.specs.declared.path.Path.{Path};
ghost use Rattle.jr_path.specs.Lists.{Text};
ghost use Rattle.jr_rev.specs.declared.revision.Revision.{Revision};
ghost use Rattle.jr_rev.specs.Vectors.{is_below, start};
ghost use Rattle.jr_tree.specs.Trees.{node_at};
ghost use Rattle.oak_doc.specs.declared.document.Document.{Document};
ghost use Rattle.oak_machine.specs.Asked.{AreAsked};
ghost use Rattle.oak_machine.specs.Commits.{IsClosed, IsSettled, are_clashing, is_committed, is_ended, is_in_base, refusal_of, tree_at};
ghost use Rattle.oak_machine.specs.History.{history_of};
ghost use Rattle.oak_machine.specs.Runs.{AreNodes, IsNode, IsRun};
ghost use Rattle.oak_machine.specs.Sessions.{base_of, has_left, kept_checkpoint};
ghost use Rattle.oak_node.specs.Memory.{begun};
ghost use Rattle.oak_node.specs.Pins.{pin_of};
ghost use Rattle.oak_port.specs.Ports.{IsAskedOf, IsWait, MayBegin, Steps, TellsChanges};
ghost use Rattle.oak_read.specs.Meaning.{documents_in, found_node};
ghost use Rattle.core_clash.specs.Sound.{Cause};
ghost use Rattle.core_nodes.specs.Nodes.{base_of_pin, kept_base};
ghost use Rattle.core_keep.specs.Formers.{Formers};
ghost use Rattle.core_world.specs.Kept.{IsFreeOf, IsKept, reader_at};
ghost use Rattle.core_world.specs.States.{actor_pin, memory_at, nodes_in, reader_pin};
ghost use Rattle.core_clash.specs.Unclashing.{IsUnclashing};
ghost use Rattle.oak_step.specs.declared.work.Work.{Work};
ghost use Rattle.oak_step.specs.declared.work.Work.TheVariants.{Told};
ghost use Rattle.oak_world.specs.Changes.{changes_known};
ghost use Rattle.oak_world.specs.Clashes.{Wanted};
ghost use Rattle.oak_world.specs.Ends.{MayTell};
ghost use Rattle.oak_world.specs.Left.{left_in};
ghost use Rattle.oak_world.specs.Pairs.{ShowsTree};
ghost use Rattle.oak_world.specs.Seen.{shown_at};
ghost use Rattle.oak_step.specs.Upkeeps.{set_checkpoint};
ghost use Rattle.oak_step.specs.Works.{Begins, kind_due};
ghost use Rattle.oak_world.specs.Steps.{HasReplyPlace, IsIdle, IsResting, Plays, StepsIn, Turns};
ghost use Rattle.oak_world.specs.Worlds.{IsAtRest, actor_in, live, said_in, start_world, state_of, with_formers, with_reply, with_work, work_in};

use crate::actor::{Actor, Room, step_actor};
use crate::changes::changed_up_to;
use crate::start::start_documents;
use jr_path::{List, Path};
use jr_rev::{Pin, RevVec};
use oak_machine::{Event, Events, Journal, Law, StepKind};
use oak_node::NodeMem;
use oak_port::{StepOut, Task};
use oak_step::Work;
use oak_store::DocTable;
use std::alloc::{AllocError, Global};
use std::marker::Model;
use std::snapshot::Snapshot;

/// The law, which clauses alone read and which takes no memory; the journal, the documents, the
/// memories of one to eight cluster nodes, and what each session does. A world's steps are those of
/// Oak's DocumentNodeStore (Oak, DocumentNodeStore): one operation on one document or on one node's
/// memory, in any order of the sessions.
pub struct World<L: Law> {
    alloc: Global,
    law: Snapshot<L>,
    journal: Journal,
    table: DocTable,
    memories: Vec<NodeMem>,
    actors: Vec<Actor>,
}

// By hand, so that its parts are let go in one call.
impl<L: Law + Drop> Drop for World<L> {
    fn drop(self) {
        let World {
            alloc: _,
            law,
            journal,
            table,
            memories,
            actors,
        } = self;
        drop(law);
        drop(journal);
        drop(table);
        drop(memories);
        drop(actors);
    }
}

impl<L: Law> Model for World<L> {
    ghost use Rattle.std.specs.Prelude.{None, ◌≡◌};
    ghost use Rattle.oak_world.specs.Worlds.{WorldOf, shown_world};
    ghost use Rattle.oak_world.specs.Kept.{ArePlaced, IsAskedWorld, IsWorld};

    ghost Value = { WorldOf L };

    ghost view = { λ w. shown_world w.law.value w.journal w.table w.memories.items w.actors.items };

    ghost invariant = { λ w. (IsWorld (L.may_start w.law.value) (L.may_say w.law.value)
        (shown_world w.law.value w.journal w.table w.memories.items w.actors.items)
        × ArePlaced w.actors.items w.journal.events.places) × (w.journal.start ≡ None)
        × IsAskedWorld (L.asks w.law.value)
        (shown_world w.law.value w.journal w.table w.memories.items w.actors.items) };
}

impl<L: Law + Drop> World<L> {
    /// The world before any step: of so many cluster nodes, 1 to 8, and of at most 64 sessions,
    /// each on the node of its number in the list. The store has four documents: `/`,
    /// `/jcr:system`, `/jcr:system/jcr:versionStorage` and the settings.
    pub fn new(
        alloc: Global,
        law: &L,
        clusters: u32,
        sessions: &[u32],
    ) -> Result<World<L>, AllocError>
        requires clusters { 1 ≤ clusters × clusters ≤ 8 }
        requires sessions { length sessions.now ≤ 64 }
        requires nodes { AreNodes clusters sessions.now }
        ensures { IfOk result (λ world. world ≡ start_world law.now clusters sessions.now) }
    {
        let mut numbers = List::new(alloc);
        let mut actors = Vec::new(alloc);
        for node in sessions {
            numbers.push(*node)?;
            actors.push(Actor::idle())?;
        }
        let documents = start_documents(alloc, clusters, sessions.len() as u32)?;
        let table = DocTable::of(alloc, documents, 4)?;
        let memories = start_memories(alloc, clusters)?;
        let events = Events::new(alloc);
        let journal = Journal {
            clusters,
            sessions: numbers,
            events,
            start: None,
        };
        Ok(World {
            alloc,
            law: Snapshot::of(law),
            journal,
            table,
            memories,
            actors,
        })
    }

    /// The events so far: a run of the machine by the law. Each of its sessions has a seat. Of two
    /// commits that are made and clash, the base of one sees the other. A refusal names its cause:
    /// another's commit, outside the base, made or under way. What has ended and clashes with no
    /// other draw outside its base is committed, or wanted memory before its commit point. Each
    /// event was made by a session for its next command, which asks for it.
    pub fn journal(&self) -> &Journal
        ensures journal { history_of result.now ≡ live self.now.history }
        ensures run { IsRun (L.may_start self.now.law) (L.may_say self.now.law)
            (live self.now.history) }
        ensures seats { length self.now.actors ≡ length self.now.history.sessions }
        ensures apart { (r o : Revision) → (r ≡ o → ⊥)
            → IsTrue (is_committed self.now.history.past r)
            → IsTrue (is_committed self.now.history.past o)
            → IsTrue (are_clashing self.now.history.past r o)
            → IsTrue (is_in_base self.now.history.past r o)
            ⊎ IsTrue (is_in_base self.now.history.past o r) }
        ensures causes { (r : Revision) (item : Item) (o : Revision)
            → refusal_of self.now.history.past r ≡ Some (item, o)
            → Cause self.now.history.past r item o }
        ensures through { (r : Revision) → IsTrue (is_ended self.now.history.past r)
            → IsUnclashing self.now.history.past r
            → IsTrue (is_committed self.now.history.past r) ⊎ Wanted self.now.history.past r }
        ensures asked { AreAsked (L.asks self.now.law) (live self.now.history) }
    {
        &self.journal
    }

    /// All that `journal` tells of the world is so; and how a split or a collection has ended,
    /// where that is to be told, may be told. The call does nothing: callers learn the facts.
    pub fn is_kept(&self)
        ensures run { IsRun (L.may_start self.now.law) (L.may_say self.now.law)
            (live self.now.history) }
        ensures seats { length self.now.actors ≡ length self.now.history.sessions }
        ensures apart { (r o : Revision) → (r ≡ o → ⊥)
            → IsTrue (is_committed self.now.history.past r)
            → IsTrue (is_committed self.now.history.past o)
            → IsTrue (are_clashing self.now.history.past r o)
            → IsTrue (is_in_base self.now.history.past r o)
            ⊎ IsTrue (is_in_base self.now.history.past o r) }
        ensures causes { (r : Revision) (item : Item) (o : Revision)
            → refusal_of self.now.history.past r ≡ Some (item, o)
            → Cause self.now.history.past r item o }
        ensures through { (r : Revision) → IsTrue (is_ended self.now.history.past r)
            → IsUnclashing self.now.history.past r
            → IsTrue (is_committed self.now.history.past r) ⊎ Wanted self.now.history.past r }
        ensures asked { AreAsked (L.asks self.now.law) (live self.now.history) }
        ensures told { (s : ℕ) (e : Event) → work_in self.now.actors s ≡ Told e
            → MayTell (live self.now.history) s e }
    {
        let _ = &self.journal;
    }

    /// The documents. With the journal, the memories and the sessions they keep what each world
    /// keeps: the documents hold what the journal tells, the committers are sound, the memories are
    /// those of the journal, and the readers read the tree at their pins. Of what has ended without
    /// a commit no document of a node has an entry but collisions.
    pub fn documents(&self) -> &DocTable
        ensures table { result.now ≡ self.now.table }
        ensures kept { (formers : Formers) × IsKept (L.may_start self.now.law)
            (L.may_say self.now.law) (with_formers (state_of self.now) formers) }
        ensures undone { (r : Revision) (p : Path) (d : Document)
            → IsTrue (is_ended self.now.history.past r)
            → IsFalse (is_committed self.now.history.past r)
            → nodes_in self.now.table p ≡ Some d → IsFreeOf r d }
    {
        &self.table
    }

    /// The pin at which the session reads: while it is attached to a checkpoint that which the
    /// settings keep for it, else that of its node's memory, where it has come and not left. The
    /// pin is at the base that the journal tells, which is settled and closed and at least its
    /// sweep vector, and at it the documents show at each path the node of the journal's tree.
    pub fn pin(&self, actor: u32) -> Option<Pin>
        requires { IsTrue (is_some (slice_get self.now.history.sessions actor)) }
        ensures pin { result ≡ actor_pin (state_of self.now) actor }
        ensures base { IsFalse (has_left self.now.history.past actor)
            → option_map (λ pin. pin.base) result ≡ base_of self.now.history.past actor }
        ensures below { (pin : Pin) → result ≡ Some pin → IsTrue (is_below pin.sweep pin.base) }
        ensures settled { (pin : Pin) → result ≡ Some pin
            → IsSettled self.now.history.past pin.base }
        ensures closed { (pin : Pin) → result ≡ Some pin → IsClosed self.now.history.past pin.base }
        ensures shown { (pin : Pin) (p : Path) → result ≡ Some pin
            → found_node (documents_in self.now.table.documents) pin.sweep pin.base p
            ≡ node_at (tree_at None self.now.history.past pin.base) p }
    {
        let node = self.node(actor);
        let memory = &self.memories[node as usize - 1];
        let seat = &self.actors[actor as usize];
        seat.pin(&self.table, memory, actor)
    }

    /// What changed between a vector and the session's base: paths, and among them each at which
    /// the node at the base isn't the one at that vector. None where that isn't known: a cluster
    /// node knows it of its own commits, back to the oldest base that it pins, and of no commits of
    /// other nodes (Oak, DocumentNodeStore: its diff cache, which local commits fill).
    pub fn changed(&self, actor: u32, since: &RevVec) -> Result<Option<List<Path>>, AllocError>
        requires { IsTrue (is_some (slice_get self.now.history.sessions actor)) }
        ensures known { IfOk result (λ told.
            told ≡ changes_known (state_of self.now) actor since.now) }
        ensures told { IfOk result (λ told. IfSome told
            (TellsChanges (live self.now.history) actor since.now)) }
    {
        let node = self.node(actor);
        let memory = &self.memories[node as usize - 1];
        match self.pin(actor) {
            Some(pin) => changed_up_to(self.alloc, memory, since, &pin.base),
            None => Ok(None),
        }
    }

    /// Each pair that is held shows the journal's tree; its vector is settled and closed, and at
    /// least its sweep vector. A pair is held that is a pin of a cluster node's memory, of a
    /// session or of its cursor, and one that the settings keep as a checkpoint or for an attached
    /// session. Pins are where the journal has their owners; the settings have just the last
    /// checkpoint of each id that wasn't released since, and readers just of sessions that attached
    /// and weren't detached since. The function does nothing: callers learn the facts.
    pub fn holds_pairs(&self)
        ensures pins { (k owner : ℕ) (pin : Pin) → IsNode self.now.history.clusters k
            → pin_of (memory_at self.now.memories k) owner ≡ Some pin
            → ShowsTree None self.now.history.past self.now.table pin }
        ensures checkpoints { (i : Text) (pin : Pin) → set_checkpoint self.now.table i ≡ Some pin
            → ShowsTree None self.now.history.past self.now.table pin }
        ensures readers { (s : ℕ) (pin : Pin) → reader_pin self.now.table s ≡ Some pin
            → ShowsTree None self.now.history.past self.now.table pin }
        ensures owners { (k owner : ℕ) → IsNode self.now.history.clusters k
            → base_of_pin (pin_of (memory_at self.now.memories k) owner)
            ≡ kept_base self.now.history.sessions self.now.history.past k owner }
        ensures kept { (i : Text) → base_of_pin (set_checkpoint self.now.table i)
            ≡ kept_checkpoint self.now.history.past i }
        ensures attached { (s : ℕ) → base_of_pin (reader_pin self.now.table s)
            ≡ reader_at self.now.history.past s }
    {
        let _ = &self.table;
    }

    /// Tells a session that does nothing what to do; its next command asks for the events of the
    /// task. For how a split or a collection ends a place of the journal is kept. Where memory is
    /// refused nothing changes.
    pub fn start(&mut self, actor: u32, task: Task) -> Result<(), AllocError>
        requires idle { IsIdle self.old actor }
        requires may { MayBegin (L.may_start self.old.law) (live self.old.history) actor task }
        requires asked { IsAskedOf (L.asks self.old.law) (live self.old.history) actor task }
        ensures ok { OnOk result ((v : Work)
            × Begins self.old.history.clusters (actor_pin (state_of self.old) actor) task v
            × (self.new ≡ with_work self.old actor v)) }
        ensures err { OnErr result (self.new ≡ self.old) }
    {
        let pin = self.pin(actor);
        let work = Work::of(self.alloc, self.journal.clusters, pin, task)?;
        let seat = &mut self.actors[actor as usize];
        seat.begin(&mut self.journal.events, work)
    }

    /// One step of a session that has a task. A split or a collection makes the operation for which
    /// its automaton asks, and is fed the reply; once it has ended, how it ended is to be told with
    /// the session's next reply. A port tells of the step what the second clause says, whatever the
    /// reference that leads to the world. A step lowers the number of steps that are left of the
    /// task, or the session waits.
    pub fn step(&mut self, actor: u32) -> StepOut
        requires there { IsTrue (is_some (slice_get self.old.history.sessions actor)) }
        requires busy { IsAtRest (work_in self.old.actors actor) → ⊥ }
        ensures made { StepsIn self.old actor self.new result }
        ensures seen { (name : GName) → Steps (L.may_start self.old.law) (L.may_say self.old.law)
            (shown_at name self.old actor) (shown_at name self.new actor) result }
        ensures lowers { IsWait result ⊎ (left_in self.new actor < left_in self.old actor) }
    {
        let node = self.node(actor);
        are_few(self.journal.events.as_slice());
        let seat = &mut self.actors[actor as usize];
        step_actor(
            self.alloc,
            &mut self.table,
            &mut self.memories,
            &mut self.journal.events,
            node,
            actor,
            seat,
        )
    }

    /// The kind of the session's next step; None where nothing is left to be done but to tell how a
    /// task ended. No memory is taken. Where no step is left nothing is.
    pub fn due(&self, actor: u32) -> Option<StepKind>
        requires { IsTrue (is_some (slice_get self.now.history.sessions actor)) }
        ensures due { result ≡ kind_due (work_in self.now.actors actor) }
        ensures busy { IsSome result ↔ (IsAtRest (work_in self.now.actors actor) → ⊥) }
        ensures over { left_in self.now actor ≡ 0 → IsAtRest (work_in self.now.actors actor) }
    {
        let seat = &self.actors[actor as usize];
        seat.work.due()
    }

    /// How many documents the session's loads and lists have read. At 2^64 - 1 the number stays.
    pub fn reads(&self, actor: u32) -> u64
        requires { IsTrue (is_some (slice_get self.now.history.sessions actor)) }
        ensures { result ≡ (actor_in self.now.actors actor).reads }
    {
        let seat = &self.actors[actor as usize];
        seat.reads
    }

    /// Reserves so many bytes, and a place of the journal, for the session's next reply.
    pub fn reserve_say(&mut self, actor: u32, bytes: usize) -> Result<(), AllocError>
        requires { IsTrue (is_some (slice_get self.old.history.sessions actor)) }
        ensures ok { OnOk result (self.new ≡ with_reply self.old actor (Some bytes)) }
        ensures err { OnErr result (self.new ≡ self.old) }
    {
        let room = Room::new(self.alloc, bytes)?;
        let seat = &mut self.actors[actor as usize];
        seat.reserve(&mut self.journal.events, room)
    }

    /// Says the session's next reply, which the law lets it say, and whose bytes are reserved.
    /// Directly before it stands how the session's split or collection ended, where it is to be
    /// told. Neither can be refused.
    pub fn say(&mut self, actor: u32, index: u32, text: &str)
        requires rest { IsResting self.old actor }
        requires may { HasReplyPlace (L.may_say self.old.law) (live self.old.history)
            (actor_in self.old.actors actor) actor index text.now }
        ensures { self.new ≡ said_in self.old actor index text.now }
    {
        let seat = &mut self.actors[actor as usize];
        seat.say(&mut self.journal.events, actor, index, text);
    }

    /// Steps each session that is named and has a task, one after another.
    pub fn play(&mut self, schedule: &[u32])
        ensures { Plays self.old schedule.now self.new }
    {
        for actor in schedule {
            self.turn(*actor);
        }
    }

    // The cluster node of a session.
    fn node(&self, actor: u32) -> u32
        requires { IsTrue (is_some (slice_get self.now.history.sessions actor)) }
        ensures node { slice_get self.now.history.sessions actor ≡ Some result }
        ensures low { 1 ≤ result }
        ensures memory { result - 1 < length self.now.memories }
        ensures seat { actor < length self.now.actors }
    {
        let nodes = self.journal.sessions.as_slice();
        nodes[actor as usize]
    }

    // A step of what is named, where it is a session with a task.
    fn turn(&mut self, actor: u32)
        ensures { Turns self.old actor self.new }
    {
        if actor as usize >= self.actors.len() {
            return;
        }
        if self.due(actor).is_some() {
            drop(self.step(actor));
        }
    }
}

// Events are fewer than 2^63, since memory holds no more. The call does nothing: callers learn the
// fact.
fn are_few(events: &[Event])
    ensures { length events.now < 2 ^ 63 }
{
    let _ = events.len();
}

// The memories of so many cluster nodes before any step.
fn start_memories(alloc: Global, clusters: u32) -> Result<Vec<NodeMem>, AllocError>
    requires { 1 ≤ clusters × clusters ≤ 8 }
    ensures { IfOk result (λ memories. memories.items
        ≡ map (λ k. begun k (start clusters)) (range_with_len 1 clusters)) }
{
    let mut memories = Vec::new(alloc);
    for node in 1..clusters + 1 {
        memories.push(NodeMem::new(alloc, node, RevVec::start(clusters)))?;
    }
    Ok(memories)
}

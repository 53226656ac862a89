// A session of a script, and where it stands.
ghost use Rattle.std.specs.Prelude.{◌≡◌, ◌≤◌, IfOk, is_some, length};
ghost use Rattle.jcr_run.specs.Standing.{IsNew, is_committing, is_tidying, is_working};

use crate::limits::MOST_COMMANDS;
use jcr_call::Accepted;
use jcr_held::Held;
use jcr_steps::{Errand, Tidied, Told};
use jcr_trans::Command;
use jr_part::Need;
use jr_path::List;
use jr_rev::RevVec;
use jr_tree::{CommitChanges, Edit};
use jr_types::Registry;
use oak_commit::CommitEnd;
use std::alloc::{AllocError, Global};

/// A session of a script: its commands, of which it makes one after another, by steps of a world
/// that others step too.
pub struct SessionRun {
    pub alloc: Global,
    pub session: u32,
    pub commands: List<Command>,
    /// How many replies are said.
    pub index: u32,
    pub phase: Phase,
    /// What the session holds of the tree at its base, and what is pending there.
    pub held: Held,
    /// What is being read.
    pub fetch: Option<Fetch>,
    /// What changed since the session's cursor, once that is read for its next command.
    pub changes: Option<List<CommitChanges>>,
    /// Whether the session was attached to a checkpoint when its next command began.
    pub attached: bool,
}

// By hand, so that its parts are let go in one call.
impl Drop for SessionRun {
    fn drop(self) {
        let SessionRun {
            alloc: _,
            session: _,
            commands,
            index: _,
            phase,
            held,
            fetch,
            changes,
            attached: _,
        } = self;
        drop(commands);
        drop(phase);
        drop(held);
        drop(fetch);
        drop(changes);
    }
}

/// Where a session stands.
#[derive(Drop)]
pub enum Phase {
    /// Not logged in.
    Outside,
    /// Between two commands, or before the end.
    Between,
    /// The base moved to this vector for the next command: a refresh, an attach or a detach, which
    /// is not answered yet; its reply has a place.
    Moved(RevVec),
    /// The base moved for a detach, whose second step is to be made; its reply has a place.
    Detaching,
    /// A commit is under way, and this is kept for its reply.
    Committing(Pledge),
    /// The commit has ended so, and is not answered yet.
    Committed(CommitEnd, Pledge),
    /// A task of the cluster node, of the settings or of the cursor is under way; its reply has a
    /// place.
    Working(Errand),
    /// A task of the cluster node, of the settings or of the cursor has ended so, and is not
    /// answered yet; its reply has a place.
    Told(Told),
    /// A split or a collection is under way; its reply has a place for want of memory.
    Tidying,
    /// A split or a collection has ended so, and is not answered yet; its reply has a place for
    /// want of memory.
    Tidied(Tidied),
    /// The session has left.
    Over,
}

/// What a session keeps of a commit until its reply: the edit, and what is told once it is made.
#[derive(Drop)]
pub struct Pledge {
    pub edit: Edit,
    pub accepted: Accepted,
}

/// What is being read.
#[derive(Drop)]
pub enum Fetch {
    /// A node of the tree at the base, or the names of the children of one.
    Tree(Need),
    /// What changed since this vector, which is that of the cursor.
    Changes(RevVec),
}

impl SessionRun {
    /// A session that has not logged in, with its number, how many sessions there were before the
    /// script, at most `MOST_COMMANDS` commands, and the node types of the script.
    pub fn new(
        alloc: Global,
        session: u32,
        earlier: u32,
        commands: List<Command>,
        types: Registry,
    ) -> Result<SessionRun, AllocError>
        requires few { length commands ≤ MOST_COMMANDS }
        ensures { IfOk result (IsNew session earlier commands types) }
    {
        let held = Held::new(alloc, session, earlier, RevVec::none(), types);
        Ok(SessionRun {
            alloc,
            session,
            commands,
            index: 0,
            phase: Phase::Outside,
            held,
            fetch: None,
            changes: None,
            attached: false,
        })
    }

    /// Whether something is being read: a node, the names of the children of one, or what changed.
    pub fn is_reading(&self) -> bool
        ensures { result ≡ is_some self.now.fetch }
    {
        self.fetch.is_some()
    }

    /// Whether a commit of the session, or another task of its next command, is under way.
    pub fn is_working(&self) -> bool
        ensures { result ≡ is_working self.now.phase }
    {
        matches!(
            self.phase,
            Phase::Committing(_) | Phase::Working(_) | Phase::Detaching | Phase::Tidying
        )
    }

    /// Whether a commit of the session is under way.
    pub fn is_committing(&self) -> bool
        ensures { result ≡ is_committing self.now.phase }
    {
        matches!(self.phase, Phase::Committing(_))
    }

    /// Whether a split or a collection of the session is under way.
    pub fn is_tidying(&self) -> bool
        ensures { result ≡ is_tidying self.now.phase }
    {
        matches!(self.phase, Phase::Tidying)
    }
}

// The world of a script with its sessions, and the turns that an entry of a schedule asks for.
ghost use Rattle.std.specs.Prelude.{◌≡◌, ◌<◌, ◌≤◌, All, IfOk, OnOk, List, IsTrue, IsFalse, is_some, length, map, slice_get};
ghost use Rattle.std.specs.Borrow.{GName};
ghost use Rattle.std.specs.BTreeMap.{insert_entry};
ghost use Rattle.std.specs.Map.{values_of};
ghost use Rattle.std.specs.Option.{option_map_or};
ghost use Rattle.jr_rev.specs.Revisions.{revision_cmp};
ghost use Rattle.jr_script.specs.Bounds.{IsWithin};
ghost use Rattle.jr_script.specs.Schedules.{IsEntryWithin};
ghost use Rattle.oak_machine.specs.Runs.{AreNodes};
ghost use Rattle.oak_machine.specs.Sessions.{is_drawing};
ghost use Rattle.oak_world.specs.Seen.{shown_at};
ghost use Rattle.oak_world.specs.Worlds.{start_world};
ghost use Rattle.jcr_run.specs.Standing.{IsNew, Stands};
ghost use Rattle.jr_stage.specs.Awaited.{AreInTurn, IsAlone, IsNextToReply, IsStill, LeavesOtherSessions};
ghost use Rattle.jr_stage.specs.Places.{flying_sessions, is_over};
ghost use Rattle.jr_stage.specs.Parts.{by_entry, to_end, to_reply};
ghost use Rattle.jr_script.specs.declared.script.Entry.TheVariants as entry;
ghost use Rattle.jr_stage.specs.Stages.{Closes, MakesReading, IsFirstStage, IsOfCommit, IsStage, has_come, past_of};
ghost use Rattle.jr_stage.specs.Seats.{AreNew, IsNewSeat};

use crate::flight::Flight;
use core_obeys::the_product_obeys;
use jcr_law::JcrLaw;
use jcr_run::{SessionRun, Turn, read};
use jcr_steps::is_read;
use jcr_trans::{Command, SessionScript};
use jr_path::{DeepCopy, List};
use jr_rev::Revision;
use jr_script::{Entry, Script};
use jr_types::Registry;
use oak_world::{SoloPort, World};
use std::alloc::{AllocError, Global};
use std::collections::BTreeMap;
use std::snapshot::Snapshot;

// The world, the sessions by number, each with its commands, and the schedule. The script that all
// these are of is there for clauses alone.
pub(crate) struct Stage {
    pub alloc: Global,
    pub script: Snapshot<Script>,
    pub schedule: List<Entry>,
    pub world: World<JcrLaw>,
    pub seats: Vec<Seat>,
}

// By hand, so that its parts are let go in one call.
impl Drop for Stage {
    fn drop(self) {
        let Stage {
            alloc: _,
            script,
            schedule,
            world,
            seats,
        } = self;
        drop(script);
        drop(schedule);
        drop(world);
        drop(seats);
    }
}

// A session, and what it has in flight.
pub(crate) struct Seat {
    pub run: SessionRun,
    pub flight: Option<Flight>,
}

// By hand, so that its parts are let go in one call.
impl Drop for Seat {
    fn drop(self) {
        let Seat { run, flight: _ } = self;
        drop(run);
    }
}

impl Stage {
    // Gives back the world of the stage.
    pub(crate) fn into_world(self) -> World<JcrLaw>
        ensures { result ≡ self.world }
    {
        let Stage {
            alloc: _,
            script,
            schedule,
            world,
            seats,
        } = self;
        drop(script);
        drop(schedule);
        drop(seats);
        world
    }

    // The sessions of a script before any turn. By the law that the product obeys they will see
    // trees that meet the types of the script.
    pub(crate) fn new(alloc: Global, script: Script) -> Result<Stage, AllocError>
        requires { IsWithin script }
        ensures { IfOk result (IsFirstStage script) }
    {
        the_product_obeys();
        let shown = Snapshot::of(&script);
        let Script {
            clusters,
            types,
            sessions,
            schedule,
        } = script;
        // The law takes the script's parts, and then gives them back.
        let law = JcrLaw {
            types,
            earlier: 0,
            sessions,
        };
        let world = world_of(alloc, clusters, &law)?;
        let JcrLaw {
            types,
            sessions,
            ..
        } = law;
        let seats = seats_of(alloc, &types, sessions)?;
        drop(types);
        Ok(Stage {
            alloc,
            script: shown,
            schedule,
            world,
            seats,
        })
    }

    // The turns for an entry of the schedule.
    pub(crate) fn play(&mut self, entry: Entry) -> Result<(), AllocError>
        requires stage { IsStage self.old }
        requires entry { IsEntryWithin (length self.old.seats.items) entry }
        ensures { OnOk result (Closes self.old self.new (by_entry entry)) }
    {
        match entry {
            Entry::Turn(s) => {
                self.turn(s, None)?;
                Ok(())
            }
            Entry::Say(s, count) => self.say(s, count),
            Entry::Read(s) => self.read(s),
            Entry::Draw(s) => self.go_to(s, entry),
            Entry::Write(s, _) => self.go_to(s, entry),
            Entry::Last(s) => self.go_to(s, entry),
        }
    }

    // Turns of a session until so many more replies are said, or it rests.
    fn say(&mut self, s: u32, count: u32) -> Result<(), AllocError>
        requires stage { IsStage self.old }
        requires there { s < length self.old.seats.items }
        ensures { OnOk result (Closes self.old self.new (by_entry (entry.Say s count))) }
    {
        let mut said = 0;
        'turns: while said != count {
            match self.go_on(s, None)? {
                Turn::Said(_) => said += 1,
                Turn::Stepped(_) => {}
                Turn::Waiting(_) => return Ok(()),
                Turn::Ended => return Ok(()),
                _ => unreachable!(),
            }
        }
        Ok(())
    }

    // Turns of a session until its commit has come to where an entry waits for it, a reply is said,
    // or the session rests. A last write is come to where it is due: so the reading steps that are
    // due inside the commit are made before.
    fn go_to(&mut self, s: u32, entry: Entry) -> Result<(), AllocError>
        requires stage { IsStage self.old }
        requires there { s < length self.old.seats.items }
        requires named { IsOfCommit s entry }
        ensures { OnOk result (Closes self.old self.new (by_entry entry)) }
    {
        'turns: while !self.has_come(s, entry) {
            match self.go_on(s, Some(entry))? {
                Turn::Stepped(_) => {}
                Turn::Read => return Ok(()),
                Turn::Said(_) => return Ok(()),
                Turn::Waiting(_) => return Ok(()),
                Turn::Ended => return Ok(()),
                _ => unreachable!(),
            }
        }
        Ok(())
    }

    // Whether the commit of a session has come to where an entry waits for it.
    pub(crate) fn has_come(&self, s: u32, entry: Entry) -> bool
        requires there { s < length self.now.seats.items }
        requires seats { length self.now.seats.items ≡ length self.now.world.history.sessions }
        ensures { result ≡ has_come self.now s entry }
    {
        let due = self.world.due(s);
        match &self.seats[s as usize].flight {
            Some(flight) => flight.has_come(due, entry),
            None => false,
        }
    }

    // A reading step of a session, where one is due: before its next command, or inside the task of
    // that.
    fn read(&mut self, s: u32) -> Result<(), AllocError>
        requires stage { IsStage self.old }
        requires there { s < length self.old.seats.items }
        ensures { OnOk result (Closes self.old self.new (by_entry (entry.Read s))) }
    {
        if self.is_working(s) && is_read(self.world.due(s)) {
            return self.read_inside(s);
        }
        self.read_before(s)
    }

    // A reading step of a session before its next command, where one is due.
    fn read_before(&mut self, s: u32) -> Result<(), AllocError>
        requires stage { IsStage self.old }
        requires there { s < length self.old.seats.items }
        ensures { OnOk result (Closes self.old self.new (by_entry (entry.Read s))) }
    {
        self.world.journal();
        let seat = &mut self.seats[s as usize];
        read_one(&mut self.world, &mut seat.run, s)?;
        Ok(())
    }

    // Turns of a session to its next reply. The session's commit is in flight, and none of another
    // session keeps it waiting: so the head sees the commit once it has ended, and the session
    // never waits.
    pub(crate) fn reply(&mut self, s: u32) -> Result<(), AllocError>
        requires stage { IsStage self.old }
        requires there { s < length self.old.seats.items }
        requires flies { IsTrue (is_drawing (past_of self.old) s) }
        requires first { IsNextToReply (past_of self.old) s }
        ensures closes { OnOk result (Closes self.old self.new (to_reply s)) }
        ensures leaves { OnOk result (LeavesOtherSessions (past_of self.old) (past_of self.new) s) }
        ensures lands { OnOk result (IsFalse (is_drawing (past_of self.new) s)) }
    {
        'turns: loop {
            match self.go_on(s, None)? {
                Turn::Said(_) => return Ok(()),
                Turn::Stepped(_) => {}
                _ => unreachable!(),
            }
        }
    }

    // Turns of a session to its end. No other session has a commit in flight: so the head sees each
    // of its own once that has ended, and the session never waits.
    pub(crate) fn finish(&mut self, s: u32) -> Result<(), AllocError>
        requires stage { IsStage self.old }
        requires there { s < length self.old.seats.items }
        requires alone { IsAlone (past_of self.old) s }
        ensures closes { OnOk result (Closes self.old self.new (to_end s)) }
        ensures over { OnOk result (IsTrue (is_over self.new.script.value (past_of self.new) s)) }
        ensures still { OnOk result (IsStill (past_of self.new)) }
    {
        'turns: loop {
            match self.go_on(s, None)? {
                Turn::Ended => return Ok(()),
                Turn::Said(_) => {}
                Turn::Stepped(_) => {}
                _ => unreachable!(),
            }
        }
    }

    // The sessions whose commits are in flight, in ascending order of their revisions.
    pub(crate) fn flying(&self) -> Result<List<u32>, AllocError>
        requires { IsStage self.now }
        ensures flying { IfOk result
            (λ sessions. sessions ≡ flying_sessions self.now.world.history.past) }
        ensures seats { IfOk result (All (λ s. s < length self.now.seats.items)) }
        ensures in_turn { IfOk result (AreInTurn (past_of self.now)) }
    {
        self.world.journal();
        let mut flying = BTreeMap::new(self.alloc);
        for (s, seat) in self.seats.iter().enumerate() {
            note_flight(&mut flying, &seat.flight, s as u32)?;
        }
        sessions_of(self.alloc, &flying)
    }
}

// Notes the commit that a session has in flight, if any, by its revision.
fn note_flight(
    flying: &mut BTreeMap<Revision, u32>,
    flight: &Option<Flight>,
    s: u32,
) -> Result<(), AllocError>
    ensures { OnOk result (flying.new.entries
        ≡ option_map_or (λ f. insert_entry revision_cmp flying.old.entries f.revision s)
        flight.now flying.old.entries) }
{
    match flight {
        Some(flight) => {
            flying.insert(flight.revision, s)?;
            Ok(())
        }
        None => Ok(()),
    }
}

// The sessions of some revisions, in their order.
fn sessions_of(alloc: Global, flying: &BTreeMap<Revision, u32>) -> Result<List<u32>, AllocError>
    ensures { IfOk result (λ sessions. sessions ≡ values_of flying.now.entries) }
{
    let mut sessions = List::new(alloc);
    for (_, session) in flying {
        sessions.push(*session)?;
    }
    Ok(sessions)
}

/// The world of a law before any step, with the law's sessions on so many cluster nodes, 1 to 8.
pub fn world_of(alloc: Global, clusters: u32, law: &JcrLaw) -> Result<World<JcrLaw>, AllocError>
    requires nodes { AreNodes clusters (map (λ s. s.cluster) law.now.sessions) }
    requires few { length law.now.sessions ≤ 64 }
    ensures { IfOk result (λ world. world
        ≡ start_world law.now clusters (map (λ s. s.cluster) law.now.sessions)) }
{
    let nodes = nodes_of(alloc, law.sessions.as_slice())?;
    World::new(alloc, law, clusters, nodes.as_slice())
}

// The cluster node of each session.
fn nodes_of(alloc: Global, sessions: &[SessionScript]) -> Result<Vec<u32>, AllocError>
    ensures { IfOk result (λ nodes. nodes.items ≡ map (λ s. s.cluster) sessions.now) }
{
    let mut nodes = Vec::new(alloc);
    for session in sessions {
        nodes.push(session.cluster)?;
    }
    Ok(nodes)
}

// The sessions, none of which has logged in, each with its commands.
fn seats_of(
    alloc: Global,
    types: &Registry,
    sessions: List<SessionScript>,
) -> Result<Vec<Seat>, AllocError>
    requires many { length sessions ≤ 64 }
    requires few { All (λ s. length s.commands ≤ 10000) sessions }
    ensures { IfOk result (λ seats. AreNew types.now sessions (length sessions) seats.items) }
{
    let mut seats = Vec::new(alloc);
    for session in sessions.into_inner() {
        let seat = seat_of(alloc, types, seats.len() as u32, session)?;
        seats.push(seat)?;
    }
    Ok(seats)
}

// A session that has not logged in, of the number and with its commands.
fn seat_of(
    alloc: Global,
    types: &Registry,
    s: u32,
    session: SessionScript,
) -> Result<Seat, AllocError>
    requires few { length session.commands ≤ 10000 }
    ensures { IfOk result (IsNewSeat types.now s session) }
{
    let run = session_of(alloc, types, s, session.commands)?;
    Ok(Seat { run, flight: None })
}

/// A session's run before its login, of the number and with the commands, at most 10,000.
pub fn session_of(
    alloc: Global,
    types: &Registry,
    s: u32,
    commands: List<Command>,
) -> Result<SessionRun, AllocError>
    requires few { length commands ≤ 10000 }
    ensures { IfOk result (IsNew s 0 commands types.now) }
{
    SessionRun::new(alloc, s, 0, commands, types.copy()?)
}

// A reading step of a session in its world, where one is due.
fn read_one(world: &mut World<JcrLaw>, run: &mut SessionRun, s: u32) -> Result<(), AllocError>
    requires there { IsTrue (is_some (slice_get world.old.history.sessions s)) }
    requires stands { (name : GName) → Stands world.old.law (shown_at name world.old s) run.old }
    ensures { OnOk result
        ((name : GName) × MakesReading name s world.old world.new run.old run.new) }
{
    let mut port = SoloPort::new(world, s);
    read(run, &mut port)?;
    Ok(())
}

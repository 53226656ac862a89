// Turns of a session of a stage.
ghost use Rattle.std.specs.Prelude.{◌≡◌, ◌<◌, ◌&&◌, IfOk, OnOk, IsTrue, IsFalse, is_some, length};
ghost use Rattle.std.specs.Prelude.{not, slice_get};
ghost use Rattle.std.specs.Borrow.{GName};
ghost use Rattle.oak_world.specs.Seen.{shown_at};
ghost use Rattle.jcr_run.specs.Standing.{Stands};
ghost use Rattle.jcr_run.specs.Nearing.{stages_left};
ghost use Rattle.jr_stage.specs.Nearing.{ReadsLess, ReadsNearer, ReadsThrough, place_at, reads_at};
ghost use Rattle.jr_stage.specs.Nearing.{works_at};
ghost use Rattle.jr_script.specs.declared.script.Entry.TheVariants as entry;
ghost use Rattle.jr_stage.specs.Parts.{by_entry};
ghost use Rattle.jr_stage.specs.Stages.{Closes, HasTurnedIn, IsNearerOrCome, IsStage, IsEntryOver};
ghost use Rattle.jr_stage.specs.Stages.{IsComeOrFurther, IsReadOrApart, ReadsOrComes, ReadsOrTurns};
ghost use Rattle.jr_stage.specs.Stages.{StepsUntil, TurnsTo, comes_to};
ghost use Rattle.jr_stage.specs.Stages.{flight_behind, flight_by};

use crate::flight::{Flight, flight_after};
use crate::stage::Stage;
use jcr_law::JcrLaw;
use jcr_run::{Phase, SessionRun, Turn};
use jcr_session::turn;
use jr_script::Entry;
use oak_machine::StepKind;
use oak_world::{SoloPort, World};
use std::alloc::{AllocError, Global};

impl Stage {
    // A turn of a session, and where a commit or another task of its next command is under way
    // behind it, the turns of that: until it has ended, waits, or has come to where an entry, if
    // one is given, waits for it.
    pub(crate) fn go_on(&mut self, s: u32, until: Option<Entry>) -> Result<Turn, AllocError>
        requires stage { IsStage self.old }
        requires there { s < length self.old.seats.items }
        requires short { IsFalse (comes_to self.old s until) }
        ensures { IfOk result (StepsUntil (IsNearerOrCome self.old self.new s until)
            self.old self.new s until) }
    {
        match self.turn(s, until)? {
            Turn::Stepped(kind) => self.work_on(s, until, kind),
            turn => Ok(turn),
        }
    }

    // The turns of a commit or another task that is under way, if one is, behind a step of this
    // kind.
    fn work_on(&mut self, s: u32, until: Option<Entry>, kind: StepKind) -> Result<Turn, AllocError>
        requires stage { IsStage self.old }
        requires there { s < length self.old.seats.items }
        ensures { IfOk result (StepsUntil (IsEntryOver self.old self.new s until)
            self.old self.new s until) }
    {
        'task: while self.is_under_way(s, until) {
            match self.turn(s, until)? {
                Turn::Stepped(_) => {}
                Turn::Read => return Ok(Turn::Stepped(kind)),
                turn => return Ok(turn),
            }
        }
        Ok(Turn::Stepped(kind))
    }

    // Whether a commit or another task of a session is under way, and has not come to where an
    // entry waits for it.
    fn is_under_way(&self, s: u32, until: Option<Entry>) -> bool
        requires there { s < length self.now.seats.items }
        requires seats { length self.now.seats.items ≡ length self.now.world.history.sessions }
        ensures { result ≡ (works_at self.now s && not (comes_to self.now s until)) }
    {
        if !self.is_working(s) {
            return false;
        }
        !self.comes_to(s, until)
    }

    // Whether the commit of a session has come to where an entry, if one is given, waits for it.
    fn comes_to(&self, s: u32, until: Option<Entry>) -> bool
        requires there { s < length self.now.seats.items }
        requires seats { length self.now.seats.items ≡ length self.now.world.history.sessions }
        ensures { result ≡ comes_to self.now s until }
    {
        match until {
            Some(entry) => self.has_come(s, entry),
            None => false,
        }
    }

    // Whether a commit or another task of a session is under way.
    pub(crate) fn is_working(&self, s: u32) -> bool
        requires { s < length self.now.seats.items }
        ensures { result ≡ works_at self.now s }
    {
        self.seats[s as usize].run.is_working()
    }

    // A turn of a session: the reading steps that are due, and a counted step. Where the reading
    // steps bring the session's commit to where an entry, if one is given, waits for it, that step
    // isn't made.
    pub(crate) fn turn(&mut self, s: u32, until: Option<Entry>) -> Result<Turn, AllocError>
        requires stage { IsStage self.old }
        requires there { s < length self.old.seats.items }
        requires short { IsFalse (comes_to self.old s until) }
        ensures { IfOk result (TurnsTo self.old self.new s until) }
    {
        'places: loop {
            match self.turn_here(s, until)? {
                Turn::Read => {
                    if self.comes_to(s, until) {
                        return Ok(Turn::Read);
                    }
                }
                turn => return Ok(turn),
            }
        }
    }

    // The reading steps that are due where a session stands, and a counted step. Where the reading
    // steps bring the session elsewhere, or its commit to where an entry waits for it, that step
    // isn't made.
    fn turn_here(&mut self, s: u32, until: Option<Entry>) -> Result<Turn, AllocError>
        requires stage { IsStage self.old }
        requires there { s < length self.old.seats.items }
        requires short { IsFalse (comes_to self.old s until) }
        ensures { IfOk result (ReadsOrTurns (IsComeOrFurther self.old self.new s until)
            self.old self.new s until) }
    {
        let place = self.place(s);
        'needs: loop {
            match self.look(s)? {
                Turn::Read => {
                    if self.comes_to(s, until) {
                        return Ok(Turn::Read);
                    }
                    if self.place(s) != place {
                        return Ok(Turn::Read);
                    }
                }
                turn => return Ok(turn),
            }
        }
    }

    // How near a session is to its next reply, in stages.
    fn place(&self, s: u32) -> u32
        requires { s < length self.now.seats.items }
        ensures { result ≡ place_at self.now s }
    {
        place_of(&self.seats[s as usize].run.phase)
    }

    // A counted step of a session, or where a reading step is due, that one, and the further ones
    // until what is being read is known.
    fn look(&mut self, s: u32) -> Result<Turn, AllocError>
        requires stage { IsStage self.old }
        requires there { s < length self.old.seats.items }
        ensures { IfOk result (ReadsOrComes (ReadsLess self.old self.new s) self.old self.new s) }
    {
        match self.step(s)? {
            Turn::Read => self.read_on(s),
            turn => Ok(turn),
        }
    }

    // The reading steps of what is being read for a session, if anything is. Where memory is
    // refused for one, the session makes a counted step.
    fn read_on(&mut self, s: u32) -> Result<Turn, AllocError>
        requires stage { IsStage self.old }
        requires there { s < length self.old.seats.items }
        ensures reads { IfOk result (ReadsOrComes (ReadsThrough self.old self.new s)
            self.old self.new s) }
        ensures apart { IfOk result (IsReadOrApart self.old s) }
    {
        'reads: while self.is_reading(s) {
            match self.step(s)? {
                Turn::Read => {}
                turn => return Ok(turn),
            }
        }
        Ok(Turn::Read)
    }

    // Whether something is being read for a session.
    fn is_reading(&self, s: u32) -> bool
        requires { s < length self.now.seats.items }
        ensures { result ≡ reads_at self.now s }
    {
        self.seats[s as usize].run.is_reading()
    }

    // A reading step of a session, which is due inside the task of its next command. Where memory
    // is refused for it, nothing more is made.
    pub(crate) fn read_inside(&mut self, s: u32) -> Result<(), AllocError>
        requires stage { IsStage self.old }
        requires there { s < length self.old.seats.items }
        ensures { OnOk result (Closes self.old self.new (by_entry (entry.Read s))) }
    {
        match self.step(s)? {
            Turn::Read => Ok(()),
            _ => Err(AllocError),
        }
    }

    // A step of a session: a reading step, where one is due, and else a counted one. What is kept
    // of its commit goes by the event that the step added last.
    fn step(&mut self, s: u32) -> Result<Turn, AllocError>
        requires stage { IsStage self.old }
        requires there { s < length self.old.seats.items }
        ensures { IfOk result (ReadsOrComes (ReadsNearer self.old self.new s)
            self.old self.new s) }
    {
        let seat = &mut self.seats[s as usize];
        match turn_once(&mut self.world, &mut seat.run, s) {
            Turn::Memory => Err(AllocError),
            turn => {
                seat.flight = flight_by(self.alloc, seat.flight, turn, &self.world)?;
                Ok(turn)
            }
        }
    }
}

// How near a session in a phase is to its next reply, in stages.
fn place_of(phase: &Phase) -> u32
    ensures { result ≡ stages_left phase.now }
{
    match phase {
        Phase::Outside => 4,
        Phase::Between => 3,
        Phase::Moved(_) => 1,
        Phase::Detaching => 2,
        Phase::Committing(_) => 2,
        Phase::Committed(_, _) => 1,
        Phase::Working(_) => 2,
        Phase::Told(_) => 1,
        Phase::Tidying => 2,
        Phase::Tidied(_) => 1,
        Phase::Over => 0,
    }
}

// A turn of a session in its world.
fn turn_once(world: &mut World<JcrLaw>, run: &mut SessionRun, s: u32) -> Turn
    requires there { IsTrue (is_some (slice_get world.old.history.sessions s)) }
    requires stands { (name : GName) → Stands world.old.law (shown_at name world.old s) run.old }
    ensures { HasTurnedIn s world.old world.new run.old run.new result }
{
    let mut port = SoloPort::new(world, s);
    turn(run, &mut port)
}

// What is kept of a commit behind a turn: a step may change it.
fn flight_by(
    alloc: Global,
    flight: Option<Flight>,
    turn: Turn,
    world: &World<JcrLaw>,
) -> Result<Option<Flight>, AllocError>
    ensures { IfOk result (λ after. after ≡ flight_by turn world.now.history.past flight) }
{
    match turn {
        Turn::Stepped(_) => flight_then(alloc, flight, world),
        _ => Ok(flight),
    }
}

// What is kept of a commit behind a step, by the event that the journal has last.
fn flight_then(
    alloc: Global,
    flight: Option<Flight>,
    world: &World<JcrLaw>,
) -> Result<Option<Flight>, AllocError>
    ensures { IfOk result (λ after. after ≡ flight_behind world.now.history.past flight) }
{
    match world.journal().events.as_slice().last() {
        Some(event) => flight_after(alloc, flight, event),
        None => Ok(flight),
    }
}

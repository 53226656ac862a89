// A worker: it runs its sessions one after another, each to its end, by a pass that has them.
ghost use Rattle.std.specs.Prelude.{◌≡◌, ◌≤◌, ◌<◌, ◌+◌, ◌%◌, IfOk, IsTrue, OnOk, length};
ghost use Rattle.std.specs.Borrow.{GName};
ghost use Rattle.jcr_run.specs.Standing.{Stands};
ghost use Rattle.jr_shared.specs.Holds.{has_seat};
ghost use Rattle.jr_shared.specs.Seen.{shown_through};
ghost use Rattle.jr_work.specs.Hands.{AreInHandOf};
ghost use Rattle.jr_stage.specs.Places.{commands_of};
ghost use Rattle.jr_stage.specs.Stages.{law_of};
ghost use Rattle.jr_work.specs.Workers.{HasNotBegun, HasRunOne, HasRunOut, HasWorked, IsCrewOf, IsHandedOut, IsJob, KnowsScript};
ghost use Rattle.seat_lock.specs.Passes.{IsOf, view_of};

use crate::gate::Gate;
use crate::hands::Hand;
use crate::port::{GatedPort, ScriptPort, TakenBy, Took};
use core_obeys::the_product_obeys;
use jcr_law::JcrLaw;
use jcr_run::{SessionRun, Turn};
use jcr_session::turn;
use jcr_trans::Command;
use jr_path::List;
use jr_script::Script;
use jr_shared::{LockedWorld, SharedWorld};
use jr_stage::session_of;
use jr_types::Registry;
use oak_port::Port;
use seat_lock::Pass;
use std::alloc::{AllocError, Global};
use std::marker::Brand;
use std::snapshot::Snapshot;
use std::sync::Wait;
use std::thread::yield_now;

// A pass of the world of a script.
pub(crate) type WorldPass = Pass<LockedWorld<JcrLaw>>;

// What the workers of a script share: the world, the node types, how many sessions and how many
// workers there are, and the gate. The script that all these are of is there for clauses alone.
#[derive(Drop)]
pub(crate) struct Crew<'a, R, G> {
    pub rt: &'a R,
    pub alloc: Global,
    pub shared: &'a SharedWorld<JcrLaw>,
    pub script: &'a Snapshot<Script>,
    pub types: &'a Registry,
    pub sessions: u32,
    pub workers: u32,
    pub gate: &'a G,
}

// What a worker begins with: its number, a pass that has its sessions, and their commands.
#[derive(Drop)]
pub(crate) struct Job {
    pub worker: u32,
    pub pass: WorldPass,
    pub hand: Hand,
}

// Runs the sessions of a worker. The pass is given back.
pub(crate) fn work<R: Wait, G: Gate>(
    crew: &Crew<'_, R, G>,
    job: Job,
) -> Result<WorldPass, AllocError>
    requires crew { IsCrewOf crew.now.script.now.value crew.now.types.now crew.now.sessions }
    requires some { 1 ≤ crew.now.workers }
    requires job { IsJob crew.now.script.now.value crew.now.workers crew.now.shared.now.lock job }
    ensures own { IfOk result (λ pass. IsOf crew.now.shared.now.lock pass) }
    ensures worked { IfOk result (λ pass. HasWorked crew.now.script.now.value crew.now.workers
        job.worker (view_of pass)) }
{
    let Job {
        worker,
        mut pass,
        hand,
    } = job;
    run_sessions(crew, &mut pass, worker, hand)?;
    Ok(pass)
}

// Runs the sessions of a worker, one after another. The sessions' commands are in hand.
fn run_sessions<R: Wait, G: Gate>(
    crew: &Crew<'_, R, G>,
    pass: &mut WorldPass,
    worker: u32,
    hand: Hand,
) -> Result<(), AllocError>
    requires crew { IsCrewOf crew.now.script.now.value crew.now.types.now crew.now.sessions }
    requires some { 1 ≤ crew.now.workers }
    requires own { IsOf crew.now.shared.now.lock pass.old }
    requires out { IsHandedOut crew.now.script.now.value crew.now.workers worker
        (view_of pass.old) }
    requires hand { AreInHandOf crew.now.script.now.value.sessions crew.now.workers worker 0 hand }
    ensures own { OnOk result (IsOf crew.now.shared.now.lock pass.new) }
    ensures worked { OnOk result (HasWorked crew.now.script.now.value crew.now.workers worker
        (view_of pass.new)) }
{
    let mut hand = hand;
    for s in 0..crew.sessions {
        if s % crew.workers == worker {
            run_next(crew, pass, s, &mut hand)?;
        }
    }
    Ok(())
}

// Runs a session of a worker, whose commands are next in hand, to its end.
fn run_next<R: Wait, G: Gate>(
    crew: &Crew<'_, R, G>,
    pass: &mut WorldPass,
    s: u32,
    hand: &mut Hand,
) -> Result<(), AllocError>
    requires crew { IsCrewOf crew.now.script.now.value crew.now.types.now crew.now.sessions }
    requires some { 1 ≤ crew.now.workers }
    requires there { s < length crew.now.script.now.value.sessions }
    requires own { IsOf crew.now.shared.now.lock pass.old }
    requires knows { KnowsScript crew.now.script.now.value (view_of pass.old) }
    requires first { HasNotBegun (view_of pass.old) s }
    requires hand { AreInHandOf crew.now.script.now.value.sessions crew.now.workers
        (s % crew.now.workers) s hand.old }
    ensures own { OnOk result (IsOf crew.now.shared.now.lock pass.new) }
    ensures ran { OnOk result (HasRunOne crew.now.script.now.value (view_of pass.old)
        (view_of pass.new) s) }
    ensures hand { AreInHandOf crew.now.script.now.value.sessions crew.now.workers
        (s % crew.now.workers) (s + 1) hand.new }
{
    match hand.next() {
        Some(commands) => run_session(crew, pass, s, commands),
        // Each session of the worker has its commands in hand.
        None => unreachable!(),
    }
}

// Runs a session of the pass that has not begun to its end. By the law that the product obeys it
// sees trees.
fn run_session<R: Wait, G: Gate>(
    crew: &Crew<'_, R, G>,
    pass: &mut WorldPass,
    s: u32,
    commands: List<Command>,
) -> Result<(), AllocError>
    requires crew { IsCrewOf crew.now.script.now.value crew.now.types.now crew.now.sessions }
    requires there { s < length crew.now.script.now.value.sessions }
    requires own { IsOf crew.now.shared.now.lock pass.old }
    requires knows { KnowsScript crew.now.script.now.value (view_of pass.old) }
    requires first { HasNotBegun (view_of pass.old) s }
    requires commands { commands ≡ commands_of crew.now.script.now.value s }
    ensures own { OnOk result (IsOf crew.now.shared.now.lock pass.new) }
    ensures ran { OnOk result (HasRunOne crew.now.script.now.value (view_of pass.old)
        (view_of pass.new) s) }
{
    the_product_obeys();
    let mut run = session_of(crew.alloc, crew.types, s, commands)?;
    run_through::<R, G, Brand>(crew, pass, s, &mut run)
}

// Runs a session of the pass to its end by a port of the pass.
fn run_through<R: Wait, G: Gate, K: Took>(
    crew: &Crew<'_, R, G>,
    pass: &mut WorldPass,
    s: u32,
    run: &mut SessionRun,
) -> Result<(), AllocError>
    requires own { IsOf crew.now.shared.now.lock pass.old }
    requires knows { KnowsScript crew.now.script.now.value (view_of pass.old) }
    requires seat { IsTrue (has_seat (view_of pass.old) s) }
    requires commands { run.old.commands ≡ commands_of crew.now.script.now.value s }
    requires stands { (name : GName) → Stands (law_of crew.now.script.now.value)
        (shown_through name (view_of pass.old) s) run.old }
    requires table { pass.old.seat.table_id ≡ K.table }
    requires view { view_of pass.old ≡ K.view }
    ensures own { OnOk result (IsOf crew.now.shared.now.lock pass.new) }
    ensures ran { OnOk result (HasRunOne crew.now.script.now.value (view_of pass.old)
        (view_of pass.new) s) }
{
    let port = ScriptPort {
        port: crew.shared.port::<R, TakenBy<K>>(crew.rt, pass, s),
    };
    let mut gated = GatedPort {
        port,
        gate: crew.gate,
        session: s,
    };
    to_end(crew.rt, run, &mut gated)
}

// Turns of a session to its end. Where it waits for what others have in flight they go first.
fn to_end<R: Wait, P: Port<L = JcrLaw>>(
    rt: &R,
    run: &mut SessionRun,
    port: &mut P,
) -> Result<(), AllocError>
    requires stands { Stands (P.law port.old) (P.shown port.old) run.old }
    ensures law { P.law port.new ≡ P.law port.old }
    ensures ended { OnOk result (HasRunOut (P.law port.old) (P.shown port.old) (P.shown port.new)
        run.old run.new) }
{
    'turns: for _ in rt.forever() {
        match turn(run, port) {
            Turn::Read => {}
            Turn::Stepped(_) => {}
            Turn::Said(_) => {}
            Turn::Waiting(_) => yield_now(),
            Turn::Ended => return Ok(()),
            Turn::Memory => return Err(AllocError),
        }
    }
    unreachable!()
}

// A script run by worker threads.
ghost use Rattle.std.specs.Prelude.{◌≡◌, ◌≤◌, ◌<◌, ◌+◌, ◌%◌, ◌==◌, ◌&&◌, ℕ, All, IfOk, OnOk, length, nat_lt, vec_len};
ghost use Rattle.jr_script.specs.Bounds.{IsWithin};
ghost use Rattle.jr_work.specs.Hands.{AreDealt, AreInHandOf};
ghost use Rattle.jr_stage.specs.Stages.{law_of};
ghost use Rattle.jr_work.specs.Workers.{AreGivenBack, AreInOrder, HasAll, HasHandedOut, HasRunByWorkers, HasWorked, IsCrewOf, IsJob};
ghost use Rattle.seat_lock.specs.Passes.{IsOf, view_of};
ghost use Rattle.seat_lock.specs.Views.{is_one_of};

use crate::gate::Gate;
use crate::hands::{Hand, deal};
use crate::worker::{Crew, Job, WorldPass, work};
use core_obeys::{the_product_answers_throughout, the_product_obeys_throughout};
use jcr_law::JcrLaw;
use jcr_trans::SessionScript;
use jr_path::List;
use jr_script::Script;
use jr_shared::SharedWorld;
use jr_stage::world_of;
use oak_world::World;
use std::alloc::{AllocError, Global};
use std::snapshot::Snapshot;
use std::sync::Wait;
use std::thread;
use std::thread::Threads;

/// Runs a script by a number of workers, 1 to 16, on threads of their own: worker w runs sessions
/// w, w + N, w + 2N and so on, each to its end, and calls the gate before each step. The schedule
/// is ignored. Answers the world once the last worker has returned. Where a worker's run ends for
/// want of memory the others go on to their end, and no world is answered. Waits for the lock of
/// the world, and nothing is said of when it returns.
pub fn run_workers<R: Threads + Wait + Sync, G: Gate + Sync>(
    rt: &R,
    alloc: Global,
    script: Script,
    workers: u32,
    gate: &G,
) -> Result<World<JcrLaw>, AllocError>
    requires within { IsWithin script }
    requires some { 1 ≤ workers }
    requires few { workers ≤ 16 }
    ensures { IfOk result (HasRunByWorkers script) }
{
    let shown = Snapshot::of(&script);
    let (shared, mut main, law) = share(alloc, script)?;
    let JcrLaw {
        types,
        sessions,
        ..
    } = law;
    let crew = Crew {
        rt,
        alloc,
        shared: &shared,
        script: &shown,
        types: &types,
        sessions: sessions.len() as u32,
        workers,
        gate,
    };
    run_all(&crew, &mut main, sessions)?;
    let world = shared.close(main);
    drop(types);
    world.journal();
    the_product_obeys_throughout();
    the_product_answers_throughout();
    Ok(world)
}

// The world of a script, shared, before any step; its first pass, which has each session; and the
// script's types and sessions, as its law.
fn share(
    alloc: Global,
    script: Script,
) -> Result<(SharedWorld<JcrLaw>, WorldPass, JcrLaw), AllocError>
    requires within { IsWithin script }
    ensures own { IfOk result (λ r. IsOf r.0.lock r.1) }
    ensures first { IfOk result (λ r. (workers : ℕ)
        → HasHandedOut script workers 0 (view_of r.1)) }
    ensures law { IfOk result (λ r. r.2 ≡ law_of script) }
{
    let Script {
        clusters,
        types,
        sessions,
        ..
    } = script;
    let law = JcrLaw {
        types,
        earlier: 0,
        sessions,
    };
    let world = world_of(alloc, clusters, &law)?;
    let (shared, pass) = SharedWorld::new(alloc, world)?;
    Ok((shared, pass, law))
}

// Runs the sessions by workers, and takes their passes back. Where one of them wanted memory its
// pass is lost.
fn run_all<R: Threads + Wait + Sync, G: Gate + Sync>(
    crew: &Crew<'_, R, G>,
    main: &mut WorldPass,
    sessions: List<SessionScript>,
) -> Result<(), AllocError>
    requires crew { IsCrewOf crew.now.script.now.value crew.now.types.now crew.now.sessions }
    requires some { 1 ≤ crew.now.workers }
    requires few { crew.now.workers ≤ 16 }
    requires own { IsOf crew.now.shared.now.lock main.old }
    requires first { HasHandedOut crew.now.script.now.value crew.now.workers 0 (view_of main.old) }
    requires sessions { sessions ≡ crew.now.script.now.value.sessions }
    ensures own { OnOk result (IsOf crew.now.shared.now.lock main.new) }
    ensures all { OnOk result (HasAll crew.now.script.now.value (view_of main.new)) }
{
    let hands = deal(crew.alloc, crew.workers, sessions)?;
    let jobs = jobs_of(crew, main, hands)?;
    let passes = run_jobs(crew, jobs)?;
    gather(crew, main, passes)
}

// What each worker begins with.
fn jobs_of<R, G>(
    crew: &Crew<'_, R, G>,
    main: &mut WorldPass,
    hands: Vec<Hand>,
) -> Result<Vec<Job>, AllocError>
    requires crew { IsCrewOf crew.now.script.now.value crew.now.types.now crew.now.sessions }
    requires some { 1 ≤ crew.now.workers }
    requires few { crew.now.workers ≤ 16 }
    requires own { IsOf crew.now.shared.now.lock main.old }
    requires first { HasHandedOut crew.now.script.now.value crew.now.workers 0 (view_of main.old) }
    requires dealt { AreDealt crew.now.script.now.value.sessions crew.now.workers hands.items }
    ensures own { IsOf crew.now.shared.now.lock main.new }
    ensures main { IfOk result (λ jobs. HasHandedOut crew.now.script.now.value crew.now.workers
        crew.now.workers (view_of main.new)) }
    ensures count { IfOk result (λ jobs. vec_len jobs ≡ crew.now.workers) }
    ensures order { IfOk result (λ jobs. AreInOrder jobs.items) }
    ensures ready { IfOk result (λ jobs. All (λ j. IsJob crew.now.script.now.value crew.now.workers
        crew.now.shared.now.lock j) jobs.items) }
{
    let mut jobs = Vec::new(crew.alloc);
    for hand in hands {
        let job = job_of(crew, main, jobs.len() as u32, hand)?;
        jobs.push(job)?;
    }
    Ok(jobs)
}

// What a worker begins with, once those before it have their sessions.
fn job_of<R, G>(
    crew: &Crew<'_, R, G>,
    main: &mut WorldPass,
    worker: u32,
    hand: Hand,
) -> Result<Job, AllocError>
    requires crew { IsCrewOf crew.now.script.now.value crew.now.types.now crew.now.sessions }
    requires some { 1 ≤ crew.now.workers }
    requires few { crew.now.workers ≤ 16 }
    requires below { worker < crew.now.workers }
    requires own { IsOf crew.now.shared.now.lock main.old }
    requires out { HasHandedOut crew.now.script.now.value crew.now.workers worker
        (view_of main.old) }
    requires hand { AreInHandOf crew.now.script.now.value.sessions crew.now.workers worker 0 hand }
    ensures own { IsOf crew.now.shared.now.lock main.new }
    ensures out { IfOk result (λ job. HasHandedOut crew.now.script.now.value crew.now.workers
        (worker + 1) (view_of main.new)) }
    ensures number { IfOk result (λ job. job.worker ≡ worker) }
    ensures ready { IfOk result (λ job. IsJob crew.now.script.now.value crew.now.workers
        crew.now.shared.now.lock job) }
{
    let sessions = sessions_of(crew, worker)?;
    let pass = crew.shared.split(main, sessions.as_slice());
    Ok(Job { worker, pass, hand })
}

// The sessions of a worker.
fn sessions_of<R, G>(crew: &Crew<'_, R, G>, worker: u32) -> Result<Vec<u32>, AllocError>
    requires crew { IsCrewOf crew.now.script.now.value crew.now.types.now crew.now.sessions }
    requires some { 1 ≤ crew.now.workers }
    ensures { IfOk result (λ sessions. (s : ℕ) → is_one_of sessions.items s
        ≡ (nat_lt s (length crew.now.script.now.value.sessions)
        && (s % crew.now.workers == worker))) }
{
    let mut sessions = Vec::new(crew.alloc);
    for s in 0..crew.sessions {
        if s % crew.workers == worker {
            sessions.push(s)?;
        }
    }
    Ok(sessions)
}

// Each worker does its job on a thread of its own.
fn run_jobs<R: Threads + Wait + Sync, G: Gate + Sync>(
    crew: &Crew<'_, R, G>,
    jobs: Vec<Job>,
) -> Result<Vec<Result<WorldPass, AllocError>>, AllocError>
    requires crew { IsCrewOf crew.now.script.now.value crew.now.types.now crew.now.sessions }
    requires some { 1 ≤ crew.now.workers }
    requires order { AreInOrder jobs.items }
    requires ready { All (λ j. IsJob crew.now.script.now.value crew.now.workers
        crew.now.shared.now.lock j) jobs.items }
    ensures count { IfOk result (λ passes. vec_len passes ≡ vec_len jobs) }
    ensures each { IfOk result (λ passes. AreGivenBack crew.now.script.now.value crew.now.workers
        crew.now.shared.now.lock passes.items) }
{
    thread::map_vec(
        crew.rt,
        jobs,
        &|job: Job| -> Result<WorldPass, AllocError>
            requires crew { IsCrewOf crew.now.script.now.value crew.now.types.now
                crew.now.sessions }
            requires some { 1 ≤ crew.now.workers }
            requires job { IsJob crew.now.script.now.value crew.now.workers
                crew.now.shared.now.lock job }
            ensures own { IfOk result (λ pass. IsOf crew.entry.now.shared.now.lock pass) }
            ensures worked { IfOk result (λ pass. HasWorked crew.entry.now.script.now.value
                crew.entry.now.workers job.worker (view_of pass)) }
        { work(crew, job) },
    )
}

// Joins the passes that the workers gave back.
fn gather<R, G>(
    crew: &Crew<'_, R, G>,
    main: &mut WorldPass,
    mut passes: Vec<Result<WorldPass, AllocError>>,
) -> Result<(), AllocError>
    requires crew { IsCrewOf crew.now.script.now.value crew.now.types.now crew.now.sessions }
    requires some { 1 ≤ crew.now.workers }
    requires own { IsOf crew.now.shared.now.lock main.old }
    requires out { HasHandedOut crew.now.script.now.value crew.now.workers crew.now.workers
        (view_of main.old) }
    requires count { vec_len passes ≡ crew.now.workers }
    requires each { AreGivenBack crew.now.script.now.value crew.now.workers crew.now.shared.now.lock
        passes.items }
    ensures own { IsOf crew.now.shared.now.lock main.new }
    ensures all { OnOk result (HasAll crew.now.script.now.value (view_of main.new)) }
{
    'passes: while let Some(pass) = passes.pop() {
        crew.shared.join(main, pass?);
    }
    Ok(())
}

// Workers run scripts: one goes on while the save of another stands between two of its steps, and
// what workers leave that are in each other's way is a run of the machine, in which each reply is
// one that the law lets be said.
ghost use Rattle.std.specs.Prelude.{◌≤◌};

use crate::runs::{source, words_of};
use crate::scripts::{before_all, law_of, may_say, push_copy, put_fault, script};
use jcr_law::JcrLaw;
use jr_io::MemSink;
use oak_machine::{Event, Journal, StepKind};
use oak_past::follows;
use oak_world::World;
use repo_top::{Gate, NoGate, repo_main, run_workers};
use rows::{Out, cut, short};
use std::hint;
use std::sync::Wait;
use std::sync::atomic::{AtomicBool, Ordering};
use std::thread::Threads;

// How often a session that is held looks whether it may go on.
const MOST_LOOKS: u64 = 100_000_000;

/// Holds session 0 before its last write until session 1 comes to its end.
#[derive(Drop)]
struct HoldsLast {
    has_left: AtomicBool,
    was_held: AtomicBool,
    gave_up: AtomicBool,
}

impl HoldsLast {
    fn new() -> HoldsLast {
        HoldsLast {
            has_left: AtomicBool::new(false),
            was_held: AtomicBool::new(false),
            gave_up: AtomicBool::new(false),
        }
    }

    // Looks until session 1 has come to its end, and gives up after that many looks.
    fn hold(&self) {
        self.was_held.store(true, Ordering::SeqCst);
        for _ in 0..MOST_LOOKS {
            if self.has_left.load(Ordering::SeqCst) {
                return;
            }
            hint::spin_loop();
        }
        self.gave_up.store(true, Ordering::SeqCst);
    }
}

impl Gate for HoldsLast {
    fn before(&self, session: u32, kind: StepKind) {
        match (session, kind) {
            (0, StepKind::Last) => self.hold(),
            (1, StepKind::End) => self.has_left.store(true, Ordering::SeqCst),
            _ => {}
        }
    }
}

// SCRIPT: whether session 0 was held before its last write until session 1 came to its end, whether
// it went on only then, and what is written, by two workers.
pub(crate) fn add_held<R: Threads + Wait + Sync>(rt: &R, text: &str, out: &mut Out) {
    let gate = HoldsLast::new();
    let sink = MemSink::new(out.alloc, 1000, 64, Vec::new(out.alloc));
    match sink {
        Ok(sink) => add_worked(rt, text, &gate, sink, out),
        Err(_) => out.is_broken = true,
    }
    put_gate(&gate, out);
}

fn put_gate(gate: &HoldsLast, out: &mut Out) {
    out.put(if gate.was_held.load(Ordering::SeqCst) {
        "held"
    } else {
        "never held"
    });
    if gate.gave_up.load(Ordering::SeqCst) {
        out.put(", and session 1 didn't come to its end");
    }
}

fn add_worked<R: Threads + Wait + Sync>(
    rt: &R,
    text: &str,
    gate: &HoldsLast,
    sink: MemSink,
    out: &mut Out,
) {
    let words = words_of("run --workers 2", out);
    let fails = Vec::new(out.alloc);
    let mut source = source(text.as_bytes(), 64, fails, out);
    let mut sink = sink;
    let mut left = None;
    repo_main(
        rt,
        out.alloc,
        words.as_slice(),
        &mut source,
        &mut sink,
        gate,
        &mut left,
    );
    out.put_bytes(sink.written());
    put_left(left, out);
    drop(sink);
    drop(source);
    drop(words);
}

fn put_left(left: Option<World<JcrLaw>>, out: &mut Out) {
    match &left {
        Some(world) => out.put(order_word(world.journal())),
        None => out.put("no world "),
    }
    drop(left);
}

fn order_word(journal: &Journal) -> &'static str {
    if is_behind(journal) {
        "behind "
    } else {
        "too early "
    }
}

// Whether the last write of cluster node 1 stands behind each reply of session 1.
fn is_behind(journal: &Journal) -> bool {
    let mut committed = false;
    for event in journal.events.as_slice() {
        match event {
            Event::Commit(revision) if revision.cluster == 1 => committed = true,
            Event::Said(1, ..) if committed => return false,
            _ => {}
        }
    }
    committed
}

// RUNS SCRIPT: whether what eight workers leave of the script is lawful in each of so many runs.
pub(crate) fn add_lawful<R: Threads + Wait + Sync>(rt: &R, rest: &str, out: &mut Out) {
    let (runs, text) = cut(rest);
    let law = law_of(text, out);
    if let Some(law) = &law {
        let are_lawful = are_lawful(rt, law, short(runs), text, out);
        out.put_answer(are_lawful);
    }
    drop(law);
}

fn are_lawful<R: Threads + Wait + Sync>(
    rt: &R,
    law: &JcrLaw,
    runs: u32,
    text: &str,
    out: &mut Out,
) -> bool {
    for _ in 0..runs {
        if !worked_lawfully(rt, law, text, out) {
            return false;
        }
    }
    true
}

// Whether what eight workers leave of a script is lawful.
fn worked_lawfully<R: Threads + Wait + Sync>(
    rt: &R,
    law: &JcrLaw,
    text: &str,
    out: &mut Out,
) -> bool {
    let world = worked(rt, text, 8, out);
    let is_lawful = match &world {
        Some(world) => is_lawful(law, world.journal(), out),
        None => false,
    };
    drop(world);
    is_lawful
}

// The world that so many workers leave of a script.
fn worked<R: Threads + Wait + Sync>(
    rt: &R,
    text: &str,
    workers: u32,
    out: &mut Out,
) -> Option<World<JcrLaw>>
    requires some { 1 ≤ workers }
    requires few { workers ≤ 16 }
{
    match script(out.alloc, text) {
        Ok(script) => {
            let world = run_workers(rt, out.alloc, script, workers, &NoGate);
            out.got(world)
        }
        Err(fault) => {
            put_fault(fault, out);
            None
        }
    }
}

// Whether each event of a journal may follow what is before it, and the law lets each reply be said
// there.
fn is_lawful(law: &JcrLaw, journal: &Journal, out: &mut Out) -> bool {
    match before_all(out.alloc, journal) {
        Ok(before) => goes_on(law, before, journal, out),
        Err(_) => {
            out.is_broken = true;
            false
        }
    }
}

fn goes_on(law: &JcrLaw, before: Journal, journal: &Journal, out: &mut Out) -> bool {
    let mut before = before;
    let mut is_lawful = true;
    for event in journal.events.as_slice() {
        is_lawful = is_lawful && may_come(law, &before, event, out);
        let pushed = push_copy(&mut before, event);
        out.note(pushed);
    }
    drop(before);
    is_lawful
}

fn may_come(law: &JcrLaw, before: &Journal, event: &Event, out: &mut Out) -> bool {
    follows(before, event) && is_said(law, before, event, out)
}

fn is_said(law: &JcrLaw, before: &Journal, event: &Event, out: &mut Out) -> bool {
    match event {
        Event::Said(session, index, text) => {
            may_say(law, before, (*session, *index), text.as_str(), out)
        }
        _ => true,
    }
}

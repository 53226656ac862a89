// Scripts and what they lead to.
ghost use Rattle.std.specs.Prelude.{IfOk};
ghost use Rattle.jr_script.specs.Bounds.{IsWithin};

use crate::copies::event_of;
use crate::loads::reads_of;
use crate::past::{add_order, add_past};
use crate::told::told;
use jcr_eval::eval;
use jcr_law::JcrLaw;
use jr_path::DeepCopy;
use jr_print::lines;
use jr_script::{Script, ScriptFault, read_script, scripts_are_within};
use oak_machine::{Event, Events, Journal};
use oak_world::World;
use repo_top::run_steps;
use rows::Out;
use std::alloc::{AllocError, Global};

pub(crate) fn add(word: &str, text: &str, out: &mut Out) {
    let world = ran(text, out);
    if let Some(world) = &world {
        put_world(word, text, world, out);
    }
    drop(world);
}

// The world that the run of a script leaves; the fault of a text that is no script.
pub(crate) fn ran(text: &str, out: &mut Out) -> Option<World<JcrLaw>> {
    match script(out.alloc, text) {
        Ok(script) => run(script, out),
        Err(fault) => {
            put_fault(fault, out);
            None
        }
    }
}

fn run(script: Script, out: &mut Out) -> Option<World<JcrLaw>>
    requires { IsWithin script }
{
    let world = run_steps(out.alloc, script);
    out.got(world)
}

pub(crate) fn script(alloc: Global, text: &str) -> Result<Script, ScriptFault>
    ensures { IfOk result IsWithin }
{
    match read_script(alloc, text.as_bytes()) {
        Ok(script) => {
            scripts_are_within();
            Ok(script)
        }
        Err(fault) => Err(fault),
    }
}

// The rule that is broken, and where.
pub(crate) fn put_fault(fault: ScriptFault, out: &mut Out) {
    match &fault {
        ScriptFault::Bad { rule, pointer, .. } => {
            out.put_number(u64::from(*rule));
            out.put(" ");
            out.put(pointer.as_str());
        }
        ScriptFault::Memory => out.put("memory"),
    }
    drop(fault);
}

fn put_world(word: &str, text: &str, world: &World<JcrLaw>, out: &mut Out) {
    match word {
        "replies" => put_replies(world.journal(), out),
        "told" => told(world, out),
        "law" => put_law(text, world.journal(), out),
        "past" => add_past(world.journal(), out),
        "order" => add_order(world.journal(), out),
        _ => put_reads(world, out),
    }
}

fn put_replies(journal: &Journal, out: &mut Out) {
    match lines(out.alloc, journal) {
        Ok(text) => out.put_bytes(text.as_slice()),
        Err(_) => out.is_broken = true,
    }
}

// How many documents session 1 read; none where there is no such session.
fn put_reads(world: &World<JcrLaw>, out: &mut Out) {
    if let Some(reads) = reads_of(world) {
        out.put_number(reads);
    }
}

// The law of a script; the fault of a text that is no script. The run takes the commands, so the
// script is read once more for it.
pub(crate) fn law_of(text: &str, out: &mut Out) -> Option<JcrLaw> {
    match script(out.alloc, text) {
        Ok(script) => Some(law_in(script, 0)),
        Err(fault) => {
            put_fault(fault, out);
            None
        }
    }
}

// The law of a script, before whose sessions there were so many.
pub(crate) fn law_in(script: Script, earlier: u32) -> JcrLaw {
    let Script {
        types,
        sessions,
        ..
    } = script;
    JcrLaw {
        types,
        earlier,
        sessions,
    }
}

// The lines of the replies of the journal, each as the law of the script lets its session say it by
// the journal before.
fn put_law(text: &str, journal: &Journal, out: &mut Out) {
    let law = law_of(text, out);
    if let Some(law) = &law {
        put_lawful(law, journal, out);
    }
    drop(law);
}

fn put_lawful(law: &JcrLaw, journal: &Journal, out: &mut Out) {
    match before_all(out.alloc, journal) {
        Ok(before) => put_events(law, before, journal, out),
        Err(_) => out.is_broken = true,
    }
}

// The journal without its events.
pub(crate) fn before_all(alloc: Global, journal: &Journal) -> Result<Journal, AllocError> {
    let sessions = journal.sessions.copy()?;
    Ok(Journal {
        clusters: journal.clusters,
        sessions,
        events: Events::new(alloc),
        start: None,
    })
}

fn put_events(law: &JcrLaw, before: Journal, journal: &Journal, out: &mut Out) {
    let mut before = before;
    for event in journal.events.as_slice() {
        put_event(law, &before, event, out);
        let pushed = push_copy(&mut before, event);
        out.note(pushed);
    }
    drop(before);
}

pub(crate) fn push_copy(journal: &mut Journal, event: &Event) -> Result<(), AllocError> {
    journal.events.push(event_of(event)?)
}

fn put_event(law: &JcrLaw, before: &Journal, event: &Event, out: &mut Out) {
    if let Event::Said(session, index, text) = event {
        out.put_number(u64::from(*session));
        out.put_numbered(" ", u64::from(*index));
        out.put(" ");
        put_said(law, before, (*session, *index), text.as_str(), out);
        out.put("\n");
    }
}

// The reply, where the law lets it be said.
fn put_said(law: &JcrLaw, before: &Journal, at: (u32, u32), text: &str, out: &mut Out) {
    let may = may_say(law, before, at, text, out);
    out.put(if may { text } else { "unlawful" });
}

// Whether the law lets a text be said behind a journal as the reply of a session and an index.
pub(crate) fn may_say(
    law: &JcrLaw,
    before: &Journal,
    at: (u32, u32),
    text: &str,
    out: &mut Out,
) -> bool {
    match eval(out.alloc, law, before, at.0, at.1, text) {
        Ok(may) => may,
        Err(_) => {
            out.is_broken = true;
            false
        }
    }
}

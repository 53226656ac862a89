// Journals by the plain calls of the machine.
use crate::scripts::{before_all, push_copy};
use jr_rev::{RevVec, Revision};
use jr_tree::Tree;
use oak_machine::{Event, Journal, StepKind};
use oak_past::{follows, local_head, tree_at};
use rows::Out;

// Of each event of the journal, whether it may follow what is before it, with the head
// there, and whether it may follow once more; and how many nodes there are at a login and at a
// head.
pub(crate) fn add_past(journal: &Journal, out: &mut Out) {
    match before_all(out.alloc, journal) {
        Ok(before) => add_events(journal, before, out),
        Err(_) => out.is_broken = true,
    }
}

fn add_events(journal: &Journal, before: Journal, out: &mut Out) {
    let mut before = before;
    for event in journal.events.as_slice() {
        add_follows(&before, event, out);
        let pushed = push_copy(&mut before, event);
        out.note(pushed);
        add_after(&before, event, out);
    }
    drop(before);
}

fn add_follows(before: &Journal, event: &Event, out: &mut Out) {
    add_may(before, event, out);
    match local_head(before, 1) {
        Some(r) => out.put_number(r.time),
        None => out.put("-"),
    }
}

fn add_after(after: &Journal, event: &Event, out: &mut Out) {
    if is_once(event) {
        add_may(after, event, out);
    }
    match event {
        Event::Login(_, v) => add_nodes(after, v, out),
        Event::Head(_, v) => add_head(after, v, out),
        _ => {}
    }
    out.put(" ");
}

// How many nodes there are at a head, and whether a bound may follow there, or a later one, or a
// head that goes back, or one of a cluster node that isn't there.
fn add_head(after: &Journal, v: &RevVec, out: &mut Out) {
    add_nodes(after, v, out);
    let start = RevVec::start(1);
    add_made(after, Event::Bound(*v, start), out);
    add_made(after, Event::Bound(later(v), start), out);
    add_made(after, Event::Head(1, start), out);
    add_made(after, Event::Head(2, *v), out);
}

fn add_made(after: &Journal, event: Event, out: &mut Out) {
    add_may(after, &event, out);
    drop(event);
}

fn later(v: &RevVec) -> RevVec {
    let mut later = *v;
    later.set(Revision {
        time: 99,
        counter: 0,
        cluster: 1,
    });
    later
}

fn add_may(after: &Journal, event: &Event, out: &mut Out) {
    out.put(if follows(after, event) { "y" } else { "n" });
}

fn is_once(event: &Event) -> bool {
    matches!(
        event,
        Event::Login(..) | Event::Draw(_) | Event::Commit(_) | Event::End(_) | Event::Said(..)
    )
}

fn add_nodes(journal: &Journal, v: &RevVec, out: &mut Out) {
    match tree_at(journal, v) {
        Ok(tree) => put_size(tree, out),
        Err(_) => out.is_broken = true,
    }
}

fn put_size(tree: Tree, out: &mut Out) {
    out.put_numbered("/", tree.len() as u64);
    drop(tree);
}

// The events in their order, each with its session.
pub(crate) fn add_order(journal: &Journal, out: &mut Out) {
    for event in journal.events.as_slice() {
        add_event(event, out);
        out.put(" ");
    }
}

fn add_event(event: &Event, out: &mut Out) {
    match event {
        Event::Login(s, _) => out.put_numbered("Login", u64::from(*s)),
        Event::Draw(d) => out.put_numbered("Draw", u64::from(d.session)),
        Event::Went(s, StepKind::Write) => out.put_numbered("Write", u64::from(*s)),
        Event::Went(s, StepKind::End) => out.put_numbered("Left", u64::from(*s)),
        Event::Commit(_) => out.put("Commit"),
        Event::End(_) => out.put("End"),
        Event::Head(..) => out.put("Head"),
        Event::Refresh(s, _) => out.put_numbered("Refresh", u64::from(*s)),
        Event::Said(s, _, _) => out.put_numbered("Said", u64::from(*s)),
        _ => out.put("another"),
    }
}

// Events: lists that begin with the name of an event. What is none breaks the row.
use jr_path::{Item, List, Name, Text};
use jr_rev::{RevVec, Revision};
use jr_tree::{Edit, Tree};
use oak_doc::{Collected, SplitEnd};
use oak_machine::{Draw, Event, Events, StepKind};
use rows::{Out, edit_of, items_of, large, revision, small, text_in};
use serde_json::Value as Json;

// Appends the events.
pub(crate) fn push_all(events: &mut Events, items: &[Json], out: &mut Out) {
    for item in items {
        let pushed = events.push(event(item, out));
        out.note(pushed);
    }
}

fn event(item: &Json, out: &mut Out) -> Event {
    match items_of(item) {
        Some([word, rest @ ..]) => event_of(text_in(word), rest, out),
        _ => no_event(out),
    }
}

fn no_event(out: &mut Out) -> Event {
    out.is_broken = true;
    Event::Stop(0)
}

fn event_of(word: &str, rest: &[Json], out: &mut Out) -> Event {
    match rest {
        [one] => of_one(word, one, out),
        [one, two] => of_two(word, one, two, out),
        [one, two, three] => of_three(word, one, two, three, out),
        [one, two, three, four] => of_four(word, one, two, three, four, out),
        _ => no_event(out),
    }
}

fn of_one(word: &str, one: &Json, out: &mut Out) -> Event {
    match word {
        "commit" => Event::Commit(revision_in(one, out)),
        "end" => Event::End(revision_in(one, out)),
        "detach" => Event::Detach(small(one)),
        "release" => Event::Release(copied(one, out)),
        "stop" => Event::Stop(small(one)),
        "recover" => Event::Recover(small(one)),
        _ => no_event(out),
    }
}

fn of_two(word: &str, one: &Json, two: &Json, out: &mut Out) -> Event {
    match word {
        "login" => Event::Login(small(one), vector_in(two, out)),
        "refresh" => Event::Refresh(small(one), vector_in(two, out)),
        "head" => Event::Head(small(one), vector_in(two, out)),
        "in" => Event::In(small(one), vector_in(two, out)),
        "out" => Event::Out(small(one), revision_in(two, out)),
        "sweep" => Event::Sweep(small(one), revision_in(two, out)),
        "bound" => Event::Bound(vector_in(one, out), vector_in(two, out)),
        "went" => Event::Went(small(one), kind_of(text_in(two), out)),
        "attach" => Event::Attach(small(one), copied(two, out)),
        "checkpoint" => Event::Checkpoint(copied(one, out), vector_in(two, out)),
        _ => no_event(out),
    }
}

// ["said",S,INDEX,TEXT], ["refuse",R,P,O], where the item is a node, ["split",S,P,["moved",N]] or
// ["split",S,P,["skipped",READ,FOUND]], or ["collected",S,DOCUMENTS,ENTRIES], where nothing was
// skipped.
fn of_three(word: &str, one: &Json, two: &Json, three: &Json, out: &mut Out) -> Event {
    match word {
        "said" => Event::Said(small(one), small(two), copied(three, out)),
        "refuse" => refusal(one, two, None, three, out),
        "split" => split(small(one), two, items_of(three), out),
        "collected" => collected(small(one), large(two), large(three), out),
        _ => no_event(out),
    }
}

// ["draw",S,R,BASE,EDIT], or ["refuse",R,P,N,O], where the item is a property.
fn of_four(word: &str, one: &Json, two: &Json, three: &Json, four: &Json, out: &mut Out) -> Event {
    match word {
        "draw" => draw(small(one), two, three, four, out),
        "refuse" => refusal(one, two, name_in(three, out), four, out),
        _ => no_event(out),
    }
}

pub(crate) fn vector_in(json: &Json, out: &mut Out) -> RevVec {
    match RevVec::parse(text_in(json).as_bytes()) {
        Ok(vector) => vector,
        Err(_) => {
            out.is_broken = true;
            RevVec::none()
        }
    }
}

fn revision_in(json: &Json, out: &mut Out) -> Revision {
    match Revision::parse(text_in(json).as_bytes()) {
        Ok(revision) => revision,
        Err(_) => {
            out.is_broken = true;
            revision("")
        }
    }
}

fn copied(json: &Json, out: &mut Out) -> Text {
    match Text::copy_of(out.alloc, text_in(json)) {
        Ok(text) => text,
        Err(_) => {
            out.is_broken = true;
            Text::new(out.alloc)
        }
    }
}

fn name_in(json: &Json, out: &mut Out) -> Option<Name> {
    match Name::parse(out.alloc, text_in(json)) {
        Ok(name) => Some(name),
        Err(_) => {
            out.is_broken = true;
            None
        }
    }
}

fn kind_of(word: &str, out: &mut Out) -> StepKind {
    match word {
        "pin" => StepKind::Pin,
        "back" => StepKind::Back,
        "write" => StepKind::Write,
        "mark" => StepKind::Mark,
        "undo" => StepKind::Undo,
        "settings" => StepKind::Settings,
        "stop" => StepKind::Stop,
        "end" => StepKind::End,
        _ => {
            out.is_broken = true;
            StepKind::End
        }
    }
}

// The edit that JSON is, to be made from an empty tree.
pub(crate) fn edit_in(json: &Json, out: &mut Out) -> Edit {
    let tree = Tree::new(out.alloc);
    let edit = edit_of(json, &tree, out);
    drop(tree);
    match edit {
        Some(edit) => edit,
        None => no_edit(out),
    }
}

fn no_edit(out: &mut Out) -> Edit {
    out.is_broken = true;
    Edit {
        writes: List::new(out.alloc),
    }
}

// Replies don't depend on the marks, and there are none.
fn draw(session: u32, drawn: &Json, base: &Json, edit: &Json, out: &mut Out) -> Event {
    Event::Draw(Draw {
        revision: revision_in(drawn, out),
        session,
        base: vector_in(base, out),
        edit: edit_in(edit, out),
        marks: List::new(out.alloc),
    })
}

fn refusal(own: &Json, path: &Json, name: Option<Name>, other: &Json, out: &mut Out) -> Event {
    let item = Item {
        path: out.path_or_root(text_in(path)),
        name,
    };
    Event::Refuse(revision_in(own, out), item, revision_in(other, out))
}

fn split(session: u32, path: &Json, end: Option<&[Json]>, out: &mut Out) -> Event {
    match end {
        Some([_, moved]) => split_by(session, path, SplitEnd::Split(large(moved)), out),
        Some([_, read, found]) => {
            split_by(
                session,
                path,
                SplitEnd::Skipped(large(read), large(found)),
                out,
            )
        }
        _ => no_event(out),
    }
}

fn split_by(session: u32, path: &Json, end: SplitEnd, out: &mut Out) -> Event {
    Event::Split(session, out.path_or_root(text_in(path)), end)
}

fn collected(session: u32, documents: u64, entries: u64, out: &mut Out) -> Event {
    let collected = Collected {
        entries,
        documents,
        skipped: List::new(out.alloc),
    };
    Event::Collected(session, collected)
}

// Copies of events.
use jr_path::{DeepCopy, Item, Path, Text};
use jr_rev::{RevVec, Revision};
use oak_doc::{Collected, SplitEnd};
use oak_machine::{Draw, Event};
use std::alloc::AllocError;

pub(crate) fn event_of(event: &Event) -> Result<Event, AllocError> {
    match event {
        Event::Login(session, base) => Ok(Event::Login(*session, *base)),
        Event::Refresh(session, base) => Ok(Event::Refresh(*session, *base)),
        Event::Draw(draw) => drawn(draw),
        Event::Commit(r) => Ok(Event::Commit(*r)),
        Event::Refuse(r, item, other) => refused(*r, item, *other),
        Event::End(r) => Ok(Event::End(*r)),
        Event::Head(cluster, head) => Ok(Event::Head(*cluster, *head)),
        Event::Out(cluster, r) => Ok(Event::Out(*cluster, *r)),
        Event::In(cluster, vector) => Ok(Event::In(*cluster, *vector)),
        Event::Sweep(cluster, r) => Ok(Event::Sweep(*cluster, *r)),
        Event::Bound(vector, sweep) => Ok(Event::Bound(*vector, *sweep)),
        Event::Checkpoint(id, vector) => checked(id, *vector),
        Event::Attach(session, id) => attached(*session, id),
        Event::Detach(session) => Ok(Event::Detach(*session)),
        Event::Release(id) => released(id),
        Event::Split(session, path, end) => split(*session, path, *end),
        Event::Collected(session, end) => collected(*session, end),
        Event::Went(session, kind) => Ok(Event::Went(*session, *kind)),
        Event::Said(session, index, text) => said(*session, *index, text),
        Event::Stop(cluster) => Ok(Event::Stop(*cluster)),
        Event::Recover(cluster) => Ok(Event::Recover(*cluster)),
    }
}

fn drawn(draw: &Draw) -> Result<Event, AllocError> {
    Ok(Event::Draw(draw_of(draw)?))
}

fn draw_of(draw: &Draw) -> Result<Draw, AllocError> {
    let edit = draw.edit.copy()?;
    let marks = draw.marks.copy()?;
    Ok(Draw {
        revision: draw.revision,
        session: draw.session,
        base: draw.base,
        edit,
        marks,
    })
}

fn refused(r: Revision, item: &Item, other: Revision) -> Result<Event, AllocError> {
    Ok(Event::Refuse(r, item.copy()?, other))
}

fn checked(id: &Text, vector: RevVec) -> Result<Event, AllocError> {
    Ok(Event::Checkpoint(id.copy()?, vector))
}

fn attached(session: u32, id: &Text) -> Result<Event, AllocError> {
    Ok(Event::Attach(session, id.copy()?))
}

fn released(id: &Text) -> Result<Event, AllocError> {
    Ok(Event::Release(id.copy()?))
}

fn split(session: u32, path: &Path, end: SplitEnd) -> Result<Event, AllocError> {
    Ok(Event::Split(session, path.copy()?, end))
}

fn collected(session: u32, end: &Collected) -> Result<Event, AllocError> {
    Ok(Event::Collected(session, end.copy()?))
}

fn said(session: u32, index: u32, text: &Text) -> Result<Event, AllocError> {
    Ok(Event::Said(session, index, text.copy()?))
}

// What is kept of a commit in flight.
ghost use Rattle.std.specs.Prelude.{◌≡◌, ◌&&◌, IfOk, nat_le};
ghost use Rattle.jr_stage.specs.Flights.{flight_with};
ghost use Rattle.jr_stage.specs.SoFar.{is_last_due};
ghost use Rattle.jr_stage.specs.Stages.{has_come_by};

use jr_rev::Revision;
use jr_script::Entry;
use oak_clash::marked_paths;
use oak_machine::{Event, StepKind};
use std::alloc::{AllocError, Global};

// A commit in flight: its revision, how many documents it has to write, and how many of them are
// written. While it is undecided, it is neither committed nor refused, and nothing of it is undone.
#[derive(Clone, Copy, PartialEq, Eq)]
pub(crate) struct Flight {
    pub revision: Revision,
    pub documents: usize,
    pub written: usize,
    pub undecided: bool,
}

impl Flight {
    // Whether a commit has come to where an entry waits for it: the revision is drawn, the number
    // of documents is written, or only the last write is left, and due.
    pub(crate) fn has_come(&self, due: Option<StepKind>, entry: Entry) -> bool
        ensures { result ≡ has_come_by self.now due entry }
    {
        match entry {
            Entry::Draw(_) => true,
            Entry::Write(_, count) => count as usize <= self.written,
            Entry::Last(_) => self.is_at_last(due),
            _ => false,
        }
    }

    // Whether only the last write is left, and due.
    fn is_at_last(&self, due: Option<StepKind>) -> bool
        ensures { result ≡ (nat_le self.now.documents self.now.written && self.now.undecided
            && is_last_due due) }
    {
        if self.written < self.documents {
            return false;
        }
        if !self.undecided {
            return false;
        }
        is_last(due)
    }
}

// Whether a last write is due.
fn is_last(due: Option<StepKind>) -> bool
    ensures { result ≡ is_last_due due }
{
    match due {
        Some(kind) => matches!(kind, StepKind::Last),
        None => false,
    }
}

// What is kept once this event of the session is the newest one.
pub(crate) fn flight_after(
    alloc: Global,
    flight: Option<Flight>,
    event: &Event,
) -> Result<Option<Flight>, AllocError>
    ensures { IfOk result (λ after. after ≡ flight_with event.now flight) }
{
    match event {
        Event::Draw(draw) => Ok(Some(Flight {
            revision: draw.revision,
            documents: marked_paths(alloc, draw.marks.as_slice())?.len(),
            written: 0,
            undecided: true,
        })),
        Event::Went(_, StepKind::Write) => match flight {
            Some(flight) => Ok(Some(Flight {
                written: flight.written.checked_add(1).ok_or(AllocError)?,
                ..flight
            })),
            None => Ok(None),
        },
        Event::Commit(_) | Event::Refuse(_, _, _) | Event::Went(_, StepKind::Undo) => {
            Ok(flight.map(|flight| Flight {
                undecided: false,
                ..flight
            }))
        }
        Event::End(_) | Event::Head(_, _) => Ok(None),
        _ => Ok(flight),
    }
}

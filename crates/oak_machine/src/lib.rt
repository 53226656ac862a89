//! The journal, what it means, and which event may follow it.
#![tactic(auto)]

mod event;
mod events;
mod law;

pub use event::{Draw, Event, Journal, Start, StepKind};
pub use events::Events;
pub use law::{IdleLaw, Law, machine_and_law};

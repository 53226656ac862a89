//! Observation: the events of commits, as a session's filter lets them pass (JSR 283, 12 Observation), and their text.
#![tactic(auto)]

mod event;
mod laws;
mod passing;
mod text;

pub use event::{
    Filter, JcrEvent, NODE_ADDED, NODE_REMOVED, PERSIST, PROPERTY_ADDED, PROPERTY_CHANGED,
    PROPERTY_REMOVED,
};
pub use laws::changes_are_differences;
pub use passing::events;
pub use text::events_text;

//! Checkpoints and attached readers: the updates of the settings' document that make, attach and release
//! them (Oak, DocumentNodeStore: "Checkpoints").
#![tactic(auto)]

mod laws;
mod settings;

pub use laws::what_the_settings_keep;
pub use settings::{attach, create, detach, drop_readers, found, release};

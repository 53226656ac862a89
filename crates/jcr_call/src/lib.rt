//! What a command of a session comes to, by plain calls: the edit that is due for it and its plan,
//! or the reply to it. The program of the law and the sessions stand on them.
#![tactic(auto)]

mod allowed;
mod checkpoints;
mod coming;
mod due;
mod footing;
mod ids;
mod proper;
mod queries;
mod replies;
mod rooted;
mod tidied;
mod tokens;
mod versions;

pub use allowed::{commits, is_allowed};
pub use checkpoints::{NextCheckpoint, next_checkpoint};
pub use coming::{Accepted, Coming, come};
pub use due::{Due, edit_due};
pub use footing::Footing;
pub use ids::{next_id, used};
pub use proper::is_proper;
pub use queries::{pairs_of, query_reply, sets_of, unknown_selector};
pub use replies::{cause_text, events_reply, version_reply};
pub use tidied::{collected_reply, split_reply};
pub use tokens::{with_token, without_token};

//! What a journal says of a session by the law of the whole content, by plain calls that go over
//! all its events: its state, what its next command is run with, and what came since its last
//! reply.
#![tactic(auto)]

mod call;
mod came;
mod shown;
mod since;
mod state;
mod turn;

pub use call::{Call, call_of};
pub use came::{
    detached_since, has_attached, has_collection, has_found_stopped, has_in, has_kept, has_missed,
    has_out, has_pin, has_recovery, has_released, has_split, has_stop, has_sweep,
};
pub use shown::{is_done, is_refusal, is_text, is_vector};
pub use since::{draw_since, is_unmoved, is_unpinned, stop_position};
pub use state::command_at;
pub use turn::before_turn;

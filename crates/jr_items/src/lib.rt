//! Names that the repository gives a meaning, words on the items of a tree that several rules share, and why commands are refused.
#![tactic(auto)]

mod items;
mod own;
mod place;
mod refusals;

pub use items::{has_mixin, is_flag, is_same_text, one_text, upward};
pub use own::OwnName;
pub use place::{check_limits, check_node, check_not_system, check_place};
pub use refusals::{
    breaks_rule, checked_in, clash, dangling, locked, no_checkpoint, no_identifier, no_item,
    no_query, no_type, over_limit, own_item_rule, own_rule, taken, unsupported, wrong_kind,
};

// What a session has beside its base.
use jcr_observe::Filter;
use jr_path::{List, Text};
use jr_rev::RevVec;
use jr_tree::Tree;

/// A cursor over the changes (JSR 283, 12 Observation): where it stands, and which events pass.
#[derive(Drop)]
pub struct Cursor {
    pub at: RevVec,
    pub filter: Filter,
}

/// What a session has beside its base: its view, which is the tree at the base with its pending
/// edits; the lock tokens that it holds; its cursor; and how many identifiers it has drawn, at most
/// 16,777,215.
#[derive(Drop)]
pub struct State {
    pub view: Tree,
    pub tokens: List<Text>,
    pub cursor: Option<Cursor>,
    pub ids: u32,
}

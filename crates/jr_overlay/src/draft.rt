// What a command makes of a view, step by step, before any of it counts.
ghost use Rattle.std.specs.Prelude.{◌≡◌, [], OnOk, OnErr};
ghost use Rattle.std.specs.Option.{option_copied};
ghost use Rattle.jr_overlay.specs.Drafts.{in_draft, with_step};

use crate::Sight;
use jr_path::{DeepCopy, Keyed, Path};
use jr_tree::Node;
use std::alloc::{AllocError, Global};
use std::marker::Model;

/// A draft over a view: the nodes that a command put or took away so far.
#[derive(Drop)]
pub struct Draft<'a> {
    sight: Sight<'a>,
    steps: Keyed<Path, Option<Node>>,
}

impl<'a> Model for Draft<'a> {
    ghost use Rattle.jr_overlay.specs.Drafts.{Drafting};

    ghost Value = { Drafting };

    ghost view = { λ d. record { sight = d.sight; steps = d.steps } };
}

impl<'a> Draft<'a> {
    /// A draft in which nothing is made. It takes no memory.
    pub fn new(alloc: Global, sight: Sight<'a>) -> Draft<'a>
        ensures sight { result.sight ≡ sight.entry }
        ensures steps { result.steps ≡ [] }
    {
        Draft {
            sight,
            steps: Keyed::new(alloc),
        }
    }

    /// The node at a path, as the draft has it, or else as it is seen.
    pub fn node(&self, path: &Path) -> Option<&Node>
        ensures { option_copied result ≡ in_draft self.now path.now }
    {
        match self.steps.get(path) {
            Some(node) => node.as_ref(),
            None => self.sight.node(path),
        }
    }

    /// The view that the draft is over.
    pub fn sight(&self) -> &Sight<'a>
        ensures { result.now ≡ self.now.sight }
    {
        &self.sight
    }

    /// Puts a node at a path, or none, in the place of what stood there. A refusal leaves the draft as it was.
    pub fn put(&mut self, path: &Path, node: Option<Node>) -> Result<(), AllocError>
        ensures sight { self.new.sight ≡ self.old.sight }
        ensures ok { OnOk result (self.new.steps ≡ with_step self.old.steps path.now node) }
        ensures err { OnErr result (self.new.steps ≡ self.old.steps) }
    {
        self.steps.put(path.copy()?, node)
    }

    /// What the draft has at each touched path.
    pub fn into_steps(self) -> Keyed<Path, Option<Node>>
        ensures { result ≡ self.entry.steps }
    {
        self.steps
    }
}

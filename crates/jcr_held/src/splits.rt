// What a `split` begins with.
ghost use Rattle.std.specs.Prelude.{◌≡◌, IfErr, IfOk, IsTrue, None, OnOk};
ghost use Rattle.jr_tree.specs.Trees.{Nodes};
ghost use Rattle.jr_items.specs.Refusals.{IsTheRefusal};
ghost use Rattle.jr_part.specs.Parts.{AgreesWith, knows};
ghost use Rattle.jr_part.specs.declared.need.Need.TheVariants as need;
ghost use Rattle.jcr_trans.specs.declared.command.Command.TheVariants as command;
ghost use Rattle.jcr_law.specs.State.{Call};
ghost use Rattle.jcr_law.specs.Tasks.{split_refusal};
ghost use Rattle.jcr_held.specs.Holds.{Holds, IsReady};
ghost use Rattle.jcr_held.specs.Splits.{IsNextSplit};

use crate::Held;
use jcr_call::cause_text;
use jr_items::{check_limits, no_item};
use jr_known::HeldPart;
use jr_path::{DeepCopy, Path};
use jr_tree::Refusal;
use std::alloc::{AllocError, Global};

/// What a `split` begins with: the path of the node whose document is split; or the reply where
/// that path is beyond the limits, or no node is there.
#[derive(Drop)]
pub enum NextSplit {
    At(Path),
    Refused(String),
}

impl Held {
    /// What a `split` of the node at a path begins with (Oak, DocumentNodeStore: "Previous
    /// documents"), once all is known that it asks for.
    pub fn next_split(&self, path: &Path) -> Result<NextSplit, AllocError>
        requires ready { IsReady self.now (command.Split path.now) }
        ensures { (c : Call) → Holds c self.now → IfOk result (IsNextSplit c path.now) }
    {
        match check_split(self.alloc, &self.part, path) {
            Ok(()) => Ok(NextSplit::At(path.copy()?)),
            Err(refusal) => Ok(NextSplit::Refused(cause_text(self.alloc, &refusal)?)),
        }
    }
}

// A node is split where its path is within the limits, and it is there.
fn check_split(alloc: Global, part: &HeldPart, path: &Path) -> Result<(), Refusal>
    requires known { IsTrue (knows part.now (need.Node path.now)) }
    ensures ok { (t : Nodes) → AgreesWith t part.now
        → OnOk result (split_refusal t path.now ≡ None) }
    ensures err { (t : Nodes) → AgreesWith t part.now
        → IfErr result (IsTheRefusal (split_refusal t path.now)) }
{
    check_limits(alloc, path)?;
    if !part.has(path) {
        return Err(no_item(alloc, path));
    }
    Ok(())
}

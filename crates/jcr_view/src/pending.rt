// Pending changes of a session.
ghost use Rattle.std.specs.Prelude.{◌≡◌, [], true, IfErr, IfOk, IsTrue, OnErr, OnOk, is_some};
ghost use Rattle.std.specs.String.{string_bytes};
ghost use Rattle.jr_items.specs.Refusals.{out_of_memory};
ghost use Rattle.jr_overlay.specs.Drafts.{with_steps};
ghost use Rattle.jr_overlay.specs.Overlays.{change_at, edit_of, known_view, view_of};
ghost use Rattle.jr_part.specs.Parts.{LacksNothing};
ghost use Rattle.jr_part.specs.declared.need.Need.TheVariants as need;
ghost use Rattle.jcr_trans.specs.Answers.{Done};
ghost use Rattle.jcr_trans.specs.Texts.{answer_text};
ghost use Rattle.jcr_view.specs.Needs.{needs_of, needs_to_rebase};
ghost use Rattle.jcr_read.specs.Reading.{Replies, reads_all, refused, shown};
ghost use Rattle.jcr_view.specs.Outcomes.{is_viewed, is_writing, outcome};
ghost use Rattle.jcr_view.specs.Rebases.{rebased};

use crate::commands::is_writing;
use crate::needs::{needs, needs_to_rebase};
use crate::rebase::rebased;
use crate::writing::{Made, make};
use jcr_read::{by_identifier, read_nodes, refs, versions};
use jcr_trans::{Command, done_reply};
use jr_overlay::{Overlay, Sight};
use jr_part::{Need, Part};
use jr_path::{Keyed, Path};
use jr_tree::{Edit, Node, Refusal, Tree, Who};
use jr_types::Registry;
use std::alloc::{AllocError, Global};
use std::marker::Model;

/// The pending changes of a session, over the tree at its base (JSR 283, 10.11 Saving): the touched nodes, by their
/// paths.
pub struct Pending {
    alloc: Global,
    overlay: Overlay,
}

// By hand, so that its parts are let go in one call.
impl Drop for Pending {
    fn drop(self) {
        let Pending { alloc: _, overlay } = self;
        drop(overlay);
    }
}

impl Model for Pending {
    ghost use Rattle.jr_overlay.specs.Overlays.{Changed};

    ghost Value = { Changed };

    ghost view = { λ p. p.overlay };
}

impl Pending {
    /// Nothing is pending. It takes no memory.
    pub fn new(alloc: Global) -> Pending
        ensures { result ≡ [] }
    {
        Pending {
            alloc,
            overlay: Overlay::new(alloc),
        }
    }

    /// What has to be known of the tree at the base before a session's command is made. A need that hangs on a node of which
    /// nothing is known stands as the need of that node alone: the call is made again once the node is known.
    pub fn needs(&self, command: &Command, part: &Part, who: &Who) -> Result<Vec<Need>, AllocError>
        ensures { IfOk result (λ needs. needs.items
            ≡ needs_of who.now part.now self.now command.now) }
    {
        needs(self.alloc, part, &self.overlay, who, command)
    }

    /// Makes a command that reads or writes the view, and answers the text of its reply (JSR 283, 5 Reading; 10
    /// Writing). What `needs` asks for should be known before; `byId`, `refs` and `versions` go over the whole tree. A
    /// command that is refused, and one for whose reply there is no memory, changes nothing.
    pub fn run(
        &mut self,
        command: &Command,
        part: &Part,
        types: &Registry,
        who: &mut Who,
    ) -> Result<String, Refusal>
        requires viewed { IsTrue (is_viewed command.now) }
        requires known { IsTrue (reads_all command.now) → LacksNothing part.now need.All }
        ensures text { IfOk result (λ text. string_bytes text ≡ answer_text
            (outcome types.now who.old
            (known_view part.now self.old) part.now.nodes command.now).answer) }
        ensures changes { OnOk result (self.new ≡ with_steps part.now.nodes self.old
            (outcome types.now who.old
            (known_view part.now self.old) part.now.nodes command.now).steps) }
        ensures ids { OnOk result (who.new ≡ record who.old {
          ids = (outcome types.now who.old
              (known_view part.now self.old) part.now.nodes command.now).ids;
        }) }
        ensures refused { IfErr result (λ r. ¬ (r ≡ out_of_memory) → (outcome types.now who.old
            (known_view part.now self.old) part.now.nodes command.now).answer ≡ refused r) }
        ensures kept { OnErr result (self.new ≡ self.old) }
        ensures same { OnErr result (who.new ≡ who.old) }
    {
        if is_writing(command) {
            self.write(command, part, types, who)
        } else {
            self.read(command, part, types)
        }
    }

    // A writing command.
    fn write(
        &mut self,
        command: &Command,
        part: &Part,
        types: &Registry,
        who: &mut Who,
    ) -> Result<String, Refusal>
        requires { is_writing command.now ≡ true }
        ensures text { IfOk result (λ text. string_bytes text ≡ answer_text
            (outcome types.now who.old
            (known_view part.now self.old) part.now.nodes command.now).answer) }
        ensures changes { OnOk result (self.new ≡ with_steps part.now.nodes self.old
            (outcome types.now who.old
            (known_view part.now self.old) part.now.nodes command.now).steps) }
        ensures ids { OnOk result (who.new ≡ record who.old {
          ids = (outcome types.now who.old
              (known_view part.now self.old) part.now.nodes command.now).ids;
        }) }
        ensures refused { IfErr result (λ r. ¬ (r ≡ out_of_memory) → (outcome types.now who.old
            (known_view part.now self.old) part.now.nodes command.now).answer ≡ refused r) }
        ensures kept { OnErr result (self.new ≡ self.old) }
        ensures same { OnErr result (who.new ≡ who.old) }
    {
        match make(self.alloc, types, who, part, &self.overlay, command) {
            Ok(made) => self.keep(part, who, made),
            Err(refusal) => Err(refusal),
        }
    }

    // What a command made counts. The reply comes first, so that nothing is made that isn't answered.
    fn keep(&mut self, part: &Part, who: &mut Who, made: Made) -> Result<String, Refusal>
        ensures text { IfOk result (λ text. string_bytes text ≡ answer_text Done) }
        ensures changes { OnOk result (self.new ≡ with_steps part.now.nodes self.old made.steps) }
        ensures ids { OnOk result (who.new ≡ record who.old { ids = made.ids }) }
        ensures refused { IfErr result (λ r. r ≡ out_of_memory) }
        ensures kept { OnErr result (self.new ≡ self.old) }
        ensures same { OnErr result (who.new ≡ who.old) }
    {
        match self.committed(part, made.steps) {
            Ok(text) => {
                who.ids = made.ids;
                Ok(text)
            }
            Err(AllocError) => Err(Refusal::memory(self.alloc)),
        }
    }

    // The steps of a command count, once its reply is made.
    fn committed(
        &mut self,
        part: &Part,
        steps: Keyed<Path, Option<Node>>,
    ) -> Result<String, AllocError>
        ensures text { IfOk result (λ text. string_bytes text ≡ answer_text Done) }
        ensures changes { OnOk result (self.new ≡ with_steps part.now.nodes self.old steps) }
        ensures kept { OnErr result (self.new ≡ self.old) }
    {
        let text = done_reply(self.alloc)?;
        self.overlay.commit(part, steps)?;
        Ok(text)
    }

    // A command that changes nothing.
    fn read(&self, command: &Command, part: &Part, types: &Registry) -> Result<String, Refusal>
        requires { IsTrue (reads_all command.now) → LacksNothing part.now need.All }
        ensures { Replies
            (shown types.now (known_view part.now self.now) part.now.nodes command.now) result }
    {
        let alloc = self.alloc;
        let overlay = &self.overlay;
        match command {
            Command::ById(text) => by_identifier(alloc, part, overlay, text.as_str()),
            Command::Refs(path) => refs(alloc, part, overlay, path),
            Command::Versions(path) => versions(alloc, part.whole(), path),
            _ => read_nodes(alloc, types, &Sight::new(part, overlay), command),
        }
    }

    /// The edit that the pending changes come to: what has to be written to the tree at the base.
    pub fn edit(&self) -> Result<Edit, AllocError>
        ensures { IfOk result (λ edit. edit.writes ≡ edit_of self.now) }
    {
        self.overlay.edit()
    }

    /// The view as a tree, where the whole tree at the base is known.
    pub fn view(&self, part: &Part) -> Result<Tree, AllocError>
        requires { LacksNothing part.now need.All }
        ensures { IfOk result (λ view. view ≡ view_of part.now.nodes self.now) }
    {
        self.overlay.view(part.whole())
    }

    /// Whether the node at a path is touched.
    pub fn touches(&self, path: &Path) -> bool
        ensures { result ≡ is_some (change_at self.now path.now) }
    {
        self.overlay.at(path).is_some()
    }

    /// What has to be known of another tree before the pending changes are made again on it.
    pub fn needs_to_rebase(&self) -> Result<Vec<Need>, AllocError>
        ensures { IfOk result (λ needs. needs.items ≡ needs_to_rebase (edit_of self.now)) }
    {
        let edit = self.overlay.edit()?;
        needs_to_rebase(self.alloc, edit.writes.as_slice())
    }

    /// Makes the pending changes again on another tree (JSR 283, 10.11.4 Refresh). Each write of their edit is made in
    /// its turn: a node that goes takes all beneath it along; a node comes where the node above stands and none is
    /// there; a property is written where its node stands. A refusal leaves all as it was.
    pub fn rebase(&mut self, part: &Part) -> Result<(), AllocError>
        ensures ok { OnOk result (self.new ≡ rebased part.now (edit_of self.old)) }
        ensures err { OnErr result (self.new ≡ self.old) }
    {
        let edit = self.overlay.edit()?;
        self.overlay = rebased(self.alloc, part, edit.writes.as_slice())?;
        Ok(())
    }
}

// Identifiers of nodes that a restore makes, which another node has.
ghost use Rattle.std.specs.Prelude.{◌≡◌, IfOk, OnOk};
ghost use Rattle.std.specs.Option.{option_copied};
ghost use Rattle.jr_items.specs.Names.{frozen_uuid, uuid};
ghost use Rattle.jcr_restore.specs.Edits.{first_taken, in_conflict, is_node_made, is_id_among, is_taken, made_id, made_ids, with_id};

use crate::restored::Bringing;
use jr_items::{OwnName, one_text};
use jr_path::{DeepCopy, Keyed, Name, Path, Text};
use jr_tree::Node;
use std::alloc::{AllocError, Global};

type Ids = Keyed<Text, bool>;

impl Bringing<'_> {
    /// The first node outside that has the identifier of a node that is made. It looks through the tree where a node with an
    /// identifier is made, and else at what is brought alone.
    pub(crate) fn in_conflict(&self) -> Result<Option<Path>, AllocError>
        ensures { IfOk result (λ found. found ≡ in_conflict self.now.types.now self.now.tree.now self.now.path.now self.now.frozen.now) }
    {
        let ids = self.made_ids()?;
        self.first_taken(&ids)
    }

    // The identifiers of the nodes that are made.
    fn made_ids(&self) -> Result<Ids, AllocError>
        ensures { IfOk result (λ ids. ids ≡ made_ids self.now.types.now self.now.tree.now self.now.path.now self.now.frozen.now) }
    {
        let uuid = OwnName::FrozenUuid.name(self.alloc)?;
        let mut ids = Keyed::new(self.alloc);
        for (from, node) in &self.tree.under(self.frozen)? {
            self.note_made(&mut ids, &uuid, from, node)?;
        }
        Ok(ids)
    }

    fn note_made(
        &self,
        ids: &mut Ids,
        uuid: &Name,
        from: &Path,
        node: &Node,
    ) -> Result<(), AllocError>
        requires { uuid.now ≡ frozen_uuid }
        ensures { OnOk result (ids.new ≡ with_id ids.old (made_id self.now.types.now self.now.tree.now self.now.path.now self.now.frozen.now (from.now, node.now))) }
    {
        if self.is_made(from)? {
            note_id(ids, self.alloc, one_text(node.props.get(uuid)))?;
        }
        Ok(())
    }

    // Whether the node of a frozen node is made.
    fn is_made(&self, from: &Path) -> Result<bool, AllocError>
        ensures { IfOk result (λ answer. answer ≡ is_node_made self.now.types.now self.now.tree.now self.now.path.now self.now.frozen.now from.now) }
    {
        if self.is_brought(from)? {
            Ok(!self.tree.has(&self.place_of(from)?))
        } else {
            Ok(false)
        }
    }

    // The first node outside that has one of the identifiers.
    #[tactic(auto, using(crate::proofs::Taken::none_taken))]
    fn first_taken(&self, ids: &Ids) -> Result<Option<Path>, AllocError>
        ensures { IfOk result (λ found. found ≡ first_taken ids.now self.now.tree.now self.now.path.now) }
    {
        if ids.is_empty() {
            return Ok(None);
        }
        let uuid = OwnName::Uuid.name(self.alloc)?;
        for (at, _) in self.tree.iter() {
            if self.is_taken(ids, &uuid, at)? {
                return Ok(Some(at.copy()?));
            }
        }
        Ok(None)
    }

    fn is_taken(&self, ids: &Ids, key: &Name, at: &Path) -> Result<bool, AllocError>
        requires { key.now ≡ uuid }
        ensures { IfOk result (λ answer. answer ≡ is_taken ids.now self.now.tree.now self.now.path.now at.now) }
    {
        if at.is_under(self.path) {
            return Ok(false);
        }
        is_one_of(self.alloc, ids, one_text(self.tree.property(at, key)))
    }
}

// Notes an identifier, if there is one.
fn note_id(ids: &mut Ids, alloc: Global, id: Option<&str>) -> Result<(), AllocError>
    ensures { OnOk result (ids.new ≡ with_id ids.old (option_copied id.entry)) }
{
    match id {
        Some(id) => ids.put(Text::copy_of(alloc, id)?, true),
        None => Ok(()),
    }
}

// Whether the identifier, if there is one, is among these.
fn is_one_of(alloc: Global, ids: &Ids, id: Option<&str>) -> Result<bool, AllocError>
    ensures { IfOk result (λ answer. answer ≡ is_id_among ids.now (option_copied id.entry)) }
{
    match id {
        Some(id) => Ok(ids.contains(&Text::copy_of(alloc, id)?)),
        None => Ok(false),
    }
}

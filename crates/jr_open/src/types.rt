// The rule of node types.
ghost use Rattle.std.specs.Prelude.{◌≡◌, [], IfOk, IsTrue, is_some};
ghost use Rattle.jr_items.specs.Items.{is_empty};
ghost use Rattle.jr_path.specs.declared.path.DocId.TheVariants.{Node};
ghost use Rattle.jr_rules.specs.Violations.{violations_at};
ghost use Rattle.jr_tree.specs.Trees.{node_at};
ghost use Rattle.oak_sound.specs.Sound.{first_breaking};
ghost use Rattle.jr_open.specs.Typed.{keeps_types};

use jr_edited::Edited;
use jr_path::{DocId, Path};
use jr_rules::{TypesOut, check};
use jr_types::Registry;
use oak_sound::ById;
use std::alloc::AllocError;

// The first document whose node, where the tree has it, breaks a rule of its types.
pub(crate) fn first_untyped(
    documents: &ById,
    tree: &Edited<'_>,
    types: &Registry,
) -> Result<Option<usize>, AllocError>
    ensures { IfOk result (λ at. at
        ≡ first_breaking (λ before e. keeps_types types.now tree.now e.0) [] documents.now) }
{
    let _ = documents.len();
    for (at, (id, _)) in documents.iter().enumerate() {
        if !keeps_types(types, tree, id)? {
            return Ok(Some(at));
        }
    }
    Ok(None)
}

fn keeps_types(types: &Registry, tree: &Edited<'_>, id: &DocId) -> Result<bool, AllocError>
    ensures { IfOk result (λ keeps. keeps ≡ keeps_types types.now tree.now id.now) }
{
    match id {
        DocId::Node(path) => keeps_types_at(types, tree, path),
        _ => Ok(true),
    }
}

fn keeps_types_at(types: &Registry, tree: &Edited<'_>, path: &Path) -> Result<bool, AllocError>
    ensures { IfOk result (λ keeps. keeps ≡ keeps_types types.now tree.now (Node path.now)) }
{
    if !tree.has(path) {
        return Ok(true);
    }
    meets_rules(types, tree, path)
}

// Whether a node that is there breaks no rule of its types.
fn meets_rules(types: &Registry, tree: &Edited<'_>, path: &Path) -> Result<bool, AllocError>
    requires { IsTrue (is_some (node_at tree.now path.now)) }
    ensures { IfOk result (λ meets. meets
        ≡ is_empty (violations_at types.now tree.now path.now)) }
{
    match check(types, tree, path) {
        Ok(()) => Ok(true),
        Err(TypesOut::Violation { .. }) => Ok(false),
        Err(TypesOut::Memory) => Err(AllocError),
    }
}

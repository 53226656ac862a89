// Which rule of its types a node breaks first.
ghost use Rattle.std.specs.Prelude.{◌≡◌, [], IfErr, IsTrue, OnOk, is_some};
ghost use Rattle.jr_tree.specs.Trees.{node_at};
ghost use Rattle.jr_rules.specs.Checking.{IsFirstOf, IsViolation};
ghost use Rattle.jr_rules.specs.Violations.{is_among_names, violations_among, violations_at};
ghost use Rattle.jr_rules.specs.declared.checking.TypesOut.TheVariants.{Memory};

use crate::broken::Break;
use crate::children::{child_break, child_break_among};
use crate::properties::property_break;
use jr_edited::Edited;
use jr_path::{DeepCopy, Name, Path};
use jr_types::Registry;
use std::alloc::{AllocError, AllocFailed};

/// Why a node doesn't pass the rules of its types.
#[derive(Drop)]
pub enum TypesOut {
    /// The first rule that it breaks, 1 to 9, and the item at which it does.
    Violation { node: Path, item: Name, rule: u8 },
    /// Memory was refused.
    Memory,
}

impl From<AllocError> for TypesOut {
    ghost from_gives = { λ _ e. e ≡ Memory };

    fn from(_: AllocError) -> TypesOut {
        TypesOut::Memory
    }
}

impl<T: Drop> From<AllocFailed<T>> for TypesOut {
    ghost from_gives = { λ _ e. e ≡ Memory };

    fn from(_: AllocFailed<T>) -> TypesOut {
        TypesOut::Memory
    }
}

/// The first rule that the node at a path breaks, by rule and then by item (JSR 283, 3.7 Node
/// Types). The rules are
///
/// 1. `jcr:primaryType` is one NAME of a registered type that is neither a mixin nor abstract;
/// 2. `jcr:mixinTypes`, where it is there, is a list of distinct NAMEs of registered mixins;
/// 3. each property has a definition,
/// 4. one with its kind and its multiplicity,
/// 5. one of these with no constraints, or with one for each of its values;
/// 6. each mandatory property is there;
/// 7. each child has a definition,
/// 8. one of whose required types its primary type is each;
/// 9. each mandatory child is there.
pub fn check(types: &Registry, tree: &Edited<'_>, path: &Path) -> Result<(), TypesOut>
    requires { IsTrue (is_some (node_at tree.now path.now)) }
    ensures ok { OnOk result (violations_at types.now tree.now path.now ≡ []) }
    ensures err { IfErr result (IsFirstOf (violations_at types.now tree.now path.now)) }
{
    let Some(node) = tree.get(path) else {
        unreachable!()
    };
    let its = types.types_of(node)?;
    if let Some(broken) = property_break(types, node, &its)? {
        return Err(violation(path, broken));
    }
    if let Some(broken) = child_break(types, tree, path, &its)? {
        return Err(violation(path, broken));
    }
    Ok(())
}

/// The first rule that the node at a path breaks, as `check` tells it, but of its children it looks
/// only at those of these names, and at whether one of these is missing: for a node of which no more
/// changed (JSR 283, 10.11 Saving). So it costs what the node itself has, and what is asked.
pub fn check_among(
    types: &Registry,
    tree: &Edited<'_>,
    path: &Path,
    names: &[Name],
) -> Result<(), TypesOut>
    requires { IsTrue (is_some (node_at tree.now path.now)) }
    ensures ok { OnOk result
        (violations_among (is_among_names names.now) types.now tree.now path.now ≡ []) }
    ensures err { IfErr result
        (IsFirstOf (violations_among (is_among_names names.now) types.now tree.now path.now)) }
{
    let Some(node) = tree.get(path) else {
        unreachable!()
    };
    let its = types.types_of(node)?;
    if let Some(broken) = property_break(types, node, &its)? {
        return Err(violation(path, broken));
    }
    if let Some(broken) = child_break_among(types, tree, path, &its, names)? {
        return Err(violation(path, broken));
    }
    Ok(())
}

// What is told of a broken rule.
fn violation(path: &Path, broken: Break) -> TypesOut
    ensures { IsViolation path.now broken result }
{
    match path.copy() {
        Ok(node) => TypesOut::Violation {
            node,
            item: broken.item,
            rule: broken.rule,
        },
        Err(AllocError) => TypesOut::Memory,
    }
}

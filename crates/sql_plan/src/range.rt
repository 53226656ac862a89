// Nodes by path ranges.
ghost use Rattle.std.specs.Prelude.{◌≡◌, Bool, IsTrue, true, map};
ghost use Rattle.std.specs.FinMap.{is_sorted};
ghost use Rattle.std.specs.List.{filter, list_all};
ghost use Rattle.std.specs.Map.Iter.{deref, deref_pair};
ghost use Rattle.std.specs.Option.{option_copied};
ghost use Rattle.jr_path.specs.Names.{is_under, path_cmp};
ghost use Rattle.sql_eval.specs.Conditions.{Spot};
ghost use Rattle.sql_plan.specs.Early.{is_within, path_in};

use jr_path::Path;
use sql_eval::Spot;
use sql_query::Condition;

/// Nodes in path order without those that a part refuses by their path alone: where a part asks for the node at a path,
/// a child of it or a node below it, only the range of nodes at or below it is left.
pub(crate) fn range_of<'s, 'a>(nodes: &'s [Spot<'a>], parts: &[&Condition]) -> &'s [Spot<'a>]
    requires { IsTrue (is_sorted path_cmp (map deref_pair nodes.now)) }
    ensures { (f : Spot → Bool) → ((e : Spot) → f e ≡ true → list_all (is_within e.0) (map deref parts.now) ≡ true) → filter f (map deref_pair result.now) ≡ filter f (map deref_pair nodes.now) }
{
    for part in parts {
        if let Some(path) = path_in(part) {
            return at_or_below(nodes, path);
        }
    }
    nodes
}

// The path at or below which a condition asks for a node.
fn path_in(condition: &Condition) -> Option<&Path>
    ensures { option_copied result ≡ path_in condition.now }
{
    match condition {
        Condition::Same(_, path) => Some(path),
        Condition::Child(_, path) => Some(path),
        Condition::Descendant(_, path) => Some(path),
        _ => None,
    }
}

// The nodes at or below a path, which stand one after another.
fn at_or_below<'s, 'a>(nodes: &'s [Spot<'a>], path: &Path) -> &'s [Spot<'a>]
    requires { IsTrue (is_sorted path_cmp (map deref_pair nodes.now)) }
    ensures { (f : Spot → Bool) → ((e : Spot) → f e ≡ true → is_under e.0 path.now ≡ true) → filter f (map deref_pair result.now) ≡ filter f (map deref_pair nodes.now) }
{
    let start = nodes.partition_point(|spot| spot.0 < path);
    let end = nodes.partition_point(|spot| spot.0 < path || spot.0.is_under(path));
    if start <= end {
        &nodes[start..end]
    } else {
        &[]
    }
}

// Laws of the rules that nodes keep.
ghost use Rattle.std.specs.Prelude.{◌≡◌, List, []};
ghost use Rattle.jr_tree.specs.Trees.{Nodes, initial_tree};
ghost use Rattle.jr_types.specs.declared.TypeDef.{TypeDef};
ghost use Rattle.jr_types.specs.Rules.{TypesOk};
ghost use Rattle.jr_builtin.specs.Builtin.{builtin};
ghost use Rattle.jr_rules.specs.Violations.{violations};

/// Where no violation is listed, the rules hold at each node, for the property and the child of
/// each name.
pub fn what_lists_no_violation_meets_the_rules()
    ensures { (types : List TypeDef) (t : Nodes) → violations types t ≡ [] → TypesOk types t }
{}

/// The initial tree meets the rules of the built-in types.
pub fn the_initial_tree_meets_the_built_in_types()
    ensures { TypesOk builtin initial_tree }
{}

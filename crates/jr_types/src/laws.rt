// Laws of types.
ghost use Rattle.std.specs.Prelude.{◌≡◌, List, [], ◌∷◌, ◌++◌, None};
ghost use Rattle.jr_tree.specs.Trees.{Nodes};
ghost use Rattle.jr_types.specs.declared.TypeDef.{TypeDef};
ghost use Rattle.jr_types.specs.Rules.{TypesOk};
ghost use Rattle.jr_types.specs.Types.{type_named};

/// A type that is added under a new name leaves the rules of a tree as they were.
pub fn added_types_keep_the_rules()
    ensures { (types : List TypeDef) (d : TypeDef) (t : Nodes) → type_named types d.name ≡ None
        → TypesOk types t → TypesOk (types ++ d ∷ []) t }
{}

// What holds of the rows of queries.
ghost use Rattle.std.specs.Prelude.{◌≡◌, List as Seq};
ghost use Rattle.jr_path.specs.declared.name.Name.{Name};
ghost use Rattle.jr_tree.specs.Trees.{Nodes};
ghost use Rattle.sql_query.specs.Trees.{asked_of};
ghost use Rattle.sql_query.specs.declared.query.Query.{Query};
ghost use Rattle.sql_eval.specs.declared.row.Row.{Row};
ghost use Rattle.sql_eval.specs.Rows.{AreRows};

/// A query has one list of rows over a tree: `rows` can answer no other.
pub fn rows_are_one()
    ensures { (q : Query) (sets : Seq (Seq Name)) (tree : Nodes) (a b : Seq Row) → AreRows q sets tree a → AreRows q sets tree b → a ≡ b }
{}

/// Queries that are the same but for where their parts lie in memory have the same rows.
pub fn same_queries_have_same_rows()
    ensures { (q r : Query) (sets : Seq (Seq Name)) (tree : Nodes) (rows : Seq Row)
        → asked_of q ≡ asked_of r → AreRows q sets tree rows → AreRows r sets tree rows }
{}

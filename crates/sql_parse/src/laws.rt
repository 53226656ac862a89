// What holds of the answers to texts.
ghost use Rattle.std.specs.Prelude.{ℕ, List as Seq, Result};
ghost use Rattle.jr_value.specs.declared.value.Value.{Value};
ghost use Rattle.sql_parse.specs.Answers.{AreSame};
ghost use Rattle.sql_parse.specs.Grammar.{IsParsed};
ghost use Rattle.sql_pieces.specs.declared.fault.SqlFault.{SqlFault};
ghost use Rattle.sql_query.specs.declared.query.Query.{Query};

/// A text is answered in one way: `parse` can answer no other, but for where the parts of the query lie in memory.
pub fn answers_are_one()
    ensures { (text : Seq ℕ) (vars : Seq (Seq ℕ × Value)) (a b : Result Query SqlFault)
        → IsParsed text vars a → IsParsed text vars b → AreSame a b }
{}

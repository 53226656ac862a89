// Which replies accept.
ghost use Rattle.std.specs.Prelude.{◌≡◌, not, IsFalse, IsTrue};
ghost use Rattle.serde_json.specs.Data.{Data};
ghost use Rattle.jr_tree.specs.declared.shared.Refusal.{Refusal};
ghost use Rattle.jcr_trans.specs.Answers.{Answer};
ghost use Rattle.jcr_trans.specs.Texts.{answer_text, memory_text, ok_text};
ghost use Rattle.jcr_law.specs.Law.{no_text};
ghost use Rattle.jcr_law.specs.State.{is_ok_text};
ghost use Rattle.core_calls.specs.Replies.{is_refusing};

/// The text of an answer begins with `ok` exactly where the answer is no refusal; that of a
/// refusal, also of want of memory, does not.
pub fn replies_begin_with_ok()
    ensures answer { (a : Answer) → is_ok_text (answer_text a) ≡ not (is_refusing a) }
    ensures shown { (d : Data) → IsTrue (is_ok_text (ok_text d)) }
    ensures refused { (r : Refusal) → IsFalse (is_ok_text (no_text r)) }
    ensures memory { IsFalse (is_ok_text memory_text) }
{}

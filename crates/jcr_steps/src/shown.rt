// The reply that shows a vector, for which no memory is taken.
ghost use Rattle.std.specs.Prelude.{◌≡◌, ◌≤◌, ◌+◌, ◌++◌, [], codes, if◌then◌else◌, length};
ghost use Rattle.arrayvec.specs.ArrayString.{array_string_len};
ghost use Rattle.jr_rev.specs.Grammar.{FitsFields};
ghost use Rattle.jr_rev.specs.Texts.{revision_text};
ghost use Rattle.jcr_trans.specs.Answers.{ShowsVector};
ghost use Rattle.jcr_trans.specs.Texts.{answer_text};
ghost use Rattle.jcr_steps.specs.declared.limits.TheConstants.{VECTOR_REPLY_BYTES};

use arrayvec::ArrayString;
use jr_rev::{RevVec, Revision, revision_text};

/// The reply that shows a session's base, as `ok "r1-0-1,r0-0-2"`. No memory is taken, so that a
/// base that has moved is always told.
pub fn shown_vector(vector: &RevVec) -> ArrayString<292>
    requires eight { length vector.now ≡ 8 }
    ensures text { result.bytes ≡ answer_text (ShowsVector vector.now) }
    ensures few { length result.bytes ≤ VECTOR_REPLY_BYTES }
{
    let mut text = ArrayString::new();
    text.push_str("ok \"");
    let mut first = true;
    for i in 0..8 {
        if let Some(revision) = vector.get(i + 1) {
            put_next(&mut text, &revision, first);
            first = false;
        }
    }
    text.push_str("\"");
    text
}

// Appends the revision's text, behind a comma unless it is the first one.
fn put_next(text: &mut ArrayString<292>, revision: &Revision, first: bool)
    requires room { array_string_len text.old + 36 ≤ 292 }
    ensures text { let comma = (if first then [] else codes ",") in
        text.new.bytes ≡ text.old.bytes ++ (comma ++ revision_text revision.now) }
    ensures few { array_string_len text.new + (if first then 1 else 0)
        ≤ array_string_len text.old + 36 }
    ensures fits { FitsFields revision.now }
{
    if !first {
        text.push_str(",");
    }
    let shown = revision_text(revision);
    text.push_str(shown.as_str());
}

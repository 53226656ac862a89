// Whether a text is the one of a reply.
ghost use Rattle.std.specs.Prelude.{◌≡◌, IfOk, bytes_eq};
ghost use Rattle.jr_items.specs.Refusals.{out_of_memory};
ghost use Rattle.jcr_trans.specs.Answers.{Done, ShowsRevision, ShowsText, ShowsVector};
ghost use Rattle.jcr_trans.specs.Texts.{ok_text};
ghost use Rattle.jcr_law.specs.Tasks.{collected_data, split_data};
ghost use Rattle.jcr_past.specs.Shown.{is_answer, is_refusal};

use jcr_call::{collected_reply, split_reply};
use jcr_trans::{refusal_text, revision_reply, text_reply, vector_reply};
use jr_rev::{RevVec, Revision};
use jr_tree::Refusal;
use oak_doc::{Collected, SplitEnd};
use std::alloc::{AllocError, Global};

/// Whether a text is `ok` alone.
pub fn is_done(text: &str) -> bool
    ensures { result ≡ is_answer text.now Done }
{
    text == "ok"
}

// Whether a text is `ok` with the revision.
pub(crate) fn is_revision(text: &str, revision: &Revision) -> bool
    ensures { result ≡ is_answer text.now (ShowsRevision revision.now) }
{
    let reply = revision_reply(revision);
    text == reply.as_str()
}

/// Whether a text is `ok` with the vector. Memory is taken.
pub fn is_vector(alloc: Global, text: &str, vector: &RevVec) -> Result<bool, AllocError>
    ensures { IfOk result (λ is. is ≡ is_answer text.now (ShowsVector vector.now)) }
{
    let reply = vector_reply(alloc, vector)?;
    Ok(text == reply.as_str())
}

/// Whether a text is `ok` with what is to be shown, as a JSON string. Memory is taken.
pub fn is_text(alloc: Global, text: &str, shown: &str) -> Result<bool, AllocError>
    ensures { IfOk result (λ is. is ≡ is_answer text.now (ShowsText shown.now)) }
{
    let reply = text_reply(alloc, shown)?;
    Ok(text == reply.as_str())
}

/// Whether a text refuses so. Memory is taken; and where memory was wanted for the refusal, it is
/// wanted here.
pub fn is_refusal(alloc: Global, text: &str, refusal: &Refusal) -> Result<bool, AllocError>
    ensures { IfOk result (λ is. ¬ (refusal.now ≡ out_of_memory)
        × (is ≡ is_refusal text.now refusal.now)) }
{
    if refusal.number == 16 {
        return Err(AllocError);
    }
    let reply = refusal_text(alloc, refusal)?;
    Ok(text == reply.as_str())
}

// Whether a text shows how a split ended.
pub(crate) fn is_split_end(alloc: Global, text: &str, end: &SplitEnd) -> Result<bool, AllocError>
    ensures { IfOk result (λ is. is ≡ bytes_eq text.now (ok_text (split_data end.now))) }
{
    let reply = split_reply(alloc, end)?;
    Ok(text == reply.as_str())
}

// Whether a text shows what a collection did.
pub(crate) fn is_collected(alloc: Global, text: &str, done: &Collected) -> Result<bool, AllocError>
    ensures { IfOk result (λ is. is ≡ bytes_eq text.now (ok_text (collected_data done.now))) }
{
    let reply = collected_reply(alloc, done)?;
    Ok(text == reply.as_str())
}

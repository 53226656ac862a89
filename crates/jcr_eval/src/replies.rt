// Replies, and whether a text is one.
ghost use Rattle.std.specs.Prelude.{◌≡◌, ◌↔◌, IfOk, IsTrue, Some, option_map, string_bytes};
ghost use Rattle.jr_items.specs.Refusals.{out_of_memory};
ghost use Rattle.jcr_law.specs.Law.{no_text};

use jcr_call::cause_text;
use jcr_trans::refusal_text;
use jr_tree::Refusal;
use std::alloc::{AllocError, Global};

// Whether a text is the reply, where there is one.
pub(crate) fn is_reply(reply: Option<String>, text: &str) -> bool
    ensures { IsTrue result ↔ (option_map string_bytes reply ≡ Some text.now) }
{
    match reply {
        Some(reply) => reply.as_str() == text,
        None => false,
    }
}

// The reply of a refusal.
pub(crate) fn refusal_reply(alloc: Global, refusal: &Refusal) -> Result<Option<String>, AllocError>
    ensures { IfOk result (λ reply. option_map string_bytes reply ≡ Some (no_text refusal.now)) }
{
    Ok(Some(refusal_text(alloc, refusal)?))
}

// The reply of a refusal that doesn't stand for want of memory.
pub(crate) fn cause_reply(alloc: Global, refusal: &Refusal) -> Result<Option<String>, AllocError>
    ensures { IfOk result (λ reply. ¬ (refusal.now ≡ out_of_memory)
        × (option_map string_bytes reply ≡ Some (no_text refusal.now))) }
{
    Ok(Some(cause_text(alloc, refusal)?))
}

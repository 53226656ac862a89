// Node types that a source gives, as canonical text.
ghost use Rattle.std.specs.Prelude.{ℕ, List, IfErr, IfOk, string_bytes};
ghost use Rattle.repo_top.specs.Ends.{IsReadWhole, IsUnread, IsUntyped, input_of};
ghost use Rattle.repo_top.specs.Ends.SourceKind.{a_type_text};
ghost use Rattle.repo_top.specs.Typed.{IsCanonical};

use crate::status::Unrun;
use crate::top::LONGEST_INPUT;
use cnd_print::print_cnd;
use jr_cnd::{NoCnd, read_cnd};
use jr_io::{Source, read_all};
use std::alloc::Global;

// The canonical text of the node types that a source gives.
pub(crate) fn types_of<S: Source>(alloc: Global, source: &mut S) -> Result<String, Unrun>
    ensures read { IfOk result (λ text. (bytes : List ℕ)
        × IsReadWhole (input_of S.Source source.old) (input_of S.Source source.new) bytes
        × IsCanonical bytes (string_bytes text)) }
    ensures unread { IfErr result
        (IsUnread a_type_text (input_of S.Source source.old) (input_of S.Source source.new)) }
{
    let bytes = read_all(alloc, source, LONGEST_INPUT)?;
    canonical(alloc, bytes.as_slice())
}

// The canonical text of the node types that bytes define.
fn canonical(alloc: Global, bytes: &[u8]) -> Result<String, Unrun>
    ensures ok { IfOk result (λ text. IsCanonical bytes.now (string_bytes text)) }
    ensures err { IfErr result (IsUntyped bytes.now) }
{
    match str::from_utf8(bytes) {
        Ok(text) => canonical_of(alloc, text),
        Err(error) => Err(Unrun::Types(error.valid_up_to())),
    }
}

fn canonical_of(alloc: Global, text: &str) -> Result<String, Unrun>
    ensures ok { IfOk result (λ printed. IsCanonical text.now (string_bytes printed)) }
    ensures err { IfErr result (IsUntyped text.now) }
{
    match read_cnd(alloc, text) {
        Ok(cnd) => Ok(print_cnd(alloc, &cnd)?),
        Err(NoCnd::Syntax(offset)) => Err(Unrun::Types(offset)),
        Err(NoCnd::BadDef(offset)) => Err(Unrun::Types(offset)),
        Err(NoCnd::Memory) => Err(Unrun::Memory),
    }
}

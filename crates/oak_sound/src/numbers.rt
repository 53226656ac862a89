// The rule of numbers.
ghost use Rattle.std.specs.Prelude.{◌≡◌, [], IfOk, max, is_some, nat_lt, nat_le, not, ◌&&◌, ◌^◌};
ghost use Rattle.std.specs.BTreeMap.{is_at};
ghost use Rattle.std.specs.List.{list_any};
ghost use Rattle.std.specs.Map.{lookup};
ghost use Rattle.std.specs.Ordering.{nat_cmp};
ghost use Rattle.oak_sound.specs.Meant.{greatest_number};
ghost use Rattle.oak_sound.specs.Sound.{first_breaking, keeps_numbers};

use crate::committed::ById;
use jr_path::Keyed;
use oak_doc::Document;
use std::alloc::{AllocError, Global};

// The most sessions that there may have been.
const MAX_SESSIONS: u32 = 16_777_152;

// The first document that doesn't keep the rule of numbers.
pub(crate) fn first_misnumbered(
    alloc: Global,
    documents: &ById,
) -> Result<Option<usize>, AllocError>
    ensures { IfOk result (λ at. at
        ≡ first_breaking (λ before e. keeps_numbers before e.1) [] documents.now) }
{
    let mut numbers = Keyed::new(alloc);
    let _ = documents.len();
    for (at, (_, document)) in documents.iter().enumerate() {
        if !keeps_numbers(&numbers, document) {
            return Ok(Some(at));
        }
        numbers.put(document.mod_count, ())?;
    }
    Ok(None)
}

// Where the numbers of the documents before are given.
fn keeps_numbers(numbers: &Keyed<u64, ()>, document: &Document) -> bool
    ensures { result ≡ (nat_lt document.now.mod_count (2 ^ 63)
        && not (is_some (lookup (is_at (nat_cmp document.now.mod_count)) numbers.now))
        && nat_le document.now.sessions 16777152) }
{
    document.mod_count < 1 << 63
        && !numbers.contains(&document.mod_count)
        && document.sessions <= MAX_SESSIONS
}

/// The greatest number of a document.
pub fn greatest_number(documents: &ById) -> u64
    ensures { result ≡ greatest_number documents.now }
{
    let mut greatest = 0;
    for (_, document) in documents.iter() {
        greatest = greater(greatest, document);
    }
    greatest
}

fn greater(greatest: u64, document: &Document) -> u64
    ensures { result ≡ max greatest document.now.mod_count }
{
    greatest.max(document.mod_count)
}

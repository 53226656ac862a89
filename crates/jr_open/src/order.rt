// Store order.
ghost use Rattle.std.specs.Prelude.{◌≡◌, ◌↔◌, IsTrue, map, true};
ghost use Rattle.std.specs.List.Sorted.{IsStrictlySortedBy};
ghost use Rattle.std.specs.Option.{option_copied, option_map_or};
ghost use Rattle.std.specs.Ordering.{is_lt};
ghost use Rattle.jr_path.specs.Ids.{id_cmp};

use jr_path::DocId;
use oak_doc::Document;

/// Whether documents stand in store order, each id once.
pub fn are_in_order(documents: &[Document]) -> bool
    ensures { IsTrue result ↔ IsStrictlySortedBy id_cmp (map (λ d. d.id) documents.now) }
{
    let mut last = None;
    for document in documents {
        if !is_behind(&document.id, last) {
            return false;
        }
        last = Some(&document.id);
    }
    true
}

// Whether an id is behind the last one, where there is one.
fn is_behind(id: &DocId, last: Option<&DocId>) -> bool
    ensures { result
        ≡ option_map_or (λ l. is_lt (id_cmp l id.now)) (option_copied last.entry) true }
{
    match last {
        Some(last) => last.cmp(id).is_lt(),
        None => true,
    }
}

// What the marks of two commits meet in.
ghost use Rattle.std.specs.Prelude.{◌≡◌, ◌↔◌, ◌&&◌, IsTrue};
ghost use Rattle.std.specs.Option.{option_copied};
ghost use Rattle.std.specs.Ordering.{eq_by_cmp};
ghost use Rattle.std.specs.List.{list_any};
ghost use Rattle.jr_path.specs.Names.{path_cmp};
ghost use Rattle.oak_clash.specs.Clashes.{Meets, clash, clashing, earlier_of, is_earlier, marked_item, marks_at};
ghost use Rattle.oak_machine.specs.Tests.{first_met};

use jr_path::{Item, Path};
use oak_clash::{Mark, MarkAt, clashes};

// Whether marks of two commits clash at some path.
#[tactic(auto, using(crate::proofs::Backward::left_more))]
pub(crate) fn clashing(ours: &[MarkAt], others: &[MarkAt]) -> bool
    ensures { result ≡ clashing ours.now others.now }
{
    let mut found = false;
    for at in (0..ours.len()).rev() {
        if is_clashing(&ours[at], others) {
            found = true;
        }
    }
    found
}

// Whether a mark clashes with one of the others at its path.
#[tactic(auto, using(crate::proofs::Backward::left_more))]
fn is_clashing(ours: &MarkAt, others: &[MarkAt]) -> bool
    ensures { result ≡ list_any
        (λ o. eq_by_cmp path_cmp ours.now.path o.path && clash ours.now.mark o.mark) others.now }
{
    let mut found = false;
    for at in (0..others.len()).rev() {
        let other = &others[at];
        if ours.path == other.path && clashes(&ours.mark, &other.mark) {
            found = true;
        }
    }
    found
}

// Whether marks meet those of another commit in the item.
pub(crate) fn meets(ours: &[MarkAt], others: &[MarkAt], item: &Item) -> bool
    ensures { IsTrue result ↔ Meets ours.now others.now item.now }
{
    match first_met(ours, others, &item.path) {
        Some(mark) => is_item_of(mark, item),
        None => false,
    }
}

// Whether the item is that of a mark at its path.
fn is_item_of(mark: &Mark, item: &Item) -> bool
    ensures { IsTrue result ↔ (marked_item item.now.path mark.now ≡ item.now) }
{
    match (mark, &item.name) {
        (Mark::Prop(name), Some(other)) => name == other,
        (Mark::Prop(_), None) => false,
        (_, name) => name.is_none(),
    }
}

// The first of the marks at a path that clash there with one of the others.
#[tactic(auto, using(crate::proofs::Backward::left_more))]
fn first_met<'a>(ours: &'a [MarkAt], others: &[MarkAt], path: &Path) -> Option<&'a Mark>
    ensures { option_copied result ≡ first_met path.now ours.now others.now }
{
    let mut first = None;
    for at in (0..ours.len()).rev() {
        let mark = &ours[at].mark;
        if *path == ours[at].path && clashes_at(mark, others, path) {
            first = Some(earlier_of(mark, first));
        }
    }
    first
}

// Whether a mark at a path clashes there with one of the others.
#[tactic(auto, using(crate::proofs::Backward::left_more))]
fn clashes_at(mark: &Mark, others: &[MarkAt], path: &Path) -> bool
    ensures { result ≡ list_any (clash mark.now) (marks_at path.now others.now) }
{
    let mut found = false;
    for at in (0..others.len()).rev() {
        let other = &others[at];
        if *path == other.path && clashes(mark, &other.mark) {
            found = true;
        }
    }
    found
}

// The earlier of a mark and another, if there is one.
fn earlier_of<'a>(mark: &'a Mark, first: Option<&'a Mark>) -> &'a Mark
    ensures { result.now ≡ earlier_of mark.now (option_copied first.entry) }
{
    match first {
        Some(other) => { if is_earlier(other, mark) { other } else { mark } }
        None => mark,
    }
}

// Exists, Guard, Touch, and then Prop by name.
fn is_earlier(a: &Mark, b: &Mark) -> bool
    ensures { result ≡ is_earlier a.now b.now }
{
    match (a, b) {
        (Mark::Exists, _) => !matches!(b, Mark::Exists),
        (Mark::Guard, _) => matches!(b, Mark::Touch | Mark::Prop(_)),
        (Mark::Touch, _) => matches!(b, Mark::Prop(_)),
        (Mark::Prop(m), Mark::Prop(n)) => m < n,
        (Mark::Prop(_), _) => false,
    }
}

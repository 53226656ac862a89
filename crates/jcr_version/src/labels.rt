// The edits that give and take the labels of versions.
ghost use Rattle.std.specs.Prelude.{◌≡◌, ◌∷◌, [], filter, IfErr, IfOk, None, OnOk};
ghost use Rattle.jr_tree.specs.declared.edit.Write.TheVariants.{Put, Unset};
ghost use Rattle.jr_items.specs.Items.{child_path};
ghost use Rattle.jr_items.specs.Refusals.{IsOrMemory, IsTheRefusal, checked_in, no_item, out_of_memory};
ghost use Rattle.jcr_ref.specs.Histories.{labels_of, number_at, reference_to};
ghost use Rattle.jcr_lock.specs.Needed.{is_needed};
ghost use Rattle.jcr_lock.specs.Locks.{IsDue, IsDueRefusal};
ghost use Rattle.jcr_version.specs.Edits.{is_used, label_edit, label_in_use, label_own, label_path, label_refusal, no_label, unlabel_edit, unlabel_own};

use crate::writes::needed;
use jcr_frozen::{find_history, find_version, number_at, own_child};
use jr_items::{OwnName, checked_in, no_item};
use jr_path::{DeepCopy, List, Name, Path};
use jr_tree::{Edit, Refusal, Tree, Write};
use jr_value::{Property, Value};
use std::alloc::{AllocError, Global};

/// The edit that gives a version a label (JSR 283, 15.4 Version Labels), and takes it from the version that has it; empty
/// where the version has it. Refused, in this order: the path, as every version command; 12 where the node isn't
/// versionable; 6 with the version's name where the history has no such version; 8 with the label's path where a version
/// has the label, this one too, and `take` is false.
#[tactic(auto, using(crate::proofs::Due::own_due, crate::proofs::Due::own_refused, crate::proofs::Due::first_refused))]
pub fn label_edit(
    alloc: Global,
    tree: &Tree,
    path: &Path,
    version: &str,
    label: &Name,
    take: bool,
) -> Result<Edit, Refusal>
    ensures ok { IfOk result (IsDue (label_edit tree.now path.now version.now label.now take)) }
    ensures err { IfErr result (IsDueRefusal (label_edit tree.now path.now version.now label.now take)) }
{
    match find_history(alloc, "label", tree, path) {
        Ok(history) => label_in(alloc, tree, &history, version, label, take),
        Err(refusal) => Err(refusal),
    }
}

#[tactic(auto, using(crate::proofs::Due::due_else, crate::proofs::Due::else_refused, crate::proofs::Due::else_memory))]
fn label_in(
    alloc: Global,
    tree: &Tree,
    history: &Path,
    version: &str,
    label: &Name,
    take: bool,
) -> Result<Edit, Refusal>
    ensures ok { IfOk result (IsDue (label_own tree.now history.now version.now label.now take)) }
    ensures err { IfErr result (IsDueRefusal (label_own tree.now history.now version.now label.now take)) }
{
    match find_free(alloc, tree, history, version, label, take) {
        Ok(version) => labelled(alloc, tree, history, &version, label),
        Err(refusal) => Err(refusal),
    }
}

// The version, where it may have the label.
#[tactic(auto, using(jcr_frozen::proofs::Refused::first_of_two, jcr_frozen::proofs::Refused::second_of_two, jcr_frozen::proofs::Refused::none_of_two))]
fn find_free(
    alloc: Global,
    tree: &Tree,
    history: &Path,
    version: &str,
    label: &Name,
    take: bool,
) -> Result<Path, Refusal>
    ensures version { IfOk result (λ path. path ≡ child_path history.now version.now) }
    ensures ok { OnOk result (label_refusal tree.now history.now version.now label.now take ≡ None) }
    ensures err { IfErr result (IsTheRefusal (label_refusal tree.now history.now version.now label.now take)) }
{
    match find_version(alloc, tree, history, version) {
        Ok(version) => free_for(alloc, tree, history, version, label, take),
        Err(refusal) => Err(refusal),
    }
}

// The version itself, where no version has the label or it may be taken.
fn free_for(
    alloc: Global,
    tree: &Tree,
    history: &Path,
    version: Path,
    label: &Name,
    take: bool,
) -> Result<Path, Refusal>
    ensures version { IfOk result (λ path. path ≡ version) }
    ensures ok { OnOk result (label_in_use tree.now history.now label.now take ≡ None) }
    ensures err { IfErr result (IsTheRefusal (label_in_use tree.now history.now label.now take)) }
{
    match check_free(alloc, tree, history, label, take) {
        Ok(()) => Ok(version),
        Err(refusal) => Err(refusal),
    }
}

// The edit that gives a version a label.
fn labelled(
    alloc: Global,
    tree: &Tree,
    history: &Path,
    version: &Path,
    label: &Name,
) -> Result<Edit, Refusal>
    ensures ok { IfOk result (λ edit. edit.writes ≡ filter (is_needed tree.now) (Put (labels_of history.now) label.now (reference_to (number_at tree.now version.now)) ∷ [])) }
    ensures err { IfErr result (λ refusal. refusal ≡ out_of_memory) }
{
    match label_writes(alloc, tree, history, version, label) {
        Ok(edit) => Ok(edit),
        Err(AllocError) => Err(Refusal::memory(alloc)),
    }
}

// A label is taken from a version only where the command says so.
fn check_free(
    alloc: Global,
    tree: &Tree,
    history: &Path,
    label: &Name,
    take: bool,
) -> Result<(), Refusal>
    ensures ok { OnOk result (label_in_use tree.now history.now label.now take ≡ None) }
    ensures err { IfErr result (IsTheRefusal (label_in_use tree.now history.now label.now take)) }
{
    if take {
        return Ok(());
    }
    match is_used(alloc, tree, history, label) {
        Ok(true) => Err(in_use(alloc, history, label)),
        Ok(false) => Ok(()),
        Err(AllocError) => Err(Refusal::memory(alloc)),
    }
}

fn in_use(alloc: Global, history: &Path, label: &Name) -> Refusal
    ensures { IsOrMemory (checked_in (label_path history.now label.now)) result }
{
    match label_path(alloc, history, label) {
        Ok(path) => checked_in(alloc, &path),
        Err(AllocError) => Refusal::memory(alloc),
    }
}

// Whether a version has the label.
fn is_used(alloc: Global, tree: &Tree, history: &Path, label: &Name) -> Result<bool, AllocError>
    ensures { IfOk result (λ answer. answer ≡ is_used tree.now history.now label.now) }
{
    let labels = own_child(alloc, history, OwnName::VersionLabels)?;
    Ok(tree.property(&labels, label).is_some())
}

fn label_writes(
    alloc: Global,
    tree: &Tree,
    history: &Path,
    version: &Path,
    label: &Name,
) -> Result<Edit, AllocError>
    ensures { IfOk result (λ edit. edit.writes ≡ filter (is_needed tree.now) (Put (labels_of history.now) label.now (reference_to (number_at tree.now version.now)) ∷ [])) }
{
    let labels = own_child(alloc, history, OwnName::VersionLabels)?;
    let number = number_at(alloc, tree, version)?;
    let label = label.copy()?;
    let named = Property::Single(Value::Reference(number));
    one_needed(alloc, tree, Write::Put(labels, label, named))
}

// The write, where it changes something.
fn one_needed(alloc: Global, tree: &Tree, write: Write) -> Result<Edit, AllocError>
    ensures { IfOk result (λ edit. edit.writes ≡ filter (is_needed tree.now) (write ∷ [])) }
{
    let mut writes = List::new(alloc);
    writes.push(write)?;
    Ok(needed(tree, writes))
}

/// The edit that takes a label away (JSR 283, 15.4 Version Labels). Refused, in this order: the path, as every version
/// command; 12 where the node isn't versionable; 1 with the label's path where no version has the label.
#[tactic(auto, using(crate::proofs::Due::own_due, crate::proofs::Due::own_refused, crate::proofs::Due::first_refused))]
pub fn unlabel_edit(alloc: Global, tree: &Tree, path: &Path, label: &Name) -> Result<Edit, Refusal>
    ensures ok { IfOk result (IsDue (unlabel_edit tree.now path.now label.now)) }
    ensures err { IfErr result (IsDueRefusal (unlabel_edit tree.now path.now label.now)) }
{
    match find_history(alloc, "unlabel", tree, path) {
        Ok(history) => unlabel_in(alloc, tree, &history, label),
        Err(refusal) => Err(refusal),
    }
}

#[tactic(auto, using(crate::proofs::Due::due_else, crate::proofs::Due::else_refused, crate::proofs::Due::else_memory))]
fn unlabel_in(alloc: Global, tree: &Tree, history: &Path, label: &Name) -> Result<Edit, Refusal>
    ensures ok { IfOk result (IsDue (unlabel_own tree.now history.now label.now)) }
    ensures err { IfErr result (IsDueRefusal (unlabel_own tree.now history.now label.now)) }
{
    match check_used(alloc, tree, history, label) {
        Ok(()) => unlabelled(alloc, tree, history, label),
        Err(refusal) => Err(refusal),
    }
}

// The edit that takes a label away.
fn unlabelled(alloc: Global, tree: &Tree, history: &Path, label: &Name) -> Result<Edit, Refusal>
    ensures ok { IfOk result (λ edit. edit.writes ≡ filter (is_needed tree.now) (Unset (labels_of history.now) label.now ∷ [])) }
    ensures err { IfErr result (λ refusal. refusal ≡ out_of_memory) }
{
    match unlabel_writes(alloc, tree, history, label) {
        Ok(edit) => Ok(edit),
        Err(AllocError) => Err(Refusal::memory(alloc)),
    }
}

// A version has the label.
fn check_used(alloc: Global, tree: &Tree, history: &Path, label: &Name) -> Result<(), Refusal>
    ensures ok { OnOk result (no_label tree.now history.now label.now ≡ None) }
    ensures err { IfErr result (IsTheRefusal (no_label tree.now history.now label.now)) }
{
    match is_used(alloc, tree, history, label) {
        Ok(true) => Ok(()),
        Ok(false) => Err(no_label(alloc, history, label)),
        Err(AllocError) => Err(Refusal::memory(alloc)),
    }
}

fn no_label(alloc: Global, history: &Path, label: &Name) -> Refusal
    ensures { IsOrMemory (no_item (label_path history.now label.now)) result }
{
    match label_path(alloc, history, label) {
        Ok(path) => no_item(alloc, &path),
        Err(AllocError) => Refusal::memory(alloc),
    }
}

fn label_path(alloc: Global, history: &Path, label: &Name) -> Result<Path, AllocError>
    ensures { IfOk result (λ path. path ≡ label_path history.now label.now) }
{
    let labels = own_child(alloc, history, OwnName::VersionLabels)?;
    labels.child(label)
}

fn unlabel_writes(
    alloc: Global,
    tree: &Tree,
    history: &Path,
    label: &Name,
) -> Result<Edit, AllocError>
    ensures { IfOk result (λ edit. edit.writes ≡ filter (is_needed tree.now) (Unset (labels_of history.now) label.now ∷ [])) }
{
    let labels = own_child(alloc, history, OwnName::VersionLabels)?;
    one_needed(alloc, tree, Write::Unset(labels, label.copy()?))
}

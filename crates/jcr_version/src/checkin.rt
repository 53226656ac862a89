// The edit that checks a node in.
ghost use Rattle.std.specs.Prelude.{◌≡◌, ◌++◌, ◌+◌, ◌%◌, ◌^◌, ◌∷◌, [], ◌<◌, filter, length, map, IfErr, IfOk, None, OnErr, OnOk};
ghost use Rattle.std.specs.BTreeMap.{insert_entry};
ghost use Rattle.std.specs.List.{find};
ghost use Rattle.std.specs.String.{string_bytes};
ghost use Rattle.jr_path.specs.Names.{name_cmp};
ghost use Rattle.jr_value.specs.declared.value.Kind.TheVariants as kind;
ghost use Rattle.jr_value.specs.declared.value.Property.TheVariants.{Many, Single};
ghost use Rattle.jr_value.specs.declared.value.Value.TheVariants as value;
ghost use Rattle.jr_tree.specs.declared.edit.Write.TheVariants.{Put};
ghost use Rattle.jr_tree.specs.declared.shared.Datum.TheVariants as datum;
ghost use Rattle.jr_tree.specs.Trees.{property_at};
ghost use Rattle.jr_items.specs.Items.{adding, child_path, is_checked_in, many_references};
ghost use Rattle.jr_items.specs.Names.{predecessors, uuid};
ghost use Rattle.jr_items.specs.Own.{own_name};
ghost use Rattle.jr_items.specs.Refusals.{IsOrMemory, IsTheRefusal, refusal};
ghost use Rattle.jcr_lock.specs.Locks.{IsDue, IsDueRefusal};
ghost use Rattle.jcr_lock.specs.Needed.{is_needed};
ghost use Rattle.jcr_ref.specs.Histories.{version_history_of, number_by, version_names};
ghost use Rattle.jcr_version.specs.Edits.{aborted, base_name, checked_in_version, checked_in_writes, checkin_drawn, checkin_due, checkin_edit, checkin_own, checkin_refusal, checkin_writes, having_drawn, new_version, next_version, succeed, version_nodes, version_props};
ghost use Rattle.jcr_version.specs.Limits.{within_limits};
ghost use Rattle.jcr_ref.specs.Drawn.{latest_date, too_many_ids};
ghost use Rattle.jcr_frozen.specs.Histories.{drawn_id, is_referenced, is_numbered, version_name};

use crate::limits::within_limits;
use crate::writes::{needed, push_adding, push_property};
use jcr_frozen::{
    find_history, first_aborting, is_named, is_numbered, is_versionable, one_reference, own_child,
    push_frozen, put_property, references_in, version_name, versions_of,
};
use jcr_ref::{
    MAX_IDS, identifier, identifier_number, identifiers_are_uuids, latest_date, version_names,
};
use jr_items::{OwnName, is_flag, over_limit};
use jr_path::{DeepCopy, Item, Keyed, List, Name, Path, Text};
use jr_tree::{Datum, Edit, Node, Refusal, Tree, Who, Write};
use jr_types::Registry;
use jr_value::{Kind, Property, Value};
use std::alloc::{AllocError, Global};

/// The edit that checks a node in (JSR 283, 15.2 Check-In): a new version with the node's frozen node, a successor of the
/// versions that are the node's predecessors and from now on the node's base; of these writes only what changes
/// something. The version is named `v` and the number of versions before it, the root version among them, and has one new
/// identifier of the session; its date is the greatest time of the session's base. Of a node that is checked in the edit
/// is empty, and nothing is drawn. Refused, in this order: the path, as every version command; 12 where the node isn't
/// versionable; 8 with the first item whose attribute is ABORT, in path order; 15 where the session has drawn 16,777,215
/// identifiers; 15 by the first path of a frozen node, in path order, that has more than 64 names or 1,024 bytes. After a
/// refusal nothing is drawn.
#[tactic(auto, using(crate::proofs::Due::own_due, crate::proofs::Due::own_refused, crate::proofs::Due::first_refused))]
pub fn checkin_edit(
    alloc: Global,
    types: &Registry,
    tree: &Tree,
    path: &Path,
    who: &mut Who,
) -> Result<Edit, Refusal>
    ensures ok { IfOk result (IsDue (checkin_edit types.now tree.now path.now who.old)) }
    ensures err { IfErr result (IsDueRefusal (checkin_edit types.now tree.now path.now who.old)) }
    ensures drawn { OnOk result (who.new ≡ having_drawn who.old (checkin_drawn tree.now path.now)) }
    ensures kept { OnErr result (who.new ≡ who.old) }
{
    match find_history(alloc, "checkin", tree, path) {
        Ok(history) => checkin_of(alloc, types, tree, path, &history, who),
        Err(refusal) => Err(refusal),
    }
}

// The edit of a versionable node.
fn checkin_of(
    alloc: Global,
    types: &Registry,
    tree: &Tree,
    path: &Path,
    history: &Path,
    who: &mut Who,
) -> Result<Edit, Refusal>
    requires { history.now ≡ version_history_of tree.now path.now }
    ensures ok { IfOk result (IsDue (checkin_own types.now tree.now path.now who.old)) }
    ensures err { IfErr result (IsDueRefusal (checkin_own types.now tree.now path.now who.old)) }
    ensures drawn { OnOk result (who.new ≡ having_drawn who.old (checkin_drawn tree.now path.now)) }
    ensures kept { OnErr result (who.new ≡ who.old) }
{
    match is_checked_in(alloc, tree, path) {
        Ok(true) => Ok(Edit {
            writes: List::new(alloc),
        }),
        Ok(false) => check_in(alloc, types, tree, path, history, who),
        Err(AllocError) => Err(Refusal::memory(alloc)),
    }
}

/// Whether a node is versionable and not checked out.
pub(crate) fn is_checked_in(alloc: Global, tree: &Tree, path: &Path) -> Result<bool, AllocError>
    ensures { IfOk result (λ answer. answer ≡ is_checked_in tree.now path.now) }
{
    if is_versionable(alloc, tree, path)? {
        let checked_out = OwnName::IsCheckedOut.name(alloc)?;
        Ok(is_flag(false, tree.property(path, &checked_out)))
    } else {
        Ok(false)
    }
}

// The edit of a node that isn't checked in.
#[tactic(auto, using(crate::proofs::Due::own_due, crate::proofs::Due::own_refused, crate::proofs::Due::first_refused))]
fn check_in(
    alloc: Global,
    types: &Registry,
    tree: &Tree,
    path: &Path,
    history: &Path,
    who: &mut Who,
) -> Result<Edit, Refusal>
    requires { history.now ≡ version_history_of tree.now path.now }
    ensures ok { IfOk result (IsDue (checkin_due types.now tree.now path.now who.old)) }
    ensures err { IfErr result (IsDueRefusal (checkin_due types.now tree.now path.now who.old)) }
    ensures drawn { OnOk result (who.new ≡ having_drawn who.old 1) }
    ensures kept { OnErr result (who.new ≡ who.old) }
{
    match check_checkin(alloc, types, tree, path, who) {
        Ok(()) => draw(alloc, types, tree, path, history, who),
        Err(refusal) => Err(refusal),
    }
}

// The edit of a node that may be checked in, and one identifier more.
fn draw(
    alloc: Global,
    types: &Registry,
    tree: &Tree,
    path: &Path,
    history: &Path,
    who: &mut Who,
) -> Result<Edit, Refusal>
    requires history { history.now ≡ version_history_of tree.now path.now }
    requires more { who.old.ids < 16777215 }
    ensures ok { IfOk result (IsDue (within_limits (filter (is_needed tree.now) (checkin_writes types.now tree.now path.now who.old)))) }
    ensures err { IfErr result (IsDueRefusal (within_limits (filter (is_needed tree.now) (checkin_writes types.now tree.now path.now who.old)))) }
    ensures drawn { OnOk result (who.new ≡ having_drawn who.old 1) }
    ensures kept { OnErr result (who.new ≡ who.old) }
{
    match checkin_writes(alloc, types, tree, path, history, who) {
        Ok(edit) => draw_for(alloc, edit, who),
        Err(AllocError) => Err(Refusal::memory(alloc)),
    }
}

// The edit, if what it adds is within the limits, and one identifier more.
fn draw_for(alloc: Global, edit: Edit, who: &mut Who) -> Result<Edit, Refusal>
    requires { who.old.ids < 16777215 }
    ensures ok { IfOk result (IsDue (within_limits edit.writes)) }
    ensures err { IfErr result (IsDueRefusal (within_limits edit.writes)) }
    ensures drawn { OnOk result (who.new ≡ having_drawn who.old 1) }
    ensures kept { OnErr result (who.new ≡ who.old) }
{
    match within_limits(alloc, edit) {
        Ok(edit) => {
            who.ids += 1;
            Ok(edit)
        }
        Err(refusal) => Err(refusal),
    }
}

#[tactic(auto, using(jcr_frozen::proofs::Refused::first_of_two, jcr_frozen::proofs::Refused::second_of_two, jcr_frozen::proofs::Refused::none_of_two))]
fn check_checkin(
    alloc: Global,
    types: &Registry,
    tree: &Tree,
    path: &Path,
    who: &Who,
) -> Result<(), Refusal>
    ensures ok { OnOk result (checkin_refusal types.now tree.now path.now who.now ≡ None) }
    ensures err { IfErr result (IsTheRefusal (checkin_refusal types.now tree.now path.now who.now)) }
    ensures more { OnOk result (who.now.ids < 16777215) }
{
    match check_aborting(alloc, types, tree, path) {
        Ok(()) => check_ids(alloc, who),
        Err(refusal) => Err(refusal),
    }
}

fn check_aborting(alloc: Global, types: &Registry, tree: &Tree, path: &Path) -> Result<(), Refusal>
    ensures ok { OnOk result (aborted types.now tree.now path.now ≡ None) }
    ensures err { IfErr result (IsTheRefusal (aborted types.now tree.now path.now)) }
{
    match first_aborting(alloc, types, tree, path) {
        Ok(Some(item)) => Err(aborted(alloc, item)),
        Ok(None) => Ok(()),
        Err(AllocError) => Err(Refusal::memory(alloc)),
    }
}

// An item stands in the way.
fn aborted(alloc: Global, item: Item) -> Refusal
    ensures { IsOrMemory (refusal 8 (datum.Item item ∷ [])) result }
{
    let mut parts = List::new(alloc);
    match parts.push(Datum::Item(item)) {
        Ok(()) => Refusal { number: 8, parts },
        Err(_) => Refusal::memory(alloc),
    }
}

fn check_ids(alloc: Global, who: &Who) -> Result<(), Refusal>
    ensures ok { OnOk result (too_many_ids (who.now.ids + 1) ≡ None) }
    ensures err { IfErr result (IsTheRefusal (too_many_ids (who.now.ids + 1))) }
    ensures more { OnOk result (who.now.ids < 16777215) }
{
    if who.ids >= MAX_IDS {
        return Err(over_limit(alloc, "ids", 16_777_215));
    }
    Ok(())
}

// The writes that change something.
fn checkin_writes(
    alloc: Global,
    types: &Registry,
    tree: &Tree,
    path: &Path,
    history: &Path,
    who: &Who,
) -> Result<Edit, AllocError>
    requires history { history.now ≡ version_history_of tree.now path.now }
    requires more { who.now.ids < 16777215 }
    ensures { IfOk result (λ edit. edit.writes ≡ filter (is_needed tree.now) (checkin_writes types.now tree.now path.now who.now)) }
{
    let mut writes = List::new(alloc);
    push_checkin(&mut writes, alloc, types, tree, path, history, who)?;
    Ok(needed(tree, writes))
}

fn push_checkin(
    writes: &mut List<Write>,
    alloc: Global,
    types: &Registry,
    tree: &Tree,
    path: &Path,
    history: &Path,
    who: &Who,
) -> Result<(), AllocError>
    requires history { history.now ≡ version_history_of tree.now path.now }
    requires more { who.now.ids < 16777215 }
    ensures { OnOk result (writes.new ≡ writes.old ++ checkin_writes types.now tree.now path.now who.now) }
{
    let id = drawn(who);
    let versions = versions_of(alloc, tree, history)?;
    push_version(writes, alloc, types, tree, path, history, who)?;
    push_succeeding(writes, alloc, tree, path, &versions, id)?;
    push_checked_in(writes, alloc, path, id)
}

// A version, and the node's frozen node below it.
fn push_version(
    writes: &mut List<Write>,
    alloc: Global,
    types: &Registry,
    tree: &Tree,
    path: &Path,
    history: &Path,
    who: &Who,
) -> Result<(), AllocError>
    requires { who.now.ids < 16777215 }
    ensures { OnOk result (writes.new ≡ writes.old ++ adding (version_nodes types.now tree.now path.now (next_version tree.now history.now) (drawn_id who.now) (latest_date who.now.base))) }
{
    let version = next_version(alloc, tree, history)?;
    let id = drawn_id(alloc, who)?;
    let date = latest_date(&who.base);
    push_adding(
        writes,
        version_nodes(alloc, types, tree, path, &version, id, date)?,
    )
}

// The path of the version that a check-in makes.
fn next_version(alloc: Global, tree: &Tree, history: &Path) -> Result<Path, AllocError>
    ensures { IfOk result (λ path. path ≡ next_version tree.now history.now) }
{
    let name = next_name(alloc, tree, history)?;
    history.child(&name)
}

fn next_name(alloc: Global, tree: &Tree, history: &Path) -> Result<Name, AllocError>
    ensures { IfOk result (λ name. name ≡ version_name (length (version_names tree.now history.now))) }
{
    let count = version_names(alloc, tree, history)?.len();
    version_name(alloc, count)
}

fn version_nodes(
    alloc: Global,
    types: &Registry,
    tree: &Tree,
    path: &Path,
    version: &Path,
    id: Text,
    date: i64,
) -> Result<Vec<(Path, Node)>, AllocError>
    ensures { IfOk result (λ nodes. nodes.items ≡ version_nodes types.now tree.now path.now version.now id date) }
{
    let mut nodes = Vec::new(alloc);
    push_new_version(&mut nodes, alloc, tree, path, version, id, date)?;
    let place = own_child(alloc, version, OwnName::FrozenNode)?;
    push_frozen(&mut nodes, alloc, types, tree, path, &place)?;
    Ok(nodes)
}

// Puts a new version behind other nodes.
fn push_new_version(
    nodes: &mut Vec<(Path, Node)>,
    alloc: Global,
    tree: &Tree,
    path: &Path,
    version: &Path,
    id: Text,
    date: i64,
) -> Result<(), AllocError>
    ensures { OnOk result (nodes.new.items ≡ nodes.old.items ++ (version.now, new_version tree.now path.now id date) ∷ []) }
{
    let node = new_version(alloc, tree, path, id, date)?;
    let version = version.copy()?;
    nodes.push((version, node))?;
    Ok(())
}

// The node of a new version, which takes the node's predecessors.
fn new_version(
    alloc: Global,
    tree: &Tree,
    path: &Path,
    id: Text,
    date: i64,
) -> Result<Node, AllocError>
    ensures { IfOk result (λ node. node ≡ new_version tree.now path.now id date) }
{
    let predecessors = OwnName::Predecessors.name(alloc)?;
    let mut props = version_props(alloc, id, date)?;
    put_property(
        &mut props,
        alloc,
        OwnName::Predecessors,
        tree.property(path, &predecessors),
    )?;
    Ok(Node { props, born: None })
}

// The type, identifier and date of a new version.
fn version_props(alloc: Global, id: Text, date: i64) -> Result<Keyed<Name, Property>, AllocError>
    ensures { IfOk result (λ props. props ≡ version_props id date) }
{
    let mut props = Keyed::new(alloc);
    let own = Value::Name(OwnName::VersionType.name(alloc)?);
    put_value(&mut props, alloc, OwnName::PrimaryType, own)?;
    put_value(&mut props, alloc, OwnName::Uuid, Value::Str(id))?;
    put_value(&mut props, alloc, OwnName::Created, Value::Date(date))?;
    Ok(props)
}

fn put_value(
    props: &mut Keyed<Name, Property>,
    alloc: Global,
    name: OwnName,
    value: Value,
) -> Result<(), AllocError>
    ensures { OnOk result (props.new ≡ insert_entry name_cmp props.old (own_name name) (Single value)) }
{
    props.put(name.name(alloc)?, Property::Single(value))
}

// The text of the session's next identifier.
fn drawn_id(alloc: Global, who: &Who) -> Result<Text, AllocError>
    requires { who.now.ids < 16777215 }
    ensures { IfOk result (λ text. text ≡ drawn_id who.now) }
{
    Ok(Text::of(drawn_text(alloc, who)?))
}

fn drawn_text(alloc: Global, who: &Who) -> Result<String, AllocError>
    requires { who.now.ids < 16777215 }
    ensures { IfOk result (λ text. string_bytes text ≡ drawn_id who.now) }
{
    identifiers_are_uuids();
    identifier(alloc, session_of(who), who.ids + 1)
}

// The number of the session, of which identifiers have the last 24 bits.
fn session_of(who: &Who) -> u32
    ensures { result % 2 ^ 24 ≡ (who.now.session + who.now.earlier) % 2 ^ 24 }
{
    who.session.wrapping_add(who.earlier)
}

// The number of the session's next identifier.
fn drawn(who: &Who) -> u128
    requires { who.now.ids < 16777215 }
    ensures { result ≡ number_by who.now (who.now.ids + 1) }
{
    identifier_number(who.session.wrapping_add(who.earlier), who.ids + 1)
}

// The new version is a successor of those of the versions that are the node's predecessors.
fn push_succeeding(
    writes: &mut List<Write>,
    alloc: Global,
    tree: &Tree,
    path: &Path,
    versions: &[Path],
    id: u128,
) -> Result<(), AllocError>
    ensures { OnOk result (writes.new ≡ writes.old ++ map (succeed tree.now id) (filter (is_referenced (many_references (property_at tree.now path.now predecessors)) tree.now) versions.now)) }
{
    let predecessors = OwnName::Predecessors.name(alloc)?;
    let references = references_in(alloc, tree.property(path, &predecessors))?;
    push_successors(writes, alloc, tree, &references, versions, id)
}

fn push_successors(
    writes: &mut List<Write>,
    alloc: Global,
    tree: &Tree,
    references: &[u128],
    versions: &[Path],
    id: u128,
) -> Result<(), AllocError>
    ensures { OnOk result (writes.new ≡ writes.old ++ map (succeed tree.now id) (filter (is_referenced references.now tree.now) versions.now)) }
{
    let uuid = OwnName::Uuid.name(alloc)?;
    for version in versions {
        if is_named(tree, &uuid, references, version) {
            push_successor(writes, alloc, tree, version, id)?;
        }
    }
    Ok(())
}

// A version has one successor more.
fn push_successor(
    writes: &mut List<Write>,
    alloc: Global,
    tree: &Tree,
    version: &Path,
    id: u128,
) -> Result<(), AllocError>
    ensures { OnOk result (writes.new ≡ writes.old ++ succeed tree.now id version.now ∷ []) }
{
    let successors = OwnName::Successors.name(alloc)?;
    let mut references = references_in(alloc, tree.property(version, &successors))?;
    references.push(id)?;
    push_references(writes, alloc, version, OwnName::Successors, &references)
}

/// Puts the write of a list of references.
pub(crate) fn push_references(
    writes: &mut List<Write>,
    alloc: Global,
    path: &Path,
    name: OwnName,
    references: &[u128],
) -> Result<(), AllocError>
    ensures { OnOk result (writes.new ≡ writes.old ++ Put path.now (own_name name) (Many kind.Reference (map value.Reference references.now)) ∷ []) }
{
    let mut values = List::new(alloc);
    for reference in references {
        values.push(Value::Reference(*reference))?;
    }
    push_property(
        writes,
        alloc,
        path,
        name,
        Property::Many(Kind::Reference, values),
    )
}

/// The node is checked in, the version with that identifier is its base, and it has no predecessors.
pub(crate) fn push_checked_in(
    writes: &mut List<Write>,
    alloc: Global,
    path: &Path,
    id: u128,
) -> Result<(), AllocError>
    ensures { OnOk result (writes.new ≡ writes.old ++ checked_in_writes path.now id) }
{
    let flag = Property::Single(Value::Boolean(false));
    push_property(writes, alloc, path, OwnName::IsCheckedOut, flag)?;
    let base = Property::Single(Value::Reference(id));
    push_property(writes, alloc, path, OwnName::BaseVersion, base)?;
    push_references(writes, alloc, path, OwnName::Predecessors, &[])
}

/// The name that a check-in of a versionable node answers: that of the version that it makes, or of the base version of a
/// node that is checked in; none where no version is its base.
pub fn checked_in_version(
    alloc: Global,
    tree: &Tree,
    path: &Path,
    history: &Path,
) -> Result<Option<Name>, AllocError>
    requires { history.now ≡ version_history_of tree.now path.now }
    ensures { IfOk result (λ name. name ≡ checked_in_version tree.now path.now) }
{
    if is_checked_in(alloc, tree, path)? {
        base_name(alloc, tree, path, history)
    } else {
        Ok(Some(next_name(alloc, tree, history)?))
    }
}

// The name of the version that is the node's base.
fn base_name(
    alloc: Global,
    tree: &Tree,
    path: &Path,
    history: &Path,
) -> Result<Option<Name>, AllocError>
    ensures { IfOk result (λ name. name ≡ base_name tree.now path.now history.now) }
{
    let base = OwnName::BaseVersion.name(alloc)?;
    match one_reference(tree.property(path, &base)) {
        Some(number) => name_of(alloc, tree, history, number),
        None => Ok(None),
    }
}

// The name of the first version that has the identifier.
fn name_of(
    alloc: Global,
    tree: &Tree,
    history: &Path,
    number: u128,
) -> Result<Option<Name>, AllocError>
    ensures { IfOk result (λ name. name ≡ find (λ n. is_numbered number tree.now (child_path history.now n)) (version_names tree.now history.now)) }
{
    let uuid = OwnName::Uuid.name(alloc)?;
    let names = version_names(alloc, tree, history)?;
    first_numbered(tree, &uuid, history, &names, number)
}

// The first of the names whose child has the identifier of that number.
fn first_numbered(
    tree: &Tree,
    key: &Name,
    path: &Path,
    names: &[Name],
    number: u128,
) -> Result<Option<Name>, AllocError>
    requires { key.now ≡ uuid }
    ensures { IfOk result (λ name. name ≡ find (λ n. is_numbered number tree.now (child_path path.now n)) names.now) }
{
    for name in names {
        if is_child_numbered(tree, key, path, name, number)? {
            return Ok(Some(name.copy()?));
        }
    }
    Ok(None)
}

// Whether the child of that name has the identifier of that number.
fn is_child_numbered(
    tree: &Tree,
    key: &Name,
    path: &Path,
    name: &Name,
    number: u128,
) -> Result<bool, AllocError>
    requires { key.now ≡ uuid }
    ensures { IfOk result (λ answer. answer ≡ is_numbered number tree.now (child_path path.now name.now)) }
{
    let child = path.child(name)?;
    Ok(is_numbered(tree, key, number, &child))
}

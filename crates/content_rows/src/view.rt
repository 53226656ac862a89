// The view of a session: its commands one behind another; what they answer is put with ` > `
// between.
ghost use Rattle.std.specs.Prelude.{◌≡◌, IfOk, IsFalse, IsTrue};
ghost use Rattle.std.specs.FinMap.{is_sorted};
ghost use Rattle.std.specs.FinMap.Entries.{below_all};
ghost use Rattle.jcr_read.specs.Reading.{reads_all};
ghost use Rattle.jr_part.specs.Parts.{LacksNothing};
ghost use Rattle.jr_part.specs.declared.need.Need.TheVariants as need;
ghost use Rattle.jr_path.specs.Names.{name_cmp};

use crate::json::{is_true_at, items, items_read, number_at};
use crate::shows::{put_refusal, put_writes};
use crate::trees::{add_object, insert, tree_of};
use crate::types::broken;
use crate::versions::{add_type, tell_behind};
use jcr_trans::Command;
use jcr_view::{Pending, is_viewed};
use jr_args::{Fault, command};
use jr_items::OwnName;
use jr_part::{Need, Part};
use jr_path::{DeepCopy, List, Name, Path};
use jr_rev::{RevVec, Revision};
use jr_tree::{Edit, Node, Refusal, Tree, Who};
use jr_types::Registry;
use jr_value::{Property, Value};
use rows::{Out, json_of, text_at};
use serde_json::Value as Json;
use std::alloc::{AllocError, Global};

// What the commands work on: the tree at the base and what is known of it, what is pending, and who
// runs them; and whether a command has told its answer.
#[derive(Drop)]
struct Site {
    base: Tree,
    part: Part,
    pending: Pending,
    who: Who,
    told: bool,
}

// COMMANDS: a list of commands as they stand in a script. Other steps are `["define",TYPE]`,
// `["who",SESSION,IDS]`, `["edit"]`, which tells what is pending, `["save"]`, `["refresh",KEEP]`,
// `["forget"]`, after which nothing is known of the tree, and `["base",TREE]`: another tree at the
// base, on which what is pending is made again.
pub(crate) fn add(types: &mut Registry, steps: &str, given: &str, out: &mut Out) {
    let tree = tree_of(given, out);
    let mut site = site_on(based(&tree, out), out.alloc);
    let steps = json_of(steps, out);
    add_steps(&mut site, types, items_read(&steps), out);
    drop(steps);
    drop(site);
}

fn add_steps(site: &mut Site, types: &mut Registry, steps: &[Json], out: &mut Out) {
    for step in steps {
        add_step(site, types, step, items(step), out);
    }
}

fn site_on(base: Tree, alloc: Global) -> Site {
    Site {
        base,
        part: Part::new(alloc),
        pending: Pending::new(alloc),
        who: first_who(),
        told: false,
    }
}

fn first_who() -> Who {
    let mut base = RevVec::none();
    base.raise(at_time(1));
    Who {
        session: 0,
        earlier: 0,
        ids: 0,
        base,
    }
}

fn at_time(time: u64) -> Revision {
    Revision {
        time,
        counter: 0,
        cluster: 1,
    }
}

// The tree with the start as the birth of each node. The root is an nt:unstructured where no type
// is given.
fn based(tree: &Tree, out: &mut Out) -> Tree {
    let mut base = Tree::new(out.alloc);
    for (path, node) in tree.iter() {
        insert(&mut base, path, born(node), out);
    }
    out.note(type_root(&mut base, out.alloc));
    base
}

fn born(node: &Node) -> Result<Node, AllocError> {
    let props = node.props.copy()?;
    let born = Some(at_time(0));
    Ok(Node { props, born })
}

fn type_root(base: &mut Tree, alloc: Global) -> Result<(), AllocError> {
    let name = OwnName::PrimaryType.name(alloc)?;
    if base.property(&Path::root(alloc), &name).is_some() {
        return Ok(());
    }
    let kind = Property::Single(Value::Name(OwnName::Unstructured.name(alloc)?));
    base.put(&Path::root(alloc), name, kind)
}

// The step is lent as it stands, and as the list that it is.
fn add_step(site: &mut Site, types: &mut Registry, step: &Json, parts: &[Json], out: &mut Out) {
    match text_at(parts, 0) {
        "define" => add_type(types, parts.get(1), out),
        "save" => save(site, out),
        "edit" => tell_edit(site, out),
        "refresh" => refresh(site, is_true_at(parts, 1), out),
        "forget" => site.part = Part::new(out.alloc),
        "base" => move_base(site, parts.get(1), out),
        "who" => set_who(&mut site.who, number_at(parts, 1), number_at(parts, 2)),
        _ => tell(site, types, step, out),
    }
}

fn set_who(who: &mut Who, session: u32, ids: u32) {
    who.session = session;
    who.ids = ids;
}

// What is pending comes to the tree by the next revision, which the base then has too.
fn save(site: &mut Site, out: &mut Out) {
    match site.pending.edit() {
        Ok(edit) => save_edit(site, &edit, out),
        Err(_) => out.is_broken = true,
    }
    begin(site, out.alloc);
}

fn save_edit(site: &mut Site, edit: &Edit, out: &mut Out) {
    let revision = next_revision(&site.who.base);
    let applied = site.base.apply(edit, Some(revision));
    out.note(applied);
    site.who.base.raise(revision);
}

fn next_revision(base: &RevVec) -> Revision {
    match base.get(1) {
        Some(last) => at_time(last.time.saturating_add(1)),
        None => at_time(1),
    }
}

// Nothing is known of the tree, and nothing is pending.
fn begin(site: &mut Site, alloc: Global) {
    site.part = Part::new(alloc);
    site.pending = Pending::new(alloc);
}

fn refresh(site: &mut Site, keep: bool, out: &mut Out) {
    if keep {
        rebase(site, out);
    } else {
        begin(site, out.alloc);
    }
}

fn move_base(site: &mut Site, json: Option<&Json>, out: &mut Out) {
    let mut tree = tree_of("{}", out);
    match json {
        Some(json) => add_object(&mut tree, false, json, out),
        None => out.is_broken = true,
    }
    site.base = based(&tree, out);
    rebase(site, out);
}

fn rebase(site: &mut Site, out: &mut Out) {
    site.part = Part::new(out.alloc);
    match site.pending.needs_to_rebase() {
        Ok(needs) => load_all(needs.as_slice(), &site.base, &mut site.part, out),
        Err(_) => out.is_broken = true,
    }
    let rebased = site.pending.rebase(&site.part);
    out.note(rebased);
}

fn tell_edit(site: &mut Site, out: &mut Out) {
    tell_behind(&mut site.told, out);
    match site.pending.edit() {
        Ok(edit) => put_writes(edit.writes.as_slice(), out),
        Err(_) => out.is_broken = true,
    }
}

fn tell(site: &mut Site, types: &Registry, step: &Json, out: &mut Out) {
    tell_behind(&mut site.told, out);
    let command = command(out.alloc, step);
    tell_read(site, types, &command, out);
    drop(command);
}

fn tell_read(site: &mut Site, types: &Registry, command: &Result<Command, Fault>, out: &mut Out) {
    match command {
        Ok(command) => tell_command(site, types, command, out),
        Err(_) => out.put("no command"),
    }
}

fn tell_command(site: &mut Site, types: &Registry, command: &Command, out: &mut Out) {
    load(
        &site.pending,
        command,
        &site.who,
        &site.base,
        &mut site.part,
        out,
    );
    run(
        &mut site.pending,
        command,
        &site.part,
        types,
        &mut site.who,
        out,
    );
}

fn run(
    pending: &mut Pending,
    command: &Command,
    part: &Part,
    types: &Registry,
    who: &mut Who,
    out: &mut Out,
) {
    if !is_viewed(command) {
        return out.put("no view command");
    }
    match lacks_tree(command, part) {
        Ok(false) => put_reply(pending.run(command, part, types, who), out),
        _ => out.put("no view command"),
    }
}

// Whether the command goes over the whole tree, and some of it isn't known.
fn lacks_tree(command: &Command, part: &Part) -> Result<bool, AllocError>
    ensures { IfOk result (λ lacks. IsFalse lacks → IsTrue (reads_all command.now)
        → LacksNothing part.now need.All) }
{
    match command {
        Command::ById(_) | Command::Refs(_) | Command::Versions(_) => lacks_some(part),
        _ => Ok(false),
    }
}

fn lacks_some(part: &Part) -> Result<bool, AllocError>
    ensures { IfOk result (λ lacks. IsFalse lacks → LacksNothing part.now need.All) }
{
    Ok(part.lacks(&Need::All)?.is_some())
}

fn put_reply(reply: Result<String, Refusal>, out: &mut Out) {
    match reply {
        Ok(text) => out.put(text.as_str()),
        Err(refusal) => put_refusal(&refusal, out),
    }
}

// Takes one thing after another from the tree, until nothing lacks that the command needs.
fn load(
    pending: &Pending,
    command: &Command,
    who: &Who,
    base: &Tree,
    part: &mut Part,
    out: &mut Out,
) {
    for _ in 0..100_000_u32 {
        if !load_next(pending.needs(command, part, who), base, part, out) {
            return;
        }
    }
}

fn load_next(
    needs: Result<Vec<Need>, AllocError>,
    base: &Tree,
    part: &mut Part,
    out: &mut Out,
) -> bool {
    match needs {
        Ok(needs) => take_first(needs.as_slice(), base, part, out),
        Err(_) => broken(out),
    }
}

fn load_all(needs: &[Need], base: &Tree, part: &mut Part, out: &mut Out) {
    for _ in 0..100_000_u32 {
        if !take_first(needs, base, part, out) {
            return;
        }
    }
}

// Takes from the tree what lacks first, and tells whether something does.
fn take_first(needs: &[Need], base: &Tree, part: &mut Part, out: &mut Out) -> bool {
    for need in needs {
        if take_lacking(need, base, part, out) {
            return true;
        }
    }
    false
}

fn take_lacking(need: &Need, base: &Tree, part: &mut Part, out: &mut Out) -> bool {
    let lacking = part.lacks(need);
    let is_lacking = take(&lacking, base, part, out);
    drop(lacking);
    is_lacking
}

fn take(
    lacking: &Result<Option<Need>, AllocError>,
    base: &Tree,
    part: &mut Part,
    out: &mut Out,
) -> bool {
    match lacking {
        Ok(Some(need)) => taken(need, base, part, out),
        Ok(None) => false,
        Err(_) => broken(out),
    }
}

fn taken(need: &Need, base: &Tree, part: &mut Part, out: &mut Out) -> bool {
    match need {
        Need::Node(path) => out.note(take_node(base, path, part)),
        Need::Children(path) => take_children(base, path, part, out),
        _ => {}
    }
    true
}

fn take_node(base: &Tree, path: &Path, part: &mut Part) -> Result<(), AllocError> {
    match base.get(path) {
        Some(node) => part.put_node(path, Some(node.copy()?)),
        None => part.put_node(path, None),
    }
}

fn take_children(base: &Tree, path: &Path, part: &mut Part, out: &mut Out) {
    let names = dated_children(base, path, out);
    if rise(names.as_slice()) {
        out.note(part.put_children(path, names));
    }
}

fn dated_children(base: &Tree, path: &Path, out: &mut Out) -> List<(Name, Option<Revision>)> {
    let mut dated = List::new(out.alloc);
    match base.children(path) {
        Ok(names) => push_dated(&mut dated, base, path, names.as_slice(), out),
        Err(_) => out.is_broken = true,
    }
    dated
}

fn push_dated(
    dated: &mut List<(Name, Option<Revision>)>,
    base: &Tree,
    path: &Path,
    names: &[Name],
    out: &mut Out,
) {
    for name in names {
        out.push(dated, dated_child(base, path, name));
    }
}

fn dated_child(
    base: &Tree,
    path: &Path,
    name: &Name,
) -> Result<(Name, Option<Revision>), AllocError> {
    let birth = birth_of(base, path, name)?;
    Ok((name.copy()?, birth))
}

fn birth_of(base: &Tree, path: &Path, name: &Name) -> Result<Option<Revision>, AllocError> {
    match base.get(&path.child(name)?) {
        Some(node) => Ok(node.born),
        None => Ok(None),
    }
}

// Whether the names rise.
fn rise(names: &[(Name, Option<Revision>)]) -> bool
    ensures { result ≡ is_sorted name_cmp names.now }
{
    match names {
        [] => true,
        [first, rest @ ..] => is_below(&first.0, rest) && rise(rest),
    }
}

fn is_below(name: &Name, names: &[(Name, Option<Revision>)]) -> bool
    ensures { result ≡ below_all name_cmp name.now names.now }
{
    match names {
        [] => true,
        [first, rest @ ..] => name.cmp(&first.0).is_lt() && is_below(name, rest),
    }
}

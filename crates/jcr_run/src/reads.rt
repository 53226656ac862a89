// How a session reads what its next command asks of the tree at its base, and what changed.
ghost use Rattle.std.specs.Prelude.{◌≡◌, ◌≤◌, ◌&&◌, IfOk, IfSome, IsFalse, IsTrue, None, OnErr};
ghost use Rattle.std.specs.Prelude.{Some, cond, is_none, is_some, option_map};
ghost use Rattle.oak_port.specs.Ports.{Starting};
ghost use Rattle.jcr_view.specs.Rounds.{is_of_one_node};
ghost use Rattle.jr_part.specs.declared.need.Need.TheVariants as need;
ghost use Rattle.jcr_law.specs.State.{Call};
ghost use Rattle.jcr_law.specs.declared.state.Cursor.{Cursor as Standing};
ghost use Rattle.jcr_held.specs.Holds.{Holds};
ghost use Rattle.jcr_run.specs.Nearing.{EndsSooner, HasNeared, unread_of};
ghost use Rattle.jcr_run.specs.Standing.{HasLooked, HasMadeReading, IsCalled, IsFetchFor, IsOneFetch};
ghost use Rattle.jcr_run.specs.Standing.{IsReading, IsReadyNext, IsRefused, IsWantedNext, Stands};
ghost use Rattle.jcr_run.specs.Standing.{due_for, is_events, may_read};
ghost use Rattle.jcr_run.specs.declared.run.Fetch.TheVariants as fetch;

use crate::next::Due;
use crate::run::{Fetch, SessionRun};
use jcr_law::JcrLaw;
use jcr_steps::{Changed, Listed, Loaded, changes_came, list_came, load_came};
use jr_part::Need;
use jr_path::{DeepCopy, Path};
use jr_rev::RevVec;
use oak_port::{Port, Task};
use std::alloc::AllocError;
use std::mem;

/// Makes one step of reading the tree at the base, or what changed, where one is due, and tells
/// whether it did: then the next command asks for more than is read. The step begins to read a
/// node, the names of its children, or what changed, or brings what is being read nearer. Where
/// memory is refused, nothing is being read any more; what was read stays.
pub fn read<P: Port<L = JcrLaw>>(run: &mut SessionRun, port: &mut P) -> Result<bool, AllocError>
    requires stands { Stands (P.law port.old) (P.shown port.old) run.old }
    ensures law { P.law port.new ≡ P.law port.old }
    ensures looked { HasLooked (P.law port.old) (P.shown port.old) (P.shown port.new)
        run.old run.new }
    ensures read { IfOk result (HasMadeReading (P.shown port.old) (P.shown port.new)
        run.old run.new) }
    ensures err { OnErr result (IsTrue (may_read run.old)
        × IsRefused (P.shown port.new) run.new) }
    ensures nears { IfOk result (λ made. IsTrue made → HasNeared
        (EndsSooner (P.left port.old) (P.left port.new) (P.shown port.old))
        (P.law port.old) (P.shown port.old) run.old run.new) }
{
    if !run.may_read() {
        return Ok(false);
    }
    match mem::replace(&mut run.fetch, None) {
        Some(fetch) => read_on(run, port, fetch),
        None => read_next(run, port),
    }
}

// Asks what is to be read next, begins that, and makes the first step of it.
fn read_next<P: Port<L = JcrLaw>>(run: &mut SessionRun, port: &mut P) -> Result<bool, AllocError>
    requires stands { Stands (P.law port.old) (P.shown port.old) run.old }
    requires reads { IsTrue (may_read run.old) }
    requires none { run.old.fetch ≡ None }
    ensures law { P.law port.new ≡ P.law port.old }
    ensures looked { HasLooked (P.law port.old) (P.shown port.old) (P.shown port.new)
        run.old run.new }
    ensures read { IfOk result (HasMadeReading (P.shown port.old) (P.shown port.new)
        run.old run.new) }
    ensures err { OnErr result (IsRefused (P.shown port.new) run.new) }
    ensures nears { IfOk result (λ made. IsTrue made → HasNeared ⊥
        (P.law port.old) (P.shown port.old) run.old run.new) }
{
    match next_fetch(run)? {
        Some(fetch) => read_first(run, port, fetch),
        None => Ok(false),
    }
}

// What is to be read next for the next command.
fn next_fetch(run: &mut SessionRun) -> Result<Option<Fetch>, AllocError>
    requires reads { IsTrue (may_read run.old) }
    ensures same { run.new ≡ record run.old { held = run.new.held } }
    ensures ready { IfOk result (λ load. load ≡ None → IsReadyNext run.new) }
    ensures one { IfOk result (λ load. IfSome load IsOneFetch) }
    ensures suits { IfOk result (IsFetchFor run.new) }
    ensures holds { (c : Call) → Holds c run.old.held → Holds c run.new.held }
    ensures wanted { IfOk result (λ load. (c : Call) → Holds c run.old.held
        → IsWantedNext c (record run.new { fetch = load })) }
    ensures fewer { (c : Call) → Holds c run.old.held
        → unread_of c run.new ≤ unread_of c run.old }
{
    match run.due() {
        Due::Events => Ok(next_changes(run)),
        _ => next_tree(run),
    }
}

// What is to be read for `events`: what changed since the cursor, where it lacks.
fn next_changes(run: &SessionRun) -> Option<Fetch>
    ensures { result ≡ cond (is_some run.now.held.cursor && is_none run.now.changes)
        (option_map (λ (x : Standing). fetch.Changes x.at) run.now.held.cursor) None }
{
    if run.changes.is_some() {
        return None;
    }
    match run.held.cursor() {
        Some(cursor) => Some(Fetch::Changes(cursor.at)),
        None => None,
    }
}

// What is to be read next of the tree for the next command, which isn't `events`.
fn next_tree(run: &mut SessionRun) -> Result<Option<Fetch>, AllocError>
    requires reads { IsTrue (may_read run.old) }
    requires tree { IsFalse (is_events (due_for run.old)) }
    ensures same { run.new ≡ record run.old { held = run.new.held } }
    ensures ready { IfOk result (λ load. load ≡ None → IsReadyNext run.new) }
    ensures one { IfOk result (λ load. IfSome load IsOneFetch) }
    ensures suits { IfOk result (IsFetchFor run.new) }
    ensures holds { (c : Call) → Holds c run.old.held → Holds c run.new.held }
    ensures wanted { IfOk result (λ load. (c : Call) → Holds c run.old.held
        → IsWantedNext c (record run.new { fetch = load })) }
    ensures fewer { (c : Call) → Holds c run.old.held
        → unread_of c run.new ≤ unread_of c run.old }
{
    let load = next_load(run)?;
    Ok(of_tree(load))
}

// What is to be read next of the tree.
fn next_load(run: &mut SessionRun) -> Result<Option<Need>, AllocError>
    requires reads { IsTrue (may_read run.old) }
    requires tree { IsFalse (is_events (due_for run.old)) }
    ensures same { run.new ≡ record run.old { held = run.new.held } }
    ensures ready { IfOk result (λ load. load ≡ None → IsReadyNext run.new) }
    ensures one { IfOk result (λ load. IfSome load (λ n. IsTrue (is_of_one_node n))) }
    ensures holds { (c : Call) → Holds c run.old.held → Holds c run.new.held }
    ensures wanted { IfOk result (λ load. (c : Call) → Holds c run.old.held
        → IsWantedNext c (record run.new { fetch = option_map fetch.Tree load })) }
    ensures fewer { (c : Call) → Holds c run.old.held
        → unread_of c run.new ≤ unread_of c run.old }
{
    let SessionRun {
        commands,
        index,
        held,
        ..
    } = run;
    match commands.as_slice().get(*index as usize) {
        Some(command) => held.next_load(command),
        None => unreachable!(),
    }
}

// Begins to read, and makes the first step.
fn read_first<P: Port<L = JcrLaw>>(
    run: &mut SessionRun,
    port: &mut P,
    fetch: Fetch,
) -> Result<bool, AllocError>
    requires stands { Stands (P.law port.old) (P.shown port.old) run.old }
    requires reads { IsTrue (may_read run.old) }
    requires none { run.old.fetch ≡ None }
    requires one { IsOneFetch fetch }
    requires suits { IsFetchFor run.old (Some fetch) }
    requires wanted { (c : Call) → IsCalled (P.law port.old) (P.shown port.old) c
        → IsWantedNext c (record run.old { fetch = Some fetch }) }
    ensures law { P.law port.new ≡ P.law port.old }
    ensures looked { HasLooked (P.law port.old) (P.shown port.old) (P.shown port.new)
        run.old run.new }
    ensures made { IfOk result IsTrue }
    ensures err { OnErr result (IsRefused (P.shown port.new) run.new) }
    ensures nears { IfOk result (λ made. HasNeared ⊥
        (P.law port.old) (P.shown port.old) run.old run.new) }
{
    let task = task_of(&fetch)?;
    port.start(task)?;
    read_on(run, port, fetch)
}

// Makes a step of reading.
fn read_on<P: Port<L = JcrLaw>>(
    run: &mut SessionRun,
    port: &mut P,
    fetch: Fetch,
) -> Result<bool, AllocError>
    requires stands { Stands (P.law port.old) (P.shown port.old)
        (record run.old { fetch = Some fetch }) }
    requires reads { IsTrue (may_read run.old) }
    requires none { run.old.fetch ≡ None }
    ensures law { P.law port.new ≡ P.law port.old }
    ensures looked { HasLooked (P.law port.old) (P.shown port.old) (P.shown port.new)
        (record run.old { fetch = Some fetch }) run.new }
    ensures made { IfOk result IsTrue }
    ensures err { OnErr result (IsRefused (P.shown port.new) run.new) }
    ensures nears { IfOk result (λ made. HasNeared
        (EndsSooner (P.left port.old) (P.left port.new) (P.shown port.old))
        (P.law port.old) (P.shown port.old)
        (record run.old { fetch = Some fetch }) run.new) }
{
    match fetch {
        Fetch::Tree(need) => read_tree(run, port, need),
        Fetch::Changes(since) => read_changes(run, port, &since),
    }
}

// Makes a step of reading the tree at the base.
fn read_tree<P: Port<L = JcrLaw>>(
    run: &mut SessionRun,
    port: &mut P,
    need: Need,
) -> Result<bool, AllocError>
    requires stands { Stands (P.law port.old) (P.shown port.old)
        (record run.old { fetch = Some (fetch.Tree need) }) }
    requires reads { IsTrue (may_read run.old) }
    requires none { run.old.fetch ≡ None }
    ensures law { P.law port.new ≡ P.law port.old }
    ensures looked { HasLooked (P.law port.old) (P.shown port.old) (P.shown port.new)
        (record run.old { fetch = Some (fetch.Tree need) }) run.new }
    ensures made { IfOk result IsTrue }
    ensures err { OnErr result (IsRefused (P.shown port.new) run.new) }
    ensures nears { IfOk result (λ made. HasNeared
        (EndsSooner (P.left port.old) (P.left port.new) (P.shown port.old))
        (P.law port.old) (P.shown port.old)
        (record run.old { fetch = Some (fetch.Tree need) }) run.new) }
{
    match need {
        Need::Node(path) => read_node(run, port, path),
        Need::Children(path) => read_children(run, port, path),
        _ => unreachable!(),
    }
}

// A step of reading the node at a path.
fn read_node<P: Port<L = JcrLaw>>(
    run: &mut SessionRun,
    port: &mut P,
    path: Path,
) -> Result<bool, AllocError>
    requires stands { Stands (P.law port.old) (P.shown port.old)
        (record run.old { fetch = Some (fetch.Tree (need.Node path)) }) }
    requires reads { IsTrue (may_read run.old) }
    requires none { run.old.fetch ≡ None }
    ensures law { P.law port.new ≡ P.law port.old }
    ensures looked { HasLooked (P.law port.old) (P.shown port.old) (P.shown port.new)
        (record run.old { fetch = Some (fetch.Tree (need.Node path)) }) run.new }
    ensures made { IfOk result IsTrue }
    ensures err { OnErr result (IsRefused (P.shown port.new) run.new) }
    ensures nears { IfOk result (λ made. HasNeared
        (EndsSooner (P.left port.old) (P.left port.new) (P.shown port.old))
        (P.law port.old) (P.shown port.old)
        (record run.old { fetch = Some (fetch.Tree (need.Node path)) }) run.new) }
{
    match load_came(port.step()) {
        Loaded::Going => {
            run.fetch = Some(Fetch::Tree(Need::Node(path)));
            Ok(true)
        }
        Loaded::Found(node) => {
            run.held.put_node(&path, node)?;
            Ok(true)
        }
        Loaded::Refused => Err(AllocError),
    }
}

// A step of reading the names of the children of a path.
fn read_children<P: Port<L = JcrLaw>>(
    run: &mut SessionRun,
    port: &mut P,
    path: Path,
) -> Result<bool, AllocError>
    requires stands { Stands (P.law port.old) (P.shown port.old)
        (record run.old { fetch = Some (fetch.Tree (need.Children path)) }) }
    requires reads { IsTrue (may_read run.old) }
    requires none { run.old.fetch ≡ None }
    ensures law { P.law port.new ≡ P.law port.old }
    ensures looked { HasLooked (P.law port.old) (P.shown port.old) (P.shown port.new)
        (record run.old { fetch = Some (fetch.Tree (need.Children path)) }) run.new }
    ensures made { IfOk result IsTrue }
    ensures err { OnErr result (IsRefused (P.shown port.new) run.new) }
    ensures nears { IfOk result (λ made. HasNeared
        (EndsSooner (P.left port.old) (P.left port.new) (P.shown port.old))
        (P.law port.old) (P.shown port.old)
        (record run.old { fetch = Some (fetch.Tree (need.Children path)) }) run.new) }
{
    match list_came(port.step()) {
        Listed::Going => {
            run.fetch = Some(Fetch::Tree(Need::Children(path)));
            Ok(true)
        }
        Listed::Names(names) => {
            run.held.put_children(&path, names)?;
            Ok(true)
        }
        Listed::Refused => Err(AllocError),
    }
}

// A step of reading what changed since a vector.
fn read_changes<P: Port<L = JcrLaw>>(
    run: &mut SessionRun,
    port: &mut P,
    since: &RevVec,
) -> Result<bool, AllocError>
    requires stands { Stands (P.law port.old) (P.shown port.old)
        (record run.old { fetch = Some (fetch.Changes since.now) }) }
    requires reads { IsTrue (may_read run.old) }
    requires none { run.old.fetch ≡ None }
    ensures law { P.law port.new ≡ P.law port.old }
    ensures looked { HasLooked (P.law port.old) (P.shown port.old) (P.shown port.new)
        (record run.old { fetch = Some (fetch.Changes since.now) }) run.new }
    ensures made { IfOk result IsTrue }
    ensures err { OnErr result (IsRefused (P.shown port.new) run.new) }
    ensures nears { IfOk result (λ made. HasNeared
        (EndsSooner (P.left port.old) (P.left port.new) (P.shown port.old))
        (P.law port.old) (P.shown port.old)
        (record run.old { fetch = Some (fetch.Changes since.now) }) run.new) }
{
    match changes_came(port.step()) {
        Changed::Going => {
            run.fetch = Some(Fetch::Changes(*since));
            Ok(true)
        }
        Changed::Commits(commits) => {
            run.changes = Some(commits);
            Ok(true)
        }
        Changed::Refused => Err(AllocError),
    }
}

// What is to be read of the tree, where something is.
fn of_tree(load: Option<Need>) -> Option<Fetch>
    ensures { result ≡ option_map fetch.Tree load }
{
    match load {
        Some(need) => Some(Fetch::Tree(need)),
        None => None,
    }
}

// The task that reads that.
fn task_of(fetch: &Fetch) -> Result<Task, AllocError>
    requires { IsOneFetch fetch.now }
    ensures { IfOk result (λ task. IsReading (Starting task) (Some fetch.now)) }
{
    match fetch {
        Fetch::Tree(Need::Node(path)) => Ok(Task::Load(path.copy()?)),
        Fetch::Tree(Need::Children(path)) => Ok(Task::List(path.copy()?)),
        Fetch::Tree(_) => unreachable!(),
        Fetch::Changes(since) => Ok(Task::Changes(*since)),
    }
}

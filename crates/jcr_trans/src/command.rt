// The commands of a session.
ghost use Rattle.std.specs.Prelude.{◌≡◌};
ghost use Rattle.jcr_trans.specs.Commands.{word_of};

use jr_path::{Keyed, List, Name, Path, Text};
use jr_value::{Property, Value};

/// A node that a `tree` command adds: its path from the node that the command names on, which is `/` for that node itself;
/// its primary type where one is named; its mixins in the order written; and its properties.
pub struct TreeNode {
    pub path: Path,
    pub node_type: Option<Name>,
    pub mixins: List<Name>,
    pub props: Keyed<Name, Property>,
}

// By hand, so that its parts are let go in one call.
impl Drop for TreeNode {
    fn drop(self) {
        let TreeNode {
            path,
            node_type,
            mixins,
            props,
        } = self;
        drop(path);
        drop(node_type);
        drop(mixins);
        drop(props);
    }
}

/// A command of a session, with its arguments in order; one that may be left out is an `Option`.
pub enum Command {
    /// `add`: adds a node, of a type where one is named (JSR 283, 10.4 Adding Nodes and Setting Properties).
    Add(Path, Option<Name>),
    /// `tree`: adds a node with all that stands below it; the nodes in path order, the topmost first.
    Tree(Path, List<TreeNode>),
    /// `set`: sets a property of a node (JSR 283, 10.4.2 Setting Properties).
    Set(Path, Name, Property),
    /// `unset`: removes a property of a node (JSR 283, 10.9 Removing Nodes and Properties).
    Unset(Path, Name),
    /// `remove`: removes a node and all below (JSR 283, 10.9).
    Remove(Path),
    /// `move`: moves a node and all below to another path (JSR 283, 10.6 Moving Nodes).
    Move(Path, Path),
    /// `mixin`: adds a mixin to a node (JSR 283, 10.10.3 Assigning Mixin Node Types).
    Mixin(Path, Name),
    /// `unmixin`: takes a mixin from a node (JSR 283, 10.10.3).
    Unmixin(Path, Name),
    /// `type`: sets the primary type of a node (JSR 283, 10.10.2 Updating a Node's Primary Type).
    SetType(Path, Name),
    /// `get`: answers the property that a path names (JSR 283, 5.1 Direct Access).
    Get(Path),
    /// `list`: answers the names of a node's children (JSR 283, 5.2 Traversal Access).
    List(Path),
    /// `props`: answers all properties of a node (JSR 283, 5.2).
    Props(Path),
    /// `id`: answers the identifier of a node (JSR 283, 3.7 Node Identifiers).
    Id(Path),
    /// `byId`: answers the path of the node with an identifier (JSR 283, 5.1.4).
    ById(Text),
    /// `refs`: answers the properties that refer to a node (JSR 283, 5.3 Query for References).
    Refs(Path),
    /// `save`: commits the pending edits (JSR 283, 10.11 Saving).
    Save,
    /// `refresh`: moves the base to the head; keeps the pending edits or drops them (JSR 283, 10.11.4 Refresh).
    Refresh(bool),
    /// `head`: answers the base.
    Head,
    /// `lock`: locks a node, for deep with all below (JSR 283, 17 Locking).
    Lock(Path, bool),
    /// `unlock`: unlocks a node (JSR 283, 17).
    Unlock(Path),
    /// `token`: the session holds a lock token (JSR 283, 17.5 Lock Token).
    Token(Text),
    /// `dropToken`: the session lets a lock token go (JSR 283, 17.5).
    DropToken(Text),
    /// `checkin`: makes a version of a node (JSR 283, 15.2 Check-In).
    Checkin(Path),
    /// `checkout`: lets a versionable node change (JSR 283, 15.3 Check-Out).
    Checkout(Path),
    /// `label`: gives a version of a node a label, for `take` also one that another has (JSR 283, 15.4 Version Labels).
    Label(Path, Text, Name, bool),
    /// `unlabel`: takes a label away (JSR 283, 15.4).
    Unlabel(Path, Name),
    /// `versions`: answers the names of a node's versions (JSR 283, 15.1 Versioning).
    Versions(Path),
    /// `restore`: puts a node back to a version (JSR 283, 15.7 Restore).
    Restore(Path, Text),
    /// `observe`: sets the session's cursor over the changes at or below a node; a mask of event codes from 0 to 127 (JSR
    /// 283, 12 Observation).
    Observe(Path, bool, u32),
    /// `events`: answers the events since the cursor (JSR 283, 12).
    Events,
    /// `query`: answers the rows of a query; its variables by name (JSR 283, 6 Query).
    Query(Text, Keyed<Name, Value>),
    /// `backWrite`: writes the head to the root document (Oak, Background Operations).
    BackWrite,
    /// `backRead`: learns the heads of other cluster nodes from the root document (Oak, Background Operations).
    BackRead,
    /// `split`: moves old entries of a node's document to a previous document (Oak, Previous Documents).
    Split(Path),
    /// `sweep`: moves the sweep revision (Oak, Sweep Revision).
    Sweep,
    /// `collect`: drops entries that nothing reads any more (Oak, Revision Garbage Collection).
    Collect,
    /// `checkpoint`: keeps the state at the head for later (Oak, Checkpoints).
    Checkpoint,
    /// `attach`: the session reads at a checkpoint (Oak, Checkpoints).
    Attach(Text),
    /// `release`: ends a checkpoint (Oak, Checkpoints).
    Release(Text),
    /// `detach`: the session leaves its checkpoint (Oak, Checkpoints).
    Detach,
    /// `orderBefore`: puts a child directly before a sibling, or last (JSR 283, 23 Orderable Child Nodes).
    OrderBefore(Path, Option<Name>),
    /// `stop`: stops a cluster node; none where the number is no whole number of 64 bits (Oak, Cluster Node Metadata).
    Stop(Option<u64>),
    /// `recover`: recovers a cluster node (Oak, Cluster Node Metadata).
    Recover(Option<u64>),
}

// By hand, so that its parts are let go in one call.
impl Drop for Command {
    fn drop(self) {
        match self {
            Command::Add(path, name) | Command::OrderBefore(path, name) => {
                drop(path);
                drop(name);
            }
            Command::Tree(path, tree_nodes) => {
                drop(path);
                drop(tree_nodes);
            }
            Command::Set(path, name, property) => {
                drop(path);
                drop(name);
                drop(property);
            }
            Command::Unset(path, name)
            | Command::Mixin(path, name)
            | Command::Unmixin(path, name)
            | Command::SetType(path, name)
            | Command::Unlabel(path, name) => {
                drop(path);
                drop(name);
            }
            Command::Move(path, other_path) => {
                drop(path);
                drop(other_path);
            }
            Command::Remove(path)
            | Command::Get(path)
            | Command::List(path)
            | Command::Props(path)
            | Command::Id(path)
            | Command::Refs(path)
            | Command::Lock(path, _)
            | Command::Unlock(path)
            | Command::Checkin(path)
            | Command::Checkout(path)
            | Command::Versions(path)
            | Command::Observe(path, _, _)
            | Command::Split(path) => drop(path),
            Command::ById(text)
            | Command::Token(text)
            | Command::DropToken(text)
            | Command::Attach(text)
            | Command::Release(text) => drop(text),
            Command::Label(path, text, name, _) => {
                drop(path);
                drop(text);
                drop(name);
            }
            Command::Restore(path, text) => {
                drop(path);
                drop(text);
            }
            Command::Query(text, map) => {
                drop(text);
                drop(map);
            }
            Command::Save
            | Command::Refresh(_)
            | Command::Head
            | Command::Events
            | Command::BackWrite
            | Command::BackRead
            | Command::Sweep
            | Command::Collect
            | Command::Checkpoint
            | Command::Detach
            | Command::Stop(_)
            | Command::Recover(_) => {}
        }
    }
}

/// A session: the cluster node that it is at, from 1 on, and its commands in order, at most 10,000.
#[derive(Drop)]
pub struct SessionScript {
    pub cluster: u32,
    pub commands: List<Command>,
}

impl Command {
    /// The name with which a script calls the command, as `byId`.
    pub fn word(&self) -> &'static str
        ensures { result.now ≡ word_of self.now }
    {
        match self {
            Command::Add(_, _) => "add",
            Command::Tree(_, _) => "tree",
            Command::Set(_, _, _) => "set",
            Command::Unset(_, _) => "unset",
            Command::Remove(_) => "remove",
            Command::Move(_, _) => "move",
            Command::Mixin(_, _) => "mixin",
            Command::Unmixin(_, _) => "unmixin",
            Command::SetType(_, _) => "type",
            Command::Get(_) => "get",
            Command::List(_) => "list",
            Command::Props(_) => "props",
            Command::Id(_) => "id",
            Command::ById(_) => "byId",
            Command::Refs(_) => "refs",
            Command::Save => "save",
            Command::Refresh(_) => "refresh",
            Command::Head => "head",
            Command::Lock(_, _) => "lock",
            Command::Unlock(_) => "unlock",
            Command::Token(_) => "token",
            Command::DropToken(_) => "dropToken",
            Command::Checkin(_) => "checkin",
            Command::Checkout(_) => "checkout",
            Command::Label(_, _, _, _) => "label",
            Command::Unlabel(_, _) => "unlabel",
            Command::Versions(_) => "versions",
            Command::Restore(_, _) => "restore",
            Command::Observe(_, _, _) => "observe",
            Command::Events => "events",
            Command::Query(_, _) => "query",
            Command::BackWrite => "backWrite",
            Command::BackRead => "backRead",
            Command::Split(_) => "split",
            Command::Sweep => "sweep",
            Command::Collect => "collect",
            Command::Checkpoint => "checkpoint",
            Command::Attach(_) => "attach",
            Command::Release(_) => "release",
            Command::Detach => "detach",
            Command::OrderBefore(_, _) => "orderBefore",
            Command::Stop(_) => "stop",
            Command::Recover(_) => "recover",
        }
    }
}

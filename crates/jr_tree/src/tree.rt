// Trees: a node for each path, and a property for each name of a node.
ghost use Rattle.std.specs.Prelude.{◌≡◌, [], IfOk, IsTrue, None, Some, cond, is_some, length, map};
ghost use Rattle.std.specs.Option.{option_copied};
ghost use Rattle.std.specs.FinMap.{is_sorted};
ghost use Rattle.std.specs.Map.Iter.{deref_pair};
ghost use Rattle.jr_path.specs.Grammar.{IsName};
ghost use Rattle.jr_path.specs.Names.{last_name, path_cmp};
ghost use Rattle.jr_tree.specs.Trees.{node_at, property_at, node_of_type, typed_node, first_revision, initial_tree, is_child_of, children_of, subtree_of};

use jr_path::{DeepCopy, Keyed, Name, Path};
use jr_rev::Revision;
use jr_value::{Property, Value};
use std::alloc::{AllocError, Global};
use std::collections::btree_map::Iter;
use std::marker::Model;

/// A node (JSR 283, 3.1 Items): a property for each of its names, and the revision that added it, or none
/// while its adding is pending.
pub struct Node {
    pub props: Keyed<Name, Property>,
    pub born: Option<Revision>,
}

// By hand, so that its parts are let go in one call.
impl Drop for Node {
    fn drop(self) {
        let Node { props, born: _ } = self;
        drop(props);
    }
}

/// A node for each path, seen as the list of nodes in the order of their paths.
pub struct Tree {
    pub(crate) alloc: Global,
    pub(crate) nodes: Keyed<Path, Node>,
}

// By hand, so that its parts are let go in one call.
impl Drop for Tree {
    fn drop(self) {
        let Tree { alloc: _, nodes } = self;
        drop(nodes);
    }
}

impl Model for Tree {
    ghost use Rattle.jr_tree.specs.Trees.{Nodes};

    ghost Value = { Nodes };

    ghost view = { λ a. a.nodes };

    ghost use Rattle.std.specs.Prelude.{IsTrue};
    ghost use Rattle.std.specs.FinMap.{is_sorted};
    ghost use Rattle.jr_path.specs.Grammar.{IsName};
    ghost use Rattle.jr_path.specs.Names.{path_cmp};

    ghost invariant = { λ a. IsTrue (is_sorted path_cmp a.nodes) };
}

impl Node {
    /// A pending node with no properties. It takes no memory.
    pub fn new(alloc: Global) -> Node
        ensures props { result.props ≡ [] }
        ensures born { result.born ≡ None }
    {
        Node {
            props: Keyed::new(alloc),
            born: None,
        }
    }

    /// A pending node with its primary type (JSR 283, 3.7 Node Types), and no other property.
    pub fn of_type(alloc: Global, kind: Name) -> Result<Node, AllocError>
        ensures { IfOk result (λ node. node ≡ node_of_type kind) }
    {
        typed_node(alloc, kind, None)
    }

    /// Gives its properties back, without memory.
    pub fn into_props(self) -> Keyed<Name, Property>
        ensures { result ≡ self.props }
    {
        let Node { props, born: _ } = self;
        props
    }
}

// A node with its primary type, and no other property, that a revision added.
fn typed_node(alloc: Global, kind: Name, born: Option<Revision>) -> Result<Node, AllocError>
    ensures { IfOk result (λ node. node ≡ typed_node born kind) }
{
    let key = Name::of(alloc, "jcr:primaryType")?;
    let mut props = Keyed::new(alloc);
    props.put(key, Property::Single(Value::Name(kind)))?;
    Ok(Node { props, born })
}

// A node that is there before any commit, with its primary type.
fn first_node(alloc: Global, kind: &str) -> Result<Node, AllocError>
    requires { IsName kind.now }
    ensures { IfOk result (λ node. node ≡ typed_node (Some first_revision) kind.now) }
{
    let kind = Name::of(alloc, kind)?;
    typed_node(alloc, kind, Some(first_revision()))
}

// The revision that added what is there before any commit.
fn first_revision() -> Revision
    ensures { result ≡ first_revision }
{
    Revision {
        time: 0,
        counter: 0,
        cluster: 1,
    }
}

impl DeepCopy for Node {
    fn copy(&self) -> Result<Node, AllocError> {
        Ok(Node {
            props: self.props.copy()?,
            born: self.born,
        })
    }
}

impl Tree {
    /// A tree with no node, not even the root. It takes no memory.
    pub fn new(alloc: Global) -> Tree
        ensures { result ≡ [] }
    {
        Tree {
            alloc,
            nodes: Keyed::new(alloc),
        }
    }

    /// The tree before any commit: `/` of type nt:unstructured, `/jcr:system` of type rep:system and
    /// `/jcr:system/jcr:versionStorage` of type rep:versionStorage, each with its type alone
    /// (JSR 283, 3.11 System Node) and added by `r0-0-1`.
    pub fn initial(alloc: Global) -> Result<Tree, AllocError>
        ensures { IfOk result (λ tree. tree ≡ initial_tree) }
    {
        let root = Path::root(alloc);
        let system = root.child(&Name::of(alloc, "jcr:system")?)?;
        let versions = system.child(&Name::of(alloc, "jcr:versionStorage")?)?;
        let mut nodes = Keyed::new(alloc);
        nodes.put(root, first_node(alloc, "nt:unstructured")?)?;
        nodes.put(system, first_node(alloc, "rep:system")?)?;
        nodes.put(versions, first_node(alloc, "rep:versionStorage")?)?;
        Ok(Tree { alloc, nodes })
    }

    /// The node at a path.
    pub fn get(&self, path: &Path) -> Option<&Node>
        ensures { option_copied result ≡ node_at self.now path.now }
    {
        self.nodes.get(path)
    }

    /// Whether there is a node at the path.
    pub fn has(&self, path: &Path) -> bool
        ensures { result ≡ is_some (node_at self.now path.now) }
    {
        self.nodes.contains(path)
    }

    /// The property of that name of the node at a path.
    pub fn property(&self, path: &Path, name: &Name) -> Option<&Property>
        ensures { option_copied result ≡ property_at self.now path.now name.now }
    {
        match self.nodes.get(path) {
            Some(node) => node.props.get(name),
            None => None,
        }
    }

    /// The last names of the children of a path, in ascending order, whether or not there is a node at
    /// the path itself (JSR 283, 5.2 Traversal Access).
    pub fn children(&self, path: &Path) -> Result<Vec<Name>, AllocError>
        ensures { IfOk result (λ names. names.items ≡ children_of self.now path.now) }
    {
        let mut names = Vec::new(self.alloc);
        for (at, _) in &self.under(path)? {
            if let Some(name) = child_name(path, at) {
                names.push(name.copy()?)?;
            }
        }
        Ok(names)
    }

    /// The nodes at or below a path, with their paths from the root.
    pub fn subtree(&self, path: &Path) -> Result<Tree, AllocError>
        ensures { IfOk result (λ part. part ≡ subtree_of self.now path.now) }
    {
        let mut nodes = Keyed::new(self.alloc);
        for (at, node) in &self.under(path)? {
            nodes.put(at.copy()?, node.copy()?)?;
        }
        Ok(Tree {
            alloc: self.alloc,
            nodes,
        })
    }

    /// The nodes with their paths, in path order.
    pub fn iter(&self) -> Iter<'_, Path, Node>
        ensures { result ≡ self.now }
    {
        self.nodes.iter()
    }

    /// The nodes at or below a path, lent, with their paths from the root, in path order. It looks only at these.
    pub fn under<'a>(&'a self, path: &Path) -> Result<Vec<(&'a Path, &'a Node)>, AllocError>
        ensures { IfOk result (λ found. map deref_pair found.items ≡ subtree_of self.now path.now) }
    {
        let mut found = Vec::new(self.alloc);
        for (at, node) in self.nodes.inner().range(path..) {
            if !at.is_under(path) {
                break;
            }
            found.push((at, node))?;
        }
        Ok(found)
    }

    /// How many nodes it has. Their paths stand in order.
    pub fn len(&self) -> usize
        ensures len { result ≡ length self.now }
        ensures sorted { IsTrue (is_sorted path_cmp self.now) }
    {
        self.nodes.inner().len()
    }
}

// The last name of the second path, where this is that of a child of the first.
fn child_name<'a>(path: &Path, at: &'a Path) -> Option<&'a Name>
    ensures { option_copied result ≡ cond (is_child_of path.now at.now) (last_name at.now) None }
{
    if is_child(path, at) {
        at.last_name()
    } else {
        None
    }
}

/// Whether the second path is that of a child of the first. It takes no memory.
pub fn is_child(path: &Path, at: &Path) -> bool
    ensures { result ≡ is_child_of path.now at.now }
{
    let depth = at.depth();
    if depth == 0 {
        return false;
    }
    at.is_under(path) && depth - 1 == path.depth()
}

impl DeepCopy for Tree {
    fn copy(&self) -> Result<Tree, AllocError> {
        Ok(Tree {
            alloc: self.alloc,
            nodes: self.nodes.copy()?,
        })
    }
}

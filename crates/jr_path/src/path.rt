// Paths, items, and the ids of documents in store order.
ghost use Rattle.std.specs.Prelude.{◌≡◌, ◌≤◌, ◌++◌, ◌∷◌, [], All, IfErr, IfOk, OnErr, OnOk, length, take};
ghost use Rattle.std.specs.Cmp.Lexicographic.{slice_cmp};
ghost use Rattle.std.specs.Option.{option_copied};
ghost use Rattle.std.specs.Ordering.{nat_cmp};
ghost use Rattle.std.specs.String.{string_bytes};
ghost use Rattle.jr_path.specs.Names.{parent_of, last_name, is_under};
ghost use Rattle.jr_path.specs.Ids.{path_text, id_text, names_of, node_path, node_cmp as node_order};
ghost use Rattle.jr_path.specs.Grammar.{IsName};
ghost use Rattle.jr_path.specs.Paths.{IsPath, Measures, RefusesPath, RefusesText};

use crate::cursor::{Cursor, text_cmp};
use crate::path_text::read_unlimited;
use crate::{DeepCopy, Name, PathFault, PathText};
use std::alloc::{AllocError, Global};
use std::cmp::Ordering;
use std::marker::Model;

/// The path of a node from the root (JSR 283, 3.4 Paths), seen as the list of its names.
/// Ordered name by name, by bytes, a prefix first.
pub struct Path {
    names: Vec<Name>,
}

// By hand, so that its parts are let go in one call.
impl Drop for Path {
    fn drop(self) {
        let Path { names } = self;
        drop(names);
    }
}

impl Model for Path {
    ghost use Rattle.std.specs.Prelude.{List, ℕ};

    ghost Value = { List (List ℕ) };

    ghost view = { λ a. a.names.items };

    ghost use Rattle.std.specs.Prelude.{All};
    ghost use Rattle.jr_path.specs.Grammar.{IsName};

    ghost invariant = { λ a. All IsName a.names.items };
}

impl Path {
    /// The path of the root. It takes no memory.
    pub fn root(alloc: Global) -> Path
        ensures { result ≡ [] }
    {
        Path {
            names: Vec::new(alloc),
        }
    }

    /// Reads a path within the limits of 64 names and 1,024 bytes of text: `/`, or names each after a `/`.
    /// `BadPath` has the offset of the first byte that no path's text has there, or the text's length;
    /// a path over a limit is `TooDeep` with the number of its names, else `TooLong` with that of its bytes.
    pub fn parse(alloc: Global, text: &str) -> Result<Path, PathFault>
        ensures path { IfOk result (λ path. Measures text.now (PathText.Within path)) }
        ensures fault { IfErr result (RefusesPath text.now) }
    {
        match PathText::read(alloc, text)? {
            PathText::Within(path) => Ok(path),
            PathText::TooDeep(depth) => Err(PathFault::TooDeep(depth)),
            PathText::TooLong(bytes) => Err(PathFault::TooLong(bytes)),
        }
    }

    /// Reads a path of any number of names and any length: `/`, or names each after a `/`. `BadPath` has the
    /// offset of the first byte that no path's text has there, or the text's length.
    pub fn parse_unlimited(alloc: Global, text: &str) -> Result<Path, PathFault>
        ensures path { IfOk result (IsPath text.now) }
        ensures fault { IfErr result (RefusesText text.now) }
    {
        read_unlimited(alloc, text)
    }

    /// Every name of a path is in the grammar, and so is its text. It does nothing: callers learn the facts.
    pub fn in_grammar(&self)
        ensures names { All IsName self.now }
        ensures text { IsPath (path_text self.now) self.now }
    {
        let _ = &self.names;
    }

    // Puts a name at the end.
    pub(crate) fn push(&mut self, name: Name) -> Result<(), AllocError>
        requires { IsName name }
        ensures ok { OnOk result (self.new ≡ self.old ++ name ∷ []) }
        ensures err { OnErr result (self.new ≡ self.old) }
    {
        self.names.push(name)?;
        Ok(())
    }

    /// The names from the root on.
    pub fn names(&self) -> &[Name]
        ensures { result.now ≡ self.now }
    {
        self.names.as_slice()
    }

    /// How many names it has; the root has none.
    pub fn depth(&self) -> usize
        ensures { result ≡ length self.now }
    {
        self.names.len()
    }

    /// The last name; the root has none.
    pub fn last_name(&self) -> Option<&Name>
        ensures { option_copied result ≡ last_name self.now }
    {
        self.names.last()
    }

    /// The path of the node above; the root has none.
    pub fn parent(&self) -> Result<Option<Path>, AllocError>
        ensures { IfOk result (λ parent. parent ≡ parent_of self.now) }
    {
        let depth = self.depth();
        if depth == 0 {
            return Ok(None);
        }
        Ok(Some(self.prefix(depth - 1)?))
    }

    /// The path of the ancestor, or self, with so many names.
    pub fn prefix(&self, depth: usize) -> Result<Path, AllocError>
        requires { depth ≤ length self.now }
        ensures { IfOk result (λ prefix. prefix ≡ take depth self.now) }
    {
        let mut names = Vec::new(*self.names.allocator());
        for name in &self.names[..depth] {
            names.push(name.copy()?)?;
        }
        Ok(Path { names })
    }

    /// The path of a child.
    pub fn child(&self, name: &Name) -> Result<Path, AllocError>
        ensures { IfOk result (λ child. child ≡ self.now ++ name.now ∷ []) }
    {
        let mut child = self.copy()?;
        name.in_grammar();
        child.push(name.copy()?)?;
        Ok(child)
    }

    /// Whether it is at or below the other.
    pub fn is_under(&self, other: &Path) -> bool
        ensures { result ≡ is_under self.now other.now }
    {
        self.names.starts_with(&other.names)
    }

    /// `/` for the root, or each name after a `/`.
    pub fn text(&self) -> Result<String, AllocError>
        ensures { IfOk result (λ text. string_bytes text ≡ path_text self.now) }
    {
        let mut text = String::new(*self.names.allocator());
        if self.depth() == 0 {
            text.push('/')?;
        }
        for name in &self.names {
            text.push('/')?;
            text.push_str(name.as_str())?;
        }
        Ok(text)
    }

    /// Which of the texts of two paths comes first, by bytes, as queries order paths (JSR 283, 3.6.5
    /// Comparison of Values). Path order is another: `/a!/b` comes before `/a/b` here and behind it there.
    /// It takes no memory.
    pub fn cmp_text(&self, other: &Path) -> Ordering
        ensures { result ≡ slice_cmp nat_cmp (path_text self.now) (path_text other.now) }
    {
        Cursor::of(self).cmp(Cursor::of(other))
    }
}

impl DeepCopy for Path {
    fn copy(&self) -> Result<Path, AllocError> {
        self.prefix(self.depth())
    }
}

impl PartialEq for Path {
    ghost use Rattle.std.specs.Cmp.Lexicographic.{slice_cmp};
    ghost use Rattle.std.specs.Cmp.Rules.{comparing};
    ghost use Rattle.std.specs.Ordering.{eq_by_cmp, nat_cmp};
    ghost use Rattle.std.proofs.Common.{rules};

    ghost eq = { eq_by_cmp (slice_cmp (slice_cmp nat_cmp)) };

    ghost laws = { Prim.search (comparing, rules) };

    fn eq(&self, other: &Path) -> bool {
        self.cmp(other).is_eq()
    }
}

impl Eq for Path {
    ghost use Rattle.std.specs.Cmp.Rules.{comparing};
    ghost use Rattle.std.proofs.Common.{rules};

    ghost laws = { Prim.search (comparing, rules) };
}

impl Ord for Path {
    ghost use Rattle.std.specs.Cmp.Lexicographic.{slice_cmp};
    ghost use Rattle.std.specs.Cmp.Rules.{comparing};
    ghost use Rattle.std.specs.Ordering.{nat_cmp};
    ghost use Rattle.std.proofs.Common.{rules};

    ghost cmp = { slice_cmp (slice_cmp nat_cmp) };

    ghost total = { Prim.search (comparing, rules) };

    ghost matches_partial_cmp = { Prim.search (comparing, rules) };

    ghost matches_eq = { Prim.search (comparing, rules) };

    fn cmp(&self, other: &Path) -> Ordering {
        self.names.cmp(&other.names)
    }
}

impl PartialOrd for Path {
    ghost use Rattle.std.specs.Cmp.{partial_order_from_own_ties};
    ghost use Rattle.std.specs.Cmp.Lexicographic.{slice_cmp};
    ghost use Rattle.std.specs.Cmp.Rules.{comparing};
    ghost use Rattle.std.specs.Ordering.{as_partial_cmp, nat_cmp};
    ghost use Rattle.std.proofs.Common.{rules};

    ghost partial_cmp = { as_partial_cmp (slice_cmp (slice_cmp nat_cmp)) };

    ghost laws = { partial_order_from_own_ties (Prim.search (comparing, rules)) (Prim.search (comparing, rules)) };

    fn partial_cmp(&self, other: &Path) -> Option<Ordering> {
        Some(self.cmp(other))
    }
}

/// A node, or with a name a property of it (JSR 283, 3.1 Items).
/// Nodes in path order, each before its properties, and these by name.
#[derive(PartialEq, Eq, PartialOrd, Ord)]
pub struct Item {
    pub path: Path,
    pub name: Option<Name>,
}

// By hand, so that its parts are let go in one call.
impl Drop for Item {
    fn drop(self) {
        let Item { path, name } = self;
        drop(path);
        drop(name);
    }
}

impl DeepCopy for Item {
    fn copy(&self) -> Result<Item, AllocError> {
        Ok(Item {
            path: self.path.copy()?,
            name: self.name.copy()?,
        })
    }
}

/// The id of a document: of a node, of a previous document of a node with its number, or of the
/// settings (Oak, DocumentNodeStore: Node Document). Store order is nodes' documents by depth, then by
/// the bytes of the path's text; previous documents by path, then number; then the settings.
pub enum DocId {
    Node(Path),
    Prev(u64, Path),
    Settings,
}

// By hand, so that its parts are let go in one call.
impl Drop for DocId {
    fn drop(self) {
        match self {
            DocId::Node(path) => drop(path),
            DocId::Prev(_, path) => drop(path),
            DocId::Settings => {}
        }
    }
}

impl DocId {
    /// `depth:path`, `p<number in hexadecimal>:path`, or `settings`.
    pub fn text(&self, alloc: Global) -> Result<String, AllocError>
        ensures { IfOk result (λ text. string_bytes text ≡ id_text self.now) }
    {
        match self {
            DocId::Node(path) => {
                let depth = path.depth();
                let path = path.text()?;
                Ok(format!(in alloc; "{depth}:{path}")?)
            }
            DocId::Prev(number, path) => {
                let path = path.text()?;
                Ok(format!(in alloc; "p{number:x}:{path}")?)
            }
            DocId::Settings => Ok(String::from_str(alloc, "settings")?),
        }
    }

    /// Gives the path of the node back whose document, or previous document, it is; the root for the
    /// settings. It takes no memory.
    pub fn into_path(self, alloc: Global) -> Path
        ensures { result ≡ names_of self }
    {
        match self {
            DocId::Node(path) | DocId::Prev(_, path) => path,
            DocId::Settings => Path::root(alloc),
        }
    }

    /// Gives the path of the node back whose document it is; there is none for previous documents and the
    /// settings. It takes no memory.
    pub fn into_node_path(self) -> Option<Path>
        ensures { result ≡ node_path self }
    {
        match self {
            DocId::Node(path) => Some(path),
            DocId::Prev(_, path) => {
                drop(path);
                None
            }
            DocId::Settings => None,
        }
    }
}

impl DeepCopy for DocId {
    fn copy(&self) -> Result<DocId, AllocError> {
        match self {
            DocId::Node(path) => Ok(DocId::Node(path.copy()?)),
            DocId::Prev(number, path) => Ok(DocId::Prev(*number, path.copy()?)),
            DocId::Settings => Ok(DocId::Settings),
        }
    }
}

impl Ord for DocId {
    ghost use Rattle.std.specs.Prelude.{refl};
    ghost use Rattle.std.specs.Ordering.{nat_cmp};
    ghost use Rattle.std.specs.Cmp.{on_total, then_total, nat_cmp_total};
    ghost use Rattle.std.specs.Cmp.Rules.{comparing};
    ghost use Rattle.std.proofs.Common.{rules};
    ghost use Rattle.jr_path.specs.Ids.{id_cmp};

    ghost cmp = { id_cmp };

    ghost total = { Prim.search (comparing, rules) depth 14 };

    ghost matches_partial_cmp = { λ x y. refl };

    ghost matches_eq = { λ x y. refl };

    fn cmp(&self, other: &DocId) -> Ordering {
        match (self, other) {
            (DocId::Node(a), DocId::Node(b)) => node_cmp(a, b),
            (DocId::Node(_), _) => Ordering::Less,
            (DocId::Prev(_, _), DocId::Node(_)) => Ordering::Greater,
            (DocId::Prev(m, a), DocId::Prev(n, b)) => a.cmp(b).then(m.cmp(n)),
            (DocId::Prev(_, _), DocId::Settings) => Ordering::Less,
            (DocId::Settings, DocId::Settings) => Ordering::Equal,
            (DocId::Settings, _) => Ordering::Greater,
        }
    }
}

// The store order of two nodes' documents.
fn node_cmp(a: &Path, b: &Path) -> Ordering
    ensures { result ≡ node_order a.now b.now }
{
    a.depth()
        .cmp(&b.depth())
        .then(text_cmp(&a.names, &b.names))
        .then(a.cmp(b))
}

impl PartialOrd for DocId {
    ghost use Rattle.std.specs.Ordering.{as_partial_cmp};
    ghost use Rattle.std.specs.Cmp.{partial_order_from_own_ties};
    ghost use Rattle.std.specs.Cmp.Rules.{comparing};
    ghost use Rattle.std.proofs.Common.{rules};
    ghost use Rattle.jr_path.specs.Ids.{id_cmp};

    ghost partial_cmp = { as_partial_cmp id_cmp };

    ghost laws = { partial_order_from_own_ties (Prim.search (comparing, rules) depth 14) (Prim.search (comparing, rules) depth 14) };

    fn partial_cmp(&self, other: &DocId) -> Option<Ordering> {
        Some(self.cmp(other))
    }
}

impl PartialEq for DocId {
    ghost use Rattle.std.specs.Ordering.{eq_by_cmp};
    ghost use Rattle.std.specs.Cmp.Rules.{comparing};
    ghost use Rattle.std.proofs.Common.{rules};
    ghost use Rattle.jr_path.specs.Ids.{id_cmp};

    ghost eq = { eq_by_cmp id_cmp };

    ghost laws = { Prim.search (comparing, rules) depth 14 };

    fn eq(&self, other: &DocId) -> bool {
        self.cmp(other) == Ordering::Equal
    }
}

impl Eq for DocId {
    ghost use Rattle.std.specs.Cmp.Rules.{comparing};
    ghost use Rattle.std.proofs.Common.{rules};

    ghost laws = { Prim.search (comparing, rules) depth 14 };
}

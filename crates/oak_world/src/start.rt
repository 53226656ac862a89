// The documents before any step.
ghost use Rattle.std.specs.Prelude.{◌≡◌, ◌≤◌, [], ◌∷◌, IfOk};
ghost use Rattle.jr_path.specs.Grammar.{IsName};
ghost use Rattle.jr_rev.specs.Vectors.{start_of};
ghost use Rattle.core_world.specs.Start.{node_of_start, documents_of_start, start_root, start_settings, system_path, versions_path};

use jr_path::{DocId, Keyed, Name, Path};
use jr_rev::{RevVec, Revision};
use jr_value::{Property, Value};
use oak_doc::Document;
use std::alloc::{AllocError, Global};

// The four documents of the start, in store order.
pub(crate) fn start_documents(
    alloc: Global,
    clusters: u32,
    sessions: u32,
) -> Result<Vec<Document>, AllocError>
    requires { 1 ≤ clusters × clusters ≤ 8 }
    ensures { IfOk result (λ documents. documents.items ≡ documents_of_start clusters sessions) }
{
    let system = system_path(alloc)?;
    let versions = versions_path(alloc)?;
    let mut documents = Vec::new(alloc);
    documents.push(start_root(alloc, clusters)?)?;
    documents.push(start_document(alloc, system, "rep:system", 2)?)?;
    documents.push(start_document(alloc, versions, "rep:versionStorage", 3)?)?;
    documents.push(start_settings(alloc, sessions))?;
    Ok(documents)
}

fn system_path(alloc: Global) -> Result<Path, AllocError>
    ensures { IfOk result (λ path. path ≡ system_path) }
{
    Path::root(alloc).child(&Name::of(alloc, "jcr:system")?)
}

fn versions_path(alloc: Global) -> Result<Path, AllocError>
    ensures { IfOk result (λ path. path ≡ versions_path) }
{
    system_path(alloc)?.child(&Name::of(alloc, "jcr:versionStorage")?)
}

fn start_root(alloc: Global, clusters: u32) -> Result<Document, AllocError>
    requires { 1 ≤ clusters × clusters ≤ 8 }
    ensures { IfOk result (λ document. document ≡ start_root clusters) }
{
    let mut root = start_document(alloc, Path::root(alloc), "nt:unstructured", 1)?;
    root.last_rev = RevVec::start(clusters);
    root.sweep_rev = RevVec::start(clusters);
    Ok(root)
}

fn start_settings(alloc: Global, sessions: u32) -> Document
    ensures { result ≡ start_settings sessions }
{
    let mut settings = Document::empty(alloc, DocId::Settings);
    settings.mod_count = 4;
    settings.sessions = sessions;
    settings
}

// The document of a node with its primary type alone, at the revision of the start.
fn start_document(
    alloc: Global,
    path: Path,
    kind: &str,
    number: u64,
) -> Result<Document, AllocError>
    requires { IsName kind.now }
    ensures { IfOk result (λ document. document ≡ node_of_start path kind.now number) }
{
    let deleted = at_start(alloc, false)?;
    let kind = Property::Single(Value::Name(Name::of(alloc, kind)?));
    let values = at_start(alloc, Some(kind))?;
    let name = Name::of(alloc, "jcr:primaryType")?;
    let mut props = Keyed::new(alloc);
    props.put(name, values)?;
    let mut document = Document::empty(alloc, DocId::Node(path));
    document.mod_count = number;
    document.deleted = deleted;
    document.props = props;
    Ok(document)
}

// A value at the revision of the start.
fn at_start<T: Drop>(alloc: Global, value: T) -> Result<Keyed<Revision, T>, AllocError>
    ensures { IfOk result (λ entries. entries ≡ (start_of 1, value) ∷ []) }
{
    let start = Revision {
        time: 0,
        counter: 0,
        cluster: 1,
    };
    let mut entries = Keyed::new(alloc);
    entries.put(start, value)?;
    Ok(entries)
}

// Documents from their JSON.
ghost use Rattle.std.specs.Prelude.{◌≡◌, ◌↔◌, IfOk, IsTrue, OnOk, string_bytes};
ghost use Rattle.serde_json.specs.View.{view};
ghost use Rattle.jr_docs.specs.Documents.{document_data};
ghost use Rattle.jr_docs_read.specs.Printed.{IsPlain, as_printed, numbered};
ghost use Rattle.jr_docs_read.specs.Ranges.{IsReadSoFar, IsStorable};
ghost use Rattle.jr_docs_read.specs.Reading.{Obtains, document_kind};
ghost use Rattle.oak_doc.specs.declared.document.Document.{Document};

use crate::DocFault;
use crate::fields::{member, read_node, read_prev, read_settings};
use crate::forms::count_of;
use crate::texts::id_in;
use jr_docs::document_json;
use jr_path::DocId;
use oak_doc::Document;
use serde_json::Value as Json;
use std::alloc::{AllocError, Global};

/// The document whose JSON this is. All that isn't the JSON of a document is `NotADocument`: fields
/// that printing leaves out, as empty ones and those of another kind of document, and ids,
/// revisions, vectors or values in another spelling. A collision's item is read as the node at its
/// path.
pub fn read_document(alloc: Global, json: &Json) -> Result<Document, DocFault>
    ensures found { IfOk result (λ d. document_data d ≡ view json.now) }
    ensures complete { (d : Document) → IsStorable d → document_data d ≡ view json.now
        → Obtains (λ found. found ≡ as_printed d) result }
    ensures storable { IfOk result IsStorable }
    ensures told { IfOk result (λ d. as_printed d ≡ d) }
    ensures plain { IfOk result IsPlain }
{
    let document = found_document(alloc, json)?;
    if is_json_of(alloc, json, &document)? {
        Ok(document)
    } else {
        Err(DocFault::NotADocument)
    }
}

// Whether the JSON is that of the document: their texts are the same.
fn is_json_of(alloc: Global, json: &Json, document: &Document) -> Result<bool, AllocError>
    ensures { IfOk result (λ is. IsTrue is ↔ (document_data document.now ≡ view json.now)) }
{
    let printed = document_json(alloc, document)?;
    let line = printed.to_string(alloc)?;
    let text = json.to_string(alloc)?;
    Ok(is_same_text(&line, &text))
}

fn is_same_text(a: &String, b: &String) -> bool
    ensures { IsTrue result ↔ (string_bytes a.now ≡ string_bytes b.now) }
{
    a.as_str() == b.as_str()
}

// The document that the members say, so far as they are those of one.
fn found_document(alloc: Global, json: &Json) -> Result<Document, DocFault>
    ensures complete { (d : Document) → IsStorable d → document_data d ≡ view json.now
        → Obtains (λ found. found ≡ as_printed d) result }
    ensures storable { IfOk result IsStorable }
{
    let number = count_of(member(json, "_modCount")?)?;
    let id = id_in(alloc, member(json, "_id")?)?;
    let mut document = Document::empty(alloc, id);
    document.mod_count = number;
    read_fields(alloc, json, &mut document)?;
    Ok(document)
}

fn read_fields(alloc: Global, json: &Json, document: &mut Document) -> Result<(), DocFault>
    ensures complete { (d : Document) → IsStorable d → document_data d ≡ view json.now
        → document.old ≡ numbered d.id d.mod_count
        → Obtains (λ _. document.new ≡ as_printed d) result }
    ensures in_range { IsReadSoFar document.old → OnOk result (IsReadSoFar document.new) }
{
    match document_kind(&document.id) {
        Kind::Node => read_node(alloc, json, document),
        Kind::Prev => read_prev(alloc, json, document),
        Kind::Settings => read_settings(alloc, json, document),
    }
}

// Which fields a document may have.
enum Kind {
    Node,
    Prev,
    Settings,
}

fn document_kind(id: &DocId) -> Kind
    ensures { result ≡ document_kind id.now }
{
    match id {
        DocId::Node(_) => Kind::Node,
        DocId::Prev(_, _) => Kind::Prev,
        DocId::Settings => Kind::Settings,
    }
}

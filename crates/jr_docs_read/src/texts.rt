// Texts of JSON, and what they spell.
ghost use Rattle.std.specs.Prelude.{◌≡◌, ◌<◌, ◌^◌, ◌++◌, All, IfOk, List as Seq, codes, length, ℕ};
ghost use Rattle.std.specs.Fmt.{decimal};
ghost use Rattle.jr_docs_read.specs.Ranges.{IsIdInRange, IsPathInRange, IsVectorInRange};
ghost use Rattle.jr_docs_read.specs.Reading.{Obtains};
ghost use Rattle.jr_path.specs.Grammar.{IsName};
ghost use Rattle.jr_path.specs.Ids.{id_text, path_text};
ghost use Rattle.jr_path.specs.declared.path.DocId.{DocId};
ghost use Rattle.jr_path.specs.declared.path.DocId.TheVariants.{Node, Prev};
ghost use Rattle.jr_path.specs.declared.path.Path.{Path};
ghost use Rattle.jr_rev.specs.Grammar.{FitsFields};
ghost use Rattle.jr_rev.specs.Texts.{hexadecimal, revision_text, vector_text};
ghost use Rattle.jr_rev.specs.Vectors.{Entries};
ghost use Rattle.jr_rev.specs.declared.revision.Revision.{Revision};
ghost use Rattle.serde_json.specs.Data.{string};
ghost use Rattle.serde_json.specs.View.{view};

use crate::DocFault;
use crate::fault::fault_of;
use jr_path::{DocId, Path};
use jr_rev::{RevVec, Revision};
use serde_json::Value as Json;
use std::alloc::Global;

/// The text that a JSON value is.
pub fn text_of(json: &Json) -> Result<&str, DocFault>
    ensures { (t : Seq ℕ) → string t ≡ view json.now
        → Obtains (λ text. text.now ≡ t) result }
{
    match json {
        Json::String(text) => Ok(text.as_str()),
        _ => Err(DocFault::NotADocument),
    }
}

/// The revision of a text.
pub fn read_revision(text: &str) -> Result<Revision, DocFault>
    ensures complete { (r : Revision) → FitsFields r → revision_text r ≡ text.now
        → Obtains (λ found. found ≡ r) result }
    ensures in_range { IfOk result FitsFields }
{
    match Revision::parse(text.as_bytes()) {
        Ok(revision) => Ok(revision),
        Err(_) => Err(DocFault::NotADocument),
    }
}

/// The revision of a text in JSON.
pub fn revision_of(json: &Json) -> Result<Revision, DocFault>
    ensures complete { (r : Revision) → FitsFields r → string (revision_text r) ≡ view json.now
        → Obtains (λ found. found ≡ r) result }
    ensures in_range { IfOk result FitsFields }
{
    match json {
        Json::String(text) => read_revision(text.as_str()),
        _ => Err(DocFault::NotADocument),
    }
}

/// The vector of a text.
pub fn read_vector(text: &str) -> Result<RevVec, DocFault>
    ensures complete { (v : Entries) → IsVectorInRange v → vector_text v ≡ text.now
        → Obtains (λ found. found ≡ v) result }
    ensures in_range { IfOk result IsVectorInRange }
{
    match RevVec::parse(text.as_bytes()) {
        Ok(vector) => Ok(vector),
        Err(_) => Err(DocFault::NotADocument),
    }
}

/// The vector of a text in JSON.
pub fn vector_of(json: &Json) -> Result<RevVec, DocFault>
    ensures complete { (v : Entries) → IsVectorInRange v → string (vector_text v) ≡ view json.now
        → Obtains (λ found. found ≡ v) result }
    ensures in_range { IfOk result IsVectorInRange }
{
    match json {
        Json::String(text) => read_vector(text.as_str()),
        _ => Err(DocFault::NotADocument),
    }
}

// The path itself: callers learn that it has fewer than 2^64 names.
fn counted(path: Path) -> Path
    ensures same { result ≡ path }
    ensures depth { length path < 2 ^ 64 }
{
    let _ = path.depth();
    path
}

/// The path of a text, however long.
pub fn read_path(alloc: Global, text: &str) -> Result<Path, DocFault>
    ensures complete { (p : Path) → All IsName p → path_text p ≡ text.now
        → Obtains (λ found. found ≡ p) result }
    ensures in_range { IfOk result IsPathInRange }
{
    match Path::parse_unlimited(alloc, text) {
        Ok(path) => Ok(counted(path)),
        Err(fault) => Err(fault_of(fault)),
    }
}

/// The id of a text.
pub fn read_id(alloc: Global, text: &str) -> Result<DocId, DocFault>
    ensures complete { (id : DocId) → IsIdInRange id → id_text id ≡ text.now
        → Obtains (λ found. found ≡ id) result }
    ensures in_range { IfOk result IsIdInRange }
{
    match text.split_once(':') {
        Some((front, path)) => id_of(alloc, front, path),
        None => Ok(DocId::Settings),
    }
}

// The id of a path, by what stands before its colon: a depth, or `p` and a number.
fn id_of(alloc: Global, front: &str, path: &str) -> Result<DocId, DocFault>
    ensures node { (p : Path) → IsPathInRange p → decimal (length p) ≡ front.now
        → path_text p ≡ path.now → Obtains (λ found. found ≡ Node p) result }
    ensures prev { (n : ℕ) (p : Path) → n < 2 ^ 64 → IsPathInRange p
        → codes "p" ++ hexadecimal n ≡ front.now → path_text p ≡ path.now
        → Obtains (λ found. found ≡ Prev n p) result }
    ensures in_range { IfOk result IsIdInRange }
{
    let path = read_path(alloc, path)?;
    match front.strip_prefix('p') {
        Some(digits) => Ok(DocId::Prev(number_in(digits)?, path)),
        None => Ok(DocId::Node(path)),
    }
}

// The number of hexadecimal digits.
fn number_in(digits: &str) -> Result<u64, DocFault>
    ensures complete { (n : ℕ) → n < 2 ^ 64 → hexadecimal n ≡ digits.now
        → Obtains (λ found. found ≡ n) result }
    ensures in_range { IfOk result (λ n. n < 2 ^ 64) }
{
    match u64::from_str_radix(digits, 16) {
        Ok(number) => Ok(number),
        Err(_) => Err(DocFault::NotADocument),
    }
}

/// The id of a text in JSON.
pub fn id_in(alloc: Global, json: &Json) -> Result<DocId, DocFault>
    ensures complete { (id : DocId) → IsIdInRange id → string (id_text id) ≡ view json.now
        → Obtains (λ found. found ≡ id) result }
    ensures in_range { IfOk result IsIdInRange }
{
    match json {
        Json::String(text) => read_id(alloc, text.as_str()),
        _ => Err(DocFault::NotADocument),
    }
}

// What a session knows of the REFERENCEs of the tree at its base.
ghost use Rattle.std.specs.Prelude.{◌≡◌, IfOk};
ghost use Rattle.jcr_ref.specs.References.{dangling};
ghost use Rattle.jcr_held.specs.References.{are_named, references_by};

use jcr_ref::dangling;
use jr_tree::Tree;
use std::alloc::{AllocError, Global};

// What is known of the REFERENCEs of a tree: it wasn't asked, or each names a node, or one dangles
// (JSR 283, 3.8.2 Referential Integrity).
#[derive(Clone, Copy)]
pub(crate) enum References {
    Unasked,
    Named,
    Dangling,
}

// Each is known to name a node.
pub(crate) fn are_named(known: References) -> bool
    ensures { result ≡ are_named known }
{
    match known {
        References::Named => true,
        References::Unasked | References::Dangling => false,
    }
}

// Asks whether a REFERENCE of a tree dangles. All of the tree is gone over.
pub(crate) fn ask(alloc: Global, tree: &Tree) -> Result<References, AllocError>
    ensures { IfOk result (λ known. known ≡ references_by (dangling tree.now)) }
{
    match dangling(alloc, tree)? {
        None => Ok(References::Named),
        Some(_) => Ok(References::Dangling),
    }
}

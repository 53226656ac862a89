// The lock tokens that a session holds.
ghost use Rattle.std.specs.Prelude.{◌≡◌, ◌∷◌, IfOk, map, string_bytes};
ghost use Rattle.std.specs.List.{list_any};
ghost use Rattle.jr_value.specs.Values.{same_bytes};
ghost use Rattle.jcr_law.specs.State.{with_token, without_token};

use jr_items::is_same_text;
use jr_path::{DeepCopy, List, Text};
use std::alloc::{AllocError, Global};

/// The tokens with one more, which stands first where it wasn't among them (JSR 283, 17.5 Lock
/// Token).
pub fn with_token(alloc: Global, tokens: &[Text], token: &Text) -> Result<List<Text>, AllocError>
    ensures { IfOk result (λ all. all ≡ with_token tokens.now token.now) }
{
    if is_among(token, tokens) {
        return all(alloc, tokens);
    }
    put_first(alloc, token, tokens)
}

/// The tokens without one.
pub fn without_token(alloc: Global, tokens: &[Text], token: &Text) -> Result<List<Text>, AllocError>
    ensures { IfOk result (λ rest. rest ≡ without_token tokens.now token.now) }
{
    let mut rest = List::new(alloc);
    for other in tokens {
        if !is_same_text(token.as_str(), other.as_str()) {
            rest.push(other.copy()?)?;
        }
    }
    Ok(rest)
}

fn is_among(token: &Text, tokens: &[Text]) -> bool
    ensures { result ≡ list_any (same_bytes token.now) tokens.now }
{
    for other in tokens {
        if is_same_text(token.as_str(), other.as_str()) {
            return true;
        }
    }
    false
}

// Copies of texts.
pub(crate) fn all(alloc: Global, texts: &[Text]) -> Result<List<Text>, AllocError>
    ensures { IfOk result (λ all. all ≡ texts.now) }
{
    let mut all = List::new(alloc);
    for text in texts {
        all.push(text.copy()?)?;
    }
    Ok(all)
}

fn put_first(alloc: Global, token: &Text, tokens: &[Text]) -> Result<List<Text>, AllocError>
    ensures { IfOk result (λ all. all ≡ token.now ∷ tokens.now) }
{
    let mut all = List::new(alloc);
    all.push(token.copy()?)?;
    for other in tokens {
        all.push(other.copy()?)?;
    }
    Ok(all)
}

// Texts as strings.
pub(crate) fn strings(alloc: Global, texts: &[Text]) -> Result<Vec<String>, AllocError>
    ensures { IfOk result (λ strings. map string_bytes strings.items ≡ texts.now) }
{
    let mut strings = Vec::new(alloc);
    for text in texts {
        strings.push(String::from_str(alloc, text.as_str())?)?;
    }
    Ok(strings)
}

// The first of the rules that are broken, by rule and then by item.
ghost use Rattle.std.specs.Prelude.{◌≡◌, IfOk, None, Some, cond};
ghost use Rattle.std.specs.Option.{option_copied};
ghost use Rattle.jr_rules.specs.Checking.{earlier};

use jr_path::{DeepCopy, Name};
use std::alloc::AllocError;

/// A rule that is broken, and the item at which it is.
#[derive(PartialEq, Eq, PartialOrd, Ord, Drop)]
pub struct Break {
    pub(crate) rule: u8,
    pub(crate) item: Name,
}

// What is broken first: by rule, and then by item.
pub(crate) fn earlier(
    first: Option<Break>,
    rule: Option<u8>,
    name: &Name,
) -> Result<Option<Break>, AllocError>
    ensures { IfOk result (λ broken. broken ≡ earlier first rule name.now) }
{
    match rule {
        Some(rule) => {
            let item = name.copy()?;
            Ok(Some(first_of(Break { rule, item }, first)))
        }
        None => Ok(first),
    }
}

// Whichever comes first.
fn first_of(found: Break, known: Option<Break>) -> Break
    ensures { Some result ≡ earlier known (Some found.rule) found.item }
{
    match known {
        Some(known) => {
            if found.cmp(&known).is_lt() {
                found
            } else {
                known
            }
        }
        None => found,
    }
}

// The name, where the item is mandatory.
pub(crate) fn wanted(mandatory: bool, name: &Option<Name>) -> Option<&Name>
    ensures { option_copied result ≡ cond mandatory name.now None }
{
    if mandatory { name.as_ref() } else { None }
}

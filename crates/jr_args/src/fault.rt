// The first rule that a value breaks, and where.
ghost use Rattle.std.specs.Prelude.{◌≡◌, ◌++◌, [], IfOk, OnOk, string_bytes};
ghost use Rattle.std.specs.List.{flat_map};
ghost use Rattle.jr_args.specs.Outcomes.{IsRaised};
ghost use Rattle.jr_args.specs.Pointers.{escaped_pointer, pointer_character, pointer_text, step_text};
ghost use Rattle.jr_args.specs.declared.fault.Fault.TheVariants.{Bad, Memory};
ghost use Rattle.jr_args.specs.declared.fault.Step.TheVariants.{Key, Index};

use jr_path::Text;
use std::alloc::{AllocError, AllocFailed, Global};
use std::collections::LinkedList;

/// A step from a JSON value to one in it.
#[derive(Drop)]
pub enum Step {
    /// To the member of an object with this key.
    Key(Text),
    /// To an item of a list, from 0 on.
    Index(usize),
}

/// Why a JSON value isn't read.
#[derive(Drop)]
pub enum Fault {
    /// It breaks the rule of this number at the place to which the steps lead from it.
    Bad { rule: u8, steps: LinkedList<Step> },
    /// Memory was refused.
    Memory,
}

impl From<AllocError> for Fault {
    ghost from_gives = { λ _ e. e ≡ Memory };

    fn from(_: AllocError) -> Fault {
        Fault::Memory
    }
}

impl<T: Drop> From<AllocFailed<T>> for Fault {
    ghost from_gives = { λ _ e. e ≡ Memory };

    fn from(_: AllocFailed<T>) -> Fault {
        Fault::Memory
    }
}

impl Fault {
    /// The value itself breaks the rule.
    pub fn here(alloc: Global, rule: u8) -> Fault
        ensures { result ≡ Bad rule [] }
    {
        Fault::Bad {
            rule,
            steps: LinkedList::new(alloc),
        }
    }

    /// The fault of a member with this key, seen from the object.
    pub fn in_member(self, alloc: Global, key: &str) -> Fault
        ensures { IsRaised (Key key.now) self result }
    {
        match Text::copy_of(alloc, key) {
            Ok(key) => self.raised(Step::Key(key)),
            Err(_) => Fault::Memory,
        }
    }

    /// The fault of the item of this index, seen from the list.
    pub fn in_item(self, index: usize) -> Fault
        ensures { IsRaised (Index index) self result }
    {
        self.raised(Step::Index(index))
    }

    fn raised(self, step: Step) -> Fault
        ensures { IsRaised step self result }
    {
        match self {
            Fault::Bad { rule, mut steps } => match steps.push_front(step) {
                Ok(()) => Fault::Bad { rule, steps },
                Err(_) => Fault::Memory,
            },
            Fault::Memory => Fault::Memory,
        }
    }
}

/// The JSON Pointer (RFC 6901) of the place to which the steps lead from the top.
pub fn pointer(alloc: Global, steps: &LinkedList<Step>) -> Result<Text, AllocError>
    ensures { IfOk result (λ text. text ≡ pointer_text steps.now) }
{
    let mut text = String::new(alloc);
    for step in steps {
        text.push('/')?;
        put_step(alloc, &mut text, step)?;
    }
    Ok(Text::of(text))
}

fn put_step(alloc: Global, text: &mut String, step: &Step) -> Result<(), AllocError>
    ensures { OnOk result (string_bytes text.new ≡ string_bytes text.old ++ step_text step.now) }
{
    match step {
        Step::Key(key) => put_key(text, key.as_str())?,
        Step::Index(index) => text.push_str(format!(in alloc; "{index}")?.as_str())?,
    }
    Ok(())
}

// Puts a key with `~` as `~0` and `/` as `~1`.
fn put_key(text: &mut String, key: &str) -> Result<(), AllocError>
    ensures { OnOk result (string_bytes text.new ≡ string_bytes text.old ++ flat_map escaped_pointer key.now) }
{
    for c in key.chars() {
        put_escaped(text, c)?;
    }
    Ok(())
}

fn put_escaped(text: &mut String, c: char) -> Result<(), AllocError>
    ensures { OnOk result (string_bytes text.new ≡ string_bytes text.old ++ pointer_character c) }
{
    if c == '~' {
        text.push_str("~0")?;
        return Ok(());
    }
    if c == '/' {
        text.push_str("~1")?;
        return Ok(());
    }
    text.push(c)?;
    Ok(())
}

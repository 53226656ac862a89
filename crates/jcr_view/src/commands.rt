// Which commands the view answers.
ghost use Rattle.std.specs.Prelude.{◌≡◌};
ghost use Rattle.jcr_view.specs.Outcomes.{is_reading, is_viewed, is_writing};

use jcr_trans::Command;

/// Whether the view answers the command: it reads or writes items, or takes or drops a lock token. All other commands
/// are the session's.
pub fn is_viewed(command: &Command) -> bool
    ensures { result ≡ is_viewed command.now }
{
    is_writing(command) || is_reading(command)
}

/// Whether the command writes items.
pub(crate) fn is_writing(command: &Command) -> bool
    ensures { result ≡ is_writing command.now }
{
    match command {
        Command::Add(..)
        | Command::Tree(..)
        | Command::Set(..)
        | Command::Unset(..)
        | Command::Remove(..)
        | Command::Move(..)
        | Command::Mixin(..)
        | Command::Unmixin(..)
        | Command::SetType(..)
        | Command::OrderBefore(..) => true,
        _ => false,
    }
}

// Whether the command changes nothing of the view.
fn is_reading(command: &Command) -> bool
    ensures { result ≡ is_reading command.now }
{
    match command {
        Command::Get(_)
        | Command::List(_)
        | Command::Props(_)
        | Command::Id(_)
        | Command::ById(_)
        | Command::Refs(_)
        | Command::Versions(_)
        | Command::Token(_)
        | Command::DropToken(_) => true,
        _ => false,
    }
}

// Which commands are built, which of them a session may run, and which commit.
ghost use Rattle.std.specs.Prelude.{◌≡◌, cond};
ghost use Rattle.jcr_law.specs.Built.{Allowed, Unsupported, asked, is_built, is_forbidden};
ghost use Rattle.jcr_law.specs.Makes.{commits};

use jcr_trans::Command;

/// Whether a session may run a command, by whether it is attached to a checkpoint.
pub fn is_allowed(attached: bool, command: &Command) -> bool
    ensures { asked attached command.now
        ≡ cond result (Allowed command.now) (Unsupported command.now) }
{
    is_built(command) && !is_forbidden(attached, command)
}

// Whether the command is built.
fn is_built(command: &Command) -> bool
    ensures { result ≡ is_built command.now }
{
    !matches!(command, Command::Stop(_) | Command::Recover(_))
}

// Whether a session that is attached to a checkpoint, or that isn't, may not run the command.
fn is_forbidden(attached: bool, command: &Command) -> bool
    ensures { result ≡ is_forbidden attached command.now }
{
    match command {
        Command::Save
        | Command::Refresh(_)
        | Command::Lock(_, _)
        | Command::Unlock(_)
        | Command::Checkin(_)
        | Command::Checkout(_)
        | Command::Label(_, _, _, _)
        | Command::Unlabel(_, _)
        | Command::Restore(_, _)
        | Command::Observe(_, _, _)
        | Command::Events
        | Command::Checkpoint
        | Command::Attach(_)
        | Command::Stop(_)
        | Command::Recover(_) => attached,
        Command::Detach => !attached,
        _ => false,
    }
}

/// Whether the command commits: `save`, and the commands of locks and versions that write (JSR 283,
/// 10.11 Saving; 15 Versioning; 17 Locking).
pub fn commits(command: &Command) -> bool
    ensures { result ≡ commits command.now }
{
    matches!(
        command,
        Command::Save
            | Command::Lock(_, _)
            | Command::Unlock(_)
            | Command::Checkin(_)
            | Command::Checkout(_)
            | Command::Label(_, _, _, _)
            | Command::Unlabel(_, _)
            | Command::Restore(_, _)
    )
}

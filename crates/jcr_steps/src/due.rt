// Whether what is due is a reading step.
ghost use Rattle.std.specs.Prelude.{◌≡◌};
ghost use Rattle.oak_machine.specs.declared.event.StepKind.TheVariants as kind;
ghost use Rattle.oak_port.specs.Ports.{is_due};

use oak_machine::StepKind;

/// Whether a reading step is due.
pub fn is_read(due: Option<StepKind>) -> bool
    ensures { result ≡ is_due kind.Read due }
{
    match due {
        Some(StepKind::Read) => true,
        _ => false,
    }
}

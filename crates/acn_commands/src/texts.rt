//! The status behind a text of a command that doesn't read the input.

ghost use Rattle.std.specs.Prelude.{◌≡◌, IfOk, IfErr};
ghost use Rattle.acn_commands.specs.Lines.{output_failed_line};
ghost use Rattle.acn_commands.specs.Outside.{IsSilent, Says};
ghost use Rattle.acn_commands.specs.declared.status.Status.TheVariants as status;

use crate::reports::output_failed;
use crate::status::Status;
use acn_outside::{Failed, Sink};

/// The status behind a text: the command is done, or the output failed.
pub fn behind_text<E: Sink>(printed: Result<(), Failed>, err: &mut E) -> Status
    ensures done { IfOk printed (λ u. (result ≡ status.Done) × IsSilent (E.taken err.old, E.faults err.old) (E.taken err.new, E.faults err.new)) }
    ensures failed { IfErr printed (λ e. (result ≡ status.OutputFailed) × Says output_failed_line (E.taken err.old, E.faults err.old) (E.taken err.new, E.faults err.new)) }
{
    match printed {
        Ok(()) => Status::Done,
        Err(_) => output_failed(err),
    }
}

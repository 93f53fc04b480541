//! The end of a run: exit status and message.

ghost use Rattle.std.specs.Prelude.{◌≡◌, false};
ghost use Rattle.ud_model.specs.answer.Answer.{status_by, status_under};
ghost use Rattle.ud_io.specs.Watched.{AppendsAllOrPrefix};
ghost use Rattle.unifdef.specs.RunMessages.{final_result, result_message, result_status};

use crate::diagnostics::fault_messages::report_fault;
use std::io::Write;
use ud_engine::RunFault;
use ud_io::Watched;
use ud_model::{ExitMode, Listing, Settings};

/// The status of any fault.
pub const EXIT_TROUBLE: u8 = 2;

/// Returns the result of the run after the flush: a failed flush is `Write`, unless the run has
/// failed already.
pub fn final_result(ran: Result<bool, RunFault>, flushed: bool) -> Result<bool, RunFault>
    ensures { result ≡ final_result ran flushed }
{
    match ran {
        Ok(_) if !flushed => Err(RunFault::Write),
        ended => ended,
    }
}

/// Writes the message of a run's fault, if any, and returns the exit status.
pub fn report_result<E: Write>(
    err: &mut Watched<E>,
    name: &[u8],
    settings: Settings,
    ended: Result<bool, RunFault>,
) -> u8
    requires not_failed { err.old.failed ≡ false }
    ensures message { AppendsAllOrPrefix err.new.failed (E.contents err.old.inner)
        (E.contents err.new.inner) (result_message name.now ended) }
    ensures status { result ≡ result_status settings ended }
{
    match ended {
        Ok(differs) => status_under(settings, differs),
        Err(fault) => {
            report_fault(err, name, fault);
            EXIT_TROUBLE
        }
    }
}

/// Returns the status of a text without a fault. If names are listed, it is 0 in every mode.
fn status_under(settings: Settings, differs: bool) -> u8
    ensures { result ≡ status_under settings.listing settings.exit_mode differs }
{
    match settings.listing {
        Listing::Off => status_by(settings.exit_mode, differs),
        Listing::Names | Listing::Depths => 0,
    }
}

/// Returns the status by the exit mode, if there is no fault. `differs`: the output for the text
/// (or for one of several) differs from it.
pub fn status_by(mode: ExitMode, differs: bool) -> u8
    ensures { result ≡ status_by mode differs }
{
    match mode {
        ExitMode::Zero => u8::from(differs),
        ExitMode::One => u8::from(!differs),
        ExitMode::Two => 0,
    }
}

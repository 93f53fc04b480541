//! Laws: functions without a body whose contracts are theorems. They follow from the contract of
//! `tool`.

ghost use Rattle.std.specs.Prelude.{◌≡◌, true, false};
ghost use Rattle.ud_model.specs.answer.CommandLine.{display_name};
ghost use Rattle.ud_model.specs.answer.Messages.{read_error, write_error};
ghost use Rattle.unifdef.specs.ToolCall.{Call};
ghost use Rattle.unifdef.specs.ToolAnswer.{Reports, ReportsOrAnswers};
ghost use Rattle.unifdef.specs.ToolEnded.{CallEnds};

/// If a stream has failed after a call of `tool`, the status is 2 and a message says so.
///
/// If only the flush failed, and the text has a fault, the message is the fault's. The call then
/// gives the definitions' answer.
pub fn law_failed_streams<R, W>()
    ensures read_status { (call : Call R W) → CallEnds call → call.new_reader.failed ≡ true →
        call.status ≡ 2 }
    ensures write_status { (call : Call R W) → CallEnds call → call.new_out.failed ≡ true →
        call.status ≡ 2 }
    ensures read_message { (call : Call R W) → CallEnds call → call.new_reader.failed ≡ true →
        Reports call (read_error (display_name call.args)) }
    ensures write_message { (call : Call R W) → CallEnds call → call.new_out.failed ≡ true →
        call.new_reader.failed ≡ false →
        ReportsOrAnswers call (write_error (display_name call.args)) }
{}

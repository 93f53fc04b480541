//! Hands answers to C.

ghost use Rattle.std.specs.Prelude.{◌≡◌};
ghost use Rattle.unifdef_c.specs.TextCalls.{overwritten, HandsOut};
ghost use Rattle.unifdef_c.specs.Parts.{answer_of};

/// The lengths of an answer, whether it fits or not.
#[repr(C)]
#[derive(Clone, Copy, Debug, Drop)]
pub struct Sizes {
    /// The length of the output.
    pub output: usize,
    /// The length of the message.
    pub message: usize,
}

/// The status if the output or the message doesn't fit.
pub(crate) const TOO_SMALL: u8 = 3;

/// The parts of an answer.
#[derive(Clone, Copy)]
pub(crate) struct Parts<'a> {
    pub(crate) output: &'a [u8],
    pub(crate) message: &'a [u8],
    pub(crate) status: u8,
}

/// Writes an answer to `output` and `message`, as far as it fits, and its lengths to `sizes`.
/// Returns the status.
pub(crate) fn hand_out(
    answer: Parts<'_>,
    output: &mut [u8],
    message: &mut [u8],
    sizes: &mut Sizes,
) -> u8
    ensures { HandsOut (answer_of answer.entry) output.old output.new message.old message.new
        sizes.new result }
{
    *sizes = Sizes {
        output: answer.output.len(),
        message: answer.message.len(),
    };
    let fits = answer.output.len() <= output.len() && answer.message.len() <= message.len();
    overwrite(output, answer.output);
    overwrite(message, answer.message);
    if fits { answer.status } else { TOO_SMALL }
}

/// Writes as many of `bytes` as fit to the beginning of `buffer`.
pub(crate) fn overwrite(buffer: &mut [u8], bytes: &[u8])
    ensures { buffer.new ≡ overwritten buffer.old bytes.now }
{
    let count = buffer.len().min(bytes.len());
    buffer[..count].copy_from_slice(&bytes[..count]);
}

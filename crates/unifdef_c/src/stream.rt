//! A text that comes in chunks: an engine, and the output not taken yet.

ghost use Rattle.std.specs.Prelude.{◌≡◌, ◌+◌, ◌^◌, ◌<◌, None, IfOk, IfErr, length, map};
ghost use Rattle.std.specs.Prelude.{string_bytes};
ghost use Rattle.unifdef_c.specs.CallFaults.{IsArgsFault};
ghost use Rattle.unifdef_c.specs.Streams.{IsNewStream, BeginsStream, FeedsStream, TakesStream};
ghost use Rattle.unifdef_c.specs.Streams.{EndsStream, FinishesStream, pending, fed_of};

use crate::fault::CallFault;
use crate::hand_out::overwrite;
use std::alloc::Global;
use ud_args::{Plan, display_name, plan};
use ud_engine::{EngineOf, RunFault, Watched};
use ud_model::Settings;
use ud_sections::Printer;

/// An engine and its output, which a handle owns.
#[derive(Drop)]
pub struct Stream {
    /// The engine, which owns its plan.
    pub(crate) engine: EngineOf<Plan, Printer>,
    /// The output since all of it was last taken.
    pub(crate) output: Watched<Vec<u8>>,
    /// The number of bytes of the output already taken.
    pub(crate) taken: usize,
    /// The input's name in messages.
    pub(crate) name: Vec<u8>,
    /// The settings, for the exit status.
    pub(crate) settings: Settings,
    /// The result, once the text has ended.
    pub(crate) ended: Option<Result<bool, RunFault>>,
}

/// The effect of a chunk.
#[derive(Clone, Copy, Debug, PartialEq, Eq)]
pub(crate) enum Fed {
    /// The chunk is accepted.
    Accepted,
    /// The text has a fault.
    Faulty,
    /// Memory for the output can't be allocated.
    OutOfMemory,
    /// The text had already ended.
    Ended,
}

impl Stream {
    /// Returns a stream before the first byte.
    ///
    /// # Errors
    /// `BadWords` if the arguments have a fault, `OutOfMemory` if memory is refused.
    pub(crate) fn begin(alloc: Global, args: &[String]) -> Result<Stream, CallFault>
        ensures ok { IfOk result (BeginsStream (map string_bytes args.now)) }
        ensures err { IfErr result (IsArgsFault (map string_bytes args.now)) }
    {
        let plan = plan(alloc, args)?;
        let name = display_name(&plan, args);
        Stream::with_plan(alloc, plan, name)
    }

    /// Returns a stream before the first byte, by a plan.
    ///
    /// # Errors
    /// `OutOfMemory` if memory is refused.
    fn with_plan(alloc: Global, plan: Plan, name: &[u8]) -> Result<Stream, CallFault>
        ensures ok { IfOk result (IsNewStream plan name.now) }
        ensures err { IfErr result (λ fault. fault ≡ CallFault.OutOfMemory) }
    {
        let settings = plan.settings();
        let mut owned = Vec::new(alloc);
        owned.extend_from_slice(name)?;
        Ok(Stream {
            engine: EngineOf::new(plan, Printer::of(&settings)),
            output: Watched::new(Vec::new(alloc)),
            taken: 0,
            name: owned,
            settings,
            ended: None,
        })
    }

    /// Processes the next chunk. Appends the output for every line that ends in it.
    pub(crate) fn feed(&mut self, chunk: &[u8]) -> Fed
        ensures { FeedsStream self.old self.new chunk.now result }
    {
        if self.ended.is_some() {
            return Fed::Ended;
        }
        if self.output.failed() {
            return Fed::OutOfMemory;
        }
        fed_of(self.engine.feed(chunk, &mut self.output))
    }

    /// Ends the text: appends the output for its last line, if it has no newline. Returns the
    /// result, again if the text has already ended.
    pub(crate) fn end(&mut self) -> Result<bool, RunFault>
        ensures { EndsStream self.old self.new result }
    {
        if let Some(ended) = self.ended {
            return ended;
        }
        self.finish()
    }

    /// Ends the text, which hasn't ended yet.
    fn finish(&mut self) -> Result<bool, RunFault>
        requires { self.old.ended ≡ None }
        ensures { FinishesStream self.old self.new result }
    {
        if self.output.failed() {
            self.ended = Some(Err(RunFault::Write));
            return Err(RunFault::Write);
        }
        let ended = self.engine.finish_in_place(&mut self.output);
        self.ended = Some(ended);
        ended
    }

    /// Returns the output not taken yet.
    pub(crate) fn pending(&self) -> &[u8]
        ensures value { result.now ≡ pending self.now }
        ensures bound { self.now.taken + length result.now < 2 ^ 64 }
    {
        let all = self.output.inner().as_slice();
        if self.taken <= all.len() {
            &all[self.taken..]
        } else {
            &[]
        }
    }

    /// Writes the pending output to `buffer`, as far as it fits, and returns how many bytes were
    /// written. They are no longer pending.
    pub(crate) fn take(&mut self, alloc: Global, buffer: &mut [u8]) -> usize
        ensures { TakesStream self.old self.new buffer.old buffer.new result }
    {
        let pending = self.pending();
        let count = pending.len().min(buffer.len());
        let all = count == pending.len();
        overwrite(buffer, pending);
        if all && !self.output.failed() {
            self.output = Watched::new(Vec::new(alloc));
            self.taken = 0;
        } else {
            self.taken += count;
        }
        count
    }
}

/// Returns the effect of a chunk, if the engine returned this.
fn fed_of(returned: Result<(), RunFault>) -> Fed
    ensures { result ≡ fed_of returned }
{
    match returned {
        Ok(()) => Fed::Accepted,
        Err(RunFault::Write) => Fed::OutOfMemory,
        Err(RunFault::Text(_) | RunFault::Section(_) | RunFault::Read) => Fed::Faulty,
    }
}

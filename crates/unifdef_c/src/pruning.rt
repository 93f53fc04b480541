//! Texts without the operands of their conditions that words decide.

ghost use Rattle.std.specs.Prelude.{IfOk, IfErr};
ghost use Rattle.unifdef_c.specs.Words.{words_of, AreUtf8};
ghost use Rattle.unifdef_c.specs.CallFaults.{IsCallFault};
ghost use Rattle.unifdef_c.specs.Prunings.{HandsOutPruned, IsPrunedBy, PruneAnswer};

use crate::args::plan_words;
use crate::fault::CallFault;
use crate::hand_out::overwrite;
use std::alloc::Global;
use ud_cond::Rules;
use ud_passes::{Pruned, prune};

/// Removes the operands of conditions that the arguments in `words` decide.
///
/// Writes the rest of the text to `output`, as far as it fits, and its whole length to `size`.
/// Returns 1 if a line was edited, 0 if none was, and 3 if the rest doesn't fit.
///
/// # Errors
/// -1 if the words have a fault or one isn't UTF-8, and -2 if memory is refused. Then nothing is
/// written.
#[unsafe(no_mangle)]
pub extern "C" fn unifdef_prune(
    alloc: Global,
    words: &[u8],
    text: &[u8],
    output: &mut [u8],
    size: &mut usize,
) -> i32
    ensures { PruneAnswer words.now text.now output.old output.new size.old size.new result }
{
    match prune_by_words(alloc, words, text) {
        Ok(pruned) => hand_out_pruned(&pruned, output, size),
        Err(fault) => fault.code(),
    }
}

/// Writes what fits of a pruned text to `output`, and its length to `size`. Returns the status.
fn hand_out_pruned(pruned: &Pruned, output: &mut [u8], size: &mut usize) -> i32
    ensures { HandsOutPruned pruned.now.text.items pruned.now.edited output.old output.new size.new
        result }
{
    *size = pruned.text.len();
    overwrite(output, pruned.text.as_slice());
    if pruned.text.len() > output.len() {
        return 3;
    }
    i32::from(pruned.edited != 0)
}

/// Prunes a text by the words of a block.
///
/// # Errors
/// As `plan_words`.
fn prune_by_words(alloc: Global, words: &[u8], text: &[u8]) -> Result<Pruned, CallFault>
    ensures ok { IfOk result (IsPrunedBy (words_of words.now) text.now) }
    ensures utf8 { IfOk result (λ _. AreUtf8 (words_of words.now)) }
    ensures err { IfErr result (IsCallFault words.now) }
{
    let plan = plan_words(alloc, words)?;
    let rules = Rules::of(plan.settings());
    Ok(prune(alloc, text, plan.symbols(), rules)?)
}

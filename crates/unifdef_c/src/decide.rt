//! Decides one condition, and lists the names in one.

ghost use Rattle.std.specs.Prelude.{◌≡◌, ◌≤◌, List, length, IfOk, IfErr};
ghost use Rattle.ud_model.specs.conditions.Table.{Argument};
ghost use Rattle.ud_model.specs.conditions.Conditions.{condition_of};
ghost use Rattle.ud_model.specs.conditions.Names.{names_of};
ghost use Rattle.ud_model.specs.sections.Items.{rules_of};
ghost use Rattle.ud_model.specs.declared.limits.TheConstants.{MAX_LINE_BYTES};
ghost use Rattle.ud_model.specs.declared.kind.Kind.TheVariants.{If};
ghost use Rattle.ud_cond.specs.symbols.SymbolTable.{TableRepresents};
ghost use Rattle.unifdef_c.specs.Words.{words_of, block_of, AreUtf8};
ghost use Rattle.unifdef_c.specs.CallFaults.{IsCallFault};
ghost use Rattle.unifdef_c.specs.Decisions.{Decides, IsDecision, NamesAnswer};

use crate::args::plan_words;
use crate::fault::CallFault;
use crate::hand_out::overwrite;
use std::alloc::Global;
use ud_args::Plan;
use ud_cond::{Rules, condition, names};
use ud_model::{Cond, Kind, MAX_LINE_BYTES};

/// Decides the expression of an `#if` by the arguments in `words`.
///
/// Returns 0 if the expression is false, 1 if it is true, and 2 if it is unknown.
///
/// # Errors
/// -1 if the words have a fault or one isn't UTF-8, -2 if memory is refused, and -3 if the
/// expression has more than `MAX_LINE_BYTES` bytes.
#[unsafe(no_mangle)]
pub extern "C" fn unifdef_condition(alloc: Global, words: &[u8], expression: &[u8]) -> i32
    ensures { IsDecision words.now expression.now result }
{
    if expression.len() > MAX_LINE_BYTES {
        return -3;
    }
    match decide(alloc, words, expression) {
        Ok(Cond::No) => 0,
        Ok(Cond::Yes) => 1,
        Ok(Cond::Unknown) => 2,
        Err(fault) => fault.code(),
    }
}

/// Decides an expression by the words of a block.
///
/// # Errors
/// As `plan_words`.
fn decide(alloc: Global, words: &[u8], expression: &[u8]) -> Result<Cond, CallFault>
    requires fits { length expression.now ≤ MAX_LINE_BYTES }
    ensures ok { IfOk result (Decides (words_of words.now) expression.now) }
    ensures utf8 { IfOk result (λ _. AreUtf8 (words_of words.now)) }
    ensures err { IfErr result (IsCallFault words.now) }
{
    let plan = plan_words(alloc, words)?;
    Ok(cond_by_plan(&plan, expression))
}

/// Returns the condition of an expression under a plan.
fn cond_by_plan(plan: &Plan, expression: &[u8]) -> Cond
    requires fits { length expression.now ≤ MAX_LINE_BYTES }
    ensures { (calls : List Argument) → TableRepresents plan.now.symbols calls →
        result ≡ (condition_of If expression.now calls (rules_of plan.now.settings)).cond }
{
    let rules = Rules::of(plan.settings());
    condition(Kind::If, expression, plan.symbols(), rules).cond
}

/// Lists the names in the expression of an `#if`, in order and with repeats.
///
/// Writes what fits of them to `block`, each with a zero byte after it, and their whole length to
/// `size`. Returns 0, or 3 if they don't fit. An expression that can't be understood has none.
///
/// # Errors
/// -2 if memory is refused, and -3 if the expression has more than `MAX_LINE_BYTES` bytes. Then
/// nothing is written.
#[unsafe(no_mangle)]
pub extern "C" fn unifdef_names(
    alloc: Global,
    expression: &[u8],
    block: &mut [u8],
    size: &mut usize,
) -> i32
    ensures { NamesAnswer expression.now block.old block.new size.old size.new result }
{
    if expression.len() > MAX_LINE_BYTES {
        return -3;
    }
    match name_block(alloc, expression) {
        Ok(all) => {
            *size = all.len();
            overwrite(block, all.as_slice());
            if all.len() <= block.len() { 0 } else { 3 }
        }
        Err(fault) => fault.code(),
    }
}

/// Returns the names of an expression, each with a zero byte after it.
///
/// # Errors
/// `OutOfMemory` if memory is refused.
fn name_block(alloc: Global, expression: &[u8]) -> Result<Vec<u8>, CallFault>
    requires fits { length expression.now ≤ MAX_LINE_BYTES }
    ensures ok { IfOk result (λ all. all.items ≡ block_of (names_of If expression.now)) }
    ensures err { IfErr result (λ fault. fault ≡ CallFault.OutOfMemory) }
{
    let mut all = Vec::new(alloc);
    for name in names(Kind::If, expression) {
        all.extend_from_slice(name)?;
        all.push(0)?;
    }
    Ok(all)
}

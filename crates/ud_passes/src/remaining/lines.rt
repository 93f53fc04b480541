//! The lines of the list.

ghost use Rattle.std.specs.Prelude.{◌≡◌, ◌∷◌, [], ◌++◌, OnOk};
ghost use Rattle.ud_passes.specs.Passes.{AppendsSome, place_at};
ghost use Rattle.ud_passes.specs.remaining.Reasons.{reason_text};

use crate::lines::{append_body, append_place};
use crate::remaining::reasons::Reason;
use std::alloc::AllocError;

/// Appends the line of the list for a mention, with the reason if any.
///
/// # Errors
/// Fails if memory runs out.
pub(crate) fn append_reason(
    list: &mut Vec<u8>,
    name: &[u8],
    number: usize,
    reason: Option<Reason>,
    body: &[u8],
) -> Result<(), AllocError>
    ensures grows { AppendsSome list.old.items list.new.items }
    ensures items { OnOk result (list.new.items ≡ list.old.items ++ (place_at name.now number ++
        reason_text reason ++ body.now ++ 10 ∷ [])) }
{
    append_place(list, name, number)?;
    if let Some(reason) = reason {
        list.extend_from_slice(reason.phrase())?;
        list.extend_from_slice(b": ")?;
    }
    append_body(list, body)
}

//! The faults that keep a symbol out of the table, as data.

use std::alloc::AllocError;

/// The reason why a call on the table of symbols failed.
#[derive(Clone, Copy, Debug, PartialEq, Eq)]
pub enum SymbolFault {
    /// The name isn't an identifier, or is `defined`.
    BadName,
    /// Memory for the name or its value couldn't be allocated.
    OutOfMemory,
}

impl From<AllocError> for SymbolFault {
    ghost use Rattle.std.specs.Prelude.{◌≡◌};
    ghost use Rattle.ud_cond.specs.declared.symbols.fault.SymbolFault.TheVariants.{OutOfMemory};

    ghost from_gives = { λ _ fault. fault ≡ OutOfMemory };

    fn from(_: AllocError) -> Self {
        SymbolFault::OutOfMemory
    }
}

//! The reasons why a call does nothing, with their numbers for C.

ghost use Rattle.std.specs.Prelude.{◌≡◌};
ghost use Rattle.unifdef_c.specs.CallFaults.{code, fault_of};

use std::alloc::{AllocError, AllocFailed};
use ud_args::Usage;

/// The reason why a call does nothing.
#[derive(Clone, Copy, Debug, PartialEq, Eq)]
pub(crate) enum CallFault {
    /// The words have a fault, or one of them isn't UTF-8.
    BadWords,
    /// Memory can't be allocated.
    OutOfMemory,
}

impl CallFault {
    /// Returns the number of the fault for C.
    pub(crate) fn code(self) -> i32
        ensures { result ≡ code self }
    {
        match self {
            CallFault::BadWords => -1,
            CallFault::OutOfMemory => -2,
        }
    }
}

impl From<AllocError> for CallFault {
    ghost use Rattle.unifdef_c.specs.declared.fault.CallFault.TheVariants.{OutOfMemory};

    ghost from_gives = { λ _ fault. fault ≡ OutOfMemory };

    fn from(_error: AllocError) -> CallFault {
        CallFault::OutOfMemory
    }
}

impl<T: Drop> From<AllocFailed<T>> for CallFault {
    ghost use Rattle.unifdef_c.specs.declared.fault.CallFault.TheVariants.{OutOfMemory};

    ghost from_gives = { λ _ fault. fault ≡ OutOfMemory };

    fn from(_error: AllocFailed<T>) -> CallFault {
        CallFault::OutOfMemory
    }
}

impl From<Usage> for CallFault {
    ghost from_gives = { λ usage fault. fault ≡ fault_of usage };

    fn from(usage: Usage) -> CallFault {
        match usage {
            Usage::OutOfMemory => CallFault::OutOfMemory,
            _ => CallFault::BadWords,
        }
    }
}

//! The faults of a command line, as data. The crate unifdef has the tool's messages.

use std::alloc::AllocError;
use thiserror::Error;

/// A fault of a command line, or a lack of memory for it.
///
/// Arguments are counted from 1, without the program's name. The texts of `Display` may change.
#[derive(Clone, Copy, Debug, PartialEq, Eq, Error)]
pub enum Usage {
    /// A letter that is no option.
    #[error("unknown option -{letter}")]
    UnknownOption {
        /// The letter, as given in its argument.
        letter: char,
    },
    /// An option without the argument that it takes.
    #[error("option -{letter} needs an argument")]
    MissingArgument {
        /// The option's letter.
        letter: char,
    },
    /// An argument of `-D`, `-U` or `-i` that names no symbol.
    #[error("bad symbol in word {word}")]
    BadSymbol {
        /// The number of the command-line argument that contains the option's argument.
        word: usize,
    },
    /// An argument of `-x` that is no exit mode.
    #[error("bad exit mode in word {word}")]
    BadMode {
        /// The number of the command-line argument that contains the option's argument.
        word: usize,
    },
    /// An argument after the first operand.
    #[error("too many files")]
    TooManyFiles,
    /// Memory for a symbol couldn't be allocated.
    #[error("out of memory")]
    OutOfMemory,
}

impl From<AllocError> for Usage {
    ghost use Rattle.std.specs.Prelude.{◌≡◌};
    ghost use Rattle.ud_args.specs.declared.usage.Usage.TheVariants.{OutOfMemory};

    ghost from_gives = { λ _ fault. fault ≡ OutOfMemory };

    fn from(_: AllocError) -> Self {
        Usage::OutOfMemory
    }
}

//! The options of each program, as tables of letters.

ghost use Rattle.std.specs.Prelude.{◌≡◌};

/// A program with a command line.
#[derive(Clone, Copy)]
pub(crate) enum Program {
    /// unifdef(1).
    Unifdef,
    /// unifdef-tree(1).
    UnifdefTree,
}

impl Program {
    ghost use Rattle.ud_args.specs.CommandLines.{is_flag, takes_argument, long_flag};
    ghost use Rattle.ud_args.specs.CommandLines.{ends_at_operand};

    /// Returns whether a letter is an option without an argument.
    pub(crate) fn is_flag(self, letter: char) -> bool
        ensures { result ≡ is_flag self letter }
    {
        let letters: &[char] = match self {
            Program::Unifdef => &['b', 'c', 'k', 'l', 'n', 's', 'K', 'S', 't'],
            Program::UnifdefTree => &[
                '0', 'B', 'b', 'c', 'd', 'h', 'K', 'k', 'l', 'n', 'p', 'q', 'r', 's', 't', 'V', 'w',
            ],
        };
        letters.contains(&letter)
    }

    /// Returns whether a letter is an option with an argument.
    pub(crate) fn takes_argument(self, letter: char) -> bool
        ensures { result ≡ takes_argument self letter }
    {
        let letters: &[char] = match self {
            Program::Unifdef => &['D', 'U', 'i', 'x'],
            Program::UnifdefTree => &['D', 'U', 'g', 'i', 'x'],
        };
        letters.contains(&letter)
    }

    /// Returns the letter of a long flag, if the word is one.
    pub(crate) fn long_flag(self, word: &str) -> Option<char>
        ensures { result ≡ long_flag self word.now }
    {
        match self {
            Program::Unifdef => None,
            Program::UnifdefTree if word == "--help" => Some('h'),
            Program::UnifdefTree if word == "--version" => Some('V'),
            Program::UnifdefTree => None,
        }
    }

    /// Returns whether the first operand ends the options.
    pub(crate) fn ends_at_operand(self) -> bool
        ensures { result ≡ ends_at_operand self }
    {
        match self {
            Program::Unifdef => true,
            Program::UnifdefTree => false,
        }
    }
}

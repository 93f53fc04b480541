//! The words of a command line, read letter by letter (POSIX XBD 12.2).
//!
//! Each step reads an option, with its argument if it takes one, or an operand. `programs` has the
//! options of each program, and `options` checks their arguments. Reading takes no memory.

ghost use Rattle.std.specs.Prelude.{◌≡◌, ◌∷◌, ◌+◌, map, chars, string_bytes};
ghost use Rattle.std.specs.Prelude.{Some, None};
ghost use Rattle.ud_model.specs.answer.CommandLine.{option_letters};
ghost use Rattle.ud_args.specs.CommandLines.{option_then, parsed_words};
ghost use Rattle.ud_args.specs.ParsedArgs.{letters_of, bytes_of};

use crate::programs::Program;

/// An option or an operand, as read from the words of a command line.
#[derive(Clone, Copy)]
pub enum ParsedArg<'a> {
    /// An option without an argument.
    Flag {
        letter: char,
    },
    /// An option with its argument, and the number of the word that contains the argument, counted
    /// from 1.
    WithArgument {
        letter: char,
        word: usize,
        argument: &'a str,
    },
    /// An operand, and its index among the words, counted from 0.
    Operand {
        index: usize,
        name: &'a str,
    },
    /// A letter that is no option.
    Unknown {
        letter: char,
    },
    /// An option without the argument that it takes.
    MissingArgument {
        letter: char,
    },
    /// A word with options after an operand, and its index among the words.
    Late {
        index: usize,
        name: &'a str,
    },
}

/// The rest of a command line.
#[derive(Clone, Copy)]
pub(crate) struct CommandLine<'a> {
    /// The program that has the options.
    program: Program,
    /// The remaining letters of the last word read.
    letters: &'a str,
    /// All words.
    words: &'a [String],
    /// The number of words read.
    read: usize,
    /// `true` if an operand was read; no letters remain then.
    after_operand: bool,
    /// `true` if each further word is an operand; no letters remain then.
    only_operands: bool,
}

#[tactic(auto, using(crate::proofs::LetterLemmas::word_steps))]
impl<'a> CommandLine<'a> {
    ghost use Rattle.ud_args.specs.ParsedArgs.{remaining, as_parsed, parsed_then, operands};
    ghost use Rattle.ud_args.specs.ParsedArgs.{next_words, after_letters, ordinary_word};

    /// Returns the whole command line of these words, the program's name excluded.
    pub(crate) fn new(program: Program, words: &'a [String]) -> CommandLine<'a>
        ensures { remaining result ≡ parsed_words program (map string_bytes words.now) }
    {
        CommandLine {
            program,
            letters: "",
            words,
            read: 0,
            after_operand: false,
            only_operands: false,
        }
    }

    /// Reads the next option or operand. Returns it with the rest, or `None` at the end.
    pub(crate) fn next(&self) -> Option<(ParsedArg<'a>, CommandLine<'a>)>
        ensures { remaining self.now ≡ parsed_then result }
    {
        if self.only_operands {
            return self.next_operand();
        }
        match split_first_letter(self.letters) {
            Some((letter, letters)) => Some(self.option(letter, letters)),
            None => self.next_word(),
        }
    }

    /// Reads the next word, if no letters remain.
    fn next_word(&self) -> Option<(ParsedArg<'a>, CommandLine<'a>)>
        ensures { next_words self.now None ≡ parsed_then result }
    {
        let word = self.words.get(self.read)?.as_str();
        let after = CommandLine {
            letters: "",
            read: self.read + 1,
            only_operands: false,
            ..*self
        };
        if word == "--" {
            return after.next_operand();
        }
        match self.program.long_flag(word) {
            Some(letter) => Some((ParsedArg::Flag { letter }, after)),
            None => Some(after.option_or_operand(self.read, word)),
        }
    }

    /// Reads from the last word read, which has this index and is neither `--` nor a long flag.
    fn option_or_operand(&self, index: usize, word: &'a str) -> (ParsedArg<'a>, CommandLine<'a>)
        requires { self.now.read ≡ index + 1 }
        ensures { ordinary_word self.now index word.now ≡
            as_parsed result.0 ∷ remaining result.1 }
    {
        let after = CommandLine {
            letters: "",
            after_operand: true,
            only_operands: self.program.ends_at_operand(),
            ..*self
        };
        match split_first_letter(option_letters(word)) {
            None => (ParsedArg::Operand { index, name: word }, after),
            Some(_) if self.after_operand => (ParsedArg::Late { index, name: word }, after),
            Some((letter, letters)) => self.option(letter, letters),
        }
    }

    /// Reads the next word as an operand, like all words after it.
    fn next_operand(&self) -> Option<(ParsedArg<'a>, CommandLine<'a>)>
        ensures { operands self.now ≡ parsed_then result }
    {
        let index = self.read;
        let name = self.words.get(index)?.as_str();
        let after = CommandLine {
            read: index + 1,
            only_operands: true,
            ..*self
        };
        Some((ParsedArg::Operand { index, name }, after))
    }

    /// Reads a letter of the last word read. The letters `after` follow it.
    fn option(&self, letter: char, after: &'a str) -> (ParsedArg<'a>, CommandLine<'a>)
        ensures { after_letters self.now (letter ∷ chars after.now) ≡
            as_parsed result.0 ∷ remaining result.1 }
    {
        let rest = self.with_letters(after);
        if self.program.is_flag(letter) {
            (ParsedArg::Flag { letter }, rest)
        } else if self.program.takes_argument(letter) {
            self.option_with_argument(letter, after)
        } else {
            (ParsedArg::Unknown { letter }, rest)
        }
    }

    /// Reads an option with its argument. The letters `after` follow the option's: they are its
    /// argument; if there are none, the next word is.
    fn option_with_argument(&self, letter: char, after: &'a str) -> (ParsedArg<'a>, CommandLine<'a>)
        ensures { option_then letter self.now.read (chars after.now) (next_words self.now
            (Some letter)) (next_words self.now None) ≡ as_parsed result.0 ∷ remaining result.1 }
    {
        let end = self.with_letters("");
        let word = self.read;
        if !after.is_empty() {
            let argument = after;
            let given = ParsedArg::WithArgument {
                letter,
                word,
                argument,
            };
            return (given, end);
        }
        match self.words.get(word) {
            None => (ParsedArg::MissingArgument { letter }, end),
            Some(next) => {
                let argument = next.as_str();
                let word = word + 1;
                let given = ParsedArg::WithArgument {
                    letter,
                    word,
                    argument,
                };
                let after = CommandLine {
                    letters: "",
                    read: word,
                    only_operands: false,
                    ..*self
                };
                (given, after)
            }
        }
    }

    /// Returns the same command line with `letters` as the remaining letters.
    fn with_letters(&self, letters: &'a str) -> CommandLine<'a>
        ensures { remaining result ≡ after_letters self.now (chars letters.now) }
    {
        CommandLine {
            letters,
            only_operands: false,
            ..*self
        }
    }
}

/// Returns the option letters of a word; none for an operand.
fn option_letters(word: &str) -> &str
    ensures { chars result.now ≡ option_letters word.now }
{
    let Some((letter, letters)) = split_first_letter(word) else {
        return "";
    };
    if letter == '-' { letters } else { "" }
}

/// Returns the first letter of a text and what follows, or `None` if the text is empty.
#[tactic(auto, using(crate::proofs::LetterLemmas::word_steps))]
fn split_first_letter(text: &str) -> Option<(char, &str)>
    ensures letters { chars text.now ≡ letters_of result }
    ensures bytes { text.now ≡ bytes_of result }
{
    let mut letters = text.chars();
    let letter = letters.next()?;
    Some((letter, letters.as_str()))
}

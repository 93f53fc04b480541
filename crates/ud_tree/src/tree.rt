//! A tree of files, as far as a walk and a search use it.

ghost use Rattle.std.specs.Prelude.{◌≡◌, [], ◌∷◌, map};
ghost use Rattle.ud_replace.specs.Calls.{walked, met, followed, listed, sampled};

use std::io;
use ud_replace::{Directory, Lookup, Sample};

/// A tree of files and directories, each with a path.
///
/// Each call appends itself with its answer to the history of `Directory`.
pub trait Tree: Directory {
    /// Returns what is at a path, without following a link at its end.
    ///
    /// # Errors
    /// `Unknown` if the call fails.
    fn node(&mut self, path: &str) -> Lookup
        ensures { Self.history self.new ≡ walked (met path.now result) ∷ Self.history self.old };

    /// Returns whether a path leads to a directory, perhaps by a link.
    fn leads_to_directory(&mut self, path: &str) -> bool
        ensures { Self.history self.new ≡
            walked (followed path.now result) ∷ Self.history self.old };

    /// Appends the names in a directory to `names`, without the directory itself and its parent.
    /// Returns whether all names were appended.
    fn list(&mut self, directory: &str, names: &mut Vec<Vec<u8>>) -> bool
        requires empty { names.old.items ≡ [] }
        ensures noted { Self.history self.new ≡
            walked (listed directory.now (map (λ n. n.items) names.new.items) result)
            ∷ Self.history self.old };

    /// Returns why the last failed call failed.
    fn reason(&self) -> Option<io::Error>;

    /// Reads a file to search it: all bytes of a text into `text`, and no more than the first ones
    /// of any other file. Returns what was read.
    fn sample(&mut self, name: &[u8], text: &mut Vec<u8>) -> Sample
        requires empty { text.old.items ≡ [] }
        ensures noted { Self.history self.new ≡
            sampled name.now text.new.items result ∷ Self.history self.old };
}

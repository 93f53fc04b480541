//! Whether mentions are counted, listed or explained.

ghost use Rattle.std.specs.Prelude.{◌≡◌, ◌≤◌, length};
ghost use Rattle.ud_model.specs.text.Lines.{whole_lines};
ghost use Rattle.ud_passes.specs.remaining.Searches.{shown_number};

use ud_cond::Rules;
use ud_text::count_lines;

/// The result of a search for mentions of the symbols.
#[derive(Clone, Copy)]
pub enum Listing {
    /// The numbers of conditions and definitions.
    Counted,
    /// These numbers, and a line for each mention.
    Listed,
    /// These numbers and lines, with the reason why each condition stays under these rules.
    Explained(Rules),
}

impl Listing {
    /// Returns the number of these text lines if the list shows numbers, else 0.
    pub(crate) fn lines_in(self, bytes: &[u8]) -> usize
        ensures few { result ≤ length bytes.now }
        ensures count { shown_number self result ≡
            shown_number self (length (whole_lines bytes.now)) }
    {
        match self {
            Listing::Counted => 0,
            Listing::Listed | Listing::Explained(_) => count_lines(bytes),
        }
    }
}

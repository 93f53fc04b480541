//! Where texts still mention a symbol of the options, listed or counted: conditions that name it,
//! its definitions, and words after an `#else` or `#endif`.
//!
//! Most texts have no symbol's name anywhere, which a search for its bytes tells. In any other the
//! search goes line by line. Text lines are skipped many at once, up to one that may define a
//! symbol. A conditional directive or a definition begins a mention, which goes on with the lines
//! that its line joins. When the mention ends, its words are looked up.
//!
//! `specs/remaining/Mentions.antt` defines the mentions of a text, `Definitions.antt` which lines
//! define a symbol, and `ListedNames.antt` which mentions name one. `Reasons.antt` defines the
//! reason for a mention, `RemainingLists.antt` the list and which names conditions have, and
//! `Searches.antt` what a search keeps.

ghost use Rattle.std.specs.Prelude.{◌≡◌, List, [], OnOk, OnErr};
ghost use Rattle.ud_model.specs.conditions.Table.{Argument};
ghost use Rattle.ud_cond.specs.symbols.SymbolTable.{TableRepresents};
ghost use Rattle.ud_passes.specs.remaining.RemainingLists.{AddsAll, LeavesUnnamed};

use names::drop_unset;
use search::Search;
use std::alloc::{AllocError, Global};
use std::marker::Model;
use std::mem;
use ud_cond::Symbols;
use ud_model::Mode;

mod definitions;
mod lines;
mod listing;
mod mentions;
mod names;
mod reasons;
mod search;

pub use listing::Listing;

/// The mentions of symbols in all texts so far: conditions, definitions, and words after an `#else`
/// or `#endif`.
#[derive(Drop)]
pub struct Remaining {
    search: Search,
}

impl Model for Remaining {
    ghost use Rattle.ud_passes.specs.remaining.RemainingLists.{RemainingState};

    ghost Value = { RemainingState };

    ghost view = { λ r. record {
      listing = r.search.listing;
      count = r.search.count;
      defined = r.search.defined;
      list = r.search.list.items;
    } };
}

impl Remaining {
    /// Returns an empty list.
    pub fn new(alloc: Global, listing: Listing) -> Remaining
        ensures { result ≡ record { listing = listing; count = 0; defined = 0; list = [] } }
    {
        Remaining {
            search: Search::new(alloc, listing),
        }
    }

    /// Returns the number of conditions, at most `usize::MAX`.
    pub fn count(&self) -> usize
        ensures { result ≡ self.now.count }
    {
        self.search.count
    }

    /// Returns the number of lines that define a symbol, at most `usize::MAX`.
    pub fn defined(&self) -> usize
        ensures { result ≡ self.now.defined }
    {
        self.search.defined
    }

    /// Returns the list.
    pub fn list(&self) -> &[u8]
        ensures { result.now ≡ self.now.list }
    {
        self.search.list.as_slice()
    }

    /// Adds a text's mentions of the symbols. `name` is the file's name. `unnamed` has the marks of
    /// the symbols that no condition has named so far, or none: the rows that a condition of the
    /// text names lose theirs.
    ///
    /// `text` may have any length and any bytes. A condition whose comment never closes ends with
    /// the text. A line over `MAX_LINE_BYTES` has no condition and no definition, and joins no
    /// other line.
    ///
    /// # Errors
    /// Fails if memory runs out. Then nothing was added, but marks may be lost.
    pub fn add(
        &mut self,
        name: &[u8],
        text: &[u8],
        mode: Mode,
        symbols: &Symbols,
        unnamed: &mut Vec<bool>,
    ) -> Result<(), AllocError>
        ensures added { OnOk result ((calls : List Argument) → TableRepresents symbols.now calls →
            AddsAll calls mode name.now text.now self.old self.new) }
        ensures unnamed { OnOk result ((calls : List Argument) →
            TableRepresents symbols.now calls → LeavesUnnamed calls mode text.now symbols.now
            unnamed.old.items unnamed.new.items) }
        ensures unchanged { OnErr result (self.new ≡ self.old) }
    {
        let search = &mut self.search;
        let (count, defined, len) = (search.count, search.defined, search.list.len());
        mem::swap(&mut search.unnamed, unnamed);
        let result = search.search(name, text, mode, symbols);
        mem::swap(&mut search.unnamed, unnamed);
        drop_unset(unnamed);
        if result.is_err() {
            search.count = count;
            search.defined = defined;
            search.list.truncate(len);
        }
        result
    }
}

//! The search of a text, line by line.

ghost use Rattle.std.specs.Prelude.{◌≡◌, ◌+◌, ◌<◌, ◌≤◌, ◌^◌, List, [], length, IfOk, OnOk};
ghost use Rattle.std.specs.Prelude.{if◌then◌else◌, is_some, true, ◌-◌};
ghost use Rattle.ud_model.specs.conditions.Table.{Argument};
ghost use Rattle.ud_cond.specs.symbols.Marks.{Unmarks};
ghost use Rattle.ud_cond.specs.symbols.SymbolTable.{TableRepresents};
ghost use Rattle.ud_passes.specs.Passes.{AppendsSome};
ghost use Rattle.ud_passes.specs.remaining.ListedNames.{names_by};
ghost use Rattle.ud_passes.specs.remaining.RemainingLists.{has_name, is_condition, is_defining};
ghost use Rattle.ud_passes.specs.remaining.Searches.{begun_as, ended, EndsLine};
ghost use Rattle.ud_passes.specs.remaining.Searches.{Appends, AppendsLine, SearchesOn, IsClearTo};
ghost use Rattle.ud_passes.specs.remaining.Mentions.{mentions_of};

use crate::remaining::definitions::clear_len;
use crate::remaining::lines::append_reason;
use crate::remaining::listing::Listing;
use crate::remaining::mentions::{Begun, Class, take_line};
use crate::remaining::names::{has_listed, may_name, unmark_words};
use crate::remaining::reasons::reason_of;
use crate::walk::{Stretch, Walk};
use std::alloc::{AllocError, Global};
use ud_cond::Symbols;
use ud_model::Mode;
use ud_text::LineStore;

/// A search for mentions that name a symbol, and those found so far.
#[derive(Drop)]
pub(crate) struct Search {
    pub(crate) listing: Listing,
    /// The number of conditions, at most `usize::MAX`.
    pub(crate) count: usize,
    /// The number of definitions, at most `usize::MAX`.
    pub(crate) defined: usize,
    /// A line for each mention: the file, the line's number, and its text.
    pub(crate) list: Vec<u8>,
    /// For each row of the symbols, whether its name is sought: no condition has it so far. Or
    /// nothing, if no name is sought.
    pub(crate) unnamed: Vec<bool>,
    /// The text of the current mention, joined lines included.
    after: Vec<u8>,
}

/// A position of a search, at the beginning of a line.
#[derive(Clone, Copy)]
struct Place<'t> {
    /// The number of the next line, if the list shows numbers.
    number: usize,
    /// The mention that goes on with the next line, if any.
    begun: Option<Begun<'t>>,
    /// From here on, only the last `until` bytes of the text may have a definition.
    until: usize,
}

/// Returns whether a mention of this class, with the text `after`, names a symbol.
fn names_listed(symbols: &Symbols, class: Class, after: &[u8]) -> bool
    ensures { (calls : List Argument) → TableRepresents symbols.now calls →
        result ≡ names_by calls class after.now }
{
    match class {
        Class::Definition => true,
        Class::Condition(_) | Class::Closing => has_listed(symbols, after),
    }
}

/// Returns how many last bytes of a walk's text may have a definition, given such a number,
/// `until`, from before.
fn clear_until(symbols: &Symbols, walk: &Walk<'_>, until: usize) -> usize
    ensures { (calls : List Argument) → TableRepresents symbols.now calls →
        IsClearTo calls until walk.now.rest.now → IsClearTo calls result walk.now.rest.now }
{
    if until < walk.rest.len() {
        return until;
    }
    walk.rest.len() - clear_len(symbols, walk.rest)
}

/// Returns how many bytes of text lines may be skipped at once: none if a mention goes on, else all
/// before the last `until`.
fn passable_len(place: Place<'_>, walk: &Walk<'_>, until: usize) -> usize
    ensures begun { is_some place.entry.begun ≡ true → result ≡ 0 }
    ensures clear { result ≤ length walk.now.rest.now - until }
{
    if place.begun.is_some() {
        return 0;
    }
    walk.rest.len().saturating_sub(until)
}

impl Search {
    /// Returns a search that has found no mention.
    pub(crate) fn new(alloc: Global, listing: Listing) -> Search
        ensures none { result.count ≡ 0 }
        ensures undefined { result.defined ≡ 0 }
        ensures empty { result.list.items ≡ [] }
        ensures unsought { result.unnamed.items ≡ [] }
        ensures listing { result.listing ≡ listing }
    {
        Search {
            listing,
            count: 0,
            defined: 0,
            list: Vec::new(alloc),
            unnamed: Vec::new(alloc),
            after: Vec::new(alloc),
        }
    }

    /// Counts a condition or a definition.
    fn tally(&mut self, class: Class)
        ensures count { self.old.count + (if is_condition class then 1 else 0) < 2 ^ 64 →
            self.new.count ≡ self.old.count + (if is_condition class then 1 else 0) }
        ensures defined { self.old.defined + (if is_defining class then 1 else 0) < 2 ^ 64 →
            self.new.defined ≡ self.old.defined + (if is_defining class then 1 else 0) }
        ensures some { 0 < self.old.count + (if is_condition class then 1 else 0) →
            0 < self.new.count }
        ensures list { self.new.list ≡ self.old.list }
        ensures unnamed { self.new.unnamed ≡ self.old.unnamed }
        ensures after { self.new.after ≡ self.old.after }
        ensures listing { self.new.listing ≡ self.old.listing }
    {
        match class {
            Class::Condition(_) => self.count = self.count.saturating_add(1),
            Class::Definition => self.defined = self.defined.saturating_add(1),
            Class::Closing => {}
        }
    }

    /// Takes away the marks of the rows whose names a mention has, if that is a condition.
    fn unmark(&mut self, class: Class, symbols: &Symbols)
        ensures unnamed { Unmarks symbols.now (λ n. has_name n class self.old.after.items)
            self.old.unnamed.items self.new.unnamed.items }
        ensures count { self.new.count ≡ self.old.count }
        ensures defined { self.new.defined ≡ self.old.defined }
        ensures list { self.new.list ≡ self.old.list }
        ensures after { self.new.after ≡ self.old.after }
        ensures listing { self.new.listing ≡ self.old.listing }
    {
        match class {
            Class::Condition(_) => {
                unmark_words(symbols, self.after.as_slice(), &mut self.unnamed);
            }
            Class::Definition | Class::Closing => {}
        }
    }

    /// Appends the line of a mention.
    ///
    /// # Errors
    /// Fails if memory runs out.
    fn append(&mut self, name: &[u8], symbols: &Symbols, begun: Begun<'_>) -> Result<(), AllocError>
        ensures grows { AppendsSome self.old.list.items self.new.list.items }
        ensures count { self.new.count ≡ self.old.count }
        ensures defined { self.new.defined ≡ self.old.defined }
        ensures unnamed { self.new.unnamed ≡ self.old.unnamed }
        ensures listing { self.new.listing ≡ self.old.listing }
        ensures line { OnOk result ((calls : List Argument) →
            TableRepresents symbols.now calls →
            AppendsLine calls name.now begun.entry self.old self.new) }
    {
        let after = self.after.as_slice();
        match self.listing {
            Listing::Counted => Ok(()),
            Listing::Listed | Listing::Explained(_) => {
                let reason = reason_of(&begun, after, symbols, self.listing);
                append_reason(&mut self.list, name, begun.number, reason, begun.body)
            }
        }
    }

    /// Ends a mention: counts it, takes away the marks of its names, and appends its line, if it
    /// names a symbol.
    ///
    /// # Errors
    /// Fails if memory runs out.
    fn end(
        &mut self,
        name: &[u8],
        symbols: &Symbols,
        begun: Option<Begun<'_>>,
    ) -> Result<(), AllocError>
        ensures grows { AppendsSome self.old.list.items self.new.list.items }
        ensures listing { self.new.listing ≡ self.old.listing }
        ensures appends { OnOk result ((calls : List Argument) →
            TableRepresents symbols.now calls → Appends symbols.now calls name.now
            (ended (begun_as begun.entry self.old.after.items)) self.old self.new) }
    {
        let Some(begun) = begun else {
            return Ok(());
        };
        if !names_listed(symbols, begun.class, self.after.as_slice()) {
            return Ok(());
        }
        self.tally(begun.class);
        self.unmark(begun.class, symbols);
        self.append(name, symbols, begun)
    }

    /// Ends the mention of a line, which `place` has, unless it goes on with the next line. Returns
    /// the place after the line.
    ///
    /// # Errors
    /// Fails if memory runs out.
    fn end_line<'t>(
        &mut self,
        name: &[u8],
        symbols: &Symbols,
        goes_on: bool,
        place: Place<'t>,
    ) -> Result<Place<'t>, AllocError>
        requires room { place.number + 1 < 2 ^ 64 }
        ensures grows { AppendsSome self.old.list.items self.new.list.items }
        ensures listing { self.new.listing ≡ self.old.listing }
        ensures number { IfOk result (λ p. p.number ≡ place.entry.number + 1) }
        ensures until { IfOk result (λ p. p.until ≡ place.entry.until) }
        ensures ended { IfOk result (λ p. (calls : List Argument) →
            TableRepresents symbols.now calls → EndsLine symbols.now calls name.now place.entry.begun
            goes_on self.old self.new p.begun) }
    {
        let number = place.number + 1;
        if goes_on {
            return Ok(Place { number, ..place });
        }
        self.end(name, symbols, place.begun)?;
        Ok(Place {
            number,
            begun: None,
            ..place
        })
    }

    /// Searches the next lines.
    ///
    /// # Errors
    /// Fails if memory runs out.
    fn search_lines<'t>(
        &mut self,
        name: &[u8],
        mode: Mode,
        symbols: &Symbols,
        walk: &mut Walk<'t>,
        masked: &mut LineStore,
        place: Place<'t>,
    ) -> Result<Place<'t>, AllocError>
        requires some { 0 < length walk.old.rest.now }
        requires room { place.number + length walk.old.rest.now < 2 ^ 64 }
        ensures grows { AppendsSome self.old.list.items self.new.list.items }
        ensures listing { self.new.listing ≡ self.old.listing }
        ensures shorter { length walk.new.rest.now < length walk.old.rest.now }
        ensures room { IfOk result (λ p. p.number + length walk.new.rest.now ≤
            place.entry.number + length walk.old.rest.now) }
        ensures searched { IfOk result (λ p. (calls : List Argument) →
            TableRepresents symbols.now calls → SearchesOn symbols.now calls mode name.now
            self.old place.entry walk.old self.new p walk.new) }
    {
        let until = clear_until(symbols, walk, place.until);
        let maximum = passable_len(place, walk, until);
        match walk.next_within(mode, maximum, masked) {
            Stretch::Texts(bytes) => Ok(Place {
                number: place.number + self.listing.lines_in(bytes),
                begun: None,
                until,
            }),
            Stretch::TooLong(_) => {
                Ok(self.end_line(name, symbols, false, Place { until, ..place })?)
            }
            Stretch::Fitting(line, scan) => {
                let after = &mut self.after;
                let begun = take_line(place.begun, &scan, &line, place.number, symbols, after)?;
                let place = Place {
                    begun,
                    until,
                    ..place
                };
                Ok(self.end_line(name, symbols, scan.joins_after, place)?)
            }
        }
    }

    /// Searches a text.
    ///
    /// # Errors
    /// Fails if memory runs out.
    pub(crate) fn search(
        &mut self,
        name: &[u8],
        text: &[u8],
        mode: Mode,
        symbols: &Symbols,
    ) -> Result<(), AllocError>
        ensures grows { AppendsSome self.old.list.items self.new.list.items }
        ensures listing { self.new.listing ≡ self.old.listing }
        ensures added { OnOk result ((calls : List Argument) → TableRepresents symbols.now calls →
            Appends symbols.now calls name.now (mentions_of calls mode text.now) self.old self.new) }
    {
        if !may_name(symbols, text) {
            return Ok(());
        }
        let mut masked = LineStore::new(*self.list.allocator())?;
        let mut walk = Walk::new(text);
        let mut place = Place {
            number: 1,
            begun: None,
            until: text.len(),
        };
        while !walk.is_at_end() {
            place = self.search_lines(name, mode, symbols, &mut walk, &mut masked, place)?;
        }
        self.end(name, symbols, place.begun)?;
        Ok(())
    }
}

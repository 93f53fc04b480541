//! The table of symbols.
//!
//! Each name has one row. The rows are sorted by the names' keys, which are numbers, then by name.
//! A binary search finds a name, and a later call for a name changes its row.
//! Memory is taken before anything changes, so a failed call leaves the table as it was.
//!
//! The names that a value leads to are followed at each operand. Rejected: a cache of where each
//! chain of names ends, for long chains that no command line has.

ghost use Rattle.std.specs.Prelude.{◌≡◌, ◌++◌, ◌∷◌, [], List, option_map, OnOk, OnErr, IfOk, IfErr};
ghost use Rattle.std.specs.Prelude.{IsErrOf, Some, None, ◌↔◌, false, true, length, bytes_eq, ◌<◌};
ghost use Rattle.std.specs.Prelude.{◌+◌, IfSome, IfNone, set};
ghost use Rattle.std.specs.List.{insert};
ghost use Rattle.ud_model.specs.conditions.Table.{Argument, entry_in};
ghost use Rattle.ud_model.specs.answer.SymbolArguments as names;
ghost use Rattle.ud_model.specs.conditions.Symbols as ends;
ghost use Rattle.ud_cond.specs.symbols.Keys as spec;
ghost use Rattle.ud_cond.specs.symbols.Marks as marked;
ghost use Rattle.ud_cond.specs.symbols.SymbolTable.{TableRepresents, SetsEntry, name_cmp};
ghost use Rattle.ud_cond.specs.symbols.SymbolTable.{same_key_cmp, IsRowOf, IsGapFor, AreSorted};
ghost use Rattle.ud_cond.specs.symbols.SymbolTable.{LacksNames, MustSearch};
ghost use Rattle.ud_cond.specs.CondViews.{as_entry, argument_for};

use keys::key_of;
use memchr::memmem;
use name_filter::NameFilter;
use std::alloc::{AllocError, Global};
use std::cmp::Ordering;
use std::marker::Model;
use ud_model::bytes::{is_identifier, is_name};

mod fault;
mod keys;
mod marks;
mod name_filter;

pub use fault::SymbolFault;

/// The most names for which `may_stand_in` searches. Each search of a text costs a fifth of what
/// reading its directives does.
const FEW_NAMES: usize = 4;

/// The entry of a name: how it is defined, and whether its sections are plain text.
#[derive(Clone, Copy, Debug, PartialEq, Eq)]
pub struct Entry<'a> {
    /// The value of the name; `None` if the name is undefined.
    pub value: Option<&'a [u8]>,
    /// `true` if the sections that the name controls are plain text.
    pub ignoring: bool,
}

/// A name and its entry.
#[derive(Drop)]
struct Named {
    /// The name.
    symbol: Vec<u8>,
    /// The value of the name; `None` if the name is undefined.
    text: Option<Vec<u8>>,
    /// `true` if the sections that the name controls are plain text.
    ignores: bool,
}

/// A row of a table: a name and its entry. Inserting one moves others, so rows are small.
#[derive(Drop)]
pub struct SymbolRow {
    /// The key of the name.
    number: u64,
    /// The name and its entry.
    named: Box<Named>,
}

impl Model for SymbolRow {
    ghost use Rattle.std.specs.Prelude.{◌≡◌, option_map};
    ghost use Rattle.ud_model.specs.conditions.Table.{Argument};
    ghost use Rattle.ud_cond.specs.CondViews.{argument_for};
    ghost use Rattle.ud_cond.specs.symbols.Keys.{key_of};

    ghost Value = { Argument };

    ghost view = { λ r. argument_for r.named.value.symbol.items
        (option_map (λ v. v.items) r.named.value.text) r.named.value.ignores };

    ghost invariant = { λ r. r.number ≡ key_of r.named.value.symbol.items };
}

impl SymbolRow {
    /// Returns the row of `name`, which is defined as `value`, or undefined if `value` is `None`.
    /// The name isn't checked.
    ///
    /// If `ignores`, the sections that `name` controls are plain text.
    ///
    /// # Errors
    /// Fails if memory runs out.
    pub fn of(
        alloc: Global,
        name: &[u8],
        value: Option<&[u8]>,
        ignores: bool,
    ) -> Result<SymbolRow, AllocError>
        ensures { IfOk result (λ r. r ≡ argument_for name.now
            (option_map (λ v. v.now) value.entry) ignores) }
    {
        let text = try_clone(alloc, value)?;
        let symbol = Vec::from_slice(alloc, name)?;
        let named = Named {
            symbol,
            text,
            ignores,
        };
        Ok(SymbolRow {
            number: key_of(name),
            named: Box::new(alloc, named)?,
        })
    }

    /// Returns the key of the row's name.
    fn key(&self) -> u64
        ensures { result ≡ spec.key_of self.now.name }
    {
        self.number
    }

    /// Returns the row's name.
    fn name(&self) -> &[u8]
        ensures { result.now ≡ self.now.name }
    {
        self.named.symbol.as_slice()
    }

    /// Returns whether the row is for `name`.
    fn has_name(&self, name: &[u8]) -> bool
        ensures { result ≡ bytes_eq self.now.name name.now }
    {
        self.named.symbol.as_slice() == name
    }

    /// Compares the row's name with `name`, whose key is `key`.
    fn compare(&self, key: u64, name: &[u8]) -> Ordering
        requires { key ≡ spec.key_of name.now }
        ensures { result ≡ name_cmp self.now.name name.now }
    {
        match self.number.cmp(&key) {
            Ordering::Equal => self.compare_same_key(name),
            other => other,
        }
    }

    /// Compares the row's name with another row's.
    fn compare_row(&self, other: &SymbolRow) -> Ordering
        ensures { result ≡ name_cmp self.now.name other.now.name }
    {
        self.compare(other.number, other.named.symbol.as_slice())
    }

    /// Compares the row's name with a name that has the same key.
    fn compare_same_key(&self, name: &[u8]) -> Ordering
        ensures { result ≡ same_key_cmp self.now.name name.now }
    {
        match self.named.symbol.len().cmp(&name.len()) {
            Ordering::Equal => self.named.symbol.as_slice().cmp(&name),
            other => other,
        }
    }

    /// Returns the entry of the row's name.
    fn entry(&self) -> Entry<'_>
        ensures { as_entry result ≡ self.now.entry }
    {
        Entry {
            value: match &self.named.text {
                Some(text) => Some(text.as_slice()),
                None => None,
            },
            ignoring: self.named.ignores,
        }
    }
}

/// The table of symbols. Of several calls for a name, the last one counts (unifdef(1)).
#[derive(Drop)]
pub struct Symbols {
    /// The allocator that memory comes from.
    alloc: Global,
    /// The rows, one for each name, sorted by key, then by length, then by bytes.
    rows: Vec<SymbolRow>,
    /// The filter of the rows' names.
    filter: NameFilter,
}

impl Model for Symbols {
    ghost use Rattle.std.specs.Prelude.{List};
    ghost use Rattle.ud_model.specs.conditions.Table.{Argument};
    ghost use Rattle.ud_cond.specs.symbols.SymbolTable.{AreSorted};
    ghost use Rattle.ud_cond.specs.symbols.NameFilters.{AllNames, has_slot};

    ghost Value = { List Argument };

    ghost view = { λ s. s.rows.items };

    ghost invariant = { λ s. AreSorted s.rows.items ×
        AllNames (has_slot s.filter.words) s.rows.items };
}

impl Symbols {
    /// Returns an empty table. Takes no memory; later calls take theirs from `alloc`.
    pub fn new(alloc: Global) -> Symbols
        ensures value { result ≡ [] }
        ensures represents { TableRepresents result [] }
    {
        Symbols {
            alloc,
            rows: Vec::new(alloc),
            filter: NameFilter::new(),
        }
    }

    /// Returns the table of these rows. Of several rows for a name, the last one counts.
    ///
    /// The rows are sorted first, so that each is appended, whatever their order.
    ///
    /// # Errors
    /// Fails if memory runs out; never without any row.
    pub fn from_rows(alloc: Global, rows: Vec<SymbolRow>) -> Result<Symbols, AllocError>
        ensures ok { IfOk result (λ table. TableRepresents table rows.items) }
        ensures err { OnErr result (rows.items ≡ [] → ⊥) }
    {
        let mut symbols = Symbols::new(alloc);
        if rows.is_empty() {
            return Ok(symbols);
        }
        'rows: for row in sorted(rows)? {
            symbols.add(row)?;
        }
        Ok(symbols)
    }

    /// Defines `name` as `value`, which may be empty. If a byte 255 precedes the constant in
    /// `value`, the symbol may be any number from that constant on.
    ///
    /// If `ignoring`, the sections that `name` controls are plain text.
    ///
    /// # Errors
    /// First `BadName` if `name` isn't an identifier or is `defined` (C11 6.10.8p4), before memory
    /// is taken. Then `OutOfMemory` if an allocation fails. The table stays as it was.
    pub fn define(&mut self, name: &[u8], value: &[u8], ignoring: bool) -> Result<(), SymbolFault>
        ensures ok { OnOk result
            (SetsEntry self.old self.new
            (argument_for name.now (Some value.now) ignoring)) }
        ensures represents { OnOk result ((calls : List Argument) → TableRepresents self.old calls →
            TableRepresents self.new (calls ++ argument_for name.now (Some value.now) ignoring ∷
            [])) }
        ensures err { OnErr result (self.new ≡ self.old) }
        ensures bad { IsErrOf result SymbolFault.BadName ↔ names.is_name name.now ≡ false }
    {
        self.update(name, Some(value), ignoring)
    }

    /// Undefines `name`.
    ///
    /// If `ignoring`, the sections that `name` controls are plain text.
    ///
    /// # Errors
    /// First `BadName` if `name` isn't an identifier or is `defined` (C11 6.10.8p4), before memory
    /// is taken. Then `OutOfMemory` if an allocation fails. The table stays as it was.
    pub fn undefine(&mut self, name: &[u8], ignoring: bool) -> Result<(), SymbolFault>
        ensures ok { OnOk result
            (SetsEntry self.old self.new (argument_for name.now None ignoring)) }
        ensures represents { OnOk result ((calls : List Argument) → TableRepresents self.old calls →
            TableRepresents self.new (calls ++ argument_for name.now None ignoring ∷ [])) }
        ensures err { OnErr result (self.new ≡ self.old) }
        ensures bad { IsErrOf result SymbolFault.BadName ↔ names.is_name name.now ≡ false }
    {
        self.update(name, None, ignoring)
    }

    /// Returns the entry that the last accepted call for `name` set, or `None` if no call named it.
    #[inline(always)]
    pub fn find(&self, name: &[u8]) -> Option<Entry<'_>>
        ensures value { option_map as_entry result ≡ entry_in self.now name.now }
        ensures represents { (calls : List Argument) → TableRepresents self.now calls →
            option_map as_entry result ≡ entry_in calls name.now }
    {
        let i = self.row_of(name)?;
        Some(self.rows[i].entry())
    }

    /// Returns the position of the row of `name`, or `None` if it has none.
    #[inline(always)]
    fn row_of(&self, name: &[u8]) -> Option<usize>
        ensures found { IfSome result (λ i. IsRowOf self.now i name.now) }
        ensures first { IfSome result (λ i. i ≡ marked.row_of self.now name.now) }
        ensures absent { IfNone result (entry_in self.now name.now ≡ None) }
        ensures sorted { AreSorted self.now }
    {
        let key = key_of(name);
        if !self.filter.may_contain(key) {
            return None;
        }
        match self.binary_search(key, name) {
            Ok(i) => Some(i),
            Err(_) => None,
        }
    }

    /// Returns whether a name that has an entry may stand in a text; `false` only if none does, not
    /// even within a word.
    ///
    /// Searches the text for each name. With more than `FEW_NAMES` names, the result is `true`.
    pub fn may_stand_in(&self, text: &[u8]) -> bool
        ensures lacks { (calls : List Argument) → TableRepresents self.now calls →
            result ≡ false → LacksNames calls text.now }
        ensures must { result ≡ true → MustSearch self.now text.now }
    {
        if self.rows.len() > FEW_NAMES {
            return true;
        }
        for i in 0..self.rows.len() {
            if let Some(_) = memmem::find(text, self.rows[i].name()) {
                return true;
            }
        }
        false
    }

    /// Returns the number of rows.
    fn count(&self) -> usize
        ensures { result ≡ length self.now }
    {
        self.rows.len()
    }

    /// Returns the text that `name` is defined as.
    fn defined_text(&self, name: &[u8]) -> Option<&[u8]>
        ensures { option_map (λ v. v.now) result ≡ ends.defined_text self.now name.now }
    {
        self.find(name)?.value
    }

    /// Resolves `name`: follows it from name to name to the first text that is no identifier.
    ///
    /// Returns `None` if a name on the path isn't defined, or if the path has more steps than there
    /// are rows: it is then a cycle.
    pub(crate) fn resolve<'a>(&'a self, name: &'a [u8]) -> Option<&'a [u8]>
        ensures { option_map (λ v. v.now) result ≡ ends.resolve self.now name.now }
    {
        let mut at = name;
        let maximum = self.count();
        'steps: for _ in 0..maximum {
            let text = self.defined_text(at)?;
            if !is_identifier(text) {
                return Some(text);
            }
            at = text;
        }
        None
    }

    /// Returns the position of the row of `name`, whose key is `key`, or the position to insert it
    /// at. Most names have a key of their own.
    #[inline(never)]
    fn binary_search(&self, key: u64, name: &[u8]) -> Result<usize, usize>
        requires keyed { key ≡ spec.key_of name.now }
        ensures found { IfOk result (λ i. IsRowOf self.now i name.now) }
        ensures absent { IfErr result (λ i. IsGapFor self.now i name.now) }
        ensures sorted { AreSorted self.now }
    {
        match self.rows.binary_search_by_key(&key, |row| row.key()) {
            Err(i) => Err(i),
            Ok(i) => {
                if self.rows[i].has_name(name) {
                    return Ok(i);
                }
                self.binary_search_same_key(key, name)
            }
        }
    }

    /// Finds the position as `binary_search` does, if rows of other names have the same key.
    #[inline(never)]
    fn binary_search_same_key(&self, key: u64, name: &[u8]) -> Result<usize, usize>
        requires keyed { key ≡ spec.key_of name.now }
        ensures found { IfOk result (λ i. IsRowOf self.now i name.now) }
        ensures absent { IfErr result (λ i. IsGapFor self.now i name.now) }
    {
        self.rows.binary_search_by(|row| row.compare(key, name))
    }

    /// Defines `name` as `value`, or undefines it if `value` is `None`.
    fn update(
        &mut self,
        name: &[u8],
        value: Option<&[u8]>,
        ignoring: bool,
    ) -> Result<(), SymbolFault>
        ensures ok { OnOk result
            (SetsEntry self.old self.new
            (argument_for name.now (option_map (λ v. v.now) value.entry) ignoring)) }
        ensures err { OnErr result (self.new ≡ self.old) }
        ensures bad { IsErrOf result SymbolFault.BadName ↔ names.is_name name.now ≡ false }
    {
        if !is_name(name) {
            return Err(SymbolFault::BadName);
        }
        let row = SymbolRow::of(self.alloc, name, value, ignoring)?;
        Ok(self.add(row)?)
    }

    /// Replaces the row of the same name, or inserts the row.
    fn add(&mut self, row: SymbolRow) -> Result<(), AllocError>
        ensures ok { OnOk result (SetsEntry self.old self.new row) }
        ensures err { OnErr result (self.new ≡ self.old) }
    {
        let key = row.key();
        match self.binary_search(key, row.name()) {
            Ok(i) => {
                self.replace_at(i, row);
                Ok(())
            }
            Err(i) => self.insert_at(i, key, row),
        }
    }

    /// Replaces the row of a name.
    fn replace_at(&mut self, i: usize, row: SymbolRow)
        requires row { IsRowOf self.old i row.name }
        ensures { self.new ≡ set self.old i row }
    {
        self.rows[i] = row;
    }

    /// Inserts a row at the position of its name.
    fn insert_at(&mut self, i: usize, key: u64, row: SymbolRow) -> Result<(), AllocError>
        requires gap { IsGapFor self.old i row.name }
        requires keyed { key ≡ spec.key_of row.name }
        ensures ok { OnOk result (self.new ≡ insert self.old i row) }
        ensures err { OnErr result (self.new ≡ self.old) }
    {
        self.filter.insert(key);
        let added = self.rows.insert(i, row);
        added.map_err(|_| AllocError)
    }
}

/// Copies a value into memory of its own.
fn try_clone(alloc: Global, value: Option<&[u8]>) -> Result<Option<Vec<u8>>, AllocError>
    ensures { IfOk result (λ c. option_map (λ v. v.items) c ≡
        option_map (λ v. v.now) value.entry) }
{
    match value {
        Some(bytes) => Ok(Some(Vec::from_slice(alloc, bytes)?)),
        None => Ok(None),
    }
}

/// Sorts rows by name. Rows of the same name keep their order.
///
/// # Errors
/// Fails if memory runs out.
fn sorted(rows: Vec<SymbolRow>) -> Result<Vec<SymbolRow>, AllocError>
    ensures { IfOk result (λ sorted. TableRepresents sorted.items rows.items) }
{
    let mut rows = rows;
    rows.sort_by(|a, b| a.compare_row(b))?;
    Ok(rows)
}

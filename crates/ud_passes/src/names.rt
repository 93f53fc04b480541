//! The names that the conditions of files depend on, and the conditions that can't be listed in
//! full.
//!
//! `Names` keeps the files' lists of names, and appends a table of how often each name occurs.
//! `specs/names/NameTables.antt` defines that table, and `UnlistedConditions.antt` which conditions
//! of a text can't be listed in full. `RowViews.antt` and `UnlistedLines.antt` define what the code
//! keeps of the rows, and of a text up to some line.

ghost use Rattle.std.specs.Prelude.{◌≡◌, ◌+◌, ◌<◌, ◌^◌, ◌++◌, [], length, is_ok, IfOk, OnOk, OnErr};
ghost use Rattle.std.specs.Prelude.{if◌then◌else◌};
ghost use Rattle.ud_passes.specs.names.NameTables.{names_in, Tabulates};
ghost use Rattle.ud_passes.specs.names.UnlistedConditions.{unlisted_in, unlisted_text};
ghost use Rattle.ud_passes.specs.Passes.{AppendsSome};

use std::alloc::{AllocError, Global};
use tables::append_table;
use texts::File;
use ud_model::Mode;

mod conditions;
mod tables;
mod texts;

/// The names of some files, and their conditions that can't be listed in full.
#[derive(Drop)]
pub struct Names {
    alloc: Global,
    /// The files' lists of names, each name a line.
    list: Vec<u8>,
    /// The number of conditions that can't be listed in full.
    hidden: usize,
    /// True if these conditions are listed, not only counted.
    lists_hidden: bool,
    /// A line for each of them: the file, the line's number, and the line.
    hidden_list: Vec<u8>,
}

impl Names {
    /// Returns no names. `lists_hidden`: the conditions that can't be listed in full get a list of
    /// their own. Takes no memory; later calls take theirs from `alloc`.
    pub fn new(alloc: Global, lists_hidden: bool) -> Names
        ensures list { result.list.items ≡ [] }
        ensures hidden { result.hidden ≡ 0 }
        ensures lists { result.lists_hidden ≡ lists_hidden }
        ensures hidden_list { result.hidden_list.items ≡ [] }
    {
        Names {
            alloc,
            list: Vec::new(alloc),
            hidden: 0,
            lists_hidden,
            hidden_list: Vec::new(alloc),
        }
    }

    /// Returns the number of conditions that can't be listed in full.
    pub fn hidden(&self) -> usize
        ensures { result ≡ self.now.hidden }
    {
        self.hidden
    }

    /// Returns a line for each of them: the file, the line's number, and the line.
    pub fn hidden_list(&self) -> &[u8]
        ensures { result.now ≡ self.now.hidden_list.items }
    {
        self.hidden_list.as_slice()
    }

    /// Adds the list of a file's names, each a line.
    ///
    /// # Errors
    /// Fails if memory runs out. Then nothing was added.
    pub fn add(&mut self, list: &[u8]) -> Result<(), AllocError>
        ensures list { self.new.list.items ≡
            (if is_ok result then self.old.list.items ++ list.now else self.old.list.items) }
        ensures hidden { self.new.hidden ≡ self.old.hidden }
        ensures lists { self.new.lists_hidden ≡ self.old.lists_hidden }
        ensures hidden_list { self.new.hidden_list.items ≡ self.old.hidden_list.items }
    {
        self.list.extend_from_slice(list)
    }

    /// Adds the conditions of a file's text that can't be listed in full. Its lines are read in
    /// `mode`. If the text is `folded`, a condition is listed by the first of the lines that its
    /// line represents.
    ///
    /// The text may have any length and any bytes. The count stops at the largest `usize`.
    ///
    /// # Errors
    /// Fails if memory runs out. Then nothing was added.
    pub fn add_hidden(
        &mut self,
        file: &[u8],
        text: &[u8],
        mode: Mode,
        folded: bool,
    ) -> Result<(), AllocError>
        ensures list { self.new.list.items ≡ self.old.list.items }
        ensures hidden { OnOk result
            (self.old.hidden + length (unlisted_in mode text.now) < 2 ^ 64 →
            self.new.hidden ≡ self.old.hidden + length (unlisted_in mode text.now)) }
        ensures lists { self.new.lists_hidden ≡ self.old.lists_hidden }
        ensures hidden_list { OnOk result
            (self.new.hidden_list.items ≡ self.old.hidden_list.items ++
            (if self.old.lists_hidden then unlisted_text file.now mode folded text.now
            else [])) }
        ensures unchanged { OnErr result ((self.new.hidden ≡ self.old.hidden) ×
            (self.new.hidden_list.items ≡ self.old.hidden_list.items)) }
    {
        let file = File {
            name: file,
            mode,
            lists: self.lists_hidden,
            folded,
        };
        let count = list_unlisted(self.alloc, file, text, &mut self.hidden_list)?;
        self.hidden = self.hidden.saturating_add(count);
        Ok(())
    }

    /// Appends a table of the names: a line for each name, most used first, with its count in 7
    /// columns. Names with the same count ascend by their bytes.
    ///
    /// # Errors
    /// Fails if memory runs out. Part of the table may have been appended.
    pub fn append_to(&self, out: &mut Vec<u8>) -> Result<(), AllocError>
        ensures grows { AppendsSome out.old.items out.new.items }
        ensures table { OnOk result
            (Tabulates (names_in self.now.list.items) out.old.items out.new.items) }
    {
        append_table(self.alloc, self.list.as_slice(), out)
    }
}

/// Counts the conditions of a text that can't be listed in full. Appends a line for each, if they
/// are listed.
///
/// # Errors
/// Fails if memory runs out. Then nothing was appended.
fn list_unlisted(
    alloc: Global,
    file: File<'_>,
    text: &[u8],
    list: &mut Vec<u8>,
) -> Result<usize, AllocError>
    ensures count { IfOk result (λ n. n ≡ length (unlisted_in file.entry.mode text.now)) }
    ensures list { list.new.items ≡ (if is_ok result then list.old.items ++
        (if file.entry.lists then unlisted_text file.entry.name.now file.entry.mode
        file.entry.folded text.now else [])
        else list.old.items) }
{
    let before = list.len();
    let result = file.append_unlisted(alloc, text, list);
    if result.is_err() {
        list.truncate(before);
    }
    result
}

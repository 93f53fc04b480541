//! Marks of rows: one for each row of a table, set or not.

ghost use Rattle.std.specs.Prelude.{◌≡◌, ℕ, List, IfOk, bytes_eq};
ghost use Rattle.ud_model.specs.conditions.Conditions.{is_listed};
ghost use Rattle.ud_cond.specs.symbols.Marks.{Unmarks, is_marked};

use crate::symbols::Symbols;
use std::alloc::AllocError;

impl Symbols {
    /// Returns the marks of all rows, all set.
    ///
    /// # Errors
    /// Fails if memory runs out.
    pub fn all_marked(&self) -> Result<Vec<bool>, AllocError>
        ensures { IfOk result (λ marks. (name : List ℕ) →
            is_marked self.now marks.items name ≡ is_listed self.now name) }
    {
        let mut marks = Vec::new(self.alloc);
        marks.resize(self.rows.len(), true)?;
        Ok(marks)
    }

    /// Returns whether `name` has a row whose mark is set.
    pub fn is_marked(&self, name: &[u8], marks: &[bool]) -> bool
        ensures { result ≡ is_marked self.now marks.now name.now }
    {
        match self.row_of(name) {
            Some(row) => row < marks.len() && marks[row],
            None => false,
        }
    }

    /// Takes away the mark of the row of `name`, if there is one.
    pub fn unmark(&self, name: &[u8], marks: &mut Vec<bool>)
        ensures { Unmarks self.now (λ n. bytes_eq n name.now) marks.old.items marks.new.items }
    {
        let Some(row) = self.row_of(name) else {
            return;
        };
        if row < marks.len() {
            marks[row] = false;
        }
    }
}

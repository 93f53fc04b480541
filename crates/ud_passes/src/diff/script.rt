//! The lines of two texts with their signs.

ghost use Rattle.std.specs.Prelude.{OnOk, IfOk};
ghost use Rattle.ud_passes.specs.diff.Scripts.{signed_lines, IsScript};

use crate::diff::line::{DiffLine, Sign, first_line};
use std::alloc::{AllocError, Global};

/// The mark of a line that stays.
pub const SAME: u8 = b'=';

/// The mark of a line that another one replaces.
pub const EDITED: u8 = b'~';

/// The lines so far, and the rest of both texts.
#[derive(Drop)]
pub(crate) struct Script<'t> {
    lines: Vec<DiffLine<'t>>,
    old_rest: &'t [u8],
    new_rest: &'t [u8],
    /// The number of lines of the new text before the next line that stays.
    pending: usize,
}

impl<'t> Script<'t> {
    ghost use Rattle.std.specs.Prelude.{◌≡◌, ◌<◌, [], length};
    ghost use Rattle.ud_passes.specs.diff.Scripts.{Extends};

    /// Appends the next line of the old text, if any, as a removed one.
    fn remove_line(&mut self) -> Result<(), AllocError>
        ensures extends { OnOk result (Extends self.old self.new) }
        ensures less { 0 < length self.old.old_rest.now →
            OnOk result (length self.new.old_rest.now < length self.old.old_rest.now) }
    {
        let Some((bytes, rest)) = first_line(self.old_rest) else {
            return Ok(());
        };
        let sign = Sign::Removed;
        self.lines.push(DiffLine { sign, bytes })?;
        self.old_rest = rest;
        Ok(())
    }

    /// Appends the next line of the new text, if any, as an added one.
    fn add_line(&mut self) -> Result<(), AllocError>
        ensures extends { OnOk result (Extends self.old self.new) }
        ensures less { 0 < length self.old.new_rest.now →
            OnOk result (length self.new.new_rest.now < length self.old.new_rest.now) }
        ensures old { self.new.old_rest.now ≡ self.old.old_rest.now }
    {
        let Some((bytes, rest)) = first_line(self.new_rest) else {
            return Ok(());
        };
        let sign = Sign::Added;
        self.lines.push(DiffLine { sign, bytes })?;
        self.new_rest = rest;
        Ok(())
    }

    /// Appends the next line of both texts as a kept one, if it is the same. Returns whether it is.
    fn keep_line(&mut self) -> Result<bool, AllocError>
        ensures { OnOk result (Extends self.old self.new) }
    {
        let Some((bytes, old_rest)) = first_line(self.old_rest) else {
            return Ok(false);
        };
        let Some((new_bytes, new_rest)) = first_line(self.new_rest) else {
            return Ok(false);
        };
        if bytes != new_bytes {
            return Ok(false);
        }
        let sign = Sign::Kept;
        self.lines.push(DiffLine { sign, bytes })?;
        self.old_rest = old_rest;
        self.new_rest = new_rest;
        Ok(true)
    }

    /// Appends the pending lines as added ones.
    fn add_pending(&mut self) -> Result<(), AllocError>
        ensures { OnOk result (Extends self.old self.new) }
    {
        for _ in 0..self.pending {
            self.add_line()?;
        }
        self.pending = 0;
        Ok(())
    }

    /// Appends the next line of the old text by its mark, and the lines of the new text before a
    /// line that stays.
    fn advance(&mut self, mark: u8) -> Result<(), AllocError>
        ensures { OnOk result (Extends self.old self.new) }
    {
        if mark == SAME {
            self.add_pending()?;
            if self.keep_line()? {
                return Ok(());
            }
        }
        if mark == SAME || mark == EDITED {
            self.pending = self.pending.saturating_add(1);
        }
        self.remove_line()
    }

    /// Appends the rest of both texts, as removed and added lines.
    fn finish(&mut self) -> Result<(), AllocError>
        ensures extends { OnOk result (Extends self.old self.new) }
        ensures old { OnOk result (self.new.old_rest.now ≡ []) }
        ensures new { OnOk result (self.new.new_rest.now ≡ []) }
    {
        while !self.old_rest.is_empty() {
            self.remove_line()?;
        }
        while !self.new_rest.is_empty() {
            self.add_line()?;
        }
        Ok(())
    }
}

/// Returns the lines of two texts with their signs. There is a mark for each line of the old text.
pub(crate) fn script_of<'t>(
    alloc: Global,
    old: &'t [u8],
    new: &'t [u8],
    marks: &[u8],
) -> Result<Vec<DiffLine<'t>>, AllocError>
    ensures { IfOk result (λ lines. IsScript old.now new.now (signed_lines lines.items)) }
{
    let mut script = Script {
        lines: Vec::new(alloc),
        old_rest: old,
        new_rest: new,
        pending: 0,
    };
    for mark in marks {
        script.advance(*mark)?;
    }
    script.finish()?;
    let Script { lines, .. } = script;
    Ok(lines)
}

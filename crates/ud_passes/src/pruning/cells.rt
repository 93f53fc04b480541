//! The text of a condition, with its masked form.
//!
//! Both are kept side by side. Each byte of a comment is shown as a space.

ghost use Rattle.std.specs.Prelude.{◌≡◌, ◌++◌, List, [], take, drop, OnOk, if◌then◌else◌};
ghost use Rattle.ud_model.specs.text.Lexemes.{Cell};
ghost use Rattle.ud_passes.specs.pruning.Cells.{AreCells};

use std::alloc::{AllocError, Global};

/// Bytes of a condition's text, and their masked form.
#[derive(Clone, Copy)]
pub(crate) struct CellBytes<'a> {
    /// The bytes.
    pub(crate) bytes: &'a [u8],
    /// The bytes with a space for each byte of a comment.
    pub(crate) shown: &'a [u8],
}

/// The rest of a condition's text.
#[derive(Drop)]
pub(crate) struct LeftText {
    /// Its bytes.
    pub(crate) bytes: Vec<u8>,
    /// Its bytes with a space for each byte of a comment.
    pub(crate) shown: Vec<u8>,
}

/// Splits bytes after the first `count`, or at their end if there are fewer.
pub(crate) fn split_bytes(bytes: &[u8], count: usize) -> (&[u8], &[u8])
    ensures front { result.0.now ≡ take count bytes.now }
    ensures back { result.1.now ≡ drop count bytes.now }
{
    if count <= bytes.len() {
        bytes.split_at(count)
    } else {
        (bytes, &[])
    }
}

impl<'a> CellBytes<'a> {
    /// Returns no bytes.
    pub(crate) fn none() -> CellBytes<'a>
        ensures { AreCells [] result.bytes.now result.shown.now }
    {
        CellBytes {
            bytes: &[],
            shown: &[],
        }
    }

    /// Splits the bytes after the first `count`, or at their end if there are fewer.
    pub(crate) fn split_at(self, count: usize) -> (CellBytes<'a>, CellBytes<'a>)
        ensures front { (cells : List Cell) →
            AreCells cells self.entry.bytes.now self.entry.shown.now →
            AreCells (take count cells) result.0.bytes.now result.0.shown.now }
        ensures back { (cells : List Cell) →
            AreCells cells self.entry.bytes.now self.entry.shown.now →
            AreCells (drop count cells) result.1.bytes.now result.1.shown.now }
        ensures front_bytes { result.0.bytes.now ≡ take count self.entry.bytes.now }
        ensures back_bytes { result.1.bytes.now ≡ drop count self.entry.bytes.now }
        ensures front_shown { result.0.shown.now ≡ take count self.entry.shown.now }
        ensures back_shown { result.1.shown.now ≡ drop count self.entry.shown.now }
    {
        let (bytes, more_bytes) = split_bytes(self.bytes, count);
        let (shown, more_shown) = split_bytes(self.shown, count);
        let front = CellBytes { bytes, shown };
        let back = CellBytes {
            bytes: more_bytes,
            shown: more_shown,
        };
        (front, back)
    }
}

impl LeftText {
    /// Returns an empty text.
    pub(crate) fn new(alloc: Global) -> LeftText
        ensures bytes { result.bytes.items ≡ [] }
        ensures shown { result.shown.items ≡ [] }
    {
        LeftText {
            bytes: Vec::new(alloc),
            shown: Vec::new(alloc),
        }
    }

    /// Removes all bytes.
    pub(crate) fn clear(&mut self)
        ensures bytes { self.new.bytes.items ≡ [] }
        ensures shown { self.new.shown.items ≡ [] }
    {
        self.bytes.clear();
        self.shown.clear();
    }

    /// Appends a part of a text if it stays.
    ///
    /// # Errors
    /// Fails if memory runs out.
    pub(crate) fn append_if(&mut self, stays: bool, part: CellBytes<'_>) -> Result<(), AllocError>
        ensures bytes { OnOk result (self.new.bytes.items ≡ self.old.bytes.items ++
            (if stays then part.entry.bytes.now else [])) }
        ensures shown { OnOk result (self.new.shown.items ≡ self.old.shown.items ++
            (if stays then part.entry.shown.now else [])) }
    {
        if stays {
            self.bytes.extend_from_slice(part.bytes)?;
            self.shown.extend_from_slice(part.shown)?;
        }
        Ok(())
    }
}

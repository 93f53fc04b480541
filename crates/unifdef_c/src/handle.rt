//! What C keeps for a stream: a pointer that owns it, or null.
//!
//! The output for one chunk may be longer than any buffer of the caller, so it waits here until it
//! is taken. Rejected: a table of numbered streams, which needs a lock; refusing a chunk as long as
//! output is left.

ghost use Rattle.std.specs.Prelude.{◌≡◌, Option, None, Some, MatchOption};
ghost use Rattle.unifdef_c.specs.declared.stream.Stream.{Stream as Streamed};
ghost use Rattle.unifdef_c.specs.Handles.{handle_owns, stream_coded};

use crate::raw_box::RawBox;
use crate::stream::Stream;
use std::alloc::Global;
use std::marker::Model;
use std::mem;
use std::ptr::null_mut;

/// A stream, or none if it is closed. In C this is a struct with one pointer, then null.
#[repr(C)]
pub struct Handle {
    at: *mut u8,
    alloc: Global,
    /// The stream, if it is open.
    pub ghost stream: { Option Streamed } by { stream_coded },
}

impl Model for Handle {
    ghost also_owns = { λ h. handle_owns h.alloc h.at h.stream };
}

impl Handle {
    /// Returns a closed handle.
    pub(crate) fn closed(alloc: Global) -> Handle
        ensures { result.stream ≡ None }
    {
        Handle {
            at: null_mut(),
            alloc,
        }
    }

    /// Returns the handle of a stream.
    pub(crate) fn of(owner: Box<Stream>) -> Handle
        ensures { result.stream ≡ Some owner.value }
    {
        Handle::from_raw(RawBox::of(owner))
    }

    /// Returns the stream, if the handle is open, and closes it.
    pub(crate) fn take(&mut self, alloc: Global) -> Option<Box<Stream>>
        ensures taken { MatchOption result (self.old.stream ≡ None)
            (λ owner. self.old.stream ≡ Some owner.value) }
        ensures closed { self.new.stream ≡ None }
    {
        match mem::replace(self, Handle::closed(alloc)).into_raw() {
            None => None,
            Some(raw) => Some(raw.into_box()),
        }
    }

    /// Returns the handle of a stream.
    fn from_raw(raw: RawBox<Stream, Global>) -> Handle
        ensures { result.stream ≡ Some raw.value }
    {
        let RawBox { ptr, alloc } = raw;
        Handle {
            at: ptr as *mut u8,
            alloc,
        }
    }

    /// Returns the stream, if it is open.
    fn into_raw(self) -> Option<RawBox<Stream, Global>>
        ensures { MatchOption result (self.stream ≡ None) (λ p. self.stream ≡ Some p.value) }
    {
        let Handle { at, alloc } = self;
        if at.is_null() {
            None
        } else {
            Some(RawBox {
                ptr: at as *mut Stream,
                alloc,
            })
        }
    }
}

impl Drop for Handle {
    fn drop(self) {
        match self.into_raw() {
            None => {}
            Some(raw) => drop(raw.into_box()),
        }
    }
}

// Its stream and its memory may be used and freed by any thread.
unsafe impl Send for Handle {}

//! A handle of an opened range. What owns memory can't be passed to C, so its box is passed as a pointer.

ghost use Rattle.std.specs.Prelude.{◌≡◌, ◌≢◌, ◌⊎◌, Option, Some, None, option_map};
ghost use Rattle.range_proof.specs.RangeProof.{Proof};
ghost use Rattle.yurewha_c.specs.Owned.{owns_opened_range, opened_range_code};

use crate::parts::Parts;
use crate::status::{DONE, MEMORY};
use range_proof::OpenedRange;
use std::alloc::Global;
use std::marker::Model;
use std::mem::replace;
use std::ptr::null_mut;

/// A handle of an opened range, or an empty handle, which is a null pointer in C.
#[repr(C)]
pub struct OpenedRangeHandle {
    at: *mut u8,
    alloc: Global,
    // What the handle owns.
    pub ghost value: { Option Proof } by { opened_range_code },
}

impl Model for OpenedRangeHandle {
    ghost also_owns = { λ handle. owns_opened_range handle.alloc handle.at handle.value };
}

impl OpenedRangeHandle {
    // Returns an empty handle.
    fn empty(alloc: Global) -> OpenedRangeHandle
        ensures { result.value ≡ None }
    {
        OpenedRangeHandle {
            at: null_mut(),
            alloc,
        }
    }

    // Makes the handle of what a box owned.
    fn of_parts(parts: Parts<OpenedRange, Global>) -> OpenedRangeHandle
        ensures { result.value ≡ Some parts.value }
    {
        let Parts { ptr, alloc } = parts;
        OpenedRangeHandle {
            at: ptr as *mut u8,
            alloc,
        }
    }

    // Returns the parts of the box, if there is one.
    fn into_parts(self) -> Option<Parts<OpenedRange, Global>>
        ensures { option_map (λ parts. parts.value) result ≡ self.value }
    {
        let OpenedRangeHandle { at, alloc } = self;
        if at.is_null() {
            None
        } else {
            Some(Parts {
                ptr: at as *mut OpenedRange,
                alloc,
            })
        }
    }

    // Takes the opened range out, and leaves the handle empty.
    pub(crate) fn take(&mut self, alloc: Global) -> Option<Box<OpenedRange>>
        ensures value { option_map (λ range. range.value) result ≡ self.old.value }
        ensures empty { self.new.value ≡ None }
    {
        match replace(self, OpenedRangeHandle::empty(alloc)).into_parts() {
            Some(parts) => Some(parts.into_box()),
            None => None,
        }
    }

    // Puts an opened range in. It frees what the handle owned.
    pub(crate) fn put(&mut self, range: Box<OpenedRange>)
        ensures { self.new.value ≡ Some range.value }
    {
        let new = OpenedRangeHandle::of_parts(Parts::of(range));
        if let Some(old) = replace(self, new).into_parts() {
            drop(old.into_box());
        }
    }

    // Puts an opened range in, in a box of its own, and returns `DONE`. If the allocation of the box fails, it changes
    // nothing and returns `MEMORY`.
    pub(crate) fn hold(&mut self, alloc: Global, range: OpenedRange) -> u32
        ensures statuses { (result ≡ DONE) ⊎ (result ≡ MEMORY) }
        ensures done { result ≡ DONE → self.new.value ≡ Some range }
        ensures unchanged { result ≢ DONE → self.new.value ≡ self.old.value }
    {
        match Box::new(alloc, range) {
            Ok(range) => {
                self.put(range);
                DONE
            }
            Err(_) => MEMORY,
        }
    }
}

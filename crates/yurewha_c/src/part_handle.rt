//! A handle of a part of a file. What owns memory can't be passed to C, so its box is passed as a pointer.

ghost use Rattle.std.specs.Prelude.{◌≡◌, ◌≢◌, ◌⊎◌, Option, Some, None, option_map};
ghost use Rattle.verified_reader.specs.Reader.{Part};
ghost use Rattle.yurewha_c.specs.Owned.{owns_part, part_code};

use crate::parts::Parts;
use crate::status::{DONE, MEMORY};
use std::alloc::Global;
use std::marker::Model;
use std::mem::replace;
use std::ptr::null_mut;
use verified_reader::WantedPart;

/// A handle of a part of a file, or an empty handle, which is a null pointer in C.
#[repr(C)]
pub struct PartHandle {
    at: *mut u8,
    alloc: Global,
    // What the handle owns.
    pub ghost value: { Option Part } by { part_code },
}

impl Model for PartHandle {
    ghost also_owns = { λ handle. owns_part handle.alloc handle.at handle.value };
}

impl PartHandle {
    // Returns an empty handle.
    fn empty(alloc: Global) -> PartHandle
        ensures { result.value ≡ None }
    {
        PartHandle {
            at: null_mut(),
            alloc,
        }
    }

    // Makes the handle of what a box owned.
    fn of_parts(parts: Parts<WantedPart, Global>) -> PartHandle
        ensures { result.value ≡ Some parts.value }
    {
        let Parts { ptr, alloc } = parts;
        PartHandle {
            at: ptr as *mut u8,
            alloc,
        }
    }

    // Returns the parts of the box, if there is one.
    fn into_parts(self) -> Option<Parts<WantedPart, Global>>
        ensures { option_map (λ parts. parts.value) result ≡ self.value }
    {
        let PartHandle { at, alloc } = self;
        if at.is_null() {
            None
        } else {
            Some(Parts {
                ptr: at as *mut WantedPart,
                alloc,
            })
        }
    }

    // Takes the part out, and leaves the handle empty.
    pub(crate) fn take(&mut self, alloc: Global) -> Option<Box<WantedPart>>
        ensures value { option_map (λ part. part.value) result ≡ self.old.value }
        ensures empty { self.new.value ≡ None }
    {
        match replace(self, PartHandle::empty(alloc)).into_parts() {
            Some(parts) => Some(parts.into_box()),
            None => None,
        }
    }

    // Puts a part of a file in. It frees what the handle owned.
    pub(crate) fn put(&mut self, part: Box<WantedPart>)
        ensures { self.new.value ≡ Some part.value }
    {
        let new = PartHandle::of_parts(Parts::of(part));
        if let Some(old) = replace(self, new).into_parts() {
            drop(old.into_box());
        }
    }

    // Puts a part of a file in, in a box of its own, and returns `DONE`. If the allocation of the box fails, it changes
    // nothing and returns `MEMORY`.
    pub(crate) fn hold(&mut self, alloc: Global, part: WantedPart) -> u32
        ensures statuses { (result ≡ DONE) ⊎ (result ≡ MEMORY) }
        ensures done { result ≡ DONE → self.new.value ≡ Some part }
        ensures unchanged { result ≢ DONE → self.new.value ≡ self.old.value }
    {
        match Box::new(alloc, part) {
            Ok(part) => {
                self.put(part);
                DONE
            }
            Err(_) => MEMORY,
        }
    }
}

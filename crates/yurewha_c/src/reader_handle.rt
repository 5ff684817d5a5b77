//! A handle of a reader of a file. What owns memory can't be passed to C, so its box is passed as a pointer.

ghost use Rattle.std.specs.Prelude.{◌≡◌, ◌≢◌, ◌⊎◌, Option, Some, None, option_map};
ghost use Rattle.verified_reader.specs.Reader.{Reader};
ghost use Rattle.yurewha_c.specs.Owned.{owns_reader, reader_code};

use crate::parts::Parts;
use crate::status::{DONE, MEMORY};
use std::alloc::Global;
use std::marker::Model;
use std::mem::replace;
use std::ptr::null_mut;
use verified_reader::VerifiedReader;

/// A handle of a reader of a file, or an empty handle, which is a null pointer in C.
#[repr(C)]
pub struct ReaderHandle {
    at: *mut u8,
    alloc: Global,
    // What the handle owns.
    pub ghost value: { Option Reader } by { reader_code },
}

impl Model for ReaderHandle {
    ghost also_owns = { λ handle. owns_reader handle.alloc handle.at handle.value };
}

impl ReaderHandle {
    // Returns an empty handle.
    fn empty(alloc: Global) -> ReaderHandle
        ensures { result.value ≡ None }
    {
        ReaderHandle {
            at: null_mut(),
            alloc,
        }
    }

    // Makes the handle of what a box owned.
    fn of_parts(parts: Parts<VerifiedReader, Global>) -> ReaderHandle
        ensures { result.value ≡ Some parts.value }
    {
        let Parts { ptr, alloc } = parts;
        ReaderHandle {
            at: ptr as *mut u8,
            alloc,
        }
    }

    // Returns the parts of the box, if there is one.
    fn into_parts(self) -> Option<Parts<VerifiedReader, Global>>
        ensures { option_map (λ parts. parts.value) result ≡ self.value }
    {
        let ReaderHandle { at, alloc } = self;
        if at.is_null() {
            None
        } else {
            Some(Parts {
                ptr: at as *mut VerifiedReader,
                alloc,
            })
        }
    }

    // Takes the reader out, and leaves the handle empty.
    pub(crate) fn take(&mut self, alloc: Global) -> Option<Box<VerifiedReader>>
        ensures value { option_map (λ reader. reader.value) result ≡ self.old.value }
        ensures empty { self.new.value ≡ None }
    {
        match replace(self, ReaderHandle::empty(alloc)).into_parts() {
            Some(parts) => Some(parts.into_box()),
            None => None,
        }
    }

    // Puts a reader of a file in. It frees what the handle owned.
    pub(crate) fn put(&mut self, reader: Box<VerifiedReader>)
        ensures { self.new.value ≡ Some reader.value }
    {
        let new = ReaderHandle::of_parts(Parts::of(reader));
        if let Some(old) = replace(self, new).into_parts() {
            drop(old.into_box());
        }
    }

    // Puts a reader of a file in, in a box of its own, and returns `DONE`. If the allocation of the box fails, it changes
    // nothing and returns `MEMORY`.
    pub(crate) fn hold(&mut self, alloc: Global, reader: VerifiedReader) -> u32
        ensures statuses { (result ≡ DONE) ⊎ (result ≡ MEMORY) }
        ensures done { result ≡ DONE → self.new.value ≡ Some reader }
        ensures unchanged { result ≢ DONE → self.new.value ≡ self.old.value }
    {
        match Box::new(alloc, reader) {
            Ok(reader) => {
                self.put(reader);
                DONE
            }
            Err(_) => MEMORY,
        }
    }
}

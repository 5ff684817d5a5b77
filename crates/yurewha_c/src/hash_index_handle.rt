//! A handle of an index of hashes. What owns memory can't be passed to C, so its box is passed as a pointer.

ghost use Rattle.std.specs.Prelude.{◌≡◌, ◌≢◌, ◌⊎◌, List, Option, Some, None, option_map};
ghost use Rattle.hash_numbers.specs.Index.{Entry};
ghost use Rattle.yurewha_c.specs.Owned.{owns_hash_index, hash_index_code};

use crate::parts::Parts;
use crate::status::{DONE, MEMORY};
use hash_numbers::HashIndex;
use std::alloc::Global;
use std::marker::Model;
use std::mem::replace;
use std::ptr::null_mut;

/// A handle of an index of hashes, or an empty handle, which is a null pointer in C.
#[repr(C)]
pub struct HashIndexHandle {
    at: *mut u8,
    alloc: Global,
    // What the handle owns.
    pub ghost value: { Option (List Entry) } by { hash_index_code },
}

impl Model for HashIndexHandle {
    ghost also_owns = { λ handle. owns_hash_index handle.alloc handle.at handle.value };
}

impl HashIndexHandle {
    // Returns an empty handle.
    fn empty(alloc: Global) -> HashIndexHandle
        ensures { result.value ≡ None }
    {
        HashIndexHandle {
            at: null_mut(),
            alloc,
        }
    }

    // Makes the handle of what a box owned.
    fn of_parts(parts: Parts<HashIndex, Global>) -> HashIndexHandle
        ensures { result.value ≡ Some parts.value }
    {
        let Parts { ptr, alloc } = parts;
        HashIndexHandle {
            at: ptr as *mut u8,
            alloc,
        }
    }

    // Returns the parts of the box, if there is one.
    fn into_parts(self) -> Option<Parts<HashIndex, Global>>
        ensures { option_map (λ parts. parts.value) result ≡ self.value }
    {
        let HashIndexHandle { at, alloc } = self;
        if at.is_null() {
            None
        } else {
            Some(Parts {
                ptr: at as *mut HashIndex,
                alloc,
            })
        }
    }

    // Takes the index out, and leaves the handle empty.
    pub(crate) fn take(&mut self, alloc: Global) -> Option<Box<HashIndex>>
        ensures value { option_map (λ index. index.value) result ≡ self.old.value }
        ensures empty { self.new.value ≡ None }
    {
        match replace(self, HashIndexHandle::empty(alloc)).into_parts() {
            Some(parts) => Some(parts.into_box()),
            None => None,
        }
    }

    // Puts an index in. It frees what the handle owned.
    pub(crate) fn put(&mut self, index: Box<HashIndex>)
        ensures { self.new.value ≡ Some index.value }
    {
        let new = HashIndexHandle::of_parts(Parts::of(index));
        if let Some(old) = replace(self, new).into_parts() {
            drop(old.into_box());
        }
    }

    // Puts an index in, in a box of its own, and returns `DONE`. If the allocation of the box fails, it changes
    // nothing and returns `MEMORY`.
    pub(crate) fn hold(&mut self, alloc: Global, index: HashIndex) -> u32
        ensures statuses { (result ≡ DONE) ⊎ (result ≡ MEMORY) }
        ensures done { result ≡ DONE → self.new.value ≡ Some index }
        ensures unchanged { result ≢ DONE → self.new.value ≡ self.old.value }
    {
        match Box::new(alloc, index) {
            Ok(index) => {
                self.put(index);
                DONE
            }
            Err(_) => MEMORY,
        }
    }
}

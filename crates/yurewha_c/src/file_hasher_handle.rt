//! A handle of a hasher of a file. What owns memory can't be passed to C, so its box is passed as a pointer.

ghost use Rattle.std.specs.Prelude.{◌≡◌, ◌≢◌, ◌⊎◌, Option, Some, None, option_map};
ghost use Rattle.yurewha_c.specs.declared.kept_file.KeptFile.{KeptFile as Kept};
ghost use Rattle.yurewha_c.specs.Owned.{file_hasher_code, owns_file_hasher};

use crate::kept_file::KeptFile;
use crate::parts::Parts;
use crate::status::{DONE, MEMORY};
use std::alloc::Global;
use std::marker::Model;
use std::mem::replace;
use std::ptr::null_mut;

/// A handle of a hasher of a file, or an empty handle, which is a null pointer in C.
#[repr(C)]
pub struct FileHasherHandle {
    at: *mut u8,
    alloc: Global,
    // What the handle owns.
    pub ghost value: { Option Kept } by { file_hasher_code },
}

impl Model for FileHasherHandle {
    ghost also_owns = { λ handle. owns_file_hasher handle.alloc handle.at handle.value };
}

impl FileHasherHandle {
    // Returns an empty handle.
    fn empty(alloc: Global) -> FileHasherHandle
        ensures { result.value ≡ None }
    {
        FileHasherHandle {
            at: null_mut(),
            alloc,
        }
    }

    // Makes the handle of what a box owned.
    fn of_parts(parts: Parts<KeptFile, Global>) -> FileHasherHandle
        ensures { result.value ≡ Some parts.value }
    {
        let Parts { ptr, alloc } = parts;
        FileHasherHandle {
            at: ptr as *mut u8,
            alloc,
        }
    }

    // Returns the parts of the box, if there is one.
    fn into_parts(self) -> Option<Parts<KeptFile, Global>>
        ensures { option_map (λ parts. parts.value) result ≡ self.value }
    {
        let FileHasherHandle { at, alloc } = self;
        if at.is_null() {
            None
        } else {
            Some(Parts {
                ptr: at as *mut KeptFile,
                alloc,
            })
        }
    }

    // Takes the hasher out, and leaves the handle empty.
    pub(crate) fn take(&mut self, alloc: Global) -> Option<Box<KeptFile>>
        ensures value { option_map (λ hasher. hasher.value) result ≡ self.old.value }
        ensures empty { self.new.value ≡ None }
    {
        match replace(self, FileHasherHandle::empty(alloc)).into_parts() {
            Some(parts) => Some(parts.into_box()),
            None => None,
        }
    }

    // Puts a hasher in. It frees what the handle owned.
    pub(crate) fn put(&mut self, hasher: Box<KeptFile>)
        ensures { self.new.value ≡ Some hasher.value }
    {
        let new = FileHasherHandle::of_parts(Parts::of(hasher));
        if let Some(old) = replace(self, new).into_parts() {
            drop(old.into_box());
        }
    }

    // Puts a hasher in, in a box of its own, and returns `DONE`. If the allocation of the box fails, it changes
    // nothing and returns `MEMORY`.
    pub(crate) fn hold(&mut self, alloc: Global, hasher: KeptFile) -> u32
        ensures statuses { (result ≡ DONE) ⊎ (result ≡ MEMORY) }
        ensures done { result ≡ DONE → self.new.value ≡ Some hasher }
        ensures unchanged { result ≢ DONE → self.new.value ≡ self.old.value }
    {
        match Box::new(alloc, hasher) {
            Ok(hasher) => {
                self.put(hasher);
                DONE
            }
            Err(_) => MEMORY,
        }
    }
}

//! A handle of a hash tree. What owns memory can't be passed to C, so its box is passed as a pointer.

ghost use Rattle.std.specs.Prelude.{◌≡◌, ◌≢◌, ◌⊎◌, ◌↔◌, List, Option, Some, None, IsTrue, option_map};
ghost use Rattle.xet_roots.specs.Groups.{Node};
ghost use Rattle.yurewha_c.specs.Owned.{owns_hash_tree, hash_tree_code};

use crate::parts::Parts;
use crate::status::{DONE, MEMORY};
use range_proof::HashTree;
use std::alloc::Global;
use std::marker::Model;
use std::mem::replace;
use std::ptr::null_mut;

/// A handle of a hash tree, or an empty handle, which is a null pointer in C.
#[repr(C)]
pub struct HashTreeHandle {
    at: *mut u8,
    alloc: Global,
    // What the handle owns.
    pub ghost value: { Option (List Node) } by { hash_tree_code },
}

impl Model for HashTreeHandle {
    ghost also_owns = { λ handle. owns_hash_tree handle.alloc handle.at handle.value };
}

impl HashTreeHandle {
    // Returns an empty handle.
    fn empty(alloc: Global) -> HashTreeHandle
        ensures { result.value ≡ None }
    {
        HashTreeHandle {
            at: null_mut(),
            alloc,
        }
    }

    // Makes the handle of what a box owned.
    fn of_parts(parts: Parts<HashTree, Global>) -> HashTreeHandle
        ensures { result.value ≡ Some parts.value }
    {
        let Parts { ptr, alloc } = parts;
        HashTreeHandle {
            at: ptr as *mut u8,
            alloc,
        }
    }

    // Returns the parts of the box, if there is one.
    fn into_parts(self) -> Option<Parts<HashTree, Global>>
        ensures { option_map (λ parts. parts.value) result ≡ self.value }
    {
        let HashTreeHandle { at, alloc } = self;
        if at.is_null() {
            None
        } else {
            Some(Parts {
                ptr: at as *mut HashTree,
                alloc,
            })
        }
    }

    // Takes the hash tree out, and leaves the handle empty.
    pub(crate) fn take(&mut self, alloc: Global) -> Option<Box<HashTree>>
        ensures value { option_map (λ tree. tree.value) result ≡ self.old.value }
        ensures empty { self.new.value ≡ None }
    {
        match replace(self, HashTreeHandle::empty(alloc)).into_parts() {
            Some(parts) => Some(parts.into_box()),
            None => None,
        }
    }

    // Puts a hash tree in. It frees what the handle owned.
    pub(crate) fn put(&mut self, tree: Box<HashTree>)
        ensures { self.new.value ≡ Some tree.value }
    {
        let new = HashTreeHandle::of_parts(Parts::of(tree));
        if let Some(old) = replace(self, new).into_parts() {
            drop(old.into_box());
        }
    }

    // Returns whether the handle is empty.
    pub(crate) fn is_empty(&mut self, alloc: Global) -> bool
        ensures empty { IsTrue result ↔ (self.old.value ≡ None) }
        ensures kept { self.new.value ≡ self.old.value }
    {
        match self.take(alloc) {
            Some(tree) => {
                self.put(tree);
                false
            }
            None => true,
        }
    }

    // Puts a hash tree in, in a box of its own, and returns `DONE`. If the allocation of the box fails, it changes
    // nothing and returns `MEMORY`.
    pub(crate) fn hold(&mut self, alloc: Global, tree: HashTree) -> u32
        ensures statuses { (result ≡ DONE) ⊎ (result ≡ MEMORY) }
        ensures done { result ≡ DONE → self.new.value ≡ Some tree }
        ensures unchanged { result ≢ DONE → self.new.value ≡ self.old.value }
    {
        match Box::new(alloc, tree) {
            Ok(tree) => {
                self.put(tree);
                DONE
            }
            Err(_) => MEMORY,
        }
    }
}

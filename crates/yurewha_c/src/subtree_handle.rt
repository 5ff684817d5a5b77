//! A handle of a subtree. What owns memory can't be passed to C, so its box is passed as a pointer.

ghost use Rattle.std.specs.Prelude.{◌≡◌, ◌≢◌, ◌⊎◌, ◌↔◌, Option, Some, None, option_map, IfOk, IfErr, IfSome, IfNone, IsTrue};
ghost use Rattle.xet_merkle.specs.Subtree.{Subtree};
ghost use Rattle.yurewha_c.specs.Owned.{owns_subtree, subtree_code};

use crate::parts::Parts;
use crate::status::{DONE, EMPTY_HANDLE, MEMORY, status_of};
use std::alloc::Global;
use std::marker::Model;
use std::mem::replace;
use std::ptr::null_mut;
use xet_merkle::merkle_hash_subtree::MerkleHashSubtree;

/// A handle of a subtree, or an empty handle, which is a null pointer in C.
#[repr(C)]
pub struct SubtreeHandle {
    at: *mut u8,
    alloc: Global,
    // What the handle owns.
    pub ghost value: { Option Subtree } by { subtree_code },
}

impl Model for SubtreeHandle {
    ghost also_owns = { λ handle. owns_subtree handle.alloc handle.at handle.value };
}

impl SubtreeHandle {
    // Returns an empty handle.
    fn empty(alloc: Global) -> SubtreeHandle
        ensures { result.value ≡ None }
    {
        SubtreeHandle {
            at: null_mut(),
            alloc,
        }
    }

    // Makes the handle of what a box owned.
    fn of_parts(parts: Parts<MerkleHashSubtree, Global>) -> SubtreeHandle
        ensures { result.value ≡ Some parts.value }
    {
        let Parts { ptr, alloc } = parts;
        SubtreeHandle {
            at: ptr as *mut u8,
            alloc,
        }
    }

    // Returns the parts of the box, if there is one.
    fn into_parts(self) -> Option<Parts<MerkleHashSubtree, Global>>
        ensures { option_map (λ parts. parts.value) result ≡ self.value }
    {
        let SubtreeHandle { at, alloc } = self;
        if at.is_null() {
            None
        } else {
            Some(Parts {
                ptr: at as *mut MerkleHashSubtree,
                alloc,
            })
        }
    }

    // Takes the subtree out, and leaves the handle empty.
    pub(crate) fn take(&mut self, alloc: Global) -> Option<Box<MerkleHashSubtree>>
        ensures value { option_map (λ subtree. subtree.value) result ≡ self.old.value }
        ensures empty { self.new.value ≡ None }
    {
        match replace(self, SubtreeHandle::empty(alloc)).into_parts() {
            Some(parts) => Some(parts.into_box()),
            None => None,
        }
    }

    // Puts a subtree in. It frees what the handle owned.
    pub(crate) fn put(&mut self, subtree: Box<MerkleHashSubtree>)
        ensures { self.new.value ≡ Some subtree.value }
    {
        let new = SubtreeHandle::of_parts(Parts::of(subtree));
        if let Some(old) = replace(self, new).into_parts() {
            drop(old.into_box());
        }
    }

    // Returns whether the handle is empty.
    pub(crate) fn is_empty(&mut self, alloc: Global) -> bool
        ensures empty { IsTrue result ↔ (self.old.value ≡ None) }
        ensures kept { self.new.value ≡ self.old.value }
    {
        match self.take(alloc) {
            Some(subtree) => {
                self.put(subtree);
                false
            }
            None => true,
        }
    }

    // Puts a subtree in, in a box of its own, and returns `DONE`. If the allocation of the box fails, it changes
    // nothing and returns `MEMORY`.
    pub(crate) fn hold(&mut self, alloc: Global, subtree: MerkleHashSubtree) -> u32
        ensures statuses { (result ≡ DONE) ⊎ (result ≡ MEMORY) }
        ensures done { result ≡ DONE → self.new.value ≡ Some subtree }
        ensures unchanged { result ≢ DONE → self.new.value ≡ self.old.value }
    {
        match Box::new(alloc, subtree) {
            Ok(subtree) => {
                self.put(subtree);
                DONE
            }
            Err(_) => MEMORY,
        }
    }

    // Returns a copy of the subtree. Fails with `EMPTY_HANDLE` or `MEMORY`.
    pub(crate) fn copy(&mut self, alloc: Global) -> Result<MerkleHashSubtree, u32>
        ensures kept { self.new.value ≡ self.old.value }
        ensures copy { IfOk result (λ copy. self.old.value ≡ Some copy) }
        ensures refused { IfErr result (λ status. ((status ≡ EMPTY_HANDLE) × (self.old.value ≡ None))
            ⊎ ((status ≡ MEMORY) × (self.old.value ≢ None))) }
    {
        let Some(subtree) = self.take(alloc) else {
            return Err(EMPTY_HANDLE);
        };
        let copy = subtree.try_clone();
        self.put(subtree);
        match copy {
            Ok(copy) => Ok(copy),
            Err(error) => Err(status_of(error)),
        }
    }

    // Takes the subtrees of two handles out. If one handle is empty, it leaves both unchanged and returns `None`.
    pub(crate) fn take_both(
        alloc: Global,
        first: &mut SubtreeHandle,
        second: &mut SubtreeHandle,
    ) -> Option<(Box<MerkleHashSubtree>, Box<MerkleHashSubtree>)>
        ensures taken { IfSome result (λ both. (first.old.value ≡ Some both.0.value) × (second.old.value ≡ Some both.1.value)) }
        ensures none { IfNone result (((first.old.value ≡ None) ⊎ (second.old.value ≡ None))
            × (first.new.value ≡ first.old.value) × (second.new.value ≡ second.old.value)) }
    {
        let one = first.take(alloc)?;
        match second.take(alloc) {
            Some(other) => Some((one, other)),
            None => {
                first.put(one);
                None
            }
        }
    }
}

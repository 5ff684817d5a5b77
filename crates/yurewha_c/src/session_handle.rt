//! A handle of a session. What owns memory can't be passed to C, so its box is passed as a pointer.

ghost use Rattle.std.specs.Prelude.{◌≡◌, ◌≢◌, ◌⊎◌, Option, Some, None, option_map, IfSome, IfNone};
ghost use Rattle.yurewha_c.specs.declared.kept_session.KeptSession.{KeptSession as Kept};
ghost use Rattle.yurewha_c.specs.Owned.{owns_session, session_code};

use crate::kept_session::KeptSession;
use crate::parts::Parts;
use crate::status::{DONE, MEMORY};
use std::alloc::Global;
use std::marker::Model;
use std::mem::replace;
use std::ptr::null_mut;

/// A handle of a session, or an empty handle, which is a null pointer in C.
#[repr(C)]
pub struct SessionHandle {
    at: *mut u8,
    alloc: Global,
    // What the handle owns.
    pub ghost value: { Option Kept } by { session_code },
}

impl Model for SessionHandle {
    ghost also_owns = { λ handle. owns_session handle.alloc handle.at handle.value };
}

impl SessionHandle {
    // Returns an empty handle.
    fn empty(alloc: Global) -> SessionHandle
        ensures { result.value ≡ None }
    {
        SessionHandle {
            at: null_mut(),
            alloc,
        }
    }

    // Makes the handle of what a box owned.
    fn of_parts(parts: Parts<KeptSession, Global>) -> SessionHandle
        ensures { result.value ≡ Some parts.value }
    {
        let Parts { ptr, alloc } = parts;
        SessionHandle {
            at: ptr as *mut u8,
            alloc,
        }
    }

    // Returns the parts of the box, if there is one.
    fn into_parts(self) -> Option<Parts<KeptSession, Global>>
        ensures { option_map (λ parts. parts.value) result ≡ self.value }
    {
        let SessionHandle { at, alloc } = self;
        if at.is_null() {
            None
        } else {
            Some(Parts {
                ptr: at as *mut KeptSession,
                alloc,
            })
        }
    }

    // Takes the session out, and leaves the handle empty.
    pub(crate) fn take(&mut self, alloc: Global) -> Option<Box<KeptSession>>
        ensures value { option_map (λ session. session.value) result ≡ self.old.value }
        ensures empty { self.new.value ≡ None }
    {
        match replace(self, SessionHandle::empty(alloc)).into_parts() {
            Some(parts) => Some(parts.into_box()),
            None => None,
        }
    }

    // Puts a session in. It frees what the handle owned.
    pub(crate) fn put(&mut self, session: Box<KeptSession>)
        ensures { self.new.value ≡ Some session.value }
    {
        let new = SessionHandle::of_parts(Parts::of(session));
        if let Some(old) = replace(self, new).into_parts() {
            drop(old.into_box());
        }
    }

    // Puts a session in, in a box of its own, and returns `DONE`. If the allocation of the box fails, it changes
    // nothing and returns `MEMORY`.
    pub(crate) fn hold(&mut self, alloc: Global, session: KeptSession) -> u32
        ensures statuses { (result ≡ DONE) ⊎ (result ≡ MEMORY) }
        ensures done { result ≡ DONE → self.new.value ≡ Some session }
        ensures unchanged { result ≢ DONE → self.new.value ≡ self.old.value }
    {
        match Box::new(alloc, session) {
            Ok(session) => {
                self.put(session);
                DONE
            }
            Err(_) => MEMORY,
        }
    }

    // Takes the sessions of two handles out. If one handle is empty, it leaves both unchanged and returns `None`.
    pub(crate) fn take_both(
        alloc: Global,
        first: &mut SessionHandle,
        second: &mut SessionHandle,
    ) -> Option<(Box<KeptSession>, Box<KeptSession>)>
        ensures taken { IfSome result (λ both. (first.old.value ≡ Some both.0.value) × (second.old.value ≡ Some both.1.value)) }
        ensures none { IfNone result (((first.old.value ≡ None) ⊎ (second.old.value ≡ None))
            × (first.new.value ≡ first.old.value) × (second.new.value ≡ second.old.value)) }
    {
        let one = first.take(alloc)?;
        match second.take(alloc) {
            Some(other) => Some((one, other)),
            None => {
                first.put(one);
                None
            }
        }
    }
}

//! What C keeps between calls: the pointer to a session on the heap. Only this file reads the pointer, and only its three functions
//! `empty`, `of` and `into_loose` are proved by hand.

ghost use Rattle.std.specs.Prelude.{◌≡◌, None, Option, Some, option_map};
ghost use Rattle.c_session.specs.declared.session.Session.{Session};
ghost use Rattle.mme_c.specs.Calls.{IsKept};

use crate::loose::Loose;
use crate::numbers::{OK, refused};
use c_session::{Refusal, Session};
use std::alloc::Global;
use std::marker::Model;
use std::{mem, ptr};

/// Stands for `Session` in the type of the pointer: at the border to C no pointer may name a type that holds a `Vec` or a `Box`.
#[repr(C)]
#[derive(Drop)]
pub struct Opaque {
    unused: u8,
}

/// The handle: null, or the pointer to a session that this handle alone owns. It is not `Drop`, so that no function of the library
/// can lose one: `into_loose` alone uses one up.
#[repr(C)]
pub struct MmeHandle {
    at: *mut Opaque,
    pub ghost session: { Option Session },
}

impl Model for MmeHandle {
    ghost use Rattle.std.specs.Prelude.{Option};
    ghost use Rattle.c_session.specs.declared.session.Session.{Session};
    ghost use Rattle.mme_c.specs.Ownership.{handle_owns};

    ghost also_owns = { λ h. handle_owns h.at h.session };
}

impl MmeHandle {
    fn empty() -> MmeHandle
        ensures { result.session ≡ None }
    {
        MmeHandle {
            at: ptr::null_mut(),
        }
    }

    fn of(session: Loose<Session, Global>) -> MmeHandle
        ensures { result.session ≡ Some session.value }
    {
        let Loose { at, alloc: _ } = session;
        MmeHandle {
            at: at as *mut Opaque,
        }
    }

    fn into_loose(self, alloc: Global) -> Option<Loose<Session, Global>>
        ensures { option_map (λ s. s.value) result ≡ self.session }
    {
        let MmeHandle { at } = self;
        if at.is_null() {
            None
        } else {
            let at = at as *mut Session;
            Some(Loose { at, alloc })
        }
    }

    /// Takes the session out, and leaves null.
    pub(crate) fn take(&mut self, alloc: Global) -> Option<Box<Session>>
        ensures taken { option_map (λ b. b.value) result ≡ self.old.session }
        ensures left { self.new.session ≡ None }
    {
        match mem::replace(self, MmeHandle::empty()).into_loose(alloc) {
            Some(session) => Some(session.into_box()),
            None => None,
        }
    }

    /// Keeps the session in place of what the handle held, which is freed.
    pub(crate) fn put(&mut self, alloc: Global, session: Box<Session>)
        ensures { self.new.session ≡ Some session.value }
    {
        let kept = MmeHandle::of(Loose::of(session));
        if let Some(before) = mem::replace(self, kept).into_loose(alloc) {
            drop(before.into_box());
        }
    }

    /// Keeps a session that has no place yet: 0, or the number of NoMemory, and then the handle is as it was.
    pub(crate) fn keep(&mut self, alloc: Global, session: Session) -> u32
        ensures { IsKept session self.old.session result self.new.session }
    {
        match Box::new(alloc, session) {
            Ok(session) => {
                self.put(alloc, session);
                OK
            }
            Err(_) => refused(Refusal::NoMemory),
        }
    }
}

//! The pointer of a handle. Its type does not name what it points to: no type of an export may lead to
//! a type that is shared by its own rules, as a `Vec` is.

ghost use Rattle.std.specs.Prelude.{◌≡◌, Some, None, Option, is_some, true};
ghost use Rattle.hdr_model.specs.Plain.{Plain};
ghost use Rattle.hdr_c.specs.Owned.{held_coded, owned};

use crate::held::Held;
use crate::raw_parts::RawParts;
use std::alloc::Global;
use std::marker::Model;
use std::ptr::null_mut;

/// A pointer that owns the block of a histogram, or a null pointer, which owns nothing.
#[repr(C)]
#[derive(Drop)]
pub struct Pointer {
    at: *mut u8,
    alloc: Global,
    pub ghost held: { Option Plain } by { held_coded },
}

impl Model for Pointer {
    ghost also_owns = { λ l. owned l.alloc l.at l.held };
}

impl Pointer {
    ghost use Rattle.std.specs.Borrow.{sem};
    ghost use Rattle.hdr_c.specs.Lending.{pointer_follows};

    /// The null pointer.
    pub fn null(alloc: Global) -> Pointer
        ensures { result.held ≡ None }
    {
        Pointer {
            at: null_mut(),
            alloc,
        }
    }

    /// The pointer of a block.
    pub fn from_parts(parts: RawParts<Held, Global>) -> Pointer
        ensures { result.held ≡ Some parts.value }
    {
        let RawParts { ptr, alloc } = parts;
        Pointer {
            at: ptr as *mut u8,
            alloc,
        }
    }

    /// The histogram of the pointer. Neither the pointer nor its block is written.
    pub fn as_mut(&mut self) -> &mut Held
        requires { is_some self.old.held ≡ true }
        ensures* writes_back { sem 𝓛 (pointer_follows self.entry result) }
        ensures value { Some result.now ≡ self.old.held }
    {
        unsafe { &mut *(self.at as *mut Held) }
    }

    /// The block of the pointer.
    pub fn into_parts(self) -> RawParts<Held, Global>
        requires { is_some self.held ≡ true }
        ensures { Some result.value ≡ self.held }
    {
        let Pointer { at, alloc } = self;
        RawParts {
            ptr: at as *mut Held,
            alloc,
        }
    }
}

unsafe impl Send for Pointer {}

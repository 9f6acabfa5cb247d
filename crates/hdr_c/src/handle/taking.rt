//! Taking the histogram out of a handle, and storing it again.

ghost use Rattle.std.specs.Prelude.{◌≡◌, None, Some, MatchResult, option_map};
ghost use Rattle.hdr_c.specs.Calls.{held};

use crate::handle::Handle;
use crate::held::Held;
use crate::pointer::Pointer;
use crate::raw_parts::RawParts;
use hdrhistogram::Histogram;
use std::alloc::{AllocError, Global};
use std::mem::replace;

impl Handle {
    fn closed(alloc: Global) -> Handle
        ensures { held result ≡ None }
    {
        Handle {
            filled: false,
            pointer: Pointer::null(alloc),
        }
    }

    fn open(boxed: Box<Held, Global>) -> Handle
        ensures { held result ≡ Some boxed.value }
    {
        Handle {
            filled: true,
            pointer: Pointer::from_parts(RawParts::new(boxed)),
        }
    }

    /// Takes the histogram out of the handle, which is closed then. Returns `None` if it was closed.
    pub(crate) fn take(&mut self, alloc: Global) -> Option<Box<Held, Global>>
        ensures taken { option_map (λ b. b.value) result ≡ held self.old }
        ensures closed { held self.new ≡ None }
    {
        let Handle { filled, pointer } = replace(self, Handle::closed(alloc));
        if filled {
            Some(pointer.into_parts().into_box())
        } else {
            None
        }
    }

    /// Stores a histogram in a closed handle.
    pub(crate) fn put(&mut self, boxed: Box<Held, Global>)
        requires { held self.old ≡ None }
        ensures { held self.new ≡ Some boxed.value }
    {
        *self = Handle::open(boxed);
    }

    /// Replaces the histogram of the handle by `histogram`. Returns an error, and leaves the handle
    /// unchanged, if the allocation fails.
    pub(crate) fn fill(
        &mut self,
        alloc: Global,
        histogram: Histogram<u64>,
    ) -> Result<(), AllocError>
        ensures { MatchResult result (λ _. held self.new ≡ Some histogram)
            (λ _. held self.new ≡ held self.old) }
    {
        let boxed = Box::new(alloc, Held { histogram })?;
        drop(self.take(alloc));
        self.put(boxed);
        Ok(())
    }
}

fn is_send<T: Send>() {}

/// Shows that a handle may go to another thread, as the header states.
pub fn handle_is_send() {
    is_send::<Handle>();
}

//! What C holds of a histogram.

ghost use Rattle.std.specs.Prelude.{◌≡◌, is_some};

use crate::pointer::Pointer;

mod taking;

/// What C holds of a histogram: whether there is one, and its address. All bytes zero are a closed
/// handle, which has none.
#[repr(C)]
#[derive(Drop)]
pub struct Handle {
    pub(crate) filled: bool,
    pub pointer: Pointer,
    ghost agrees: { filled ≡ is_some pointer.held },
}

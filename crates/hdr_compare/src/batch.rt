//! Batches of samples.

ghost use Rattle.std.specs.Prelude.{◌≤◌};

/// The samples of a batch, and how many of them meet a condition.
#[derive(Clone, Copy)]
pub(crate) struct Batch {
    pub(crate) size: u64,
    pub(crate) count: u64,
    ghost within: { count ≤ size },
}

//! Levels that values should not exceed.

use crate::tail::Tail;

/// A level: a tail, and the value that it should not exceed.
#[derive(Clone, Copy)]
pub struct TailLevel {
    pub tail: Tail,
    pub value: u64,
}

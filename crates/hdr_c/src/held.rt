//! The histogram of a handle.

use hdrhistogram::Histogram;
use std::marker::Model;

/// The histogram of a handle. Contracts see it as its `Plain`. It is a type of its own, so that
/// definitions can name what a handle owns.
#[derive(Drop)]
pub struct Held {
    pub(crate) histogram: Histogram<u64>,
}

impl Model for Held {
    ghost use Rattle.hdr_model.specs.Plain.{Plain};

    ghost Value = { Plain };

    ghost view = { λ t. t.histogram };
}

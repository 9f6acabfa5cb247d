//! High dynamic range histograms, their V2 bytes and interval logs.
//!
//! `Histogram` counts `u64` values to a number of significant digits. `serialization` encodes and
//! decodes histograms, and writes, reads and merges logs.
#![tactic(auto)]

pub mod laws;
pub mod serialization;

pub use hdr_core::{
    AdditionError, Call, CallError, CallFrom, Counter, CreationError, Fraction, Histogram,
    HistogramBuilder, IterationValue, Quantile, RecordError, RunError, SubtractionError, Ticks,
    UsizeTypeTooSmall, Values, errors, iterators,
};

//! The HDR histogram: recording, correction, merging and exact quantiles.
#![tactic(auto)]

pub mod call;
pub mod call_from;
pub mod histogram;
pub mod iterators;
pub mod laws;
mod marks;

pub use call::{Call, CallError, RunError};
pub use call_from::CallFrom;
pub use hdr_base::{Counter, Fraction, IterationValue, Quantile, Ticks};
pub use hdr_model::{
    AdditionError, CreationError, RecordError, SubtractionError, UsizeTypeTooSmall, errors,
};
pub use histogram::{Histogram, HistogramBuilder, Values};

//! Iterators over the bins of a histogram: one engine, and five pickers that choose the bins it stops at.
#![tactic(auto)]

pub mod all;
mod bins;
pub mod laws;
pub mod linear;
pub mod log;
mod picking;
pub mod quantile;
pub mod recorded;

pub use bins::{Binned, Bins};
pub use hdr_base::IterationValue;
pub use picking::{HistogramIterator, PickMetadata, PickyIterator};

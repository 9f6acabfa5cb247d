//! Histograms of interval logs, compressed and not.
//!
//! The HdrHistogram libraries of other languages compress the V2 bytes of an interval as a zlib stream. [`v2_bytes`] returns
//! the V2 bytes of either form, and [`convert_interval`] rewrites the line of an interval from one form to the other.
#![tactic(auto)]

mod bytes;
mod errors;
mod line;
mod old;

pub use bytes::{Form, compressed, form_of, v2_bytes};
pub use errors::ConvertError;
pub use line::{convert_field, convert_interval};

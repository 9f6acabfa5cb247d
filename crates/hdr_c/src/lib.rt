//! The library for C. `capi/dkap.h` declares these functions, and states what a caller has to ensure.
//!
//! A call makes one call of the crate `hdrhistogram` with the histogram of its handle. The contracts state what that does to the
//! histogram. A handle without one is closed: the status is then `CLOSED`.
#![tactic(auto)]

mod classes;
mod compressing;
mod creation;
mod decoding;
mod deviation;
mod equivalents;
mod handle;
mod held;
mod interval;
mod log_headers;
mod log_reading;
mod log_start;
mod log_writing;
mod merging;
mod percentiles;
mod pointer;
mod queries;
mod raw_parts;
mod recording;
mod status;
mod steps;
mod v2_bytes;

//! The program `hdr`, over any reader and writer: it reports quantiles of samples, logs their
//! histograms interval by interval, and merges such logs.
#![tactic(auto)]

mod arguments;
mod command;
mod driver;
mod fault;
pub mod laws;
mod lines;
mod merge;
mod parts;
mod program;
mod report;
mod stream;

pub use fault::Fault;
pub use program::run;
pub use stream::RetryWriter;

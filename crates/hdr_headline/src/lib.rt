//! The headline as contracts of single calls: after any list of calls every quantile is that of the samples, and so it is
//! after the histogram went through its V2 bytes, and through the line of a log.
#![tactic(auto)]

mod bytes;
mod copies;
mod errors;
mod line;

pub use bytes::through_bytes;
pub use copies::{Copies, headline};
pub use errors::HeadlineError;
pub use line::{LineParts, through_line};

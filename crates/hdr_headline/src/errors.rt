//! The errors of the headline.

use hdrhistogram::RunError;
use thiserror::Error;

/// Why `headline` fails.
#[derive(Debug, Drop, Error)]
pub enum HeadlineError {
    /// A call failed. The calls before it were applied.
    #[error("{0}")]
    Call(RunError),

    /// A count is above `i64::MAX`, the greatest that V2 bytes hold.
    #[error("A count is above i64::MAX")]
    CountNotSerializable,

    /// The seconds of a time do not fit a `u64`.
    #[error("A time is past the seconds that a u64 holds")]
    TimeOutOfRange,

    /// An allocation failed.
    #[error("Out of memory")]
    OutOfMemory,
}

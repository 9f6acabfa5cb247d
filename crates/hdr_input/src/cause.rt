//! Why a line or a field has no number that is recorded.

ghost use Rattle.std.specs.Prelude.{◌≡◌};
ghost use Rattle.hdr_input.specs.Recorded.{may_be_skipped};

use thiserror::Error;

/// Why a line or a field has no number that is recorded.
#[derive(Debug, Clone, Copy, PartialEq, Eq, Error)]
pub enum Cause {
    #[error("is not a number; --skip-bad ignores such lines")]
    NotANumber,
    /// It is not a number, but a mark for none.
    #[error("is not a number but a mark for none; --skip-bad ignores such lines")]
    Dash,
    #[error("is infinite, and a histogram counts finite numbers; --skip-bad ignores such lines")]
    Infinite,
    /// It has digits with commas.
    #[error("is not a number; --skip-bad ignores such lines. With a comma it is 1234, 1.234 or a row: write it without, or read --column")]
    Comma,
    /// It is a duration, and the unit of the numbers is not known.
    #[error("is not a number; --skip-bad ignores such lines. --unit, as --unit ms, reads numbers with units of time")]
    Duration,
    /// It has a blank between other characters.
    #[error("is not a number; --skip-bad ignores such lines. --column reads a field with --delimiter space, --match a number in a text")]
    Blank,
    /// It is not a number, and looks like the line of a table.
    #[error("is not a number; --column reads a column of a table, --from log an interval log")]
    Table,
    #[error("is negative, and a histogram counts numbers from 0; --skip-bad ignores such lines")]
    Negative,
    /// It has more decimals than a unit can have, and is not to be rounded.
    #[error("has more than 18 decimals")]
    TooManyDecimals,
    #[error("is too large: in units of its last decimal (--decimals) it has to be below 2^64")]
    TooLarge,
    /// It is a time, and negative.
    #[error("is a time before 0; --skip-bad ignores such rows")]
    NegativeTime,
    /// It is a time, and too large.
    #[error("is too large for a time")]
    TimeTooLarge,
    /// It is to be a time, and is none.
    #[error("is not a time, such as 1764054000 or 2026-11-28T06:00:00Z; --skip-bad ignores such rows")]
    NotATime,
    /// Its line has at least this number of bytes, which is the limit of the input.
    #[error("begins a line of {0} bytes or more")]
    TooLong(usize),
    /// It is to be how often a number counts, and is not.
    #[error("is not how often a number counts: an integer from 0 on; --skip-bad ignores such rows")]
    NotACount,
    /// Its row ends before the column.
    #[error("is a row without that column; --skip-bad ignores such rows")]
    NoField,
    /// Its line is not JSON.
    #[error("is not a line of JSON, such as `jq -c` writes; --skip-bad ignores such lines")]
    NotJson,
    /// Its line has no text at the path.
    #[error("has no number at that path; --skip-bad ignores such lines")]
    NoPath,
    /// Its line has no text at the path of how often a number counts.
    #[error("has no count at that path; --skip-bad ignores such lines")]
    NoCount,
    /// Its line has no time at the path.
    #[error("has no time at that path; --skip-bad ignores such lines")]
    NoTime,
    #[error("does not fit: out of memory")]
    OutOfMemory,
}

impl Cause {
    /// Whether `--skip-bad` ignores a line for this cause.
    pub fn may_be_skipped(self) -> bool
        ensures { result ≡ may_be_skipped self }
    {
        !matches!(self, Cause::TooLong(_) | Cause::OutOfMemory)
    }
}

//! What a log has that is not read.

use crate::place::Place;
use thiserror::Error;

/// What a line has that is not read.
#[derive(Debug, Clone, Copy, PartialEq, Eq, Error)]
pub enum NoteKind {
    /// The last line has no line feed, and is not a complete interval.
    #[error("the last line has no end and is left out")]
    NoEnd,
    /// A comment begins as the header of a start time.
    #[error("the start time is invalid and is ignored")]
    StartTime,
    /// A comment begins as the header of a base time.
    #[error("the base time is invalid and is ignored")]
    BaseTime,
    /// A comment begins as the one that has the decimals of values.
    #[error("the number of decimals is invalid and is ignored")]
    Decimals,
    /// A comment begins as the one that has the unit of values.
    #[error("the unit is not ns, us, ms or s and is ignored")]
    Unit,
}

/// A line that is not read, without an error.
#[derive(Debug, Clone, Copy, Error)]
#[error("{place}: {kind}")]
pub struct Note {
    pub place: Place,
    pub kind: NoteKind,
}

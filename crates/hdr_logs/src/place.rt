//! Lines of files.

use thiserror::Error;

/// A line of one of several files.
#[derive(Debug, Clone, Copy, Error)]
#[error("line {line}")]
pub struct Place {
    /// The index of the file.
    pub file: usize,
    /// The number of the line, from 1.
    pub line: u64,
}

//! Why an input is not read.

use crate::cause::Cause;
use crate::group_texts::GroupError;
use std::alloc::{AllocError, AllocFailed, Global};
use std::io;
use thiserror::Error;

/// Where a number is. Lines and rows are numbered from 1, and a row of names is a row.
#[derive(Debug, Clone, Copy, Error)]
pub enum InputPlace {
    #[error("line {0}")]
    Line(u64),
    #[error("row {0}")]
    Row(u64),
}

/// Why an input is not read.
#[derive(Debug, Error, Drop)]
pub enum InputError {
    #[error("{place}: `{text}` {cause}")]
    BadNumber {
        place: InputPlace,
        text: String,
        cause: Cause,
    },
    #[error("no column `{wanted}`: give one of {names}, or a number from 1")]
    NoColumn {
        wanted: String,
        names: String,
    },
    #[error("columns {first} and {second} have the name `{name}`: give the number of one")]
    DoubleName {
        name: String,
        first: u64,
        second: u64,
    },
    /// A row ends before a column. The names are those of the first row.
    #[error("{place}: `{text}` is a row without that column; row 1 has, between {delimiter}, {names}; --delimiter sets another, --skip-bad ignores such rows")]
    NoField {
        place: InputPlace,
        text: String,
        delimiter: String,
        names: String,
    },
    /// A quote that begins a field of this row is not closed.
    #[error("row {0}: a quote opens a field and is never closed")]
    OpenQuote(u64),
    #[error("column `{0}` has more than 1000 different texts; choose one with fewer")]
    TooManyGroups(String),
    /// The input is compressed.
    #[error("is compressed by gzip; `gzip -dc FILE | hdrstat ..` reads it")]
    Gzip,
    #[error("cannot read: {0}")]
    Io(io::Error),
    #[error("out of memory")]
    OutOfMemory,
}

impl From<AllocError> for InputError {
    ghost use Rattle.std.specs.Prelude.{◌≡◌};
    ghost use Rattle.hdr_input.specs.declared.errors.InputError.TheVariants.{OutOfMemory};

    ghost from_gives = { λ _ error. error ≡ OutOfMemory };

    fn from(_error: AllocError) -> InputError {
        InputError::OutOfMemory
    }
}

impl<T: Drop> From<AllocFailed<T>> for InputError {
    fn from(_error: AllocFailed<T>) -> InputError {
        InputError::OutOfMemory
    }
}

impl InputError {
    /// Returns the error of a reader.
    pub fn of_reading(error: io::Error) -> InputError {
        match error.kind() {
            io::ErrorKind::OutOfMemory => InputError::OutOfMemory,
            _ => InputError::Io(error),
        }
    }
}

impl InputError {
    /// Returns the error of a group that is not added, with the columns of its text.
    pub(crate) fn of_groups(alloc: Global, columns: &[&str], error: GroupError) -> InputError {
        match (error, joined(alloc, columns)) {
            (GroupError::TooMany, Ok(columns)) => InputError::TooManyGroups(columns),
            _ => InputError::OutOfMemory,
        }
    }
}

/// Returns texts with commas between them.
fn joined(alloc: Global, texts: &[&str]) -> Result<String, AllocError> {
    let mut all = String::new(alloc);
    for text in texts {
        if !all.is_empty() {
            all.push(',')?;
        }
        all.push_str(*text)?;
    }
    Ok(all)
}

/// The most bytes of a character.
const LONGEST_CHARACTER: usize = 4;

/// The most bytes of a line or a name that an error shows.
const SHOWN: usize = 40;

/// Returns how many bytes of a text an error shows: at most `SHOWN`, and no part of a character.
fn shown_len(text: &[u8]) -> usize {
    let most = text.len().min(SHOWN);
    let mut len = most;
    for _ in 0..LONGEST_CHARACTER {
        if text.get(len).is_none_or(|byte| byte & 0xc0 != 0x80) {
            return len;
        }
        len = len.saturating_sub(1);
    }
    most
}

/// Returns the start of a text for an error. Control characters are shown as `?`.
pub fn excerpt(alloc: Global, text: &[u8]) -> Result<String, AllocError> {
    let start = text.get(..shown_len(text)).unwrap_or(text);
    let mut bytes = start.to_vec(alloc)?;
    for byte in bytes.iter_mut() {
        if byte.is_ascii_control() {
            *byte = b'?';
        }
    }
    String::from_utf8_lossy(alloc, &bytes)
}

/// Returns the error of a line or a row, with the start of the text.
pub(crate) fn bad_number(
    alloc: Global,
    place: InputPlace,
    text: &[u8],
    cause: Cause,
) -> InputError {
    if cause == Cause::OutOfMemory {
        return InputError::OutOfMemory;
    }
    match excerpt(alloc, text) {
        Ok(text) => InputError::BadNumber { place, text, cause },
        Err(_) => InputError::OutOfMemory,
    }
}

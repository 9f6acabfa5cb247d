//! The outcome of a line: the value that its call returned, or the error.

use hdr_core::{AdditionError, CallError, CreationError, RecordError, RunError, SubtractionError};
use hdrhistogram::serialization::interval_log::{IntervalLogWriterError, MergeError};
use hdrhistogram::serialization::{DeserializeError, FieldDecodeError, V2SerializeError};
use std::alloc::{AllocError, Global};
use thiserror::Error;

/// The value that a call returned.
#[derive(Drop)]
pub enum Value {
    Unit,
    None,
    Number(u64),
    Bool(bool),
    /// Bytes in hexadecimal, the items of an iterator, or the bytes of a log.
    Text(String),
}

/// The error that a call returned, or that the line itself has.
#[derive(Debug, Drop, Error)]
pub enum LineError {
    #[error("{0}")]
    Creation(#[from] CreationError),
    #[error("{0}")]
    Record(#[from] RecordError),
    #[error("{0}")]
    Addition(#[from] AdditionError),
    #[error("{0}")]
    Subtraction(#[from] SubtractionError),
    #[error("{0}")]
    Call(#[from] CallError),
    #[error("{0}")]
    Run(#[from] RunError),
    #[error("{0}")]
    Serialize(#[from] V2SerializeError),
    #[error("{0}")]
    Deserialize(#[from] DeserializeError),
    #[error("{0}")]
    Field(#[from] FieldDecodeError),
    #[error("{0}")]
    Log(#[from] IntervalLogWriterError<V2SerializeError>),
    #[error("{0}")]
    Merge(#[from] MergeError),
    #[error("two calls that have to agree do not")]
    Differ,
    #[error("no call has this name and so many arguments")]
    UnknownCall,
    #[error("an argument is not one that the call takes")]
    InvalidArgument,
    #[error("memory ran out")]
    OutOfMemory(#[from(alloc)] AllocError),
}

/// The value of a call, or its error.
pub type Outcome = Result<Value, LineError>;

/// Makes the first of these calls that is known, and returns its outcome.
macro_rules! first_known {
    ($last:expr) => { $last };
    ($call:expr, $($rest:expr),+) => {
        match $call {
            Err(LineError::UnknownCall) => first_known!($($rest),+),
            outcome => outcome,
        }
    };
}

pub(crate) use first_known;

impl LineError {
    /// Whether the error is not one of the library: the line is invalid, or an allocation of the player failed.
    pub fn is_player_error(&self) -> bool {
        matches!(
            self,
            LineError::UnknownCall | LineError::InvalidArgument | LineError::OutOfMemory(_)
        )
    }

    /// Returns the error of the library as its `Debug` prints it.
    pub fn name(&self, alloc: Global) -> Result<String, AllocError> {
        let debug = format!(in alloc; "{self:?}")?;
        let text = debug.as_str();
        let (_, name) = text.split_once('(').unwrap_or(("", text));
        String::from_str(alloc, name.strip_suffix(")").unwrap_or(name))
    }

    /// Returns the error's message between quotation marks.
    pub fn quoted_message(&self, alloc: Global) -> Result<String, AllocError> {
        format!(in alloc; "\"{self}\"")
    }
}

impl Value {
    /// Returns the value as rows write it.
    pub fn to_text(&self, alloc: Global) -> Result<String, AllocError> {
        match self {
            Value::Unit => String::from_str(alloc, "ok"),
            Value::None => String::from_str(alloc, "none"),
            Value::Number(number) => format!(in alloc; "{number}"),
            Value::Bool(value) => format!(in alloc; "{value}"),
            Value::Text(text) => String::from_str(alloc, text.as_str()),
        }
    }
}

/// Returns an error unless two calls that have to agree do.
pub fn ensure_same(is_same: bool) -> Result<(), LineError> {
    is_same.then_some(()).ok_or(LineError::Differ)
}

/// Returns the value of a call that may return `None`.
pub fn optional_number(number: Option<u64>) -> Value {
    match number {
        Some(number) => Value::Number(number),
        None => Value::None,
    }
}

//! The messages of errors that no row meets: those of memory and of streams, and those that a `usize` of 64 bits excludes.

use hdr_core::{AdditionError, CallError, CreationError, RecordError, UsizeTypeTooSmall};
use hdrhistogram::serialization::interval_log::{CommentError, IntervalLogWriterError, MergeError};
use hdrhistogram::serialization::{DeserializeError, FieldDecodeError, V2SerializeError};
use std::fmt::Display;
use std::io::{Error, ErrorKind};
use std::process::Abort;
use std::test::Fail;

const OUT_OF_MEMORY: &str = "Out of memory";

const USIZE: &str = "The `usize` type is too small to represent the desired configuration";

const RESIZING: &str =
    "Auto resizing is enabled and must be used to represent the provided value, but the histogram cannot be resized because `usize` cannot represent sufficient length";

const ADDING: &str =
    "The other histogram includes values that would map to indexes in this histogram that are not expressible for `usize`";

/// Asserts the message of an error.
pub fn assert_message<E: Display>(
    rt: &(impl Abort + AllocGlobal),
    error: &E,
    message: &str,
) -> Result<(), Fail> {
    assert_eq!(rt; error.to_string(rt.alloc())?.as_str(), message);
    Ok(())
}

/// The variant `OutOfMemory` of each enum.
macro_rules! out_of_memory {
    ($rt:ident: $($errors:ident)*) => { $(assert_message(&$rt, &$errors::OutOfMemory, OUT_OF_MEMORY)?;)* };
}

#[test]
fn out_of_memory_messages(rt: HostRuntime) -> Result<(), Fail> {
    out_of_memory! { rt: CreationError RecordError AdditionError V2SerializeError DeserializeError
        CommentError FieldDecodeError MergeError }
    let error = CallError::Addition(AdditionError::OutOfMemory);
    assert_message(&rt, &error, OUT_OF_MEMORY)?;
    let error: IntervalLogWriterError<CommentError> = IntervalLogWriterError::OutOfMemory;
    assert_message(&rt, &error, OUT_OF_MEMORY)
}

#[test]
fn usize_messages(rt: HostRuntime) -> Result<(), Fail> {
    assert_message(&rt, &CreationError::UsizeTypeTooSmall, USIZE)?;
    assert_message(&rt, &UsizeTypeTooSmall, USIZE)?;
    assert_message(&rt, &RecordError::ResizeFailedUsizeTypeTooSmall, RESIZING)?;
    assert_message(&rt, &AdditionError::ResizeFailedUsizeTypeTooSmall, ADDING)?;
    let message = "Internal calculations cannot be represented in `usize`";
    assert_message(&rt, &V2SerializeError::UsizeTypeTooSmall, message)
}

fn cause() -> Error {
    Error::from(ErrorKind::WriteZero)
}

#[test]
fn merge_messages(rt: HostRuntime) -> Result<(), Fail> {
    let error = MergeError::Creation(CreationError::SigFigExceedsMax);
    let message = "Number of significant digits must be in the range `[0, 5]`";
    assert_message(&rt, &error, message)
}

#[test]
fn stream_messages(rt: HostRuntime) -> Result<(), Fail> {
    let message = format!(in rt.alloc(); "An i/o operation failed: {}", cause())?;
    assert_message(&rt, &V2SerializeError::from(cause()), message.as_str())?;
    assert_message(&rt, &DeserializeError::from(cause()), message.as_str())?;
    let message = format!(in rt.alloc(); "An i/o error occurred: {}", cause())?;
    let error: IntervalLogWriterError<CommentError> = IntervalLogWriterError::from(cause());
    assert_message(&rt, &error, message.as_str())
}

//! The bytes of a histogram, before they are written in Base64.

ghost use Rattle.std.specs.Prelude.{MatchResult};
ghost use Rattle.hdrhistogram.specs.LogLeaving.{IsSerializerError};

use crate::serialization::interval_log::errors::IntervalLogWriterError;
use crate::serialization::serializer::Serializer;
use hdr_base::Counter;
use hdr_core::Histogram;
use std::alloc::Global;
use std::io::{self, ErrorKind, Write};

/// A buffer that a serializer writes to. `allocation_failed` is set if it could not grow.
#[derive(Drop)]
struct Buffer {
    bytes: Vec<u8>,
    allocation_failed: bool,
}

impl Write for Buffer {
    ghost use Rattle.std.specs.Prelude.{Some};

    ghost contents = { λ buffer. Some buffer.bytes.items };

    fn write(&mut self, buf: &[u8]) -> io::Result<usize> {
        match self.bytes.extend_from_slice(buf) {
            Ok(()) => Ok(buf.len()),
            Err(_) => {
                self.allocation_failed = true;
                Err(io::Error::from(ErrorKind::OutOfMemory))
            }
        }
    }

    fn flush(&mut self) -> io::Result<()> {
        Ok(())
    }
}

/// Returns the bytes that `serializer` writes for a histogram. Returns `OutOfMemory` if the buffer
/// could not grow; any other error is the serializer's.
pub(crate) fn serialized<T: Counter, S: Serializer>(
    alloc: Global,
    serializer: &mut S,
    h: &Histogram<T>,
) -> Result<Vec<u8>, IntervalLogWriterError<S::SerializeError>>
    ensures { MatchResult result (λ bytes. S.writes h.now bytes.items)
        (IsSerializerError (S.may_fail_with h.now)) }
{
    let mut buffer = Buffer {
        bytes: Vec::new(alloc),
        allocation_failed: false,
    };
    match serializer.serialize(h, &mut buffer) {
        Ok(_) => Ok(buffer.bytes),
        Err(_) if buffer.allocation_failed => Err(IntervalLogWriterError::OutOfMemory),
        Err(e) => Err(IntervalLogWriterError::SerializeError(e)),
    }
}

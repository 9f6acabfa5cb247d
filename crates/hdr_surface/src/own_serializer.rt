//! Serializers of the caller's own, for the writer of logs.

ghost use Rattle.hdr_surface.specs.OwnBytes.{OwnBytesAreRead};

use hdr_log::laws::{base64_is_read, written_is_read};
use hdrhistogram::serialization::{Serializer, V2SerializeError, V2Serializer};
use hdrhistogram::{Counter, Histogram};
use std::alloc::Global;
use std::io::Write;

/// Writes V2 bytes by the library's serializer, and counts the calls that succeeded.
#[derive(Drop)]
pub struct Counted {
    inner: V2Serializer,
    calls: u64,
}

impl Counted {
    pub fn new(alloc: Global) -> Counted {
        Counted {
            inner: V2Serializer::new(alloc),
            calls: 0,
        }
    }

    pub fn calls(&self) -> u64 {
        self.calls
    }
}

impl Serializer for Counted {
    ghost use Rattle.hdrhistogram.specs.V2.{IsV2};
    ghost use Rattle.hdrhistogram.specs.SerializeErrors.{IsSerializeError};

    type SerializeError = V2SerializeError;

    ghost writes = { IsV2 };

    ghost may_fail_with = { IsSerializeError };

    fn serialize<T: Counter, W: Write>(
        &mut self,
        h: &Histogram<T>,
        writer: &mut W,
    ) -> Result<usize, V2SerializeError> {
        let count = self.inner.serialize(h, writer)?;
        self.calls = self.calls.saturating_add(1);
        Ok(count)
    }
}

/// Writes V2 bytes by the library's serializer.
#[derive(Drop)]
pub struct Forwarding {
    inner: V2Serializer,
}

impl Serializer for Forwarding {
    ghost use Rattle.hdrhistogram.specs.V2.{IsV2};

    type SerializeError = V2SerializeError;

    ghost writes = { IsV2 };

    fn serialize<T: Counter, W: Write>(
        &mut self,
        h: &Histogram<T>,
        writer: &mut W,
    ) -> Result<usize, V2SerializeError> {
        self.inner.serialize(h, writer)
    }
}

/// An interval that any serializer wrote is read, and its field decodes to bytes that the serializer may write.
pub fn own_bytes_are_read<S: Serializer>()
    ensures { OwnBytesAreRead S.writes }
{
    written_is_read();
    base64_is_read();
}

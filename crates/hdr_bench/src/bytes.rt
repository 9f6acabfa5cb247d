//! V2 bytes that are decoded, and encoded again, for a program that compares the results with those
//! of other decoders.

use hdrhistogram::serialization::{DeserializeError, Deserializer, V2Serializer};
use hdrhistogram::{Counter, Histogram};
use std::alloc::Global;
use std::io::{self, Read};

/// The parts of a decoded histogram.
#[repr(C)]
pub struct Reading {
    pub low: u64,
    pub high: u64,
    pub sigfig: u64,
    pub len: u64,
    pub max: u64,
    pub min_nz: u64,
    pub bins: u64,
    /// A checksum of the counters in their order.
    pub counts: u64,
    /// The number of bytes consumed.
    pub taken: u64,
}

/// A reader that returns at most `max_len` bytes a call.
#[derive(Drop)]
struct ChunkReader<'a> {
    rest: &'a [u8],
    max_len: usize,
}

impl<'a> Read for ChunkReader<'a> {
    fn read(&mut self, buf: &mut [u8]) -> io::Result<usize> {
        let len = self.max_len.min(self.rest.len()).min(buf.len());
        buf[..len].copy_from_slice(&self.rest[..len]);
        self.rest = &self.rest[len..];
        Ok(len)
    }
}

fn checksum<T: Counter>(counters: &[T]) -> u64 {
    let mut sum: u64 = 0;
    for counter in counters {
        sum = (sum ^ counter.as_u64()).wrapping_mul(0x9e37_79b9_7f4a_7c15);
    }
    sum
}

fn fill_reading<T: Counter>(histogram: &Histogram<T>, consumed: usize, reading: &mut Reading) {
    reading.low = histogram.low();
    reading.high = histogram.high();
    reading.sigfig = u64::from(histogram.sigfig());
    reading.len = histogram.len();
    reading.max = histogram.max();
    reading.min_nz = histogram.min_nz();
    reading.bins = histogram.distinct_values() as u64;
    reading.counts = checksum(histogram.counters());
    reading.taken = consumed as u64;
}

/// Returns the number of an error, from 1 on.
fn error_number(error: &DeserializeError) -> u64 {
    match error {
        DeserializeError::IoError(_) => 1,
        DeserializeError::InvalidCookie => 2,
        DeserializeError::UnsupportedFeature => 3,
        DeserializeError::UnsuitableCounterType => 4,
        DeserializeError::InvalidParameters => 5,
        DeserializeError::UsizeTypeTooSmall => 6,
        DeserializeError::EncodedArrayTooLong => 7,
        DeserializeError::OutOfMemory => 8,
    }
}

fn decode_slice<T: Counter>(alloc: Global, bytes: &[u8], reading: &mut Reading) -> u64 {
    match Deserializer::new(alloc).decode_slice::<T>(bytes) {
        Ok((histogram, consumed)) => {
            fill_reading(&histogram, consumed, reading);
            0
        }
        Err(error) => error_number(&error),
    }
}

fn decode_reader<T: Counter>(
    alloc: Global,
    bytes: &[u8],
    max_len: usize,
    reading: &mut Reading,
) -> u64 {
    let mut reader = ChunkReader {
        rest: bytes,
        max_len,
    };
    match Deserializer::new(alloc).deserialize::<T, ChunkReader>(&mut reader) {
        Ok(histogram) => {
            let consumed = bytes.len().saturating_sub(reader.rest.len());
            fill_reading(&histogram, consumed, reading);
            0
        }
        Err(error) => error_number(&error),
    }
}

fn decode<T: Counter>(alloc: Global, bytes: &[u8], max_len: usize, reading: &mut Reading) -> u64 {
    if max_len == 0 {
        decode_slice::<T>(alloc, bytes, reading)
    } else {
        decode_reader::<T>(alloc, bytes, max_len, reading)
    }
}

fn reencode(alloc: Global, bytes: &[u8], out: &mut [u8]) -> Option<usize> {
    let (histogram, _) = Deserializer::new(alloc).decode_slice::<u64>(bytes).ok()?;
    let mut serializer = V2Serializer::new(alloc);
    let bytes = serializer.to_bytes(&histogram).ok()?;
    out.get_mut(..bytes.len())?.copy_from_slice(bytes);
    Some(bytes.len())
}

/// Decodes `bytes` into counters of 8, 16, 32 or 64 bits: from a slice if `max_len` is 0, otherwise
/// from a reader of at most `max_len` bytes a call. Returns 0 and sets `reading`, or returns the
/// number of the error.
#[unsafe(no_mangle)]
pub extern "C" fn hdrb_read(
    alloc: Global,
    bytes: &[u8],
    bits: u64,
    max_len: usize,
    reading: &mut Reading,
) -> u64 {
    match bits {
        8 => decode::<u8>(alloc, bytes, max_len, reading),
        16 => decode::<u16>(alloc, bytes, max_len, reading),
        32 => decode::<u32>(alloc, bytes, max_len, reading),
        _ => decode::<u64>(alloc, bytes, max_len, reading),
    }
}

/// Decodes `bytes` and encodes the result to `out`. Returns the length, or 0 if decoding or encoding
/// fails or `out` is too short.
#[unsafe(no_mangle)]
pub extern "C" fn hdrb_rewrite(alloc: Global, bytes: &[u8], out: &mut [u8]) -> usize {
    reencode(alloc, bytes, out).unwrap_or(0)
}

//! V2 bytes and their parts, in hexadecimal.

use crate::arguments::{TextCall, ok_or_invalid, parse_u64};
use crate::items::numbers_text;
use crate::outcome::{LineError, Outcome, Value, ensure_same, optional_number};
use crate::single::{is_same, replace};
use hdr_base::Counter;
use hdr_core::Histogram;
use hdrhistogram::serialization::deserializer::{varint_read, varint_read_slice};
use hdrhistogram::serialization::v2_serializer::{
    counts_array_max_encoded_size, encode_counts, varint_write, zig_zag_decode, zig_zag_encode,
};
use hdrhistogram::serialization::{DeserializeError, Deserializer, Serializer, V2Serializer};
use std::alloc::{AllocError, Global};
use std::io::{self, Read};
use std::mem;

/// Trailing bytes, which a reader has to leave.
const TRAILING: &[u8; 2] = b"xy";

/// A reader that returns at most one byte a call.
#[derive(Drop)]
struct OneByteReader<'a>(&'a [u8]);

impl<'a> Read for OneByteReader<'a> {
    fn read(&mut self, buf: &mut [u8]) -> io::Result<usize> {
        match self.0 {
            [first, rest @ ..] if !buf.is_empty() => {
                buf[0] = *first;
                self.0 = rest;
                Ok(1)
            }
            _ => Ok(0),
        }
    }
}

/// Returns the hexadecimal digits of bytes.
fn hex_text(alloc: Global, bytes: &[u8]) -> Outcome {
    Ok(Value::Text(hex::encode(alloc, Vec::from_slice(alloc, bytes)?)?))
}

/// Parses hexadecimal digits.
fn parse_hex(alloc: Global, digits: &str) -> Result<Vec<u8>, LineError> {
    ok_or_invalid(hex::decode(alloc, digits).ok())
}

/// Returns the V2 bytes, which have to be the same by `to_bytes` and by `serialize`.
fn to_bytes<T: Counter>(alloc: Global, h: &Histogram<T>) -> Outcome {
    let mut written: Vec<u8> = Vec::new(alloc);
    let count = V2Serializer::new(alloc).serialize(h, &mut written)?;
    let mut serializer = V2Serializer::new(alloc);
    let borrowed = serializer.to_bytes(h)?;
    ensure_same(written.as_slice() == borrowed && count == borrowed.len())?;
    hex_text(alloc, borrowed)
}

/// Returns the payload alone, encoded to a buffer that is long enough for all bins.
fn payload<T: Counter>(alloc: Global, h: &Histogram<T>) -> Outcome {
    let Some(max_len) = counts_array_max_encoded_size(h.distinct_values()) else {
        return Ok(Value::None);
    };
    let mut buf = vec![in alloc; 0u8; max_len]?;
    let len = encode_counts(h, &mut buf)?;
    buf.truncate(len);
    hex_text(alloc, buf.as_slice())
}

/// A decoded histogram, and the number of bytes consumed.
type Decoded<T> = (Histogram<T>, usize);

/// Decodes a histogram from a reader that returns one byte a call.
fn decode_reader<T: Counter>(alloc: Global, bytes: &[u8]) -> Result<Decoded<T>, DeserializeError> {
    let mut reader = OneByteReader(bytes);
    let histogram = Deserializer::new(alloc).deserialize(&mut reader)?;
    Ok((histogram, bytes.len().saturating_sub(reader.0.len())))
}

/// Whether two results of decoding are the same.
fn is_same_decoded<T: Counter>(one: &Decoded<T>, other: &Decoded<T>) -> bool {
    one.1 == other.1 && one.0 == other.0 && is_same(&one.0, &other.0)
}

/// Whether two results of decoding are the same, or two errors with the same message.
fn is_same_result<T: Counter>(
    alloc: Global,
    one: &Result<Decoded<T>, DeserializeError>,
    other: &Result<Decoded<T>, DeserializeError>,
) -> Result<bool, AllocError> {
    Ok(match (one, other) {
        (Ok(one), Ok(other)) => is_same_decoded(one, other),
        (Err(one), Err(other)) => one.to_string(alloc)?.as_str()
            == other.to_string(alloc)?.as_str(),
        _ => false,
    })
}

/// Decodes a histogram from a slice and from a reader, whose results have to be the same.
fn decode<T: Counter>(alloc: Global, h: &mut Histogram<T>, bytes: &[u8]) -> Outcome {
    let sliced = Deserializer::new(alloc).decode_slice(bytes);
    ensure_same(is_same_result(alloc, &sliced, &decode_reader(alloc, bytes))?)?;
    let (histogram, consumed) = sliced?;
    drop(mem::replace(h, histogram));
    Ok(Value::Number(consumed as u64))
}

/// Decodes a histogram from bytes with trailing bytes.
fn decode_with_trailing<T: Counter>(alloc: Global, h: &mut Histogram<T>, digits: &str) -> Outcome {
    let mut bytes = parse_hex(alloc, digits)?;
    bytes.extend_from_slice(TRAILING.as_slice())?;
    decode(alloc, h, bytes.as_slice())
}

/// Decodes a field into the memory of a copy of the histogram, and replaces the histogram by the decoded one.
fn decode_field_into<T: Counter>(alloc: Global, h: &mut Histogram<T>, text: &str) -> Outcome {
    let spare = Some(h.clone()?);
    replace(h, Deserializer::new(alloc).decode_field_into(text, spare)?)
}

/// Returns the text of the nonempty classes of a field: the lowest value and the count of each.
fn classes_of_field(alloc: Global, text: &str) -> Outcome {
    let mut classes = Vec::new(alloc);
    Deserializer::new(alloc).decode_classes(text, &mut classes)?;
    let mut numbers = Vec::new(alloc);
    for class in &classes {
        numbers.extend_from_slice(&[class.value, class.count])?;
    }
    numbers_text(alloc, numbers)
}

/// Makes a call on a histogram and bytes.
pub fn call_histogram<T: Counter>(
    alloc: Global,
    h: &mut Histogram<T>,
    call: TextCall<'_>,
) -> Outcome {
    match call {
        ("to_bytes", "") => to_bytes(alloc, h),
        ("encode_counts", "") => payload(alloc, h),
        ("decode", text) => decode_with_trailing(alloc, h, text),
        ("decode_alone", text) => decode(alloc, h, &parse_hex(alloc, text)?),
        ("decode_field", text) => replace(h, Deserializer::new(alloc).decode_field(text)?),
        ("decode_field_into", text) => decode_field_into(alloc, h, text),
        ("decode_classes", text) => classes_of_field(alloc, text),
        _ => Err(LineError::UnknownCall),
    }
}

/// Encodes a number as a varint.
fn encode_varint(alloc: Global, n: u64) -> Outcome {
    let mut buf = [0xaa; 10];
    let len = varint_write(n, &mut buf);
    ensure_same(buf.get(len) == Some(&0xaa))?;
    hex_text(alloc, ok_or_invalid(buf.get(..len))?)
}

/// Decodes a varint from a slice and from a reader. The reader consumes no more, and fails if the last byte is missing.
/// Otherwise the result is `None`.
fn decode_varint(bytes: &[u8]) -> Option<u64> {
    let mut buf = [0xaa; 12];
    buf.get_mut(..bytes.len())?.copy_from_slice(bytes);
    let (n, len) = varint_read_slice(buf.as_slice());
    let mut reader = OneByteReader(buf.as_slice());
    let read = varint_read(&mut reader).ok()?;
    let mut truncated = OneByteReader(bytes.get(..bytes.len().checked_sub(1)?)?);
    let fails = varint_read(&mut truncated).is_err();
    let is_expected = read == n && len == bytes.len() && reader.0.len() == 12 - len && fails;
    is_expected.then_some(n)
}

/// Returns the zig-zag encoding of an integer, which has to decode to it.
fn zig_zag(n: i64) -> Outcome {
    let encoded = zig_zag_encode(n);
    ensure_same(zig_zag_decode(encoded) == n)?;
    Ok(Value::Number(encoded))
}

/// Returns the length of a buffer that is long enough for the payload of this number of bins.
fn room(bins: u64) -> Option<u64> {
    Some(counts_array_max_encoded_size(bins as usize)? as u64)
}

/// Makes a call on bytes and numbers.
pub fn call(alloc: Global, call: TextCall<'_>) -> Outcome {
    match call {
        ("varint", text) => encode_varint(alloc, parse_u64(text)?),
        ("varint_read", text) => Ok(optional_number(decode_varint(&parse_hex(alloc, text)?))),
        ("zig_zag", text) => zig_zag(ok_or_invalid(text.parse::<i64>().ok())?),
        ("room", text) => Ok(optional_number(room(parse_u64(text)?))),
        _ => Err(LineError::UnknownCall),
    }
}

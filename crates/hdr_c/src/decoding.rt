//! Histograms of bytes in any form: of versions 0 to 2, compressed or not.

ghost use Rattle.std.specs.Prelude.{◌≡◌, ◌-◌, ◌^◌, ◌<◌, ◌≤◌, ℕ, length, IsTrue, MatchOption, MatchResult};
ghost use Rattle.hdrhistogram.specs.Defects.{defect_of_error, FailsBy, RunsOutOnly};
ghost use Rattle.hdrhistogram.specs.V2Read.{HasBounds, IsReadAs, v2_at};
ghost use Rattle.hdr_c.specs.Decoding.{HeaderExceeds, IsConvertStatus, IsDecodeStatus, IsDecoded, IsFieldHistogram, IsFieldStatus, IsHistogramIn, IsNoV2, IsV2Status};

use crate::status::{NOT_BASE64, OUT_OF_MEMORY, TOO_MANY_BINS, of_convert_error, of_decode_error};
use byteorder::{BigEndian, ByteOrder};
use hdr_base::Scale;
use hdr_convert::v2_bytes;
use hdr_log::field::{FieldError, decoded as field_bytes};
use hdrhistogram::Histogram;
use hdrhistogram::serialization::{DeserializeError, Deserializer};
use std::alloc::Global;

/// Returns the histogram at the start of bytes in any form, and the number of bytes that it takes: in
/// another form than V2 bytes it takes all of them. An error is its status.
pub(crate) fn decoded(
    alloc: Global,
    bytes: &[u8],
    limit: u64,
) -> Result<(Histogram<u64>, usize), u32>
    ensures { MatchResult result (λ found. IsDecoded limit bytes.now found.0 found.1)
        (IsDecodeStatus limit bytes.now) }
{
    if exceeds(bytes, limit) {
        return Err(TOO_MANY_BINS);
    }
    match Deserializer::new(alloc).decode_slice::<u64>(bytes) {
        Ok((histogram, taken)) => match limited(histogram, limit) {
            Some(histogram) => Ok((histogram, taken)),
            None => Err(TOO_MANY_BINS),
        },
        Err(error) => other_form(alloc, bytes, limit, &error),
    }
}

/// Returns a histogram, unless it has more than `limit` bins.
fn limited(histogram: Histogram<u64>, limit: u64) -> Option<Histogram<u64>>
    ensures { MatchOption result (limit < length histogram.counts)
        (λ h. (h ≡ histogram) × (length h.counts ≤ limit)) }
{
    if histogram.distinct_values() as u64 > limit {
        return None;
    }
    Some(histogram)
}

/// Returns the histogram of bytes that have this error as V2 bytes, if they have another form.
fn other_form(
    alloc: Global,
    bytes: &[u8],
    limit: u64,
    error: &DeserializeError,
) -> Result<(Histogram<u64>, usize), u32>
    requires defect { FailsBy (defect_of_error error.now) (v2_at (2 ^ 64 - 1) bytes.now) }
    requires memory { RunsOutOnly (HasBounds bytes.now) error.now }
    ensures { MatchResult result (λ found. IsDecoded limit bytes.now found.0 found.1)
        (IsDecodeStatus limit bytes.now) }
{
    match error {
        DeserializeError::InvalidCookie => from_other_form(alloc, bytes, limit),
        DeserializeError::UnsupportedFeature => from_other_form(alloc, bytes, limit),
        _ => Err(of_decode_error(error)),
    }
}

/// Returns the histogram of bytes that do not decode as V2 bytes.
fn from_other_form(alloc: Global, bytes: &[u8], limit: u64) -> Result<(Histogram<u64>, usize), u32>
    requires { IsNoV2 bytes.now }
    ensures { MatchResult result (λ found. IsDecoded limit bytes.now found.0 found.1)
        (IsDecodeStatus limit bytes.now) }
{
    match converted(alloc, bytes) {
        Ok(histogram) => match limited(histogram, limit) {
            Some(histogram) => Ok((histogram, bytes.len())),
            None => Err(TOO_MANY_BINS),
        },
        Err(status) => Err(status),
    }
}

/// Returns the histogram of bytes in another form than V2 bytes. An error is its status.
fn converted(alloc: Global, bytes: &[u8]) -> Result<Histogram<u64>, u32>
    ensures { MatchResult result (IsHistogramIn bytes.now) (IsConvertStatus bytes.now) }
{
    let Ok(copy) = Vec::from_slice(alloc, bytes) else {
        return Err(OUT_OF_MEMORY);
    };
    match v2_bytes(alloc, copy) {
        Ok(v2) => decoded_v2(alloc, &v2),
        Err(error) => Err(of_convert_error(&error)),
    }
}

/// Returns the histogram of V2 bytes. An error is its status.
fn decoded_v2(alloc: Global, v2: &[u8]) -> Result<Histogram<u64>, u32>
    ensures { MatchResult result (λ h. (taken : ℕ) × IsReadAs (2 ^ 64 - 1) v2.now h taken)
        (IsV2Status v2.now) }
{
    match Deserializer::new(alloc).decode_slice::<u64>(v2) {
        Ok((histogram, _)) => Ok(histogram),
        Err(error) => Err(of_decode_error(&error)),
    }
}

/// Whether the bounds in the header of V2 bytes need more than `limit` bins. A header of another form
/// is not read here.
#[tactic(auto, unfolding(crate::specs::Decoding::HeaderExceeds))]
fn exceeds(bytes: &[u8], limit: u64) -> bool
    ensures { IsTrue result → HeaderExceeds limit bytes.now }
{
    if bytes.len() < 32 || !bytes.starts_with(&[0x1c, 0x84, 0x93, 0x13]) {
        return false;
    }
    let high = BigEndian::read_u64(&bytes[24..]);
    match Scale::new(BigEndian::read_u64(&bytes[16..]), bytes[15]) {
        Some(scale) => scale.bin(high) as u64 >= limit,
        None => false,
    }
}

/// Returns the histogram of an interval's field, in any form. An error is its status.
pub(crate) fn field_histogram(alloc: Global, field: &str, limit: u64) -> Result<Histogram<u64>, u32>
    ensures { MatchResult result (IsFieldHistogram limit field.now) (IsFieldStatus limit field.now) }
{
    match field_bytes(alloc, field) {
        Ok(bytes) => Ok(decoded(alloc, &bytes, limit)?.0),
        Err(FieldError::NotBase64) => Err(NOT_BASE64),
        Err(FieldError::OutOfMemory) => Err(OUT_OF_MEMORY),
    }
}

//! Histograms of versions 0 and 1, which have a counter of one width for each bin.

ghost use Rattle.std.specs.Prelude.{◌≡◌, ◌↔◌, ◌+◌, ◌<◌, ◌≤◌, ◌⊎◌, IfOk, IfSome, Some, IsTrue, EachIndex, slice_index, length, true, ℕ};
ghost use Rattle.hdr_base.specs.Classes.{most_bins};
ghost use Rattle.hdr_model.specs.Plain.{Plain};
ghost use Rattle.hdr_convert.specs.Forms.{IsPlain};
ghost use Rattle.hdr_convert.specs.Old.{number_at, counter_at, IsWidth, IsOld, StartsAs, IsVersion0, IsVersion1, IsV2OfOld, Holds};

use crate::errors::ConvertError;
use byteorder::{BigEndian, ByteOrder};
use hdrhistogram::serialization::V2Serializer;
use hdrhistogram::{Histogram, HistogramBuilder};
use std::alloc::Global;

/// The first four bytes of a histogram of version 0 or 1, less 16 times the width of a counter.
pub(crate) const VERSION_0: u32 = 0x1c84_9308;

pub(crate) const VERSION_1: u32 = 0x1c84_9301;

/// The lengths of their headers.
const HEADER_0_LEN: usize = 32;

const HEADER_1_LEN: usize = 40;

/// The ratio 1.0 of version 1, as the bits of a float.
const RATIO: u64 = 0x3ff0_0000_0000_0000;

/// What such bytes hold: bounds, digits, and counters of `width` bytes, the highest byte first.
#[derive(Clone, Copy)]
struct OldHistogram<'a> {
    low: u64,
    high: u64,
    sigfig: u32,
    width: usize,
    counters: &'a [u8],
}

/// Returns the V2 bytes of a histogram of version 0 or 1.
///
/// # Errors
/// Returns an error if `bytes` are of neither version or incomplete, if they use a shift of values or a ratio other than 1, or if
/// no histogram has these bounds and counts. Returns `OutOfMemory` if an allocation fails.
#[tactic(auto, using(crate::proofs::Cookies::v2_is_plain))]
pub(crate) fn v2_of_old(alloc: Global, bytes: &[u8]) -> Result<Vec<u8>, ConvertError>
    ensures plain { IfOk result (λ v2. IsPlain v2.items) }
    ensures v2 { IfOk result (λ v2. IsV2OfOld bytes.now v2.items) }
{
    let old = old_histogram(bytes)?;
    let histogram = histogram_of(alloc, &old)?;
    let mut serializer = V2Serializer::new(alloc);
    let mut v2 = Vec::new(alloc);
    v2.extend_from_slice(serializer.to_bytes(&histogram)?)?;
    Ok(v2)
}

/// Whether bytes start as a histogram of version 0 or 1.
pub(crate) fn is_old(bytes: &[u8]) -> bool
    ensures { (result ≡ true) ↔ IsOld bytes.now }
{
    width_of(bytes, VERSION_0).is_some() || width_of(bytes, VERSION_1).is_some()
}

/// Reads bytes of version 0 or 1.
fn old_histogram(bytes: &[u8]) -> Result<OldHistogram<'_>, ConvertError>
    ensures width { IfOk result (λ old. IsWidth old.width) }
    ensures fields { IfOk result (λ old. (h : Plain) → Holds old h
        → IsVersion0 bytes.now h ⊎ IsVersion1 bytes.now h) }
{
    if let Some(width) = width_of(bytes, VERSION_1) {
        version_1(bytes, width)
    } else if let Some(width) = width_of(bytes, VERSION_0) {
        version_0(bytes, width)
    } else {
        Err(ConvertError::NotAHistogram)
    }
}

/// Returns the width of a counter: that by which the first four bytes differ from those of a version.
#[tactic(auto, unfolding(crate::specs::Old::StartsAs, crate::specs::Old::IsWidth))]
fn width_of(bytes: &[u8], version: u32) -> Option<usize>
    ensures width { IfSome result IsWidth }
    ensures some { IfSome result (λ width. StartsAs version width bytes.now) }
    ensures none { (width : ℕ) → StartsAs version width bytes.now → result ≡ Some width }
{
    if bytes.len() < 4 {
        return None;
    }
    match four_at(bytes, 0).checked_sub(version)? {
        0x20 => Some(2),
        0x40 => Some(4),
        0x80 => Some(8),
        _ => None,
    }
}

/// Returns the number in four bytes from `place` on.
#[tactic(auto, unfolding(crate::specs::Old::number_at))]
fn four_at(bytes: &[u8], place: usize) -> u32
    requires { place + 4 ≤ length bytes.now }
    ensures { result ≡ number_at 4 place bytes.now }
{
    BigEndian::read_u32(&bytes[place..])
}

/// Returns the number in eight bytes from `place` on.
#[tactic(auto, unfolding(crate::specs::Old::number_at))]
fn eight_at(bytes: &[u8], place: usize) -> u64
    requires { place + 8 ≤ length bytes.now }
    ensures { result ≡ number_at 8 place bytes.now }
{
    BigEndian::read_u64(&bytes[place..])
}

/// Reads bytes of version 0. The counters are the rest of the bytes, and their sum is the total or more: samples may be recorded
/// after the total was taken.
#[tactic(auto, unfolding(crate::specs::Old::IsWidth))]
fn version_0(bytes: &[u8], width: usize) -> Result<OldHistogram<'_>, ConvertError>
    requires width { IsWidth width }
    requires starts { StartsAs 0x1c849308 width bytes.now }
    ensures width { IfOk result (λ old. IsWidth old.width) }
    ensures fields { IfOk result (λ old. (h : Plain) → Holds old h → IsVersion0 bytes.now h) }
{
    if bytes.len() < HEADER_0_LEN {
        return Err(ConvertError::Incomplete);
    }
    let (_, counters) = bytes.split_at(HEADER_0_LEN);
    if counters.len() % width != 0 || sum_of(counters, width) < eight_at(bytes, 24) {
        return Err(ConvertError::Incomplete);
    }
    Ok(OldHistogram {
        low: eight_at(bytes, 8),
        high: eight_at(bytes, 16),
        sigfig: four_at(bytes, 4),
        width,
        counters,
    })
}

/// Returns the sum of counters, or 2^64 - 1 if that is less.
#[tactic(auto, unfolding(crate::specs::Old::IsWidth))]
fn sum_of(counters: &[u8], width: usize) -> u64
    requires { IsWidth width }
{
    let mut sum = 0u64;
    for counter in counters.chunks_exact(width) {
        sum = sum.saturating_add(BigEndian::read_uint(counter, width));
    }
    sum
}

/// Reads bytes of version 1. Bytes after the counters are ignored.
#[tactic(auto, unfolding(crate::specs::Old::IsWidth))]
fn version_1(bytes: &[u8], width: usize) -> Result<OldHistogram<'_>, ConvertError>
    requires width { IsWidth width }
    requires starts { StartsAs 0x1c849301 width bytes.now }
    ensures width { IfOk result (λ old. IsWidth old.width) }
    ensures fields { IfOk result (λ old. (h : Plain) → Holds old h → IsVersion1 bytes.now h) }
{
    if bytes.len() < HEADER_1_LEN {
        return Err(ConvertError::Incomplete);
    }
    let len = four_at(bytes, 4) as usize;
    let rest = &bytes[HEADER_1_LEN..];
    if len > rest.len() || len % width != 0 {
        return Err(ConvertError::Incomplete);
    }
    if four_at(bytes, 8) != 0 || eight_at(bytes, 32) != RATIO {
        return Err(ConvertError::Unsupported);
    }
    Ok(OldHistogram {
        low: eight_at(bytes, 16),
        high: eight_at(bytes, 24),
        sigfig: four_at(bytes, 12),
        width,
        counters: &rest[..len],
    })
}

/// Returns the histogram of counters.
#[tactic(auto, unfolding(crate::specs::Old::IsWidth))]
fn histogram_of(alloc: Global, old: &OldHistogram<'_>) -> Result<Histogram<u64>, ConvertError>
    requires { IsWidth old.now.width }
    ensures { IfOk result (λ h. Holds old.now h) }
{
    let sigfig = sigfig_of(old.sigfig)?;
    let mut builder = HistogramBuilder::new_with_bounds(alloc, old.low, old.high, sigfig)?;
    let bins = builder.distinct_values();
    if !are_zero_from(old.counters, old.width * bins) {
        return Err(ConvertError::Bounds);
    }
    // A counter has at least one byte.
    for bin in 0..bins.min(old.counters.len()) {
        builder.set(bin, counter_at(old.counters, old.width, bin));
    }
    Ok(builder.into_histogram())
}

/// Whether all bytes from `start` on are 0.
fn are_zero_from(bytes: &[u8], start: usize) -> bool
    ensures { IsTrue result → (i : ℕ) → start ≤ i → slice_index bytes.now i ≡ 0 }
{
    bytes.len() <= start || are_zero(bytes.split_at(start).1)
}

/// Whether all bytes are 0.
fn are_zero(bytes: &[u8]) -> bool
    ensures { IsTrue result ↔ EachIndex bytes.now (λ i. slice_index bytes.now i ≡ 0) }
{
    bytes.iter().all(|byte| *byte == 0)
}

/// Returns the number of digits, which fits a byte.
fn sigfig_of(sigfig: u32) -> Result<u8, ConvertError>
    ensures { IfOk result (λ n. n ≡ sigfig) }
{
    u8::try_from(sigfig).map_err(|_| ConvertError::Bounds)
}

/// Returns the counter of a bin, or 0 after the last one.
#[tactic(auto, unfolding(crate::specs::Old::counter_at, crate::specs::Old::number_at, crate::specs::Old::IsWidth))]
fn counter_at(counters: &[u8], width: usize, bin: usize) -> u64
    requires width { IsWidth width }
    requires bin { bin < most_bins }
    ensures { result ≡ counter_at width counters.now bin }
{
    let place = width * bin;
    if counters.len() < place + width {
        return 0;
    }
    BigEndian::read_uint(&counters[place..], width)
}

//! Decodes a payload into the bins of a histogram.

ghost use Rattle.std.specs.Prelude.{◌≡◌, ◌+◌, ◌*◌, ◌%◌, ◌^◌, ◌<◌, ◌≤◌, IfNone, IfOk, IfSome, OnOk, length, replicate, true, false};
ghost use Rattle.hdr_base.specs.Classes.{most_bins};
ghost use Rattle.hdrhistogram.specs.Defects.{Gives, Checks};
ghost use Rattle.hdrhistogram.specs.PayloadRead.{IsNumberPut, IsPairPut, defect_at, move, with_count, counts_in};
ghost use Rattle.hdrhistogram.specs.V2Read.{builder_contents, histogram_contents, IsRestated};

use crate::serialization::errors::DeserializeError;
use crate::serialization::fields::unexpected_eof;
use crate::serialization::varint::{byte_varint_at, short_varint_at, varint_at};
use crate::serialization::zig_zag::zig_zag_decode;
use hdr_base::Counter;
use hdr_core::{Histogram, HistogramBuilder};

/// Applies a number of the payload at the bin `place`, and returns the index after its bins. Sets
/// the bin if the number is a nonzero count.
fn apply_number<T: Counter>(
    builder: &mut HistogramBuilder<T>,
    place: u64,
    number: i64,
) -> Result<u64, DeserializeError>
    ensures defect { Checks result (defect_at (length builder.old.counts) T.greatest place number) }
    ensures next { IfOk result (λ next. next ≡ place + move number) }
    ensures put { OnOk result (builder.new ≡ record builder.old
        { counts = with_count builder.old.counts place number }) }
{
    if number < 0 {
        return place
            .checked_add(number.unsigned_abs())
            .ok_or(DeserializeError::UsizeTypeTooSmall);
    }
    let count = T::from_u64(number as u64).ok_or(DeserializeError::UnsuitableCounterType)?;
    if number > 0 {
        if place >= builder.distinct_values() as u64 {
            return Err(DeserializeError::EncodedArrayTooLong);
        }
        builder.set(place as usize, count);
    }
    place
        .checked_add(1)
        .ok_or(DeserializeError::UsizeTypeTooSmall)
}

/// Fast path: decodes a number of one byte at the start of `bytes`, and applies it at the bin
/// `place`. Returns the number of its bins. Returns `None`, and sets nothing, for any other varint,
/// for a count out of range, and past the last bin.
#[inline(always)]
fn put_byte<T: Counter>(builder: &mut HistogramBuilder<T>, place: u64, bytes: &[u8]) -> Option<u64>
    ensures put { IfSome result (λ moved. IsNumberPut T.greatest place bytes.now builder.old.counts
        builder.new.counts 1 moved) }
    ensures below { IfSome result (λ moved. place + moved < 2 ^ 64) }
    ensures rest { builder.new ≡ record builder.old { counts = builder.new.counts } }
    ensures unchanged { IfNone result (builder.new ≡ builder.old) }
{
    let number = byte_varint_at(bytes)?;
    if place >= builder.distinct_values() as u64 {
        return None;
    }
    if number % 2 != 0 {
        return Some(number / 2 + 1);
    }
    if number == 0 {
        return Some(1);
    }
    let count = T::from_u64(number / 2)?;
    builder.set(place as usize, count);
    Some(1)
}

/// Fast path: decodes a number of one or two bytes at the start of `bytes`, and applies it at the
/// bin `place`. Returns the bytes consumed and the number of its bins. Returns `None`, and sets
/// nothing, for any other varint, for a count out of range, and past the last bin.
#[inline(always)]
fn put_short<T: Counter>(
    builder: &mut HistogramBuilder<T>,
    place: u64,
    bytes: &[u8],
) -> Option<(usize, u64)>
    ensures put { IfSome result (λ found. IsNumberPut T.greatest place bytes.now builder.old.counts
        builder.new.counts found.0 found.1) }
    ensures below { IfSome result (λ found. place + found.1 < 2 ^ 64) }
    ensures rest { builder.new ≡ record builder.old { counts = builder.new.counts } }
    ensures unchanged { IfNone result (builder.new ≡ builder.old) }
{
    let (encoded, len) = short_varint_at(bytes)?;
    if place >= builder.distinct_values() as u64 {
        return None;
    }
    if encoded % 2 != 0 {
        return Some((len, encoded / 2 + 1));
    }
    if encoded == 0 {
        return Some((len, 1));
    }
    let count = T::from_u64(encoded / 2)?;
    builder.set(place as usize, count);
    Some((len, 1))
}

/// Returns the nonzero count that these bytes encode, or `None` if they are not a varint of two
/// bytes with such a count.
#[inline(always)]
fn two_byte_count<T: Counter>(first: u8, second: u8) -> Option<T>
    ensures bytes { IfSome result (λ _. (128 ≤ first) × (second < 128) × (first % 2 ≡ 0)) }
    ensures count { IfSome result (λ c. (0 < T.number c) × (T.number c ≤ T.greatest)
        × (2 * T.number c ≡ first % 128 + 128 * second)) }
{
    if first < 128 || first % 2 != 0 || second == 0 || second >= 128 {
        return None;
    }
    let low = u64::from(first % 128 / 2);
    T::from_u64(low + 64 * u64::from(second))
}

/// Fast path: decodes two nonzero counts of two bytes each at the start of `bytes`, and sets two
/// bins from `place` on, if these follow the bins that were set. Returns whether they were set;
/// nothing is set otherwise.
#[inline(always)]
fn put_pair<T: Counter>(builder: &mut HistogramBuilder<T>, place: u64, bytes: &[u8]) -> bool
    ensures put { result ≡ true
        → IsPairPut T.greatest place bytes.now builder.old.counts builder.new.counts }
    ensures below { result ≡ true → place < most_bins }
    ensures rest { builder.new ≡ record builder.old { counts = builder.new.counts } }
    ensures unchanged { result ≡ false → builder.new ≡ builder.old }
{
    if bytes.len() < 4 {
        return false;
    }
    let Some(first) = two_byte_count(bytes[0], bytes[1]) else {
        return false;
    };
    let Some(second) = two_byte_count(bytes[2], bytes[3]) else {
        return false;
    };
    builder.set_pair(place as usize, first, second)
}

/// Decodes a payload into bins that are all empty.
fn decode_counts<T: Counter>(
    builder: &mut HistogramBuilder<T>,
    payload: &[u8],
) -> Result<(), DeserializeError>
    requires { builder.old.counts ≡ replicate (length builder.old.counts) 0 }
    ensures counts { Gives (λ _. builder.new.counts) result
        (counts_in (length builder.old.counts) T.greatest payload.now) }
    ensures rest { OnOk result (builder.new ≡ record builder.old { counts = builder.new.counts }) }
{
    let mut at = 0;
    let mut place = 0;
    while at < payload.len() {
        if let Some(moved) = put_byte(builder, place, &payload[at..]) {
            at += 1;
            place += moved;
            continue;
        }
        if put_pair(builder, place, &payload[at..]) {
            at += 4;
            place += 2;
            continue;
        }
        if let Some((len, moved)) = put_short(builder, place, &payload[at..]) {
            at += len;
            place += moved;
            continue;
        }
        let Some((encoded, len)) = varint_at(&payload[at..]) else {
            return Err(unexpected_eof());
        };
        at += len;
        place = apply_number(builder, place, zig_zag_decode(encoded))?;
    }
    Ok(())
}

/// Decodes a payload into bins that are all empty, and returns their histogram.
pub(crate) fn decode_payload<T: Counter>(
    mut builder: HistogramBuilder<T>,
    payload: &[u8],
) -> Result<Histogram<T>, DeserializeError>
    // Bins that are all empty, and do not grow.
    requires empty { builder.counts ≡ replicate (length builder.counts) 0 }
    requires fixed { builder.auto_resize ≡ false }
    // The counts of the payload, or its defect.
    ensures counts { Gives (λ h. h.counts) result
        (counts_in (length builder.counts) T.greatest payload.now) }
    // The rest of the histogram.
    ensures contents { IfOk result (λ h. histogram_contents h ≡ record (builder_contents builder) { counts = h.counts }) }
    ensures fixed { IfOk result (λ h. h.auto_resize ≡ false) }
    ensures restated { IfOk result (λ h. IsRestated h) }
{
    decode_counts(&mut builder, payload)?;
    Ok(builder.into_histogram())
}

//! Arithmetic that needs no test: numbers, fractions, indices and lengths.

use hdr_base::Scale;
use hdr_base::laws::intervals;
use hdr_counts::Counts;
use hdrhistogram::serialization::deserializer::varint_read_slice;
use hdrhistogram::serialization::v2_serializer::{
    counts_array_max_encoded_size, encode_counts, varint_write,
};
use hdrhistogram::serialization::{Deserializer, Serializer, V2SerializeError, V2Serializer};
use hdrhistogram::{Counter, Histogram, Quantile};
use std::alloc::{AllocError, Global};

/// A denominator that is a literal is not 0.
pub fn three_tenths() -> Quantile {
    Quantile::new(3, 10).unwrap()
}

/// Guard: a denominator of at least 1.
pub fn quantile(num: u64, den: u64) -> Quantile {
    if den == 0 {
        return Quantile::new(1, 1).unwrap();
    }
    Quantile::new(num, den).unwrap()
}

/// The denominator of a quantile is at least 1.
pub fn integer_part(quantile: Quantile) -> u64 {
    quantile.num() / quantile.den()
}

/// The numerator of a quantile fits 64 bits.
pub fn count_below<T: Counter>(histogram: &Histogram<T>, value: u64) -> u64 {
    histogram.quantile_below(value).num as u64
}

/// The denominator of a fraction is at least 1.
pub fn integer_mean<T: Counter>(histogram: &Histogram<T>) -> Option<u128> {
    let mean = histogram.mean()?;
    Some(mean.num / mean.den)
}

/// The denominator of a fraction is at least 1.
pub fn integer_percentile_below<T: Counter>(histogram: &Histogram<T>, value: u64) -> u128 {
    let percentile = histogram.percentile_below(value);
    percentile.num / percentile.den
}

/// The denominator of a fraction is at least 1.
pub fn is_all_below<T: Counter>(histogram: &Histogram<T>, value: u64) -> bool {
    let below = histogram.quantile_below(value);
    below.num / below.den == 1
}

/// A quantile is at most 1.
pub fn quantile_above<T: Counter>(histogram: &Histogram<T>, value: u64) -> u128 {
    let below = histogram.quantile_below(value);
    below.den - below.num
}

/// The saturating sum of counters is never above the total.
pub fn count_above<T: Counter>(histogram: &Histogram<T>, value: u64) -> u64 {
    histogram.len() - histogram.count_between(0, value)
}

/// `high` is at least twice `low`.
pub fn span<T: Counter>(histogram: &Histogram<T>) -> u64 {
    histogram.high() - histogram.low()
}

/// There are at most 64 buckets.
pub fn last_of_buckets<T: Counter>(histogram: &Histogram<T>) -> u64 {
    u64::MAX >> (64 - histogram.buckets())
}

/// The width of a class is at least 1.
pub fn in_widths<T: Counter>(histogram: &Histogram<T>, value: u64) -> u64 {
    value / histogram.equivalent_range(value)
}

/// The next class lies above the value, or at `u64::MAX`.
pub fn below_next<T: Counter>(histogram: &Histogram<T>, value: u64) -> u64 {
    histogram.next_non_equivalent(value) - value
}

/// The middle of a class is not below its lowest value.
pub fn half_class<T: Counter>(histogram: &Histogram<T>, value: u64) -> u64 {
    histogram.median_equivalent(value) - histogram.lowest_equivalent(value)
}

/// A width of a scale is at least 1.
pub fn in_widths_of_scale(scale: &Scale, value: u64) -> u64 {
    value / scale.width(value)
}

/// The exponent of the unit is below 64.
pub fn unit_of_scale(scale: &Scale) -> u64 {
    1 << scale.unit()
}

/// The distances of a value to the lowest value of its class and to the top. By the law it lies between them.
pub fn distances_in_class<T: Counter>(histogram: &Histogram<T>, value: u64) -> (u64, u64) {
    intervals();
    (
        value - histogram.lowest_equivalent(value),
        histogram.highest_equivalent(value) - value,
    )
}

/// The same for a scale.
pub fn distances_in_scale(scale: &Scale, value: u64) -> (u64, u64) {
    intervals();
    (value - scale.lowest(value), scale.top(value) - value)
}

/// Returns `10^sigfig`, which needs no test, since `sigfig` is at most 5.
pub fn precision<T: Counter>(histogram: &Histogram<T>) -> u64 {
    let powers = [1, 10, 100, 1000, 10_000, 100_000];
    powers[histogram.sigfig() as usize]
}

/// Twice the number of counters doesn't overflow.
pub fn len_of_counts<T: Counter>(counts: &Counts<T>) -> usize {
    2 * counts.len()
}

/// The sum of all counters.
pub fn last_sum<T: Counter>(counts: &Counts<T>) -> u128 {
    if counts.len() == 0 {
        return 0;
    }
    counts.sum_to(counts.len() - 1)
}

/// Blocks of any length, and then one more. Guard: with one more there are at most `6_291_456` counters.
pub fn grow_by_one<T: Counter>(alloc: Global, blocks: usize, block: usize) -> Option<Counts<T>> {
    if block == 0 || blocks >= 6_291_456 / block {
        return None;
    }
    let mut counts = Counts::new(alloc, blocks, block).ok()?;
    counts.grow(blocks + 1).ok()?;
    Some(counts)
}

/// A payload fails only at a count that is too great, and lies in the buffer.
pub fn payload<'a, T: Counter>(histogram: &Histogram<T>, buffer: &'a mut [u8]) -> Option<&'a [u8]> {
    let max_len = counts_array_max_encoded_size(histogram.distinct_values()).unwrap();
    if buffer.len() < max_len {
        return None;
    }
    match encode_counts(histogram, buffer) {
        Ok(len) => Some(&buffer[..len]),
        Err(V2SerializeError::CountNotSerializable) => None,
        Err(V2SerializeError::OutOfMemory) => unreachable!(),
        Err(V2SerializeError::UsizeTypeTooSmall) => unreachable!(),
        Err(V2SerializeError::IoError(_)) => unreachable!(),
    }
}

/// Guard: nine bytes for each bin up to the greatest value's.
pub fn payload_to_the_mark<T: Counter>(
    histogram: &Histogram<T>,
    buffer: &mut [u8],
) -> Option<Result<usize, V2SerializeError>> {
    let last = histogram.bin_of(histogram.max())?;
    let max_len = counts_array_max_encoded_size(last.checked_add(1)?)?;
    if buffer.len() < max_len {
        return None;
    }
    Some(encode_counts(histogram, buffer))
}

/// Nine bytes for each bin don't overflow, and are enough.
pub fn payload_in_new_buffer<T: Counter>(
    alloc: Global,
    histogram: &Histogram<T>,
) -> Result<Vec<u8>, AllocError> {
    let mut buffer = vec![in alloc; 0u8; 9 * histogram.distinct_values()]?;
    match encode_counts(histogram, &mut buffer) {
        Ok(len) => buffer.truncate(len),
        Err(_) => buffer.clear(),
    }
    Ok(buffer)
}

/// The bytes of a varint, in a buffer of the caller's. Guard: nine bytes.
pub fn varint_bytes(n: u64, buffer: &mut [u8]) -> Option<&[u8]> {
    if buffer.len() < 9 {
        return None;
    }
    let len = varint_write(n, buffer);
    Some(&buffer[..len])
}

/// The bytes after a varint. Guard: at least nine bytes.
pub fn after_varint(bytes: &[u8]) -> Option<&[u8]> {
    if bytes.len() < 9 {
        return None;
    }
    let (_, len) = varint_read_slice(bytes);
    Some(&bytes[len..])
}

/// The bytes after a histogram.
pub fn after_histogram<'a>(deserializer: &mut Deserializer, bytes: &'a [u8]) -> Option<&'a [u8]> {
    match deserializer.decode_slice::<u64>(bytes) {
        Ok((_, consumed)) => Some(&bytes[consumed..]),
        Err(_) => None,
    }
}

/// A vector holds as many bytes as the serializer returns.
pub fn in_vector<T: Counter>(alloc: Global, histogram: &Histogram<T>) -> Option<Vec<u8>> {
    let mut bytes = Vec::new(alloc);
    match V2Serializer::new(alloc).serialize(histogram, &mut bytes) {
        Ok(count) if count == bytes.len() => Some(bytes),
        Ok(_) => unreachable!(),
        Err(_) => None,
    }
}

//! The payload of V2 bytes: the counts, with runs of empty bins.

ghost use Rattle.std.specs.Prelude.{◌≡◌, ℕ, List, length, map, drop, take, slice_index, ◌++◌, ◌+◌, ◌-◌, ◌*◌, ◌≤◌, ◌<◌, ◌^◌, min, max, IfOk, IfErr, OnOk, All};
ghost use Rattle.std.specs.Option.{SomeIff};
ghost use Rattle.hdr_base.specs.Classes.{most_bins};
ghost use Rattle.hdr_model.specs.Plain.{IsPlain};
ghost use Rattle.hdrhistogram.specs.Streams.{WritesFront};
ghost use Rattle.hdrhistogram.specs.Varint.{IsShortest};
ghost use Rattle.hdrhistogram.specs.Payload.{IsPayload, IsRunText, nonempty, enough_bytes};
ghost use Rattle.hdrhistogram.specs.V2.{written_bins, written_counts, HasTooGreatCount};

use crate::serialization::errors::V2SerializeError;
use crate::serialization::varint::varint_write;
use hdr_base::Counter;
use hdr_core::Histogram;

/// The greatest count that zig-zag encodes.
const GREATEST_COUNT: u64 = i64::MAX as u64;

/// If nine bytes for each bin are at most this many, nonempty bins are not counted.
const SMALL_ROOM: usize = 1_048_576;

/// Returns the maximum length of the payload of `length` bins in bytes, nine for each, or `None` if
/// that is above `usize::MAX`.
pub fn counts_array_max_encoded_size(length: usize) -> Option<usize>
    ensures { SomeIff result (9 * length < 2 ^ 64) (9 * length) }
{
    length.checked_mul(9)
}

/// Returns the number of bins that are written: those up to the top mark's. Without a mark `max` is
/// 0, and the first bin alone is written.
pub(crate) fn written_bins<T: Counter>(h: &Histogram<T>) -> usize
    ensures value { result ≡ written_bins h.now }
    ensures within { result ≤ length h.now.counts }
    ensures at_most { result ≤ most_bins }
    ensures plain { IsPlain T.greatest h.now }
{
    let bins = h.distinct_values();
    match h.bin_of(h.max()) {
        Some(bin) => bin + 1,
        // Cannot occur: `max` has a bin.
        None => bins,
    }
}

/// Returns a bound of the payload's length in bytes: nine for each bin that is written. If that is
/// above `SMALL_ROOM`, the bound is at most nine for each nonempty bin, for a run before each of
/// them, and for a last run.
pub(crate) fn payload_room<T: Counter>(h: &Histogram<T>) -> usize
    ensures enough { enough_bytes (written_counts h.now) ≤ result }
    ensures near { result ≤ max 1048576 (enough_bytes (written_counts h.now)) }
    ensures at_most { result ≤ 9 * most_bins }
{
    let bins = written_bins(h);
    if 9 * bins <= SMALL_ROOM {
        return 9 * bins;
    }
    9 * bins.min(2 * nonempty(&h.counters()[..bins]) + 1)
}

/// Returns the number of nonzero counters.
fn nonempty<T: Counter>(counters: &[T]) -> usize
    ensures value { result ≡ nonempty (map T.number counters.now) }
    ensures at_most { result ≤ length counters.now }
{
    let mut full = 0;
    for counter in counters {
        if counter.as_u64() > 0 {
            full += 1;
        }
    }
    full
}

/// The number of a bin's counter.
#[inline]
fn count_of<T: Counter>(counters: &[T], bin: usize) -> u64
    requires { bin < length counters.now }
    ensures { result ≡ slice_index (map T.number counters.now) bin }
{
    counters[bin].as_u64()
}

/// Writes the canonical varint of `number` at the offset `at`, and returns the offset after it.
#[inline]
fn write_number(buf: &mut [u8], at: usize, number: u64) -> usize
    requires { at + 9 ≤ length buf.old }
    ensures at_most { result ≤ at + 9 }
    ensures further { at ≤ result }
    ensures front { (text : List ℕ) × IsShortest text number
        × (take result buf.new ≡ take at buf.old ++ text) }
    ensures unchanged { drop result buf.new ≡ drop result buf.old }
{
    at + varint_write(number, &mut buf[at..])
}

/// Writes a run of n empty bins at the offset `at`, and returns the offset after it. A run of one is
/// written as its count 0, and a longer one as -n, which zig-zag encodes as 2n - 1.
#[inline]
fn write_run(buf: &mut [u8], at: usize, empty: u64) -> usize
    // A run that is not empty, nine bytes for it, and a number that zig-zag encodes.
    requires nonzero { 1 ≤ empty }
    requires capacity { at + 9 ≤ length buf.old }
    requires fits { empty < 2 ^ 63 }
    // The offset after it.
    ensures at_most { result ≤ at + 9 }
    ensures further { at ≤ result }
    // The bytes that are written, and those after them.
    ensures front { (text : List ℕ) × IsRunText empty text
        × (take result buf.new ≡ take at buf.old ++ text) }
    ensures unchanged { drop result buf.new ≡ drop result buf.old }
{
    match empty {
        1 => write_number(buf, at, 0),
        _ => write_number(buf, at, 2 * empty - 1),
    }
}

/// Encodes the payload of a histogram at the start of `buf`, and returns its length in bytes. The
/// bytes after it are unchanged. The call allocates nothing.
///
/// The payload has the counts of the bins up to the top mark's, in order. Each run of empty bins is
/// one number. Numbers are encoded by zig-zag, as canonical varints. `buf` must have nine bytes for
/// each of these bins.
///
/// # Errors
/// Returns `CountNotSerializable` if a count is above `i64::MAX`, and no other error. The contents
/// of `buf` are then unspecified.
pub fn encode_counts<T: Counter>(
    h: &Histogram<T>,
    buf: &mut [u8],
) -> Result<usize, V2SerializeError>
    requires { 9 * written_bins h.now ≤ length buf.old }
    ensures written { IfOk result (WritesFront (IsPayload (written_counts h.now)) buf.old buf.new) }
    ensures at_most { IfOk result (λ n. (n ≤ 9 * written_bins h.now) × (n ≤ 9 * most_bins)) }
    ensures ok { OnOk result (All (λ n. n < 2 ^ 63) h.now.counts) }
    ensures err { IfErr result (λ e. (e ≡ V2SerializeError.CountNotSerializable)
        × HasTooGreatCount h.now) }
{
    encode_within(h, buf)
}

/// As `encode_counts`. If few bins are nonempty, a shorter `buf` is enough: nine bytes for each of
/// them, for a run before each, and for a last run.
pub(crate) fn encode_within<T: Counter>(
    h: &Histogram<T>,
    buf: &mut [u8],
) -> Result<usize, V2SerializeError>
    requires { enough_bytes (written_counts h.now) ≤ length buf.old }
    ensures written { IfOk result (WritesFront (IsPayload (written_counts h.now)) buf.old buf.new) }
    ensures at_most { IfOk result (λ n. (n ≤ 9 * written_bins h.now) × (n ≤ 9 * most_bins)) }
    ensures ok { OnOk result (All (λ n. n < 2 ^ 63) h.now.counts) }
    ensures err { IfErr result (λ e. (e ≡ V2SerializeError.CountNotSerializable)
        × HasTooGreatCount h.now) }
{
    let bins = written_bins(h);
    let counters = &h.counters()[..bins];
    let mut written = 0;
    let mut bin = 0usize;
    while bin < bins {
        let start = bin;
        let count = count_of(counters, start);
        bin += 1;
        if count == 0 {
            let filled = h.next_filled(bin).min(bins);
            written = write_run(buf, written, (filled - start) as u64);
            bin = filled;
            continue;
        }
        if count > GREATEST_COUNT {
            return Err(V2SerializeError::CountNotSerializable);
        }
        // Zig-zag encodes a number that is not negative as its double.
        written = write_number(buf, written, 2 * count);
    }
    Ok(written)
}

//! Varints, HdrHistogram's LEB128 of at most nine bytes: seven bits in each of the first eight
//! bytes, and eight in a ninth.

ghost use Rattle.std.specs.Prelude.{List, length, take, ℕ, ◌<◌, ◌≤◌, IfSome, IfNone, IfOk, OnErr};
ghost use Rattle.std.specs.Io.KnownBytes.{Consumes};
ghost use Rattle.hdrhistogram.specs.Streams.{WritesFront};
ghost use Rattle.hdrhistogram.specs.Varint.{IsShortest, Spells};
ghost use Rattle.hdrhistogram.specs.PayloadRead.{IsCut};

use crate::serialization::streams::read_exact;
use byteorder::{ByteOrder, LittleEndian};
use std::io::{self, Read};

/// One of the first eight bytes that is below this is the last of its varint.
const LAST_BELOW: u64 = 128;

/// The varint of a number below this has one byte or two.
const SHORT_BELOW: u64 = 128 * 128;

/// Encodes `n` as its canonical varint at the start of `buf`, and returns its length, one to nine
/// bytes. The canonical varint is the shortest. The bytes after it are unchanged. `buf` must be
/// long enough; nine bytes always suffice.
#[inline]
pub fn varint_write(n: u64, buf: &mut [u8]) -> usize
    requires { length buf.old < 9 → (text : List ℕ) → IsShortest text n → length text ≤ length buf.old }
    ensures written { WritesFront (λ text. IsShortest text n) buf.old buf.new result }
    ensures at_most { result ≤ 9 }
{
    if n < LAST_BELOW {
        buf[0] = n as u8;
        1
    } else if n < SHORT_BELOW {
        LittleEndian::write_u16(buf, (n % 128 + 128 + n / 128 * 256) as u16);
        2
    } else {
        write_long(n, buf)
    }
}

/// `varint_write` for a varint of any length, byte by byte.
#[cold]
#[inline(never)]
fn write_long(n: u64, buf: &mut [u8]) -> usize
    requires { (text : List ℕ) → IsShortest text n → length text ≤ length buf.old }
    ensures written { WritesFront (λ text. IsShortest text n) buf.old buf.new result }
    ensures at_most { result ≤ 9 }
{
    let mut rest = n;
    for place in 0..8 {
        if rest < LAST_BELOW {
            buf[place] = rest as u8;
            return place + 1;
        }
        buf[place] = (rest % 128) as u8 + 128;
        rest /= 128;
    }
    buf[8] = rest as u8;
    9
}

/// Decodes the varint at the start of `bytes`, canonical or not, and returns the number with the
/// varint's length. Returns `None` if `bytes` ends inside it.
pub(crate) fn varint_at(bytes: &[u8]) -> Option<(u64, usize)>
    ensures within { IfSome result (λ found. found.1 ≤ length bytes.now) }
    ensures at_most { IfSome result (λ found. found.1 ≤ 9) }
    ensures found { IfSome result (λ found. Spells (take found.1 bytes.now) found.0) }
    ensures cut { IfNone result (IsCut bytes.now) }
{
    short_varint_at(bytes).or_else(|| read_long(bytes))
}

/// Fast path: decodes a varint of one byte at the start of `bytes`. Returns `None` for a longer
/// varint, and if `bytes` is empty.
#[inline(always)]
pub(crate) fn byte_varint_at(bytes: &[u8]) -> Option<u64>
    ensures within { IfSome result (λ _. 1 ≤ length bytes.now) }
    ensures found { IfSome result (λ n. Spells (take 1 bytes.now) n) }
    ensures small { IfSome result (λ n. n < 128) }
{
    if bytes.is_empty() {
        return None;
    }
    let first = u64::from(bytes[0]);
    if first >= LAST_BELOW {
        return None;
    }
    Some(first)
}

/// Fast path: decodes a varint of one or two bytes at the start of `bytes`, without a branch on its
/// length. Returns `None` for a longer varint, and if `bytes` has fewer than two bytes.
#[inline(always)]
pub(crate) fn short_varint_at(bytes: &[u8]) -> Option<(u64, usize)>
    ensures within { IfSome result (λ found. found.1 ≤ length bytes.now) }
    ensures at_most { IfSome result (λ found. found.1 ≤ 2) }
    ensures found { IfSome result (λ found. Spells (take found.1 bytes.now) found.0) }
{
    if bytes.len() < 2 {
        return None;
    }
    let first = u64::from(bytes[0]);
    let second = u64::from(bytes[1]);
    let two = first / LAST_BELOW;
    if two * second >= LAST_BELOW {
        return None;
    }
    Some((first % 128 + 128 * (two * second), 1 + two as usize))
}

/// `varint_at` for a varint of any length, byte by byte.
#[cold]
#[inline(never)]
fn read_long(bytes: &[u8]) -> Option<(u64, usize)>
    ensures within { IfSome result (λ found. found.1 ≤ length bytes.now) }
    ensures at_most { IfSome result (λ found. found.1 ≤ 9) }
    ensures found { IfSome result (λ found. Spells (take found.1 bytes.now) found.0) }
    ensures cut { IfNone result (IsCut bytes.now) }
{
    let mut value = 0u64;
    let mut weight = 1u64;
    for (place, byte) in bytes.iter().enumerate() {
        let byte = u64::from(*byte);
        if place == 8 {
            return Some((value + weight * byte, 9));
        }
        value += weight * (byte % 128);
        if byte < LAST_BELOW {
            return Some((value, place + 1));
        }
        weight *= 128;
    }
    None
}

/// Decodes the varint at the start of `slice`, canonical or not, and returns the number with the
/// varint's length. `slice` must have nine bytes or more.
pub fn varint_read_slice(slice: &[u8]) -> (u64, usize)
    requires { 9 ≤ length slice.now }
    ensures at_most { result.1 ≤ 9 }
    ensures found { Spells (take result.1 slice.now) result.0 }
{
    varint_at(slice).unwrap_or((0, 0))
}

/// Reads a varint from `reader`, byte by byte, and consumes no byte after it. It need not be
/// canonical.
///
/// # Errors
/// Returns an error if a call of `read` fails, is interrupted or returns 0 bytes. The bytes
/// consumed are then an incomplete varint.
pub fn varint_read<R: Read>(reader: &mut R) -> io::Result<u64>
    ensures ok { IfOk result (λ n. (text : List ℕ) × Spells text n
        × Consumes (R.remaining reader.old) (R.remaining reader.new) text) }
    ensures err { OnErr result ((bytes : List ℕ) × IsCut bytes
        × Consumes (R.remaining reader.old) (R.remaining reader.new) bytes) }
{
    let mut value = 0u64;
    let mut weight = 1u64;
    let mut place = 0usize;
    'bytes: loop {
        let mut one = [0u8; 1];
        read_exact(reader, &mut one)?;
        let byte = u64::from(one[0]);
        if place == 8 {
            return Ok(value + weight * byte);
        }
        value += weight * (byte % 128);
        if byte < LAST_BELOW {
            return Ok(value);
        }
        weight *= 128;
        place += 1;
    }
}

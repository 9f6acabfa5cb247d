//! Encodes the header of V2 bytes.

ghost use Rattle.std.specs.Prelude.{◌≡◌, ◌≤◌, ◌+◌, ◌++◌, ℕ, length, take, drop};
ghost use Rattle.hdrhistogram.specs.V2.{header, four, eight};

use byteorder::{BigEndian, ByteOrder};
use hdr_base::Counter;
use hdr_core::Histogram;

/// The length of a header, in bytes.
pub(crate) const HEADER_LEN: usize = 40;

/// The cookie of the V2 encoding, uncompressed.
pub(crate) const COOKIE: u32 = 0x1c84_9313;

/// The ratio of integers to doubles, 1.0, as the bits of an `f64`.
pub(crate) const RATIO: u64 = 0x3ff0_0000_0000_0000;

/// Writes `number` at the offset `at`, in four bytes.
fn put_u32(buf: &mut [u8], at: usize, number: u32)
    requires { at + 4 ≤ length buf.old }
    ensures front { take (at + 4) buf.new ≡ take at buf.old ++ four number }
    ensures unchanged { (k : ℕ) → at + 4 ≤ k → drop k buf.new ≡ drop k buf.old }
{
    BigEndian::write_u32(&mut buf[at..], number);
}

/// Writes `number` at the offset `at`, in eight bytes.
fn put_u64(buf: &mut [u8], at: usize, number: u64)
    requires { at + 8 ≤ length buf.old }
    ensures front { take (at + 8) buf.new ≡ take at buf.old ++ eight number }
    ensures unchanged { (k : ℕ) → at + 8 ≤ k → drop k buf.new ≡ drop k buf.old }
{
    BigEndian::write_u64(&mut buf[at..], number);
}

/// Writes the header of a histogram with a payload of `payload_len` bytes at the start of `buf`.
pub(crate) fn write_header<T: Counter>(h: &Histogram<T>, payload_len: u32, buf: &mut [u8])
    requires { 40 ≤ length buf.old }
    ensures { buf.new ≡ header h.now payload_len ++ drop 40 buf.old }
{
    put_u32(buf, 0, COOKIE);
    put_u32(buf, 4, payload_len);
    put_u32(buf, 8, 0);
    put_u32(buf, 12, u32::from(h.sigfig()));
    put_u64(buf, 16, h.low());
    put_u64(buf, 24, h.high());
    put_u64(buf, 32, RATIO);
}

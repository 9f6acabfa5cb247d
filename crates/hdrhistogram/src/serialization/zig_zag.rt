//! Zig-zag: signed integers as unsigned ones.

ghost use Rattle.std.specs.Prelude.{◌≡◌};
ghost use Rattle.hdrhistogram.specs.ZigZag.{zig_zag, from_zig_zag};

/// Returns 2n if `n` is 0 or more, and -2n - 1 if it is negative: 0, -1, 1, -2 become 0, 1, 2, 3.
#[inline]
pub fn zig_zag_encode(n: i64) -> u64
    ensures { result ≡ zig_zag n }
{
    if n >= 0 {
        2 * n as u64
    } else {
        2 * (-(n + 1)) as u64 + 1
    }
}

/// Returns the integer that `zig_zag_encode` encodes as `encoded`.
#[inline]
pub fn zig_zag_decode(encoded: u64) -> i64
    ensures { result ≡ from_zig_zag encoded }
{
    let half = (encoded / 2) as i64;
    if encoded % 2 == 0 { half } else { -1 - half }
}

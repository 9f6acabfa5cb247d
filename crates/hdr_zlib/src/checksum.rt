//! The checksum of a zlib stream.

ghost use Rattle.std.specs.Prelude.{◌≡◌, ◌*◌, ◌+◌, ◌<◌, ◌≤◌, ◌++◌, ℕ, List, length};
ghost use Rattle.hdr_zlib.specs.Adler.{adler32_of, sums_after};

/// The greatest prime number below 2^16.
const MODULUS: u32 = 65521;

/// The number of bytes whose sums fit a `u32` before they are reduced.
const MAX_PIECE: usize = 2048;

/// Returns the Adler-32 checksum of `bytes`.
pub fn adler32(bytes: &[u8]) -> u32
    ensures { result ≡ adler32_of bytes.now }
{
    let mut low = 1u32;
    let mut high = 0u32;
    let mut rest = bytes;
    while !rest.is_empty() {
        let (piece, others) = rest.split_at(rest.len().min(MAX_PIECE));
        (low, high) = sums_after_piece(low, high, piece);
        rest = others;
    }
    high * 65536 + low
}

/// Returns the two sums after the bytes of a piece, reduced. The second sum has each byte once for
/// itself and once for each byte after it.
fn sums_after_piece(low: u32, high: u32, piece: &[u8]) -> (u32, u32)
    requires low { low < 65521 }
    requires high { high < 65521 }
    requires few { length piece.now ≤ 2048 }
    ensures below { (result.0 < 65521) × (result.1 < 65521) }
    ensures sums { (rest : List ℕ) → sums_after result.0 result.1 rest
        ≡ sums_after low high (piece.now ++ rest) }
{
    let len = piece.len() as u32;
    let mut sum = 0;
    let mut weighted = 0;
    for (index, byte) in piece.iter().enumerate() {
        sum += u32::from(*byte);
        weighted += (len - index as u32) * u32::from(*byte);
    }
    (
        (low + sum) % MODULUS,
        (high + len * low + weighted) % MODULUS,
    )
}

//! Compressed V2 bytes, as the libraries of other languages write them.

ghost use Rattle.std.specs.Prelude.{◌≡◌, MatchResult};
ghost use Rattle.hdr_convert.specs.Converted.{IsCompressedOf};
ghost use Rattle.hdr_convert.specs.Forms.{IsPlain};
ghost use Rattle.hdr_c.specs.Bytes.{EncodesCompressed, IsCompressedV2, IsCompressedStatus};
ghost use Rattle.hdr_c.specs.Calls.{held};

use crate::handle::Handle;
use crate::status::{CLOSED, OUT_OF_MEMORY, of_convert_error, of_encode_error};
use crate::v2_bytes::copy_to;
use hdr_convert::compressed;
use hdrhistogram::Histogram;
use hdrhistogram::serialization::V2Serializer;
use std::alloc::Global;

/// Returns the compressed V2 bytes of a histogram. An error is its status.
pub(crate) fn compressed_v2(alloc: Global, histogram: &Histogram<u64>) -> Result<Vec<u8>, u32>
    ensures { MatchResult result (λ bytes. IsCompressedV2 histogram.now bytes.items)
        (IsCompressedStatus histogram.now) }
{
    let mut serializer = V2Serializer::new(alloc);
    match serializer.to_bytes(histogram) {
        Ok(bytes) => compressed_bytes(alloc, bytes),
        Err(error) => Err(of_encode_error(&error)),
    }
}

/// Returns V2 bytes compressed. The only error is the status of memory.
fn compressed_bytes(alloc: Global, v2: &[u8]) -> Result<Vec<u8>, u32>
    requires { IsPlain v2.now }
    ensures { MatchResult result (λ bytes. IsCompressedOf v2.now bytes.items) (λ status. status ≡ 2) }
{
    let Ok(copy) = Vec::from_slice(alloc, v2) else {
        return Err(OUT_OF_MEMORY);
    };
    match compressed(alloc, copy) {
        Ok(bytes) => Ok(bytes),
        Err(error) => Err(of_convert_error(&error)),
    }
}

/// Encodes the histogram as compressed V2 bytes at the start of `buf`. `needed` is the number of bytes,
/// also if `buf` is too short.
#[unsafe(no_mangle)]
pub extern "C" fn dkap_encode_compressed(
    h: &mut Handle,
    alloc: Global,
    buf: &mut [u8],
    needed: &mut usize,
) -> u32
    ensures unchanged { held h.new ≡ held h.old }
    ensures encoded { EncodesCompressed result (held h.old) buf.old buf.new needed.new }
{
    *needed = 0;
    if !h.filled {
        return CLOSED;
    }
    let held = h.pointer.as_mut();
    match compressed_v2(alloc, &held.histogram) {
        Ok(bytes) => copy_to(&bytes, buf, needed),
        Err(status) => status,
    }
}

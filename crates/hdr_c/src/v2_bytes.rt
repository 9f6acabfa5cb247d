//! V2 bytes in the caller's memory.

ghost use Rattle.std.specs.Prelude.{◌≡◌};
ghost use Rattle.hdr_c.specs.Bytes.{Decodes, Encodes, Puts};
ghost use Rattle.hdr_c.specs.Calls.{held};

use crate::decoding::decoded;
use crate::handle::Handle;
use crate::status::{BUFFER_TOO_SMALL, CLOSED, OK, OUT_OF_MEMORY, of_encode_error};
use hdrhistogram::serialization::V2Serializer;
use std::alloc::Global;

/// Copies `bytes` to the start of `buf`. `needed` is their number, also if `buf` is too short.
pub(crate) fn copy_to(bytes: &[u8], buf: &mut [u8], needed: &mut usize) -> u32
    ensures { Puts (λ text. text ≡ bytes.now) result buf.old buf.new needed.new }
{
    let len = bytes.len();
    *needed = len;
    if buf.len() < len {
        return BUFFER_TOO_SMALL;
    }
    buf[..len].copy_from_slice(bytes);
    OK
}

/// Encodes the histogram at the start of `buf`. `needed` is the number of its bytes, also if `buf`
/// is too short.
#[unsafe(no_mangle)]
pub extern "C" fn dkap_encode(
    h: &mut Handle,
    alloc: Global,
    buf: &mut [u8],
    needed: &mut usize,
) -> u32
    ensures unchanged { held h.new ≡ held h.old }
    ensures encoded { Encodes result (held h.old) buf.old buf.new needed.new }
{
    *needed = 0;
    if !h.filled {
        return CLOSED;
    }
    let held = h.pointer.as_mut();
    let mut serializer = V2Serializer::new(alloc);
    match serializer.to_bytes(&held.histogram) {
        Ok(bytes) => copy_to(bytes, buf, needed),
        Err(error) => of_encode_error(&error),
    }
}

/// Decodes the histogram at the start of `bytes`, in any form, and frees the one that the handle had.
/// `taken` is the number of bytes consumed. The histogram has at most `limit` bins.
#[unsafe(no_mangle)]
pub extern "C" fn dkap_decode(
    h: &mut Handle,
    alloc: Global,
    bytes: &[u8],
    limit: u64,
    taken: &mut usize,
) -> u32
    ensures { Decodes result limit bytes.now taken.new (held h.old) (held h.new) }
{
    *taken = 0;
    match decoded(alloc, bytes, limit) {
        Ok((histogram, length)) => {
            let Ok(()) = h.fill(alloc, histogram) else {
                return OUT_OF_MEMORY;
            };
            *taken = length;
            OK
        }
        Err(status) => status,
    }
}

//! The V2 encoding, uncompressed: a header of 40 bytes, then the counts up to the top mark's bin.

ghost use Rattle.std.specs.Prelude.{◌≡◌, ◌+◌, ◌*◌, ◌^◌, ◌≤◌, ◌<◌, ℕ, List, [], length, take, vec_len, All, OnOk, IfOk, IfErr};
ghost use Rattle.std.specs.Io.KnownBytes.{Appends};
ghost use Rattle.hdr_base.specs.Classes.{most_bins};
ghost use Rattle.hdrhistogram.specs.Payload.{enough_bytes};
ghost use Rattle.hdrhistogram.specs.V2.{IsV2, HasTooGreatCount, written_bins, written_counts};
ghost use Rattle.hdrhistogram.specs.SerializeErrors.{IsToBytesError, IsSerializeError, SerializeFails};

pub use crate::serialization::errors::V2SerializeError;
use crate::serialization::header::{HEADER_LEN, write_header};
use crate::serialization::payload::{encode_within, payload_room};
pub use crate::serialization::payload::{counts_array_max_encoded_size, encode_counts};
use crate::serialization::serializer::Serializer;
use crate::serialization::streams::write_all;
pub use crate::serialization::varint::varint_write;
pub use crate::serialization::zig_zag::{zig_zag_decode, zig_zag_encode};
use hdr_base::Counter;
use hdr_core::Histogram;
use std::alloc::{AllocError, Global};
use std::io::Write;
use std::marker::Model;

/// Encodes histograms as V2 bytes, in a buffer of its own, which is reused.
///
/// To its callers it is the list of the bytes of the last histogram: empty if it is new, and after
/// each error.
#[derive(Drop)]
pub struct V2Serializer {
    buffer: Vec<u8>,
    len: usize,
}

impl Model for V2Serializer {
    ghost use Rattle.std.specs.Prelude.{ℕ, List, ◌≤◌, take, vec_len};

    ghost Value = { List ℕ };

    ghost view = { λ s. take s.len s.buffer.items };

    ghost invariant = { λ s. s.len ≤ vec_len s.buffer };
}

impl V2Serializer {
    ghost use Rattle.std.specs.Borrow.{sem};
    ghost use Rattle.hdrhistogram.specs.Lending.{ends_lending};

    /// Creates a serializer with an empty buffer. It allocates nothing.
    pub fn new(alloc: Global) -> V2Serializer
        ensures { result ≡ [] }
    {
        V2Serializer {
            buffer: Vec::new(alloc),
            len: 0,
        }
    }

    /// Encodes the V2 bytes of a histogram into the buffer. After an error the serializer holds no
    /// bytes.
    fn fill<T: Counter>(&mut self, h: &Histogram<T>) -> Result<(), V2SerializeError>
        ensures bytes { OnOk result (IsV2 h.now self.new) }
        ensures at_most { OnOk result ((length self.new ≤ 40 + 9 * written_bins h.now)
            × (length self.new ≤ 40 + 9 * most_bins)) }
        ensures ok { OnOk result (All (λ n. n < 2 ^ 63) h.now.counts) }
        ensures err { IfErr result (λ e. IsToBytesError h.now e × (self.new ≡ [])) }
    {
        self.len = 0;
        make_room(&mut self.buffer, HEADER_LEN + payload_room(h)).map_err(
            |_| V2SerializeError::OutOfMemory,
        )?;
        self.len = write_v2(h, &mut self.buffer)?;
        Ok(())
    }

    /// Returns the V2 bytes of a histogram, borrowed from the serializer's own buffer: at most 40
    /// bytes and nine for each bin up to the top mark's.
    ///
    /// The buffer grows once at most, before anything is encoded. If nine bytes for each bin are more
    /// than 1 MiB, it grows to at most 40 bytes and nine for each nonempty bin, for a run before each
    /// of them, and for a last run.
    ///
    /// # Errors
    /// Returns `OutOfMemory` if the buffer can't grow, and then `CountNotSerializable` if a count
    /// is above `i64::MAX`. After an error the serializer holds no bytes (`after`, a clause on what
    /// it holds once the result's borrow has ended).
    pub fn to_bytes<T: Counter>(&mut self, h: &Histogram<T>) -> Result<&[u8], V2SerializeError>
        ensures bytes { IfOk result (λ bytes. IsV2 h.now bytes.now) }
        ensures at_most { IfOk result (λ bytes. (length bytes.now ≤ 40 + 9 * written_bins h.now)
            × (length bytes.now ≤ 40 + 9 * most_bins)) }
        ensures ok { OnOk result (All (λ n. n < 2 ^ 63) h.now.counts) }
        ensures err { IfErr result (IsToBytesError h.now) }
        ensures* after { sem 𝓛 (ends_lending self.entry result) }
    {
        self.fill(h)?;
        Ok(&self.buffer[..self.len])
    }
}

impl Serializer for V2Serializer {
    type SerializeError = V2SerializeError;

    ghost writes = { IsV2 };

    ghost may_fail_with = { IsSerializeError };

    /// Writes the V2 bytes of a histogram, and returns their number. They are encoded in the buffer
    /// first, and then written. An interrupted call of `write` is not retried.
    ///
    /// # Errors
    /// Returns `IoError` if a call of `write` fails, is interrupted or writes no byte; a proper
    /// prefix of the bytes is then written. The other errors are those of `to_bytes`, and nothing
    /// is written. After an error the serializer holds no bytes.
    fn serialize<T: Counter, W: Write>(
        &mut self,
        h: &Histogram<T>,
        writer: &mut W,
    ) -> Result<usize, V2SerializeError>
        ensures written { IfOk result (λ n. (bytes : List ℕ) × IsV2 h.now bytes × (n ≡ length bytes)
            × Appends (W.contents writer.old) (W.contents writer.new) bytes) }
        ensures at_most { IfOk result
            (λ n. (n ≤ 40 + 9 * written_bins h.now) × (n ≤ 40 + 9 * most_bins)) }
        ensures ok { OnOk result (All (λ n. n < 2 ^ 63) h.now.counts) }
        ensures held { OnOk result (IsV2 h.now self.new) }
        ensures err { IfErr result (λ e. (self.new ≡ [])
            × SerializeFails h.now (W.contents writer.old) (W.contents writer.new) e) }
        ensures cause { IfErr result (IsSerializeError h.now) }
    {
        self.fill(h)?;
        match write_all(writer, &self.buffer[..self.len]) {
            Ok(()) => Ok(self.len),
            Err(cause) => {
                self.len = 0;
                Err(V2SerializeError::IoError(cause))
            }
        }
    }
}

/// Zero-fills `buffer` to a length of at least `room`.
fn make_room(buffer: &mut Vec<u8>, room: usize) -> Result<(), AllocError>
    ensures { OnOk result (room ≤ vec_len buffer.new) }
{
    if buffer.len() < room {
        buffer.resize(room, 0)?;
    }
    Ok(())
}

/// Encodes the V2 bytes of a histogram at the start of `buf`, and returns their number.
fn write_v2<T: Counter>(h: &Histogram<T>, buf: &mut [u8]) -> Result<usize, V2SerializeError>
    requires { 40 + enough_bytes (written_counts h.now) ≤ length buf.old }
    ensures written { IfOk result (λ n. (n ≤ length buf.new) × IsV2 h.now (take n buf.new)) }
    ensures at_most { IfOk result (λ n. (n ≤ 40 + 9 * written_bins h.now) × (n ≤ 40 + 9 * most_bins)) }
    ensures ok { OnOk result (All (λ n. n < 2 ^ 63) h.now.counts) }
    ensures err { IfErr result (λ e. (e ≡ V2SerializeError.CountNotSerializable)
        × HasTooGreatCount h.now) }
{
    let payload_len = encode_within(h, &mut buf[HEADER_LEN..])?;
    write_header(h, payload_len as u32, buf);
    Ok(HEADER_LEN + payload_len)
}

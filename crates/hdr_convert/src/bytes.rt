//! The bytes of a histogram, compressed and not.

ghost use Rattle.std.specs.Prelude.{◌≡◌, ◌≤◌, ◌↔◌, ℕ, List, length, true, IfOk, IsOkUnless, MatchResult};
ghost use Rattle.hdr_zlib.specs.Stream.{Inflates};
ghost use Rattle.hdr_convert.specs.Forms.{IsPlain, IsCompressed, IsOldCompressed, IsOfVersion, IsDouble, Compresses, stream_len};
ghost use Rattle.hdr_convert.specs.Old.{IsOld, IsV2OfOld};
ghost use Rattle.hdr_convert.specs.Converted.{IsV2Of, IsCompressedOf, IsReadable, max_len};

use crate::errors::ConvertError;
use crate::old::{VERSION_0, VERSION_1, is_old, v2_of_old};
use byteorder::{BigEndian, ByteOrder};
use hdr_zlib::{CompressionLevel, deflate, inflate};
use std::alloc::Global;

/// The first four bytes of V2 bytes, and of compressed ones.
const V2: u32 = 0x1c84_9313;

const COMPRESSED_V2: u32 = 0x1c84_9314;

/// The same of versions 0 and 1, whose other bits have the width of a counter.
const COMPRESSED_0: u32 = 0x1c84_9309;

const COMPRESSED_1: u32 = 0x1c84_9302;

const OLD_MASK: u32 = 0xffff_ff0f;

/// The length of what precedes a zlib stream: four bytes as above, and the length of the stream.
const HEADER_LEN: usize = 8;

/// The greatest length of V2 bytes: a header of 40 bytes, and 9 for each of 6,291,456 bins.
const MAX_LEN: usize = 56_623_144;

/// Whether a histogram is compressed.
#[derive(Clone, Copy, Debug, PartialEq, Eq)]
pub enum Form {
    /// V2 bytes, as `Histogram` reads and writes them.
    Plain,
    /// A zlib stream of V2 bytes, as the libraries of other languages read and write them.
    Compressed,
}

/// Returns the form of a histogram's bytes.
///
/// # Errors
/// Returns an error if they start as no histogram does, or as one of another version or kind.
pub fn form_of(bytes: &[u8]) -> Result<Form, ConvertError>
    ensures plain { (result ≡ Ok Form.Plain) ↔ IsPlain bytes.now }
    ensures compressed { (result ≡ Ok Form.Compressed) ↔ IsCompressed bytes.now }
    ensures old { (version : ℕ) → (result ≡ Err (ConvertError.OldVersion version)) ↔ IsOfVersion version bytes.now }
    ensures double { (result ≡ Err ConvertError.DoubleHistogram) ↔ IsDouble bytes.now }
{
    if bytes.len() < 4 {
        return Err(ConvertError::NotAHistogram);
    }
    let cookie = BigEndian::read_u32(bytes);
    match cookie & OLD_MASK {
        _ if cookie == V2 => Ok(Form::Plain),
        _ if cookie == COMPRESSED_V2 => Ok(Form::Compressed),
        VERSION_1 | COMPRESSED_1 => Err(ConvertError::OldVersion(1)),
        VERSION_0 | COMPRESSED_0 => Err(ConvertError::OldVersion(0)),
        _ if cookie == 0x0c72_124e || cookie == 0x0c72_124f => Err(ConvertError::DoubleHistogram),
        _ => Err(ConvertError::NotAHistogram),
    }
}

/// Returns the V2 bytes of a histogram of either form, or of one of version 0 or 1.
///
/// # Errors
/// Returns an error if `bytes` are of neither form, if the zlib stream is invalid or would take more than the greatest V2
/// bytes, or if an allocation fails. Of version 0 or 1, returns an error if its values are shifted or scaled, or if no histogram
/// has its bounds and counts.
#[tactic(auto, using(crate::proofs::Cookies::old_not_plain, crate::proofs::Cookies::old_not_compressed))]
pub fn v2_bytes(alloc: Global, bytes: Vec<u8>) -> Result<Vec<u8>, ConvertError>
    ensures plain { IsPlain bytes.items → result ≡ Ok bytes }
    ensures v2 { IfOk result (λ v2. IsPlain v2.items) }
    ensures inside { IsCompressed bytes.items → IfOk result (λ v2. Compresses bytes.items v2.items) }
    ensures old { IsOld bytes.items → IfOk result (λ v2. IsV2OfOld bytes.items v2.items) }
    ensures v2_of { IfOk result (λ v2. IsV2Of bytes.items v2.items) }
    ensures readable { IsReadable bytes.items → IsOkUnless result ConvertError.OutOfMemory }
{
    if is_old(&bytes) {
        return v2_of_old(alloc, &bytes);
    }
    match form_of(&bytes) {
        Ok(Form::Plain) => Ok(bytes),
        Ok(Form::Compressed) => v2_inside(alloc, &bytes),
        Err(_) if is_old_compressed(&bytes) => v2_of_old(alloc, &decompressed(alloc, &bytes)?),
        Err(error) => Err(error),
    }
}

/// Returns the bytes of a histogram of either form, or of version 0 or 1, as compressed V2 bytes.
///
/// # Errors
/// As `v2_bytes`, unless `bytes` are compressed V2 bytes. Returns `OutOfMemory` if the stream's length exceeds 32 bits.
pub fn compressed(alloc: Global, bytes: Vec<u8>) -> Result<Vec<u8>, ConvertError>
    ensures compressed { IsCompressed bytes.items → result ≡ Ok bytes }
    ensures starts { IfOk result (λ packed. IsCompressed packed.items) }
    ensures holds { IfOk result (λ packed. IsCompressedOf bytes.items packed.items) }
    ensures readable { IsReadable bytes.items → IsOkUnless result ConvertError.OutOfMemory }
{
    if is_compressed(&bytes) {
        return Ok(bytes);
    }
    let plain = v2_bytes(alloc, bytes)?;
    with_header(alloc, &deflate(alloc, &plain, CompressionLevel::Huffman)?)
}

/// Whether bytes start as compressed V2 bytes.
fn is_compressed(bytes: &[u8]) -> bool
    ensures { (result ≡ true) ↔ IsCompressed bytes.now }
{
    matches!(form_of(bytes), Ok(Form::Compressed))
}

/// Returns a zlib stream as a compressed histogram.
fn with_header(alloc: Global, stream: &[u8]) -> Result<Vec<u8>, ConvertError>
    ensures starts { IfOk result (λ packed. IsCompressed packed.items) }
    ensures holds { (v2 : List ℕ) → Inflates stream.now v2 → IfOk result (λ packed. IsCompressed packed.items
        × Compresses packed.items v2) }
    ensures memory { IsOkUnless result ConvertError.OutOfMemory }
{
    let len = u32::try_from(stream.len()).map_err(|_| ConvertError::OutOfMemory)?;
    let mut output = Vec::new(alloc);
    output.extend_from_slice(&COMPRESSED_V2.to_be_bytes())?;
    output.extend_from_slice(&len.to_be_bytes())?;
    output.extend_from_slice(stream)?;
    Ok(output)
}

/// Returns the V2 bytes that compressed ones hold.
fn v2_inside(alloc: Global, bytes: &[u8]) -> Result<Vec<u8>, ConvertError>
    ensures v2 { IfOk result (λ v2. IsPlain v2.items) }
    ensures inside { IfOk result (λ v2. Compresses bytes.now v2.items) }
    ensures complete { (v2 : List ℕ) → length v2 ≤ max_len → Compresses bytes.now v2 → IsPlain v2
        → IsOkUnless result ConvertError.OutOfMemory }
{
    let plain = decompressed(alloc, bytes)?;
    match form_of(&plain) {
        Ok(Form::Plain) => Ok(plain),
        _ => Err(ConvertError::NotV2Inside),
    }
}

/// Whether bytes start as a compressed histogram of version 0 or 1.
fn is_old_compressed(bytes: &[u8]) -> bool
    ensures { (result ≡ true) ↔ IsOldCompressed bytes.now }
{
    bytes.len() >= 4
        && matches!(
            BigEndian::read_u32(bytes) & OLD_MASK,
            COMPRESSED_0 | COMPRESSED_1
        )
}

/// Returns the length of the zlib stream of a compressed histogram.
#[tactic(auto, unfolding(crate::specs::Forms::stream_len))]
fn stream_len(bytes: &[u8]) -> usize
    requires { 8 ≤ length bytes.now }
    ensures { result ≡ stream_len bytes.now }
{
    BigEndian::read_u32(&bytes[4..]) as usize
}

/// Returns the bytes that a compressed histogram holds. Bytes after the stream are ignored.
fn decompressed(alloc: Global, bytes: &[u8]) -> Result<Vec<u8>, ConvertError>
    ensures sound { IfOk result (λ inside. Compresses bytes.now inside.items) }
    ensures complete { (inside : List ℕ) → length inside ≤ max_len → Compresses bytes.now inside
        → MatchResult result (λ found. found.items ≡ inside) (λ error. error ≡ ConvertError.OutOfMemory) }
{
    if bytes.len() < HEADER_LEN {
        return Err(ConvertError::Incomplete);
    }
    let len = stream_len(bytes);
    let (_, rest) = bytes.split_at(HEADER_LEN);
    if len > rest.len() {
        return Err(ConvertError::Incomplete);
    }
    Ok(inflate(alloc, &rest[..len], MAX_LEN)?)
}

//! Decodes the header of V2 bytes, field by field.

ghost use Rattle.std.specs.Prelude.{◌≡◌, Some, IfOk, IfErr};
ghost use Rattle.hdrhistogram.specs.Defects.{Gives, TakesAs, Checks, RunsOutOnly, defect_of_error, cut};
ghost use Rattle.hdrhistogram.specs.V2Read.{four_at, eight_at, cookie_defect, offset_defect, sigfig_defect, ratio_defect, header_at};
ghost use Rattle.hdrhistogram.specs.HeaderView.{header_of};

use crate::serialization::errors::DeserializeError;
use crate::serialization::header::{COOKIE, RATIO};
use crate::serialization::streams::read_exact;
use byteorder::{BigEndian, ByteOrder};
use std::io::{self, ErrorKind, Read};

/// The cookie of the V2 encoding, compressed.
const COMPRESSED_COOKIE: u32 = 0x1c84_9314;

/// The fields of a header that vary.
#[derive(Clone, Copy)]
pub(crate) struct Header {
    pub payload_len: u32,
    pub sigfig: u8,
    pub low: u64,
    pub high: u64,
}

/// Returns the error of bytes that end too soon.
pub(crate) fn unexpected_eof() -> DeserializeError
    ensures defect { defect_of_error result ≡ Some cut }
    ensures no_out_of_memory { RunsOutOnly ⊥ result }
{
    DeserializeError::IoError(io::Error::from(ErrorKind::UnexpectedEof))
}

#[tactic(auto, unfolding(crate::specs::V2Read::cookie_defect))]
fn check_cookie(cookie: u32) -> Result<(), DeserializeError>
    ensures defect { Checks result (cookie_defect cookie) }
    ensures no_out_of_memory { IfErr result (RunsOutOnly ⊥) }
{
    if cookie == COOKIE {
        Ok(())
    } else if cookie == COMPRESSED_COOKIE {
        Err(DeserializeError::UnsupportedFeature)
    } else {
        Err(DeserializeError::InvalidCookie)
    }
}

#[tactic(auto, unfolding(crate::specs::V2Read::offset_defect))]
fn check_offset(offset: u32) -> Result<(), DeserializeError>
    ensures defect { Checks result (offset_defect offset) }
    ensures no_out_of_memory { IfErr result (RunsOutOnly ⊥) }
{
    if offset == 0 {
        Ok(())
    } else {
        Err(DeserializeError::UnsupportedFeature)
    }
}

#[tactic(auto, unfolding(crate::specs::V2Read::sigfig_defect))]
fn check_sigfig(sigfig: u32) -> Result<u8, DeserializeError>
    ensures defect { Checks result (sigfig_defect sigfig) }
    ensures no_out_of_memory { IfErr result (RunsOutOnly ⊥) }
    ensures value { IfOk result (λ n. n ≡ sigfig) }
{
    u8::try_from(sigfig).map_err(|_| DeserializeError::InvalidParameters)
}

#[tactic(auto, unfolding(crate::specs::V2Read::ratio_defect))]
fn check_ratio(ratio: u64) -> Result<(), DeserializeError>
    ensures defect { Checks result (ratio_defect ratio) }
    ensures no_out_of_memory { IfErr result (RunsOutOnly ⊥) }
{
    if ratio == RATIO {
        Ok(())
    } else {
        Err(DeserializeError::UnsupportedFeature)
    }
}

/// Decodes the number in the first four bytes, and returns it with the rest.
#[tactic(auto, unfolding(crate::specs::V2Read::four_at, crate::specs::V2Read::four_of))]
fn four_at(text: &[u8]) -> Result<(u32, &[u8]), DeserializeError>
    ensures read { Gives (λ x. (x.0, x.1.now)) result (four_at text.now) }
    ensures no_out_of_memory { IfErr result (RunsOutOnly ⊥) }
{
    if text.len() < 4 {
        return Err(unexpected_eof());
    }
    Ok((BigEndian::read_u32(text), &text[4..]))
}

/// Decodes the number in the first eight bytes, and returns it with the rest.
#[tactic(auto, unfolding(crate::specs::V2Read::eight_at, crate::specs::V2Read::eight_of))]
fn eight_at(text: &[u8]) -> Result<(u64, &[u8]), DeserializeError>
    ensures read { Gives (λ x. (x.0, x.1.now)) result (eight_at text.now) }
    ensures no_out_of_memory { IfErr result (RunsOutOnly ⊥) }
{
    if text.len() < 8 {
        return Err(unexpected_eof());
    }
    Ok((BigEndian::read_u64(text), &text[8..]))
}

/// Decodes the header at the start of `text`, and returns it with the rest.
#[tactic(auto, unfolding(crate::specs::V2Read::header_at))]
pub(crate) fn header_at(text: &[u8]) -> Result<(Header, &[u8]), DeserializeError>
    ensures read { Gives (λ x. (header_of x.0, x.1.now)) result (header_at text.now) }
    ensures no_out_of_memory { IfErr result (RunsOutOnly ⊥) }
{
    let (cookie, text) = four_at(text)?;
    check_cookie(cookie)?;
    let (payload_len, text) = four_at(text)?;
    let (offset, text) = four_at(text)?;
    check_offset(offset)?;
    let (sigfig, text) = four_at(text)?;
    let sigfig = check_sigfig(sigfig)?;
    let (low, text) = eight_at(text)?;
    let (high, text) = eight_at(text)?;
    let (ratio, text) = eight_at(text)?;
    check_ratio(ratio)?;
    let header = Header {
        payload_len,
        sigfig,
        low,
        high,
    };
    Ok((header, text))
}

/// Reads a field of four bytes.
fn read_four<R: Read>(reader: &mut R) -> Result<u32, DeserializeError>
    ensures read { TakesAs (R.remaining reader.old) (R.remaining reader.new) (λ n. n) four_at result }
    ensures no_out_of_memory { IfErr result (RunsOutOnly ⊥) }
{
    let mut bytes = [0u8; 4];
    read_exact(reader, &mut bytes)?;
    Ok(BigEndian::read_u32(&bytes))
}

/// Reads a field of eight bytes.
fn read_eight<R: Read>(reader: &mut R) -> Result<u64, DeserializeError>
    ensures read { TakesAs (R.remaining reader.old) (R.remaining reader.new) (λ n. n) eight_at result }
    ensures no_out_of_memory { IfErr result (RunsOutOnly ⊥) }
{
    let mut bytes = [0u8; 8];
    read_exact(reader, &mut bytes)?;
    Ok(BigEndian::read_u64(&bytes))
}

/// Reads a header, and consumes no byte after it.
pub(crate) fn read_header<R: Read>(reader: &mut R) -> Result<Header, DeserializeError>
    ensures read { TakesAs (R.remaining reader.old) (R.remaining reader.new) header_of header_at result }
    ensures no_out_of_memory { IfErr result (RunsOutOnly ⊥) }
{
    let cookie = read_four(reader)?;
    check_cookie(cookie)?;
    let payload_len = read_four(reader)?;
    let offset = read_four(reader)?;
    check_offset(offset)?;
    let digits = read_four(reader)?;
    let sigfig = check_sigfig(digits)?;
    let low = read_eight(reader)?;
    let high = read_eight(reader)?;
    let ratio = read_eight(reader)?;
    check_ratio(ratio)?;
    Ok(Header {
        payload_len,
        sigfig,
        low,
        high,
    })
}

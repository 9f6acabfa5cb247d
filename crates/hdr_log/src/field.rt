//! The Base64 field of an interval, which holds its histogram.

ghost use Rattle.std.specs.Prelude.{◌≡◌, Some, None, MatchResult};
ghost use Rattle.hdr_log.specs.Texts.{base64_bytes};
ghost use Rattle.hdr_log.specs.Fields.{IsFieldError};

use base64::DecodeAllocError;
use base64::engine::general_purpose::STANDARD;
use std::alloc::Global;

/// Why a field is not decoded.
#[derive(Debug, PartialEq, Eq, Drop)]
pub enum FieldError {
    /// It is not valid Base64.
    NotBase64,
    /// An allocation failed.
    OutOfMemory,
}

/// Decodes a field in Base64, and returns its bytes.
pub fn decoded(alloc: Global, field: &str) -> Result<Vec<u8>, FieldError>
    ensures { MatchResult result (λ bytes. base64_bytes field.now ≡ Some bytes.items)
        (IsFieldError field.now) }
{
    let mut bytes = Vec::new(alloc);
    decode_into(field, &mut bytes)?;
    Ok(bytes)
}

/// Decodes a field in Base64 into `buffer`, and replaces what it held, so that one buffer serves for many fields. On error its
/// contents are unspecified.
#[tactic(auto, unfolding(crate::specs::Texts::base64_bytes))]
pub fn decode_into(field: &str, buffer: &mut Vec<u8>) -> Result<(), FieldError>
    ensures { MatchResult result (λ _. base64_bytes field.now ≡ Some buffer.new.items)
        (IsFieldError field.now) }
{
    buffer.clear();
    match STANDARD.decode_vec(field.as_bytes(), buffer) {
        Ok(()) => Ok(()),
        Err(DecodeAllocError::OutOfMemory) => Err(FieldError::OutOfMemory),
        Err(_) => Err(FieldError::NotBase64),
    }
}

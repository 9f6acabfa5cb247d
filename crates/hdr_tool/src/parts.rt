//! The complete lines of a piece of the input.

ghost use Rattle.std.specs.Prelude.{◌≡◌, ◌≢◌, ◌<◌, ◌∷◌, ◌++◌, [], ℕ, length, slice_index, IfSome, IfNone, IfOk, OnOk, MatchOption};
ghost use Rattle.std.specs.Option.{option_map_or};

use memchr::memrchr;
use std::alloc::AllocError;

/// Splits `text` at the last `byte`, and returns the parts before and after it. Returns `None` if
/// it has none.
pub(crate) fn split_at_last(text: &[u8], byte: u8) -> Option<(&[u8], &[u8])>
    ensures parts { IfSome result (λ p. text.now ≡ p.0.now ++ byte ∷ p.1.now) }
    ensures last { IfSome result (λ p. (i : ℕ) → i < length p.1.now → slice_index p.1.now i ≢ byte) }
    ensures none { IfNone result ((i : ℕ) → i < length text.now → slice_index text.now i ≢ byte) }
{
    let at = memrchr(byte, text)?;
    Some((&text[..at], &text[at + 1..]))
}

/// Appends the complete lines of `piece` to `text`, without the last LF, and returns the rest of
/// `piece`. If `piece` has no LF, appends all of it and returns `None`.
pub(crate) fn take_lines<'a>(
    text: &mut Vec<u8>,
    piece: &'a [u8],
) -> Result<Option<&'a [u8]>, AllocError>
    ensures parts { IfOk result (λ tail. text.old.items ++ piece.now
        ≡ text.new.items ++ option_map_or (λ rest. 10 ∷ rest.now) tail []) }
    ensures whole { IfOk result (λ tail. MatchOption tail
        ((i : ℕ) → i < length piece.now → slice_index piece.now i ≢ 10)
        (λ rest. (i : ℕ) → i < length rest.now → slice_index rest.now i ≢ 10)) }
{
    match split_at_last(piece, b'\n') {
        Some((front, tail)) => {
            text.extend_from_slice(front)?;
            Ok(Some(tail))
        }
        None => {
            text.extend_from_slice(piece)?;
            Ok(None)
        }
    }
}

/// Replaces the contents of `text` with `other`.
pub(crate) fn replace(text: &mut Vec<u8>, other: &[u8]) -> Result<(), AllocError>
    ensures { OnOk result (text.new.items ≡ other.now) }
{
    text.clear();
    text.extend_from_slice(other)
}

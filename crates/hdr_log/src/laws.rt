//! The laws of logs, each the contract of an empty function.

ghost use Rattle.std.specs.Prelude.{◌≡◌, ℕ, ◌*◌, ◌/◌, ◌<◌, ◌^◌, Some, Option, List, map};
ghost use Rattle.std.specs.List.{AllByRecursion, flat_map};
ghost use Rattle.base64.specs.GeneralPurpose.{IsBytes};
ghost use Rattle.hdr_log.specs.Grammar.{reading, time_of};
ghost use Rattle.hdr_log.specs.Texts.{thousandths_text, base64_of, base64_bytes};
ghost use Rattle.hdr_log.specs.Pieces.{Piece, Measured, IsField, IsPiece, IsIntervalRead, text_of, entries_of_piece, is_read};

/// A time that is printed is read back to the thousandth of a second.
pub fn time_is_read()
    ensures { (t : ℕ) → t / 1000 < 2 ^ 64 → time_of (thousandths_text t) ≡ Some (t * 1_000_000) }
{}

/// Reading the line of an interval returns its tag, its times, its greatest value and its field.
pub fn interval_is_read()
    ensures { (tag : Option (List ℕ)) (start time max : ℕ) (field : List ℕ)
        → IsPiece (Measured tag start time max field) → IsIntervalRead tag start time max field }
{}

/// The Base64 encoding of bytes is a valid field, and decodes to the same bytes. What a field decodes
/// to is bytes: numbers below 256.
pub fn base64_is_read()
    ensures field { (bytes : List ℕ) → IsField (base64_of bytes) }
    ensures decoded { (bytes : List ℕ) → IsBytes bytes
        → base64_bytes (base64_of bytes) ≡ Some bytes }
    ensures bytes { (field bytes : List ℕ) → base64_bytes field ≡ Some bytes → IsBytes bytes }
{}

/// The times and intervals written to a log are read back, in order, each time and greatest value
/// to the thousandth. So are the headers of times that comments contain. Nothing else is read, and
/// no line is invalid.
pub fn written_is_read()
    ensures { (pieces : List Piece) → AllByRecursion IsPiece pieces
        → reading (text_of pieces) ≡ map is_read (flat_map entries_of_piece pieces) }
{}

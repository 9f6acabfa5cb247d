//! Laws of the definitions that the contracts cite. Each function does nothing: its contract is the
//! law.

ghost use Rattle.hdr_model.specs.Equality.{same_plain};
ghost use Rattle.std.specs.Prelude.{◌≡◌, ◌↔◌, ℕ, ◌^◌, ◌<◌, ◌≤◌, ◌++◌, List, length, slice_index, All, ℤ, true, Some, Result, Ok, IsOk};
ghost use Rattle.std.specs.List.{AllByRecursion};
ghost use Rattle.hdr_base.specs.Classes.{Resolution, IsFiner};
ghost use Rattle.hdr_model.specs.Plain.{Plain, IsPlain, resolution};
ghost use Rattle.hdr_model.specs.Samples.{StandsFor};
ghost use Rattle.hdr_base.specs.Fractions.{Ratio};
ghost use Rattle.hdr_model.specs.Quantiles.{value_at_quantile};
ghost use Rattle.hdr_model.specs.Joining.{joined_samples, AnswersRanked};
ghost use Rattle.hdr_log.specs.Texts.{AreBytes};
ghost use Rattle.hdr_log.specs.Timed.{TimedInterval};
ghost use Rattle.hdrhistogram.specs.Chosen.{Filter};
ghost use Rattle.hdrhistogram.specs.LogMerging.{Merging, Merges, AreChosen, AreChosenIn, HasAdded, MergesSamples, coarser_of};
ghost use Rattle.hdrhistogram.specs.declared.serialization.interval_log.merge.MergeError.{MergeError};
ghost use Rattle.hdrhistogram.specs.declared.serialization.errors.DeserializeError.{DeserializeError};
ghost use Rattle.hdrhistogram.specs.Defects.{cut, defect_of_error};
ghost use Rattle.hdrhistogram.specs.Varint.{Spells, IsShortest};
ghost use Rattle.hdrhistogram.specs.ZigZag.{zig_zag, from_zig_zag};
ghost use Rattle.hdrhistogram.specs.Payload.{Part, IsSplit, IsPayload};
ghost use Rattle.hdrhistogram.specs.V2.{IsV2, IsWrittenAlike};
ghost use Rattle.hdrhistogram.specs.PayloadRead.{Parted, split_spellings, AreSpellings};
ghost use Rattle.hdrhistogram.specs.V2Read.{v2_at, Contents, histogram_contents, IsRestated, IsReadBack, IsReadAs, ReadsV2};

use crate::serialization::DeserializeError;
use hdr_core::laws::{clearing_stands, joined_stands, new_is_plain, samples_are_counted};
use std::io::{self, ErrorKind};

/// Each number below 2^64 has exactly one canonical varint. No varint is longer than nine bytes.
pub fn one_canonical_spelling()
    ensures exists { (n : ℕ) → n < 2 ^ 64 → (text : List ℕ) × IsShortest text n }
    ensures unique { (n : ℕ) (a b : List ℕ) → IsShortest a n → IsShortest b n → a ≡ b }
    ensures short { (n : ℕ) (text : List ℕ) → Spells text n → length text ≤ 9 }
{}

/// No varint is a proper prefix of another: bytes start with at most one varint, of one number.
pub fn spellings_end()
    ensures { (a b x y : List ℕ) (m n : ℕ) → Spells a m → Spells b n → a ++ x ≡ b ++ y
        → (a ≡ b) × (m ≡ n) }
{}

/// Zig-zag and its inverse undo each other.
pub fn zig_zag_inverse()
    ensures decoded { (z : ℤ) → from_zig_zag (zig_zag z) ≡ z }
    ensures encoded { (n : ℕ) → zig_zag (from_zig_zag n) ≡ n }
{}

/// Counts have exactly one split into maximal runs of empty bins and single nonempty bins, and at
/// most one payload. They have one if they are fewer than 2^63, and each is below 2^63.
pub fn one_payload()
    ensures parts { (counts : List ℕ) → (parts : List Part) × IsSplit counts parts }
    ensures split { (counts : List ℕ) (a b : List Part) → IsSplit counts a → IsSplit counts b
        → a ≡ b }
    ensures unique { (counts a b : List ℕ) → IsPayload counts a → IsPayload counts b → a ≡ b }
    ensures exists { (counts : List ℕ) → length counts < 2 ^ 63 → All (λ c. c < 2 ^ 63) counts
        → (text : List ℕ) × IsPayload counts text }
{}

/// A payload encodes one list of counts.
pub fn payload_tells_counts()
    ensures { (counts other text : List ℕ) → IsPayload counts text → IsPayload other text
        → counts ≡ other }
{}

/// The V2 bytes of two histograms are equal exactly if the bounds, the digits, the counts and the
/// top mark's class are equal; no mark counts as the first class. Their counter types, totals,
/// lower marks and auto-resize may differ.
pub fn bytes_agree()
    ensures equal { (h k : Plain) (a b : List ℕ) → IsV2 h a → IsV2 k b → IsWrittenAlike h k → a ≡ b }
    ensures alike { (f g : ℕ) (h k : Plain) (a b : List ℕ) → IsPlain f h → IsPlain g k
        → IsV2 h a → IsV2 k b → a ≡ b → IsWrittenAlike h k }
{}

/// A payload has exactly one split into varints and an incomplete rest: that of `split_spellings`.
pub fn one_parting()
    ensures are { (payload : List ℕ)
        → AreSpellings payload (split_spellings 8 payload).texts (split_spellings 8 payload).rest }
    ensures only { (payload rest : List ℕ) (texts : List (List ℕ)) → AreSpellings payload texts rest
        → split_spellings 8 payload ≡ record { texts = texts; rest = rest } }
{}

/// Decoding consumes a prefix of the bytes, and the bytes after that prefix do not change the
/// result.
pub fn reading_takes_a_front()
    ensures { (most : ℕ) (text rest : List ℕ) (c : Contents) → v2_at most text ≡ Ok (c, rest)
        → (front : List ℕ) × (text ≡ front ++ rest)
        × ((more : List ℕ) → v2_at most (front ++ more) ≡ Ok (c, more)) }
{}

/// The V2 bytes of a histogram, followed by any bytes, decode to its bounds, digits and counts for
/// the same counter type. The bytes after them are left. The decoded histogram is equal to it if
/// its total and marks follow from its counts (`IsRestated`).
pub fn bytes_read_back()
    ensures bytes { (h : Plain) (text : List ℕ) → IsV2 h text → (i : ℕ) → slice_index text i < 256 }
    ensures contents { (greatest : ℕ) (h : Plain) (bytes more : List ℕ) → IsPlain greatest h
        → IsV2 h bytes
        → v2_at greatest (bytes ++ more) ≡ Ok (histogram_contents h, more) }
    ensures histogram { (greatest taken : ℕ) (h k : Plain) (bytes more : List ℕ)
        → IsPlain greatest h → IsV2 h bytes
        → IsReadAs greatest (bytes ++ more) k taken → (taken ≡ length bytes) × IsReadBack h k }
    ensures equal { (h k : Plain) → IsRestated h → IsReadBack h k → same_plain k h ≡ true }
{}

/// Returns the error of bytes that end too soon.
fn early_end() -> DeserializeError
    ensures { defect_of_error result ≡ Some cut }
{
    DeserializeError::IoError(io::Error::from(ErrorKind::UnexpectedEof))
}

/// Decoding any bytes has a result: a histogram, or an error that names their defect. What is
/// decoded is a histogram, for the same counter type.
pub fn bytes_are_read()
    ensures exists { (greatest : ℕ) (text : List ℕ)
        → (found : Result (Plain × ℕ) DeserializeError) × ReadsV2 greatest text found }
    ensures plain { (greatest taken : ℕ) (text : List ℕ) (h : Plain)
        → AreBytes text → IsReadAs greatest text h taken → IsPlain greatest h }
{
    let _cut = early_end();
}

/// A histogram that was encoded and decoded has the same classes. If it stood for samples, it still
/// does, with the same total and value at each quantile, 0 and those above 1 included.
pub fn read_back_stands()
    ensures plain { (greatest : ℕ) (h k : Plain) → IsPlain greatest h → IsReadBack h k
        → IsPlain greatest k }
    ensures classes { (h k : Plain) → IsReadBack h k → resolution k ≡ resolution h }
    ensures samples { (greatest : ℕ) (h k : Plain) (S : List ℕ) → IsPlain greatest h
        → IsReadBack h k → StandsFor h S
        → StandsFor k S }
    ensures quantiles { (most : ℕ) (h k : Plain) (S : List ℕ) → IsPlain most h
        → IsReadBack h k → StandsFor h S
        → (k.total ≡ h.total) × ((q : Ratio) → value_at_quantile k q ≡ value_at_quantile h q) }
{
    samples_are_counted();
}

/// Merging a log adds the histograms of its chosen intervals in order, and counts them and those
/// that are coarser than the sum. None is coarser exactly if all are finer (`IsFiner`). The sum has
/// the lowest value 1 and `sigfig` digits. If each chosen interval holds a histogram and each line
/// is valid, the log has no error.
pub fn merging_adds_the_chosen()
    ensures added { (most sigfig : ℕ) (filter : Filter) (log : List ℕ) (m : Merging)
        → Merges most filter sigfig log (Ok m)
        → (hs : List Plain) × AreChosenIn filter log hs × HasAdded most sigfig m hs }
    ensures finer { (g : Resolution) (hs : List Plain)
        → (coarser_of g hs ≡ 0) ↔ AllByRecursion (λ (h : Plain). IsFiner (resolution h) g) hs }
    ensures only { (filter : Filter) (intervals : List (Result TimedInterval ℕ))
        (hs others : List Plain) → AreChosen filter intervals hs
        → AreChosen filter intervals others → hs ≡ others }
    ensures taken { (greatest sigfig : ℕ) (filter : Filter) (log : List ℕ) (hs : List Plain)
        (r : Result Merging MergeError) → AreChosenIn filter log hs
        → Merges greatest filter sigfig log r → IsOk r }
    ensures digits { (greatest sigfig : ℕ) (filter : Filter) (log : List ℕ) (m : Merging)
        → Merges greatest filter sigfig log (Ok m)
        → (m.histogram.low ≡ 1) × (m.histogram.sigfig ≡ sigfig) }
{}

/// A merge stands for the joined samples of its chosen intervals if they fit, and its quantiles are
/// theirs. The classes of the intervals must not be coarser than those of the merge.
pub fn merged_log_stands()
    ensures sum { (most sigfig : ℕ) (filter : Filter) (log : List ℕ) (m : Merging)
        (Ls : List (List ℕ)) → MergesSamples most sigfig filter log m Ls
        → StandsFor m.histogram (joined_samples Ls) }
    ensures ranked { (most sigfig : ℕ) (filter : Filter) (log : List ℕ) (m : Merging)
        (Ls : List (List ℕ)) → MergesSamples most sigfig filter log m Ls
        → AnswersRanked m.histogram (joined_samples Ls) }
{
    new_is_plain();
    clearing_stands();
    joined_stands();
    merging_adds_the_chosen();
}

//! The trait of serializers.

ghost use Rattle.std.specs.Prelude.{◌≡◌, ℕ, List, length, IfOk, IfErr};
ghost use Rattle.std.specs.Io.KnownBytes.{Appends};
ghost use Rattle.hdr_model.specs.Plain.{Plain};

use hdr_base::Counter;
use hdr_core::Histogram;
use std::io::Write;

/// Writes histograms as bytes.
pub trait Serializer {
    /// The error of `serialize`.
    type SerializeError: Drop;

    /// Whether a histogram may be written as these bytes. It depends on the histogram's numbers
    /// alone, not on a counter type or a writer.
    ghost writes: { Plain → List ℕ → Type 0 };

    /// Whether writing a histogram may fail with this error, whatever the writer holds; any error
    /// if it is left out.
    ghost may_fail_with: { Plain → Self.SerializeError → Type 0 } = { λ _ _. Unit {0} };

    /// Writes all of the histogram to `writer`, and returns the number of bytes written.
    ///
    /// # Errors
    /// Returns an error that `may_fail_with` allows. What is then written is unspecified.
    fn serialize<T: Counter, W: Write>(
        &mut self,
        h: &Histogram<T>,
        writer: &mut W,
    ) -> Result<usize, Self::SerializeError>
        ensures written { IfOk result (λ n. (bytes : List ℕ)
            × writes h.now bytes × (n ≡ length bytes)
            × Appends (W.contents writer.old) (W.contents writer.new) bytes) }
        ensures cause { IfErr result (may_fail_with h.now) };
}

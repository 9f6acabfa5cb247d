//! The histograms of intervals, added to a sum.

ghost use Rattle.std.specs.Prelude.{◌≡◌, ◌^◌, ◌-◌, IfOk, OnOk, IsTrue, ◌↔◌};
ghost use Rattle.hdr_base.specs.Classes.{IsFiner};
ghost use Rattle.hdr_model.specs.Plain.{resolution};
ghost use Rattle.hdr_model.specs.Merging.{after_add};

use hdrhistogram::{AdditionError, Histogram};

/// Adds the histogram of an interval to a sum. Returns whether it is coarser than the sum: its
/// classes do not lie in those of the sum.
///
/// # Errors
/// As `Histogram::add`.
pub fn add(sum: &mut Histogram<u64>, interval: &Histogram<u64>) -> Result<bool, AdditionError>
    ensures sum { OnOk result (sum.new ≡ after_add (2 ^ 64 - 1) sum.old interval.now) }
    ensures coarser { IfOk result (λ is_coarser. IsTrue is_coarser ↔ (IsFiner (resolution interval.now) (resolution sum.old) → ⊥)) }
{
    let is_coarser = !interval.refines(sum);
    sum.add_from(interval)?;
    Ok(is_coarser)
}

//! Sums of batches.

ghost use Rattle.std.specs.Prelude.{◌≡◌, [], IfErr, IfOk};
ghost use Rattle.std.specs.List.{All};
ghost use Rattle.hdr_base.specs.Classes.{IsFiner};
ghost use Rattle.hdr_model.specs.Plain.{resolution};
ghost use Rattle.hdr_model.specs.Samples.{StandsFor};
ghost use Rattle.hdr_compare.specs.Sums.{AreLeastClasses, IsSumOf, IsWidthOf};

use crate::run::BatchError;
use hdr_model::laws::clearing_stands;
use hdrhistogram::Histogram;
use std::alloc::Global;

/// The width of classes: their least one, and the significant digits that they keep.
#[derive(Clone, Copy)]
struct Width {
    low: u64,
    sigfig: u8,
}

/// Returns the width of classes that have those of all batches in them.
fn width_of(batches: &[Histogram<u64>]) -> Width
    ensures { IsWidthOf batches.now result }
{
    let mut width = Width { low: 1, sigfig: 5 };
    for batch in batches {
        width = Width {
            low: width.low.max(batch.low()),
            sigfig: width.sigfig.min(batch.sigfig()),
        };
    }
    width
}

/// Returns the sum of batches, in classes that have those of all of them in them.
pub(crate) fn sum_of(
    alloc: Global,
    batches: &[Histogram<u64>],
) -> Result<Histogram<u64>, BatchError>
    ensures samples { IfOk result (IsSumOf batches.now) }
    ensures classes { IfOk result (λ sum. AreLeastClasses batches.now (resolution sum)) }
    ensures errors { IfErr result (λ e. e ≡ BatchError.OutOfMemory) }
{
    let sum = without_samples(alloc, width_of(batches))?;
    added(sum, batches)
}

/// Returns a histogram without samples, of classes of a width.
#[tactic(auto, unfolding(hdr_model::specs::Plain::empty_plain))]
fn without_samples(alloc: Global, width: Width) -> Result<Histogram<u64>, BatchError>
    ensures stands { IfOk result (λ h. StandsFor h []) }
    ensures low { IfOk result (λ h. h.low ≡ width.low) }
    ensures sigfig { IfOk result (λ h. h.sigfig ≡ width.sigfig) }
    ensures errors { IfErr result (λ e. e ≡ BatchError.OutOfMemory) }
{
    clearing_stands();
    let twice = width.low.saturating_mul(2);
    match Histogram::new_with_bounds(alloc, width.low, twice, width.sigfig) {
        Ok(histogram) => Ok(histogram),
        Err(_) => Err(BatchError::OutOfMemory),
    }
}

/// Returns a sum to which batches are added. It grows.
fn added(mut sum: Histogram<u64>, batches: &[Histogram<u64>]) -> Result<Histogram<u64>, BatchError>
    ensures samples { IfOk result (λ all. StandsFor sum [] → All (λ h. IsFiner (resolution h) (resolution sum)) batches.now
        → IsSumOf batches.now all) }
    ensures classes { IfOk result (λ all. resolution all ≡ resolution sum) }
    ensures errors { IfErr result (λ e. e ≡ BatchError.OutOfMemory) }
{
    sum.auto(true);
    for batch in batches {
        match sum.add(batch) {
            Ok(()) => {}
            Err(_) => return Err(BatchError::OutOfMemory),
        }
    }
    Ok(sum)
}

//! Batches of which each two become one.

ghost use Rattle.std.specs.Prelude.{◌≡◌, List, [], ◌∷◌, ◌++◌, IfErr, IfOk, OnOk};
ghost use Rattle.hdr_model.specs.Plain.{Plain};
ghost use Rattle.hdr_compare.specs.Parts.{KeepsParts, waiting};

use crate::run::BatchError;
use hdrhistogram::Histogram;
use std::alloc::Global;

/// Returns batches of which each is the sum of two that follow one another, but the last one if their
/// number is odd.
pub(crate) fn in_pairs(
    alloc: Global,
    batches: Vec<Histogram<u64>>,
) -> Result<Vec<Histogram<u64>>, BatchError>
    ensures pairs { IfOk result (λ pairs. KeepsParts batches.items pairs.items) }
    ensures errors { IfErr result (λ e. e ≡ BatchError.OutOfMemory) }
{
    let mut pairs = Vec::new(alloc);
    let mut earlier = None;
    for batch in batches {
        earlier = after_batch(&mut pairs, earlier, batch)?;
    }
    if let Some(last) = earlier {
        push(&mut pairs, last)?;
    }
    Ok(pairs)
}

/// Appends the sum of a batch and the one before it, if there is one. Returns the batch that waits for
/// another.
fn after_batch(
    pairs: &mut Vec<Histogram<u64>>,
    earlier: Option<Histogram<u64>>,
    batch: Histogram<u64>,
) -> Result<Option<Histogram<u64>>, BatchError>
    ensures kept { IfOk result (λ waits. (rest : List Plain)
        → KeepsParts (pairs.old.items ++ waiting earlier ++ batch ∷ rest)
        (pairs.new.items ++ waiting waits ++ rest)) }
    ensures errors { IfErr result (λ e. e ≡ BatchError.OutOfMemory) }
{
    let Some(mut sum) = earlier else {
        return Ok(Some(batch));
    };
    match sum.add(&batch) {
        Ok(()) => {}
        Err(_) => return Err(BatchError::OutOfMemory),
    }
    push(pairs, sum)?;
    Ok(None)
}

/// Appends a batch.
pub(crate) fn push(
    batches: &mut Vec<Histogram<u64>>,
    batch: Histogram<u64>,
) -> Result<(), BatchError>
    ensures pushed { OnOk result (batches.new.items ≡ batches.old.items ++ batch ∷ []) }
    ensures errors { IfErr result (λ e. e ≡ BatchError.OutOfMemory) }
{
    match batches.push(batch) {
        Ok(()) => Ok(()),
        Err(_) => Err(BatchError::OutOfMemory),
    }
}

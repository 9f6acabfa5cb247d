//! How many samples of batches are at most a value.

ghost use Rattle.std.specs.Prelude.{◌≡◌, ◌<◌, ◌≤◌, ◌^◌, length, IfOk};
ghost use Rattle.std.specs.List.{sum_by};
ghost use Rattle.hdr_compare.specs.Counted.{AreBatchesUpto, IsCounted, upto};

use crate::batch::Batch;
use crate::effective::{count_of, effective_size};
use crate::tiers::Tier;
use hdrhistogram::Histogram;
use std::alloc::{AllocError, Global};

/// How many samples of a run are at most a value, and as how many independent samples all of them
/// count by the batches of these.
#[derive(Clone, Copy)]
pub(crate) struct Counted {
    pub(crate) count: u64,
    pub(crate) independent: u64,
}

/// Counts the samples of batches that are in the class of a value, or below it. If there is no
/// value, none is.
#[tactic(auto, using(crate::proofs::SameBatches::sizes_are, crate::proofs::SameBatches::many_as))]
pub(crate) fn counted_upto(
    alloc: Global,
    batches: &[Histogram<u64>],
    value: Option<u64>,
    tier: Tier,
) -> Result<Counted, AllocError>
    requires few { sum_by (λ h. h.total) batches.now < 2 ^ 40 }
    requires batches { length batches.now ≤ 2 ^ 20 }
    ensures { IfOk result (IsCounted tier batches.now value) }
{
    let all = batches_upto(alloc, batches, value)?;
    Ok(Counted {
        count: count_of(&all),
        independent: effective_size(tier, &all),
    })
}

/// Returns how many samples of a histogram are in the class of a value, or below it. If there is no
/// value, none is.
#[tactic(auto, unfolding(hdr_model::specs::Statistics::quantile_below))]
fn samples_upto(histogram: &Histogram<u64>, value: Option<u64>) -> u64
    ensures value { result ≡ upto value histogram.now }
    ensures within { result ≤ histogram.now.total }
{
    match value {
        Some(value) if !histogram.is_empty() => histogram.quantile_below(value).num as u64,
        _ => 0,
    }
}

/// Returns the samples of a batch, and how many of them are at most a value.
fn batch_upto(histogram: &Histogram<u64>, value: Option<u64>) -> Batch
    ensures size { result.size ≡ histogram.now.total }
    ensures count { result.count ≡ upto value histogram.now }
{
    Batch {
        size: histogram.len(),
        count: samples_upto(histogram, value),
    }
}

/// Returns the samples of batches, and how many of each are at most a value.
fn batches_upto(
    alloc: Global,
    batches: &[Histogram<u64>],
    value: Option<u64>,
) -> Result<Vec<Batch>, AllocError>
    ensures { IfOk result (λ all. AreBatchesUpto value batches.now all.items) }
{
    let mut all = Vec::new(alloc);
    for histogram in batches {
        match all.push(batch_upto(histogram, value)) {
            Ok(()) => {}
            Err(_) => return Err(AllocError),
        }
    }
    Ok(all)
}

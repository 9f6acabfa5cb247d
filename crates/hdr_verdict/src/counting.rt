//! How many samples of a tag's cells are above values.

ghost use Rattle.std.specs.Prelude.{◌≡◌, ◌<◌, ℕ, List, length, map, slice_index, IfOk, OnOk};
ghost use Rattle.std.specs.List.{AllZip};
ghost use Rattle.hdr_base.specs.Classes.{HasScale};
ghost use Rattle.hdr_verdict.specs.CountsAboveFor.{AreCountsOf, PushesCell};
ghost use Rattle.hdr_verdict.specs.Tails.{count_above};
ghost use Rattle.hdr_verdict.specs.TagSamples.{HasSamples, KeepsCells};

use crate::above::CountsAbove;
use crate::samples::TagSamples;
use crate::width::Width;
use hdr_logs::LogError;
use hdrhistogram::serialization::RecordedClass;
use std::alloc::{AllocError, Global};

/// Returns no cells for each of some values.
fn empty_counts(alloc: Global, values: &[u64]) -> Result<Vec<CountsAbove>, AllocError>
    ensures { IfOk result (λ all. (cells : List (List ℕ)) → AllZip (AreCountsOf cells 0) values.now all.items) }
{
    let mut all = Vec::new(alloc);
    for value in values {
        let counts = CountsAbove {
            value: *value,
            counts: Vec::new(alloc),
        };
        match all.push(counts) {
            Ok(()) => {}
            Err(_) => return Err(AllocError),
        }
    }
    Ok(all)
}

/// Adds a cell to the counts of each value.
fn push_cell(all: &mut [CountsAbove], width: Width, cell: &[RecordedClass]) -> Result<(), LogError>
    requires { HasScale width.low width.sigfig }
    ensures { OnOk result (AllZip (PushesCell width cell.now) all.old all.new) }
{
    for above in all.iter_mut() {
        above.push(width, cell)?;
    }
    Ok(())
}

/// Returns for each of some values how many samples of each cell are above it.
pub(crate) fn counts_above(
    alloc: Global,
    samples: &mut TagSamples<'_>,
    values: &[u64],
) -> Result<Vec<CountsAbove>, LogError>
    ensures keeps { KeepsCells samples.old samples.new }
    ensures counts { IfOk result (λ all. (cells : List (List ℕ)) → HasSamples samples.old cells
        → AllZip (AreCountsOf cells (length cells)) values.now all.items) }
{
    let mut all = empty_counts(alloc, values)?;
    let mut classes = Vec::new(alloc);
    for index in 0..samples.cells().len() {
        samples.decode(index, &mut classes)?;
        push_cell(&mut all, samples.width(), &classes)?;
    }
    Ok(all)
}

/// Returns the counts of the value of an index, or none past the last one.
pub(crate) fn counts_at(all: &[CountsAbove], index: usize) -> &[u64]
    ensures { (cells : List (List ℕ)) (values : List ℕ) → AllZip (AreCountsOf cells (length cells)) values all.now
        → index < length values → result.now ≡ map (count_above (slice_index values index)) cells }
{
    match all.get(index) {
        Some(above) => &above.counts,
        None => &[],
    }
}

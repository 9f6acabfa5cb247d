//! What is usual for each of some tails of a tag.

ghost use Rattle.std.specs.Prelude.{◌≡◌, ◌-◌, ◌*◌, ◌^◌, ◌<◌, ◌++◌, ℕ, List, false, None, length, map, min, IfOk, OnOk};
ghost use Rattle.std.specs.List.{All, AllZip, sum_by};
ghost use Rattle.hdr_verdict.specs.Blocks.{AreNoBlocksFor, IsUsualOf, Pushes, values_of};
ghost use Rattle.hdr_verdict.specs.TagSamples.{HasSamples, KeepsCells, cells_of, width_of_tag};
ghost use Rattle.hdr_verdict.specs.Usual.{least_block, usual_of};
ghost use Rattle.hdr_verdict.specs.declared.usual.TailValues.{TailValues};

use crate::quartile::least_block;
use crate::samples::TagSamples;
use crate::tail::Tail;
use crate::usual::{Blocks, TailValues, Usual, fewest_samples};
use hdr_logs::LogError;
use hdrhistogram::serialization::RecordedClass;
use std::alloc::{AllocError, Global};

/// Returns no blocks of a tag for some tails. Tails that want as many samples in a block have the
/// same blocks if they are next to one another.
fn blocks_of(
    alloc: Global,
    samples: &TagSamples<'_>,
    tails: &[Tail],
) -> Result<Vec<Blocks>, LogError>
    ensures { IfOk result (λ all. AreNoBlocksFor (width_of_tag samples.now)
        (min (sum_by (λ cell. cell.samples) (cells_of samples.now)) (2 ^ 64 - 1)) tails.now all.items) }
{
    let total = samples.total();
    let width = samples.width();
    let first = match tails.first() {
        Some(tail) => least_block(*tail, total),
        None => 0,
    };
    let mut all = Vec::new(alloc);
    let mut blocks = Blocks::new(alloc, first, width)?;
    for tail in tails {
        let least = least_block(*tail, total);
        if !blocks.has_least(least) {
            all.push(blocks)?;
            blocks = Blocks::new(alloc, least, width)?;
        }
        blocks.add_tail(alloc, *tail)?;
    }
    all.push(blocks)?;
    Ok(all)
}

/// Adds a cell to the blocks of each tail.
fn push_cell(all: &mut [Blocks], cell: &[RecordedClass]) -> Result<(), LogError>
    ensures { OnOk result (AllZip (Pushes cell.now) all.old all.new) }
{
    for blocks in all.iter_mut() {
        blocks.push(cell)?;
    }
    Ok(())
}

/// Returns what is usual for each of some tails, or `None` if it has too few samples.
pub fn usual_of(
    alloc: Global,
    samples: &mut TagSamples<'_>,
    tails: &[Tail],
) -> Result<Vec<Option<Usual>>, LogError>
    ensures keeps { KeepsCells samples.old samples.new }
    ensures usual { IfOk result (λ usual. (cells : List (List ℕ)) → HasSamples samples.old cells
        → usual.items ≡ map (λ tail. usual_of tail.num tail.den (sum_by length cells) cells) tails.now) }
{
    if has_enough(samples.total(), tails) {
        return usual_by_blocks(alloc, samples, tails);
    }
    Ok(none_for(alloc, tails)?)
}

/// Whether a number of samples is enough to test one of some tails.
fn has_enough(total: u64, tails: &[Tail]) -> bool
    ensures { result ≡ false → All (λ tail. total < 4 * least_block tail.num tail.den 0) tails.now }
{
    for tail in tails {
        if total >= fewest_samples(*tail) {
            return true;
        }
    }
    false
}

/// Returns that nothing is usual for each of some tails.
fn none_for(alloc: Global, tails: &[Tail]) -> Result<Vec<Option<Usual>>, AllocError>
    ensures { IfOk result (λ usual. usual.items ≡ map (λ tail. None) tails.now) }
{
    let mut usual = Vec::new(alloc);
    for tail in tails {
        let _ = tail;
        match usual.push(None) {
            Ok(()) => {}
            Err(_) => return Err(AllocError),
        }
    }
    Ok(usual)
}

/// Returns what is usual for each of some tails, by blocks of the cells.
fn usual_by_blocks(
    alloc: Global,
    samples: &mut TagSamples<'_>,
    tails: &[Tail],
) -> Result<Vec<Option<Usual>>, LogError>
    ensures keeps { KeepsCells samples.old samples.new }
    ensures usual { IfOk result (λ usual. (cells : List (List ℕ)) → HasSamples samples.old cells
        → usual.items ≡ map (λ tail. usual_of tail.num tail.den (sum_by length cells) cells) tails.now) }
{
    let mut all = blocks_of(alloc, samples, tails)?;
    let mut classes = Vec::new(alloc);
    for index in 0..samples.cells().len() {
        samples.decode(index, &mut classes)?;
        push_cell(&mut all, &classes)?;
    }
    usual_of_all(alloc, all)
}

/// Returns what is usual for the tails of blocks.
fn usual_of_all(alloc: Global, all: Vec<Blocks>) -> Result<Vec<Option<Usual>>, LogError>
    ensures { IfOk result (λ usual. AllZip IsUsualOf (values_of all.items) usual.items) }
{
    let mut usual = Vec::new(alloc);
    for blocks in all {
        push_usual(&mut usual, blocks.tails)?;
    }
    Ok(usual)
}

/// Appends what is usual for each of some tails.
fn push_usual(usual: &mut Vec<Option<Usual>>, tails: Vec<TailValues>) -> Result<(), LogError>
    ensures { OnOk result ((before : List TailValues) → AllZip IsUsualOf before usual.old.items
        → AllZip IsUsualOf (before ++ tails.items) usual.new.items) }
{
    for own in tails {
        usual.push(own.usual()?)?;
    }
    Ok(())
}

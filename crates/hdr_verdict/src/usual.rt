//! What is usual for a tail of a tag.

ghost use Rattle.std.specs.Prelude.{◌≡◌, ◌-◌, ◌*◌, ◌^◌, ◌==◌, ◌++◌, ◌∷◌, ℕ, [], IfOk, OnOk, min};
ghost use Rattle.std.specs.List.{AllZip};
ghost use Rattle.hdr_verdict.specs.Usual.{least_block};
ghost use Rattle.hdr_model.specs.Plain.{resolution};
ghost use Rattle.hdr_verdict.specs.Blocks.{AppendsBlock};

use crate::quartile::{least_block, lower_quartile};
use crate::tail::Tail;
use crate::width::Width;
use hdr_logs::LogError;
use hdrhistogram::serialization::RecordedClass;
use hdrhistogram::{CreationError, Histogram};
use std::alloc::{AllocError, Global};

/// The least number of blocks: a quartile of fewer says little.
pub const FEWEST_BLOCKS: usize = 4;

/// The usual value of a tail, and that of half of the tail.
#[derive(Clone, Copy)]
pub struct Usual {
    pub value: u64,
    pub half: u64,
}

impl Usual {
    ghost use Rattle.hdr_verdict.specs.Usual.{threshold_of};

    /// Returns the threshold of slow samples: half more than usual, and so far that at usual times
    /// at most half of the tail is above it.
    pub fn threshold(self) -> u64
        ensures { result ≡ threshold_of self }
    {
        let more = u64::try_from(u128::from(self.value) * 3 / 2).unwrap_or(u64::MAX);
        more.max(self.half).max(self.value.saturating_add(1))
    }
}

/// Returns the least number of samples of a tag of which a tail is tested.
pub fn fewest_samples(tail: Tail) -> u64
    ensures { result ≡ min (4 * least_block tail.num tail.den 0) (2 ^ 64 - 1) }
{
    let samples = (FEWEST_BLOCKS as u128).saturating_mul(least_block(tail, 0));
    u64::try_from(samples).unwrap_or(u64::MAX)
}

/// The values of a tail and of half of the tail, of each block.
#[derive(Drop)]
pub(crate) struct TailValues {
    tail: Tail,
    values: Vec<u64>,
    halves: Vec<u64>,
}

impl TailValues {
    ghost use Rattle.hdr_verdict.specs.Blocks.{IsUsualOf};

    /// Appends the values of a block.
    fn push(&mut self, width: Width, block: &Histogram<u64>) -> Result<(), LogError>
        ensures { OnOk result (AppendsBlock width block.now self.old self.new) }
    {
        self.values.push(width.value(block, self.tail.quantile()))?;
        self.halves
            .push(width.value(block, self.tail.half_quantile()))?;
        Ok(())
    }

    /// Returns what is usual, if there are blocks enough and the tail has samples.
    pub(crate) fn usual(self) -> Result<Option<Usual>, AllocError>
        ensures { IfOk result (IsUsualOf self) }
    {
        if self.tail.num == 0 {
            return Ok(None);
        }
        if self.values.len() < FEWEST_BLOCKS {
            return Ok(None);
        }
        Ok(Some(Usual {
            value: lower_quartile(self.values)?,
            half: lower_quartile(self.halves)?,
        }))
    }
}

/// Appends the values of a block, for each of some tails.
fn push_block(all: &mut [TailValues], width: Width, block: &Histogram<u64>) -> Result<(), LogError>
    ensures { OnOk result (AllZip (AppendsBlock width block.now) all.old all.new) }
{
    for own in all.iter_mut() {
        own.push(width, block)?;
    }
    Ok(())
}

/// The blocks of a tag for tails that want as many samples in a block.
#[derive(Drop)]
pub(crate) struct Blocks {
    width: Width,
    /// The least number of samples of a block.
    least: u128,
    /// The samples since the last block.
    part: Histogram<u64>,
    pub(crate) tails: Vec<TailValues>,
}

impl Blocks {
    ghost use Rattle.hdr_verdict.specs.Blocks.{AreNoBlocks, Pushes, tails_of};
    ghost use Rattle.hdr_verdict.specs.Samples.{Rounds, classes_of};

    /// Returns no blocks, for no tails.
    pub(crate) fn new(alloc: Global, least: u128, width: Width) -> Result<Blocks, CreationError>
        ensures least { IfOk result (λ blocks. blocks.least ≡ least) }
        ensures tails { IfOk result (λ blocks. blocks.tails.items ≡ []) }
        ensures none { IfOk result (λ blocks. (total : ℕ) → AreNoBlocks width total blocks) }
    {
        Ok(Blocks {
            width,
            least,
            part: width.histogram(alloc)?,
            tails: Vec::new(alloc),
        })
    }

    /// Whether this is the least number of samples of a block.
    pub(crate) fn has_least(&self, least: u128) -> bool
        ensures { result ≡ (self.now.least == least) }
    {
        self.least == least
    }

    /// Adds a tail that wants as many samples in a block, before the first cell.
    pub(crate) fn add_tail(&mut self, alloc: Global, tail: Tail) -> Result<(), LogError>
        ensures tails { OnOk result (tails_of self.new ≡ tails_of self.old ++ tail ∷ []) }
        ensures none { OnOk result ((width : Width) (total : ℕ)
            → self.old.least ≡ least_block tail.num tail.den total
            → AreNoBlocks width total self.old → AreNoBlocks width total self.new) }
    {
        self.tails.push(TailValues {
            tail,
            values: Vec::new(alloc),
            halves: Vec::new(alloc),
        })?;
        Ok(())
    }

    /// Adds a cell.
    pub(crate) fn push(&mut self, cell: &[RecordedClass]) -> Result<(), LogError>
        ensures { OnOk result (Pushes cell.now self.old self.new) }
    {
        self.width.add(&mut self.part, cell)?;
        if u128::from(self.part.len()) < self.least {
            return Ok(());
        }
        self.finish()?;
        Ok(())
    }

    /// Begins a new block.
    fn finish(&mut self) -> Result<(), LogError>
        ensures least { OnOk result (self.new.least ≡ self.old.least) }
        ensures width { OnOk result (self.new.width ≡ self.old.width) }
        ensures classes { OnOk result (resolution self.new.part ≡ resolution self.old.part) }
        ensures part { OnOk result (resolution self.old.part ≡ classes_of self.old.width
            → Rounds self.old.width self.new.part []) }
        ensures values { OnOk result (AllZip (AppendsBlock self.old.width self.old.part)
            self.old.tails.items self.new.tails.items) }
    {
        push_block(&mut self.tails, self.width, &self.part)?;
        self.width.reset(&mut self.part);
        Ok(())
    }
}

//! Intervals whose ends a reference in integers has, for samples in batches.

use hdr_compare::{Batching, Run, Tier};
use hdrhistogram::{Histogram, Quantile};
use std::alloc::Global;
use std::process::Abort;
use std::test::Fail;

/// Returns the numbers from 1 to 1000 in ten batches of 100: in ascending order for a factor of 1, and
/// for one of 7919 in an order without runs.
fn run_of(alloc: Global, factor: u64) -> Result<Run, Fail> {
    let mut batches = Vec::new(alloc);
    for batch in 0..10u64 {
        let mut histogram = Histogram::<u64>::new(alloc, 3)?;
        for place in 0..100u64 {
            let number = (batch * 100 + place).saturating_mul(factor) % 1_000 + 1;
            histogram.record(number)?;
        }
        batches.push(histogram)?;
    }
    Ok(Run::new(alloc, batches)?)
}

/// Of an interval: the value, the ends, and the number of independent samples.
type Ends = (u64, Option<u64>, Option<u64>, u64);

/// Returns the interval of a quantile of a run.
fn interval(alloc: Global, run: &Run, num: u64, den: u64, tier: Tier) -> Result<Ends, Fail> {
    let quantile = Quantile::new(num, den).ok_or("no quantile")?;
    if quantile.den() > 100 || quantile.num() > quantile.den() {
        return Err(Fail::from("no quantile of a test"));
    }
    let found = run.interval(alloc, quantile, tier)?.ok_or("no interval")?;
    Ok((
        found.value,
        found.low.value,
        found.high.value,
        found.independent(),
    ))
}

#[test]
fn ends_of_samples_in_no_order(rt: HostRuntime) -> Result<(), Fail> {
    let run = run_of(rt.alloc(), 7_919)?;
    for (num, den, tier, ends) in [
        (1, 2, Tier::FivePercent, (500, Some(469), Some(532), 1_000)),
        (99, 100, Tier::FivePercent, (990, Some(981), Some(998), 618)),
        (1, 2, Tier::OnePercent, (500, Some(459), Some(542), 1_000)),
        (99, 100, Tier::OnePercent, (990, Some(977), None, 518)),
        (99, 100, Tier::OneInThousand, (990, Some(969), None, 390)),
    ] {
        assert_eq!(rt; interval(rt.alloc(), &run, num, den, tier)?, ends);
    }
    Ok(())
}

#[test]
fn ends_of_ascending_samples(rt: HostRuntime) -> Result<(), Fail> {
    let run = run_of(rt.alloc(), 1)?;
    for (num, den, tier, ends) in [
        (1, 2, Tier::FivePercent, (500, Some(113), Some(888), 6)),
        (1, 2, Tier::OnePercent, (500, None, None, 5)),
        (99, 100, Tier::OnePercent, (990, Some(583), None, 5)),
    ] {
        assert_eq!(rt; interval(rt.alloc(), &run, num, den, tier)?, ends);
    }
    Ok(())
}

#[test]
fn a_run_without_samples_has_no_interval(rt: HostRuntime) -> Result<(), Fail> {
    let run = Run::new(rt.alloc(), Vec::new(rt.alloc()))?;
    if let Some(median) = Quantile::new(1, 2) {
        let found = run.interval(rt.alloc(), median, Tier::OnePercent)?;
        assert!(rt; found.is_none());
    }
    Ok(())
}

/// Returns the numbers of samples of the batches.
fn sizes_of(alloc: Global, batching: Batching) -> Result<Vec<u64>, Fail> {
    let mut sizes = Vec::new(alloc);
    for batch in &batching.into_batches()? {
        sizes.push(batch.len())?;
    }
    Ok(sizes)
}

/// Returns the numbers of samples of the batches of some numbers that are recorded, each once.
fn sizes_for(alloc: Global, numbers: u64) -> Result<Vec<u64>, Fail> {
    let mut batching = Batching::new(alloc, 3)?;
    for number in 0..numbers {
        batching.record(number, 0)?;
    }
    sizes_of(alloc, batching)
}

#[test]
fn batches_have_one_size_but_the_last(rt: HostRuntime) -> Result<(), Fail> {
    let alloc = rt.alloc();
    assert!(rt; sizes_for(alloc, 3)?.as_slice() == [1, 1, 1].as_slice());
    assert!(rt; sizes_for(alloc, 16)?.as_slice() == [1; 16].as_slice());
    assert!(rt; sizes_for(alloc, 17)?.as_slice() == [2, 2, 2, 2, 2, 2, 2, 2, 1].as_slice());
    assert!(rt; sizes_for(alloc, 32)?.as_slice() == [2; 16].as_slice());
    let hundred = [8, 8, 8, 8, 8, 8, 8, 8, 8, 8, 8, 8, 4];
    assert!(rt; sizes_for(alloc, 100)?.as_slice() == hundred.as_slice());
    Ok(())
}

#[test]
fn missing_samples_are_of_the_batch_of_their_number(rt: HostRuntime) -> Result<(), Fail> {
    let mut batching = Batching::new(rt.alloc(), 3)?;
    batching.record(50, 10)?;
    batching.record(5, 10)?;
    assert!(rt; sizes_of(rt.alloc(), batching)?.as_slice() == [5, 1].as_slice());
    Ok(())
}

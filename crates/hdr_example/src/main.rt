//! Latencies of a service: recorded, written as an interval of a log, and read back.
#![tactic(auto)]

ghost use Rattle.std.specs.Prelude.{ℕ, ◌<◌, List, length, IfSome};
ghost use Rattle.hdr_model.specs.Samples.{StandsFor};
ghost use Rattle.hdr_model.specs.Quantiles.{ranked_sample, IsTopNear};

use anyhow::Result;
use hdrhistogram::serialization::V2Serializer;
use hdrhistogram::serialization::interval_log::{
    IntervalFilter, IntervalLogWriterBuilder, Tag, merge_log,
};
use hdrhistogram::{Histogram, Quantile};
use std::alloc::Global;
use std::time::Duration;

/// The expected interval between two requests, in microseconds.
const INTERVAL: u64 = 10_000;

/// The latency that 99 of 100 samples do not exceed: the top of the class of the sample of that rank.
fn p99(histogram: &Histogram<u64>) -> Option<u64>
    ensures { IfSome result (λ value. (S : List ℕ) → StandsFor histogram.now S → 0 < length S
        → IsTopNear histogram.now (ranked_sample (record { num = 99; den = 100 }) S) value) }
{
    let quantile = Quantile::new(99, 100)?;
    Some(histogram.value_at_quantile(quantile))
}

/// Records latencies with correction for coordinated omission.
fn record_all(histogram: &mut Histogram<u64>, latencies: &[u64]) -> Result<()> {
    for latency in latencies {
        histogram.record_correct(*latency, INTERVAL)?;
    }
    Ok(())
}

/// Writes a histogram as the first second of a log.
fn write_interval(alloc: Global, histogram: &Histogram<u64>, log: &mut Vec<u8>) -> Result<()> {
    let mut serializer = V2Serializer::new(alloc);
    let builder = IntervalLogWriterBuilder::new(alloc);
    let mut writer = builder.begin_log_with(log, &mut serializer)?;
    let tag = Tag::new("checkout");
    writer.write_histogram(histogram, Duration::ZERO, Duration::from_secs(1), tag)?;
    Ok(())
}

fn main(rt: HostRuntime) -> Result<()> {
    let alloc = rt.alloc();
    let mut histogram = Histogram::new(alloc, 3)?;
    record_all(&mut histogram, &[980, 1_020, 1_190, 2_000_000])?;
    let mut log = Vec::new(alloc);
    write_interval(alloc, &histogram, &mut log)?;

    let filter = IntervalFilter {
        tag: None,
        from: None,
        to: None,
    };
    let merged = merge_log::<u64>(alloc, log.as_slice(), &filter, 3)?;
    println!(rt; "intervals {}", merged.chosen)?;
    println!(rt; "samples {}", merged.histogram.len())?;
    if let Some(value) = p99(&merged.histogram) {
        println!(rt; "99/100 {value}")?;
    }
    Ok(())
}

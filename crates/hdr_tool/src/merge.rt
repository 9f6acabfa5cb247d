//! Merges a log, and reports the result.

ghost use Rattle.std.specs.Prelude.{◌≡◌};
ghost use Rattle.hdrhistogram.specs.Chosen.{view_of_filter};
ghost use Rattle.hdr_tool.specs.Arguments.{Merge, view_of_options};
ghost use Rattle.hdr_tool.specs.Outcomes.{Writes};
ghost use Rattle.hdr_tool.specs.Program.{merge_fault, MergeReported, at_end, outputs_of};

use crate::arguments::{CounterType, Options};
use crate::fault::Fault;
use crate::report::write_report;
use hdrhistogram::serialization::interval_log::{IntervalFilter, MergeError, merge_log};
use hdrhistogram::{Counter, Quantile};
use std::alloc::Global;
use std::io::Write;

/// Writes the report of a log's chosen intervals, unless the log has an error.
pub(crate) fn report_log<W: Write>(
    alloc: Global,
    options: &Options<'_>,
    sigfig: u8,
    quantiles: &[Quantile],
    input: &[u8],
    writer: &mut W,
) -> Result<(), Fault>
    ensures { Writes (outputs_of (Merge (view_of_options options.now) sigfig quantiles.now) input.now)
        (W.contents writer.old) (W.contents writer.new) result }
{
    let filter = options.filter();
    match options.into {
        Some(CounterType::U8) => {
            report_merged::<u8, W>(alloc, &filter, sigfig, quantiles, input, writer)
        }
        Some(CounterType::U16) => {
            report_merged::<u16, W>(alloc, &filter, sigfig, quantiles, input, writer)
        }
        Some(CounterType::U32) => {
            report_merged::<u32, W>(alloc, &filter, sigfig, quantiles, input, writer)
        }
        Some(CounterType::U64) | None => {
            report_merged::<u64, W>(alloc, &filter, sigfig, quantiles, input, writer)
        }
    }
}

/// `report_log` with counters of type `T`.
fn report_merged<T: Counter, W: Write>(
    alloc: Global,
    filter: &IntervalFilter<'_>,
    sigfig: u8,
    quantiles: &[Quantile],
    input: &[u8],
    writer: &mut W,
) -> Result<(), Fault>
    ensures { Writes (at_end (MergeReported T.greatest (view_of_filter filter.now) sigfig
        quantiles.now input.now)) (W.contents writer.old) (W.contents writer.new) result }
{
    match merge_log::<T>(alloc, input, filter, sigfig) {
        Ok(merged) => write_report(alloc, &merged.histogram, quantiles, writer),
        Err(error) => Err(merge_fault(error)),
    }
}

/// Converts the error of a merge.
fn merge_fault(error: MergeError) -> Fault
    ensures { result ≡ merge_fault error }
{
    match error {
        MergeError::Parse { offset } => Fault::NotALog(offset),
        MergeError::Base64 { interval } => Fault::NotBase64(interval),
        MergeError::Decode { interval, cause } => Fault::NotRead(interval, cause),
        // The digits of the arguments are at most 5, so a histogram can have them.
        MergeError::Creation(_) | MergeError::OutOfMemory => Fault::NoMemory,
    }
}

//! Laws of the definitions: each function's contract is the law. A body that calls other laws uses
//! them.

ghost use Rattle.hdr_tool.specs.LogMerges.{EndsStand, LogThenMerge, LogMergeStands};
ghost use Rattle.hdr_tool.specs.Program.{OneOutcome, OutcomeExists};
ghost use Rattle.hdr_tool.specs.Reports.{ReportRecords, ReportStands};

use hdr_base::laws::finer_classes;
use hdr_core::laws::{
    adding_keeps, bins_and_max_are_bounded, calls_stand, clearing_stands, joined_stands,
    new_is_plain, quantile_is_ranked,
};
use hdr_log::laws::{base64_is_read, written_is_read};
use hdrhistogram::laws::{
    bytes_agree, bytes_are_read, bytes_read_back, merging_adds_the_chosen, one_payload,
    read_back_stands,
};

/// Arguments and an input have at most one outcome: an output, and a `Fault` or none. Of bytes that
/// are not a histogram, only the defect counts. So two runs in which no allocation, reader or
/// writer failed have the same output and the same `Fault`, but for the cause in an `IoError`.
pub fn one_outcome()
    ensures { OneOutcome }
{
    bytes_agree();
    merging_adds_the_chosen();
}

/// Arguments and an input have an outcome, whatever they are, and by `one_outcome` exactly one.
pub fn outcome_exists()
    ensures { OutcomeExists }
{
    new_is_plain();
    bins_and_max_are_bounded();
    adding_keeps();
    calls_stand::<u64>();
    one_payload();
    bytes_read_back();
    bytes_are_read();
    base64_is_read();
}

/// The histogram of each interval of a log stands for the samples that the lines of this interval
/// record, if they fit at its `end`.
pub fn ends_stand()
    ensures { EndsStand }
{
    calls_stand::<u64>();
}

/// A merge of a written log reports what the log's chosen intervals held.
pub fn log_then_merge()
    ensures { LogThenMerge }
{
    bytes_read_back();
    base64_is_read();
    written_is_read();
}

/// What a log's lines recorded is what a merge of the written log reports.
pub fn log_merge_stands()
    ensures { LogMergeStands }
{
    ends_stand();
    log_then_merge();
    finer_classes();
    new_is_plain();
    clearing_stands();
    adding_keeps();
    joined_stands();
    read_back_stands();
}

/// A report says what its lines recorded: how many samples there are, and at each quantile above 0
/// the top of the class of the ranked sample.
pub fn report_stands()
    ensures { ReportStands }
{
    new_is_plain();
    clearing_stands();
    calls_stand::<u64>();
    quantile_is_ranked();
}

/// The lines of a report without a `Fault` record samples, of which `report_stands` speaks.
pub fn report_records()
    ensures { ReportRecords }
{}

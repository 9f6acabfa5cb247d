//! Merging the chosen intervals of a log.

use crate::arguments::{ok_or_invalid, parse_u64, split_at_space, to_sigfig};
use crate::logs::{parse_time, unescape};
use crate::outcome::{LineError, Outcome, Value};
use hdr_base::Counter;
use hdr_core::Histogram;
use hdrhistogram::serialization::interval_log::{IntervalChoice, Tag, TagChoice, merge_chosen};
use std::alloc::Global;
use std::mem;
use std::time::Duration;

/// Parses a time, or `-` for no bound.
fn parse_bound(argument: &str) -> Result<Option<Duration>, LineError> {
    match argument {
        "-" => Ok(None),
        _ => Ok(Some(parse_time(argument)?)),
    }
}

/// Parses the choice of tags: `-` for every interval, `,` for those without a tag, or a tag.
fn parse_tags(argument: &str) -> Result<TagChoice<'_>, LineError> {
    match argument {
        "-" => Ok(TagChoice::Every),
        "," => Ok(TagChoice::Untagged),
        _ => Ok(TagChoice::Tagged(ok_or_invalid(Tag::new(argument))?)),
    }
}

/// Replaces the histogram by the merge of a log: `SIGFIG TAG FROM TO LOG`, times in seconds. Returns the number of intervals
/// chosen.
pub fn merge<T: Counter>(alloc: Global, h: &mut Histogram<T>, text: &str) -> Outcome {
    let (sigfig, text) = split_at_space(text);
    let (tag, text) = split_at_space(text);
    let (from, text) = split_at_space(text);
    let (to, log) = split_at_space(text);
    let (tags, from, to) = (parse_tags(tag)?, parse_bound(from)?, parse_bound(to)?);
    let choice = IntervalChoice { tags, from, to };
    let sigfig = to_sigfig(parse_u64(sigfig)?)?;
    let log = unescape(alloc, log)?;
    let merged = merge_chosen(alloc, log.as_slice(), &choice, sigfig)?;
    drop(mem::replace(h, merged.histogram));
    Ok(Value::Number(merged.chosen))
}

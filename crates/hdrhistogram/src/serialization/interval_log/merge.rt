//! Merges the chosen intervals of a log.

ghost use Rattle.std.specs.Prelude.{◌≡◌, ◌+◌, ◌<◌, ◌≤◌, ◌^◌, ℕ, length, IfOk, OnOk, IfErr, Ok, Err};
ghost use Rattle.std.specs.Option.{option_map};
ghost use Rattle.std.specs.Duration.{as_nanos};
ghost use Rattle.hdr_model.specs.Plain.{resolution};
ghost use Rattle.hdr_model.specs.CallErrors.{IsBounds, IsCreationError};
ghost use Rattle.hdr_log.specs.Tags.{tag_text};
ghost use Rattle.hdr_log.specs.Texts.{base64_bytes};
ghost use Rattle.hdr_log.specs.Reading.{view_of_interval, view_of_timed_item};
ghost use Rattle.hdrhistogram.specs.Chosen.{chooses_tag, begins_from, begins_before, is_chosen, view_of_choice, view_of_filter, view_of_interval_choice};
ghost use Rattle.hdrhistogram.specs.LogMerging.{one_if_coarser, FieldMerges, ItemMerges, Merges, IsStepError, IsMergeError, IsMergedBy, IsMerged, IsOfDigits, creation_error, field_error};
ghost use Rattle.hdrhistogram.specs.MergeView.{view_of_merging};

use crate::serialization::deserializer::Deserializer;
use crate::serialization::errors::{DeserializeError, FieldDecodeError};
use hdr_base::Counter;
use hdr_core::{CreationError, Histogram};
use hdr_log::{IntervalLogHistogram, LogIteratorError, Tag, TimedInterval, TimedIntervals};
use std::alloc::Global;
use std::time::Duration;
use thiserror::Error;

/// Which intervals of a log are chosen. An interval begins at its start, counted from the last base
/// time before it in the log, or from the epoch if there is none.
#[derive(Debug, PartialEq, Clone, Copy)]
pub struct IntervalFilter<'a> {
    /// Only intervals of this tag; if `None`, tagged or not.
    pub tag: Option<Tag<'a>>,
    /// Only intervals that begin at this time since the epoch, or later; if `None`, from the first.
    pub from: Option<Duration>,
    /// Only intervals that begin before this time since the epoch; if `None`, to the last.
    pub to: Option<Duration>,
}

/// Which intervals of a log are chosen by their tags.
#[derive(Debug, PartialEq, Eq, Clone, Copy)]
pub enum TagChoice<'a> {
    /// Every interval, tagged or not.
    Every,
    /// Only intervals of this tag.
    Tagged(Tag<'a>),
    /// Only intervals without a tag.
    Untagged,
}

/// An `IntervalFilter` that can also choose the intervals without a tag.
#[derive(Debug, PartialEq, Clone, Copy)]
pub struct IntervalChoice<'a> {
    /// Which intervals are chosen by their tags.
    pub tags: TagChoice<'a>,
    /// Only intervals that begin at this time since the epoch, or later; if `None`, from the first.
    pub from: Option<Duration>,
    /// Only intervals that begin before this time since the epoch; if `None`, to the last.
    pub to: Option<Duration>,
}

/// The result of `merge_log`.
#[derive(Debug, Drop)]
pub struct Merged<T: Counter> {
    /// The sum of the chosen intervals' histograms.
    pub histogram: Histogram<T>,
    /// The number of chosen intervals.
    pub chosen: u64,
}

/// The result of `merge_chosen`.
#[derive(Debug, Drop)]
pub struct MergedChoice<T: Counter> {
    /// The sum of the chosen intervals' histograms.
    pub histogram: Histogram<T>,
    /// The number of chosen intervals.
    pub chosen: u64,
    /// The number of these whose classes do not all lie in classes of the sum: they have fewer
    /// digits or a greater lowest value. If it is 0, the sum stands for their samples by its own
    /// classes.
    pub coarser: u64,
}

/// Why a log is not merged. Intervals are numbered from 1, chosen or not.
#[derive(Debug, Drop, Error)]
pub enum MergeError {
    /// The digits are above 5.
    #[error("{0}")]
    Creation(CreationError),

    /// The line that starts at the byte `offset` is invalid.
    #[error("parse error at byte {offset}")]
    Parse {
        offset: usize,
    },

    /// The field of this interval is not valid Base64.
    #[error("interval {interval}: not base64")]
    Base64 {
        interval: u64,
    },

    /// The bytes of this interval are not a histogram.
    #[error("interval {interval}: {cause}")]
    Decode {
        interval: u64,
        cause: DeserializeError,
    },

    /// An allocation failed.
    #[error("Out of memory")]
    OutOfMemory,
}

/// Adds the histograms of a log's chosen intervals, in order, to an empty one of `sigfig` digits
/// that grows. Intervals are decoded with 64-bit counters, and a count above the greatest of `T` is
/// saturated only in the sum. An interval that is not chosen is not decoded, and bytes after a
/// histogram in its field are ignored.
///
/// # Errors
/// Returns `Creation` if `sigfig` is above 5, before the log is read. Otherwise returns the first
/// error of the log, in the order of its lines: `Parse`, `Base64` or `Decode`. A last line without
/// a line feed is a `Parse`. Returns `OutOfMemory` if an allocation fails, also while a histogram
/// is decoded.
pub fn merge_log<T: Counter>(
    alloc: Global,
    log: &[u8],
    filter: &IntervalFilter<'_>,
    sigfig: u8,
) -> Result<Merged<T>, MergeError>
    ensures ok { IfOk result (λ m. IsBounds 1 2 sigfig × IsMerged (λ r. Merges T.greatest
        (view_of_filter filter.now) sigfig log.now r) m.histogram m.chosen) }
    ensures err { IfErr result
        (IsMergeError T.greatest (view_of_filter filter.now) sigfig log.now) }
    ensures digits { IfErr result (IsOfDigits sigfig) }
{
    let merged = merge_chosen(alloc, log, &filter.choice(), sigfig)?;
    Ok(Merged {
        histogram: merged.histogram,
        chosen: merged.chosen,
    })
}

/// `merge_log` for an `IntervalChoice`, which also counts the chosen intervals that are coarser
/// than the sum. The errors are those of `merge_log`.
pub fn merge_chosen<T: Counter>(
    alloc: Global,
    log: &[u8],
    choice: &IntervalChoice<'_>,
    sigfig: u8,
) -> Result<MergedChoice<T>, MergeError>
    ensures ok { IfOk result (λ m. IsBounds 1 2 sigfig × IsMergedBy (λ r. Merges T.greatest
        (view_of_interval_choice choice.now) sigfig log.now r) m.histogram m.chosen m.coarser) }
    ensures err { IfErr result
        (IsMergeError T.greatest (view_of_interval_choice choice.now) sigfig log.now) }
    ensures digits { IfErr result (IsOfDigits sigfig) }
{
    let histogram = match Histogram::new(alloc, sigfig) {
        Ok(histogram) => histogram,
        Err(cause) => return Err(not_made(cause)),
    };
    let mut merging = Merging {
        histogram,
        deserializer: Deserializer::new(alloc),
        spare: None,
        intervals: 0,
        chosen: 0,
        coarser: 0,
    };
    for item in TimedIntervals::new(log) {
        if let Err(error) = merge_item(&mut merging, choice, &item) {
            return Err(error);
        }
    }
    Ok(MergedChoice {
        histogram: merging.histogram,
        chosen: merging.chosen,
        coarser: merging.coarser,
    })
}

/// The state of a merge.
#[derive(Drop)]
struct Merging<T: Counter> {
    histogram: Histogram<T>,
    /// Decodes all fields, through one buffer.
    deserializer: Deserializer,
    /// The histogram that was added last: the next one is decoded into its memory.
    spare: Option<Histogram<u64>>,
    /// The numbers of intervals read, of those of them that were chosen, and of those of these that
    /// are coarser than the histogram.
    intervals: u64,
    chosen: u64,
    coarser: u64,
}

/// Converts the error of creating the empty histogram.
fn not_made(cause: CreationError) -> MergeError
    ensures { result ≡ creation_error cause }
{
    match cause {
        CreationError::OutOfMemory => MergeError::OutOfMemory,
        cause => MergeError::Creation(cause),
    }
}

/// Merges an interval of a log if it is chosen, or returns the error of an invalid line.
fn merge_item<T: Counter>(
    merging: &mut Merging<T>,
    choice: &IntervalChoice<'_>,
    item: &Result<TimedInterval<'_>, LogIteratorError>,
) -> Result<(), MergeError>
    // The numbers of intervals do not overflow.
    requires fits { merging.old.intervals + 1 < 2 ^ 64 }
    requires chosen { merging.old.chosen ≤ merging.old.intervals }
    requires coarser { merging.old.coarser ≤ merging.old.intervals }
    // They grow by 1 at most.
    ensures at_most { merging.new.intervals ≤ merging.old.intervals + 1 }
    ensures chosen { merging.new.chosen ≤ merging.new.intervals }
    ensures coarser { merging.new.coarser ≤ merging.new.intervals }
    // The state after the item, or its error.
    ensures ok { OnOk result (ItemMerges T.greatest (view_of_interval_choice choice.now)
        (view_of_merging merging.old) (view_of_timed_item item.now) (Ok (view_of_merging merging.new))) }
    ensures err { IfErr result (IsStepError (λ e. ItemMerges T.greatest
        (view_of_interval_choice choice.now) (view_of_merging merging.old)
        (view_of_timed_item item.now) (Err e))) }
{
    match item {
        Ok(TimedInterval { time, interval }) => {
            if choice.chooses_at(interval.tag(), *time) {
                merge_field(merging, interval.encoded_histogram())
            } else {
                merging.intervals += 1;
                Ok(())
            }
        }
        Err(LogIteratorError::ParseError { offset }) => Err(MergeError::Parse { offset: *offset }),
    }
}

/// Decodes a chosen interval's field, and adds its histogram.
fn merge_field<T: Counter>(merging: &mut Merging<T>, field: &str) -> Result<(), MergeError>
    // The numbers of intervals do not overflow.
    requires fits { merging.old.intervals + 1 < 2 ^ 64 }
    requires chosen { merging.old.chosen ≤ merging.old.intervals }
    requires coarser { merging.old.coarser ≤ merging.old.intervals }
    // They grow by 1 at most.
    ensures at_most { merging.new.intervals ≤ merging.old.intervals + 1 }
    ensures chosen { merging.new.chosen ≤ merging.new.intervals }
    ensures coarser { merging.new.coarser ≤ merging.new.intervals }
    // The state after the interval, or its error.
    ensures ok { OnOk result (FieldMerges T.greatest (view_of_merging merging.old)
        (base64_bytes field.now) (Ok (view_of_merging merging.new))) }
    ensures err { IfErr result (IsStepError (λ e. FieldMerges T.greatest
        (view_of_merging merging.old) (base64_bytes field.now) (Err e))) }
{
    let interval = merging.intervals + 1;
    let spare = merging.spare.take();
    let source = match merging.deserializer.decode_field_into(field, spare) {
        Ok(source) => source,
        Err(cause) => return Err(not_decoded(interval, cause)),
    };
    let coarser = one_if_coarser(&merging.histogram, &source);
    // A histogram that grows accepts every value, so this fails only if memory runs out.
    match merging.histogram.add_from(&source) {
        Ok(()) => {}
        Err(_) => return Err(MergeError::OutOfMemory),
    }
    merging.spare = Some(source);
    merging.intervals = interval;
    merging.chosen += 1;
    merging.coarser += coarser;
    Ok(())
}

/// Returns 1 if the classes of `source` do not all lie in classes of `sum`, and 0 otherwise.
fn one_if_coarser<T: Counter, F: Counter>(sum: &Histogram<T>, source: &Histogram<F>) -> u64
    ensures value { result ≡ one_if_coarser (resolution sum.now) source.now }
    ensures at_most { result ≤ 1 }
{
    if source.refines(sum) { 0 } else { 1 }
}

/// Converts the error of decoding an interval's field.
fn not_decoded(interval: u64, cause: FieldDecodeError) -> MergeError
    ensures { result ≡ field_error interval cause }
{
    match cause {
        FieldDecodeError::NotBase64 => MergeError::Base64 { interval },
        FieldDecodeError::Decode(cause) => MergeError::Decode { interval, cause },
        FieldDecodeError::OutOfMemory => MergeError::OutOfMemory,
    }
}

impl<'a> IntervalFilter<'a> {
    /// Returns the same choice, for `merge_chosen`.
    pub fn choice(&self) -> IntervalChoice<'a>
        ensures { view_of_interval_choice result ≡ view_of_filter self.now }
    {
        IntervalChoice {
            tags: self.tag.map_or(TagChoice::Every, TagChoice::Tagged),
            from: self.from,
            to: self.to,
        }
    }

    /// Whether `interval` is chosen, if `base` is the last base time before it.
    pub fn chooses(&self, base: Duration, interval: &IntervalLogHistogram<'_>) -> bool
        ensures { result ≡ is_chosen (view_of_filter self.now) (view_of_interval interval.now).tag
            (as_nanos base + (view_of_interval interval.now).start) }
    {
        self.choice().chooses(base, interval)
    }
}

impl IntervalChoice<'_> {
    /// Whether `interval` is chosen, if `base` is the last base time before it.
    pub fn chooses(&self, base: Duration, interval: &IntervalLogHistogram<'_>) -> bool
        ensures { result ≡ is_chosen (view_of_interval_choice self.now) (view_of_interval interval.now).tag
            (as_nanos base + (view_of_interval interval.now).start) }
    {
        let time = base.as_nanos() + interval.start_timestamp().as_nanos();
        self.chooses_at(interval.tag(), time)
    }

    /// Whether an interval of `tag` is chosen that begins at `time`, in nanoseconds since the epoch.
    #[tactic(auto, unfolding(crate::specs::Chosen::is_chosen))]
    pub fn chooses_at(&self, tag: Option<Tag<'_>>, time: u128) -> bool
        ensures { result ≡ is_chosen (view_of_interval_choice self.now)
            (option_map tag_text tag.entry) time }
    {
        chooses_tag(self.tags, tag) && begins_from(self.from, time) && begins_before(self.to, time)
    }
}

fn chooses_tag(choice: TagChoice<'_>, tag: Option<Tag<'_>>) -> bool
    ensures { result ≡ chooses_tag (view_of_choice choice.entry) (option_map tag_text tag.entry) }
{
    match (choice, tag) {
        (TagChoice::Every, _) | (TagChoice::Untagged, None) => true,
        (TagChoice::Tagged(_), None) | (TagChoice::Untagged, Some(_)) => false,
        (TagChoice::Tagged(wanted), Some(tag)) => tag.as_str() == wanted.as_str(),
    }
}

fn begins_from(from: Option<Duration>, time: u128) -> bool
    ensures { result ≡ begins_from (option_map as_nanos from) time }
{
    from.is_none_or(|from| from.as_nanos() <= time)
}

fn begins_before(to: Option<Duration>, time: u128) -> bool
    ensures { result ≡ begins_before (option_map as_nanos to) time }
{
    to.is_none_or(|to| time < to.as_nanos())
}

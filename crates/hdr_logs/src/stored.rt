//! Copies of intervals.

ghost use Rattle.std.specs.Prelude.{◌≡◌, ◌⊎◌, ◌-◌, ◌^◌, [], Some, IfOk, IfErr, MatchOption, true, unwrap_or};
ghost use Rattle.std.specs.Option.{option_map};
ghost use Rattle.std.specs.Duration.{as_nanos};
ghost use Rattle.std.specs.String.{string_bytes};
ghost use Rattle.hdr_log.specs.Grammar.{is_tag};
ghost use Rattle.hdr_log.specs.Tags.{tag_text};
ghost use Rattle.hdrhistogram.specs.ClassesRead.{AppendsField};
ghost use Rattle.hdrhistogram.specs.FieldRead.{IsHeldIn};
ghost use Rattle.hdr_logs.specs.Errors.{IsFieldError};
ghost use Rattle.hdr_logs.specs.FileNames.{text_in_file};
ghost use Rattle.hdr_logs.specs.Times.{nearest_millisecond, IsTooLate};

use crate::errors::LogError;
use crate::interval::Interval;
use crate::place::Place;
use hdr_input::Unit;
use hdrhistogram::Histogram;
use hdrhistogram::serialization::interval_log::Tag;
use hdrhistogram::serialization::{Deserializer, RecordedBounds, RecordedClass};
use std::alloc::{AllocError, Global};
use std::time::Duration;

/// Nanoseconds in a millisecond.
const MILLISECOND: u128 = 1_000_000;

/// What is between a tag and the name of the file.
const BEFORE_FILE_NAME: char = '@';

/// A copy of an interval of a log, which begins at the nearest millisecond.
#[derive(Drop)]
pub struct StoredInterval {
    /// When it begins, in milliseconds since the epoch or, if the log has no base time, since some
    /// start.
    pub start: u64,
    /// The text of its tag, which is empty if there is none.
    tag: String,
    ghost allowed: { is_tag (string_bytes tag) ≡ true },
    pub duration: Duration,
    /// The Base64 of its histogram, which is plain.
    pub field: String,
    /// The decimals of its values, if a comment before it has them. Otherwise they are integers.
    pub decimals: Option<u32>,
    /// The unit of its values, if a comment before it has one.
    pub unit: Option<Unit>,
    pub place: Place,
}

impl StoredInterval {
    ghost use Rattle.hdr_logs.specs.Intervals.{tag_or_none, view_of_log_interval};
    ghost use Rattle.hdr_logs.specs.FileNames.{in_file};
    ghost use Rattle.hdr_logs.specs.Stored.{stored, view_of_stored, length_of, end_of};

    /// Returns a copy of an interval. If its file has a name, its tag ends with that.
    ///
    /// # Errors
    /// Returns `TooLate` if it begins past 64 bits of milliseconds, or `OutOfMemory`.
    pub fn new(
        alloc: Global,
        interval: &Interval<'_>,
        file_name: Option<Tag<'_>>,
    ) -> Result<StoredInterval, LogError>
        ensures stored { IfOk result (λ copy. view_of_stored copy
            ≡ stored (in_file (option_map tag_text file_name.entry)
            (view_of_log_interval interval.now))) }
        ensures decimals { IfOk result (λ copy. copy.decimals ≡ interval.now.decimals) }
        ensures unit { IfOk result (λ copy. copy.unit ≡ interval.now.unit) }
        ensures place { IfOk result (λ copy. copy.place ≡ interval.now.place) }
        ensures errors { IfErr result (λ error. (error ≡ LogError.OutOfMemory)
            ⊎ ((error ≡ LogError.TooLate interval.now.place) × IsTooLate interval.now.time)) }
    {
        let Some(start) = milliseconds(interval.time) else {
            return Err(LogError::TooLate(interval.place));
        };
        Ok(StoredInterval {
            start,
            tag: tag_in_file(alloc, interval.tag, file_name)?,
            duration: interval.duration,
            field: String::from_str(alloc, interval.field)?,
            decimals: interval.decimals,
            unit: interval.unit,
            place: interval.place,
        })
    }

    /// Returns its tag, or `None` if it has none.
    pub fn tag(&self) -> Option<Tag<'_>>
        ensures { option_map tag_text result ≡ tag_or_none (Some (view_of_stored self.now).tag) }
    {
        if self.tag.is_empty() {
            None
        } else {
            Tag::new(self.tag.as_str())
        }
    }

    /// Returns the interval, which begins at its millisecond.
    pub(crate) fn interval(&self) -> Interval<'_>
        ensures tag { (view_of_log_interval result).tag
            ≡ tag_or_none (Some (view_of_stored self.now).tag) }
        ensures field { (view_of_log_interval result).field ≡ (view_of_stored self.now).field }
        ensures decimals { result.decimals ≡ self.now.decimals }
        ensures unit { result.unit ≡ self.now.unit }
    {
        Interval {
            time: u128::from(self.start) * MILLISECOND,
            tag: self.tag(),
            duration: self.duration,
            field: self.field.as_str(),
            decimals: self.decimals,
            unit: self.unit,
            place: self.place,
        }
    }

    /// Returns the text of its tag, which is empty if it has none.
    pub fn name(&self) -> &str
        ensures { result.now ≡ (view_of_stored self.now).tag }
    {
        self.tag.as_str()
    }

    /// Returns how long it is in milliseconds, to the nearest, or `u64::MAX` if that is less.
    pub fn length(&self) -> u64
        ensures { result ≡ length_of self.now }
    {
        milliseconds(self.duration.as_nanos()).unwrap_or(u64::MAX)
    }

    /// Returns when it ends, in milliseconds as `start`, or `u64::MAX` if that is less.
    pub fn end(&self) -> u64
        ensures { result ≡ end_of self.now }
    {
        self.start.saturating_add(self.length())
    }

    /// Returns its histogram, which is decoded into the memory of `spare`.
    ///
    /// # Errors
    /// Returns `Field` if its field holds no histogram, or `OutOfMemory`.
    pub fn histogram(
        &self,
        deserializer: &mut Deserializer,
        spare: Option<Histogram<u64>>,
    ) -> Result<Histogram<u64>, LogError>
        ensures histogram { IfOk result (IsHeldIn (2 ^ 64 - 1) (view_of_stored self.now).field) }
        ensures errors { IfErr result (IsFieldError self.now.place) }
    {
        decoded(deserializer, spare, self.field.as_str(), self.place)
    }

    /// Appends the nonempty classes of its histogram, and returns the bounds of that.
    ///
    /// # Errors
    /// As `histogram`.
    pub fn classes(
        &self,
        deserializer: &mut Deserializer,
        classes: &mut Vec<RecordedClass>,
    ) -> Result<RecordedBounds, LogError>
        ensures classes { IfOk result (λ bounds. AppendsField (2 ^ 64 - 1) (view_of_stored self.now).field bounds
            classes.old.items classes.new.items) }
        ensures errors { IfErr result (IsFieldError self.now.place) }
    {
        deserializer
            .decode_classes(self.field.as_str(), classes)
            .map_err(|cause| LogError::of_field(self.place, cause))
    }
}

/// Returns the text of a tag, which is empty if there is none.
fn text_of<'a>(tag: Option<Tag<'a>>) -> &'a str
    ensures text { result.now ≡ unwrap_or (option_map tag_text tag.entry) [] }
    ensures allowed { is_tag result.now ≡ true }
{
    match tag {
        Some(tag) => tag.as_str(),
        None => "",
    }
}

/// Returns the text of the tag of an interval. If its file has a name, the text ends with that.
fn tag_in_file(
    alloc: Global,
    tag: Option<Tag<'_>>,
    file_name: Option<Tag<'_>>,
) -> Result<String, AllocError>
    ensures text { IfOk result (λ text. string_bytes text
        ≡ text_in_file (option_map tag_text file_name.entry) (option_map tag_text tag.entry)) }
    ensures allowed { IfOk result (λ text. is_tag (string_bytes text) ≡ true) }
{
    let mut text = String::from_str(alloc, text_of(tag))?;
    let Some(name) = file_name else {
        return Ok(text);
    };
    if tag.is_some() {
        text.push(BEFORE_FILE_NAME)?;
    }
    text.push_str(name.as_str())?;
    Ok(text)
}

/// Returns a time in nanoseconds to the nearest millisecond, or `None` if that does not fit 64 bits.
fn milliseconds(nanos: u128) -> Option<u64>
    ensures { MatchOption result (IsTooLate nanos) (λ ms. ms ≡ nearest_millisecond nanos) }
{
    let rounded = nanos.saturating_add(MILLISECOND / 2) / MILLISECOND;
    u64::try_from(rounded).ok()
}

/// Returns the histogram of an interval's field, which is decoded into the memory of `spare`.
pub(crate) fn decoded(
    deserializer: &mut Deserializer,
    spare: Option<Histogram<u64>>,
    field: &str,
    place: Place,
) -> Result<Histogram<u64>, LogError>
    ensures histogram { IfOk result (IsHeldIn (2 ^ 64 - 1) field.now) }
    ensures errors { IfErr result (IsFieldError place) }
{
    deserializer
        .decode_field_into(field, spare)
        .map_err(|cause| LogError::of_field(place, cause))
}

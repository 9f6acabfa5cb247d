//! Three histograms, and the calls between them.

use crate::arguments::{NumberCall, Numbers, TextCall, split_at_space};
use crate::items::{numbers_text, parse_quantiles};
use crate::outcome::{LineError, Outcome, Value, ensure_same, first_known};
use crate::runs::{parse_call, parse_calls, parse_calls_from};
use crate::single::{is_same, replace};
use crate::{base, bytes, logs, merging, single};
use hdr_base::Counter;
use hdr_core::{CreationError, Histogram};
use std::alloc::Global;

/// Two histograms of one counter type, and one of u64.
#[derive(Drop)]
pub struct Table<T: Counter> {
    pub one: Histogram<T>,
    pub other: Histogram<T>,
    pub wide: Histogram<u64>,
}

/// Makes a call on one histogram that takes text.
fn call_with_text<T: Counter>(alloc: Global, h: &mut Histogram<T>, call: TextCall<'_>) -> Outcome {
    match call {
        ("log_line", text) => logs::log_line(alloc, h, text),
        ("merge", text) => merging::merge(alloc, h, text),
        ("value_at_quantiles", text) => {
            let quantiles = parse_quantiles(alloc, text)?;
            numbers_text(alloc, h.value_at_quantiles(&quantiles).collect(alloc)?)
        }
        ("value_at_percentiles", text) => {
            let quantiles = parse_quantiles(alloc, text)?;
            numbers_text(alloc, h.value_at_percentiles(&quantiles).collect(alloc)?)
        }
        _ => bytes::call_histogram(alloc, h, call),
    }
}

/// Makes a call on one histogram.
fn call_single<T: Counter>(alloc: Global, h: &mut Histogram<T>, call: TextCall<'_>) -> Outcome {
    let (name, text) = call;
    first_known!(
        call_with_text(alloc, h, call),
        single::call(alloc, h, (name, Numbers::parse(text)?.as_slice()))
    )
}

/// Returns the result of a comparison, which has to be the same both ways.
fn symmetric(forward: bool, backward: bool) -> Outcome {
    ensure_same(forward == backward)?;
    Ok(Value::Bool(forward))
}

impl<T: Counter> Table<T> {
    /// Returns three empty histograms of three digits.
    pub fn new(alloc: Global) -> Result<Table<T>, CreationError> {
        let one = Histogram::new(alloc, 3)?;
        let other = Histogram::new(alloc, 3)?;
        let wide = Histogram::new(alloc, 3)?;
        Ok(Table { one, other, wide })
    }

    /// Makes a call that adds another histogram to the first, or subtracts it.
    fn merge(&mut self, call: NumberCall<'_>) -> Outcome {
        match call {
            ("add", []) => self.one.add(&self.other)?,
            ("set_to", []) => self.one.set_to(&self.other)?,
            ("add_from", []) => self.one.add_from(&self.wide)?,
            ("subtract", []) => self.one.subtract(&self.other)?,
            ("add_correct", &[interval]) => self.one.add_correct(&self.other, interval)?,
            ("set_to_corrected", &[interval]) => self.one.set_to_corrected(&self.other, interval)?,
            ("add_correct_from", &[interval]) => self.one.add_correct_from(&self.wide, interval)?,
            _ => return Err(LineError::UnknownCall),
        }
        Ok(Value::Unit)
    }

    /// Makes a call that replaces `other`.
    fn replace_other(&mut self, alloc: Global, call: NumberCall<'_>) -> Outcome {
        let new = match call {
            ("clone_to_other", []) => self.one.clone()?,
            ("clone_correct_to_other", &[interval]) => self.one.clone_correct(interval)?,
            ("new_from_wide_to_other", []) => Histogram::new_from(alloc, &self.wide)?,
            _ => return Err(LineError::UnknownCall),
        };
        replace(&mut self.other, new)
    }

    /// Makes a call that compares the first with another.
    fn compare(&self, call: NumberCall<'_>) -> Outcome {
        let (one, other, wide) = (&self.one, &self.other, &self.wide);
        match call {
            ("same", []) => symmetric(is_same(one, other), is_same(other, one)),
            ("same_wide", []) => symmetric(is_same(one, wide), is_same(wide, one)),
            ("is_other", []) => symmetric(*one == *other, *other == *one),
            ("equals_other", []) => symmetric(one.equals(other), other.equals(one)),
            ("equals_wide", []) => symmetric(one.equals(wide), wide.equals(one)),
            ("refines_other", []) => Ok(Value::Bool(one.refines(other))),
            ("refines_wide", []) => Ok(Value::Bool(one.refines(wide))),
            _ => Err(LineError::UnknownCall),
        }
    }

    /// Makes a call that applies calls as values.
    fn apply_calls(&mut self, alloc: Global, call: TextCall<'_>) -> Outcome {
        let (other, wide) = (&self.other, &self.wide);
        match call {
            ("apply", text) => self.one.apply(&parse_call(text, other)?)?,
            ("run", text) => self.one.apply_all(&parse_calls(alloc, text, other)?)?,
            ("run_from", text) => {
                self.one
                    .apply_all_from(&parse_calls_from(alloc, text, other, wide)?)?
            }
            _ => return Err(LineError::UnknownCall),
        }
        Ok(Value::Unit)
    }

    /// Makes a call between the histograms.
    fn call_between(&mut self, alloc: Global, call: NumberCall<'_>) -> Outcome {
        first_known!(
            self.merge(call),
            self.replace_other(alloc, call),
            self.compare(call),
            self.compare_corrections(call)
        )
    }

    /// Makes a call on the first histogram.
    fn call_first(&mut self, alloc: Global, call: TextCall<'_>) -> Outcome {
        let (name, text) = call;
        first_known!(
            self.apply_calls(alloc, call),
            call_single(alloc, &mut self.one, call),
            self.call_between(alloc, (name, Numbers::parse(text)?.as_slice()))
        )
    }

    /// Makes the call of a line.
    pub fn execute(&mut self, alloc: Global, line: &str) -> Outcome {
        let (who, call) = split_at_space(line);
        let call = split_at_space(call);
        match who {
            "one" => self.call_first(alloc, call),
            "other" => call_single(alloc, &mut self.other, call),
            "wide" => call_single(alloc, &mut self.wide, call),
            "bytes" => bytes::call(alloc, call),
            "log" => logs::call(alloc, call),
            _ => base::call::<T>(who, (call.0, Numbers::parse(call.1)?.as_slice())),
        }
    }
}

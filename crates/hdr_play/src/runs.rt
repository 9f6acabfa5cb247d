//! Calls as values.

use crate::arguments::{Numbers, split_at_space, to_counter};
use crate::outcome::LineError;
use hdr_base::Counter;
use hdr_core::{Call, CallFrom, Histogram};
use std::alloc::Global;

/// Parses a call in which `other` is a source.
pub fn parse_call<'a, T: Counter>(
    text: &str,
    other: &'a Histogram<T>,
) -> Result<Call<'a, T>, LineError> {
    let (name, rest) = split_at_space(text);
    Ok(match (name, Numbers::parse(rest)?.as_slice()) {
        ("record", &[value, count]) => Call::Record(value, to_counter(count)?),
        ("clamp", &[value, count]) => Call::Clamp(value, to_counter(count)?),
        ("correct", &[value, n, interval]) => Call::Correct(value, to_counter(n)?, interval),
        ("clear", []) => Call::Clear,
        ("reset", []) => Call::Reset,
        ("add", []) => Call::Add(other),
        ("add_correct", &[interval]) => Call::AddCorrect(other, interval),
        _ => return Err(LineError::UnknownCall),
    })
}

/// Parses the calls of a run, separated by commas.
pub fn parse_calls<'a, T: Counter>(
    alloc: Global,
    text: &str,
    other: &'a Histogram<T>,
) -> Result<Vec<Call<'a, T>>, LineError> {
    let mut calls = Vec::new(alloc);
    for call in text.split(", ") {
        calls.push(parse_call(call, other)?)?;
    }
    Ok(calls)
}

/// Parses a call in which `wide` may be the source too.
fn parse_call_from<'a, T: Counter>(
    text: &str,
    other: &'a Histogram<T>,
    wide: &'a Histogram<u64>,
) -> Result<CallFrom<'a, T, u64>, LineError> {
    let (name, rest) = split_at_space(text);
    match (name, Numbers::parse(rest)?.as_slice()) {
        ("add_from", []) => Ok(CallFrom::AddFrom(wide)),
        ("add_correct_from", &[interval]) => Ok(CallFrom::AddCorrectFrom(wide, interval)),
        _ => Ok(CallFrom::Own(parse_call(text, other)?)),
    }
}

/// Parses the calls of a run with sources `other` and `wide`, separated by commas.
pub fn parse_calls_from<'a, T: Counter>(
    alloc: Global,
    text: &str,
    other: &'a Histogram<T>,
    wide: &'a Histogram<u64>,
) -> Result<Vec<CallFrom<'a, T, u64>>, LineError> {
    let mut calls = Vec::new(alloc);
    for call in text.split(", ") {
        calls.push(parse_call_from(call, other, wide)?)?;
    }
    Ok(calls)
}

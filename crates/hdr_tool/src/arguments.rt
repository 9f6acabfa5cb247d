//! Parses the arguments.

ghost use Rattle.std.specs.Prelude.{◌≡◌, ◌∷◌, ◌<◌, length, map, string_bytes, IfOk, IfSome, MatchOption};
ghost use Rattle.std.specs.Option.{option_map};
ghost use Rattle.std.specs.List.{filter_map};
ghost use Rattle.hdrhistogram.specs.Chosen.{view_of_filter};
ghost use Rattle.hdr_tool.specs.Arguments.{sigfig_of, fraction_of, are_fractions, figures_of, counter_of, with_option, no_options, options_of, requested, view_of_options, filter_of, view_of_task};

use hdr_log::parts::{number, split_once};
use hdrhistogram::Quantile;
use hdrhistogram::serialization::interval_log::{IntervalFilter, Tag};
use std::alloc::{AllocError, Global};
use std::time::Duration;

/// The task that the arguments request.
#[derive(Clone, Copy)]
pub(crate) enum Task<'a> {
    /// Report these quantiles, with a histogram of this many significant digits.
    Report(u8, &'a [String]),
    /// Write a log, with a histogram of this many significant digits.
    Log(u8),
    /// Report these quantiles of a log's chosen intervals, with a histogram of this many significant digits.
    Merge(Options<'a>, u8, &'a [String]),
}

/// The counter types that a merge counts in.
#[derive(Clone, Copy, Debug, PartialEq, Eq)]
pub(crate) enum CounterType {
    U8,
    U16,
    U32,
    U64,
}

/// The options of a merge. Times are in milliseconds.
#[derive(Clone, Copy)]
pub(crate) struct Options<'a> {
    pub into: Option<CounterType>,
    pub tag: Option<Tag<'a>>,
    pub from: Option<u64>,
    pub to: Option<u64>,
}

impl<'a> Options<'a> {
    /// Returns the filter of the chosen intervals.
    pub fn filter(&self) -> IntervalFilter<'a>
        ensures { view_of_filter result ≡ filter_of (view_of_options self.now) }
    {
        IntervalFilter {
            tag: self.tag,
            from: self.from.map(Duration::from_millis),
            to: self.to.map(Duration::from_millis),
        }
    }
}

/// Parses the arguments. Returns `None` for a usage error.
#[tactic(auto, unfolding(crate::specs::Arguments::task_of, crate::specs::Arguments::merge_of))]
pub(crate) fn parse(arguments: &[String]) -> Option<Task<'_>>
    ensures { option_map view_of_task result ≡ requested arguments.now }
{
    let (name, arguments) = arguments.split_first()?;
    let name = name.as_bytes();
    if name == b"report".as_slice() {
        let (sigfig, quantiles) = sigfig_and_quantiles(arguments)?;
        Some(Task::Report(sigfig, quantiles))
    } else if name == b"log".as_slice() {
        let [digit] = arguments else {
            return None;
        };
        Some(Task::Log(sigfig(digit.as_bytes())?))
    } else if name == b"merge".as_slice() {
        let (options, arguments) = take_options(arguments)?;
        let (sigfig, quantiles) = sigfig_and_quantiles(arguments)?;
        Some(Task::Merge(options, sigfig, quantiles))
    } else {
        None
    }
}

/// Parses the options before SIGFIG, and returns them with the arguments from SIGFIG on.
/// Returns `None` if an option is invalid or set twice.
fn take_options(arguments: &[String]) -> Option<(Options<'_>, &[String])>
    ensures { option_map (λ p. (view_of_options p.0, map string_bytes p.1.now)) result
        ≡ options_of no_options (map string_bytes arguments.now) }
{
    let mut left = arguments;
    let mut options = Options {
        into: None,
        tag: None,
        from: None,
        to: None,
    };
    while let Some((name, value, rest)) = first_two(left) {
        if sigfig(name.as_bytes()).is_some() {
            break;
        }
        options = with_option(options, name.as_bytes(), value)?;
        left = rest;
    }
    Some((options, left))
}

/// Returns the first two arguments and the rest, or `None` if there are fewer.
fn first_two(arguments: &[String]) -> Option<(&String, &String, &[String])>
    ensures arguments { MatchOption result (length arguments.now < 2)
        (λ p. map string_bytes arguments.now
        ≡ string_bytes p.0.now ∷ string_bytes p.1.now ∷ map string_bytes p.2.now) }
    ensures fewer { IfSome result (λ p. length p.2.now < length arguments.now) }
{
    let (first, rest) = arguments.split_first()?;
    let (second, rest) = rest.split_first()?;
    Some((first, second, rest))
}

/// Sets one more option. Returns `None` if it is already set or unknown, or if `value` is invalid.
#[tactic(auto, unfolding(crate::specs::Arguments::with_option))]
fn with_option<'a>(options: Options<'a>, name: &[u8], value: &'a str) -> Option<Options<'a>>
    ensures { option_map view_of_options result ≡ with_option
        (view_of_options options.entry) name.now value.now }
{
    if name == b"--into".as_slice() && options.into.is_none() {
        let into = Some(counter(value.as_bytes())?);
        Some(Options { into, ..options })
    } else if name == b"--tag".as_slice() && options.tag.is_none() {
        let tag = Some(Tag::new(value)?);
        Some(Options { tag, ..options })
    } else if name == b"--from".as_slice() && options.from.is_none() {
        let from = Some(number(value.as_bytes())?);
        Some(Options { from, ..options })
    } else if name == b"--to".as_slice() && options.to.is_none() {
        let to = Some(number(value.as_bytes())?);
        Some(Options { to, ..options })
    } else {
        None
    }
}

/// Parses the name of a counter type.
#[tactic(auto, unfolding(crate::specs::Arguments::counter_of))]
fn counter(name: &[u8]) -> Option<CounterType>
    ensures { result ≡ counter_of name.now }
{
    match name {
        b"u8" => Some(CounterType::U8),
        b"u16" => Some(CounterType::U16),
        b"u32" => Some(CounterType::U32),
        b"u64" => Some(CounterType::U64),
        _ => None,
    }
}

/// Parses SIGFIG, the number of significant digits, and returns it with the arguments after it.
/// Returns `None` unless these are quantiles, one or more.
fn sigfig_and_quantiles(arguments: &[String]) -> Option<(u8, &[String])>
    ensures { option_map (λ f. (f.0, filter_map fraction_of (map string_bytes f.1.now))) result
        ≡ figures_of (map string_bytes arguments.now) }
{
    let (digit, quantiles) = arguments.split_first()?;
    let sigfig = sigfig(digit.as_bytes())?;
    if quantiles.is_empty() || !are_quantiles(quantiles) {
        return None;
    }
    Some((sigfig, quantiles))
}

/// Parses one digit, 0 to 5.
fn sigfig(argument: &[u8]) -> Option<u8>
    ensures { result ≡ sigfig_of argument.now }
{
    match argument {
        [digit @ b'0'..=b'5'] => Some(*digit - b'0'),
        _ => None,
    }
}

/// Whether each argument is a quantile.
fn are_quantiles(arguments: &[String]) -> bool
    ensures { result ≡ are_fractions (map string_bytes arguments.now) }
{
    for argument in arguments {
        if quantile(argument.as_bytes()).is_none() {
            return false;
        }
    }
    true
}

/// Parses `NUM/DEN`, with `DEN` at least 1.
#[tactic(auto, unfolding(crate::specs::Arguments::fraction_of))]
fn quantile(argument: &[u8]) -> Option<Quantile>
    ensures { result ≡ fraction_of argument.now }
{
    let (num, den) = split_once(argument, b'/')?;
    Quantile::new(number(num)?, number(den)?)
}

/// Returns the quantiles of the arguments, in order.
pub(crate) fn quantiles(alloc: Global, arguments: &[String]) -> Result<Vec<Quantile>, AllocError>
    ensures { IfOk result (λ q. q.items ≡ filter_map fraction_of (map string_bytes arguments.now)) }
{
    let mut quantiles = Vec::new(alloc);
    for argument in arguments {
        if let Some(quantile) = quantile(argument.as_bytes()) {
            quantiles.push(quantile)?;
        }
    }
    Ok(quantiles)
}

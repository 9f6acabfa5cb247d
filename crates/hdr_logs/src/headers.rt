//! Headers of logs, and the decimals and the unit of values.

ghost use Rattle.std.specs.Prelude.{◌≡◌, ◌≢◌, OnOk, OnErr, IfErr, IfOk, IfNone, IfSome, unwrap_or, string_bytes};
ghost use Rattle.std.specs.Str.{IsTrimAsciiEnd};
ghost use Rattle.hdr_logs.specs.Errors.{unit_error};
ghost use Rattle.hdr_logs.specs.Headers.{decimals_comment, unit_comment, unit_line};

use crate::errors::LogError;
use crate::note::NoteKind;
use crate::place::Place;
use hdr_input::Unit;
use hdr_input::distribution::MOST_DECIMALS;
use std::alloc::{AllocError, Global};
use std::fmt;

/// How the comment begins that has the decimals of a log's values, and how it ends.
const DECIMALS_START: &[u8] = b"#[Values have ";

const DECIMALS_END: &[u8] = b" decimals]";

/// How the comment begins that has the unit of a log's values.
const UNIT_START: &[u8] = b"#[Values are in ";

/// How the headers begin that have times.
const START_TIME: &[u8] = b"#[StartTime: ";

const BASE_TIME: &[u8] = b"#[BaseTime: ";

/// What a comment says of the values after it.
#[derive(Clone, Copy)]
pub(crate) enum Header {
    /// Their decimals.
    Decimals(u32),
    /// Their unit.
    Unit(Unit),
}

/// Returns what a line says of the values after it, if it is a comment that does.
pub(crate) fn header_of(line: &[u8]) -> Option<Header> {
    match unit_of(line) {
        Some(unit) => Some(Header::Unit(unit)),
        None => decimals_of(line).map(Header::Decimals),
    }
}

/// Returns the decimals of a log's values, if the line is the comment that has them: the values are
/// in units of the last decimal.
pub(crate) fn decimals_of(line: &[u8]) -> Option<u32> {
    let number = line
        .strip_prefix(DECIMALS_START)?
        .trim_ascii_end()
        .strip_suffix(DECIMALS_END)?;
    let decimals = str::from_utf8(number).ok()?.parse::<u32>().ok()?;
    (decimals <= MOST_DECIMALS).then_some(decimals)
}

/// Returns the unit of a log's values, if the line is the comment that has it.
pub(crate) fn unit_of(line: &[u8]) -> Option<Unit>
    ensures unit { IfSome result (λ unit. IsTrimAsciiEnd line.now (unit_line unit)) }
    ensures none { IfNone result ((unit : Unit) → ¬ IsTrimAsciiEnd line.now (unit_line unit)) }
{
    match line.trim_ascii_end() {
        b"#[Values are in ns]" => Some(Unit::Nanoseconds),
        b"#[Values are in us]" => Some(Unit::Microseconds),
        b"#[Values are in ms]" => Some(Unit::Milliseconds),
        b"#[Values are in s]" => Some(Unit::Seconds),
        _ => None,
    }
}

/// Returns which header a comment is that has no valid time, number of decimals or unit.
pub(crate) fn invalid_header(line: &[u8]) -> Option<NoteKind> {
    if line.starts_with(BASE_TIME) {
        Some(NoteKind::BaseTime)
    } else if line.starts_with(START_TIME) {
        Some(NoteKind::StartTime)
    } else if line.starts_with(DECIMALS_START) {
        Some(NoteKind::Decimals)
    } else if line.starts_with(UNIT_START) {
        Some(NoteKind::Unit)
    } else {
        None
    }
}

/// Returns an error if the values of an interval have other decimals than others. They are integers
/// if no comment has their decimals.
pub fn check_decimals(place: Place, decimals: Option<u32>, others: u32) -> Result<(), LogError>
    ensures ok { OnOk result (unwrap_or decimals 0 ≡ others) }
    ensures err { OnErr result (unwrap_or decimals 0 ≢ others) }
    ensures errors { IfErr result (λ error. error ≡ LogError.OtherDecimals place (unwrap_or decimals 0) others) }
{
    let decimals = decimals.unwrap_or(0);
    if decimals == others {
        return Ok(());
    }
    Err(LogError::OtherDecimals {
        place,
        decimals,
        others,
    })
}

/// Returns an error if the values of an interval have another unit than others.
pub fn check_unit(place: Place, unit: Option<Unit>, others: Option<Unit>) -> Result<(), LogError>
    ensures ok { OnOk result (unit ≡ others) }
    ensures err { OnErr result (unit ≢ others) }
    ensures errors { IfErr result (λ error. error ≡ unit_error place unit others) }
{
    if unit == others {
        return Ok(());
    }
    let (is_missing, unit, others) = (
        unit.is_none() || others.is_none(),
        UnitName(unit),
        UnitName(others),
    );
    Err(if is_missing {
        LogError::MissingUnit {
            place,
            unit,
            others,
        }
    } else {
        LogError::OtherUnit {
            place,
            unit,
            others,
        }
    })
}

/// The unit of values, or that they have none.
#[derive(Debug, Clone, Copy)]
pub struct UnitName(pub Option<Unit>);

/// Writes the name of the unit.
impl fmt::Display for UnitName {
    fn fmt<W: fmt::Write>(&self, f: &mut fmt::Formatter<W>) -> fmt::Result {
        f.write_str(self.0.map_or("no unit", Unit::name))
    }
}

/// Returns the comment that has the decimals of a log's values, as logs are read.
pub fn decimals_comment(alloc: Global, decimals: u32) -> Result<String, AllocError>
    ensures { IfOk result (λ text. string_bytes text ≡ decimals_comment decimals) }
{
    format!(in alloc; "[Values have {decimals} decimals]")
}

/// Returns the comment that has the unit of a log's values, as logs are read.
pub fn unit_comment(alloc: Global, unit: Unit) -> Result<String, AllocError>
    ensures { IfOk result (λ text. string_bytes text ≡ unit_comment unit) }
{
    let mut text = String::from_str(alloc, "[Values are in ")?;
    text.push_str(unit.name())?;
    text.push(']')?;
    Ok(text)
}

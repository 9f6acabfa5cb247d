//! Times as texts: in UTC, or since the start if a log has no times of a clock.

use crate::amount::SPACE;
use hdr_draw::number::{Decimal, push_grouped};
use hdr_figures::timeline::Timeline;
use jiff::Timestamp;
use jiff::civil::DateTime;
use jiff::tz::Offset;
use std::alloc::AllocError;

const DAY: u64 = 86_400_000;

const HOUR: u64 = 3_600_000;

const MONTHS: [&str; 12] = [
    "January",
    "February",
    "March",
    "April",
    "May",
    "June",
    "July",
    "August",
    "September",
    "October",
    "November",
    "December",
];

/// The units of lengths of time, in seconds.
const LENGTHS: [(u64, &str); 4] = [(86_400, "d"), (3_600, "h"), (60, "min"), (1, "s")];

/// How a time is written.
#[derive(Clone, Copy, PartialEq, Eq)]
pub enum TimeStyle {
    /// With seconds, and with the day if the log has several. If intervals are usually shorter than a
    /// second, with fractions of one.
    Full,
    /// Without seconds if they are 0, and midnight as a day.
    Short,
    /// The same with seconds.
    ShortWithSeconds,
}

/// Writes the times of a log.
#[derive(Clone, Copy)]
pub struct Clock {
    first: u64,
    has_clock: bool,
    has_days: bool,
    has_hours: bool,
    /// Whether intervals are usually shorter than a second.
    is_fine: bool,
}

/// Returns the date and time of milliseconds since the epoch, in UTC.
fn civil(time: u64) -> Option<DateTime> {
    let seconds = i64::try_from(time / 1_000).ok()?;
    let timestamp = Timestamp::from_second(seconds).ok()?;
    Some(Offset::UTC.to_datetime(timestamp))
}

/// Returns the name of a month.
fn month_name(date: DateTime) -> &'static str {
    let index = u8::try_from(date.month()).unwrap_or(1).saturating_sub(1);
    MONTHS.get(index as usize).copied().unwrap_or("")
}

/// Appends a day such as `26 Nov`.
fn push_day(text: &mut String, date: DateTime) -> Result<(), AllocError> {
    let day = date.day();
    let name = month_name(date);
    let month = name.get(..3).unwrap_or(name);
    write!(text, "{day} {month}")
}

impl Clock {
    /// Returns the clock of a log.
    pub(crate) fn new(timeline: &Timeline) -> Clock {
        let has_clock = timeline.has_clock();
        Clock {
            first: timeline.first,
            has_clock,
            has_days: has_clock && timeline.first / DAY != timeline.last / DAY,
            has_hours: timeline.last.saturating_sub(timeline.first) >= HOUR,
            is_fine: timeline.step < timeline.merged.saturating_mul(1_000),
        }
    }

    /// Appends a time, in milliseconds since the epoch.
    pub fn push(self, text: &mut String, time: u64, style: TimeStyle) -> Result<(), AllocError> {
        if !self.has_clock {
            return self.push_since_start(text, time, style);
        }
        let in_day = time % DAY / 1_000;
        if self.has_days {
            if let Some(date) = civil(time) {
                if style == TimeStyle::Full {
                    push_day(text, date)?;
                    text.push_str(" ")?;
                } else if in_day == 0 {
                    return push_day(text, date);
                }
            }
        }
        if style == TimeStyle::Short && in_day % 60 == 0 {
            let hours = in_day / 3_600;
            let minutes = in_day / 60 % 60;
            return write!(text, "{hours:02}:{minutes:02}");
        }
        push_time_of_day(text, time)?;
        if self.is_fine && style == TimeStyle::Full {
            push_fraction(text, time)?;
        }
        Ok(())
    }

    /// Appends from when to when a log is, in UTC, with the day or both days.
    pub(crate) fn push_range(
        self,
        text: &mut String,
        first: u64,
        last: u64,
    ) -> Result<(), AllocError> {
        push_time_of_day(text, first)?;
        if self.has_days {
            push_date(text, first)?;
            text.push_str(",")?;
        }
        text.push_str(" to ")?;
        push_time_of_day(text, last)?;
        text.push_str(" UTC")?;
        push_date(text, last)
    }

    /// Appends the day of a time, in milliseconds since the epoch, such as `26 Nov`, or the time since
    /// the start.
    pub fn push_day_of(self, text: &mut String, time: u64) -> Result<(), AllocError> {
        match civil(time) {
            Some(date) if self.has_clock => push_day(text, date),
            _ => self.push_since_start(text, time, TimeStyle::Short),
        }
    }

    /// Appends a time since the start.
    fn push_since_start(
        self,
        text: &mut String,
        time: u64,
        style: TimeStyle,
    ) -> Result<(), AllocError> {
        let since = time.saturating_sub(self.first);
        if self.is_fine && style == TimeStyle::Full {
            self.push_seconds(text, since / 1_000)?;
            return push_fraction(text, since);
        }
        self.push_seconds(text, since.saturating_add(500) / 1_000)
    }

    /// Appends a number of seconds.
    fn push_seconds(self, text: &mut String, since: u64) -> Result<(), AllocError> {
        let seconds = since % 60;
        if self.has_hours {
            let hours = since / 3_600;
            let minutes = since / 60 % 60;
            return write!(text, "{hours}:{minutes:02}:{seconds:02}");
        }
        let minutes = since / 60;
        write!(text, "{minutes}:{seconds:02}")
    }
}

/// Appends the time of day of milliseconds since the epoch, in UTC.
fn push_time_of_day(text: &mut String, time: u64) -> Result<(), AllocError> {
    let in_day = time % DAY / 1_000;
    let hours = in_day / 3_600;
    let minutes = in_day / 60 % 60;
    let seconds = in_day % 60;
    write!(text, "{hours:02}:{minutes:02}:{seconds:02}")
}

/// Appends the fraction of a second that milliseconds have, if it is not 0.
fn push_fraction(text: &mut String, milliseconds: u64) -> Result<(), AllocError> {
    let part = milliseconds % 1_000;
    if part == 0 {
        return Ok(());
    }
    let (tenths, hundredths) = (part / 100, part / 10);
    if part % 100 == 0 {
        write!(text, ".{tenths}")
    } else if part % 10 == 0 {
        write!(text, ".{hundredths:02}")
    } else {
        write!(text, ".{part:03}")
    }
}

/// Appends the day of a time with its year after a comma, such as `, 25 November 2026`. A year past
/// 9999 is left out.
fn push_date(text: &mut String, time: u64) -> Result<(), AllocError> {
    let Some(date) = civil(time) else {
        return Ok(());
    };
    let day = date.day();
    let month = month_name(date);
    let year = date.year();
    write!(text, ", {day} {month} {year}")
}

/// Appends a length of time in at most two units, from milliseconds.
pub fn push_length(text: &mut String, milliseconds: u64) -> Result<(), AllocError> {
    if milliseconds < 10_000 && milliseconds % 1_000 != 0 {
        Decimal::of_fraction(u128::from(milliseconds), 1_000)
            .trimmed()
            .push(text)?;
        text.push_str(SPACE)?;
        return text.push_str("s");
    }
    let mut rest = milliseconds.saturating_add(500) / 1_000;
    let mut written = 0u32;
    for (size, name) in LENGTHS {
        let is_last = size == 1 && written == 0;
        if (rest >= size || is_last) && written < 2 {
            if written > 0 {
                text.push_str(SPACE)?;
            }
            push_grouped(text, rest / size.max(1))?;
            text.push_str(SPACE)?;
            text.push_str(name)?;
            rest %= size.max(1);
            written += 1;
        } else if written > 0 {
            break;
        }
    }
    Ok(())
}

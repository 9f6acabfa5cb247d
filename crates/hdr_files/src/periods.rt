//! Figures that are printed while numbers are read.

use crate::errors::StatError;
use crate::files::Files;
use crate::numbers::{Form, require_most_lines};
use crate::output::print;
use crate::surveyed::NumberFiles;
use hdr_input::pieces::LineSink;
use hdr_input::rows::{RowSink, RowTexts};
use hdr_input::{Distribution, InputError, Recording, Tally};
use hdr_summary::decimals::Conversion;
use hdr_summary::percentile::Percentile;
use std::alloc::{AllocError, Global};
use std::mem;
use std::time::{Duration, Instant};

/// How often figures are printed, and which.
#[derive(Clone, Copy)]
pub struct Periods<'p, 'n> {
    pub length: Duration,
    pub percentiles: &'p [Percentile<'n>],
    pub conversion: Conversion,
}

/// Numbers, and those since figures were printed last.
#[derive(Drop)]
struct PeriodTally<'r, 'p, 'n> {
    rt: &'r HostRuntime,
    recording: Recording,
    periods: Periods<'p, 'n>,
    all: Tally,
    last: Tally,
    /// When reading began, if there is a clock.
    start: Option<Instant>,
    /// The time from the start to the end of the period.
    end: Duration,
    /// Why figures were not printed.
    error: Option<StatError>,
}

impl PeriodTally<'_, '_, '_> {
    /// Prints the figures of a period that has ended.
    fn print_if_ended(&mut self, alloc: Global) -> Result<(), InputError> {
        let Some(Ok(elapsed)) = self.start.map(|start| start.elapsed(self.rt)) else {
            return Ok(());
        };
        if elapsed < self.end {
            return Ok(());
        }
        match self.print_period(alloc, elapsed) {
            Ok(()) => Ok(()),
            Err(error) => {
                self.error = Some(error);
                Err(InputError::OutOfMemory)
            }
        }
    }

    /// Prints the figures of the period, and begins one that ends a length after this time.
    fn print_period(&mut self, alloc: Global, elapsed: Duration) -> Result<(), StatError> {
        let none = Tally::new(alloc, self.recording)?;
        let last = mem::replace(&mut self.last, none).into_distribution();
        print(
            self.rt,
            line_of(alloc, elapsed, &last, self.periods)?.as_bytes(),
        )?;
        self.end = elapsed.saturating_add(self.periods.length);
        Ok(())
    }
}

impl LineSink for PeriodTally<'_, '_, '_> {
    ghost takes = { λ _ _ _ _ _. Unit {0} };

    ghost takes_none = { λ _ _. tt };

    ghost takes_more = { λ _ _ _ _ _ _ _ _ _ _ _. tt };

    fn take_lines(&mut self, alloc: Global, lines: &[u8], first: u64) -> Result<u64, InputError> {
        self.print_if_ended(alloc)?;
        let _ = self.last.take_lines(alloc, lines, first)?;
        self.all.take_lines(alloc, lines, first)
    }
}

impl RowSink for PeriodTally<'_, '_, '_> {
    fn take_row(&mut self, alloc: Global, row: RowTexts<'_>) -> Result<(), InputError> {
        self.print_if_ended(alloc)?;
        self.last.take_row(alloc, row)?;
        self.all.take_row(alloc, row)
    }
}

/// Returns the numbers of files. A line of the figures of each period is printed when the first
/// numbers after it are read. How many lines were skipped and how many numbers were rounded is
/// printed on standard error.
///
/// # Errors
/// Returns `MostlySkipped` if more lines were skipped than numbers read.
pub fn read_numbers_by_period(
    files: Files<'_, '_, '_>,
    recording: Recording,
    form: Form<'_, '_>,
    periods: Periods<'_, '_>,
) -> Result<Tally, StatError> {
    let alloc = files.alloc();
    let rt = files.rt;
    let mut numbers = NumberFiles::new(files, recording, form)?;
    let recording = numbers.recording;
    let mut sink = PeriodTally {
        rt,
        recording,
        periods,
        all: Tally::new(alloc, recording)?,
        last: Tally::new(alloc, recording)?,
        start: Instant::now(rt).ok(),
        end: periods.length,
        error: None,
    };
    let outcome = numbers.read_into(&mut sink);
    let PeriodTally { all, error, .. } = sink;
    if let Some(error) = error {
        return Err(error);
    }
    outcome?;
    numbers.print_notes(all.numbers() == 0, all.skipped, all.rounded)?;
    require_most_lines(all.numbers(), all.skipped)?;
    Ok(all)
}

/// Returns a line of figures: the seconds since the start, the count, percentiles and the greatest.
fn line_of(
    alloc: Global,
    elapsed: Duration,
    numbers: &Distribution,
    periods: Periods<'_, '_>,
) -> Result<String, AllocError> {
    let (seconds, tenths) = (elapsed.as_secs(), elapsed.subsec_millis() / 100);
    let count = numbers.histogram.len();
    let mut line = format!(in alloc; "{seconds}.{tenths} s: count {count}")?;
    let value = |value: u64| {
        periods
            .conversion
            .decimal(alloc, u128::from(value), numbers.decimals)
    };
    if count > 0 {
        for percentile in periods.percentiles {
            let digits = percentile.digits;
            let figure = value(numbers.value_at_quantile(percentile.quantile))?;
            write!(line, ", p{digits} {figure}")?;
        }
        let max = value(numbers.max)?;
        write!(line, ", max {max}")?;
    }
    line.push('\n')?;
    Ok(line)
}

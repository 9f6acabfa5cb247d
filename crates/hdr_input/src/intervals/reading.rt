//! Rows that are read into intervals of time.

ghost use Rattle.std.specs.Prelude.{◌≡◌, ◌≤◌};

use super::Intervals;
use crate::cause::Cause;
use crate::errors::{InputError, InputPlace};
use crate::lines::{record_field, skip_or_err};
use crate::number::Number;
use crate::rows::{RowSink, RowTexts};
use crate::sink::NumberSink;
use crate::unit::Unit;
use crate::wide::Wide;
use std::alloc::Global;

impl Intervals<'_, '_> {
    ghost use Rattle.hdr_input.specs.Intervals.{KeepsHeld};

    /// Returns the time of a row in nanoseconds, and the text of its group. Without a column of
    /// times the time is 0, and without one of texts the text is empty.
    fn place_of<'t>(&mut self, row: RowTexts<'t>) -> Result<(u64, &'t [u8]), (Cause, &'t [u8])>
        ensures { KeepsHeld self.old self.new }
    {
        let group = match row.group {
            Some(group) => group,
            None if self.cut.groups.is_empty() => b"",
            None => return Err((Cause::NoField, row.row)),
        };
        let time = match (row.time, self.cut.length) {
            (Some(time), Some(_)) => self.times.parse(time).map_err(|cause| (cause, time))?,
            (None, Some(_)) => return Err((without_time(row.place), row.row)),
            (_, None) => 0,
        };
        Ok((time, group))
    }
}

/// Returns why a row has no time: a line of JSON, or a row of a table.
fn without_time(place: InputPlace) -> Cause {
    match place {
        InputPlace::Line(_) => Cause::NoTime,
        InputPlace::Row(_) => Cause::NoField,
    }
}

/// A number is read, and recorded once its time and group are known.
impl NumberSink for Intervals<'_, '_> {
    ghost use Rattle.hdr_input.specs.Intervals.{KeepsHeld, keeps_held, keeps_held_after};

    ghost takes = { KeepsHeld };

    ghost takes_none = { keeps_held };

    ghost takes_more = { keeps_held_after };

    fn record(&mut self, number: Number) -> Result<(), Cause> {
        self.units = self.tally.units_of(number)?;
        self.count = 1;
        self.is_rounded = number.is_rounded(self.tally.decimals);
        Ok(())
    }

    fn record_wide(&mut self, number: Wide) -> Result<(), Cause> {
        self.record_times(number, 1)
    }

    fn record_times(&mut self, number: Wide, times: u64) -> Result<(), Cause> {
        let decimals = self.tally.decimals;
        self.units = self.tally.units_of(number.rounded(decimals)?)?;
        self.count = times;
        self.is_rounded = number.is_rounded(decimals);
        Ok(())
    }

    fn count_if_skipped(&mut self, cause: Cause) -> bool {
        self.tally.count_skipped(cause)
    }

    fn unit(&self) -> Option<Unit> {
        self.tally.unit()
    }
}

impl RowSink for Intervals<'_, '_> {
    ghost use Rattle.hdr_input.specs.Intervals.{latest_of, taken_to, CountsLate};

    fn take_row(&mut self, alloc: Global, row: RowTexts<'_>) -> Result<(), InputError>
        ensures latest { latest_of self.old ≤ latest_of self.new }
        ensures taken_to { taken_to self.new ≡ taken_to self.old }
        ensures late { CountsLate self.old self.new }
    {
        let text = match row.value {
            Ok(text) => text,
            Err(cause) => return skip_or_err(alloc, self, row.place, row.row, cause),
        };
        let (time, group) = match self.place_of(row) {
            Ok(place) => place,
            Err((cause, text)) => return skip_or_err(
                alloc,
                &mut self.tally,
                row.place,
                text,
                cause,
            ),
        };
        match record_field(self, text, row.count) {
            Ok(true) => self.record_in(time, group),
            Ok(false) => Ok(()),
            Err(cause) => skip_or_err(alloc, self, row.place, row.failing(text, cause), cause),
        }
    }

    fn begin_file(&mut self) {
        self.times.begin_file();
    }
}

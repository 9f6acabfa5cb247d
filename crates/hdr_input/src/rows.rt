//! What is read of a row: of a table, or of a line that has more than a number.

use crate::bound_tally::BoundTally;
use crate::cause::Cause;
use crate::errors::{InputError, InputPlace};
use crate::lines::{record_field, skip_or_err};
use crate::sink::NumberSink;
use crate::survey::Survey;
use crate::tally::Tally;
use std::alloc::Global;

/// The texts of a row that are read.
#[derive(Clone, Copy)]
pub struct RowTexts<'a> {
    pub place: InputPlace,
    /// The text of the row, for errors.
    pub row: &'a [u8],
    /// The number, or why the row has none.
    pub value: Result<&'a [u8], Cause>,
    /// How often the number counts, if not once.
    pub count: Option<&'a [u8]>,
    /// The time of the number, if the row has one.
    pub time: Option<&'a [u8]>,
    /// The text that has a group, if the row has one.
    pub group: Option<&'a [u8]>,
}

impl<'a> RowTexts<'a> {
    /// Returns the text that has an error of this cause: `text` is that of the number.
    pub(crate) fn failing(&self, text: &'a [u8], cause: Cause) -> &'a [u8] {
        match self.count {
            Some(count) if cause == Cause::NotACount => count,
            _ => text,
        }
    }
}

/// What takes rows.
pub trait RowSink: Drop {
    /// Takes a row. A row of names is not taken.
    fn take_row(&mut self, alloc: Global, row: RowTexts<'_>) -> Result<(), InputError>;

    /// Begins a file.
    fn begin_file(&mut self) {}
}

/// Records the number of a row, as often as it counts.
#[inline(always)]
pub fn record_row<S: NumberSink>(
    alloc: Global,
    sink: &mut S,
    row: RowTexts<'_>,
) -> Result<(), InputError>
    ensures { S.takes sink.old sink.new }
{
    let text = match row.value {
        Ok(text) => text,
        Err(cause) => return skip_or_err(alloc, sink, row.place, row.row, cause),
    };
    match record_field(sink, text, row.count) {
        Ok(_) => Ok(()),
        Err(cause) => skip_or_err(alloc, sink, row.place, row.failing(text, cause), cause),
    }
}

impl RowSink for Tally {
    #[inline(always)]
    fn take_row(&mut self, alloc: Global, row: RowTexts<'_>) -> Result<(), InputError> {
        record_row(alloc, self, row)
    }
}

impl RowSink for Survey {
    fn take_row(&mut self, alloc: Global, row: RowTexts<'_>) -> Result<(), InputError> {
        record_row(alloc, self, row)
    }
}

impl RowSink for BoundTally {
    #[inline(always)]
    fn take_row(&mut self, alloc: Global, row: RowTexts<'_>) -> Result<(), InputError> {
        record_row(alloc, self, row)
    }
}

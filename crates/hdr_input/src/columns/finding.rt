//! Columns of a table, found by their names or numbers.

use super::{Columns, TableLayout, field};
use crate::errors::{InputError, excerpt};
use crate::text::is_number;
use csv::ByteRecord;
use std::alloc::{AllocError, Global};

/// A column that was found.
#[derive(Clone, Copy)]
struct FoundColumn {
    index: usize,
    /// Whether it was found by its name.
    is_named: bool,
}

/// The columns that were found.
#[derive(Drop)]
pub(super) struct FoundColumns<'a> {
    pub(super) value: usize,
    pub(super) count: Option<usize>,
    pub(super) time: Option<usize>,
    pub(super) groups: Vec<usize>,
    pub(super) conditions: Vec<(usize, &'a [u8])>,
    /// Whether the first row is a row of names.
    pub(super) is_header: bool,
    /// Whether a column was found by its name.
    pub(super) is_named: bool,
}

/// Returns the index of the column of this name in the first row.
///
/// # Errors
/// Returns an error if two columns have this name.
fn index_of_name(
    alloc: Global,
    names: &ByteRecord,
    wanted: &str,
) -> Result<Option<usize>, InputError> {
    let mut first = None;
    for (index, name) in names.into_iter().enumerate() {
        if name.trim_ascii() != wanted.as_bytes() {
            continue;
        }
        if let Some(first) = first {
            return Err(InputError::DoubleName {
                name: String::from_str(alloc, wanted)?,
                first: number_of(first),
                second: number_of(index),
            });
        }
        first = Some(index);
    }
    Ok(first)
}

/// Returns the number of a column, from 1, by its index.
fn number_of(index: usize) -> u64 {
    (index as u64).saturating_add(1)
}

/// Parses the number of a column, counted from 1, to its index.
fn index_of_number(wanted: &str) -> Option<usize> {
    wanted.parse::<usize>().ok()?.checked_sub(1)
}

/// The most names of a first row that an error shows.
const MOST_NAMES: usize = 20;

/// Returns the first names of a first row for an error, with commas between them.
pub(super) fn names_of(alloc: Global, names: &ByteRecord) -> Result<String, AllocError> {
    let mut text = String::new(alloc);
    for name in names.into_iter().take(MOST_NAMES) {
        if !text.is_empty() {
            text.push_str(", ")?;
        }
        text.push_str(excerpt(alloc, name)?.as_str())?;
    }
    if names.len() > MOST_NAMES {
        text.push_str(", ...")?;
    }
    Ok(text)
}

/// Whether the field of a row is a number.
fn has_number(row: &ByteRecord, index: usize) -> bool {
    field(row, index).is_some_and(|field| is_number(field))
}

/// Finds a column. A number of a column of the first row, from 1, comes before a name.
fn find_column(
    alloc: Global,
    names: &ByteRecord,
    wanted: &str,
    layout: TableLayout,
) -> Result<FoundColumn, InputError> {
    let number = index_of_number(wanted);
    let named = if layout.has_header && !number.is_some_and(|index| index < names.len()) {
        index_of_name(alloc, names, wanted)?
    } else {
        None
    };
    match named.or(number) {
        Some(index) => Ok(FoundColumn {
            index,
            is_named: named.is_some(),
        }),
        None => Err(InputError::NoColumn {
            wanted: String::from_str(alloc, wanted)?,
            names: names_of(alloc, names)?,
        }),
    }
}

/// Finds a column that may be absent, as `find_column`.
fn find_optional(
    alloc: Global,
    names: &ByteRecord,
    wanted: Option<&str>,
    layout: TableLayout,
) -> Result<Option<FoundColumn>, InputError> {
    match wanted {
        Some(wanted) => Ok(Some(find_column(alloc, names, wanted, layout)?)),
        None => Ok(None),
    }
}

/// Whether a column was found by its name.
fn is_named(column: Option<FoundColumn>) -> bool {
    column.is_some_and(|column| column.is_named)
}

/// Finds columns. The first row is a row of names if a column is found by its name, or if the field
/// of the numbers' column is not a number.
pub(super) fn find_columns<'a>(
    alloc: Global,
    names: &ByteRecord,
    columns: Columns<'_, 'a>,
    layout: TableLayout,
) -> Result<FoundColumns<'a>, InputError> {
    let value = find_column(alloc, names, columns.value, layout)?;
    let count = find_optional(alloc, names, columns.count, layout)?;
    let time = find_optional(alloc, names, columns.time, layout)?;
    let mut found = FoundColumns {
        value: value.index,
        count: count.map(|column| column.index),
        time: time.map(|column| column.index),
        groups: Vec::new(alloc),
        conditions: Vec::new(alloc),
        is_header: false,
        is_named: value.is_named || is_named(count) || is_named(time),
    };
    for wanted in columns.groups {
        let column = find_column(alloc, names, *wanted, layout)?;
        found.groups.push(column.index)?;
        found.is_named = found.is_named || column.is_named;
    }
    for condition in columns.conditions {
        let column = find_column(alloc, names, condition.column, layout)?;
        found
            .conditions
            .push((column.index, condition.text.as_bytes()))?;
        found.is_named = found.is_named || column.is_named;
    }
    found.is_header = layout.has_header && (found.is_named || !has_number(names, value.index));
    Ok(found)
}

//! The ends of confidence intervals.

use crate::figures::{EndTexts, Figure};
use std::alloc::{AllocError, Global};

/// Returns figures with the ends of their intervals as figures of their own, such as `p99_low`.
pub(crate) fn in_columns(alloc: Global, figures: Vec<Figure>) -> Result<Vec<Figure>, AllocError> {
    let mut columns = Vec::new(alloc);
    for figure in figures {
        let Figure { name, value, ends } = figure;
        let end_names = match &ends {
            Some(_) => Some((
                format!(in alloc; "{name}_low")?,
                format!(in alloc; "{name}_high")?,
            )),
            None => None,
        };
        columns.push(column(name, value))?;
        if let (Some(ends), Some((low, high))) = (ends, end_names) {
            columns.push(column(low, ends.low))?;
            columns.push(column(high, ends.high))?;
        }
    }
    Ok(columns)
}

/// Returns a figure without an interval.
fn column(name: String, value: Option<String>) -> Figure {
    Figure {
        name,
        value,
        ends: None,
    }
}

/// Returns an interval as a table shows it, such as `1426..1558`, or `1972..` without an upper end.
pub(crate) fn range_text(alloc: Global, ends: &EndTexts) -> Result<String, AllocError> {
    let mut text = String::new(alloc);
    if let Some(low) = &ends.low {
        text.push_str(low.as_str())?;
    }
    text.push_str("..")?;
    if let Some(high) = &ends.high {
        text.push_str(high.as_str())?;
    }
    Ok(text)
}

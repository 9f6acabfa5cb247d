//! The texts of distributions: a table for people, CSV and JSON for programs, and the formats of
//! other tools.

mod ends;
mod hgrm;
mod json;
mod openmetrics;
mod separated;
mod table;

use crate::decimals::Conversion;
use crate::figures::{Figure, Tagged, figures};
use crate::percentile::Percentile;
pub use json::push_string;
pub use separated::{write_field, write_text};
use std::alloc::{AllocError, Global};
pub(crate) use table::push_spaces;
pub use table::{NO_TAG, fitted, push_left, push_right};

/// A format of the output.
#[derive(Clone, Copy, PartialEq, Eq)]
pub enum Format {
    Table,
    Csv,
    Tsv,
    Json,
    /// The percentile distribution that HdrHistogram's plotter reads.
    Hgrm,
    OpenMetrics,
}

impl Format {
    /// Returns the format of this name.
    pub fn from_name(name: &str) -> Option<Format> {
        match name {
            "table" => Some(Format::Table),
            "csv" => Some(Format::Csv),
            "tsv" => Some(Format::Tsv),
            "json" => Some(Format::Json),
            "hgrm" => Some(Format::Hgrm),
            "openmetrics" => Some(Format::OpenMetrics),
            _ => None,
        }
    }
}

/// What is printed of distributions.
#[derive(Clone, Copy)]
pub struct Layout<'a> {
    pub format: Format,
    pub percentiles: &'a [Percentile<'a>],
    pub conversion: Conversion,
    /// Whether each distribution is printed with its tag.
    pub has_tags: bool,
}

impl Layout<'_> {
    /// Whether the figures are columns, or members of an object: those of a table without tags are
    /// lines.
    fn has_columns(&self) -> bool {
        self.has_tags || self.format != Format::Table
    }
}

/// The figures of a distribution, and its tag if tags are printed.
#[derive(Drop)]
pub(crate) struct Row<'a> {
    pub tag: Option<&'a str>,
    pub figures: Vec<Figure>,
}

/// Returns the figures of distributions, in their order.
fn rows<'a>(
    alloc: Global,
    parts: &'a [Tagged],
    layout: &Layout<'_>,
) -> Result<Vec<Row<'a>>, AllocError> {
    let mut rows = Vec::new(alloc);
    for part in parts {
        let tag = match &part.tag {
            Some(tag) => Some(tag.as_str()),
            None => None,
        };
        let figures = figures(alloc, part, layout.percentiles, layout.conversion)?;
        let figures = if layout.has_columns() {
            ends::in_columns(alloc, figures)?
        } else {
            figures
        };
        rows.push(Row { tag, figures })?;
    }
    Ok(rows)
}

/// Returns the text of a value, or `none` if there is none.
pub(crate) fn or_none<'a>(figure: &'a Figure, none: &'a str) -> &'a str {
    match &figure.value {
        Some(value) => value.as_str(),
        None => none,
    }
}

/// Returns the text of distributions. In HdrHistogram's format they follow one another.
pub fn text(alloc: Global, parts: &[Tagged], layout: &Layout<'_>) -> Result<String, AllocError> {
    let mut text = String::new(alloc);
    match layout.format {
        Format::Hgrm => {
            for part in parts {
                hgrm::push_hgrm(alloc, &mut text, &part.distribution, layout.conversion)?;
            }
        }
        Format::OpenMetrics => openmetrics::push_metrics(alloc, &mut text, parts, layout)?,
        _ => {
            let rows = rows(alloc, parts, layout)?;
            push_rows(alloc, &mut text, &rows, layout)?;
        }
    }
    Ok(text)
}

/// Appends rows of figures.
fn push_rows(
    alloc: Global,
    text: &mut String,
    rows: &[Row<'_>],
    layout: &Layout<'_>,
) -> Result<(), AllocError> {
    match layout.format {
        Format::Csv => separated::push_separated(alloc, text, rows, layout.has_tags, b','),
        Format::Tsv => separated::push_separated(alloc, text, rows, layout.has_tags, b'\t'),
        Format::Json => json::push_json(alloc, text, rows, layout.has_tags),
        _ if layout.has_tags => table::push_tagged(alloc, text, rows),
        _ => table::push_figures(alloc, text, rows),
    }
}

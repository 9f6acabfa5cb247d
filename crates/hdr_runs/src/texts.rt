//! The texts of compared runs: a table for people, CSV and JSON for programs, and Markdown.

mod footer;
mod json;
mod limits;
mod lines;
mod markdown;
mod separated;
mod table;

use crate::report::Report;
use hdr_summary::decimals::Conversion;
use hdr_summary::percentile::Percentile;
pub use limits::LimitLine;
use std::alloc::{AllocError, Global};

/// A format of the output.
#[derive(Clone, Copy, PartialEq, Eq)]
pub enum ReportFormat {
    Table,
    Csv,
    Tsv,
    Json,
    /// A table of GitHub's Markdown.
    Markdown,
}

impl ReportFormat {
    /// Returns the format of this name.
    pub fn from_name(name: &str) -> Option<ReportFormat> {
        match name {
            "table" => Some(ReportFormat::Table),
            "csv" => Some(ReportFormat::Csv),
            "tsv" => Some(ReportFormat::Tsv),
            "json" => Some(ReportFormat::Json),
            "md" => Some(ReportFormat::Markdown),
            _ => None,
        }
    }

    /// Whether people read it, so that it has a footer.
    pub fn has_footer(self) -> bool {
        matches!(self, ReportFormat::Table | ReportFormat::Markdown)
    }
}

/// What is printed of compared runs.
#[derive(Clone, Copy)]
pub struct ReportLayout<'a> {
    pub format: ReportFormat,
    pub percentiles: &'a [Percentile<'a>],
    /// Whether each line has its tag, and the name of its run.
    pub has_tags: bool,
    pub has_runs: bool,
    /// How values are converted to be printed.
    pub conversion: Conversion,
}

impl Report<'_> {
    /// Returns the cells of the table of compared runs: the names of its columns, and a row for each
    /// line.
    pub fn rows(
        &self,
        alloc: Global,
        layout: &ReportLayout<'_>,
    ) -> Result<Vec<Vec<String>>, AllocError> {
        let lines = lines::lines_of(alloc, self, layout)?;
        table::rows_of(alloc, &lines, layout)
    }

    /// Returns the lines of compared runs, without a footer.
    pub fn text(&self, alloc: Global, layout: &ReportLayout<'_>) -> Result<String, AllocError> {
        let lines = lines::lines_of(alloc, self, layout)?;
        let mut text = String::new(alloc);
        match layout.format {
            ReportFormat::Csv => separated::push_separated(alloc, &mut text, &lines, layout, b',')?,
            ReportFormat::Tsv => separated::push_separated(
                alloc, &mut text, &lines, layout, b'\t',
            )?,
            ReportFormat::Json => json::push_json(alloc, &mut text, &lines, layout, self.tier)?,
            ReportFormat::Markdown => {
                markdown::push_markdown(&mut text, &table::rows_of(alloc, &lines, layout)?)?
            }
            ReportFormat::Table => {
                let rows = table::rows_of(alloc, &lines, layout)?;
                table::push_table(alloc, &mut text, &rows, layout)?
            }
        }
        Ok(text)
    }
}

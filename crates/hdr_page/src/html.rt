//! The page of a log.

use crate::charts::push_drawings;
use crate::comparison::Comparison;
use crate::style::{push_style, push_style_of_runs};
use crate::table::push_table;
use hdr_logs::{LogError, LogIntervals};
use hdr_view::name::IN_TITLE;
use hdr_view::options::PageOptions;
use hdr_view::view::{PageForm, View};
use std::alloc::Global;

const HEAD: &str = "<!DOCTYPE html>\n<html lang=\"en\"><head><meta charset=\"utf-8\">\
<meta name=\"viewport\" content=\"width=device-width,initial-scale=1\"><title>";

/// Returns the page of intervals: a sentence, the slow times, a table with a row for each tag, and
/// drawings. If two runs are compared, that comes first, and curves have bands.
pub fn page(
    alloc: Global,
    intervals: &LogIntervals,
    options: PageOptions<'_>,
    comparison: Option<&Comparison>,
) -> Result<String, LogError> {
    let view = View::new(alloc, intervals, options, PageForm::Html)?;
    let mut text = String::from_str(alloc, HEAD)?;
    view.push_shown(&mut text, options.title, IN_TITLE)?;
    text.push_str("</title><style>")?;
    push_style(&mut text)?;
    if comparison.is_some() {
        push_style_of_runs(&mut text)?;
    }
    text.push_str("</style></head><body>\n")?;
    view.push_title(&mut text)?;
    if let Some(comparison) = comparison {
        comparison.push_html(&mut text)?;
    }
    view.push_summary(&mut text)?;
    if !view.log.tags.is_empty() {
        push_table(&view, &mut text)?;
    }
    if view.log.all.count > 0 {
        push_drawings(&view, &mut text, comparison)?;
    }
    text.push_str("</body></html>\n")?;
    Ok(text)
}

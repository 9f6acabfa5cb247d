//! JSON of compared runs. Numbers are written as they are, so that none is rounded.

use crate::texts::ReportLayout;
use crate::texts::footer::confidence_of;
use crate::texts::lines::{Line, Texts};
use hdr_compare::Tier;
use hdr_summary::formats::push_string;
use std::alloc::{AllocError, Global};

/// Appends an object of the confidence and the percentiles of a report, and a line feed.
pub(crate) fn push_json(
    alloc: Global,
    text: &mut String,
    lines: &[Line<'_>],
    layout: &ReportLayout<'_>,
    tier: Tier,
) -> Result<(), AllocError> {
    text.push_str("{\"confidence\":")?;
    text.push_str(confidence_of(tier))?;
    text.push_str(",\"rows\":[")?;
    let mut is_first = true;
    for line in lines {
        if line.is_count {
            continue;
        }
        if !is_first {
            text.push_str(",\n")?;
        }
        is_first = false;
        push_line(alloc, text, line, layout)?;
    }
    text.push_str("]}\n")
}

/// Appends the object of a percentile.
fn push_line(
    alloc: Global,
    text: &mut String,
    line: &Line<'_>,
    layout: &ReportLayout<'_>,
) -> Result<(), AllocError> {
    text.push('{')?;
    if layout.has_tags {
        text.push_str("\"tag\":")?;
        match line.tag {
            Some(tag) => push_string(alloc, text, tag)?,
            None => text.push_str("null")?,
        }
        text.push(',')?;
    }
    if layout.has_runs {
        text.push_str("\"run\":")?;
        push_string(alloc, text, line.run)?;
        text.push(',')?;
    }
    text.push_str("\"figure\":")?;
    push_string(alloc, text, line.figure.as_str())?;
    push_texts(text, "before", &line.before)?;
    push_texts(text, "after", &line.after)?;
    push_texts(text, "change", &line.change)?;
    text.push_str(",\"independent\":[")?;
    push_number(text, line.independent.0)?;
    text.push(',')?;
    push_number(text, line.independent.1)?;
    text.push_str("],\"verdict\":")?;
    push_string(alloc, text, line.verdict)?;
    text.push('}')
}

/// Appends the member of a value and the ends of its interval.
fn push_texts(text: &mut String, name: &str, texts: &Texts) -> Result<(), AllocError> {
    write!(text, ",\"{name}\":[")?;
    for (index, item) in texts.each().iter().enumerate() {
        if index > 0 {
            text.push(',')?;
        }
        match *item {
            Some(item) => text.push_str(item.as_str().trim_start_matches('+'))?,
            None => text.push_str("null")?,
        }
    }
    text.push(']')
}

/// Appends a number, or null if there is none.
fn push_number(text: &mut String, number: Option<u64>) -> Result<(), AllocError> {
    match number {
        Some(number) => write!(text, "{number}"),
        None => text.push_str("null"),
    }
}

//! The lines of limits of changes.

ghost use Rattle.hdr_runs.specs.Limits.{IsVerdictOfRuns};

use crate::limit::{Limit, LimitVerdict};
use crate::report::{Compared, Pair, Report};
use crate::texts::ReportLayout;
use hdr_input::push_visible;
use hdr_summary::formats::NO_TAG;
use std::alloc::{AllocError, Global};

/// What is said of a limit, and the line that says it.
#[derive(Drop)]
pub struct LimitLine {
    pub verdict: LimitVerdict,
    pub text: String,
}

impl Report<'_> {
    /// Returns a line for each limit of each pair of runs.
    pub fn limit_lines(
        &self,
        alloc: Global,
        limits: &[Limit<'_>],
        layout: &ReportLayout<'_>,
    ) -> Result<Vec<LimitLine>, AllocError> {
        let mut lines = Vec::new(alloc);
        for pair in &self.pairs {
            for (compared, percentile) in pair.percentiles.iter().zip(layout.percentiles) {
                for limit in limits {
                    if limit.is_of(percentile) {
                        let verdict = verdict_of(limit, compared);
                        let text = text_of(alloc, limit, verdict, pair, layout)?;
                        lines.push(LimitLine { verdict, text })?;
                    }
                }
            }
        }
        Ok(lines)
    }
}

/// Returns whether a percentile grew by more than a limit. Without one of the runs it is not known.
fn verdict_of(limit: &Limit<'_>, compared: &Compared) -> LimitVerdict
    ensures { IsVerdictOfRuns limit.now.amount compared.now.before compared.now.after result }
{
    match (&compared.before, &compared.after) {
        (Some(before), Some(after)) => limit.verdict(before, after),
        _ => LimitVerdict::Few,
    }
}

/// Returns the line of a limit: what is said of it, the run if there are several, and the tag.
fn text_of(
    alloc: Global,
    limit: &Limit<'_>,
    verdict: LimitVerdict,
    pair: &Pair<'_>,
    layout: &ReportLayout<'_>,
) -> Result<String, AllocError> {
    let mut text = String::new(alloc);
    text.push_str(verdict.name())?;
    text.push(' ')?;
    text.push_str(limit.text)?;
    if layout.has_runs {
        text.push(' ')?;
        push_visible(&mut text, pair.run)?;
    }
    if layout.has_tags {
        text.push(' ')?;
        push_visible(&mut text, pair.tag.unwrap_or(NO_TAG))?;
    }
    Ok(text)
}

//! The title, the sentence on all samples, and how long the log is.

use crate::clock::push_length;
use crate::kind::IncidentKind;
use crate::name::{IN_SLOW_TIME, IN_TITLE};
use crate::naming::{LETTERS, is_slow, push};
use crate::view::View;
use hdr_draw::number::push_grouped;
use hdr_verdict::{Episode, Incident};
use std::alloc::AllocError;

/// The most tags that are named in a line.
const MOST_TAGS: usize = 3;

/// A sort of incidents.
#[derive(Clone, Copy)]
enum Sort {
    Slow,
    /// Slow after a time without samples.
    Stalled,
    /// Without samples, or with fewer than usual.
    Missing,
    /// Without samples.
    Empty,
}

impl Sort {
    /// Whether an incident of a page is of the sort.
    fn has(self, view: &View<'_>, incident: &Incident) -> bool {
        match self {
            Sort::Slow => is_slow(incident),
            Sort::Stalled => view.kind_of(incident).has_stall(),
            Sort::Missing => !is_slow(incident),
            Sort::Empty => view.kind_of(incident) == IncidentKind::Empty,
        }
    }
}

impl View<'_> {
    /// Appends the title.
    pub fn push_title(&self, text: &mut String) -> Result<(), AllocError> {
        self.push_markup(text, "<h1>")?;
        self.push_shown(text, self.options.title, IN_TITLE)?;
        self.push_markup(text, "</h1>")?;
        text.push_str("\n")
    }

    /// Appends the sentence and the incidents.
    pub fn push_summary(&self, text: &mut String) -> Result<(), AllocError> {
        self.push_sentence(text)?;
        self.push_coarser(text)?;
        self.push_incidents(text)?;
        if self.intervals == 0 {
            return Ok(());
        }
        self.push_markup(text, "<p class=\"soft\">")?;
        if self.log.all.count > 0 {
            self.push_tested(text)?;
            self.push_rule(text)?;
        }
        self.push_zone(text)
    }

    /// Appends the sentence on all samples.
    fn push_sentence(&self, text: &mut String) -> Result<(), AllocError> {
        let length = self.timeline.last.saturating_sub(self.timeline.first);
        self.push_markup(text, "<p class=\"say\">")?;
        if self.log.all.count == 0 {
            text.push_str("No samples")?;
            push_time(text, length)?;
            text.push_str(".")?;
        } else {
            push_count(text, self.log.all.count, "sample")?;
            push_time(text, length)?;
            text.push_str(", ")?;
            push_count(text, self.log.tags.len() as u64, "tag")?;
            text.push_str(": ")?;
            self.push_slow(text)?;
            self.push_missing(text)?;
            text.push_str(". ")?;
            self.push_greatest(text)?;
            self.push_level_verdicts(text)?;
        }
        self.push_markup(text, "</p>")?;
        text.push_str("\n")
    }

    /// Appends how often samples were slow, when most, and whether they still were at the end.
    fn push_slow(&self, text: &mut String) -> Result<(), AllocError> {
        let count = self.count(Sort::Slow);
        if count == 0 {
            return text.push_str("no slow time found");
        }
        text.push_str("slow")?;
        push_times(text, count)?;
        if count > 1 && !self.push_letters(text, ", stalled in ", Sort::Stalled)? {
            self.push_heaviest(text, Sort::Slow)?;
        }
        let lasting = self.lasting_tags()?;
        if lasting.is_empty() {
            return Ok(());
        }
        text.push_str(", still at the end: ")?;
        self.push_tags(text, &lasting)
    }

    /// Returns the tags that were slow up to the end, those of the heaviest incident first.
    fn lasting_tags(&self) -> Result<Vec<usize>, AllocError> {
        let mut tags = Vec::new(self.alloc);
        for incident in &self.verdict.incidents {
            if is_slow(incident) {
                push_lasting(&mut tags, &incident.heaviest)?;
                for episode in &incident.joined {
                    push_lasting(&mut tags, episode)?;
                }
            }
        }
        Ok(tags)
    }

    /// Appends how often samples were missing, and when most.
    fn push_missing(&self, text: &mut String) -> Result<(), AllocError> {
        let count = self.count(Sort::Missing);
        if count == 0 {
            return Ok(());
        }
        text.push_str("; samples missing")?;
        push_times(text, count)?;
        if count == 1 || self.push_letters(text, ", no samples in ", Sort::Empty)? {
            return Ok(());
        }
        self.push_heaviest(text, Sort::Missing)
    }

    /// Returns the number of incidents of a sort.
    fn count(&self, sort: Sort) -> u64 {
        let mut count = 0u64;
        for incident in &self.verdict.incidents {
            if sort.has(self, incident) {
                count = count.saturating_add(1);
            }
        }
        count
    }

    /// Appends the letters of the incidents of a sort after `what`, in order of time. Returns whether
    /// there are any.
    fn push_letters(&self, text: &mut String, what: &str, sort: Sort) -> Result<bool, AllocError> {
        let mut has_some = false;
        for (line, letter) in self.naming.named.iter().zip(LETTERS) {
            if self.has_sort(&line.all, sort) {
                text.push_str(if has_some { ", " } else { what })?;
                text.push_str(letter)?;
                has_some = true;
            }
        }
        Ok(has_some)
    }

    /// Whether one of the incidents of these indices is of a sort.
    fn has_sort(&self, indices: &[usize], sort: Sort) -> bool {
        for index in indices {
            match self.verdict.incidents.get(*index) {
                Some(incident) if sort.has(self, incident) => return true,
                _ => {}
            }
        }
        false
    }

    /// Appends the letter of the heaviest incident of a sort, if it has one.
    fn push_heaviest(&self, text: &mut String, sort: Sort) -> Result<(), AllocError> {
        for (index, incident) in self.verdict.incidents.iter().enumerate() {
            if sort.has(self, incident) {
                return match self.naming.letter(index) {
                    Some(letter) => write!(text, ", heaviest {letter}"),
                    None => Ok(()),
                };
            }
        }
        Ok(())
    }

    /// Appends the greatest sample, and the tags that have it.
    fn push_greatest(&self, text: &mut String) -> Result<(), AllocError> {
        let greatest = self.log.all.max;
        self.push_markup(text, "<b>")?;
        text.push_str("Max ")?;
        self.units.push(text, greatest)?;
        self.push_markup(text, "</b>")?;
        text.push_str(" in ")?;
        let mut tags = Vec::new(self.alloc);
        for (index, tag) in self.log.tags.iter().enumerate() {
            if tag.figures.count > 0 && tag.figures.max == greatest {
                tags.push(index).map_err(|_| AllocError)?;
            }
        }
        self.push_tags(text, &tags)?;
        text.push_str(".")
    }

    /// Appends the names of tags, or that they are all of them.
    pub(crate) fn push_tags(&self, text: &mut String, tags: &[usize]) -> Result<(), AllocError> {
        if tags.len() == self.log.tags.len() && tags.len() > 1 {
            return text.push_str("all tags");
        }
        for (at, index) in tags.iter().take(MOST_TAGS).enumerate() {
            if at > 0 {
                text.push_str(", ")?;
            }
            self.push_tag_at(text, *index)?;
        }
        let more = tags.len().saturating_sub(MOST_TAGS);
        if more > 0 {
            write!(text, " and {more} more")?;
        }
        Ok(())
    }

    /// Appends the name of the tag of an index.
    pub(crate) fn push_tag_at(&self, text: &mut String, index: usize) -> Result<(), AllocError> {
        match self.log.tags.get(index) {
            Some(tag) => self.push_isolated(text, tag.tag, IN_SLOW_TIME),
            None => Ok(()),
        }
    }

    /// Appends how many intervals are coarser than the sums, if any are.
    fn push_coarser(&self, text: &mut String) -> Result<(), AllocError> {
        let coarser = self.log.coarser;
        if coarser == 0 {
            return Ok(());
        }
        self.push_markup(text, "<p class=\"soft\">")?;
        push_grouped(text, coarser)?;
        text.push_str(" of ")?;
        push_grouped(text, self.intervals as u64)?;
        text.push_str(if coarser == 1 {
            " intervals is coarser than 3 digits: its samples count as the lowest values of their \
             classes."
        } else {
            " intervals are coarser than 3 digits: their samples count as the lowest values of their \
             classes."
        })?;
        self.push_markup(text, "</p>")?;
        text.push_str("\n")
    }

    /// Appends from when to when the log is, and ends the paragraph.
    fn push_zone(&self, text: &mut String) -> Result<(), AllocError> {
        if self.timeline.has_clock() {
            self.clock
                .push_range(text, self.timeline.first, self.timeline.last)?;
        } else {
            text.push_str("Times are since the start, as the log has no clock time")?;
        }
        text.push_str(".")?;
        self.push_markup(text, "</p>")?;
        text.push_str("\n")
    }
}

/// Appends the tag of an episode that was not over at the end of the log, unless it is there.
fn push_lasting(tags: &mut Vec<usize>, episode: &Episode) -> Result<(), AllocError> {
    if episode.lasts && !tags.contains(&episode.tag) {
        push(tags, episode.tag)?;
    }
    Ok(())
}

/// Appends how long the log is, unless its intervals have no length.
fn push_time(text: &mut String, length: u64) -> Result<(), AllocError> {
    if length == 0 {
        return Ok(());
    }
    text.push_str(" in ")?;
    push_length(text, length)
}

/// Appends a number and what is counted, in the plural unless it is 1.
pub(crate) fn push_count(text: &mut String, count: u64, what: &str) -> Result<(), AllocError> {
    push_grouped(text, count)?;
    text.push_str(" ")?;
    text.push_str(what)?;
    text.push_str(if count == 1 { "" } else { "s" })
}

/// Appends ` once`, or how many times.
fn push_times(text: &mut String, count: u64) -> Result<(), AllocError> {
    if count == 1 {
        return text.push_str(" once");
    }
    text.push_str(" ")?;
    push_grouped(text, count)?;
    text.push_str(" times")
}

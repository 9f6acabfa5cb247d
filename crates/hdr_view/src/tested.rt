//! What was tested, by which rule, and the levels.

use crate::clock::{TimeStyle, push_length};
use crate::incidents::push_tail;
use crate::options::push_percentile;
use crate::sentence::push_count;
use crate::view::View;
use hdr_draw::number::push_grouped;
use hdr_figures::level::{PageLevel, Verdict};
use hdr_verdict::{FEWEST_BLOCKS, Span, TagFindings, Tail, all_tails, fewest_samples};
use std::alloc::AllocError;
use std::cmp::Reverse;

/// The most tags over a level that are named, and the most times of each.
const MOST_OVER: usize = 5;

const MOST_TIMES: usize = 3;

impl View<'_> {
    /// Appends which percentiles were tested, and which were not for want of samples.
    pub(crate) fn push_tested(&self, text: &mut String) -> Result<(), AllocError> {
        let tags = self.verdict.tags.len();
        let mut tested = String::new(self.alloc);
        let mut untested = String::new(self.alloc);
        for tail in all_tails() {
            let count = self.tags_with_test(tail);
            if count == tags {
                push_separated(&mut tested, ", ")?;
                push_tail(&mut tested, tail)?;
            } else if count == 0 {
                push_separated(&mut untested, ", ")?;
                push_tail(&mut untested, tail)?;
                push_fewest(&mut untested, tail)?;
            }
        }
        if !tested.is_empty() && tags > 1 {
            write!(tested, " of all {tags} tags")?;
        }
        self.push_partly_tested(&mut tested)?;
        text.push_str("Tested: ")?;
        text.push_str(if tested.is_empty() {
            "nothing"
        } else {
            tested.as_str()
        })?;
        self.push_untested(text, untested.as_str())
    }

    /// Appends the percentiles that were tested for some tags alone.
    fn push_partly_tested(&self, text: &mut String) -> Result<(), AllocError> {
        let tags = self.verdict.tags.len();
        for tail in all_tails() {
            let count = self.tags_with_test(tail);
            if count > 0 && count < tags {
                push_separated(text, "; ")?;
                push_tail(text, tail)?;
                write!(text, " of {count} of {tags} tags")?;
                push_fewest(text, tail)?;
            }
        }
        Ok(())
    }

    /// Appends the percentiles that were tested for no tag.
    fn push_untested(&self, text: &mut String, untested: &str) -> Result<(), AllocError> {
        let is_short = |tag: &TagFindings<'_>| tag.cells < FEWEST_BLOCKS;
        if self.verdict.tags.iter().all(is_short) {
            write!(
                text,
                "; nothing can be usual in fewer than {FEWEST_BLOCKS} intervals"
            )?;
        } else if !untested.is_empty() {
            text.push_str(". Too few samples for ")?;
            text.push_str(untested)?;
        }
        text.push_str(". ")
    }

    /// Returns the number of tags of which a tail was tested.
    fn tags_with_test(&self, tail: Tail) -> usize {
        let has_test = |tag: &TagFindings<'_>| tag.tests.iter().any(|test| test.tail.is(tail));
        self.verdict.tags.iter().filter(|tag| has_test(tag)).count()
    }

    /// Appends when a time is slow, and when samples are missing.
    pub(crate) fn push_rule(&self, text: &mut String) -> Result<(), AllocError> {
        let bar = self.verdict.bar;
        write!(
            text,
            "Slow: such a percentile is 3/2 of its usual value (its lower quartile over time) over 8 \
             intervals or more, 2 times over 4, 3 over 2, or 4 times in one, by as much as {bar} \
             samples that are all above. Missing: none, or at most half of the usual samples a second \
             over 8 intervals or more, or a fifth over 3, beyond chance. "
        )
    }

    /// Appends for each level which tags keep it, and when the others did not.
    pub(crate) fn push_level_verdicts(&self, text: &mut String) -> Result<(), AllocError> {
        for (at, level) in self.options.levels.iter().enumerate() {
            self.push_level_verdict(text, at, *level)?;
        }
        Ok(())
    }

    /// Appends which tags keep the level of an index, and when the others did not.
    fn push_level_verdict(
        &self,
        text: &mut String,
        at: usize,
        level: PageLevel,
    ) -> Result<(), AllocError> {
        let others = self.tags_over(at, level)?;
        let tags = self.log.tags.len();
        text.push_str(" ")?;
        self.push_markup(text, "<b>")?;
        push_grouped(text, tags.saturating_sub(others.len()) as u64)?;
        text.push_str(" of ")?;
        push_count(text, tags as u64, "tag")?;
        text.push_str(" within ")?;
        push_percentile(text, level)?;
        text.push_str(" ")?;
        self.push_level(text, at, level)?;
        self.push_markup(text, "</b>")?;
        for (_, index) in others.iter().take(MOST_OVER) {
            text.push_str("; ")?;
            self.push_over(text, at, level, *index)?;
        }
        let more = others.len().saturating_sub(MOST_OVER);
        if more > 0 {
            write!(text, "; and {more} more")?;
        }
        text.push_str(".")
    }

    /// Appends the amount of the level of an index: as it is written, unless it is an integer of the
    /// log's values.
    pub fn push_level(
        &self,
        text: &mut String,
        at: usize,
        level: PageLevel,
    ) -> Result<(), AllocError> {
        match self.options.amounts.get(at) {
            Some(Some(amount)) => text.push_str(amount.as_str()),
            _ => self.units.push_label(text, level.value),
        }
    }

    /// Returns the tags that are over the level of an index or may be, those with the greatest values
    /// first.
    fn tags_over(
        &self,
        at: usize,
        level: PageLevel,
    ) -> Result<Vec<(Reverse<u64>, usize)>, AllocError> {
        let mut over = Vec::new(self.alloc);
        for (index, tag) in self.log.tags.iter().enumerate() {
            match tag.at_levels.get(at) {
                Some(value) if level.verdict(*value) != Verdict::Within => over
                    .push((Reverse(value.value), index))
                    .map_err(|_| AllocError)?,
                _ => {}
            }
        }
        over.sort()?;
        Ok(over)
    }

    /// Appends a tag that is over the level of an index or may be, its value, and when it was over.
    fn push_over(
        &self,
        text: &mut String,
        at: usize,
        level: PageLevel,
        index: usize,
    ) -> Result<(), AllocError> {
        let tag = self.log.tags.get(index);
        let Some(value) = tag.and_then(|tag| tag.at_levels.get(at)) else {
            return Ok(());
        };
        self.push_tag_at(text, index)?;
        text.push_str(" ")?;
        if level.verdict(*value) == Verdict::MayBeOver {
            text.push_str("may be over: the class of its value ends at ")?;
            return self.units.push_label(text, value.highest);
        }
        self.units.push(text, value.value)?;
        let found = self.verdict.tags.get(index);
        match found.and_then(|found| found.over.get(at)) {
            Some(over) if !self.is_instant() => self.push_times_over(text, over),
            _ => Ok(()),
        }
    }

    /// Appends when a tag was over a level.
    fn push_times_over(&self, text: &mut String, over: &[Span]) -> Result<(), AllocError> {
        for (at, span) in over.iter().take(MOST_TIMES).enumerate() {
            text.push_str(if at == 0 { ", broken from " } else { " and " })?;
            self.clock.push(text, span.start, TimeStyle::Full)?;
            text.push_str(" for ")?;
            push_length(text, span.end.saturating_sub(span.start))?;
        }
        match over.len().saturating_sub(MOST_TIMES) {
            0 => Ok(()),
            1 => text.push_str(" and 1 more time"),
            more => write!(text, " and {more} more times"),
        }
    }
}

/// Appends a separator, unless the text is empty.
fn push_separated(text: &mut String, separator: &str) -> Result<(), AllocError> {
    if text.is_empty() {
        return Ok(());
    }
    text.push_str(separator)
}

/// Appends in brackets how many samples the test of a tail takes, or more.
fn push_fewest(text: &mut String, tail: Tail) -> Result<(), AllocError> {
    text.push_str(" (it takes ")?;
    push_grouped(text, fewest_samples(tail))?;
    text.push_str(" samples or more)")
}

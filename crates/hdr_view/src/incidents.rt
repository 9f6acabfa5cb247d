//! The lines of incidents.

use crate::clock::{TimeStyle, push_length};
use crate::kind::IncidentKind;
use crate::naming::{LETTERS, NamedIncidents, tags_of};
use crate::view::{PageForm, View};
use hdr_draw::number::{Decimal, push_grouped};
use hdr_verdict::{Episode, Incident, Rate, RateChange, Rise, Tail};
use std::alloc::AllocError;

/// A ratio, in tenths, from which on it is written as an integer.
const GREAT: u128 = 100;

impl View<'_> {
    /// Appends a line for each letter, in order of time.
    pub(crate) fn push_incidents(&self, text: &mut String) -> Result<(), AllocError> {
        if self.naming.named.is_empty() {
            return Ok(());
        }
        self.push_markup(text, "<ul class=\"slow\" aria-label=\"Incidents\">\n")?;
        for (named, letter) in self.naming.named.iter().zip(LETTERS) {
            self.push_markup(text, "<li><b>")?;
            text.push_str(letter)?;
            self.push_markup(text, "</b>")?;
            text.push_str(" ")?;
            self.push_named(text, named)?;
            self.push_markup(text, "</li>")?;
            text.push_str("\n")?;
        }
        self.push_markup(text, "</ul>\n")?;
        self.push_others(text)
    }

    /// Appends how many incidents have no letter, if there are any.
    fn push_others(&self, text: &mut String) -> Result<(), AllocError> {
        let others = self.naming.others;
        if others == 0 {
            return Ok(());
        }
        self.push_markup(text, "<p class=\"soft\">")?;
        write!(text, "and {others} more")?;
        if self.naming.are_lighter {
            text.push_str(", none heavier than these")?;
        }
        self.push_markup(text, "</p>")?;
        text.push_str("\n")
    }

    /// Appends the line of a letter, without it.
    fn push_named(&self, text: &mut String, named: &NamedIncidents) -> Result<(), AllocError> {
        let Some(incident) = self.verdict.incidents.get(named.heaviest) else {
            return Ok(());
        };
        if named.all.len() > 1 {
            self.push_group(text, &named.all)?;
        }
        self.push_incident(text, incident)
    }

    /// Appends how many incidents are alike, how long they are and how often they come.
    fn push_group(&self, text: &mut String, all: &[usize]) -> Result<(), AllocError> {
        let mut longest = 0;
        let mut strides = Vec::new(self.alloc);
        let mut before = None;
        for index in all {
            let Some(incident) = self.verdict.incidents.get(*index) else {
                continue;
            };
            let start = incident.heaviest.start;
            longest = longest_in(incident).max(longest);
            if let Some(before) = before {
                let stride: u64 = start.saturating_sub(before);
                strides.push(stride).map_err(|_| AllocError)?;
            }
            before = Some(start);
        }
        strides.sort()?;
        push_grouped(text, all.len() as u64)?;
        text.push_str(" times, each ")?;
        push_length(text, longest)?;
        text.push_str(" at most")?;
        push_stride(text, &strides)?;
        text.push_str("; heaviest: ")
    }

    /// Appends what an incident is, when, for how long, of which tags, and how bad.
    fn push_incident(&self, text: &mut String, incident: &Incident) -> Result<(), AllocError> {
        let kind = self.kind_of(incident);
        text.push_str(kind.title())?;
        self.push_span(text, &incident.heaviest)?;
        text.push_str(": ")?;
        self.push_tags(text, &tags_of(self.alloc, incident)?)?;
        match kind {
            IncidentKind::Empty | IncidentKind::PartlyEmpty => self.push_usually(text, incident)?,
            IncidentKind::Fewer => self.push_fall(text, incident)?,
            _ => self.push_slowness(text, incident)?,
        }
        self.push_other_times(text, incident)
    }

    /// Appends when an episode was, and whether it was not over at the end of the log.
    fn push_span(&self, text: &mut String, episode: &Episode) -> Result<(), AllocError> {
        text.push_str(" from ")?;
        self.clock.push(text, episode.start, TimeStyle::Full)?;
        text.push_str(" for ")?;
        push_length(text, episode.end.saturating_sub(episode.start))?;
        if episode.lasts {
            text.push_str(", until the end")?;
        }
        Ok(())
    }

    /// Appends when episodes other than the heaviest were, if their times are not the same.
    fn push_other_times(&self, text: &mut String, incident: &Incident) -> Result<(), AllocError> {
        let heaviest = &incident.heaviest;
        if incident
            .joined
            .iter()
            .all(|episode| are_at_one_time(episode, heaviest))
        {
            return Ok(());
        }
        if let [other] = incident.joined.as_slice() {
            text.push_str("; in ")?;
            self.push_tag_at(text, other.tag)?;
            return self.push_span(text, other);
        }
        self.push_common_span(text, &incident.joined)
    }

    /// Appends from when to when episodes were, and whether one was not over at the end of the log.
    fn push_common_span(&self, text: &mut String, all: &[Episode]) -> Result<(), AllocError> {
        let start = all.iter().map(|episode| episode.start).min().unwrap_or(0);
        let end = all.iter().map(|episode| episode.end).max().unwrap_or(0);
        text.push_str("; in others between ")?;
        self.clock.push(text, start, TimeStyle::Full)?;
        text.push_str(" and ")?;
        self.clock.push(text, end, TimeStyle::Full)?;
        if all.iter().any(|episode| episode.lasts) {
            text.push_str(", until the end")?;
        }
        Ok(())
    }

    /// Appends the usual rate of the heaviest episode.
    fn push_usually(&self, text: &mut String, incident: &Incident) -> Result<(), AllocError> {
        let Some(RateChange { usual, .. }) = incident.heaviest.rates else {
            return Ok(());
        };
        text.push_str(" ")?;
        self.push_markup(text, "<span class=\"soft\">")?;
        text.push_str("(usually ")?;
        push_rate(text, usual)?;
        text.push_str("/s")?;
        self.push_heaviest_tag(text, incident)?;
        text.push_str(")")?;
        self.push_markup(text, "</span>")
    }

    /// Appends the rate of the heaviest episode, and the usual one.
    fn push_fall(&self, text: &mut String, incident: &Incident) -> Result<(), AllocError> {
        if let Some(RateChange { rate, .. }) = incident.heaviest.rates {
            text.push_str(", ")?;
            push_rate(text, rate)?;
            text.push_str("/s")?;
        }
        self.push_usually(text, incident)
    }

    /// Appends the tag of the heaviest episode, if there are others.
    fn push_heaviest_tag(&self, text: &mut String, incident: &Incident) -> Result<(), AllocError> {
        if incident.joined.is_empty() {
            return Ok(());
        }
        text.push_str(" in ")?;
        self.push_tag_at(text, incident.heaviest.tag)
    }

    /// Appends which percentiles rose: the shortest one, and the one that rose most.
    fn push_slowness(&self, text: &mut String, incident: &Incident) -> Result<(), AllocError> {
        let rises = &incident.heaviest.rises;
        let most = most_risen(rises);
        for (index, rise) in rises.iter().enumerate() {
            if index == 0 || index == most {
                text.push_str(", ")?;
                self.push_rise(text, rise)?;
            }
        }
        self.push_heaviest_tag(text, incident)?;
        self.push_rates(text, &incident.heaviest)
    }

    /// Appends the usual rate of a slow time and the rate of the last part of it in which samples
    /// were missing, with the length of the part if it is shorter.
    fn push_rates(&self, text: &mut String, episode: &Episode) -> Result<(), AllocError> {
        let Some(RateChange { rate, usual }) = episode.rates else {
            return Ok(());
        };
        text.push_str("; samples/s ")?;
        push_rate(text, usual)?;
        self.push_arrow(text)?;
        push_rate(text, rate)?;
        if rate.time < episode.end.saturating_sub(episode.start) {
            text.push_str(" for ")?;
            push_length(text, rate.time)?;
        }
        Ok(())
    }

    /// Appends a percentile, its usual value and its value.
    fn push_rise(&self, text: &mut String, rise: &Rise) -> Result<(), AllocError> {
        push_tail(text, rise.tail)?;
        text.push_str(" ")?;
        match rise.usual {
            Some(usual) => self.units.push(text, usual)?,
            None => text.push_str("?")?,
        }
        self.push_arrow(text)?;
        self.push_markup(text, "<b>")?;
        self.units.push(text, rise.value)?;
        self.push_markup(text, "</b>")?;
        match rise.usual {
            Some(usual @ 1..) => push_ratio(text, rise.value, usual),
            _ => Ok(()),
        }
    }

    /// Appends an arrow.
    fn push_arrow(&self, text: &mut String) -> Result<(), AllocError> {
        text.push_str(match self.form {
            PageForm::Html => " -&gt; ",
            PageForm::Plain => " -> ",
        })
    }
}

/// Returns the length of the longest episode of an incident.
fn longest_in(incident: &Incident) -> u64 {
    let Episode { start, end, .. } = incident.heaviest;
    let mut longest: u64 = end.saturating_sub(start);
    for episode in &incident.joined {
        longest = episode.end.saturating_sub(episode.start).max(longest);
    }
    longest
}

/// Whether two episodes begin at one time, and end at one time.
fn are_at_one_time(one: &Episode, other: &Episode) -> bool {
    one.start == other.start && one.end == other.end && one.lasts == other.lasts
}

/// Appends the median of strides, which ascend, if none is below half of it or above twice as long.
fn push_stride(text: &mut String, strides: &[u64]) -> Result<(), AllocError> {
    let (Some(median), Some(least), Some(greatest)) = (
        strides.get(strides.len() / 2),
        strides.first(),
        strides.last(),
    ) else {
        return Ok(());
    };
    if *least < median.div_ceil(2) || *greatest > median.saturating_mul(2) {
        return Ok(());
    }
    text.push_str(", about every ")?;
    push_length(text, *median)
}

/// Returns the index of the first of the values that are the most times their usual ones.
pub fn most_risen(rises: &[Rise]) -> usize {
    let mut most = 0;
    for (index, rise) in rises.iter().enumerate() {
        if rises
            .get(most)
            .is_some_and(|other| has_risen_more(rise, other))
        {
            most = index;
        }
    }
    most
}

/// Whether a value is more times its usual one than another.
fn has_risen_more(rise: &Rise, other: &Rise) -> bool {
    let times = |rise: &Rise| {
        let usual = u128::from(rise.usual.unwrap_or(0)).saturating_add(1);
        let value = u128::from(rise.value).saturating_add(1);
        value.saturating_mul(1_000) / usual.max(1)
    };
    times(rise) > times(other)
}

/// Appends how many times a value is its usual one.
fn push_ratio(text: &mut String, value: u64, usual: u64) -> Result<(), AllocError> {
    let usual = u128::from(usual.max(1));
    let tenths = (u128::from(value)
        .saturating_mul(10)
        .saturating_add(usual / 2))
        / usual;
    text.push_str(" (")?;
    push_grouped(text, u64::try_from(tenths / 10).unwrap_or(u64::MAX))?;
    if tenths < GREAT {
        let rest = tenths % 10;
        write!(text, ".{rest}")?;
    }
    text.push_str(" times)")
}

/// Appends a rate in samples a second: three significant digits below 10, and from there on rounded
/// down.
fn push_rate(text: &mut String, rate: Rate) -> Result<(), AllocError> {
    let samples = u128::from(rate.samples).saturating_mul(1_000);
    let time = u128::from(rate.time.max(1));
    if samples < 10 * time {
        return Decimal::of_fraction(samples, time).trimmed().push(text);
    }
    let samples = samples / time;
    push_grouped(text, u64::try_from(samples).unwrap_or(u64::MAX))
}

/// Appends the percentile that leaves out a tail.
pub(crate) fn push_tail(text: &mut String, tail: Tail) -> Result<(), AllocError> {
    text.push_str(match (tail.num, tail.den) {
        (1, 2) => "p50",
        (1, 10) => "p90",
        (1, 100) => "p99",
        _ => "p99.9",
    })
}

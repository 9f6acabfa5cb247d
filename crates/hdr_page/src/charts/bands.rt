//! The bands of incidents, in drawings over time.

use crate::charts::field::Field;
use crate::charts::frame::Frame;
use crate::charts::time_axis::x_of;
use hdr_draw::axis::Axis;
use hdr_draw::path::WIDTH;
use hdr_draw::tenths::push_tenths;
use hdr_verdict::{Episode, EpisodeKind};
use hdr_view::naming::{LETTERS, episode_of};
use hdr_view::view::View;
use std::alloc::{AllocError, Global};

/// The least width of a band, of `WIDTH`: 3 pixels where a field has the least width.
const NARROWEST: u32 = 102;

/// The least distance of two letters, of `WIDTH`: 12 pixels where a field has the least width.
const APART: u32 = 410;

/// The pattern of the times without samples. It covers a band that is below it.
const HATCH: &str = "<svg width=\"0\" height=\"0\" style=\"position:absolute\" \
aria-hidden=\"true\"><pattern id=\"hatch\" width=\"6\" height=\"6\" patternUnits=\"userSpaceOnUse\" \
patternTransform=\"rotate(45)\"><path class=\"y\" d=\"M0 0h6v6H0z\"/><path class=\"x\" \
d=\"M3 0v6\"/></pattern></svg>\n";

/// Where a band begins and ends, of `WIDTH`.
#[derive(Clone, Copy)]
pub(crate) struct Band {
    pub left: u32,
    pub right: u32,
}

impl Band {
    /// Returns where the band of an episode is.
    pub(crate) fn of(view: &View<'_>, episode: &Episode) -> Band {
        let left = x_of(view, episode.start).min(WIDTH - NARROWEST);
        let right = x_of(view, episode.end);
        Band {
            left,
            right: right.max(left.saturating_add(NARROWEST)).min(WIDTH),
        }
    }

    /// Returns the part of a band in which an episode has no samples: all of it in a gap, and
    /// what is before the first samples of a stall.
    fn without_samples(self, view: &View<'_>, episode: &Episode) -> Option<Band> {
        match episode.kind {
            EpisodeKind::Gap => Some(self),
            EpisodeKind::Stall => {
                let next = view.next_samples(episode.tag, episode.start)?;
                let width = self.right.saturating_sub(self.left);
                let part = Axis::new(episode.start, episode.end).place(next, width);
                Some(Band {
                    left: self.left,
                    right: self.left.saturating_add(part),
                })
            }
            _ => None,
        }
    }

    /// Returns the part of a band in which an episode has samples.
    fn with_samples(self, view: &View<'_>, episode: &Episode) -> Band {
        match self.without_samples(view, episode) {
            Some(part) => Band {
                left: part.right,
                ..self
            },
            None => self,
        }
    }

    /// Appends the outline of the band in a field.
    fn push_outline(self, path: &mut String, field: Field) -> Result<(), AllocError> {
        let height = field.height;
        path.push_str("M")?;
        push_tenths(path, self.left)?;
        path.push_str(" 0H")?;
        push_tenths(path, self.right)?;
        write!(path, "V{height}H")?;
        push_tenths(path, self.left)?;
        path.push_str("Z")
    }

    /// Appends the hatched part of a band in a field.
    fn push_hatched(self, text: &mut String, field: Field) -> Result<(), AllocError> {
        let Field { top, height } = field;
        text.push_str("<rect class=\"gap\" x=\"")?;
        push_tenths(text, self.left / 10)?;
        text.push_str("%\" width=\"")?;
        push_tenths(text, self.right.saturating_sub(self.left) / 10)?;
        write!(text, "%\" y=\"{top}\" height=\"{height}\"/>")
    }
}

/// Appends the pattern of the times without samples, which all drawings use.
pub(crate) fn push_pattern(text: &mut String) -> Result<(), AllocError> {
    text.push_str(HATCH)
}

/// A letter above a drawing, and where it is, of `WIDTH`.
#[derive(Clone, Copy)]
struct Letter {
    x: u32,
    letter: &'static str,
}

/// Returns letters from left to right, without those that are too near another of their name.
fn distinct(alloc: Global, mut letters: Vec<Letter>) -> Result<Vec<Letter>, AllocError> {
    letters.sort_by_key(|letter: &Letter| letter.x)?;
    let mut distinct: Vec<Letter> = Vec::new(alloc);
    for letter in &letters {
        let is_near = distinct.last().is_some_and(|last| {
            last.letter == letter.letter && letter.x < last.x.saturating_add(APART)
        });
        if !is_near {
            distinct.push(*letter)?;
        }
    }
    Ok(distinct)
}

/// Moves letters apart, to the right and then to the left.
fn move_apart(letters: &mut [Letter]) {
    let mut least = 0;
    for letter in letters.iter_mut() {
        letter.x = letter.x.max(least);
        least = letter.x.saturating_add(APART);
    }
    let mut most = WIDTH;
    for letter in letters.iter_mut().rev() {
        letter.x = letter.x.min(most);
        most = letter.x.saturating_sub(APART);
    }
}

/// Appends letters above a drawing.
fn push_letters(alloc: Global, text: &mut String, all: Vec<Letter>) -> Result<(), AllocError> {
    let mut letters = distinct(alloc, all)?;
    move_apart(&mut letters);
    for letter in &letters {
        let name = letter.letter;
        text.push_str("<text class=\"m b\" x=\"")?;
        push_tenths(text, letter.x / 10)?;
        write!(text, "%\" y=\"-5\">{name}</text>")?;
    }
    Ok(())
}

impl Frame<'_> {
    /// Appends a band and a letter for each incident of the drawing's tag. Falls are in the part of
    /// the rates alone.
    pub(crate) fn push_bands(self, view: &View<'_>, text: &mut String) -> Result<(), AllocError> {
        let slow = [EpisodeKind::Slow, EpisodeKind::Stall];
        self.push_bands_of(view, text, self.all, &slow)?;
        self.push_bands_of(view, text, self.rates, &[EpisodeKind::Fall])?;
        let mut letters = Vec::new(view.alloc);
        for (named, letter) in view.naming.named.iter().zip(LETTERS) {
            for index in &named.all {
                if let Some(episode) = self.episode_at(view, *index) {
                    let place = Band::of(view, episode);
                    if let Some(part) = place.without_samples(view, episode) {
                        part.push_hatched(text, self.all)?;
                    }
                    let x = u32::midpoint(place.left, place.right);
                    letters.push(Letter { x, letter })?;
                }
            }
        }
        push_letters(view.alloc, text, letters)
    }

    /// Appends the bands of episodes of some kinds in a field.
    fn push_bands_of(
        self,
        view: &View<'_>,
        text: &mut String,
        field: Field,
        kinds: &[EpisodeKind],
    ) -> Result<(), AllocError> {
        let mut path = String::new(view.alloc);
        for index in view.naming.named.iter().flat_map(|named| named.all.iter()) {
            match self.episode_at(view, *index) {
                Some(episode) if kinds.contains(&episode.kind) => {
                    let band = Band::of(view, episode).with_samples(view, episode);
                    band.push_outline(&mut path, field)?;
                }
                _ => {}
            }
        }
        if path.is_empty() {
            return Ok(());
        }
        field.push_begin(text)?;
        write!(text, "<path class=\"band\" d=\"{path}\"/></svg>")
    }

    /// Returns the episode of the drawing's tag in the incident of an index, or the heaviest one in
    /// a drawing of all tags.
    fn episode_at<'v>(self, view: &'v View<'_>, index: usize) -> Option<&'v Episode> {
        let incident = view.verdict.incidents.get(index)?;
        match self.tag {
            Some(tag) => episode_of(incident, tag),
            None => Some(&incident.heaviest),
        }
    }
}

//! The figures of tags, and of their points of time.

ghost use Rattle.std.specs.Prelude.{◌≡◌, ◌<◌};
ghost use Rattle.hdr_model.specs.Plain.{Plain};
ghost use Rattle.hdr_figures.specs.Classes.{AreClassesOf};
ghost use Rattle.hdr_figures.specs.Figures.{AreFiguresOf, no_peaks, peaks_with, value_at};

use crate::classes::Classes;
use crate::level::LevelValue;
use crate::sum::Sum;
use hdr_logs::StoredInterval;
use hdrhistogram::{Fraction, Histogram, Quantile};

/// The most tags that are drawn.
pub const DRAWN: usize = 10;

/// The figures of samples. Without samples the values are 0.
#[derive(Clone, Copy)]
pub struct Figures {
    pub count: u64,
    pub mean: Option<Fraction>,
    pub min: u64,
    pub p50: u64,
    pub p90: u64,
    pub p99: u64,
    pub p999: u64,
    pub max: u64,
}

/// The greatest percentiles of some intervals.
#[derive(Clone, Copy)]
pub struct Peaks {
    pub p50: u64,
    pub p90: u64,
    pub p99: u64,
    pub p999: u64,
    pub max: u64,
}

/// The figures of a point of time with samples.
#[derive(Clone, Copy)]
pub struct PointFigures {
    pub point: usize,
    /// The number of its samples.
    pub count: u64,
    /// The greatest percentiles of its intervals, so that a short one shows.
    pub peaks: Peaks,
    ghost some: { 0 < count },
}

/// The figures of a tag.
#[derive(Drop)]
pub struct TagFigures<'a> {
    pub tag: &'a str,
    pub figures: Figures,
    /// Its value at each level, in their order.
    pub at_levels: Vec<LevelValue>,
    /// How long it was seen, in milliseconds.
    pub length: u64,
}

/// The samples of a class at a point of time: its highest value, and their number.
#[derive(Clone, Copy)]
pub struct Cell {
    pub point: usize,
    pub value: u64,
    pub count: u64,
}

/// The samples of a tag.
#[derive(Drop)]
pub struct TagSamples<'a> {
    pub tag: &'a str,
    pub figures: Figures,
    /// All samples.
    pub sum: Sum,
    /// Its points with samples, in order, and their classes, if it is drawn.
    pub points: Vec<PointFigures>,
    pub cells: Vec<Cell>,
    /// When its intervals with samples begin, in order.
    pub starts: Vec<u64>,
}

/// The number and the greatest of all samples of a point.
#[derive(Clone, Copy)]
pub struct Total {
    pub count: u64,
    pub max: Option<u64>,
}

/// An interval and its greatest value.
#[derive(Clone, Copy)]
pub struct Worst<'a> {
    pub value: u64,
    pub interval: &'a StoredInterval,
}

/// The figures of logs.
#[derive(Drop)]
pub struct LogFigures<'a> {
    pub all: Figures,
    /// All samples.
    pub sum: Sum,
    /// The tags, those with the most samples first.
    pub tags: Vec<TagFigures<'a>>,
    /// The samples of the tags that are drawn, in the order of these.
    pub drawn: Vec<TagSamples<'a>>,
    /// All tags, at each point of time.
    pub totals: Vec<Total>,
    /// The first interval with the greatest value, if there are samples.
    pub worst: Option<Worst<'a>>,
    /// The number of intervals that are coarser than sums.
    pub coarser: u64,
}

/// Returns the value at a quantile.
pub fn value_at(histogram: &Histogram<u64>, num: u64, den: u64) -> u64
    ensures { 0 < den → result ≡ value_at histogram.now num den }
{
    match Quantile::new(num, den) {
        Some(quantile) => histogram.value_at_quantile(quantile),
        None => 0,
    }
}

impl Figures {
    /// Returns the figures of a histogram.
    pub fn of(histogram: &Histogram<u64>) -> Figures
        ensures { AreFiguresOf histogram.now result }
    {
        Figures {
            count: histogram.len(),
            mean: histogram.mean(),
            min: histogram.min(),
            p50: value_at(histogram, 1, 2),
            p90: value_at(histogram, 9, 10),
            p99: value_at(histogram, 99, 100),
            p999: value_at(histogram, 999, 1_000),
            max: value_at(histogram, 1, 1),
        }
    }
}

impl Peaks {
    /// Returns the greatest percentiles of no intervals.
    pub(crate) fn new() -> Peaks
        ensures { result ≡ no_peaks }
    {
        Peaks {
            p50: 0,
            p90: 0,
            p99: 0,
            p999: 0,
            max: 0,
        }
    }

    /// Returns the greatest percentiles of these intervals and one more, which has these classes.
    pub(crate) fn with(self, classes: &Classes<'_>) -> Peaks
        ensures { (h : Plain) → AreClassesOf classes.now h → result ≡ peaks_with self h }
    {
        Peaks {
            p50: self.p50.max(classes.value_at(1, 2)),
            p90: self.p90.max(classes.value_at(9, 10)),
            p99: self.p99.max(classes.value_at(99, 100)),
            p999: self.p999.max(classes.value_at(999, 1_000)),
            max: self.max.max(classes.value_at(1, 1)),
        }
    }
}

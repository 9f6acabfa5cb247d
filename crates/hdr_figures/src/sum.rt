//! Sums of intervals.

ghost use Rattle.std.specs.Prelude.{◌≡◌, ◌≤◌, ◌-◌, ◌^◌, ◌↔◌, true, map, IfOk, OnOk, IsTrue};
ghost use Rattle.std.specs.List.{All};
ghost use Rattle.hdr_base.specs.Classes.{IsFiner};
ghost use Rattle.hdr_model.specs.Plain.{Plain, IsPlain, empty_plain, max_of, reach, resolution};
ghost use Rattle.hdr_model.specs.Merging.{after_add};
ghost use Rattle.hdr_model.specs.Recording.{after_reset};
ghost use Rattle.hdr_figures.specs.Classes.{AreClassesOf, IsMarkedBySamples};
ghost use Rattle.hdr_figures.specs.Figures.{AreFiguresOf, value_at};
ghost use Rattle.hdr_figures.specs.Widths.{IsHighest, IsJoin, IsLowest, IsWidthOf, IsWithClass, width_in};

use crate::classes::{Classes, record_all};
use crate::figures::{Figures, value_at};
use crate::level::{LevelValue, PageLevel};
use hdr_base::Scale;
use hdr_logs::add;
use hdrhistogram::serialization::RecordedBounds;
use hdrhistogram::{AdditionError, CreationError, Histogram};
use std::alloc::{AllocError, Global};

/// The significant digits of sums.
const DIGITS: u8 = 3;

/// The width of classes: their least one, and the significant digits that they keep.
#[derive(Clone, Copy)]
struct Width {
    low: u64,
    sigfig: u8,
}

impl Width {
    /// Returns the width of the classes of a histogram.
    fn of(histogram: &Histogram<u64>) -> Width
        ensures { IsWidthOf histogram.now result }
    {
        Width {
            low: histogram.low(),
            sigfig: histogram.sigfig(),
        }
    }

    /// Returns the width of classes that have those of both in them.
    fn join(self, other: Width) -> Width
        ensures { IsJoin self other result }
    {
        Width {
            low: self.low.max(other.low),
            sigfig: self.sigfig.min(other.sigfig),
        }
    }

    /// Returns the lowest value of the class of a value.
    fn lowest(self, value: u64) -> u64
        ensures { IsLowest self value result }
    {
        match Scale::new(self.low, self.sigfig) {
            Some(scale) => scale.lowest(value),
            None => 0,
        }
    }

    /// Returns the highest value of the class of a value.
    fn highest(self, value: u64) -> u64
        ensures { IsHighest self value result }
    {
        match Scale::new(self.low, self.sigfig) {
            Some(scale) => scale.top(value),
            None => u64::MAX,
        }
    }
}

/// A sum of intervals.
#[derive(Drop)]
pub struct Sum {
    pub histogram: Histogram<u64>,
    /// The width of classes that have those of all intervals in them.
    width: Width,
}

impl Sum {
    /// Returns the sum of no intervals.
    pub(crate) fn new(alloc: Global) -> Result<Sum, CreationError>
        ensures { IfOk result (λ sum. sum.histogram ≡ empty_plain 1 2 3 true) }
    {
        Ok(Sum::of(Histogram::new(alloc, DIGITS)?))
    }

    /// Returns the sum of one interval, which has this histogram.
    pub(crate) fn of(histogram: Histogram<u64>) -> Sum
        ensures histogram { result.histogram ≡ histogram }
        ensures width { IsWidthOf histogram result.width }
    {
        let width = Width::of(&histogram);
        Sum { histogram, width }
    }

    /// Removes all intervals.
    pub(crate) fn reset(&mut self)
        ensures histogram { self.new.histogram ≡ after_reset self.old.histogram }
        ensures width { IsWidthOf self.new.histogram self.new.width }
    {
        self.histogram.reset();
        self.width = Width::of(&self.histogram);
    }

    /// Adds the intervals of another sum. Returns whether that is coarser.
    pub(crate) fn add(&mut self, other: &Sum) -> Result<bool, AdditionError>
        ensures sum { OnOk result (self.new.histogram
            ≡ after_add (2 ^ 64 - 1) self.old.histogram other.now.histogram) }
        ensures width { OnOk result (IsJoin self.old.width other.now.width self.new.width) }
        ensures coarser { IfOk result (λ is_coarser. IsTrue is_coarser
            ↔ (IsFiner (resolution other.now.histogram) (resolution self.old.histogram) → ⊥)) }
    {
        let is_coarser = add(&mut self.histogram, &other.histogram)?;
        self.width = self.width.join(other.width);
        Ok(is_coarser)
    }

    /// Whether the greatest value of an interval of these classes has a bin.
    pub(crate) fn has_bins_for(&self, classes: &Classes<'_>) -> bool
        ensures greatest { (h : Plain) → AreClassesOf classes.now h → IsTrue result
            → max_of h ≤ reach self.now.histogram }
        ensures plain { IsPlain (2 ^ 64 - 1) self.now.histogram }
    {
        self.histogram.bin_of(classes.max()).is_some()
    }

    /// Adds an interval of these classes, which have bins. Returns whether it is coarser.
    pub(crate) fn add_classes(&mut self, classes: &Classes<'_>) -> Result<bool, AllocError>
        requires { IsPlain (2 ^ 64 - 1) self.old.histogram }
        ensures sum { (h : Plain) → AreClassesOf classes.now h → max_of h ≤ reach self.old.histogram
            → IsMarkedBySamples self.old.histogram → OnOk result (self.new.histogram
            ≡ after_add (2 ^ 64 - 1) self.old.histogram h) }
        ensures width { OnOk result (IsJoin self.old.width (width_in classes.now) self.new.width) }
        ensures coarser { IfOk result (λ is_coarser. IsTrue is_coarser
            ↔ (IsFiner classes.now.scale (resolution self.old.histogram) → ⊥)) }
    {
        let is_coarser = self.is_finer_than(classes.scale);
        record_all(&mut self.histogram, classes.items)?;
        let RecordedBounds { low, sigfig } = classes.bounds;
        self.width = self.width.join(Width { low, sigfig });
        Ok(is_coarser)
    }

    /// Whether not all classes of a scale lie in those of the sum.
    fn is_finer_than(&self, scale: Scale) -> bool
        requires { IsPlain (2 ^ 64 - 1) self.now.histogram }
        ensures { IsTrue result ↔ (IsFiner scale (resolution self.now.histogram) → ⊥) }
    {
        match Scale::new(self.histogram.low(), self.histogram.sigfig()) {
            Some(own) => own.unit() < scale.unit() || scale.digits() < own.digits(),
            None => unreachable!(),
        }
    }

    /// Returns the figures of the samples.
    pub(crate) fn figures(&self) -> Figures
        ensures { AreFiguresOf self.now.histogram result }
    {
        Figures::of(&self.histogram)
    }

    /// Returns the value at the quantile of each level.
    pub(crate) fn at_levels(
        &self,
        alloc: Global,
        levels: &[PageLevel],
    ) -> Result<Vec<LevelValue>, AllocError>
        ensures values { IfOk result (λ all. map (λ at. at.value) all.items
            ≡ map (λ l. value_at self.now.histogram l.num l.den) levels.now) }
        ensures class { IfOk result (λ all. All (IsWithClass self.now.width) all.items) }
    {
        let mut all = Vec::new(alloc);
        for level in levels {
            all.push(self.at_level(*level))?;
        }
        Ok(all)
    }

    /// Returns the value at the quantile of a level.
    fn at_level(&self, level: PageLevel) -> LevelValue
        ensures value { result.value ≡ value_at self.now.histogram level.num level.den }
        ensures class { IsWithClass self.now.width result }
    {
        let value = value_at(&self.histogram, level.num, level.den);
        LevelValue {
            value,
            lowest: self.width.lowest(value),
            highest: self.width.highest(value),
        }
    }
}

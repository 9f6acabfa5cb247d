//! The two marks of a histogram: the highest class that was recorded, and the lowest one other than
//! class 0. No class above the top mark holds samples, and none between class 0 and the lower mark.

ghost use Rattle.std.specs.Prelude.{◌≡◌, ◌+◌, ◌-◌, ◌^◌, ◌<◌, None, IfSome, true};
ghost use Rattle.hdr_model.specs.Marks.{later_mark, earlier_mark, later_of, earlier_of, top_by, lower_by, top_of_mark, value_of_mark};
ghost use Rattle.hdr_core.specs.MarkValues.{IsOfValues, IsGreatest, IsLowest};

use hdr_base::Scale;
use std::marker::Model;

/// A top mark and a lower mark, each the index of a class or none, with the values of their classes.
/// A mark is kept as one number with a value for none, so that one comparison decides whether a
/// recorded class changes it.
#[derive(Debug, Drop)]
pub(crate) struct Marks {
    /// The index of the top mark plus 1, or 0 for none.
    classes: usize,
    /// The index of the lower mark minus 1, or `usize::MAX` for none.
    before: usize,
    /// The scale of the two values.
    scale: Scale,
    /// The greatest value of the class of the top mark, or 0 for none.
    greatest: u64,
    /// The lowest value of the class of the lower mark, or `u64::MAX` for none.
    lowest: u64,
}

impl Model for Marks {
    ghost use Rattle.std.specs.Prelude.{◌^◌, ◌<◌};
    ghost use Rattle.hdr_model.specs.Marks.{MarkPair, top_by, lower_by};
    ghost use Rattle.hdr_core.specs.MarkValues.{IsGreatest, IsLowest};

    ghost Value = { MarkPair };

    ghost view = { λ m. record { top = top_by m.classes; lower = lower_by m.before } };

    ghost invariant = { λ m. (m.classes < 2 ^ 64) × (m.before < 2 ^ 64) × IsGreatest m.scale (top_by m.classes) m.greatest × IsLowest m.scale (lower_by m.before) m.lowest };
}

impl Marks {
    /// Returns no marks of classes by `scale`.
    #[tactic(auto, unfolding(hdr_model::specs::Marks::top_by, hdr_model::specs::Marks::lower_by))]
    pub(crate) fn none(scale: Scale) -> Marks
        ensures { result ≡ record { top = None; lower = None } }
    {
        Marks::kept(scale, 0, usize::MAX)
    }

    /// Returns the marks of these classes by `scale`; `lower` is not the first class.
    pub(crate) fn new(scale: Scale, top: Option<usize>, lower: Option<usize>) -> Marks
        requires top { IfSome top (λ i. i < 2 ^ 32) }
        requires lower { IfSome lower (λ i. (0 < i) × (i < 2 ^ 32)) }
        ensures { result ≡ record { top = top; lower = lower } }
    {
        let classes = top.map_or(0, |class| class + 1);
        let before = lower.map_or(usize::MAX, |class| class - 1);
        Marks::kept(scale, classes, before)
    }

    /// Returns the marks that are kept as these numbers, with the values of their classes.
    fn kept(scale: Scale, classes: usize, before: usize) -> Marks
        ensures { result ≡ record { top = top_by classes; lower = lower_by before } }
    {
        Marks {
            classes,
            before,
            scale,
            greatest: greatest_of(scale, top_by(classes)),
            lowest: lowest_of(scale, lower_by(before)),
        }
    }

    /// Returns a copy of the marks.
    pub(crate) fn same(&self) -> Marks
        ensures { result ≡ self.now }
    {
        Marks {
            classes: self.classes,
            before: self.before,
            scale: self.scale,
            greatest: self.greatest,
            lowest: self.lowest,
        }
    }

    /// The class of the top mark.
    pub(crate) fn top(&self) -> Option<usize>
        ensures { result ≡ self.now.top }
    {
        top_by(self.classes)
    }

    /// The class of the lower mark.
    pub(crate) fn lower(&self) -> Option<usize>
        ensures { result ≡ self.now.lower }
    {
        lower_by(self.before)
    }

    /// The greatest value of the class of the top mark by `scale`, or 0 for none.
    #[inline(always)]
    pub(crate) fn greatest(&self, scale: Scale) -> u64
        requires { IsOfValues scale self.now.top }
        ensures { result ≡ top_of_mark scale self.now.top }
    {
        if is_same(self.scale, scale) {
            self.greatest
        } else {
            greatest_of(scale, self.top())
        }
    }

    /// The lowest value of the class of the lower mark by `scale`, or `u64::MAX` for none.
    #[inline(always)]
    pub(crate) fn lowest(&self, scale: Scale) -> u64
        requires { IsOfValues scale self.now.lower }
        ensures { result ≡ value_of_mark scale self.now.lower }
    {
        if is_same(self.scale, scale) {
            self.lowest
        } else {
            lowest_of(scale, self.lower())
        }
    }

    /// Makes `class` the top mark if it is later, and the lower mark if it is earlier and not class 0.
    #[inline(always)]
    pub(crate) fn widen(&mut self, class: usize)
        requires { class < 2 ^ 32 }
        ensures { self.new ≡ record {
          top = later_mark self.old.top class;
          lower = earlier_mark self.old.lower class;
        } }
    {
        if !self.enclose(class) {
            self.widen_to(class);
        }
    }

    /// Whether `widen` with `class` changes neither mark.
    #[inline(always)]
    pub(crate) fn enclose(&self, class: usize) -> bool
        requires { class < 2 ^ 32 }
        ensures { result ≡ true → record {
          top = later_mark self.now.top class;
          lower = earlier_mark self.now.lower class;
        } ≡ self.now }
    {
        class < self.classes && self.before <= class.wrapping_sub(1)
    }

    /// As `widen`, without the comparisons.
    #[cold]
    #[inline(never)]
    fn widen_to(&mut self, class: usize)
        requires { class < 2 ^ 32 }
        ensures { self.new ≡ record {
          top = later_mark self.old.top class;
          lower = earlier_mark self.old.lower class;
        } }
    {
        let classes = self.classes.max(class + 1);
        let before = self.before.min(class.wrapping_sub(1));
        *self = Marks::kept(self.scale, classes, before);
    }

    /// Widens both marks by a class, if there is one.
    pub(crate) fn widen_if(&mut self, class: Option<usize>)
        requires { IfSome class (λ i. i < 2 ^ 32) }
        ensures { self.new ≡ record {
          top = later_of self.old.top class;
          lower = earlier_of self.old.lower class;
        } }
    {
        if let Some(class) = class {
            self.widen(class);
        }
    }

    /// Widens both marks by those of another histogram.
    pub(crate) fn widen_by(&mut self, other: &Marks)
        ensures { self.new ≡ record {
          top = later_of self.old.top other.now.top;
          lower = earlier_of self.old.lower other.now.lower;
        } }
    {
        let classes = self.classes.max(other.classes);
        let before = self.before.min(other.before);
        *self = Marks::kept(self.scale, classes, before);
    }
}

/// Returns the top mark that is kept as this number.
fn top_by(classes: usize) -> Option<usize>
    ensures { result ≡ top_by classes }
{
    classes.checked_sub(1)
}

/// Returns the lower mark that is kept as this number.
fn lower_by(before: usize) -> Option<usize>
    ensures { result ≡ lower_by before }
{
    before.checked_add(1)
}

/// Whether two scales have the same classes.
#[inline(always)]
fn is_same(one: Scale, other: Scale) -> bool
    ensures { result ≡ true → one ≡ other }
{
    one.unit() == other.unit() && one.digits() == other.digits()
}

/// Returns the greatest value of the class of a top mark, or 0 for none.
#[cold]
#[inline(never)]
fn greatest_of(scale: Scale, top: Option<usize>) -> u64
    ensures { IsGreatest scale top result }
{
    match top {
        Some(class) => scale.bin_top(class).unwrap_or(0),
        None => 0,
    }
}

/// Returns the lowest value of the class of a lower mark, or `u64::MAX` for none.
#[cold]
#[inline(never)]
fn lowest_of(scale: Scale, lower: Option<usize>) -> u64
    ensures { IsLowest scale lower result }
{
    match lower {
        Some(class) => scale.bin_value(class).unwrap_or(0),
        None => u64::MAX,
    }
}

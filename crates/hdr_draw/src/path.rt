//! Paths of lines and areas.

ghost use Rattle.std.specs.Prelude.{◌≡◌, ◌≤◌, ◌++◌, OnOk, IfOk, [], ◌∷◌, max, string_bytes};
ghost use Rattle.std.specs.List.{flat_map};
ghost use Rattle.hdr_draw.specs.Paths.{IsInside, step_inside, step_text, tenths};
ghost use Rattle.hdr_draw.specs.Scales.{along};

use crate::axis::Axis;
use crate::tenths::push_tenths;
use std::alloc::{AllocError, Global};
use std::marker::Model;

/// The width of a field.
pub const WIDTH: u32 = 10_000;

/// How the levels of a line are connected.
#[derive(Clone, Copy, Debug, PartialEq, Eq)]
pub enum Joint {
    /// By a vertical line.
    Jump,
    /// By nothing.
    Gap,
}

/// A point of a curve.
#[derive(Clone, Copy, Debug, PartialEq, Eq)]
pub struct Point {
    pub x: u32,
    pub y: u32,
}

/// A step of a path.
#[derive(Clone, Copy, Debug)]
pub enum Step {
    /// Begins at a point.
    Start(u32, u32),
    /// A line to a point.
    Line(u32, u32),
    /// A level line to an x.
    Across(u32),
    /// An upright line to a y.
    Along(u32),
    /// A line back to the start.
    Back,
}

/// A path in a field: no point of it lies outside.
#[derive(Drop)]
pub struct Path {
    height: u32,
    steps: Vec<Step>,
}

impl Model for Path {
    ghost use Rattle.std.specs.List.{All};
    ghost use Rattle.hdr_draw.specs.Paths.{IsInside, Steps};

    ghost Value = { Steps };

    ghost view = { λ p. record { height = p.height; steps = p.steps.items } };

    ghost invariant = { λ p. All (IsInside p.height) p.steps.items };
}

/// Returns the left side of the part of this index, of equal parts of the width of a field.
#[tactic(auto, unfolding(crate::specs::Scales::along))]
pub fn left_of(index: usize, parts: usize) -> u32
    ensures is { result ≡ along (record { from = 0; span = max 1 parts }) WIDTH index }
    ensures within { result ≤ WIDTH }
{
    Axis::new(0, parts as u64).place(index as u64, WIDTH)
}

/// Appends a letter of a path and a coordinate.
fn push_move(text: &mut String, letter: &str, number: u32) -> Result<(), AllocError>
    ensures { OnOk result (string_bytes text.new
        ≡ string_bytes text.old ++ letter.now ++ tenths number) }
{
    text.push_str(letter)?;
    push_tenths(text, number)
}

/// Appends a step.
#[tactic(auto, unfolding(crate::specs::Paths::step_text))]
fn push_step(text: &mut String, step: Step) -> Result<(), AllocError>
    ensures { OnOk result (string_bytes text.new ≡ string_bytes text.old ++ step_text step) }
{
    match step {
        Step::Start(x, y) => {
            push_move(text, "M", x)?;
            push_move(text, " ", y)
        }
        Step::Line(x, y) => {
            push_move(text, "L", x)?;
            push_move(text, " ", y)
        }
        Step::Across(x) => push_move(text, "H", x),
        Step::Along(y) => push_move(text, "V", y),
        Step::Back => text.push_str("Z"),
    }
}

/// Appends steps.
fn push_steps(text: &mut String, steps: &[Step]) -> Result<(), AllocError>
    ensures { OnOk result (string_bytes text.new
        ≡ string_bytes text.old ++ flat_map step_text steps.now) }
{
    for step in steps {
        push_step(text, *step)?;
    }
    Ok(())
}

impl Path {
    /// Returns a path without steps in a field of a height.
    pub fn new(alloc: Global, height: u32) -> Path
        ensures height { result.height ≡ height }
        ensures steps { result.steps ≡ [] }
    {
        Path {
            height,
            steps: Vec::new(alloc),
        }
    }

    /// Appends the path as SVG writes it.
    pub fn push_to(&self, text: &mut String) -> Result<(), AllocError>
        ensures { OnOk result (string_bytes text.new
            ≡ string_bytes text.old ++ flat_map step_text self.now.steps) }
    {
        push_steps(text, &self.steps)
    }

    /// Adds a step. A point outside the field is moved to its side.
    fn add(&mut self, step: Step) -> Result<(), AllocError>
        ensures height { self.new.height ≡ self.old.height }
        ensures steps { OnOk result (self.new.steps
            ≡ self.old.steps ++ step_inside self.old.height step ∷ []) }
    {
        let height = self.height;
        self.steps.push(moved_inside(step, height))?;
        Ok(())
    }

    /// Adds the change of a level at `x`.
    fn add_change(
        &mut self,
        x: u32,
        before: Option<u32>,
        after: Option<u32>,
        joint: Joint,
    ) -> Result<(), AllocError> {
        if before == after {
            return Ok(());
        }
        if before.is_some() {
            self.add(Step::Across(x))?;
        }
        match after {
            Some(y) if before.is_some() && joint == Joint::Jump => self.add(Step::Along(y)),
            Some(y) => self.add(Step::Start(x, y)),
            None => Ok(()),
        }
    }

    /// Adds a line that is level over each of equal parts of a field, and absent over a part without
    /// a level.
    pub fn add_levels(&mut self, levels: &[Option<u32>], joint: Joint) -> Result<(), AllocError> {
        let mut before = None;
        for (index, level) in levels.iter().enumerate() {
            self.add_change(left_of(index, levels.len()), before, *level, joint)?;
            before = *level;
        }
        self.add_change(WIDTH, before, None, joint)
    }

    /// Adds the outlines of the areas between two levels over each of equal parts of a field. A part
    /// without both levels has no area.
    pub fn add_area(
        &mut self,
        low: &[Option<u32>],
        high: &[Option<u32>],
    ) -> Result<(), AllocError> {
        let mut from = 0;
        for index in 0..=low.len() {
            let has_area = matches!(
                (low.get(index), high.get(index)),
                (Some(Some(_)), Some(Some(_)))
            );
            if !has_area {
                if from < index {
                    self.add_outline(low, high, from, index)?;
                }
                from = index + 1;
            }
        }
        Ok(())
    }

    /// Adds the outline of the area over the parts from an index to another.
    fn add_outline(
        &mut self,
        low: &[Option<u32>],
        high: &[Option<u32>],
        from: usize,
        to: usize,
    ) -> Result<(), AllocError> {
        let parts = low.len();
        let mut before = None;
        for index in from..to {
            let level = low.get(index).copied().flatten();
            self.add_change(left_of(index, parts), before, level, Joint::Jump)?;
            before = level;
        }
        self.add(Step::Across(left_of(to, parts)))?;
        let mut above = None;
        for index in (from..to).rev() {
            let level = high.get(index).copied().flatten();
            if let (Some(y), true) = (level, level != above) {
                if above.is_some() {
                    let right = left_of(index.saturating_add(1), parts);
                    self.add(Step::Across(right))?;
                }
                self.add(Step::Along(y))?;
                above = level;
            }
        }
        self.add(Step::Across(left_of(from, parts)))?;
        self.add(Step::Back)
    }

    /// Adds a curve through points. Points on a level line are left out, except for its ends.
    pub fn add_curve(&mut self, points: &[Point]) -> Result<(), AllocError> {
        let Some(first) = points.first() else {
            return Ok(());
        };
        self.add(Step::Start(first.x, first.y))?;
        let mut last = *first;
        let mut drawn = first.x;
        for point in points {
            if point.y != last.y {
                if drawn != last.x {
                    self.add(Step::Across(last.x))?;
                }
                self.add(Step::Line(point.x, point.y))?;
                drawn = point.x;
            }
            last = *point;
        }
        if drawn != last.x {
            self.add(Step::Across(last.x))?;
        }
        Ok(())
    }
}

/// Returns a step whose point is moved into a field of a height.
#[tactic(auto, unfolding(crate::specs::Paths::step_inside))]
fn moved_inside(step: Step, height: u32) -> Step
    ensures inside { IsInside height result }
    ensures is { result ≡ step_inside height step }
{
    match step {
        Step::Start(x, y) => Step::Start(x.min(WIDTH), y.min(height)),
        Step::Line(x, y) => Step::Line(x.min(WIDTH), y.min(height)),
        Step::Across(x) => Step::Across(x.min(WIDTH)),
        Step::Along(y) => Step::Along(y.min(height)),
        Step::Back => Step::Back,
    }
}

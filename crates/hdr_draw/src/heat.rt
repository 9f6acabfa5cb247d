//! Heat maps: numbers of samples over columns and rows.

ghost use Rattle.std.specs.Prelude.{◌≡◌, ◌<◌, ◌+◌, ◌-◌, ◌^◌, length, min, replicate, IfOk};
ghost use Rattle.hdr_draw.specs.Heat.{IsMost, added};
ghost use Rattle.hdr_draw.specs.Scales.{IsColour};

use crate::logarithm::logarithm;
use std::alloc::{AllocError, Global};
use std::marker::Model;

/// The rows of a heat map.
pub const ROWS: usize = 40;

/// The colours of a heat map, for few samples to many.
pub const COLOURS: usize = 8;

/// Numbers of samples over columns and rows. Row 0 is the uppermost.
#[derive(Drop)]
pub struct HeatMap {
    columns: Vec<[u64; ROWS]>,
    most: u64,
}

impl Model for HeatMap {
    ghost use Rattle.std.specs.Prelude.{ℕ, ◌≡◌, List, length};
    ghost use Rattle.std.specs.List.{All};
    ghost use Rattle.hdr_draw.specs.Heat.{IsMost};

    ghost Value = { List (List ℕ) };

    ghost view = { λ m. m.columns.items };

    ghost invariant = { λ m. IsMost m.columns.items m.most × All (λ c. length c ≡ 40) m.columns.items };
}

/// Returns the colour of a number of samples, on a logarithmic scale up to the greatest number.
fn colour_of(samples: u64, most: u64) -> usize
    ensures within { result < 8 }
    ensures is { IsColour samples (min (most + 1) (2 ^ 64 - 1)) result }
{
    let end = logarithm(most.saturating_add(1)).max(1);
    (8 * logarithm(samples) / end).min(7) as usize
}

impl HeatMap {
    /// Returns a heat map without samples.
    pub fn new(alloc: Global, columns: usize) -> Result<HeatMap, AllocError>
        ensures { IfOk result (λ m. m ≡ replicate columns (replicate 40 0)) }
    {
        Ok(HeatMap {
            columns: vec![in alloc; [0; ROWS]; columns]?,
            most: 1,
        })
    }

    /// The greatest number of samples of a cell, at least 1.
    pub fn most(&self) -> u64
        ensures { IsMost self.now result }
    {
        self.most
    }

    /// Adds samples to a cell. One outside the map is left out.
    pub fn add(&mut self, column: usize, row: usize, samples: u64)
        ensures { self.new ≡ added self.old column row samples }
    {
        if let Some(rows) = self.columns.get_mut(column) {
            if row < ROWS {
                rows[row] = rows[row].saturating_add(samples);
                self.most = self.most.max(rows[row]);
            }
        }
    }

    /// Returns a path for each colour. A run of rows of a colour is one stroke.
    pub fn paths(&self, alloc: Global) -> Result<Vec<String>, AllocError>
        ensures { IfOk result (λ v. length v.items ≡ 8) }
    {
        let mut paths = Vec::new(alloc);
        for _ in 0..COLOURS {
            paths.push(String::new(alloc))?;
        }
        for (column, rows) in self.columns.iter().enumerate() {
            push_column(&mut paths, column, rows, self.most)?;
        }
        Ok(paths)
    }
}

/// Appends the strokes of a column to the paths of their colours.
fn push_column(
    paths: &mut Vec<String>,
    column: usize,
    rows: &[u64; ROWS],
    most: u64,
) -> Result<(), AllocError>
    ensures { length paths.new.items ≡ length paths.old.items }
{
    let mut run: Option<(usize, usize)> = None;
    for (row, samples) in rows.iter().enumerate() {
        let colour = if *samples == 0 {
            None
        } else {
            Some(colour_of(*samples, most))
        };
        run = continue_run(paths, column, row, run, colour)?;
    }
    continue_run(paths, column, ROWS, run, None)?;
    Ok(())
}

/// Returns the run, as colour and first row, after a row of this colour. Appends a run that ends.
fn continue_run(
    paths: &mut Vec<String>,
    column: usize,
    row: usize,
    run: Option<(usize, usize)>,
    colour: Option<usize>,
) -> Result<Option<(usize, usize)>, AllocError>
    ensures { length paths.new.items ≡ length paths.old.items }
{
    if let Some((last, first)) = run {
        if colour == Some(last) {
            return Ok(run);
        }
        if let Some(path) = paths.get_mut(last) {
            let rows = row.saturating_sub(first);
            write!(path, "M{column} {first}v{rows}")?;
        }
    }
    Ok(match colour {
        Some(colour) => Some((colour, row)),
        None => None,
    })
}

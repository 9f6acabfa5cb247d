//! What needs all samples of a tag: its curve of quantiles, and its heat map.

ghost use Rattle.std.specs.Prelude.{◌≡◌, ◌<◌, ◌≤◌, ◌++◌, ◌∷◌, [], List, IfOk};
ghost use Rattle.std.specs.List.{All};
ghost use Rattle.hdr_figures.specs.Figures.{value_at};
ghost use Rattle.hdr_page.specs.declared.charts.detail.CurvePoint.{CurvePoint};

use hdr_draw::heat::{HeatMap, ROWS};
use hdr_draw::path::WIDTH;
use hdr_draw::quantiles::QuantileScale;
use hdr_draw::rows::Rows;
use hdr_figures::figures::{TagSamples, value_at};
use hdrhistogram::{Histogram, Quantile};
use std::alloc::{AllocError, Global};

/// A point of a curve of quantiles: how far along the width it is, and its value.
#[derive(Clone, Copy)]
pub(crate) struct CurvePoint {
    pub x: u32,
    pub value: u64,
}

/// The curve and the heat map of a tag.
#[derive(Drop)]
pub(crate) struct Detail {
    pub curve: Vec<CurvePoint>,
    pub heat: HeatMap,
}

/// Returns the curve and the heat map of a tag over a number of points of time.
pub(crate) fn detail_of(
    alloc: Global,
    samples: &TagSamples<'_>,
    points: usize,
    rows: &Rows,
    quantiles: &QuantileScale,
) -> Result<Detail, AllocError> {
    let mut heat = HeatMap::new(alloc, points)?;
    for cell in &samples.cells {
        let row = (ROWS - 1).saturating_sub(rows.row(cell.value));
        heat.add(cell.point, row, cell.count);
    }
    Ok(Detail {
        curve: curve_of(alloc, &samples.sum.histogram, quantiles, WIDTH)?,
        heat,
    })
}

/// Returns the curve of quantiles: from the least value to the greatest, each point 6 % nearer to
/// the quantile 1 than the one before.
pub(crate) fn curve_of(
    alloc: Global,
    histogram: &Histogram<u64>,
    scale: &QuantileScale,
    width: u32,
) -> Result<Vec<CurvePoint>, AllocError>
    ensures within { IfOk result (λ v. All (λ p. p.x ≤ width) v.items) }
    ensures end { IfOk result (λ v. 0 < histogram.now.total → (front : List CurvePoint)
        × (end : CurvePoint) × (v.items ≡ front ++ end ∷ [])
        × (end.value ≡ value_at histogram.now 1 1)) }
{
    let mut curve = Vec::new(alloc);
    let all = histogram.len();
    let mut above = all;
    for _ in 0..1_000 {
        if above == 0 {
            break;
        }
        let rank = all.saturating_sub(above).max(1);
        if let Some(quantile) = Quantile::new(rank, all) {
            curve.push(CurvePoint {
                x: scale.place(all, above, width),
                value: histogram.value_at_quantile(quantile),
            })?;
        }
        above = above.saturating_sub((above / 17).max(1));
    }
    if all > 0 {
        curve.push(CurvePoint {
            x: scale.place_of_last(all, width),
            value: value_at(histogram, 1, 1),
        })?;
    }
    Ok(curve)
}

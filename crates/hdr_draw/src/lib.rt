//! Drawings of whole numbers: scales, their steps, paths, heat maps and escaped texts.
//!
//! Heights are in tenths of a pixel, and widths in ten-thousandths of the field's. Coordinates
//! begin at the upper left.
#![tactic(auto)]

pub mod axis;
pub mod escape;
pub mod heat;
pub mod labels;
pub mod laws;
pub mod logarithm;
pub mod number;
pub mod path;
mod powers;
pub mod quantiles;
pub mod rows;
pub mod steps;
pub mod tenths;
pub mod times;
pub mod values;

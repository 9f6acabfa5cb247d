//! Two runs compared: confidence intervals of percentiles, and changes beyond chance. All of it is
//! decided by integers.
#![tactic(auto)]

mod batch;
mod batching;
mod changes;
mod counting;
mod effective;
mod ends;
mod interval;
mod merging;
mod position;
mod ranks;
mod run;
mod shifts;
mod sums;
mod tiers;
mod verdicts;

pub use batching::Batching;
pub use changes::{Measured, exceeds, falls_below, greatest_ratio, least_ratio};
pub use interval::{End, Interval};
pub use position::{Position, WithinBound};
pub use ranks::{is_far, is_far_above, is_far_below};
pub use run::{BatchError, Run};
pub use shifts::comparable;
pub use tiers::Tier;
pub use verdicts::{Verdict, nearest_ratio, verdict_of};

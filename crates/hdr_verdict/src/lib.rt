//! The verdict of interval logs: which times were slow, for which tags, and since when.
//!
//! A tag's intervals are cells of time. For each of some tails of the samples, a cell has a score:
//! how many of its samples are above a threshold, less how many may be. Runs of cells with high
//! scores are slow times.
#![tactic(auto)]

mod above;
mod bar;
mod cell;
mod counting;
mod decoder;
mod episode;
mod flags;
mod incident;
pub mod laws;
mod level;
mod missing;
mod order;
mod quartile;
mod rate;
mod runs;
mod samples;
mod score;
mod search;
mod slow;
mod tags;
mod tail;
mod tests;
mod usual;
mod usual_tails;
mod usual_values;
mod verdict;
mod width;

pub use bar::bar_of_cells;
pub use cell::Cell;
pub use episode::{Episode, EpisodeKind, RateChange, TagCells, episodes_of};
pub use incident::{Incident, incidents_of};
pub use level::TailLevel;
pub use missing::{MissingTime, missing_of};
pub use rate::{Rate, usual_rate};
pub use runs::{Run, RunSearch};
pub use samples::TagSamples;
pub use score::Score;
pub use search::slow_of;
pub use slow::{Rise, SlowTime, Test};
pub use tags::{Tag, bar_of, tags_of};
pub use tail::Tail;
pub use tests::{SlowTimes, slow_times};
pub use usual::{FEWEST_BLOCKS, Usual, fewest_samples};
pub use usual_tails::all_tails;
pub use usual_values::usual_of;
pub use verdict::{LogVerdict, Span, TagFindings, verdict_of};

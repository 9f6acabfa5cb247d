//! Numbers from text, one on each line or in a column of a table.
#![tactic(auto)]

pub mod blanks;
pub mod bound;
mod bound_counts;
pub mod bound_tally;
pub mod cause;
pub mod columns;
pub mod distribution;
mod durations;
pub mod errors;
pub mod group_texts;
pub mod groups;
pub mod intervals;
mod joining;
pub mod json_lines;
pub mod laws;
pub mod lines;
pub mod match_lines;
pub mod number;
pub mod pieces;
pub mod retry;
pub mod rows;
pub mod sink;
pub mod survey;
pub mod tally;
mod text;
pub mod times;
pub mod unit;
pub mod units;
pub mod visible;
pub mod wide;

pub use bound::Bound;
pub use bound_tally::{BoundTally, Within};
pub use distribution::Distribution;
pub use errors::InputError;
pub use number::Number;
pub use sink::NumberSink;
pub use survey::Survey;
pub use tally::{Recording, Tally};
pub use unit::Unit;
pub use visible::push_visible;

//! Counter types, fractions, step counts, and the classes of values that a histogram counts together.
#![tactic(auto)]

pub mod counter;
pub mod fraction;
pub mod iteration_value;
pub mod laws;
pub mod scale;
pub mod ticks;

pub use counter::{Counter, saturating_from};
pub use fraction::{Fraction, Quantile};
pub use iteration_value::IterationValue;
pub use scale::Scale;
pub use ticks::Ticks;

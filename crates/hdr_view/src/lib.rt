//! What a page shows, and its texts: numbers with units, times, names, and the sentence on all
//! samples with the slow times.
#![tactic(auto)]

pub mod amount;
pub mod clock;
mod description;
pub mod incidents;
mod kind;
pub mod name;
pub mod naming;
pub mod options;
mod order;
mod sentence;
mod tested;
pub mod view;

//! The subcommands of `hdrstat` other than `page`: the command line of each, and what it does.
//!
//! `page` has some of their options, which are in [`options`].
#![tactic(auto)]

pub mod check;
pub mod compare;
pub mod convert;
pub mod gather;
pub mod log;
pub mod options;
pub mod summary;

//! The tracing collector: where the blocks lie that references lead to, what blocks refer to, and how a collection runs.
#![tactic(auto)]

mod access;
mod begin;
mod collect;
mod collection;
mod condemn;
mod examining;
mod finding;
mod flip;
mod noting;
mod registration;
mod roots;
mod running;
mod splatting;
mod trace;

pub use collect::{most_moves, most_units};
pub use condemn::Condemn;
pub use running::{Band, Running};
pub use trace::Trace;

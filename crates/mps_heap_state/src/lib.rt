//! What a heap has, as one struct, what a call finds in it by its words, the units of the
//! collection that runs in it, and what follows from their moves.
#![tactic(auto)]

pub mod following;
mod state;
pub mod units;

pub use state::State;

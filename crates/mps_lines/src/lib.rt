//! The lines of an input, one by one, across reads of any size.
#![tactic(auto)]

mod lines;
mod next;

pub use lines::Lines;
pub use next::Next;

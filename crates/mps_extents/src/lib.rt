//! Which words of an arena are covered, by blocks and by reservations.
#![tactic(auto)]

mod extents;

pub use extents::Extents;

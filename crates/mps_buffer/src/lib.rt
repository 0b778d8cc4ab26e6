//! Points, at which a client reserves words, initialises them and commits them as a block.
#![tactic(auto)]

mod open_points;
mod place;
mod point;
mod points;
mod reserving;

pub use open_points::OpenPoints;
pub use point::{Held, Point, Reserved};
pub use points::Points;

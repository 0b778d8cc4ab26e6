//! The marks of a collection: which blocks it keeps, and which are grey, so that it is still to scan them.
#![tactic(auto)]

mod grey_blocks;
mod marks;

pub use marks::Marks;

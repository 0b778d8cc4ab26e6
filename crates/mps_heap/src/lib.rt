//! A heap: a client makes pools, roots and points in it, reserves and commits objects, and reads and writes them. Each call answers
//! what the graph machine of the model answers, and its moves are legal.
#![tactic(auto)]

mod heap;

pub use heap::Heap;
pub use mps_heap_code::steps::Steps;
pub use mps_heap_spec::{Committed, KeyedSlot, KeyedWord, Progress};
pub use mps_names::{AreaKey, PointKey, TableKey};

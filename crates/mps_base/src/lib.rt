//! What every layer of the memory pool system speaks of: addresses and zones, names and slots, the moves of a
//! collection, and the refusals of a call.
#![tactic(auto)]

mod address;
mod bytes;
mod moves;
mod names;
mod refusal;
mod trail;

pub use address::{Addr, BYTES_OF_GRAIN, BYTES_OF_WORD, WORDS_OF_GRAIN, ZoneSet};
pub use bytes::{MAX_NAME_BYTES, find_byte, is_name, length_before};
pub use moves::Move;
pub use names::{Kind, KindTraits, Name, Rank, Slot};
pub use refusal::{Flipped, Refusal};
pub use trail::Trail;

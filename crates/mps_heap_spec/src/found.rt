// What a call finds by its words, and by keys.
use mps_base::Slot;
use mps_buffer::Point;
use mps_names::{AreaKey, TableKey};

/// Something, with the number or the key under which it is kept.
#[derive(Clone, Copy)]
pub struct Kept<A> {
    pub key: u32,
    pub value: A,
}

/// An entry of a list that is kept under a key, with its index.
#[derive(Clone, Copy)]
pub struct Entry<A> {
    pub key: usize,
    pub index: usize,
    pub value: A,
}

/// An object, or what an open reservation is to hold: its address, its format and its head.
#[derive(Clone, Copy)]
pub struct Block<F> {
    pub at: u64,
    pub format: F,
    pub head: u64,
}

/// A cell of a block: the number of its word, and what that word has.
#[derive(Clone, Copy)]
pub struct CellFound {
    pub word: usize,
    pub value: u64,
}

/// A point at which a block is to be reserved, and the size of the block in words.
#[derive(Clone, Copy)]
pub struct Reserving {
    pub point: Kept<Point>,
    pub words: u32,
}

/// What a commit made of its reservation: a block, or nothing, since a flip came after the reserve.
#[derive(Clone, Copy, Debug, PartialEq, Eq)]
pub enum Committed {
    AsBlock,
    AsFlipped,
}

/// A slot of a table, by the table's key.
#[derive(Clone, Copy, Debug, PartialEq, Eq)]
pub struct KeyedSlot {
    pub table: TableKey,
    pub index: u64,
}

/// A word of an area, by the area's key.
#[derive(Clone, Copy, Debug, PartialEq, Eq)]
pub struct KeyedWord {
    pub area: AreaKey,
    pub index: u64,
}

/// A slot, or a word of an area, and where its table or area is kept.
#[derive(Clone, Copy)]
pub struct Located {
    pub slot: Slot,
    pub place: usize,
}

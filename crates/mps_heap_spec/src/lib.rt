//! The state of a heap, and what each call of a client makes of it: definitions over plain lists, the types of what calls find, and
//! the blocks and cells that they find it in.
#![tactic(auto)]

mod arena;
mod blocks;
mod cells;
mod checks;
mod found;
mod items;
mod registrations;

pub use arena::{ArenaState, Progress};
pub use blocks::{
    begins_block, block_over, is_block_over, is_of_pool, pool_of_segment, takes_head,
};
pub use cells::{
    number_cell_at, reference_cell_at, tag_of, with_tag, with_target, write_reference, write_word,
};
pub use checks::{may_have_point, refuse_at_limit, reservation_of};
pub use found::{
    Block, CellFound, Committed, Entry, Kept, KeyedSlot, KeyedWord, Located, Reserving,
};
pub use items::{item, under};
pub use registrations::running_without;

// The moves by which a heap changes: what a log records.
use crate::{Addr, ZoneSet};

/// One change of the arena, as a log records it. Sizes are in words or grains, as the field says.
#[derive(Clone, Copy, Debug, PartialEq, Eq)]
pub enum Move {
    /// The arena holds a new segment of `grains` grains for a pool.
    Seg {
        base: Addr,
        grains: u32,
        pool: u32,
        generation: u32,
    },
    /// The segment at `base` is given back.
    Unseg {
        base: Addr,
    },
    /// A collection condemns its segments and flips; `zones` are those of the condemned segments whose blocks move.
    Flip {
        zones: ZoneSet,
        chain: u32,
        generation: u32,
    },
    /// The running collection ends.
    End,
    /// The block at `from` now lies at `to`.
    Moved {
        from: Addr,
        to: Addr,
    },
    /// The block at `at` found no room to move to and stays for this collection.
    Stay {
        at: Addr,
    },
    /// The weak reference in `cell` of the block at `holder` becomes null.
    Splat {
        holder: Addr,
        cell: u32,
    },
    /// A registration of the block at `at` becomes a message.
    Post {
        at: Addr,
    },
    /// A reservation of `words` words becomes a block.
    Commit {
        at: Addr,
        words: u32,
        pool: u32,
    },
    /// A manual block of `words` words is made.
    Alloc {
        at: Addr,
        words: u32,
        pool: u32,
    },
    /// The block at `at` is freed.
    Free {
        at: Addr,
    },
}

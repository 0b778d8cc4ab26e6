// Which block, and of which pool, lies over a byte.
#![tactic(auto)]

ghost use Rattle.std.specs.Prelude.{◌≡◌, ℕ, true, option_map, Contains};
ghost use Rattle.mps_base.specs.Address.{word_of};
ghost use Rattle.mps_base.specs.Segment.{segment_over};
ghost use Rattle.mps_heap_spec.specs.Allocating.{takes_head};
ghost use Rattle.mps_heap_spec.specs.Areas.{block_over, is_of_pool};
ghost use Rattle.mps_heap_spec.specs.Manual.{is_block_over};

use crate::cells::any_references;
use mps_base::Addr;
use mps_format::{Format, Pool, is_automatic, is_copying, is_leaf};
use mps_seg::Segs;

/// The address of the block that is over a byte.
pub fn block_over(segs: &Segs, byte: u64) -> Option<u64>
    ensures { result ≡ block_over segs.now byte }
{
    Some(segs.block_at(byte)?.0)
}

/// Whether a block begins at an address.
#[tactic(auto, using(crate::proofs::Beginning::begins_block))]
pub fn begins_block(segs: &Segs, at: u64) -> bool
    ensures value { result ≡ is_block_over segs.now at at }
    ensures block { result ≡ true → (words : ℕ) × Contains segs.now.blocks (record { from = word_of at; count = words }) }
{
    is_block_over(segs, at, at)
}

/// Whether the block over a byte begins at an address.
pub fn is_block_over(segs: &Segs, byte: u64, at: u64) -> bool
    ensures { result ≡ is_block_over segs.now byte at }
{
    match block_over(segs, byte) {
        Some(from) => from == at,
        None => false,
    }
}

/// Whether a pool takes blocks with this head, in its format.
#[inline(always)]
pub fn takes_head<F: Format>(pool: Pool<F>, format: F, head: u64) -> bool
    ensures { result ≡ takes_head F.layout pool format head }
{
    format.accepts(head) && !(is_leaf(pool) && any_references(&format, head))
}

/// The number of the pool of the segment that is held over an address.
#[inline(always)]
pub fn pool_of_segment(segs: &Segs, at: u64) -> Option<u32>
    ensures { result ≡ option_map (λ s. s.pool) (segment_over segs.now.segments at) }
{
    let base = segs.segment_of(Addr(at))?;
    Some(segs.segment(base).pool)
}

/// Whether a word lies in the block of a pool at an address.
pub fn is_of_pool<F: Format>(word: u64, at: u64, pool: Option<Pool<F>>) -> bool
    ensures { result ≡ is_of_pool word at pool }
{
    let Some(pool) = pool else {
        return false;
    };
    is_automatic(pool) && (is_copying(pool) || word == at)
}

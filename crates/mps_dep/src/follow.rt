// What the dependents do as blocks are freed and references cleared.
#![tactic(auto)]

ghost use Rattle.std.specs.Prelude.{◌≡◌, ◌+◌, ◌&&◌, slice_set, slice_get, slice_index, IsTrue};
ghost use Rattle.mps_base.specs.Address.{word_of};
ghost use Rattle.mps_dep.specs.Following.{begins_block, nulled, followed_pairs, followed_words};

use crate::dependents::Dependents;
use mps_base::{Addr, BYTES_OF_WORD, Move};
use mps_format::Format;
use mps_seg::Segs;

impl Dependents {
    /// Follows a move that was made. A reference that a Splat cleared in a holder is cleared in its dependent too, where that is a live
    /// block in which this cell is a reference; it keeps its tag. A Free ends the pairs of its block. No other move changes anything.
    /// Needs the format of the dependent's pool.
    pub fn follow<F: Format>(&mut self, segs: &mut Segs, format: &F, made: Move)
        ensures pairs { self.new ≡ followed_pairs self.old made }
        ensures words { segs.new ≡ record segs.old { words = followed_words (F.layout format.now) self.old segs.old made } }
    {
        match made {
            Move::Splat { holder, cell } => {
                if let Some(at) = self.dependent(holder) {
                    clear_reference(segs, format, at, cell);
                }
            }
            Move::Free { at } => self.forget(at),
            _ => {}
        }
    }
}

// Clears a cell of the block at an address, where it is a reference of a live block.
fn clear_reference<F: Format>(segs: &mut Segs, format: &F, at: Addr, cell: u32)
    ensures { segs.new ≡ record segs.old { words = nulled (F.layout format.now) segs.old at.0 cell } }
{
    if !begins_block(segs, at) {
        return;
    }
    let Some(head) = segs.item(at.word()) else {
        return;
    };
    if format.accepts(head) && is_reference(format, head, cell) {
        write_null(segs, format, at.word() + cell as usize);
    }
}

// Whether a block begins at an address.
fn begins_block(segs: &Segs, at: Addr) -> bool
    ensures { result ≡ begins_block segs.now.blocks at.0 }
{
    match segs.block_at(at.0) {
        Some(from) => from.0 == at.0,
        None => false,
    }
}

// Whether a cell of a block with this head is a reference.
fn is_reference<F: Format>(format: &F, head: u64, cell: u32) -> bool
    requires { IsTrue ((F.layout format.now).is_valid head) }
    ensures { result ≡ (F.layout format.now).is_reference head cell }
{
    match format.ref_from(head, cell) {
        Some(first) => first == cell,
        None => false,
    }
}

// A reference word has the target null and keeps its tag; nothing where the arena has no such word.
fn write_null<F: Format>(segs: &mut Segs, format: &F, word: usize)
    ensures { segs.new ≡ record segs.old
        { words = slice_set segs.old.words word ((F.layout format.now).retarget (slice_index segs.old.words word) 0) } }
{
    let _ = segs.grains(); // the address of a word fits
    if let Some(value) = segs.item(word) {
        segs.set_word(
            Addr(BYTES_OF_WORD * word as u64),
            format.retarget(value, Addr(0)),
        );
    }
}

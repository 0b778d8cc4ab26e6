// The pools with weak blocks.
#![tactic(auto)]

ghost use Rattle.std.specs.Prelude.{◌≡◌, ◌+◌, ◌*◌, ◌%◌, ◌^◌, ◌<◌, length, slice_index};
ghost use Rattle.mps_base.specs.Address.{word_of, words_of_grain, bytes_of_word};
ghost use Rattle.mps_base.specs.Trail.{with_move};
ghost use Rattle.mps_base.specs.declared.moves.Move.TheVariants.{Splat};
ghost use Rattle.mps_format.specs.Layout.{Layout, IsLawful};
ghost use Rattle.mps_seg.specs.Moving.{nailed};
ghost use Rattle.mps_seg.specs.Reclaiming.{CanReclaim, IsSwept};
ghost use Rattle.mps_awl.specs.Splatting.{splatted};

use mps_base::{Addr, BYTES_OF_WORD, Move, Trail};
use mps_mark::Mark;
use mps_seg::Segs;

/// The policy of the pools with weak blocks. It keeps nothing of its own: marks stand with the segments.
#[derive(Clone, Copy)]
pub struct Awl;

impl Awl {
    /// Keeps the block at `at` where it lies, as the pools that mark do.
    pub fn fix(&mut self, segs: &mut Segs, at: Addr)
        requires { word_of at.0 < words_of_grain * (segs.old.grains + 1) }
        ensures { segs.new ≡ nailed segs.old at.0 }
    {
        Mark.fix(segs, at);
    }

    /// Reclaims the segment at `base` at the end of a collection, as the pools that mark do.
    pub fn reclaim_seg(&mut self, segs: &mut Segs, trail: &mut Trail, base: Addr)
        requires { CanReclaim segs.old base.0 trail.old.spare }
        ensures swept { IsSwept segs.old trail.old base segs.new trail.new }
        ensures words { segs.new.words ≡ segs.old.words }
    {
        Mark.reclaim_seg(segs, trail, base);
    }

    /// The reference in a cell of the weak block at `holder` becomes null, and keeps its tag. In any format this is the reference with
    /// a null target.
    pub fn splat(&mut self, segs: &mut Segs, trail: &mut Trail, holder: Addr, cell: u32)
        requires aligned { holder.0 % bytes_of_word ≡ 0 }
        requires inside { word_of holder.0 + cell < length segs.old.words }
        requires fits { 0 < trail.old.spare }
        ensures state { segs.new ≡ splatted segs.old holder.0 cell }
        ensures moves { trail.new ≡ with_move trail.old (Splat holder cell) }
        ensures is_null { (f : Layout) → IsLawful f → slice_index segs.new.words (word_of holder.0 + cell)
            ≡ f.retarget (slice_index segs.old.words (word_of holder.0 + cell)) 0 }
    {
        let _ = segs.grains(); // so few that the address of a word fits
        let place = Addr(holder.0 + BYTES_OF_WORD * u64::from(cell));
        let tag = segs.word(place) % 8;
        segs.set_word(place, tag);
        trail.push(Move::Splat { holder, cell });
    }
}

// The pools that mark.
#![tactic(auto)]

ghost use Rattle.std.specs.Prelude.{◌≡◌, ◌+◌, ◌*◌, ◌<◌};
ghost use Rattle.mps_base.specs.Address.{word_of, words_of_grain};
ghost use Rattle.mps_seg.specs.Moving.{nailed};
ghost use Rattle.mps_seg.specs.Reclaiming.{CanReclaim, IsSwept};

use mps_base::{Addr, Trail};
use mps_seg::Segs;

/// The policy of the pools that mark. It keeps nothing of its own: marks stand with the segments.
#[derive(Clone, Copy)]
pub struct Mark;

impl Mark {
    /// Keeps the block at `at` where it lies; it is grey then. A block that is kept already is left as it is.
    pub fn fix(&mut self, segs: &mut Segs, at: Addr)
        requires { word_of at.0 < words_of_grain * (segs.old.grains + 1) }
        ensures { segs.new ≡ nailed segs.old at.0 }
    {
        segs.nail(at);
    }

    /// Reclaims the segment at `base` at the end of a collection: its blocks that weren't kept are freed, in ascending order, and it is
    /// given back if nothing is left in it. No word changes.
    pub fn reclaim_seg(&mut self, segs: &mut Segs, trail: &mut Trail, base: Addr)
        requires { CanReclaim segs.old base.0 trail.old.spare }
        ensures swept { IsSwept segs.old trail.old base segs.new trail.new }
        ensures words { segs.new.words ≡ segs.old.words }
    {
        segs.drop_lost(trail, base);
        if segs.is_empty(base) {
            segs.give(trail, base);
        }
    }
}

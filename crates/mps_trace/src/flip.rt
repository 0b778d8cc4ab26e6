// A flip: what it condemns, what it drops, and which blocks it nails.
#![tactic(auto)]

ghost use Rattle.std.specs.Prelude.{◌≡◌, ℕ, ◌+◌, ◌*◌, ◌^◌, ◌<◌, ◌≤◌, if◌then◌else◌, filter, length, Contains};
ghost use Rattle.mps_base.specs.Address.{grain_of, words_of_grain};
ghost use Rattle.mps_base.specs.Run.{IsAscending};
ghost use Rattle.mps_base.specs.Segment.{Segment};
ghost use Rattle.mps_base.specs.Zones.{zones_from};
ghost use Rattle.mps_buffer.specs.Points.{AreReserved};
ghost use Rattle.mps_buffer.specs.Points as buffer;
ghost use Rattle.mps_ld.specs.State as ld;
ghost use Rattle.mps_trace.specs.Trace.{traced};
ghost use Rattle.mps_trace.specs.Condemned.{AreInOrder};
ghost use Rattle.mps_trace.specs.Flip.{condemns, condemned_of, chain_of, oldest_of, moves_blocks, zones_at_flip, all_condemned, at_flip, pins, nailed_by, nailed_by_all, may_refer, remembered_of, greying_each};

use crate::finding::segment_at;
use crate::{Condemn, Trace};
use mps_base::{Addr, Move, Trail, ZoneSet};
use mps_buffer::OpenPoints;
use mps_format::Format;
use mps_gen::MAX_CHAINS;
use mps_ld::Epochs;
use mps_root::Stored;
use mps_seg::Segs;

/// How many segments a flip condemns, and the zones of the grains of those whose blocks move.
#[derive(Clone, Copy)]
pub(crate) struct Condemned {
    pub(crate) segments: u64,
    pub(crate) zones: ZoneSet,
}

impl Condemn {
    /// The number of the chain of a flip in the log.
    fn chain(self) -> u32
        ensures { result ≡ chain_of self }
    {
        match self {
            Condemn::Everything => MAX_CHAINS as u32,
            Condemn::Generations { chain, .. } => chain,
        }
    }

    /// The number of the oldest generation of a flip in the log.
    fn oldest(self) -> u32
        ensures { result ≡ oldest_of self }
    {
        match self {
            Condemn::Everything => 0,
            Condemn::Generations { oldest, .. } => oldest,
        }
    }
}

impl<F: Format> Trace<F> {
    /// A flip: each segment is condemned that it is to condemn, all reservations end, all buffers of points and all tails of pools
    /// are empty, and the flip counts for dependencies on what may move. Returns how many segments are condemned, and their zones.
    pub(crate) fn flip(
        &mut self,
        segs: &mut Segs,
        trail: &mut Trail,
        points: &mut OpenPoints,
        epochs: &mut Epochs,
        what: Condemn,
    ) -> Condemned
        requires ordered { AreInOrder segs.old }
        requires few_flips { points.old.flips < 2 ^ 63 }
        requires few_epochs { epochs.old.count < 2 ^ 63 }
        requires reserved { AreReserved points.old.flips points.old.points segs.old }
        requires fits { 0 < trail.old.spare }
        ensures count { result.segments ≡ length (condemned_of self.old.formats self.old.chains what segs.old.segments) }
        ensures zones { result.zones.0 ≡ zones_at_flip self.old.formats self.old.chains what segs.old.segments }
        ensures flipped { traced self.new segs.new trail.new
            ≡ at_flip self.old.formats self.old.chains what points.old (traced self.old segs.old trail.old) }
        ensures unchanged { self.new ≡ record self.old { amc = self.new.amc } }
        ensures points { points.new ≡ buffer.points_after_flip points.old }
        ensures epochs { epochs.new
            ≡ ld.epochs_after_flip epochs.old (zones_at_flip self.old.formats self.old.chains what segs.old.segments) }
    {
        points.flip(segs);
        let condemned = self.condemn(segs, what);
        self.drop_tails();
        epochs.flip(condemned.zones);
        trail.push(Move::Flip {
            zones: condemned.zones,
            chain: what.chain(),
            generation: what.oldest(),
        });
        condemned
    }

    /// Whether a flip condemns the segments of a pool in a generation.
    fn condemns(&self, what: Condemn, pool: u32, generation: u32) -> bool
        ensures { result ≡ condemns self.now.formats self.now.chains what pool generation }
    {
        match what {
            Condemn::Everything => self.is_automatic(pool),
            Condemn::Generations { chain, oldest } => self.is_on(chain, pool)
                && generation <= oldest,
        }
    }

    /// Condemns each segment that a flip is to condemn.
    fn condemn(&self, segs: &mut Segs, what: Condemn) -> Condemned
        requires { AreInOrder segs.old }
        ensures count { result.segments ≡ length (condemned_of self.now.formats self.now.chains what segs.old.segments) }
        ensures zones { result.zones.0 ≡ zones_at_flip self.now.formats self.now.chains what segs.old.segments }
        ensures state { segs.new ≡ all_condemned self.now.formats self.now.chains what segs.old }
    {
        let mut zones = 0;
        let mut segments = 0;
        let mut at = Addr(0);
        while let Some(base) = segs.next_segment(at) {
            let segment = segs.segment(base);
            if self.condemns(what, segment.pool, segment.generation) {
                segs.condemn(base);
                zones |= self.moving_zones(segment.pool, base, segment.grains);
                segments += 1;
            }
            at = Addr(base.0 + 1);
        }
        Condemned {
            segments,
            zones: ZoneSet(zones),
        }
    }

    /// Makes the blocks grey that aren't condemned and may refer to what is, given the zones of the flip. A full flip leaves none.
    pub(crate) fn remember(&self, segs: &mut Segs, what: Condemn, zones: ZoneSet)
        requires ordered { AreInOrder segs.old }
        requires zones { zones.0 ≡ zones_at_flip self.now.formats self.now.chains what segs.old.segments }
        ensures { segs.new ≡ greying_each (remembered_of self.now.formats self.now.chains what segs.old) segs.old }
    {
        if let Condemn::Generations { .. } = what {
            self.grey_what_may_refer(segs, what, zones);
        }
    }

    /// Makes all blocks of each segment grey that a flip doesn't condemn, and that may refer to these zones.
    fn grey_what_may_refer(&self, segs: &mut Segs, what: Condemn, zones: ZoneSet)
        requires { AreInOrder segs.old }
        ensures { segs.new
            ≡ greying_each (filter (may_refer self.now.formats self.now.chains what zones.0 segs.old) segs.old.segments) segs.old }
    {
        let mut at = Addr(0);
        while let Some(base) = segs.next_segment(at) {
            if self.may_refer(segs, what, zones, base) {
                segs.grey_segment(base);
            }
            at = Addr(base.0 + 1);
        }
    }

    /// Whether a flip doesn't condemn the segment at `base`, which may refer to these zones.
    fn may_refer(&self, segs: &Segs, what: Condemn, zones: ZoneSet, base: Addr) -> bool
        requires { (t : Segment) × Contains segs.now.segments t × (t.base ≡ base.0) }
        ensures { (t : Segment) → Contains segs.now.segments t → t.base ≡ base.0
            → result ≡ may_refer self.now.formats self.now.chains what zones.0 segs.now t }
    {
        let segment = segs.segment(base);
        self.is_automatic(segment.pool)
            && !self.condemns(what, segment.pool, segment.generation)
            && segs.may_lead_to(base, zones)
    }

    /// The zones of a segment of a pool at `base`, if the blocks of the pool move; none if they don't.
    fn moving_zones(&self, pool: u32, base: Addr, grains: u32) -> u64
        ensures zones { result ≡ (if moves_blocks self.now.formats pool then zones_from grains (grain_of base.0) else 0) }
    {
        if self.moves_blocks(pool) {
            zones_of_grains(base.grain(), grains)
        } else {
            0
        }
    }

    /// Nails each condemned block that a word of an area pins, given the words of the area.
    pub(crate) fn nail_words(&self, segs: &mut Segs, words: &[Stored])
        requires { IsAscending 0 (words_of_grain * (segs.old.grains + 1)) segs.old.blocks }
        ensures { segs.new ≡ nailed_by_all self.now.formats words.now segs.old }
    {
        for index in 0..words.len() {
            self.nail_over(segs, words[index].word);
        }
    }

    /// Nails the condemned block that a word pins, if there is one.
    fn nail_over(&self, segs: &mut Segs, word: u64)
        requires { IsAscending 0 (words_of_grain * (segs.old.grains + 1)) segs.old.blocks }
        ensures state { segs.new ≡ nailed_by self.now.formats segs.old word }
    {
        let Some(at) = segs.block_at(word) else {
            return;
        };
        if self.pins(segs, word, at) {
            self.nail(segs, at);
        }
    }

    /// Whether a word in the block at `at` pins it: the block is condemned, and its pool moves its blocks or the word is its address.
    fn pins(&self, segs: &Segs, word: u64, at: Addr) -> bool
        ensures value { result ≡ pins self.now.formats segs.now word at.0 }
    {
        let Some(segment) = segment_at(segs, at) else {
            return false;
        };
        segment.is_condemned && (self.moves_blocks(segment.pool) || word == at.0)
    }
}

/// The zones of `grains` grains from one on.
fn zones_of_grains(first: usize, grains: u32) -> u64
    requires { first < 2 ^ 52 }
    ensures { result ≡ zones_from grains first }
{
    let mut zones = 0;
    let mut left = grains as usize;
    while left > 0 {
        left -= 1;
        zones = 1 << ((first + left) % 64) | zones;
    }
    zones
}

// How a collection begins, and how it ends.
#![tactic(auto)]

ghost use Rattle.std.specs.Prelude.{◌≡◌, ℕ, ◌+◌, ◌*◌, ◌^◌, ◌<◌, ◌≤◌, length, IfSome, IfNone};
ghost use Rattle.mps_base.specs.Address.{words_of_grain};
ghost use Rattle.mps_base.specs.Run.{IsAscending};
ghost use Rattle.mps_base.specs.Trail.{with_move};
ghost use Rattle.mps_base.specs.declared.moves.Move.TheVariants.{End};
ghost use Rattle.mps_buffer.specs.Points.{AreReserved};
ghost use Rattle.mps_buffer.specs.Points as buffer;
ghost use Rattle.mps_ld.specs.State as ld;
ghost use Rattle.mps_seg.specs.Collecting.{collected};
ghost use Rattle.mps_trace.specs.Trace.{traced};
ghost use Rattle.mps_trace.specs.Condemned.{AreInOrder};
ghost use Rattle.mps_trace.specs.Flip.{zones_at_flip};
ghost use Rattle.mps_trace.specs.Begin.{nailed_by_areas, marked_at_flip, Begins, EndsAtOnce, CanFixRoots};

use crate::running::{Band, Running};
use crate::{Condemn, Trace};
use mps_base::{Addr, Move, Trail};
use mps_buffer::OpenPoints;
use mps_final::Finals;
use mps_format::Format;
use mps_ld::Epochs;
use mps_root::Roots;
use mps_seg::Segs;

impl<F: Format> Trace<F> {
    /// Begins a collection: the flip, then the blocks that area words pin are nailed, those that aren't condemned and may refer to what
    /// is become grey, and slots and messages are fixed. None if nothing is condemned: the collection has ended.
    pub fn begin(
        &mut self,
        segs: &mut Segs,
        trail: &mut Trail,
        roots: &mut Roots,
        points: &mut OpenPoints,
        finals: &mut Finals,
        epochs: &mut Epochs,
        what: Condemn,
    ) -> Option<Running>
        requires ordered { AreInOrder segs.old }
        requires blocks { IsAscending 0 (words_of_grain * (segs.old.grains + 1)) segs.old.blocks }
        requires few_flips { points.old.flips < 2 ^ 63 }
        requires few_epochs { epochs.old.count < 2 ^ 63 }
        requires reserved { AreReserved points.old.flips points.old.points segs.old }
        requires fits { 1 < trail.old.spare }
        requires can { CanFixRoots F.layout self.old roots.old finals.old
            (marked_at_flip self.old.formats self.old.chains what points.old roots.old (traced self.old segs.old trail.old)) }
        ensures begun { IfSome result (λ run. Begins F.layout self.old.formats self.old.chains what points.old roots.old finals.old
            (traced self.old segs.old trail.old) roots.new finals.new (traced self.new segs.new trail.new) run) }
        ensures ended { IfNone result (EndsAtOnce self.old.formats self.old.chains what points.old roots.old finals.old
            (traced self.old segs.old trail.old) roots.new finals.new (traced self.new segs.new trail.new)) }
        ensures unchanged { self.new ≡ record self.old { amc = self.new.amc } }
        ensures points { points.new ≡ buffer.points_after_flip points.old }
        ensures epochs { epochs.new
            ≡ ld.epochs_after_flip epochs.old (zones_at_flip self.old.formats self.old.chains what segs.old.segments) }
    {
        let condemned = self.flip(segs, trail, points, epochs, what);
        if condemned.segments == 0 {
            end(segs, trail);
            return None;
        }
        let registered_before = finals.registered();
        self.nail_areas(segs, roots);
        self.remember(segs, what, condemned.zones);
        self.fix_slots(segs, trail, roots);
        self.fix_messages(segs, trail, finals);
        Some(Running {
            band: Band::Exact,
            cursor: Addr(0),
            next: 0,
            registered_before,
        })
    }

    /// Nails each condemned block that a word of an area pins.
    fn nail_areas(&self, segs: &mut Segs, roots: &Roots)
        requires { IsAscending 0 (words_of_grain * (segs.old.grains + 1)) segs.old.blocks }
        ensures { segs.new ≡ nailed_by_areas self.now.formats roots.now.areas segs.old }
    {
        for key in 0..roots.area_keys() {
            if let Some(words) = roots.words(key) {
                self.nail_words(segs, words);
            }
        }
    }
}

/// The collection is over: nothing is condemned, kept or grey, and the end is logged.
pub(crate) fn end(segs: &mut Segs, trail: &mut Trail)
    requires { 0 < trail.old.spare }
    ensures state { segs.new ≡ collected segs.old }
    ensures moves { trail.new ≡ with_move trail.old End }
{
    segs.end_collection();
    trail.push(Move::End);
}

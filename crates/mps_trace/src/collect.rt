// A whole collection.
#![tactic(auto)]

ghost use Rattle.std.specs.Prelude.{◌≡◌, ◌^◌, ◌<◌, ◌≤◌};
ghost use Rattle.mps_base.specs.Address.{max_grains};
ghost use Rattle.mps_buffer.specs.Points as buffer;
ghost use Rattle.mps_ld.specs.State as ld;
ghost use Rattle.mps_trace.specs.Collect.{CanCollect, Collects, most_moves, most_units};
ghost use Rattle.mps_trace.specs.Flip.{moving_of, zones_of};
ghost use Rattle.mps_trace.specs.Trace.{traced};

use crate::{Condemn, Trace};
use mps_base::{Trail, WORDS_OF_GRAIN};
use mps_buffer::OpenPoints;
use mps_final::Finals;
use mps_format::Format;
use mps_ld::Epochs;
use mps_root::Roots;
use mps_seg::Segs;

impl<F: Format> Trace<F> {
    /// Collects everything: it begins, and does units until it ends, which it does within `most` of them.
    pub fn collect(
        &mut self,
        segs: &mut Segs,
        trail: &mut Trail,
        roots: &mut Roots,
        points: &mut OpenPoints,
        finals: &mut Finals,
        epochs: &mut Epochs,
        most: u64,
    )
        requires few_flips { points.old.flips < 2 ^ 63 }
        requires few_epochs { epochs.old.count < 2 ^ 63 }
        requires can { CanCollect F.layout self.old points.old roots.old finals.old segs.old trail.old most }
        ensures collected { Collects F.layout self.old.formats self.old.chains points.old roots.old finals.old
            (traced self.old segs.old trail.old) most roots.new finals.new (traced self.new segs.new trail.new) }
        ensures unchanged { self.new ≡ record self.old { amc = self.new.amc } }
        ensures points { points.new ≡ buffer.points_after_flip points.old }
        ensures epochs { epochs.new ≡ ld.epochs_after_flip epochs.old (zones_of (moving_of self.old.formats segs.old.segments)) }
    {
        let Some(running) = self.begin(
            segs,
            trail,
            roots,
            points,
            finals,
            epochs,
            Condemn::Everything,
        ) else {
            return;
        };
        let None = self.finish(segs, trail, finals, running, most) else {
            unreachable!()
        };
    }
}

/// The most moves of a full collection in an arena of these grains: two for each word.
pub fn most_moves(grains: u32) -> u32
    requires at_most { grains ≤ max_grains }
    ensures value { result ≡ most_moves grains }
{
    2 * (WORDS_OF_GRAIN as u32 * grains)
}

/// The most units of a full collection in an arena of these grains, with n registrations.
pub fn most_units(grains: u32, registrations: u32) -> u64
    requires at_most { grains ≤ max_grains }
    ensures value { result ≡ most_units grains registrations }
{
    u64::from(WORDS_OF_GRAIN as u32 * (grains + 1))
        + u64::from(registrations)
        + u64::from(grains)
        + 1
}

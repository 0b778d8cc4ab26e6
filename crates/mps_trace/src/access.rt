// The read barrier: grey blocks of a segment are scanned before a block there is read.
#![tactic(auto)]

ghost use Rattle.std.specs.Prelude.{◌≡◌, ℕ, None, Some};
ghost use Rattle.mps_base.specs.Segment.{Segment, segment_over};
ghost use Rattle.mps_trace.specs.Access.{CanScanSegment, ScansSegment, CanSplatSegment, SplatsSegment, CanAccess, AccessesTo};
ghost use Rattle.mps_trace.specs.Trace.{traced};

use crate::Trace;
use crate::running::Band;
use mps_base::{Addr, Trail};
use mps_format::Format;
use mps_seg::Segs;

impl<F: Format> Trace<F> {
    /// The read barrier for a block at `at`, before a reference in it is read. The grey blocks of its segment are scanned until none of
    /// them is grey, those too that a scan moves into it. In the bands `Exact` and `Final` a weak block is scanned like any other. In
    /// `Weak` its references to white blocks become null. In `Reclaim`, and at an address in no segment, nothing is done.
    pub fn access(&mut self, segs: &mut Segs, trail: &mut Trail, band: Band, at: Addr)
        requires { (t : Segment) → segment_over segs.old.segments at.0 ≡ Some t
            → CanAccess F.layout band self.old segs.old trail.old t }
        ensures accessed { (t : Segment) → segment_over segs.old.segments at.0 ≡ Some t
            → AccessesTo F.layout self.old.formats self.old.chains band t (traced self.old segs.old trail.old)
            (traced self.new segs.new trail.new) }
        ensures unchanged { self.new ≡ record self.old { amc = self.new.amc } }
        ensures idle { segment_over segs.old.segments at.0 ≡ None
            → (segs.new ≡ segs.old) × (trail.new ≡ trail.old) × (self.new ≡ self.old) }
    {
        match band {
            Band::Exact | Band::Final => self.scan_segment(segs, trail, at),
            Band::Weak => self.splat_segment(segs, trail, at),
            Band::Reclaim => {}
        }
    }

    /// Scans the grey blocks of the segment over `at`, the lowest first, until none of them is grey.
    fn scan_segment(&mut self, segs: &mut Segs, trail: &mut Trail, at: Addr)
        requires { (t : Segment) → segment_over segs.old.segments at.0 ≡ Some t
            → CanScanSegment F.layout self.old segs.old trail.old t }
        ensures scanned { (t : Segment) → segment_over segs.old.segments at.0 ≡ Some t
            → ScansSegment F.layout self.old.formats self.old.chains t (traced self.old segs.old trail.old)
            (traced self.new segs.new trail.new) }
        ensures unchanged { self.new ≡ record self.old { amc = self.new.amc } }
        ensures idle { segment_over segs.old.segments at.0 ≡ None
            → (segs.new ≡ segs.old) × (trail.new ≡ trail.old) × (self.new ≡ self.old) }
    {
        let Some(base) = segs.segment_of(at) else {
            return;
        };
        for _ in 0..u64::MAX {
            let Some(grey) = segs.grey_in(base) else {
                return;
            };
            self.scan(segs, trail, grey);
        }
    }

    /// Scans the grey blocks of the segment over `at` as weak ones, the lowest first, until none of them is grey.
    fn splat_segment(&self, segs: &mut Segs, trail: &mut Trail, at: Addr)
        requires { (t : Segment) → segment_over segs.old.segments at.0 ≡ Some t
            → CanSplatSegment F.layout self.now segs.old trail.old t }
        ensures splatted { (t : Segment) → segment_over segs.old.segments at.0 ≡ Some t
            → SplatsSegment F.layout self.now.formats t (traced self.now segs.old trail.old) (traced self.now segs.new trail.new) }
        ensures idle { segment_over segs.old.segments at.0 ≡ None → (segs.new ≡ segs.old) × (trail.new ≡ trail.old) }
    {
        let Some(base) = segs.segment_of(at) else {
            return;
        };
        for _ in 0..u64::MAX {
            let Some(grey) = segs.grey_in(base) else {
                return;
            };
            self.splat(segs, trail, grey);
        }
    }
}

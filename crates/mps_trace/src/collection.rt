// The units of a running collection.
#![tactic(auto)]

ghost use Rattle.std.specs.Prelude.{◌≡◌, ℕ, true, false, IfSome, IfNone};
ghost use Rattle.mps_base.specs.declared.address.Addr.{Addr};
ghost use Rattle.mps_trace.specs.Trace.{traced};
ghost use Rattle.mps_final.specs.State.{FinalsState};
ghost use Rattle.mps_trace.specs.Examine.{IsNoneDue};
ghost use Rattle.mps_trace.specs.Scan.{IsDrained};
ghost use Rattle.mps_trace.specs.Splat.{HasNoMark};
ghost use Rattle.mps_trace.specs.Unit.{CanReclaimNext, CanUnit, AreUnitsReady, UnitTo, LastUnitTo, UnitsTo, EndsWithin};

use crate::Trace;
use crate::begin::end;
use crate::finding::next_condemned;
use crate::running::{Band, Running};
use mps_base::{Addr, Trail};
use mps_final::Finals;
use mps_format::Format;
use mps_seg::Segs;

impl<F: Format> Trace<F> {
    /// One unit of a running collection, in constant time but for what it scans or reclaims. A grey block that isn't weak is scanned. Once
    /// there is none the next registration is examined, then weak grey blocks are scanned, and then the lowest condemned segment from the
    /// cursor on is reclaimed. None if that was the last one: the collection has ended.
    #[inline(always)]
    pub fn unit(
        &mut self,
        segs: &mut Segs,
        trail: &mut Trail,
        finals: &mut Finals,
        running: Running,
    ) -> Option<Running>
        requires { CanUnit F.layout self.old segs.old trail.old finals.old running }
        ensures goes_on { IfSome result (λ next. UnitTo F.layout self.old.formats self.old.chains (traced self.old segs.old trail.old)
            finals.old running (traced self.new segs.new trail.new) finals.new next) }
        ensures ended { IfNone result (LastUnitTo F.layout self.old.formats (traced self.old segs.old trail.old) running
            (traced self.new segs.new trail.new) × (finals.new ≡ finals.old)) }
        ensures unchanged { self.new ≡ record self.old { amc = self.new.amc } }
    {
        let mut next = running;
        if self.advance(segs, trail, finals, &mut next) {
            Some(next)
        } else {
            None
        }
    }

    /// One unit, which brings up to date how far the collection is. False if the collection has ended.
    #[inline(always)]
    fn advance(
        &mut self,
        segs: &mut Segs,
        trail: &mut Trail,
        finals: &mut Finals,
        running: &mut Running,
    ) -> bool
        requires { CanUnit F.layout self.old segs.old trail.old finals.old running.old }
        ensures goes_on { result ≡ true → UnitTo F.layout self.old.formats self.old.chains (traced self.old segs.old trail.old)
            finals.old running.old (traced self.new segs.new trail.new) finals.new running.new }
        ensures ended { result ≡ false → LastUnitTo F.layout self.old.formats (traced self.old segs.old trail.old) running.old
            (traced self.new segs.new trail.new) × (finals.new ≡ finals.old) }
        ensures unchanged { self.new ≡ record self.old { amc = self.new.amc } }
    {
        if self.scan_next(segs, trail) {
            return true;
        }
        self.advance_once_drained(segs, trail, finals, running)
    }

    /// As `advance`, once no block is grey but weak ones.
    #[cold]
    #[inline(never)]
    fn advance_once_drained(
        &mut self,
        segs: &mut Segs,
        trail: &mut Trail,
        finals: &mut Finals,
        running: &mut Running,
    ) -> bool
        requires drained { IsDrained segs.old }
        requires can { CanUnit F.layout self.old segs.old trail.old finals.old running.old }
        ensures goes_on { result ≡ true → UnitTo F.layout self.old.formats self.old.chains (traced self.old segs.old trail.old)
            finals.old running.old (traced self.new segs.new trail.new) finals.new running.new }
        ensures ended { result ≡ false → LastUnitTo F.layout self.old.formats (traced self.old segs.old trail.old) running.old
            (traced self.new segs.new trail.new) × (finals.new ≡ finals.old) }
        ensures unchanged { self.new ≡ record self.old { amc = self.new.amc } }
    {
        match self.unit_once_drained(segs, trail, finals, *running) {
            Some(next) => {
                *running = next;
                true
            }
            None => false,
        }
    }

    /// One unit once no block is grey but weak ones.
    fn unit_once_drained(
        &mut self,
        segs: &mut Segs,
        trail: &mut Trail,
        finals: &mut Finals,
        running: Running,
    ) -> Option<Running>
        requires drained { IsDrained segs.old }
        requires can { CanUnit F.layout self.old segs.old trail.old finals.old running }
        ensures goes_on { IfSome result (λ next. UnitTo F.layout self.old.formats self.old.chains (traced self.old segs.old trail.old)
            finals.old running (traced self.new segs.new trail.new) finals.new next) }
        ensures ended { IfNone result (LastUnitTo F.layout self.old.formats (traced self.old segs.old trail.old) running
            (traced self.new segs.new trail.new) × (finals.new ≡ finals.old)) }
        ensures unchanged { self.new ≡ record self.old { amc = self.new.amc } }
    {
        if running.next < running.registered_before {
            return Some(self.examine_next(segs, trail, finals, running));
        }
        if self.splat_next(segs, trail) {
            return Some(Running {
                band: Band::Weak,
                ..running
            });
        }
        self.reclaim_next(segs, trail, running)
    }

    /// Reclaims the lowest condemned segment from the cursor on, once nothing else is due; None if that ends the collection.
    fn reclaim_next(&self, segs: &mut Segs, trail: &mut Trail, running: Running) -> Option<Running>
        requires scanned { HasNoMark segs.old }
        requires examined { IsNoneDue running }
        requires can { CanReclaimNext F.layout self.now segs.old trail.old running }
        ensures goes_on { IfSome result (λ next. (finals : FinalsState) → UnitTo F.layout self.now.formats self.now.chains
            (traced self.now segs.old trail.old) finals running (traced self.now segs.new trail.new) finals next) }
        ensures ended { IfNone result (LastUnitTo F.layout self.now.formats (traced self.now segs.old trail.old) running
            (traced self.now segs.new trail.new)) }
    {
        let Some(base) = next_condemned(segs, running.cursor) else {
            unreachable!()
        };
        let cursor = Addr(base.0 + 1);
        let left = next_condemned(segs, cursor);
        self.reclaim(segs, trail, base);
        if let Some(_) = left {
            return Some(Running {
                band: Band::Reclaim,
                cursor,
                ..running
            });
        }
        end(segs, trail);
        None
    }

    /// At most n units. None if the collection has ended.
    pub fn finish(
        &mut self,
        segs: &mut Segs,
        trail: &mut Trail,
        finals: &mut Finals,
        running: Running,
        most: u64,
    ) -> Option<Running>
        requires { AreUnitsReady F.layout self.old segs.old trail.old finals.old running most }
        ensures goes_on { IfSome result (λ next. UnitsTo F.layout self.old.formats self.old.chains (traced self.old segs.old trail.old)
            finals.old running most (traced self.new segs.new trail.new) finals.new next) }
        ensures ended { IfNone result (EndsWithin F.layout self.old.formats self.old.chains (traced self.old segs.old trail.old)
            finals.old running most (traced self.new segs.new trail.new) finals.new) }
        ensures unchanged { self.new ≡ record self.old { amc = self.new.amc } }
    {
        let mut running = running;
        for _ in 0..most {
            if !self.advance(segs, trail, finals, &mut running) {
                return None;
            }
        }
        Some(running)
    }
}

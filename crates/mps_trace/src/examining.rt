// The examination of a registration.
#![tactic(auto)]

ghost use Rattle.std.specs.Prelude.{◌≡◌, ℕ, ◌<◌, length};
ghost use Rattle.mps_trace.specs.Examine.{IsOneDue, CanExamineNext};
ghost use Rattle.mps_trace.specs.Scan.{IsDrained};
ghost use Rattle.mps_trace.specs.Trace.{traced};
ghost use Rattle.mps_trace.specs.Unit.{UnitTo};

use crate::Trace;
use crate::running::{Band, Running};
use mps_base::{Move, Trail};
use mps_final::Finals;
use mps_format::Format;
use mps_seg::Segs;

impl<F: Format> Trace<F> {
    /// Examines the next registration. If its block is found it has the address where that lies now, else that is kept, with a message.
    pub(crate) fn examine_next(
        &mut self,
        segs: &mut Segs,
        trail: &mut Trail,
        finals: &mut Finals,
        running: Running,
    ) -> Running
        requires drained { IsDrained segs.old }
        requires due { IsOneDue running }
        requires can { CanExamineNext F.layout self.old segs.old trail.old finals.old running }
        ensures examined { UnitTo F.layout self.old.formats self.old.chains (traced self.old segs.old trail.old) finals.old running
            (traced self.new segs.new trail.new) finals.new result }
        ensures unchanged { self.new ≡ record self.old { amc = self.new.amc } }
    {
        let position = running.next;
        let at = finals.at(position);
        match self.find(segs, at) {
            Some(to) => {
                finals.set(position, to);
                Running {
                    band: Band::Final,
                    next: position + 1,
                    ..running
                }
            }
            None => {
                let to = self.keep(segs, trail, at);
                finals.set(position, to);
                finals.post(position);
                trail.push(Move::Post { at: to });
                Running {
                    band: Band::Final,
                    registered_before: running.registered_before - 1,
                    ..running
                }
            }
        }
    }
}

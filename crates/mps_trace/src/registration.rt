// The registration of a block.
#![tactic(auto)]

ghost use Rattle.std.specs.Prelude.{◌≡◌};
ghost use Rattle.mps_trace.specs.Finding.{CanFind};
ghost use Rattle.mps_trace.specs.Registration.{AreFindable, FindsRegistration, LeadsTo};

use crate::Trace;
use mps_base::Addr;
use mps_final::Finals;
use mps_format::Format;
use mps_seg::Segs;

impl<F: Format> Trace<F> {
    /// Where the block lies now to which an address leads, also if it is white.
    fn follow(&self, segs: &Segs, from: Addr) -> Addr
        requires { CanFind F.layout self.now.formats segs.now from }
        ensures { LeadsTo F.layout self.now.formats segs.now from.0 result.0 }
    {
        self.find(segs, from).unwrap_or(from)
    }

    /// The position of the first registration of the block that lies at an address now; None if it has none. A registration that a
    /// running collection hasn't examined has the address that its block had at the flip.
    pub fn registration_of(&self, segs: &Segs, finals: &mut Finals, at: Addr) -> Option<usize>
        requires { AreFindable F.layout self.now.formats segs.now finals.old.registered }
        ensures unchanged { finals.new ≡ finals.old }
        ensures found { FindsRegistration F.layout self.now.formats segs.now finals.old.registered at.0 result }
    {
        for position in 0..finals.registered() {
            let from = finals.at(position);
            if self.follow(segs, from).0 == at.0 {
                return Some(position);
            }
        }
        None
    }
}

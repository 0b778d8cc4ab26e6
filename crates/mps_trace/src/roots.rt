// The roots at a flip: slots and messages lead to where blocks then lie.
#![tactic(auto)]

ghost use Rattle.std.specs.Prelude.{◌≡◌, ℕ, ◌<◌, length};
ghost use Rattle.mps_root.specs.State.{items_of, HasItem};
ghost use Rattle.mps_trace.specs.Trace.{traced};
ghost use Rattle.mps_trace.specs.Roots.{CanFixRoot, FixesRoot, AreSlotsReady, FixesTable, AreTablesReady, FixesTables, AreMessagesReady, FixesMessages};

use crate::Trace;
use mps_base::{Addr, Trail};
use mps_final::Finals;
use mps_format::Format;
use mps_root::Roots;
use mps_seg::Segs;

impl<F: Format> Trace<F> {
    /// Where the block lies from now on to which a root with this address leads; 0 if it is null.
    fn fix_root(&mut self, segs: &mut Segs, trail: &mut Trail, at: u64) -> u64
        requires { CanFixRoot F.layout self.old segs.old trail.old at }
        ensures fixed { FixesRoot F.layout self.old.formats self.old.chains (traced self.old segs.old trail.old) at
            (traced self.new segs.new trail.new) result }
        ensures unchanged { self.new ≡ record self.old { amc = self.new.amc } }
    {
        if at == 0 {
            return 0;
        }
        self.fix(segs, trail, Addr(at)).0
    }

    /// Fixes the slots of the table under a key, in ascending order.
    fn fix_table(&mut self, segs: &mut Segs, trail: &mut Trail, roots: &mut Roots, key: usize)
        requires { AreSlotsReady F.layout self.old segs.old trail.old key roots.old }
        ensures fixed { FixesTable F.layout self.old.formats self.old.chains key roots.old (traced self.old segs.old trail.old)
            roots.new (traced self.new segs.new trail.new) }
        ensures unchanged { self.new ≡ record self.old { amc = self.new.amc } }
        ensures order { roots.new.order ≡ roots.old.order }
    {
        for index in 0..slots_of(roots, key) {
            let at = roots.slot(key, index);
            let to = self.fix_root(segs, trail, at);
            roots.set_slot(key, index, to);
        }
    }

    /// Fixes the slots of all tables, table by table in the order in which they were made.
    pub(crate) fn fix_slots(&mut self, segs: &mut Segs, trail: &mut Trail, roots: &mut Roots)
        requires { AreTablesReady F.layout self.old segs.old trail.old roots.old }
        ensures fixed { FixesTables F.layout self.old.formats self.old.chains roots.old (traced self.old segs.old trail.old)
            (length roots.old.order) roots.new (traced self.new segs.new trail.new) }
        ensures unchanged { self.new ≡ record self.old { amc = self.new.amc } }
        ensures order { roots.new.order ≡ roots.old.order }
    {
        for index in 0..roots.order().len() {
            let key = roots.order()[index];
            self.fix_table(segs, trail, roots, key);
        }
    }

    /// Fixes the messages that wait, in order.
    pub(crate) fn fix_messages(&mut self, segs: &mut Segs, trail: &mut Trail, finals: &mut Finals)
        requires { AreMessagesReady F.layout self.old segs.old trail.old finals.old }
        ensures fixed { FixesMessages F.layout self.old.formats self.old.chains finals.old (traced self.old segs.old trail.old)
            (length finals.old.messages) finals.new (traced self.new segs.new trail.new) }
        ensures unchanged { self.new ≡ record self.old { amc = self.new.amc } }
    {
        for position in 0..finals.messages() {
            let at = finals.message(position).0;
            let to = self.fix_root(segs, trail, at);
            finals.set_message(position, Addr(to));
        }
    }
}

/// How many slots the table under a key has, 0 if there is none.
fn slots_of(roots: &Roots, key: usize) -> usize
    ensures count { result ≡ length (items_of roots.now.tables key) }
    ensures listed { (index : ℕ) → index < result → HasItem roots.now.tables key index }
{
    match roots.slots(key) {
        Some(slots) => slots.len(),
        None => 0,
    }
}

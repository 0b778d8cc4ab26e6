// Holders and their dependents.
#![tactic(auto)]

ghost use Rattle.std.specs.Prelude.{[], ◌≡◌};
ghost use Rattle.mps_model.specs.declared.call.Call.TheVariants as call;
ghost use Rattle.mps_refinement.specs.RightStep.{IsRight};
ghost use Rattle.mps_refinement.specs.Answering.{answer_to, says_ok};

use super::Heap;
use mps_base::{Refusal, Slot};
use mps_format::Format;
use mps_heap_depending::pairing;

impl<F: Format> Heap<F> {
    /// Gives the object in a slot, a weak one, the one in another as its dependent, in place of an earlier one. Where a collection sets a
    /// reference of the holder to null, it sets the reference of the same number in the dependent to null too, which keeps its tag. A
    /// pair keeps nothing alive, and ends with either object; several holders may share a dependent. Refuses as `addr` does for both
    /// slots, `WrongPool` if the holder isn't weak, or the dependent is weak or of another kind of pool than AWL, and `TooMany` if the
    /// holder has no dependent and there are 1,024 pairs.
    pub fn depend(&mut self, holder: Slot, dependent: Slot) -> Result<(), Refusal>
        ensures right { IsRight F.layout self.old (call.Depend holder dependent) [] (answer_to says_ok result) self.new }
        ensures grains { self.new.segs.grains ≡ self.old.segs.grains }
        ensures keys { self.new.names.keys ≡ self.old.names.keys }
    {
        pairing::depend(&mut self.state, holder, dependent)
    }

    /// Takes its dependent from the object in a slot. Refuses as `addr` does, and `NotLinked` if it has none.
    pub fn undepend(&mut self, holder: Slot) -> Result<(), Refusal>
        ensures right { IsRight F.layout self.old (call.Undepend holder) [] (answer_to says_ok result) self.new }
        ensures grains { self.new.segs.grains ≡ self.old.segs.grains }
        ensures keys { self.new.names.keys ≡ self.old.names.keys }
    {
        pairing::undepend(&mut self.state, holder)
    }
}

// Finalization.
#![tactic(auto)]

ghost use Rattle.std.specs.Prelude.{[], ◌≡◌};
ghost use Rattle.mps_model.specs.declared.call.Call.TheVariants as call;
ghost use Rattle.mps_refinement.specs.RightStep.{IsRight};
ghost use Rattle.mps_refinement.specs.Answering.{answer_to, says_message, says_ok};

use super::Heap;
use mps_base::{Refusal, Slot};
use mps_format::Format;
use mps_heap_code::finalizing;

impl<F: Format> Heap<F> {
    /// Registers the object in a slot for finalization once more. Refuses `TooMany` if there are 65,536 registrations and messages.
    pub fn finalize(&mut self, slot: Slot) -> Result<(), Refusal>
        ensures right { IsRight F.layout self.old (call.Finalize slot) [] (answer_to says_ok result) self.new }
        ensures grains { self.new.segs.grains ≡ self.old.segs.grains }
        ensures keys { self.new.names.keys ≡ self.old.names.keys }
    {
        finalizing::finalize(&mut self.state, slot)
    }

    /// Takes away the earliest registration of the object in a slot. Refuses `NotRegistered` if it has none.
    pub fn definalize(&mut self, slot: Slot) -> Result<(), Refusal>
        ensures right { IsRight F.layout self.old (call.Definalize slot) [] (answer_to says_ok result) self.new }
        ensures grains { self.new.segs.grains ≡ self.old.segs.grains }
        ensures keys { self.new.names.keys ≡ self.old.names.keys }
    {
        finalizing::definalize(&mut self.state, slot)
    }

    /// A slot becomes the object of the first message, which is taken; false if none waits, and then the slot stays.
    pub fn message(&mut self, slot: Slot) -> Result<bool, Refusal>
        ensures right { IsRight F.layout self.old (call.Message slot) [] (answer_to says_message result) self.new }
        ensures grains { self.new.segs.grains ≡ self.old.segs.grains }
        ensures keys { self.new.names.keys ≡ self.old.names.keys }
    {
        finalizing::message(&mut self.state, slot)
    }
}

// Labels of the log.
#![tactic(auto)]

ghost use Rattle.std.specs.Prelude.{[], ◌≡◌};
ghost use Rattle.mps_model.specs.declared.call.Call.TheVariants as call;
ghost use Rattle.mps_refinement.specs.RightStep.{IsRight};
ghost use Rattle.mps_refinement.specs.Answering.{answer_to, says_interned, says_labelled};

use super::Heap;
use mps_base::{Addr, Name, Refusal, Slot};
use mps_format::Format;
use mps_heap_labelling::labelling;

impl<F: Format> Heap<F> {
    /// Makes a label of any 16 bytes, and returns its number, that of the labels before it. It takes no memory, and stays as long as the
    /// heap. Refuses `NameTaken`, and `TooMany` if there are 256 labels.
    pub fn intern(&mut self, name: Name) -> Result<u32, Refusal>
        ensures right { IsRight F.layout self.old (call.Intern name) [] (answer_to says_interned result) self.new }
        ensures grains { self.new.segs.grains ≡ self.old.segs.grains }
        ensures keys { self.new.names.keys ≡ self.old.names.keys }
    {
        labelling::intern(&mut self.state, name)
    }

    /// The address of the object in a slot and the number of a label, as the record of a log has them. Refuses as `addr` does, and then
    /// `BadName` if the name is no label's.
    pub fn label(&self, slot: Slot, name: Name) -> Result<(Addr, u32), Refusal>
        ensures right { IsRight F.layout self.now (call.Label slot name) [] (answer_to says_labelled result) self.now }
    {
        labelling::label(&self.state, slot, name)
    }
}

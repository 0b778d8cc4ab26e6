// Areas, whose words may lie in objects.
#![tactic(auto)]

ghost use Rattle.std.specs.Prelude.{[], ◌≡◌};
ghost use Rattle.mps_model.specs.declared.call.Call.TheVariants as call;
ghost use Rattle.mps_refinement.specs.RightStep.{IsRight};
ghost use Rattle.mps_refinement.specs.Answering.{answer_to, says_block, says_ok, says_word};

use super::Heap;
use mps_base::{Refusal, Slot};
use mps_format::Format;
use mps_heap_access::areas;

impl<F: Format> Heap<F> {
    /// Stores a word in an area, and says whether it holds an object from now on: one in which the word lies.
    pub fn poke(&mut self, place: Slot, word: u64) -> Result<bool, Refusal>
        ensures right { IsRight F.layout self.old (call.Poke place word) [] (answer_to says_block result) self.new }
        ensures grains { self.new.segs.grains ≡ self.old.segs.grains }
        ensures keys { self.new.names.keys ≡ self.old.names.keys }
    {
        areas::poke(&mut self.state, place, word)
    }

    /// A word of an area.
    pub fn peek(&self, place: Slot) -> Result<u64, Refusal>
        ensures right { IsRight F.layout self.now (call.Peek place) [] (answer_to says_word result) self.now }
    {
        areas::peek(&self.state, place)
    }

    /// Stores the address of the object in a slot in an area, where it holds the object.
    pub fn pin(&mut self, place: Slot, slot: Slot) -> Result<(), Refusal>
        ensures right { IsRight F.layout self.old (call.Pin place slot) [] (answer_to says_ok result) self.new }
        ensures grains { self.new.segs.grains ≡ self.old.segs.grains }
        ensures keys { self.new.names.keys ≡ self.old.names.keys }
    {
        areas::pin(&mut self.state, place, slot)
    }

    /// A slot becomes the object that a word of an area holds. Refuses `NotARef` if it holds none.
    pub fn take(&mut self, slot: Slot, place: Slot) -> Result<(), Refusal>
        ensures right { IsRight F.layout self.old (call.Take slot place) [] (answer_to says_ok result) self.new }
        ensures grains { self.new.segs.grains ≡ self.old.segs.grains }
        ensures keys { self.new.names.keys ≡ self.old.names.keys }
    {
        areas::take(&mut self.state, slot, place)
    }
}

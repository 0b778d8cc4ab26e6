// Location dependencies.
#![tactic(auto)]

ghost use Rattle.std.specs.Prelude.{[], ◌≡◌};
ghost use Rattle.mps_model.specs.declared.call.Call.TheVariants as call;
ghost use Rattle.mps_refinement.specs.RightStep.{IsRight};
ghost use Rattle.mps_refinement.specs.Answering.{answer_to, says_bool, says_ok};
ghost use Rattle.mps_refinement.specs.Making.{IsRightMaking};

use super::Heap;
use mps_base::{Name, Refusal, Slot};
use mps_format::Format;
use mps_heap_labelling::depending;
use mps_heap_making::making;
use mps_heap_making::results::without_key;

impl<F: Format> Heap<F> {
    /// Makes a dependency on nothing. Refuses `NameTaken`, `TooMany` if there are 256, and `OutOfMemory`.
    pub fn ld(&mut self, name: Name) -> Result<(), Refusal>
        ensures right { IsRightMaking F.layout self.old (call.Dependency name) result self.new }
        ensures grains { self.new.segs.grains ≡ self.old.segs.grains }
        ensures keys { self.new.names.keys ≡ self.old.names.keys }
    {
        without_key(making::ld(&mut self.state, name))
    }

    /// A dependency depends on nothing any more, as of now.
    pub fn ld_reset(&mut self, name: Name) -> Result<(), Refusal>
        ensures right { IsRight F.layout self.old (call.DependencyReset name) [] (answer_to says_ok result) self.new }
        ensures grains { self.new.segs.grains ≡ self.old.segs.grains }
        ensures keys { self.new.names.keys ≡ self.old.names.keys }
    {
        depending::ld_reset(&mut self.state, name)
    }

    /// A dependency depends on the address of the object in a slot too.
    pub fn ld_add(&mut self, name: Name, slot: Slot) -> Result<(), Refusal>
        ensures right { IsRight F.layout self.old (call.DependencyAdd name slot) [] (answer_to says_ok result) self.new }
        ensures grains { self.new.segs.grains ≡ self.old.segs.grains }
        ensures keys { self.new.names.keys ≡ self.old.names.keys }
    {
        depending::ld_add(&mut self.state, name, slot)
    }

    /// A dependency depends on what another depends on too.
    pub fn ld_merge(&mut self, name: Name, source: Name) -> Result<(), Refusal>
        ensures right { IsRight F.layout self.old (call.DependencyMerge name source) [] (answer_to says_ok result) self.new }
        ensures grains { self.new.segs.grains ≡ self.old.segs.grains }
        ensures keys { self.new.names.keys ≡ self.old.names.keys }
    {
        depending::ld_merge(&mut self.state, name, source)
    }

    /// Whether something on which a dependency depends may have moved since it was added.
    pub fn ld_stale(&self, name: Name) -> Result<bool, Refusal>
        ensures right { IsRight F.layout self.now (call.DependencyStale name) [] (answer_to says_bool result) self.now }
    {
        depending::ld_stale(&self.state, name)
    }
}

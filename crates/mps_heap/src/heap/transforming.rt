// Transforms.
#![tactic(auto)]

ghost use Rattle.std.specs.Prelude.{[], ◌≡◌};
ghost use Rattle.mps_model.specs.declared.call.Call.TheVariants as call;
ghost use Rattle.mps_refinement.specs.RightStep.{IsRight};
ghost use Rattle.mps_refinement.specs.Answering.{answer_to, says_bool, says_ok};
ghost use Rattle.mps_heap_spec.specs.Keyed.{AppliesKeys, DropsKeys};

use super::Heap;
use mps_base::{Name, Refusal, Slot};
use mps_format::Format;
use mps_heap_transforming::transforming;

impl<F: Format> Heap<F> {
    /// Makes a transform without pairs. It takes no memory. Refuses `NameTaken`, and `TooMany` if there are 16 transforms.
    pub fn transform(&mut self, x: Name) -> Result<(), Refusal>
        ensures right { IsRight F.layout self.old (call.Transform x) [] (answer_to says_ok result) self.new }
        ensures grains { self.new.segs.grains ≡ self.old.segs.grains }
        ensures keys { self.new.names.keys ≡ self.old.names.keys }
    {
        transforming::transform(&mut self.state, x)
    }

    /// Adds a pair to a transform: the old object in a slot, and the new one in another. A `start`, a `collect`, a `clamp` and a `release`
    /// take all pairs from all transforms. Refuses `BadName` if no transform has this name, then as `addr` does for both slots,
    /// `NotParked` if the arena isn't parked, `OldTwice` if the transform has a pair with this old object, and `TooMany` if there are 4,096
    /// pairs in all.
    pub fn transadd(&mut self, x: Name, s: Slot, t: Slot) -> Result<(), Refusal>
        ensures right { IsRight F.layout self.old (call.TransformAdd x s t) [] (answer_to says_ok result) self.new }
        ensures grains { self.new.segs.grains ≡ self.old.segs.grains }
        ensures keys { self.new.names.keys ≡ self.old.names.keys }
    {
        transforming::transadd(&mut self.state, x, s, t)
    }

    /// Drops a transform with its pairs. Its name is free again. Refuses `BadName` if no transform has this name.
    pub fn transdrop(&mut self, x: Name) -> Result<(), Refusal>
        ensures right { IsRight F.layout self.old (call.TransformDrop x) [] (answer_to says_ok result) self.new }
        ensures grains { self.new.segs.grains ≡ self.old.segs.grains }
        ensures keys { DropsKeys self.old.names.keys self.new.names.keys x result }
    {
        transforming::transdrop(&mut self.state, x)
    }

    /// Replaces the old objects of a transform by its new ones, all at once: each reference to an old one, in a slot or in an object of an
    /// automatic pool, weak or not, leads to its new one, and keeps its tag. The transform is dropped then, and the answer is true. If a
    /// word of an area lies in an old object nothing changes, and the answer is false. It takes no memory and moves nothing. Refuses
    /// `BadName` if no transform has this name, `NotParked` if the arena isn't parked, and `Open` if a point has a reservation that no
    /// flip ended.
    pub fn transapply(&mut self, x: Name) -> Result<bool, Refusal>
        ensures right { IsRight F.layout self.old (call.TransformApply x) [] (answer_to says_bool result) self.new }
        ensures grains { self.new.segs.grains ≡ self.old.segs.grains }
        ensures keys { AppliesKeys self.old.names.keys self.new.names.keys x result }
    {
        transforming::transapply(&mut self.state, x)
    }
}

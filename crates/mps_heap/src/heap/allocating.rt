// Objects are reserved, initialised and committed.
#![tactic(auto)]

ghost use Rattle.std.specs.Prelude.{[], ◌≡◌, ◌<◌, IsTrue};
ghost use Rattle.mps_model.specs.declared.call.Call.TheVariants as call;
ghost use Rattle.mps_refinement.specs.RightStep.{IsRight};
ghost use Rattle.mps_refinement.specs.Answering.{answer_to, says_committed, says_ok};
ghost use Rattle.mps_heap_spec.specs.Collecting.{can_collect};
ghost use Rattle.mps_refinement.specs.MovesNeeded.{moves_needed};
ghost use Rattle.mps_refinement.specs.RightMoving.{IsRightMoving, KeepsRoom};
ghost use Rattle.mps_refinement.specs.UnitsLeft.{ReservesWithin};

use super::Heap;
use mps_base::{Name, Refusal, Slot, Trail};
use mps_format::Format;
use mps_heap_allocating::allocating;
use mps_heap_spec::Committed;
use mps_heap_state::units;

impl<F: Format> Heap<F> {
    /// Reserves a block with this head at a point. Its numbers are 0 and its references null. Refuses `BadHead` if the pool takes no
    /// such block, `Open` if the point has an open reservation, and `CommitLimit` and `NoRun` if there is no room. If nothing that is held
    /// has a place for the block and the arena is unclamped, it polls first: a collection in progress does 64 units, and if none is one of
    /// the generation that is due begins. So one flip more can be counted, and the trail has room for more than `moves_needed`.
    #[inline(always)]
    pub fn reserve(&mut self, trail: &mut Trail, x: Name, head: u64) -> Result<(), Refusal>
        requires few_flips { IsTrue (can_collect self.old) }
        requires fits { moves_needed self.old.segs < trail.old.spare }
        ensures right { IsRightMoving F.layout self.old (call.Reserve x head) trail.old.moves trail.new.moves
            (answer_to says_ok result) self.new }
        ensures units { ReservesWithin self.old.running self.old self.new }
        ensures room { KeepsRoom trail.old trail.new }
        ensures grains { self.new.segs.grains ≡ self.old.segs.grains }
        ensures keys { self.new.names.keys ≡ self.old.names.keys }
    {
        units::is_whole(&self.state);
        allocating::reserve(&mut self.state, trail, x, head)
    }

    /// Writes a number into a cell of the open reservation of a point. Refuses `NotOpen`, `BadIndex` and `NotANumber`.
    pub fn init_num(&mut self, x: Name, cell: u64, n: u64) -> Result<(), Refusal>
        ensures right { IsRight F.layout self.old (call.InitNumber x cell n) [] (answer_to says_ok result) self.new }
        ensures grains { self.new.segs.grains ≡ self.old.segs.grains }
        ensures keys { self.new.names.keys ≡ self.old.names.keys }
    {
        allocating::init_num(&mut self.state, x, cell, n)
    }

    /// Writes what a slot has into a reference cell of the open reservation of a point. Refuses `NotOpen`, `BadIndex` and `NotARef`.
    pub fn init_ref(&mut self, x: Name, cell: u64, source: Slot) -> Result<(), Refusal>
        ensures right { IsRight F.layout self.old (call.InitReference x cell source) [] (answer_to says_ok result) self.new }
        ensures grains { self.new.segs.grains ≡ self.old.segs.grains }
        ensures keys { self.new.names.keys ≡ self.old.names.keys }
    {
        allocating::init_ref(&mut self.state, x, cell, source)
    }

    /// The open reservation of a point becomes an object, to which a slot then refers; or a flip came since, and the slot stays. Refuses
    /// `NotOpen`.
    #[inline(always)]
    pub fn commit(&mut self, trail: &mut Trail, x: Name, target: Slot) -> Result<Committed, Refusal>
        requires fits { 0 < trail.old.spare }
        ensures right { IsRightMoving F.layout self.old (call.Commit x target) trail.old.moves trail.new.moves
            (answer_to says_committed result) self.new }
        ensures room { KeepsRoom trail.old trail.new }
        ensures grains { self.new.segs.grains ≡ self.old.segs.grains }
        ensures keys { self.new.names.keys ≡ self.old.names.keys }
    {
        allocating::commit(&mut self.state, trail, x, target)
    }
}

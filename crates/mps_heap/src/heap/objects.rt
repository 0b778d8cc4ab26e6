// Slots and objects.
#![tactic(auto)]

ghost use Rattle.std.specs.Prelude.{[], ◌≡◌, ◌<◌, ◌≤◌};
ghost use Rattle.mps_model.specs.Tagging.{tag_count};
ghost use Rattle.mps_model.specs.declared.call.Call.TheVariants as call;
ghost use Rattle.mps_refinement.specs.MovesNeeded.{moves_needed};
ghost use Rattle.mps_refinement.specs.RightMoving.{IsRightMoving, KeepsRoom};
ghost use Rattle.mps_refinement.specs.UnitsLeft.{units_left};
ghost use Rattle.mps_refinement.specs.RightStep.{IsRight};
ghost use Rattle.mps_refinement.specs.Answering.{answer_to, says_bool, says_head, says_number, says_ok};
ghost use Rattle.mps_heap.specs.Answers.{says_address};

use super::Heap;
use mps_base::{Addr, Refusal, Slot, Trail};
use mps_format::Format;
use mps_heap_access::objects::{self, as_address};

impl<F: Format> Heap<F> {
    /// A slot becomes what another is.
    pub fn copy(&mut self, target: Slot, source: Slot) -> Result<(), Refusal>
        ensures right { IsRight F.layout self.old (call.Copy target source) [] (answer_to says_ok result) self.new }
        ensures grains { self.new.segs.grains ≡ self.old.segs.grains }
        ensures keys { self.new.names.keys ≡ self.old.names.keys }
    {
        objects::copy(&mut self.state, target, source)
    }

    /// A slot becomes null.
    pub fn clear(&mut self, slot: Slot) -> Result<(), Refusal>
        ensures right { IsRight F.layout self.old (call.Clear slot) [] (answer_to says_ok result) self.new }
        ensures grains { self.new.segs.grains ≡ self.old.segs.grains }
        ensures keys { self.new.names.keys ≡ self.old.names.keys }
    {
        objects::clear(&mut self.state, slot)
    }

    /// Whether two slots are both null or hold the same object.
    #[inline(always)]
    pub fn same(&self, slot: Slot, other: Slot) -> Result<bool, Refusal>
        ensures right { IsRight F.layout self.now (call.Same slot other) [] (answer_to says_bool result) self.now }
    {
        objects::same(&self.state, slot, other)
    }

    /// Whether a slot is null.
    #[inline(always)]
    pub fn is_null(&self, slot: Slot) -> Result<bool, Refusal>
        ensures right { IsRight F.layout self.now (call.Null slot) [] (answer_to says_bool result) self.now }
    {
        objects::is_null(&self.state, slot)
    }

    /// The head of the object in a slot. Refuses `NullRef` if the slot is null.
    #[inline(always)]
    pub fn head(&self, slot: Slot) -> Result<u64, Refusal>
        ensures right { IsRight F.layout self.now (call.Head slot) [] (answer_to says_head result) self.now }
    {
        objects::head(&self.state, slot)
    }

    /// The address of the object in a slot. The object stays there until the next flip.
    #[inline(always)]
    pub fn addr(&self, slot: Slot) -> Result<Addr, Refusal>
        ensures right { IsRight F.layout self.now (call.Address slot) [] (answer_to says_address result) self.now }
    {
        as_address(objects::addr(&self.state, slot))
    }

    /// The number in a cell of the object in a slot. Refuses `NullRef`, `BadIndex` past the last cell, and `NotANumber` if the cell is a
    /// reference or the head.
    #[inline(always)]
    pub fn num(&self, slot: Slot, cell: u64) -> Result<u64, Refusal>
        ensures right { IsRight F.layout self.now (call.Number slot cell) [] (answer_to says_number result) self.now }
    {
        objects::num(&self.state, slot, cell)
    }

    /// Writes a number into a cell of the object in a slot. Refuses as `num` does.
    pub fn set_num(&mut self, slot: Slot, cell: u64, n: u64) -> Result<(), Refusal>
        ensures right { IsRight F.layout self.old (call.SetNumber slot cell n) [] (answer_to says_ok result) self.new }
        ensures grains { self.new.segs.grains ≡ self.old.segs.grains }
        ensures keys { self.new.names.keys ≡ self.old.names.keys }
    {
        objects::set_num(&mut self.state, slot, cell, n)
    }

    /// A slot becomes what a cell of the object in another slot refers to. If a collection runs, its read barrier comes first: it scans
    /// what is still to be scanned in the segment of the object, and objects may move in that. The trail has room for `moves_needed`.
    /// Refuses `NullRef`, `BadIndex`, and `NotARef` if the cell is no reference.
    pub fn get(
        &mut self,
        trail: &mut Trail,
        target: Slot,
        source: Slot,
        cell: u64,
    ) -> Result<(), Refusal>
        requires fits { moves_needed self.old.segs ≤ trail.old.spare }
        ensures right { IsRightMoving F.layout self.old (call.Get target source cell) trail.old.moves trail.new.moves
            (answer_to says_ok result) self.new }
        ensures units { units_left self.new ≤ units_left self.old }
        ensures room { KeepsRoom trail.old trail.new }
        ensures grains { self.new.segs.grains ≡ self.old.segs.grains }
        ensures keys { self.new.names.keys ≡ self.old.names.keys }
    {
        objects::get(&mut self.state, trail, target, source, cell)
    }

    /// A cell of the object in a slot refers to what another slot has. Refuses as `get` does.
    pub fn put(&mut self, target: Slot, cell: u64, source: Slot) -> Result<(), Refusal>
        ensures right { IsRight F.layout self.old (call.Put target cell source) [] (answer_to says_ok result) self.new }
        ensures grains { self.new.segs.grains ≡ self.old.segs.grains }
        ensures keys { self.new.names.keys ≡ self.old.names.keys }
    {
        objects::put(&mut self.state, target, cell, source)
    }

    /// The tag of the reference in a cell of the object in a slot, 0 to 7. Refuses as `get` does.
    #[inline(always)]
    pub fn tag(&self, slot: Slot, cell: u64) -> Result<u8, Refusal>
        ensures right { IsRight F.layout self.now (call.Tag slot cell) [] (answer_to says_number result) self.now }
    {
        objects::tag(&self.state, slot, cell)
    }

    /// The reference in a cell of the object in a slot gets this tag, 0 to 7, and refers to what it did. Refuses as `get` does.
    pub fn set_tag(&mut self, slot: Slot, cell: u64, tag: u8) -> Result<(), Refusal>
        requires fits { tag < tag_count }
        ensures right { IsRight F.layout self.old (call.SetTag slot cell tag) [] (answer_to says_ok result) self.new }
        ensures grains { self.new.segs.grains ≡ self.old.segs.grains }
        ensures keys { self.new.names.keys ≡ self.old.names.keys }
    {
        objects::set_tag(&mut self.state, slot, cell, tag)
    }
}

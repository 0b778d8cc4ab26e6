// Manual blocks.
#![tactic(auto)]

ghost use Rattle.std.specs.Prelude.{[], ◌<◌, ◌≡◌};
ghost use Rattle.mps_model.specs.declared.call.Call.TheVariants as call;
ghost use Rattle.mps_refinement.specs.RightStep.{IsRight};
ghost use Rattle.mps_refinement.specs.Answering.{answer_to, says_number, says_ok};
ghost use Rattle.mps_refinement.specs.RightMoving.{IsRightMoving, KeepsRoom};

use super::Heap;
use mps_base::{Name, Refusal, Slot, Trail};
use mps_format::Format;
use mps_heap_manual::manual;

impl<F: Format> Heap<F> {
    /// Makes a manual block of `words` words, all 0, in a place. Refuses `WrongPool` if the pool is automatic, `BadSize` if it has no
    /// blocks of this size, `NameTaken` if the place has a block, and `CommitLimit` and `NoRun` if there is no room.
    pub fn alloc(
        &mut self,
        trail: &mut Trail,
        pool: Name,
        words: u64,
        place: Slot,
    ) -> Result<(), Refusal>
        requires fits { 1 < trail.old.spare }
        ensures right { IsRightMoving F.layout self.old (call.Alloc pool words place) trail.old.moves trail.new.moves
            (answer_to says_ok result) self.new }
        ensures room { KeepsRoom trail.old trail.new }
        ensures grains { self.new.segs.grains ≡ self.old.segs.grains }
        ensures keys { self.new.names.keys ≡ self.old.names.keys }
    {
        manual::alloc(&mut self.state, trail, pool, words, place)
    }

    /// Frees the block in a place, which is empty then. Refuses `NotABlock` if it was empty, and `WrongPool` if the block's pool is one of
    /// frames.
    pub fn free(&mut self, trail: &mut Trail, place: Slot) -> Result<(), Refusal>
        requires fits { 1 < trail.old.spare }
        ensures right { IsRightMoving F.layout self.old (call.Free place) trail.old.moves trail.new.moves
            (answer_to says_ok result) self.new }
        ensures room { KeepsRoom trail.old trail.new }
        ensures grains { self.new.segs.grains ≡ self.old.segs.grains }
        ensures keys { self.new.names.keys ≡ self.old.names.keys }
    {
        manual::free(&mut self.state, trail, place)
    }

    /// A word of the block in a place. Refuses `NotABlock`, and `BadIndex` past its last word.
    pub fn load(&self, place: Slot, word: u64) -> Result<u64, Refusal>
        ensures right { IsRight F.layout self.now (call.Load place word) [] (answer_to says_number result) self.now }
    {
        manual::load(&self.state, place, word)
    }

    /// Writes a word of the block in a place. Refuses as `load` does.
    pub fn store(&mut self, place: Slot, word: u64, n: u64) -> Result<(), Refusal>
        ensures right { IsRight F.layout self.old (call.Store place word n) [] (answer_to says_ok result) self.new }
        ensures grains { self.new.segs.grains ≡ self.old.segs.grains }
        ensures keys { self.new.names.keys ≡ self.old.names.keys }
    {
        manual::store(&mut self.state, place, word, n)
    }
}

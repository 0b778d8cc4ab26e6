// Pools of frames.
#![tactic(auto)]

ghost use Rattle.std.specs.Prelude.{[], ◌≡◌, ◌≤◌};
ghost use Rattle.mps_model.specs.declared.call.Call.TheVariants as call;
ghost use Rattle.mps_heap_spec.specs.Collect.{most_moves};
ghost use Rattle.mps_heap_spec.specs.Popping.{moves_of_pop};
ghost use Rattle.mps_refinement.specs.Answering.{answer_to, says_number, says_ok};
ghost use Rattle.mps_refinement.specs.Making.{IsRightMaking};
ghost use Rattle.mps_refinement.specs.RightMoving.{IsRightMoving, KeepsRoom};
ghost use Rattle.mps_refinement.specs.RightStep.{IsRight};

use super::Heap;
use mps_base::{Name, Refusal, Trail};
use mps_format::Format;
use mps_heap_framing::framing;
use mps_heap_making::making;
use mps_heap_making::results::without_key;

impl<F: Format> Heap<F> {
    /// Makes a manual pool of blocks of any sizes that are freed frame by frame: of stack-like frames. A block that is made while no frame
    /// is open is never freed. Refuses `NameTaken`, `TooMany` if there are 64 pools, and
    /// `OutOfMemory`.
    pub fn pool_snc(&mut self, name: Name) -> Result<(), Refusal>
        ensures right { IsRightMaking F.layout self.old (call.PoolFrames name) result self.new }
        ensures grains { self.new.segs.grains ≡ self.old.segs.grains }
        ensures keys { self.new.names.keys ≡ self.old.names.keys }
    {
        without_key(making::pool_snc(&mut self.state, name))
    }

    /// Opens a frame of a pool, and returns how many of it were open. Refuses `BadName` if there is no such pool, `WrongPool` if it isn't
    /// one of frames, and `TooMany` if 4,096 frames of all pools are open.
    pub fn push(&mut self, pool: Name) -> Result<u32, Refusal>
        ensures right { IsRight F.layout self.old (call.Push pool) [] (answer_to says_number result) self.new }
        ensures grains { self.new.segs.grains ≡ self.old.segs.grains }
        ensures keys { self.new.names.keys ≡ self.old.names.keys }
    {
        framing::push(&mut self.state, pool)
    }

    /// How many moves closing a frame needs room for: two for each block of the pool that was made since the frame was opened; 0 if `pop`
    /// is refused. They are no more than `most_moves`, since each block has a word of the arena.
    pub fn moves_of_pop(&self, pool: Name, frame: u64) -> u32
        ensures value { result ≡ moves_of_pop self.now pool frame }
        ensures at_most { result ≤ most_moves self.now.segs.grains }
    {
        framing::most_moves_of_pop(&self.state, pool, frame)
    }

    /// Closes a frame of a pool and those above it. All blocks that were made since it was opened are freed, the latest first, and their
    /// places are empty then. The segment of a block is given back directly after the free that empties it. A frame has the number that
    /// `push` returned. Refuses `BadName` if there is no such pool, `WrongPool` if it isn't one of frames, and `BadIndex` if no such frame
    /// is open. The trail has room for `moves_of_pop`.
    pub fn pop(&mut self, trail: &mut Trail, pool: Name, frame: u64) -> Result<(), Refusal>
        requires fits { moves_of_pop self.old pool frame ≤ trail.old.spare }
        ensures right { IsRightMoving F.layout self.old (call.Pop pool frame) trail.old.moves trail.new.moves
            (answer_to says_ok result) self.new }
        ensures room { KeepsRoom trail.old trail.new }
        ensures grains { self.new.segs.grains ≡ self.old.segs.grains }
        ensures keys { self.new.names.keys ≡ self.old.names.keys }
    {
        framing::pop(&mut self.state, trail, pool, frame)
    }
}

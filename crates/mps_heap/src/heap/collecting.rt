// Collections.
#![tactic(auto)]

ghost use Rattle.std.specs.Prelude.{◌≡◌, ◌*◌, ◌^◌, ◌≤◌, IsTrue};
ghost use Rattle.mps_model.specs.declared.call.Call.TheVariants as call;
ghost use Rattle.mps_model.specs.declared.reply.Reply.TheVariants as reply;
ghost use Rattle.mps_model.specs.Answer.{Replied};
ghost use Rattle.mps_heap_code.specs.Ticks.{HasTicked};
ghost use Rattle.mps_heap_spec.specs.Collecting.{can_collect, check_start, check_start_chain};
ghost use Rattle.mps_refinement.specs.Answering.{answer_to, says_ok, says_progress};
ghost use Rattle.mps_refinement.specs.RightMoving.{IsRightMoving, KeepsRoom};
ghost use Rattle.mps_refinement.specs.InWorlds.{SaysIfItCounts, SaysMostMoves};
ghost use Rattle.mps_refinement.specs.MovesNeeded.{moves_needed};
ghost use Rattle.mps_refinement.specs.UnitsLeft.{BeginsWithin, StepsDown, units_left};
ghost use Rattle.mps_heap_spec.specs.Collect.{most_moves};
ghost use Rattle.mps_heap_spec.specs.Popping.{moves_of_pop};

use super::Heap;
use mps_base::{Name, Refusal, Trail};
use mps_format::Format;
use mps_heap_code::steps::{self, Steps};
use mps_heap_code::{arena, collecting};
use mps_heap_spec::Progress;
use mps_heap_state::units;
use std::sync::ledger::Ledger;

impl<F: Format> Heap<F> {
    /// Whether the heap can collect everything: fewer than 2^63 collections came before.
    pub fn can_collect(&self) -> bool
        ensures value { result ≡ can_collect self.now }
        ensures right { SaysIfItCounts F.layout self.now result }
    {
        collecting::can_collect(&self.state)
    }

    /// How many moves a full collection makes at most, whatever comes to live in the arena: two for each word of it, 1,024 a grain. A
    /// trail with room for twice as many is enough for each call at any time. Closing a frame makes no more.
    pub fn most_moves(&self) -> u32
        ensures value { result ≡ most_moves self.now.segs.grains }
        ensures at_most { result ≤ 2 ^ 21 }
        ensures pops { (pool : _) (frame : _) → moves_of_pop self.now pool frame ≤ result }
        ensures right { SaysMostMoves F.layout self.now result }
    {
        collecting::most_moves(&self.state)
    }

    /// How many moves the next call needs room for if it collects: three for each word of a live block, two for each grain that is held,
    /// and six, and no more than `most_moves`. It costs no walk. What is made afterwards may need more.
    pub fn moves_needed(&self) -> u32
        ensures value { result ≡ moves_needed self.now.segs }
        ensures at_most { result ≤ most_moves self.now.segs.grains }
        ensures fits { result ≤ 2 ^ 21 }
    {
        collecting::moves_needed(&self.state)
    }

    /// Collects everything, and leaves the arena parked. What can be reached from slots, messages and words of areas stays; an object in
    /// which a word of an area lies stays where it is, and all others of copying pools are moved, if there is room. What is registered and
    /// isn't reached stays too, and becomes a message. References of weak objects to what is freed become null. A collection in progress is
    /// finished first, so the trail has room for twice `moves_needed`.
    pub fn collect(&mut self, trail: &mut Trail)
        requires built { IsTrue (can_collect self.old) }
        requires fits { 2 * moves_needed self.old.segs ≤ trail.old.spare }
        ensures right { IsRightMoving F.layout self.old call.Collect trail.old.moves trail.new.moves (Replied reply.Ok) self.new }
        ensures units { units_left self.new ≡ 0 }
        ensures room { KeepsRoom trail.old trail.new }
        ensures grains { self.new.segs.grains ≡ self.old.segs.grains }
        ensures keys { self.new.names.keys ≡ self.old.names.keys }
    {
        units::is_whole(&self.state);
        units::end_collection(&mut self.state, trail);
        units::is_whole(&self.state);
        collecting::collect(&mut self.state, trail);
    }

    /// Finishes the collection in progress, if there is one, and leaves the arena parked: it does nothing by itself. The trail has room for
    /// `moves_needed`.
    pub fn park(&mut self, trail: &mut Trail)
        requires fits { moves_needed self.old.segs ≤ trail.old.spare }
        ensures right { IsRightMoving F.layout self.old call.Park trail.old.moves trail.new.moves (Replied reply.Ok) self.new }
        ensures units { units_left self.new ≡ 0 }
        ensures room { KeepsRoom trail.old trail.new }
        ensures grains { self.new.segs.grains ≡ self.old.segs.grains }
        ensures keys { self.new.names.keys ≡ self.old.names.keys }
    {
        units::is_whole(&self.state);
        units::end_collection(&mut self.state, trail);
        arena::park(&mut self.state);
    }

    /// Begins a collection of everything: the flip alone, which moves what slots and messages hold, and no unit. The arena is unclamped
    /// then. Refuses `Running` if a collection is in progress. The trail has room for `moves_needed`.
    pub fn start(&mut self, trail: &mut Trail) -> Result<(), Refusal>
        requires few_flips { IsTrue (can_collect self.old) }
        requires fits { moves_needed self.old.segs ≤ trail.old.spare }
        ensures right { IsRightMoving F.layout self.old call.Start trail.old.moves trail.new.moves (answer_to says_ok result) self.new }
        ensures units { BeginsWithin (check_start self.old) self.old self.new }
        ensures room { KeepsRoom trail.old trail.new }
        ensures grains { self.new.segs.grains ≡ self.old.segs.grains }
        ensures keys { self.new.names.keys ≡ self.old.names.keys }
    {
        units::is_whole(&self.state);
        collecting::start(&mut self.state, trail)
    }

    /// Begins a collection of the generations of a chain up to one: the flip alone, as of `start`. The arena is unclamped then. Refuses
    /// `BadName` if no chain has this name, `BadIndex` if it has no such generation, and `Running` if a collection is in progress. The
    /// trail has room for `moves_needed`.
    pub fn start_chain(
        &mut self,
        trail: &mut Trail,
        chain: Name,
        generation: u64,
    ) -> Result<(), Refusal>
        requires few_flips { IsTrue (can_collect self.old) }
        requires fits { moves_needed self.old.segs ≤ trail.old.spare }
        ensures right { IsRightMoving F.layout self.old (call.StartChain chain generation) trail.old.moves trail.new.moves
            (answer_to says_ok result) self.new }
        ensures units { BeginsWithin (check_start_chain self.old chain generation) self.old self.new }
        ensures room { KeepsRoom trail.old trail.new }
        ensures grains { self.new.segs.grains ≡ self.old.segs.grains }
        ensures keys { self.new.names.keys ≡ self.old.names.keys }
    {
        units::is_whole(&self.state);
        collecting::start_chain(&mut self.state, trail, chain, generation)
    }

    /// Has the collection in progress do n units, or fewer if it ends in them, and says whether one is in progress then. An arena that is
    /// clamped or parked does none. Each unit ticks. The trail has room for `moves_needed`.
    pub fn step<L: Ledger>(&mut self, trail: &mut Trail, n: u64, steps: &mut Steps<L>) -> Progress
        requires fits { moves_needed self.old.segs ≤ trail.old.spare }
        ensures right { IsRightMoving F.layout self.old (call.Step n) trail.old.moves trail.new.moves (says_progress result) self.new }
        ensures units { StepsDown self.old n result self.new }
        ensures ticks { HasTicked self.old n result steps.old steps.new }
        ensures room { KeepsRoom trail.old trail.new }
        ensures grains { self.new.segs.grains ≡ self.old.segs.grains }
        ensures keys { self.new.names.keys ≡ self.old.names.keys }
    {
        units::is_whole(&self.state);
        steps::step(&mut self.state, trail, n, steps)
    }
}

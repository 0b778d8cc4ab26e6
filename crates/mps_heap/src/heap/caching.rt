// Allocation caches.
#![tactic(auto)]

ghost use Rattle.std.specs.Prelude.{[], ◌≡◌, ◌*◌, ◌<◌, ◌≤◌, ℕ, List, length, map, take};
ghost use Rattle.std.specs.List.{All};
ghost use Rattle.mps_model.specs.declared.call.Call.TheVariants as call;
ghost use Rattle.mps_sac.specs.State.{max_cached, max_cached_in_all, max_classes};
ghost use Rattle.mps_heap_spec.specs.Caching.{moves_of_flush};
ghost use Rattle.mps_refinement.specs.RightStep.{IsRight};
ghost use Rattle.mps_refinement.specs.Answering.{answer_to, says_ok};
ghost use Rattle.mps_refinement.specs.RightMoving.{IsRightMoving, KeepsRoom};

use super::Heap;
use mps_base::{Name, Refusal, Slot, Trail};
use mps_format::Format;
use mps_heap_caching::caching;
use mps_sac::ClassSize;

impl<F: Format> Heap<F> {
    /// Makes a cache over a pool of blocks of any sizes, with classes of these sizes, in words, and how many blocks each keeps at most.
    /// It takes no memory. Refuses `NameTaken`, `BadName` if there is no such pool, `WrongPool` if it hasn't blocks of any sizes or is one
    /// of frames, `BadSize` if the sizes don't rise or one isn't 1 to 65,536, and `TooMany` if there are 16 caches. The clause holds for
    /// all lists of sizes and limits that begin with those of the classes, as a call of the model has them.
    pub fn cache(&mut self, name: Name, pool: Name, classes: &[ClassSize]) -> Result<(), Refusal>
        requires few { length classes.now ≤ max_classes }
        requires limits { All (λ size. size.limit ≤ max_cached) classes.now }
        ensures right { (sizes limits : List ℕ) → take (length classes.now) sizes ≡ map (λ c. c.words) classes.now
            → take (length classes.now) limits ≡ map (λ c. c.limit) classes.now
            → IsRight F.layout self.old (call.Cache name pool (length classes.now) sizes limits) [] (answer_to says_ok result) self.new }
        ensures grains { self.new.segs.grains ≡ self.old.segs.grains }
        ensures keys { self.new.names.keys ≡ self.old.names.keys }
    {
        caching::cache(&mut self.state, name, pool, classes)
    }

    /// Puts the block that was cached last in a cache's class of `words` words into a place, with all words 0, or else a new block of the
    /// cache's pool. Refuses `BadName` if there is no such cache, and then as `alloc` does.
    pub fn calloc(
        &mut self,
        trail: &mut Trail,
        cache: Name,
        words: u64,
        place: Slot,
    ) -> Result<(), Refusal>
        requires fits { 1 < trail.old.spare }
        ensures right { IsRightMoving F.layout self.old (call.CacheAlloc cache words place) trail.old.moves trail.new.moves
            (answer_to says_ok result) self.new }
        ensures room { KeepsRoom trail.old trail.new }
        ensures grains { self.new.segs.grains ≡ self.old.segs.grains }
        ensures keys { self.new.names.keys ≡ self.old.names.keys }
    {
        caching::calloc(&mut self.state, trail, cache, words, place)
    }

    /// Caches the block in a place if the class of its size has room, and else frees it; the place is empty then. Refuses `BadName` if
    /// there is no such cache, `NotABlock` if the place was empty, and `WrongPool` if the block isn't of the cache's pool.
    pub fn cfree(&mut self, trail: &mut Trail, cache: Name, place: Slot) -> Result<(), Refusal>
        requires fits { 1 < trail.old.spare }
        ensures right { IsRightMoving F.layout self.old (call.CacheFree cache place) trail.old.moves trail.new.moves
            (answer_to says_ok result) self.new }
        ensures room { KeepsRoom trail.old trail.new }
        ensures grains { self.new.segs.grains ≡ self.old.segs.grains }
        ensures keys { self.new.names.keys ≡ self.old.names.keys }
    {
        caching::cfree(&mut self.state, trail, cache, place)
    }

    /// How many moves a flush of a cache needs room for: two for each block that it has; 0 if there is no such cache.
    pub fn moves_of_cflush(&self, cache: Name) -> u32
        ensures value { result ≡ moves_of_flush self.now cache }
        ensures at_most { result ≤ 2 * max_cached_in_all }
    {
        caching::moves_of_cflush(&self.state, cache)
    }

    /// Frees all blocks of a cache, class by class, the one cached last first; the cache is empty then. The segment of a block is given
    /// back directly after the free that empties it. Refuses `BadName` if there is no such cache. The trail has room for
    /// `moves_of_cflush`.
    pub fn cflush(&mut self, trail: &mut Trail, cache: Name) -> Result<(), Refusal>
        requires fits { moves_of_flush self.old cache ≤ trail.old.spare }
        ensures right { IsRightMoving F.layout self.old (call.CacheFlush cache) trail.old.moves trail.new.moves
            (answer_to says_ok result) self.new }
        ensures room { KeepsRoom trail.old trail.new }
        ensures grains { self.new.segs.grains ≡ self.old.segs.grains }
        ensures keys { self.new.names.keys ≡ self.old.names.keys }
    {
        caching::cflush(&mut self.state, trail, cache)
    }
}

// Pools, roots and points.
#![tactic(auto)]

ghost use Rattle.std.specs.Prelude.{[]};
ghost use Rattle.mps_model.specs.declared.call.Call.TheVariants as call;
ghost use Rattle.mps_refinement.specs.RightStep.{IsRight};
ghost use Rattle.mps_refinement.specs.Answering.{answer_to, says_ok};
ghost use Rattle.std.specs.Prelude.{◌≡◌, ◌<◌, ◌≤◌, ℕ, IsTrue, List, length, take};
ghost use Rattle.mps_model.specs.World.{Collected, is_copying_kind};
ghost use Rattle.mps_refinement.specs.Making.{IsRightMaking, IsRightMakingIn, MeansLayout};
ghost use Rattle.mps_heap_spec.specs.Keyed.{DropsKeys};

use super::Heap;
use mps_base::{Kind, Name, Rank, Refusal};
use mps_format::Format;
use mps_heap_making::making;
use mps_heap_making::results::without_key;

impl<F: Format> Heap<F> {
    /// Makes a chain whose generations have these capacities, in grains. Refuses `NameTaken`, `TooMany` if there are 16, and
    /// `OutOfMemory`. The clause holds for each list of numbers that begins with the capacities, as a call of the model has them.
    pub fn chain(&mut self, name: Name, capacities: &[u32]) -> Result<(), Refusal>
        requires nonempty { 0 < length capacities.now }
        requires at_most { length capacities.now ≤ 8 }
        ensures right { (numbers : List ℕ) → take (length capacities.now) numbers ≡ capacities.now
            → IsRightMaking F.layout self.old (call.Chain name (length capacities.now) numbers) result self.new }
        ensures grains { self.new.segs.grains ≡ self.old.segs.grains }
        ensures keys { self.new.names.keys ≡ self.old.names.keys }
    {
        without_key(making::chain(&mut self.state, name, capacities))
    }

    /// Makes an automatic pool, whose objects have this format. Refuses `NameTaken`, `TooMany` if there are 64, and
    /// `OutOfMemory`. The clause holds for each number that means this format.
    pub fn pool(&mut self, name: Name, kind: Kind, format: F) -> Result<(), Refusal>
        ensures right { (number : ℕ) → IsRightMakingIn F.layout (MeansLayout number (F.layout format)) self.old (call.Pool name kind number)
            result self.new }
        ensures grains { self.new.segs.grains ≡ self.old.segs.grains }
        ensures keys { self.new.names.keys ≡ self.old.names.keys }
    {
        without_key(making::pool(&mut self.state, name, kind, format))
    }

    /// Makes a copying pool on a chain, whose objects have this format. Refuses `NameTaken`, `BadName` if there is no such chain, `TooMany`
    /// if there are 64 pools, and `OutOfMemory`. The clause holds for each number that means this format.
    pub fn pool_on_chain(
        &mut self,
        name: Name,
        kind: Kind,
        format: F,
        chain: Name,
    ) -> Result<(), Refusal>
        requires { IsTrue (is_copying_kind (Collected kind)) }
        ensures right { (number : ℕ) → IsRightMakingIn F.layout (MeansLayout number (F.layout format)) self.old
            (call.PoolOnChain name kind number chain) result self.new }
        ensures grains { self.new.segs.grains ≡ self.old.segs.grains }
        ensures keys { self.new.names.keys ≡ self.old.names.keys }
    {
        without_key(making::pool_on_chain(&mut self.state, name, kind, format, chain))
    }

    /// Makes a manual pool of blocks of `words` words. Refuses `BadSize` too, if that isn't 1 to 65,536.
    pub fn pool_mfs(&mut self, name: Name, words: u64) -> Result<(), Refusal>
        ensures right { IsRightMaking F.layout self.old (call.PoolMfs name words) result self.new }
        ensures grains { self.new.segs.grains ≡ self.old.segs.grains }
        ensures keys { self.new.names.keys ≡ self.old.names.keys }
    {
        without_key(making::pool_mfs(&mut self.state, name, words))
    }

    /// Makes a manual pool of blocks of any sizes.
    pub fn pool_mvff(&mut self, name: Name) -> Result<(), Refusal>
        ensures right { IsRightMaking F.layout self.old (call.PoolMvff name) result self.new }
        ensures grains { self.new.segs.grains ≡ self.old.segs.grains }
        ensures keys { self.new.names.keys ≡ self.old.names.keys }
    {
        without_key(making::pool_mvff(&mut self.state, name))
    }

    /// Makes a table of n slots, all null. Refuses `NameTaken`, `TooMany` if there are 256 roots, or more than 65,536 slots, words and
    /// places together, and `OutOfMemory`.
    pub fn table(&mut self, name: Name, n: u32) -> Result<(), Refusal>
        ensures right { IsRightMaking F.layout self.old (call.Table name n) result self.new }
        ensures grains { self.new.segs.grains ≡ self.old.segs.grains }
        ensures keys { self.new.names.keys ≡ self.old.names.keys }
    {
        without_key(making::table(&mut self.state, name, n))
    }

    /// Makes an area of n words, all 0. Refuses as `table` does.
    pub fn area(&mut self, name: Name, n: u32) -> Result<(), Refusal>
        ensures right { IsRightMaking F.layout self.old (call.Area name n) result self.new }
        ensures grains { self.new.segs.grains ≡ self.old.segs.grains }
        ensures keys { self.new.names.keys ≡ self.old.names.keys }
    {
        without_key(making::area(&mut self.state, name, n))
    }

    /// Makes a table of n places for manual blocks, all empty. Refuses as `table` does.
    pub fn blocks(&mut self, name: Name, n: u32) -> Result<(), Refusal>
        ensures right { IsRightMaking F.layout self.old (call.Blocks name n) result self.new }
        ensures grains { self.new.segs.grains ≡ self.old.segs.grains }
        ensures keys { self.new.names.keys ≡ self.old.names.keys }
    {
        without_key(making::blocks(&mut self.state, name, n))
    }

    /// Drops a table or an area, whose name is free again. Refuses `BadName` for anything else.
    pub fn drop_root(&mut self, name: Name) -> Result<(), Refusal>
        ensures right { IsRight F.layout self.old (call.DropRoot name) [] (answer_to says_ok result) self.new }
        ensures grains { self.new.segs.grains ≡ self.old.segs.grains }
        ensures keys { DropsKeys self.old.names.keys self.new.names.keys name result }
    {
        making::drop_root(&mut self.state, name)
    }

    /// Makes a point of a pool. Refuses `WrongPool` if the pool is manual, or the rank is weak and the pool can't have weak objects, and
    /// `TooMany` if there are 256.
    pub fn point(&mut self, name: Name, pool: Name, rank: Rank) -> Result<(), Refusal>
        ensures right { IsRightMaking F.layout self.old (call.Point name pool rank) result self.new }
        ensures grains { self.new.segs.grains ≡ self.old.segs.grains }
        ensures keys { self.new.names.keys ≡ self.old.names.keys }
    {
        without_key(making::point(&mut self.state, name, pool, rank))
    }

    /// Drops a point, whose name is free again. Refuses `Open` if it has an open reservation.
    pub fn drop_point(&mut self, name: Name) -> Result<(), Refusal>
        ensures right { IsRight F.layout self.old (call.DropPoint name) [] (answer_to says_ok result) self.new }
        ensures grains { self.new.segs.grains ≡ self.old.segs.grains }
        ensures keys { DropsKeys self.old.names.keys self.new.names.keys name result }
    {
        making::drop_point(&mut self.state, name)
    }
}

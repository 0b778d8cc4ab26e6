// How many grains the generations of the pools hold.
#![tactic(auto)]

ghost use Rattle.std.specs.Prelude.{◌≡◌, ◌+◌, ◌^◌, ◌<◌, ◌≤◌, true, [], IfOk, length, slice_index};
ghost use Rattle.mps_gen.specs.State.{max_pools, max_generations};
ghost use Rattle.mps_seg.specs.Counting.{counts_in_all, is_counted, index_for, counting_on, counting_off, IsCounted};

use mps_gen::{MAX_GENERATIONS, MAX_POOLS};
use std::alloc::{AllocError, Global};
use std::marker::Model;

/// A number of grains for each generation of each pool, in clauses a list. Pools and generations that no arena has are ignored.
#[derive(Drop)]
pub(crate) struct GrainCounts {
    counts: Vec<u32>,
}

impl Model for GrainCounts {
    ghost use Rattle.std.specs.Prelude.{List, ℕ};

    ghost Value = { List ℕ };

    ghost view = { λ c. c.counts.items };
}

impl GrainCounts {
    /// No grain is held. This is the only call that allocates.
    pub(crate) fn new(alloc: Global) -> Result<GrainCounts, AllocError>
        ensures { IfOk result (λ counts. IsCounted counts []) }
    {
        Ok(GrainCounts {
            counts: vec![in alloc; 0u32; MAX_GENERATIONS * MAX_POOLS]?,
        })
    }

    /// How many grains a generation of a pool holds.
    pub(crate) fn at(&self, pool: u32, generation: u32) -> u32
        requires whole { length self.now ≡ counts_in_all }
        requires counted { is_counted pool generation ≡ true }
        ensures { result ≡ slice_index self.now (index_for pool generation) }
    {
        self.counts[index_of(pool, generation)]
    }

    /// A generation of a pool holds more grains.
    pub(crate) fn add(&mut self, pool: u32, generation: u32, grains: u32)
        requires whole { length self.old ≡ counts_in_all }
        requires fits { is_counted pool generation ≡ true → slice_index self.old (index_for pool generation) + grains < 2 ^ 32 }
        ensures { self.new ≡ counting_on pool generation grains self.old }
    {
        if has(pool, generation) {
            self.counts[index_of(pool, generation)] += grains;
        }
    }

    /// A generation of a pool holds fewer grains.
    pub(crate) fn subtract(&mut self, pool: u32, generation: u32, grains: u32)
        requires whole { length self.old ≡ counts_in_all }
        requires held { is_counted pool generation ≡ true → grains ≤ slice_index self.old (index_for pool generation) }
        ensures { self.new ≡ counting_off pool generation grains self.old }
    {
        if has(pool, generation) {
            self.counts[index_of(pool, generation)] -= grains;
        }
    }
}

/// Whether an arena may have a pool of this number, and a chain a generation of this one.
fn has(pool: u32, generation: u32) -> bool
    ensures { result ≡ is_counted pool generation }
{
    (pool as usize) < MAX_POOLS && (generation as usize) < MAX_GENERATIONS
}

/// Where the number of grains stands that a generation of a pool holds.
fn index_of(pool: u32, generation: u32) -> usize
    ensures { result ≡ index_for pool generation }
{
    MAX_GENERATIONS * pool as usize + generation as usize
}

// What the generations of each chain hold, and which generation is due.
#![tactic(auto)]

ghost use Rattle.std.specs.Prelude.{◌≡◌, ℕ, ◌+◌, ◌^◌, ◌<◌, [], length, slice_get, get_or, slice_index};
ghost use Rattle.std.specs.Option.{option_map};
ghost use Rattle.mps_gen.specs.Due.{in_numbers};
ghost use Rattle.mps_gen.specs.State.{max_pools, max_chains, max_generations};
ghost use Rattle.mps_seg.specs.Counting.{grains_held_by};
ghost use Rattle.mps_policy.specs.Due.{due_now, held_by_generation};

use mps_gen::{Chains, DueGeneration, MAX_CHAINS, MAX_GENERATIONS};
use mps_seg::Segs;

/// The generation that is due for collection: of the first chain with one that holds more grains than its capacity, the greatest such
/// one. It costs a step for each generation of a pool that is on a chain, and looks at no segment.
pub fn due_now(chains: &Chains, segs: &Segs) -> Option<DueGeneration>
    ensures { result ≡ option_map in_numbers (due_now chains.now segs.now.segments) }
{
    chains.are_sound();
    chains.due(&held_by_chains(chains, segs))
}

/// How many grains each generation of each chain holds.
fn held_by_chains(chains: &Chains, segs: &Segs) -> [[u32; MAX_GENERATIONS]; MAX_CHAINS]
    ensures size { length result ≡ max_chains }
    ensures rows { (chain : ℕ) → chain < max_chains → length (get_or result chain []) ≡ max_generations }
    ensures held { (chain generation : ℕ) → chain < max_chains → generation < max_generations
        → slice_index (get_or result chain []) generation ≡ held_by_generation chains.now segs.now.segments chain generation }
{
    let _ = segs.committed(); // no generation holds more
    chains.are_sound();
    let mut held = [[0; MAX_GENERATIONS]; MAX_CHAINS];
    for pool in 0..chains.pools() {
        if let Some(chain) = chains.chain_of(pool) {
            held[chain as usize] = with_pool(held[chain as usize], segs, pool);
        }
    }
    held
}

/// These grains by generation, and those that the generations of a pool hold.
fn with_pool(held: [u32; MAX_GENERATIONS], segs: &Segs, pool: u32) -> [u32; MAX_GENERATIONS]
    requires numbered { pool < max_pools }
    requires size { length held ≡ max_generations }
    requires fits { (generation : ℕ) → generation < max_generations
        → slice_index held generation + grains_held_by pool generation segs.now.segments < 2 ^ 32 }
    ensures size { length result ≡ max_generations }
    ensures added { (generation : ℕ) → generation < max_generations
        → slice_index result generation ≡ slice_index held generation + grains_held_by pool generation segs.now.segments }
{
    let mut sums = held;
    for generation in 0..MAX_GENERATIONS {
        sums[generation] += segs.grains_held_by(pool, generation as u32);
    }
    sums
}

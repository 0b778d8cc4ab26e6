// The chains, and which pool is on which.
#![tactic(auto)]

ghost use Rattle.std.specs.Prelude.{◌≡◌, ◌<◌, ◌≤◌, ◌++◌, ◌∷◌, [], length, map, ◌+◌, ◌^◌, MatchResult, IfErr, IfSome, IsOk};
ghost use Rattle.std.specs.Option.{option_map, ForSome};
ghost use Rattle.mps_base.specs.Generation as spec;
ghost use Rattle.mps_base.specs.Generation.{target_generation};
ghost use Rattle.mps_gen.specs.State.{ChainsState, no_chains, max_chains, max_generations, max_pools, generations_of, chain_of, is_on_chain, due_in, loads};
ghost use Rattle.mps_gen.specs.Due.{in_numbers};
ghost use Rattle.mps_gen.specs.Inside.{IsSoundChains};

use arrayvec::ArrayVec;
use mps_base::Refusal;
use std::marker::Model;

/// The most chains of an arena.
pub const MAX_CHAINS: usize = 16;

/// The most generations of a chain.
pub const MAX_GENERATIONS: usize = 8;

/// The most pools of an arena.
pub const MAX_POOLS: usize = 64;

/// The chains of an arena, and the chain of each pool. Chains and pools are numbered in the order of making. No call allocates.
#[derive(Drop)]
pub struct Chains {
    chains: ArrayVec<ArrayVec<u32, MAX_GENERATIONS>, MAX_CHAINS>,
    of_pool: ArrayVec<Option<u32>, MAX_POOLS>,
}

impl Model for Chains {
    ghost use Rattle.std.specs.Prelude.{map};
    ghost use Rattle.mps_gen.specs.State.{ChainsState};
    ghost use Rattle.mps_gen.specs.Inside.{IsSoundChains};

    ghost Value = { ChainsState };

    ghost view = { λ c. record { chains = map (λ capacities. capacities.items) c.chains.items; of_pool = c.of_pool.items } };

    ghost invariant = { λ c. IsSoundChains (map (λ capacities. capacities.items) c.chains.items) c.of_pool.items };
}

/// A generation of a chain, by their numbers.
#[derive(Clone, Copy, Debug, PartialEq, Eq)]
pub struct DueGeneration {
    pub chain: u32,
    pub generation: u32,
}

impl Chains {
    /// No chain and no pool.
    pub fn new() -> Chains
        ensures { result ≡ no_chains }
    {
        Chains {
            chains: ArrayVec::new(),
            of_pool: ArrayVec::new(),
        }
    }

    /// Makes a chain whose generations have these capacities, in grains, and returns its number. Refuses `TooMany` if there are 16.
    pub fn chain(&mut self, capacities: &[u32]) -> Result<u32, Refusal>
        requires nonempty { 0 < length capacities.now }
        requires at_most { length capacities.now ≤ max_generations }
        ensures state { MatchResult result (λ number. (number ≡ length self.old.chains)
            × (self.new ≡ record self.old { chains = self.old.chains ++ capacities.now ∷ [] })) (λ _. self.new ≡ self.old) }
        ensures fits { length self.old.chains < max_chains → IsOk result }
        ensures full { IfErr result (λ why. (why ≡ Refusal.TooMany max_chains) × (length self.old.chains ≡ max_chains)) }
    {
        let number = self.chains.len();
        if number == MAX_CHAINS {
            return Err(Refusal::TooMany {
                limit: MAX_CHAINS as u32,
            });
        }
        let Ok(chain) = ArrayVec::try_from(capacities) else {
            unreachable!()
        };
        self.chains.push(chain);
        Ok(number as u32)
    }

    /// Makes a pool on a chain, or on none, and returns its number.
    pub fn pool(&mut self, chain: Option<u32>) -> u32
        requires known { ForSome chain (λ number. number < length self.old.chains) }
        requires at_most { length self.old.of_pool < max_pools }
        ensures number { result ≡ length self.old.of_pool }
        ensures state { self.new ≡ record self.old { of_pool = self.old.of_pool ++ chain ∷ [] } }
    {
        let number = self.of_pool.len();
        self.of_pool.push(chain);
        number as u32
    }

    /// How many pools there are.
    pub fn pools(&self) -> u32
        ensures { result ≡ length self.now.of_pool }
    {
        self.of_pool.len() as u32
    }

    /// Does nothing: a caller knows that each chain has at most eight generations, that each pool is on a chain that there is, and that
    /// there are at most 16 chains and 64 pools.
    pub fn are_sound(&self)
        ensures sound { IsSoundChains self.now.chains self.now.of_pool }
        ensures few_chains { length self.now.chains ≤ max_chains }
        ensures few_pools { length self.now.of_pool ≤ max_pools }
    {
        let _ = (self.chains.len(), self.of_pool.len());
    }

    /// The chain of a pool, if it is on one.
    pub fn chain_of(&self, pool: u32) -> Option<u32>
        requires { pool < length self.now.of_pool }
        ensures { result ≡ chain_of self.now pool }
    {
        self.of_pool[pool as usize]
    }

    /// Whether a pool is on a chain. One that isn't made yet is on none.
    pub fn is_on(&self, chain: u32, pool: u32) -> bool
        ensures { result ≡ is_on_chain self.now chain pool }
    {
        self.of_pool.get(pool as usize) == Some(&Some(chain))
    }

    /// How many generations the chain of a pool has, if it is on one.
    pub fn generations_of(&self, pool: u32) -> Option<u32>
        requires { pool < length self.now.of_pool }
        ensures value { result ≡ generations_of self.now pool }
        ensures nonzero { IfSome result (λ count. 0 < count) }
    {
        let Some(chain) = self.of_pool[pool as usize] else {
            return None;
        };
        Some(self.chains[chain as usize].len() as u32)
    }

    /// The generation to which a block of a generation of a pool moves.
    pub fn target(&self, pool: u32, generation: u32) -> u32
        requires { pool < length self.now.of_pool }
        ensures { result ≡ target_generation (generations_of self.now pool) generation }
    {
        let Some(_) = self.of_pool[pool as usize] else {
            return 0; // so of a pool on no chain nothing else is read
        };
        let Some(count) = self.generations_of(pool) else {
            return 0;
        };
        let oldest = count - 1;
        if generation < oldest {
            generation + 1
        } else {
            oldest
        }
    }

    /// The generation that is due for collection: of the first chain with one that holds more grains than its capacity, the greatest
    /// such one. `held` has the grains that the generations of each chain hold, by the chain's number.
    pub fn due(&self, held: &[[u32; MAX_GENERATIONS]; MAX_CHAINS]) -> Option<DueGeneration>
        ensures { result ≡ option_map in_numbers (due_in self.now held.now) }
    {
        due_from(0, &self.chains, held)
    }
}

// The greatest generation, from this one on, that holds more grains than its capacity.
fn greatest_over(generation: u32, capacities: &[u32], held: &[u32]) -> Option<u32>
    requires { generation + length capacities.now < 2 ^ 32 }
    ensures { result ≡ spec.greatest_over generation capacities.now held.now }
{
    let mut greatest = None;
    for index in 0..capacities.len().min(held.len()) {
        if held[index] > capacities[index] {
            greatest = Some(generation + index as u32);
        }
    }
    greatest
}

// Which generation is due, of the chains from this number on.
fn due_from(
    number: u32,
    chains: &[ArrayVec<u32, MAX_GENERATIONS>],
    held: &[[u32; MAX_GENERATIONS]],
) -> Option<DueGeneration>
    requires { number + length chains.now < 2 ^ 32 }
    ensures { result ≡ option_map in_numbers (spec.due_from number (loads (map (λ capacities. capacities.items) chains.now) held.now)) }
{
    for index in 0..chains.len().min(held.len()) {
        if let Some(generation) = greatest_over(0, &chains[index], &held[index]) {
            return Some(DueGeneration {
                chain: number + index as u32,
                generation,
            });
        }
    }
    None
}

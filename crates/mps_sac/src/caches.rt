// The caches of an arena.
#![tactic(auto)]

ghost use Rattle.std.specs.Prelude.{◌≡◌, ◌<◌, ◌≤◌, ◌++◌, ◌∷◌, [], None, Some, length, if◌then◌else◌, slice_index_or, IfOk};
ghost use Rattle.std.specs.Option.{MatchOption};
ghost use Rattle.std.specs.List.{All};
ghost use Rattle.mps_sac.specs.State.{CacheState, new_cache, count_in, max_cached, max_cached_in_all, max_classes, max_caches, last_of, without_last_of_size, with_last_of_size, blocks_of_size, keeps_size, next_blocks, without_next, classes_of, with_classes, pool_of};

use crate::cache::Cache;
use crate::class::ClassSize;
use mps_base::Addr;
use std::alloc::{AllocError, Global};
use std::marker::Model;

/// The most caches of an arena.
pub const MAX_CACHES: usize = 16;

/// The caches of an arena, numbered in the order of making. Only `new` allocates: room for 16 caches of eight classes of 64 addresses.
#[derive(Drop)]
pub struct Caches {
    caches: Vec<Cache>,
}

impl Model for Caches {
    ghost use Rattle.std.specs.Prelude.{List, ◌≤◌, length, vec_capacity};
    ghost use Rattle.mps_sac.specs.State.{CacheState, max_caches};

    ghost Value = { List CacheState };

    ghost view = { λ c. c.caches.items };

    ghost invariant = { λ c. (length c.caches.items ≤ max_caches) × (max_caches ≤ vec_capacity c.caches) };
}

impl Caches {
    /// No cache.
    pub fn new(alloc: Global) -> Result<Caches, AllocError>
        ensures { IfOk result (λ caches. caches ≡ []) }
    {
        Ok(Caches {
            caches: Vec::with_capacity(alloc, MAX_CACHES)?,
        })
    }

    /// How many caches there are.
    pub fn count(&self) -> u32
        ensures { result ≡ length self.now }
    {
        self.caches.len() as u32
    }

    /// Makes a cache over a pool, with classes of these sizes, and returns its number.
    pub fn add(&mut self, pool: u32, sizes: &[ClassSize]) -> u32
        requires fits { length self.old < max_caches }
        requires few { length sizes.now ≤ max_classes }
        requires limits { All (λ size. size.limit ≤ max_cached) sizes.now }
        ensures number { result ≡ length self.old }
        ensures state { self.new ≡ self.old ++ new_cache pool sizes.now ∷ [] }
    {
        let number = self.caches.len();
        let Ok(()) = self.caches.push(Cache::new(pool, sizes)) else {
            unreachable!()
        };
        number as u32
    }

    /// The number of the pool over which a cache stands.
    pub fn pool(&self, number: u32) -> u32
        requires { number < length self.now }
        ensures { result ≡ pool_of self.now number }
    {
        self.caches[number as usize].pool()
    }

    /// How many blocks a cache has.
    pub fn cached(&self, number: u32) -> u32
        requires { number < length self.now }
        ensures value { result ≡ count_in (classes_of self.now number) }
        ensures few { result ≤ max_cached_in_all }
    {
        self.caches[number as usize].count()
    }

    /// Takes the block that was cached last in a cache's class of a size, in words: None where it has no such class, or no block in it.
    pub fn take(&mut self, number: u32, words: u32) -> Option<Addr>
        requires { number < length self.old }
        ensures value { MatchOption result (last_of (blocks_of_size (classes_of self.old number) words) ≡ None)
            (λ at. last_of (blocks_of_size (classes_of self.old number) words) ≡ Some at.0) }
        ensures state { self.new ≡ with_classes self.old number (without_last_of_size (classes_of self.old number) words) }
    {
        self.caches[number as usize].take(words)
    }

    /// Keeps a block in a cache's class of its size, in words. False where there is no such class, or it is full; then nothing changes.
    pub fn keep(&mut self, number: u32, words: u32, at: Addr) -> bool
        requires { number < length self.old }
        ensures value { result ≡ keeps_size (classes_of self.old number) words }
        ensures state { self.new ≡ (if keeps_size (classes_of self.old number) words
            then with_classes self.old number (with_last_of_size (classes_of self.old number) words at.0) else self.old) }
    {
        self.caches[number as usize].keep(words, at)
    }

    /// Takes the block that was cached last in the first class of a cache that has one: None where the cache is empty.
    pub fn next(&mut self, number: u32) -> Option<Addr>
        requires { number < length self.old }
        ensures value { MatchOption result (last_of (next_blocks (classes_of self.old number)) ≡ None)
            (λ at. last_of (next_blocks (classes_of self.old number)) ≡ Some at.0) }
        ensures state { self.new ≡ with_classes self.old number (without_next (classes_of self.old number)) }
    {
        self.caches[number as usize].next()
    }
}

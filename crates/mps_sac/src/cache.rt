// One cache: its classes over a pool.
#![tactic(auto)]

ghost use Rattle.std.specs.Prelude.{◌≡◌, ◌<◌, ◌≤◌, ◌++◌, ◌∷◌, [], None, Some, length, map, if◌then◌else◌, slice_index_or};
ghost use Rattle.std.specs.Option.{MatchOption};
ghost use Rattle.std.specs.List.{All, position};
ghost use Rattle.mps_sac.specs.State.{CacheState, new_cache, count_in, max_cached, max_cached_in_all, max_classes, last_of, without_last_of_size, with_last_of_size, blocks_of_size, keeps_size, next_blocks, without_next, is_of_size, has_block};

use crate::class::{Class, ClassSize};
use arrayvec::ArrayVec;
use mps_base::Addr;
use std::marker::Model;

/// The most classes of a cache.
pub const MAX_CLASSES: usize = 8;

/// A cache: the number of its pool, and its classes.
#[derive(Drop)]
pub(crate) struct Cache {
    pool: u32,
    classes: ArrayVec<Class, MAX_CLASSES>,
}

impl Model for Cache {
    ghost use Rattle.mps_sac.specs.State.{CacheState};

    ghost Value = { CacheState };

    ghost view = { λ c. record { pool = c.pool; classes = c.classes.items } };
}

impl Cache {
    /// A cache over a pool, with classes of these sizes, all empty.
    pub(crate) fn new(pool: u32, sizes: &[ClassSize]) -> Cache
        requires few { length sizes.now ≤ max_classes }
        requires limits { All (λ size. size.limit ≤ max_cached) sizes.now }
        ensures { result ≡ new_cache pool sizes.now }
    {
        let mut classes = ArrayVec::new();
        for size in sizes {
            classes.push(Class::new(*size));
        }
        Cache { pool, classes }
    }

    /// The number of its pool.
    pub(crate) fn pool(&self) -> u32
        ensures { result ≡ self.now.pool }
    {
        self.pool
    }

    /// How many blocks its classes have.
    pub(crate) fn count(&self) -> u32
        ensures value { result ≡ count_in self.now.classes }
        ensures few { result ≤ max_cached_in_all }
    {
        count_in(&self.classes)
    }

    /// Takes the block cached last in the class of a size.
    pub(crate) fn take(&mut self, words: u32) -> Option<Addr>
        ensures value { MatchOption result (last_of (blocks_of_size self.old.classes words) ≡ None)
            (λ at. last_of (blocks_of_size self.old.classes words) ≡ Some at.0) }
        ensures state { self.new ≡ record self.old { classes = without_last_of_size self.old.classes words } }
    {
        let Some(index) = index_of_size(&self.classes, words) else {
            return None;
        };
        self.classes[index].take()
    }

    /// Keeps a block in the class of its size, where that has room.
    pub(crate) fn keep(&mut self, words: u32, at: Addr) -> bool
        ensures value { result ≡ keeps_size self.old.classes words }
        ensures state { self.new ≡ (if keeps_size self.old.classes words
            then record self.old { classes = with_last_of_size self.old.classes words at.0 } else self.old) }
    {
        let Some(index) = index_of_size(&self.classes, words) else {
            return false;
        };
        self.classes[index].keep(at)
    }

    /// Takes the block cached last in the first class that has one.
    pub(crate) fn next(&mut self) -> Option<Addr>
        ensures value { MatchOption result (last_of (next_blocks self.old.classes) ≡ None)
            (λ at. last_of (next_blocks self.old.classes) ≡ Some at.0) }
        ensures state { self.new ≡ record self.old { classes = without_next self.old.classes } }
    {
        let Some(index) = index_with_block(&self.classes) else {
            return None;
        };
        self.classes[index].take()
    }
}

// How many blocks some classes have.
fn count_in(classes: &[Class]) -> u32
    requires { length classes.now ≤ max_classes }
    ensures value { result ≡ count_in classes.now }
    ensures few { result ≤ max_cached_in_all }
{
    let mut count = 0u32;
    for class in classes {
        count += class.count() as u32;
    }
    count
}

// The index of the first class of a size.
fn index_of_size(classes: &[Class], words: u32) -> Option<usize>
    ensures { result ≡ position (is_of_size words) classes.now }
{
    classes.iter().position(|class| class.words() == words)
}

// The index of the first class that has a block.
fn index_with_block(classes: &[Class]) -> Option<usize>
    ensures { result ≡ position has_block classes.now }
{
    classes.iter().position(|class| !class.is_empty())
}

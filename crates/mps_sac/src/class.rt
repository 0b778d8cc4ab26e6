// One class of a cache.
#![tactic(auto)]

ghost use Rattle.std.specs.Prelude.{◌≡◌, ◌<◌, ◌≤◌, ◌++◌, ◌∷◌, [], None, Some, length, take, not, if◌then◌else◌};
ghost use Rattle.std.specs.Option.{MatchOption};
ghost use Rattle.mps_sac.specs.State.{ClassState, new_class, max_cached, last_of, without_last, class_keeps, has_block};

use arrayvec::ArrayVec;
use mps_base::Addr;
use std::marker::Model;

/// The most blocks that a class keeps.
pub const MAX_CACHED: usize = 64;

/// What a class of a cache is made for: blocks of this size, in words, and at most `limit` of them at a time.
#[derive(Clone, Copy, Debug, PartialEq, Eq)]
pub struct ClassSize {
    pub words: u32,
    pub limit: u32,
}

/// The cached blocks of one size, the one cached last at the end.
#[derive(Default, Drop)]
pub(crate) struct Class {
    words: u32,
    limit: u32,
    blocks: ArrayVec<u64, MAX_CACHED>,
}

impl Model for Class {
    ghost use Rattle.std.specs.Prelude.{◌≤◌};
    ghost use Rattle.mps_sac.specs.State.{ClassState, max_cached};

    ghost Value = { ClassState };

    ghost view = { λ c. record { words = c.words; limit = c.limit; blocks = c.blocks.items } };

    ghost invariant = { λ c. c.limit ≤ max_cached };
}

impl Class {
    /// A class without blocks.
    pub(crate) fn new(size: ClassSize) -> Class
        requires { size.limit ≤ max_cached }
        ensures { result ≡ new_class size }
    {
        Class {
            words: size.words,
            limit: size.limit,
            blocks: ArrayVec::new(),
        }
    }

    /// The size of its blocks, in words.
    pub(crate) fn words(&self) -> u32
        ensures { result ≡ self.now.words }
    {
        self.words
    }

    /// Whether it has no block.
    pub(crate) fn is_empty(&self) -> bool
        ensures { result ≡ not (has_block self.now) }
    {
        self.blocks.is_empty()
    }

    /// How many blocks it has.
    pub(crate) fn count(&self) -> usize
        ensures value { result ≡ length self.now.blocks }
        ensures few { result ≤ max_cached }
    {
        self.blocks.len()
    }

    /// Takes the block that was cached last.
    pub(crate) fn take(&mut self) -> Option<Addr>
        ensures value { MatchOption result (last_of self.old.blocks ≡ None) (λ at. last_of self.old.blocks ≡ Some at.0) }
        ensures state { self.new ≡ record self.old { blocks = without_last self.old.blocks } }
    {
        Some(Addr(self.blocks.pop()?))
    }

    /// Keeps a block, where there is room for it.
    pub(crate) fn keep(&mut self, at: Addr) -> bool
        ensures value { result ≡ class_keeps self.old }
        ensures state { self.new ≡ (if class_keeps self.old then record self.old { blocks = self.old.blocks ++ at.0 ∷ [] } else self.old) }
    {
        let fits = self.blocks.len() < self.limit as usize;
        if fits {
            self.blocks.push(at.0);
        }
        fits
    }
}

// The transforms and their pairs.
#![tactic(auto)]

ghost use Rattle.std.specs.Prelude.{◌≡◌, ◌<◌, ◌&&◌, ◌==◌, [], Some, true, false, length, not, filter, IfOk, IfErr, IsOk, IsSome, is_some, MatchResult, Contains, vec_capacity, slice_set};
ghost use Rattle.std.specs.List.{list_any, position};
ghost use Rattle.mps_xform.specs.State.{TransformsState, no_transforms, max_pairs, is_live, free_number, is_of, pairs_of, has_old, with_transform, without_transform, emptied, with_pair, WhyRefused};

use crate::replacements::Replacements;
use mps_base::Addr;
use std::alloc::{AllocError, Global};
use std::marker::Model;

/// The most transforms of an arena.
pub const MAX_TRANSFORMS: usize = 16;

/// The most pairs of all transforms.
pub const MAX_PAIRS: usize = 4_096;

/// An old block and the new one that takes its place in references, by their addresses. `inside` says that a word anywhere inside the
/// old block lies in it; else only a word that is its address does.
#[derive(Clone, Copy, Debug, PartialEq, Eq)]
pub struct Pair {
    pub transform: u32,
    pub old: Addr,
    pub new: Addr,
    pub inside: bool,
}

/// Why a pair is not added.
#[derive(Clone, Copy, Debug, PartialEq, Eq)]
pub enum AddRefusal {
    /// The transform has a pair with this old block.
    OldTwice,
    /// All transforms together have 4,096 pairs.
    TooMany,
}

/// The transforms of an arena, at most 16, with at most 4,096 pairs in all. `new` is the only call that allocates.
#[derive(Drop)]
pub struct Transforms {
    live: [bool; MAX_TRANSFORMS],
    pub(crate) pairs: Vec<Pair>,
    // Those of the transform that was applied last, by their old addresses.
    pub(crate) replacements: Replacements,
}

impl Model for Transforms {
    ghost use Rattle.std.specs.Prelude.{vec_capacity};
    ghost use Rattle.mps_xform.specs.State.{TransformsState};
    ghost use Rattle.mps_xform.specs.Inside.{AreSoundTransforms};

    ghost Value = { TransformsState };

    ghost view = { λ t. record { live = t.live; pairs = t.pairs.items } };

    ghost invariant = { λ t. AreSoundTransforms t.live t.pairs.items (vec_capacity t.pairs) };
}

impl Transforms {
    /// No transform.
    pub fn new(alloc: Global) -> Result<Transforms, AllocError>
        ensures { IfOk result (λ transforms. transforms ≡ no_transforms) }
    {
        Ok(Transforms {
            live: [false; MAX_TRANSFORMS],
            pairs: Vec::with_capacity(alloc, MAX_PAIRS)?,
            replacements: Replacements::new(alloc)?,
        })
    }

    /// Whether there is room for one more transform.
    pub fn has_room(&self) -> bool
        ensures { result ≡ is_some (free_number self.now) }
    {
        free_in(&self.live).is_some()
    }

    /// Makes a transform without pairs, and returns its number, the lowest that is free.
    pub fn make(&mut self) -> u32
        requires { IsSome (free_number self.old) }
        ensures number { free_number self.old ≡ Some result }
        ensures state { self.new ≡ with_transform self.old result }
        ensures was_free { is_live self.old result ≡ false }
        ensures there { is_live self.new result ≡ true }
        ensures empty { pairs_of self.new result ≡ [] }
    {
        let Some(number) = free_in(&self.live) else {
            unreachable!()
        };
        self.live[number] = true;
        number as u32
    }

    /// Drops a transform and its pairs. Its number is free again.
    pub fn drop_transform(&mut self, transform: u32)
        requires { is_live self.old transform ≡ true }
        ensures { self.new ≡ without_transform self.old transform }
    {
        self.live[transform as usize] = false;
        end_pairs_of(&mut self.pairs, transform);
    }

    /// Takes all pairs from all transforms.
    pub fn empty_all(&mut self)
        ensures { self.new ≡ emptied self.old }
    {
        self.pairs.clear();
    }

    /// Adds a pair to its transform. Refuses `OldTwice` where the transform has one with this old block, and else `TooMany` where there
    /// are 4,096 pairs in all.
    pub fn add(&mut self, pair: Pair) -> Result<(), AddRefusal>
        requires { is_live self.old pair.transform ≡ true }
        ensures state { MatchResult result (λ _. self.new ≡ with_pair self.old pair) (λ _. self.new ≡ self.old) }
        ensures added { IsOk result → (has_old self.old pair.transform pair.old.0 ≡ false) × (length self.old.pairs < max_pairs) }
        ensures refused { IfErr result (λ why. WhyRefused self.old pair why) }
    {
        if has_pair(&self.pairs, pair.transform, pair.old) {
            return Err(AddRefusal::OldTwice);
        }
        if self.pairs.len() == MAX_PAIRS {
            return Err(AddRefusal::TooMany);
        }
        let Ok(()) = self.pairs.push(pair) else {
            unreachable!()
        };
        Ok(())
    }
}

// The index of the first transform that isn't there.
fn free_in(live: &[bool]) -> Option<usize>
    ensures { result ≡ position not live.now }
{
    live.iter().position(|live| !*live)
}

// Takes out the pairs of a transform.
fn end_pairs_of(pairs: &mut Vec<Pair>, transform: u32)
    ensures items { pairs.new.items ≡ filter (λ p. not (is_of transform p)) pairs.old.items }
    ensures capacity { vec_capacity pairs.new ≡ vec_capacity pairs.old }
{
    pairs.retain(|pair| pair.transform != transform);
}

// Whether a transform has a pair with this old address.
fn has_pair(pairs: &[Pair], transform: u32, old: Addr) -> bool
    ensures { result ≡ list_any (λ p. is_of transform p && (p.old.0 == old.0)) pairs.now }
{
    pairs
        .iter()
        .any(|pair| pair.transform == transform && pair.old == old)
}

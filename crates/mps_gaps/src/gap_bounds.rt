// Bounds of gaps, by index.
#![tactic(auto)]

ghost use Rattle.std.specs.Prelude.{◌≡◌, ℕ, ◌*◌, ◌<◌, ◌≤◌, ◌+◌, ◌/◌, length, replicate, slice_index, slice_set, get_or, IfOk, IfSome, IfNone};
ghost use Rattle.mps_gaps.specs.Bounds.{IsLowestWith, HasNone};

use std::alloc::{AllocError, Global};
use std::marker::Model;

/// How many indexes have one bound together.
const INDEXES_OF_GROUP: usize = 32;

/// For each index a number of words than which no gap there is longer, 0 at first. Clauses see the list of these numbers.
#[derive(Drop)]
pub struct GapBounds {
    words: Vec<u32>,
    // For each group of indexes a number that none of theirs is above.
    bounds: Vec<u32>,
    // From this index on each number is 0.
    end: usize,
}

impl Model for GapBounds {
    ghost use Rattle.std.specs.Prelude.{List, ℕ};
    ghost use Rattle.mps_gaps.specs.Bounds.{IsBounded};

    ghost Value = { List ℕ };

    ghost view = { λ f. f.words.items };

    ghost invariant = { λ f. IsBounded f.words.items f.bounds.items f.end };
}

impl GapBounds {
    /// The bound 0 at n indexes. This is the only call that allocates.
    pub fn new(alloc: Global, n: usize) -> Result<GapBounds, AllocError>
        ensures { IfOk result (λ bounds. bounds ≡ replicate n 0) }
    {
        Ok(GapBounds {
            words: vec![in alloc; 0u32; n]?,
            bounds: vec![in alloc; 0u32; n.div_ceil(INDEXES_OF_GROUP)]?,
            end: 0,
        })
    }

    /// The bound at an index.
    pub fn at(&self, index: usize) -> u32
        requires { index < length self.now }
        ensures { result ≡ slice_index self.now index }
    {
        self.words[index]
    }

    /// From now on `words` is the bound at an index. The greatest bound of its group is looked for only if one that was above half of
    /// the bound falls to half of it or less: so a sequence of blocks in one segment costs few searches, and a bound is less than twice the
    /// greatest number.
    #[inline(always)]
    pub fn set(&mut self, index: usize, words: u32)
        requires { index < length self.old }
        ensures { self.new ≡ slice_set self.old index words }
    {
        let before = self.words[index];
        self.words[index] = words;
        if words > 0 {
            self.end = self.end.max(index + 1);
        }
        let group = index / INDEXES_OF_GROUP;
        let bound = self.bounds[group];
        if words > bound {
            self.bounds[group] = words;
        } else if before > bound / 2 && words <= bound / 2 {
            self.bounds[group] = greatest(&self.words, INDEXES_OF_GROUP * group);
        }
    }

    /// The lowest index from `from` on whose bound is at least `words`. If no index of a group has enough, the whole group
    /// is one step. No step goes past the last index whose bound isn't 0, unless `words` is 0.
    pub fn lowest_with(&self, words: u32, from: usize) -> Option<usize>
        ensures sound { IfSome result (λ index. IsLowestWith words from index self.now) }
        ensures complete { IfNone result (HasNone words from (length self.now) self.now) }
    {
        let end = if words == 0 {
            self.words.len()
        } else {
            self.end
        };
        if from >= end {
            return None;
        }
        for group in from / INDEXES_OF_GROUP..end.div_ceil(INDEXES_OF_GROUP) {
            if self.bounds[group] >= words {
                let start = from.max(INDEXES_OF_GROUP * group);
                let found = lowest_of_group(&self.words, words, start);
                if found.is_some() {
                    return found;
                }
            }
        }
        None
    }
}

/// A number that none of those of a group is above, from the index `from` on.
#[cold]
#[inline(never)]
fn greatest(words: &[u32], from: usize) -> u32
    ensures at_most { (i : ℕ) → from ≤ i → i < from + 32 → get_or words.now i 0 ≤ result }
{
    let end = words.len().min(from.saturating_add(INDEXES_OF_GROUP));
    let mut most = 0;
    for i in from..end {
        most = most.max(words[i]);
    }
    most
}

/// The lowest index from `from` on, and in its group, whose bound is at least `least`.
fn lowest_of_group(words: &[u32], least: u32, from: usize) -> Option<usize>
    requires { from < length words.now }
    ensures sound { IfSome result (λ index. IsLowestWith least from index words.now) }
    ensures complete { IfNone result (HasNone least from (32 * (from / 32) + 32) words.now) }
{
    let end = words
        .len()
        .min(from - from % INDEXES_OF_GROUP + INDEXES_OF_GROUP);
    for i in from..end {
        if words[i] >= least {
            return Some(i);
        }
    }
    None
}

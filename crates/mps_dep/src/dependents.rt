// The pairs of holders and dependents.
#![tactic(auto)]

ghost use Rattle.std.specs.Prelude.{◌≡◌, ◌<◌, ◌≤◌, ◌==◌, [], None, Some, false, length, filter, not, IfOk, IfErr, IsOk, IsSome, OnOk, OnSome, MatchResult, vec_capacity};
ghost use Rattle.std.specs.List.{list_any};
ghost use Rattle.std.specs.Option.{MatchOption, option_map};
ghost use Rattle.mps_dep.specs.State.{max_pairs, dependent_of, is_full_for, without_holder, without_address, with_pair, has_name};
ghost use Rattle.mps_dep.specs.Inside.{has_mark};

use crate::marks::{self, MARKS};
use mps_address_marks::mark_of;
use mps_base::{Addr, Refusal};
use mps_bits::Bits;
use std::alloc::{AllocError, Global};
use std::marker::Model;

/// The most pairs.
pub const MAX_PAIRS: usize = 1_024;

/// A weak block and its dependent, by their addresses.
#[derive(Clone, Copy, Debug, PartialEq, Eq)]
pub struct Pair {
    pub holder: Addr,
    pub dependent: Addr,
}

/// The pairs of an arena, at most one of each holder. `new` is the only call that allocates. Beside the pairs stands a mark for each
/// address in them, so that one bit says of most addresses that they are in none.
#[derive(Drop)]
pub struct Dependents {
    pairs: Vec<Pair>,
    marks: Bits,
}

impl Model for Dependents {
    ghost use Rattle.std.specs.Prelude.{List, vec_capacity};
    ghost use Rattle.mps_dep.specs.declared.dependents.Pair.{Pair};
    ghost use Rattle.mps_dep.specs.Inside.{IsSoundDependents};

    ghost Value = { List Pair };

    ghost view = { λ d. d.pairs.items };

    ghost invariant = { λ d. IsSoundDependents d.pairs.items d.marks (vec_capacity d.pairs) };
}

impl Dependents {
    /// No pair.
    pub fn new(alloc: Global) -> Result<Dependents, AllocError>
        ensures { IfOk result (λ dependents. dependents ≡ []) }
    {
        Ok(Dependents {
            pairs: Vec::with_capacity(alloc, MAX_PAIRS)?,
            marks: marks::no_marks(alloc)?,
        })
    }

    /// Whether there is no pair.
    #[inline(always)]
    pub fn is_empty(&self) -> bool
        ensures { result ≡ (length self.now == 0) }
    {
        self.pairs.is_empty()
    }

    /// The dependent of a holder.
    pub fn dependent(&self, holder: Addr) -> Option<Addr>
        ensures { option_map (λ at. at.0) result ≡ dependent_of self.now holder.0 }
    {
        if !self.marks.test(mark_of(holder, MARKS)) {
            return None;
        }
        dependent_in(&self.pairs, holder)
    }

    /// A holder has this dependent, in place of an earlier one. Refuses `TooMany` where there are 1,024 pairs and the holder is in none.
    pub fn link(&mut self, holder: Addr, dependent: Addr) -> Result<(), Refusal>
        ensures state { MatchResult result (λ _. self.new ≡ with_pair self.old holder.0 dependent.0) (λ _. self.new ≡ self.old) }
        ensures fits { length self.old < max_pairs → IsOk result }
        ensures replaces { IsSome (dependent_of self.old holder.0) → IsOk result }
        ensures room { OnOk result (is_full_for self.old holder.0 ≡ false) }
        ensures full { IfErr result (λ why. (why ≡ Refusal.TooMany max_pairs) × (length self.old ≡ max_pairs)
            × (dependent_of self.old holder.0 ≡ None)) }
    {
        let before = self.unlink(holder);
        if before.is_none() && self.pairs.len() == MAX_PAIRS {
            return Err(Refusal::TooMany {
                limit: MAX_PAIRS as u32,
            });
        }
        self.marks.set(mark_of(holder, MARKS));
        self.marks.set(mark_of(dependent, MARKS));
        let Ok(()) = self.pairs.push(Pair { holder, dependent }) else {
            unreachable!()
        };
        Ok(())
    }

    /// A holder has no dependent any more. What it had: None where it had none, and then nothing changes.
    pub fn unlink(&mut self, holder: Addr) -> Option<Addr>
        ensures value { option_map (λ at. at.0) result ≡ dependent_of self.old holder.0 }
        ensures state { self.new ≡ without_holder self.old holder.0 }
        ensures room { OnSome result (length self.new < max_pairs) }
    {
        let before = self.dependent(holder)?;
        end_pairs_of(&mut self.pairs, holder);
        Some(before)
    }

    /// The block at an address was freed: no pair has it as holder or dependent any more.
    pub fn forget(&mut self, at: Addr)
        ensures { self.new ≡ without_address self.old at.0 }
    {
        if self.pairs.is_empty() {
            return;
        }
        let mark = mark_of(at, MARKS);
        if !self.marks.test(mark) {
            return;
        }
        end_pairs_with(&mut self.pairs, at);
        if !has_mark(&self.pairs, mark) {
            self.marks.clear(mark);
        }
    }
}

// The dependent of a holder, by the first pair that has it.
fn dependent_in(pairs: &[Pair], holder: Addr) -> Option<Addr>
    ensures { option_map (λ at. at.0) result ≡ dependent_of pairs.now holder.0 }
{
    pairs
        .iter()
        .find(|pair| pair.holder == holder)
        .map(|pair| pair.dependent)
}

// Takes out the pairs of a holder.
fn end_pairs_of(pairs: &mut Vec<Pair>, holder: Addr)
    ensures items { pairs.new.items ≡ without_holder pairs.old.items holder.0 }
    ensures capacity { vec_capacity pairs.new ≡ vec_capacity pairs.old }
{
    pairs.retain(|pair| pair.holder != holder);
}

// Takes out the pairs that have an address as holder or dependent.
fn end_pairs_with(pairs: &mut Vec<Pair>, at: Addr)
    ensures items { pairs.new.items ≡ without_address pairs.old.items at.0 }
    ensures capacity { vec_capacity pairs.new ≡ vec_capacity pairs.old }
{
    pairs.retain(|pair| pair.holder != at && pair.dependent != at);
}

// Whether an address in some pair has this mark.
fn has_mark(pairs: &[Pair], mark: usize) -> bool
    ensures { result ≡ list_any (has_mark mark) pairs.now }
{
    pairs.iter().any(|pair| {
        mark_of(pair.holder, MARKS) == mark || mark_of(pair.dependent, MARKS) == mark
    })
}

// The pairs of one transform, by their old addresses.
#![tactic(auto)]

ghost use Rattle.std.specs.Prelude.{◌≡◌, ◌≢◌, ℕ, ◌≤◌, ◌&&◌, ◌==◌, bit_or, false, None, [], length, replicate, nat_eq, IfOk, vec_capacity};
ghost use Rattle.std.specs.List.{find};
ghost use Rattle.std.specs.List.Sorted.{IsNonDecreasingBy};
ghost use Rattle.std.specs.Map.{lookup};
ghost use Rattle.mps_address_marks.specs.Marks.{mark_of};
ghost use Rattle.mps_base.specs.Zones.{zones_meet, zone_bit_of};
ghost use Rattle.mps_bits.specs.Row.{bit_in};
ghost use Rattle.mps_xform.specs.Inside.{AreInZones, AreMarked, AreRanked, by_old};
ghost use Rattle.mps_xform.specs.Marks.{is_marked, marks_count, words_of_marks};
ghost use Rattle.mps_xform.specs.State.{max_pairs, is_of};

use crate::transforms::{MAX_PAIRS, Pair};
use mps_address_marks::mark_of;
use mps_base::{Addr, ZoneSet};
use std::alloc::{AllocError, Global};
use std::marker::Model;

/// How many marks there are, a bit each: as many as the largest arena has words. Addresses 8 MiB apart have the same.
const MARKS: usize = 1_048_576;

/// How many words they take: 128 KiB.
const WORDS_OF_MARKS: usize = MARKS / 64;

/// A pair, and where it comes in the order of adding.
#[derive(Clone, Copy)]
struct Ranked {
    pair: Pair,
    rank: usize,
}

/// The pairs of a transform, in ascending order of their old addresses. Beside them stands a mark for each old address. So one bit says of
/// an address that no pair has it, of nearly each address that none has. The zones of the old addresses say so of whole segments, by their
/// summaries. `new` is the only call that allocates, and it writes nothing: pairs and marks are written once pairs are taken.
#[derive(Drop)]
pub(crate) struct Replacements {
    pairs: Vec<Ranked>,
    marks: Vec<u64>,
    zones: ZoneSet,
}

impl Model for Replacements {
    ghost use Rattle.std.specs.Prelude.{List, ℕ, vec_capacity};
    ghost use Rattle.mps_xform.specs.declared.transforms.Pair.{Pair};
    ghost use Rattle.mps_xform.specs.Inside.{AreSoundReplacements, by_old};

    ghost Value = { List (ℕ × Pair) };

    ghost view = { λ r. by_old r.pairs.items };

    ghost invariant = { λ r. AreSoundReplacements r.pairs.items (vec_capacity r.pairs) r.marks.items (vec_capacity r.marks)
        r.zones.0 };
}

impl Replacements {
    /// No pair.
    pub(crate) fn new(alloc: Global) -> Result<Replacements, AllocError>
        ensures { IfOk result (λ replacements. replacements ≡ []) }
    {
        Ok(Replacements {
            pairs: Vec::with_capacity(alloc, MAX_PAIRS)?,
            marks: Vec::with_capacity(alloc, WORDS_OF_MARKS)?,
            zones: ZoneSet(0),
        })
    }

    /// Whether a pair may have this old address; false only if none has.
    #[inline(always)]
    pub(crate) fn may_have(&self, old: Addr) -> bool
        ensures { result ≡ false → lookup (nat_eq old.0) self.now ≡ None }
    {
        is_marked(&self.marks, old)
    }

    /// Zones in which all old addresses lie.
    pub(crate) fn zones(&self) -> ZoneSet
        ensures { (old : ℕ) → zones_meet (zone_bit_of old) result.0 ≡ false → lookup (nat_eq old) self.now ≡ None }
    {
        self.zones
    }

    /// The pair that has this old address.
    #[inline(always)]
    pub(crate) fn get(&self, old: Addr) -> Option<Pair>
        ensures { result ≡ lookup (nat_eq old.0) self.now }
    {
        if !self.may_have(old) {
            return None;
        }
        first_of(&self.pairs, old)
    }

    /// Takes the pairs of a transform in place of those that were there. If several have one old address the first counts.
    pub(crate) fn fill(&mut self, pairs: &[Pair], transform: u32)
        requires { length pairs.now ≤ max_pairs }
        ensures { (old : ℕ) → lookup (nat_eq old) self.new ≡ find (λ p. is_of transform p && (p.old.0 == old)) pairs.now }
    {
        self.pairs.clear();
        unmark_all(&mut self.marks);
        gather(&mut self.pairs, &mut self.marks, pairs, transform);
        self.pairs
            .sort_unstable_by_key(|ranked| (ranked.pair.old.0, ranked.rank));
        self.zones = zones_of(&self.pairs);
    }
}

// Whether an address has a mark. None has before pairs are taken.
#[inline(always)]
fn is_marked(marks: &[u64], at: Addr) -> bool
    ensures { result ≡ is_marked marks.now at.0 }
{
    let mark = mark_of(at, MARKS);
    match marks.get(mark / 64) {
        Some(word) => (*word >> (mark % 64)) & 1 == 1,
        None => false,
    }
}

// Gives an address its mark.
fn mark(marks: &mut [u64], at: Addr)
    requires { length marks.old ≡ words_of_marks }
    ensures whole { length marks.new ≡ words_of_marks }
    ensures marked { bit_in marks.new (mark_of marks_count at.0) ≡ 1 }
    ensures unchanged { (other : ℕ) → other ≢ mark_of marks_count at.0 → bit_in marks.new other ≡ bit_in marks.old other }
{
    let mark = mark_of(at, MARKS);
    marks[mark / 64] |= 1 << (mark % 64);
}

// Makes all marks, and clears them.
fn unmark_all(marks: &mut Vec<u64>)
    requires { words_of_marks ≤ vec_capacity marks.old }
    ensures whole { length marks.new.items ≡ words_of_marks }
    ensures capacity { vec_capacity marks.old ≤ vec_capacity marks.new }
{
    marks.clear();
    let Ok(()) = marks.resize(WORDS_OF_MARKS, 0) else {
        unreachable!()
    };
}

// The first pair that has this old address, among pairs in ascending order of these.
#[inline(never)]
fn first_of(pairs: &[Ranked], old: Addr) -> Option<Pair>
    requires { IsNonDecreasingBy (λ r. r.pair.old.0) pairs.now }
    ensures { result ≡ lookup (nat_eq old.0) (by_old pairs.now) }
{
    let at = pairs.partition_point(|ranked| ranked.pair.old.0 < old.0);
    if at == pairs.len() {
        return None;
    }
    let pair = pairs[at].pair;
    if pair.old == old { Some(pair) } else { None }
}

// Adds the pairs of a transform to none, each with its index as its rank, and marks their old addresses.
fn gather(ranked: &mut Vec<Ranked>, marks: &mut [u64], pairs: &[Pair], transform: u32)
    requires none { ranked.old.items ≡ [] }
    requires room { length pairs.now ≤ vec_capacity ranked.old }
    requires whole { length marks.old ≡ words_of_marks }
    ensures capacity { vec_capacity ranked.old ≤ vec_capacity ranked.new }
    ensures whole { length marks.new ≡ words_of_marks }
    ensures marked { AreMarked ranked.new.items marks.new }
    ensures ascending { AreRanked ranked.new.items (length pairs.now) }
    ensures pairs { (old : ℕ) → lookup (nat_eq old) (by_old ranked.new.items)
        ≡ find (λ p. is_of transform p && (p.old.0 == old)) pairs.now }
{
    for rank in 0..pairs.len() {
        let pair = pairs[rank];
        if pair.transform == transform {
            mark(marks, pair.old);
            let Ok(()) = ranked.push(Ranked { pair, rank }) else {
                unreachable!()
            };
        }
    }
}

// The zones of the old addresses of pairs.
fn zones_of(pairs: &[Ranked]) -> ZoneSet
    ensures { AreInZones pairs.now result.0 }
{
    let mut zones = 0;
    for index in 0..pairs.len() {
        zones = with_zone(zones, pairs[index].pair.old);
    }
    ZoneSet(zones)
}

// Some zones with that of an address too.
fn with_zone(zones: u64, at: Addr) -> u64
    ensures { result ≡ bit_or zones (zone_bit_of at.0) }
{
    zones | 1 << (at.grain() % 64)
}

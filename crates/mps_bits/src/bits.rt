// The table of bits.
#![tactic(auto)]

ghost use Rattle.std.specs.Prelude.{◌≡◌, ℕ, ◌+◌, ◌-◌, ◌%◌, ◌^◌, ◌<◌, ◌≤◌, ◌⊎◌, ◌&&◌, if◌then◌else◌, Bool, true, false, length, replicate, count_by, IfOk, slice_set};
ghost use Rattle.mps_bits.specs.OpenRuns.{is_one, is_set_from, is_set_unless, in_run, AreRunsApart};
ghost use Rattle.mps_bits.specs.Table.{bit, with_range, next_set, next_set_below, previous_set, lowest_clear_run, count_set};

use crate::words::{self, is_set, write_bit, write_range};
use std::alloc::{AllocError, Global};
use std::marker::Model;

/// A table of a fixed number of bits, all clear at first. Clauses see it as the list of its bits.
#[derive(Drop)]
pub struct Bits {
    words: Vec<u64>,
    len: usize,
}

impl Model for Bits {
    ghost use Rattle.std.specs.Prelude.{List, Bool, ◌*◌, ◌^◌, ◌≤◌, ◌<◌, vec_len};
    ghost use Rattle.mps_bits.specs.Table.{table_of};

    ghost Value = { List Bool };

    ghost view = { λ b. table_of b.words.items b.len };

    ghost invariant = { λ b. (b.len ≤ 64 * vec_len b.words) × (b.len < 2 ^ 63) };
}

impl Bits {
    /// A table of `len` clear bits. This is the only call that allocates.
    pub fn new(alloc: Global, len: usize) -> Result<Bits, AllocError>
        requires { len < 2 ^ 63 }
        ensures { IfOk result (λ bits. bits ≡ replicate len false) }
    {
        let words = vec![in alloc; 0u64; (len + 63) / 64]?;
        Ok(Bits { words, len })
    }

    /// How many bits the table has.
    pub fn len(&self) -> usize
        ensures { result ≡ length self.now }
    {
        self.len
    }

    /// The bit at `at`.
    pub fn test(&self, at: usize) -> bool
        requires { at < length self.now }
        ensures { result ≡ bit self.now at }
    {
        is_set(&self.words, at)
    }

    /// Sets the bit at `at`.
    pub fn set(&mut self, at: usize)
        requires { at < length self.old }
        ensures state { self.new ≡ slice_set self.old at true }
        ensures len { length self.new ≡ length self.old }
    {
        self.write(at, true);
    }

    /// Clears the bit at `at`.
    pub fn clear(&mut self, at: usize)
        requires { at < length self.old }
        ensures state { self.new ≡ slice_set self.old at false }
        ensures len { length self.new ≡ length self.old }
    {
        self.write(at, false);
    }

    /// Sets the bits from `from` up to, but not at, `to`.
    #[inline(always)]
    pub fn set_range(&mut self, from: usize, to: usize)
        requires ordered { from ≤ to }
        requires in_table { to ≤ length self.old }
        ensures state { self.new ≡ with_range self.old from to true }
        ensures len { length self.new ≡ length self.old }
    {
        self.write_range(from, to, true);
    }

    /// Clears the bits from `from` up to, but not at, `to`.
    pub fn clear_range(&mut self, from: usize, to: usize)
        requires ordered { from ≤ to }
        requires in_table { to ≤ length self.old }
        ensures state { self.new ≡ with_range self.old from to false }
        ensures len { length self.new ≡ length self.old }
    {
        self.write_range(from, to, false);
    }

    /// Sets the last of the bits from `from` up to, but not at, `to`, and clears the others of these.
    #[inline(always)]
    pub fn end_run(&mut self, from: usize, to: usize)
        requires nonempty { from < to }
        requires in_table { to ≤ length self.old }
        ensures state { self.new ≡ slice_set (with_range self.old from to false) (to - 1) true }
        ensures len { length self.new ≡ length self.old }
    {
        words::end_run(&mut self.words, from, to);
    }

    /// Clears all bits.
    pub fn clear_all(&mut self)
        ensures { self.new ≡ replicate (length self.old) false }
    {
        self.words.fill(0);
    }

    /// Clears the `count` bits from `from` on, and then sets as many from `to` on. In `ends` the last of these is set, and the others are
    /// cleared. If both runs lie in one word each, that takes three short steps.
    #[inline(always)]
    pub fn move_run(&mut self, ends: &mut Bits, from: usize, to: usize, count: usize)
        requires nonempty { 0 < count }
        requires from_in_table { from + count ≤ length self.old }
        requires to_in_table { to + count ≤ length self.old }
        requires to_in_ends { to + count ≤ length ends.old }
        ensures state { self.new ≡ with_range (with_range self.old from (from + count) false) to (to + count) true }
        ensures ends { ends.new ≡ slice_set (with_range ends.old to (to + count) false) (to + count - 1) true }
    {
        let _ = self.len();
        if from % 64 + count <= 64 && to % 64 + count <= 64 {
            self.write_in_word(from, count, false);
            self.write_in_word(to, count, true);
            ends.end_run(to, to + count);
        } else {
            self.move_long_run(ends, from, to, count);
        }
    }

    /// The same, 64 bits a step.
    #[cold]
    #[inline(never)]
    fn move_long_run(&mut self, ends: &mut Bits, from: usize, to: usize, count: usize)
        requires nonempty { 0 < count }
        requires from_in_table { from + count ≤ length self.old }
        requires to_in_table { to + count ≤ length self.old }
        requires to_in_ends { to + count ≤ length ends.old }
        ensures state { self.new ≡ with_range (with_range self.old from (from + count) false) to (to + count) true }
        ensures ends { ends.new ≡ slice_set (with_range ends.old to (to + count) false) (to + count - 1) true }
    {
        let _ = self.len();
        self.clear_range(from, from + count);
        self.set_range(to, to + count);
        ends.end_run(to, to + count);
    }

    /// Writes `value` into the `count` bits from `from` on, which lie in one word.
    #[inline(always)]
    fn write_in_word(&mut self, from: usize, count: usize, value: bool)
        requires nonempty { 0 < count }
        requires in_word { from % 64 + count ≤ 64 }
        requires in_table { from + count ≤ length self.old }
        ensures state { self.new ≡ with_range self.old from (from + count) value }
        ensures len { length self.new ≡ length self.old }
    {
        words::write_in_word(&mut self.words, from, count, value);
    }

    /// Writes `value` into the bit at `at`.
    fn write(&mut self, at: usize, value: bool)
        requires { at < length self.old }
        ensures state { self.new ≡ slice_set self.old at value }
        ensures len { length self.new ≡ length self.old }
    {
        write_bit(&mut self.words, at, value);
    }

    /// Writes `value` into the bits from `from` up to, but not at, `to`.
    #[inline(always)]
    fn write_range(&mut self, from: usize, to: usize, value: bool)
        requires ordered { from ≤ to }
        requires in_table { to ≤ length self.old }
        ensures state { self.new ≡ with_range self.old from to value }
        ensures len { length self.new ≡ length self.old }
    {
        write_range(&mut self.words, from, to, value);
    }

    /// The lowest set bit at or above `from`.
    pub fn next_set(&self, from: usize) -> Option<usize>
        ensures { result ≡ next_set self.now from }
    {
        words::lowest_set(&self.words, from, self.len)
    }

    /// The lowest set bit from `from` up to, but not at, `to`.
    pub fn next_set_below(&self, from: usize, to: usize) -> Option<usize>
        requires { to ≤ length self.now }
        ensures { result ≡ next_set_below self.now from to }
    {
        words::lowest_set(&self.words, from, to)
    }

    /// The highest set bit at or below `at`.
    pub fn previous_set(&self, at: usize) -> Option<usize>
        requires { at < length self.now }
        ensures { result ≡ previous_set self.now at }
    {
        words::highest_set(&self.words, at + 1)
    }

    /// Where the lowest run of `count` clear bits begins among those from `from` up to, but not at, `to`.
    pub fn lowest_clear_run(&self, from: usize, to: usize, count: usize) -> Option<usize>
        requires nonzero { 0 < count }
        requires in_table { to ≤ length self.now }
        ensures { result ≡ lowest_clear_run self.now from to count }
    {
        words::lowest_clear_run(&self.words, from, to, count)
    }

    /// Whether all bits from `from` up to, but not at, `to` are set.
    pub fn are_all_set(&self, from: usize, to: usize) -> bool
        requires { to ≤ length self.now }
        ensures sound { result ≡ true → (i : ℕ) → from ≤ i → i < to → bit self.now i ≡ true }
        ensures complete { ((i : ℕ) → from ≤ i → i < to → bit self.now i ≡ true) → result ≡ true }
    {
        words::are_all_set(&self.words, from, to)
    }

    /// Clears the bits from `from` up to, but not at, `to` that are clear in `others`, 64 a step, and returns how many of them were set.
    pub fn clear_unless(&mut self, others: &Bits, from: usize, to: usize) -> usize
        requires in_words { (from % 64 ≡ 0) × (to % 64 ≡ 0) }
        requires in_table { to ≤ length self.old }
        requires in_others { to ≤ length others.now }
        ensures inside { (i : ℕ) → from ≤ i → i < to → bit self.new i ≡ (bit self.old i && bit others.now i) }
        ensures outside { (i : ℕ) → (i < from) ⊎ (to ≤ i) → bit self.new i ≡ bit self.old i }
        ensures counted { count_by (λ b. b) self.new + result ≡ count_by (λ b. b) self.old }
        ensures len { length self.new ≡ length self.old }
    {
        words::clear_unless(&mut self.words, &others.words, from / 64, to / 64)
    }

    /// Clears the bits of runs from `from` up to, but not at, `to`, 64 a step, and returns how many of them were set. A run begins at a bit
    /// of `begins` that is clear in `others`, and ends at the next bit of `ends`, which may be the one at which it begins.
    pub fn clear_runs(
        &mut self,
        begins: &Bits,
        others: &Bits,
        ends: &Bits,
        from: usize,
        to: usize,
    ) -> usize
        requires in_words { (from % 64 ≡ 0) × (to % 64 ≡ 0) }
        requires ordered { from ≤ to }
        requires in_table { to ≤ length self.old }
        requires in_begins { to ≤ length begins.now }
        requires in_others { to ≤ length others.now }
        requires in_ends { to ≤ length ends.now }
        requires apart { AreRunsApart false (is_set_unless begins.now others.now from) (is_set_from ends.now from) (to - from) }
        ensures inside { (n : ℕ) → n < to - from → bit self.new (from + n)
            ≡ (if in_run false (is_set_unless begins.now others.now from) (is_set_from ends.now from) n then false
            else bit self.old (from + n)) }
        ensures outside { (i : ℕ) → (i < from) ⊎ (to ≤ i) → bit self.new i ≡ bit self.old i }
        ensures counted { count_by (λ b. b) self.new + result ≡ count_by (λ b. b) self.old }
        ensures len { length self.new ≡ length self.old }
    {
        words::clear_runs(
            &mut self.words,
            &begins.words,
            &others.words,
            &ends.words,
            from / 64,
            to / 64,
        )
    }

    /// The 64 bits from `at` on that are clear in `others`, as a number.
    #[inline(always)]
    pub fn word_unless(&self, others: &Bits, at: usize) -> u64
        requires in_words { at % 64 ≡ 0 }
        requires in_table { at + 64 ≤ length self.now }
        requires in_others { at + 64 ≤ length others.now }
        ensures { (i : ℕ) → i < 64 → is_one result i ≡ is_set_unless self.now others.now at i }
    {
        words::word_unless(&self.words, &others.words, at / 64)
    }

    /// Whether each bit from `from` up to, but not at, `to` that is set is also set in `others`, 64 a step.
    pub fn is_subset_of(&self, others: &Bits, from: usize, to: usize) -> bool
        requires in_words { (from % 64 ≡ 0) × (to % 64 ≡ 0) }
        requires in_table { to ≤ length self.now }
        requires in_others { to ≤ length others.now }
        ensures sound { result ≡ true → (i : ℕ) → from ≤ i → i < to → bit self.now i ≡ true → bit others.now i ≡ true }
        ensures complete { ((i : ℕ) → from ≤ i → i < to → bit self.now i ≡ true → bit others.now i ≡ true) → result ≡ true }
    {
        words::are_words_unless(&self.words, &others.words, from / 64, to / 64, 0)
    }

    /// Whether all bits from `from` up to, but not at, `to` are set and clear in `others`, 64 a step.
    pub fn are_all_set_unless(&self, others: &Bits, from: usize, to: usize) -> bool
        requires in_words { (from % 64 ≡ 0) × (to % 64 ≡ 0) }
        requires in_table { to ≤ length self.now }
        requires in_others { to ≤ length others.now }
        ensures sound { result ≡ true → (i : ℕ) → from ≤ i → i < to → (bit self.now i ≡ true) × (bit others.now i ≡ false) }
        ensures complete { ((i : ℕ) → from ≤ i → i < to → (bit self.now i ≡ true) × (bit others.now i ≡ false)) → result ≡ true }
    {
        words::are_words_unless(&self.words, &others.words, from / 64, to / 64, u64::MAX)
    }

    /// How many bits from `from` up to, but not at, `to` are set.
    pub fn count_set(&self, from: usize, to: usize) -> usize
        requires ordered { from ≤ to }
        requires in_table { to ≤ length self.now }
        ensures { result ≡ count_set self.now from to }
    {
        words::count_set(&self.words, from, to)
    }
}

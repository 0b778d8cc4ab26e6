// Words in a row as one row of bits: bit i is bit i % 64 of word i / 64.
#![tactic(auto)]

ghost use Rattle.std.specs.Prelude.{true, false, ◌≡◌, ◌≢◌, ◌==◌, ℕ, ◌+◌, ◌-◌, ◌*◌, ◌/◌, ◌%◌, ◌^◌, ◌<◌, ◌≤◌, ◌⊎◌, length, min, if◌then◌else◌, MatchOption};
ghost use Rattle.std.specs.Int.{bit_at};
ghost use Rattle.mps_bits.specs.OpenRuns.{is_one, is_one_in, is_one_unless, in_run, AreRunsApart};
ghost use Rattle.mps_bits.specs.Row.{bit_in, sum_over, IsClear, IsSet, IsLowestSet, IsHighestSet, IsLowestRun};

use crate::word::{
    bits_from, clear_run, highest_one, lowest_one, runs_between, with_bits, with_last,
};

/// How many bits lie between `at` and the end of its word, or `to` if that is nearer.
fn width_at(at: usize, to: usize) -> usize
    requires { at < to }
    ensures nonzero { 0 < result }
    ensures in_word { at % 64 + result ≤ 64 }
    ensures in_range { at + result ≤ to }
    ensures whole { at + result ≡ min (64 * (at / 64 + 1)) to }
{
    (64 - at % 64).min(to - at)
}

/// The `width` bits from `at` on, which lie in one word, as the lowest bits of a word.
fn chunk(words: &[u64], at: usize, width: usize) -> u64
    requires nonzero { 0 < width }
    requires in_word { at % 64 + width ≤ 64 }
    requires in_row { at < 64 * length words.now }
    ensures inside { (i : ℕ) → i < width → bit_at result i ≡ bit_in words.now (at + i) }
    ensures above { (i : ℕ) → width ≤ i → bit_at result i ≡ 0 }
{
    bits_from(words[at / 64], at % 64, width)
}

/// The bit at `at`.
pub(crate) fn is_set(words: &[u64], at: usize) -> bool
    requires { at < 64 * length words.now }
    ensures { result ≡ (bit_in words.now at == 1) }
{
    (words[at / 64] >> (at % 64)) & 1 == 1
}

/// Writes `value` into the bit at `at`.
pub(crate) fn write_bit(words: &mut [u64], at: usize, value: bool)
    requires { at < 64 * length words.old }
    ensures same { bit_in words.new at ≡ (if value then 1 else 0) }
    ensures unchanged { (i : ℕ) → i ≢ at → bit_in words.new i ≡ bit_in words.old i }
{
    words[at / 64] = with_bits(words[at / 64], at % 64, 1, value);
}

/// Writes `value` into the bits from `from` up to `to`. Bits of one word are written in one step.
#[inline(always)]
pub(crate) fn write_range(words: &mut [u64], from: usize, to: usize, value: bool)
    requires { to ≤ 64 * length words.old }
    ensures inside { (i : ℕ) → from ≤ i → i < to → bit_in words.new i ≡ (if value then 1 else 0) }
    ensures unchanged { (i : ℕ) → (i < from) ⊎ (to ≤ i) → bit_in words.new i ≡ bit_in words.old i }
{
    if from < to && from % 64 + (to - from) <= 64 {
        words[from / 64] = with_bits(words[from / 64], from % 64, to - from, value);
    } else {
        write_words(words, from, to, value);
    }
}

/// Writes `value` into the `count` bits from `from` on, which lie in one word.
#[inline(always)]
pub(crate) fn write_in_word(words: &mut [u64], from: usize, count: usize, value: bool)
    requires nonempty { 0 < count }
    requires in_word { from % 64 + count ≤ 64 }
    requires in_row { from + count ≤ 64 * length words.old }
    ensures inside { (i : ℕ) → from ≤ i → i < from + count → bit_in words.new i ≡ (if value then 1 else 0) }
    ensures unchanged { (i : ℕ) → (i < from) ⊎ (from + count ≤ i) → bit_in words.new i ≡ bit_in words.old i }
{
    words[from / 64] = with_bits(words[from / 64], from % 64, count, value);
}

/// Sets the last of the bits from `from` up to `to`, and clears the others of these. Bits of one word are written in one step.
#[inline(always)]
pub(crate) fn end_run(words: &mut [u64], from: usize, to: usize)
    requires nonempty { from < to }
    requires in_row { to ≤ 64 * length words.old }
    ensures last { bit_in words.new (to - 1) ≡ 1 }
    ensures others { (i : ℕ) → from ≤ i → i < to - 1 → bit_in words.new i ≡ 0 }
    ensures unchanged { (i : ℕ) → (i < from) ⊎ (to ≤ i) → bit_in words.new i ≡ bit_in words.old i }
{
    if from % 64 + (to - from) <= 64 {
        words[from / 64] = with_last(words[from / 64], from % 64, to - from);
    } else {
        write_words(words, from, to, false);
        write_bit(words, to - 1, true);
    }
}

/// The same as `write_range`, 64 bits a step.
#[cold]
#[inline(never)]
fn write_words(words: &mut [u64], from: usize, to: usize, value: bool)
    requires { to ≤ 64 * length words.old }
    ensures inside { (i : ℕ) → from ≤ i → i < to → bit_in words.new i ≡ (if value then 1 else 0) }
    ensures unchanged { (i : ℕ) → (i < from) ⊎ (to ≤ i) → bit_in words.new i ≡ bit_in words.old i }
{
    let mut at = from;
    while at < to {
        let width = width_at(at, to);
        words[at / 64] = with_bits(words[at / 64], at % 64, width, value);
        at += width;
    }
}

/// The lowest set bit from `from` up to `to`.
pub(crate) fn lowest_set(words: &[u64], from: usize, to: usize) -> Option<usize>
    requires { to ≤ 64 * length words.now }
    ensures { MatchOption result (IsClear words.now from to) (λ p. IsLowestSet words.now from to p) }
{
    if from >= to {
        return None;
    }
    let width = width_at(from, to);
    let bits = chunk(words, from, width);
    if bits != 0 {
        return Some(from + lowest_one(bits));
    }
    lowest_in_words(words, from / 64 + 1, to)
}

/// The lowest set bit from the word `first` on up to `to`. A word of which no bit is set is one short step.
fn lowest_in_words(words: &[u64], first: usize, to: usize) -> Option<usize>
    requires { to ≤ 64 * length words.now }
    ensures { MatchOption result (IsClear words.now (64 * first) to) (λ p. IsLowestSet words.now (64 * first) to p) }
{
    let end = to.div_ceil(64);
    let mut at = first;
    while at < end {
        let bits = chunk(words, 64 * at, 64);
        if bits != 0 {
            let found = 64 * at + lowest_one(bits);
            if found < to {
                return Some(found);
            }
            return None;
        }
        at += 1;
    }
    None
}

/// The highest set bit below `to`.
pub(crate) fn highest_set(words: &[u64], to: usize) -> Option<usize>
    requires { to ≤ 64 * length words.now }
    ensures { MatchOption result (IsClear words.now 0 to) (λ p. IsHighestSet words.now to p) }
{
    let mut end = to;
    while end > 0 {
        let at = end - 1 - (end - 1) % 64;
        let bits = chunk(words, at, end - at);
        if bits != 0 {
            return Some(at + highest_one(bits));
        }
        end = at;
    }
    None
}

/// How many bits from `from` up to `to` are set.
pub(crate) fn count_set(words: &[u64], from: usize, to: usize) -> usize
    requires { to ≤ 64 * length words.now }
    ensures { result ≡ sum_over (bit_in words.now) from (to - from) }
{
    let mut at = from;
    let mut count = 0;
    while at < to {
        let width = width_at(at, to);
        count += chunk(words, at, width).count_ones() as usize;
        at += width;
    }
    count
}

/// The lowest run of `count` clear bits from `from` up to `to`. `start` is where the run that ends at `at` begins.
pub(crate) fn lowest_clear_run(words: &[u64], from: usize, to: usize, count: usize) -> Option<usize>
    requires nonzero { 0 < count }
    requires in_row { to ≤ 64 * length words.now }
    ensures { MatchOption result ((p : ℕ) → from ≤ p → p + count ≤ to → ¬ IsClear words.now p (p + count))
        (λ p. IsLowestRun words.now from to count p) }
{
    let mut at = from;
    let mut start = from;
    while at < to {
        let width = width_at(at, to);
        let bits = chunk(words, at, width);
        if bits == 0 {
            if at + width - start >= count {
                return Some(start);
            }
        } else {
            if at + lowest_one(bits) - start >= count {
                return Some(start);
            }
            if let Some(index) = clear_run(bits, width, count) {
                return Some(at + index);
            }
            start = at + highest_one(bits) + 1;
        }
        at += width;
    }
    None
}

/// Whether all bits from `from` up to `to` are set. Whole words are one short step each.
pub(crate) fn are_all_set(words: &[u64], from: usize, to: usize) -> bool
    requires { to ≤ 64 * length words.now }
    ensures sound { result ≡ true → IsSet words.now from to }
    ensures complete { IsSet words.now from to → result ≡ true }
{
    if from % 64 == 0 && to % 64 == 0 {
        are_full(words, from / 64, to / 64)
    } else {
        lowest_clear_run(words, from, to, 1).is_none()
    }
}

/// Whether all bits of the words from `from` up to `to` are set.
fn are_full(words: &[u64], from: usize, to: usize) -> bool
    requires { to ≤ length words.now }
    ensures sound { result ≡ true → IsSet words.now (64 * from) (64 * to) }
    ensures complete { IsSet words.now (64 * from) (64 * to) → result ≡ true }
{
    for at in from..to {
        if words[at] != u64::MAX {
            return false;
        }
    }
    true
}

/// The word of a number, without the bits that are set in `others`.
#[inline(always)]
pub(crate) fn word_unless(words: &[u64], others: &[u64], at: usize) -> u64
    requires in_row { at < length words.now }
    requires in_others { at < length others.now }
    ensures { (i : ℕ) → i < 64 → is_one result i ≡ is_one_unless words.now others.now (64 * at) i }
{
    words[at] & !others[at]
}

/// Whether each word from `from` up to `to`, without the bits that are set in `others`, is `value`.
pub(crate) fn are_words_unless(
    words: &[u64],
    others: &[u64],
    from: usize,
    to: usize,
    value: u64,
) -> bool
    requires in_row { to ≤ length words.now }
    requires in_others { to ≤ length others.now }
    ensures sound { result ≡ true → (at k : ℕ) → from ≤ at → at < to → k < 64
        → is_one_unless words.now others.now (64 * at) k ≡ is_one value k }
    ensures complete { ((at k : ℕ) → from ≤ at → at < to → k < 64 → is_one_unless words.now others.now (64 * at) k ≡ is_one value k)
        → result ≡ true }
{
    for at in from..to {
        if word_unless(words, others, at) != value {
            return false;
        }
    }
    true
}

/// Clears in one word the bits of a mask, and returns how many of them were set.
fn clear_in_word(words: &mut [u64], at: usize, mask: u64) -> usize
    requires { at < length words.old }
    ensures inside { (k : ℕ) → k < 64 → bit_in words.new (64 * at + k) ≡ min (bit_in words.old (64 * at + k)) (1 - bit_at mask k) }
    ensures outside { (i : ℕ) → i / 64 ≢ at → bit_in words.new i ≡ bit_in words.old i }
    ensures counted { (n : ℕ) → 64 * (at + 1) ≤ n → sum_over (bit_in words.new) 0 n + result ≡ sum_over (bit_in words.old) 0 n }
    ensures at_most { result ≤ 64 }
{
    let word = words[at];
    words[at] = word & !mask;
    (word & mask).count_ones() as usize
}

/// Clears in the words from `from` up to `to` the bits that are clear in `others`, and returns how many of them were set.
pub(crate) fn clear_unless(words: &mut [u64], others: &[u64], from: usize, to: usize) -> usize
    requires small { to < 2 ^ 57 }
    requires in_row { to ≤ length words.old }
    requires in_others { to ≤ length others.now }
    ensures inside { (i : ℕ) → 64 * from ≤ i → i < 64 * to → bit_in words.new i ≡ min (bit_in words.old i) (bit_in others.now i) }
    ensures outside { (i : ℕ) → (i < 64 * from) ⊎ (64 * to ≤ i) → bit_in words.new i ≡ bit_in words.old i }
    ensures counted { (n : ℕ) → 64 * to ≤ n → sum_over (bit_in words.new) 0 n + result ≡ sum_over (bit_in words.old) 0 n }
{
    let mut at = from;
    let mut count = 0;
    while at < to {
        count += clear_in_word(words, at, !others[at]);
        at += 1;
    }
    count
}

/// Clears in the words from `from` up to `to` the bits of runs, and returns how many of them were set. A run begins at a bit of `begins`
/// that is clear in `others`, and ends at the next bit of `ends`.
pub(crate) fn clear_runs(
    words: &mut [u64],
    begins: &[u64],
    others: &[u64],
    ends: &[u64],
    from: usize,
    to: usize,
) -> usize
    requires ordered { from ≤ to }
    requires small { to < 2 ^ 57 }
    requires in_row { to ≤ length words.old }
    requires in_begins { to ≤ length begins.now }
    requires in_others { to ≤ length others.now }
    requires in_ends { to ≤ length ends.now }
    requires apart { AreRunsApart false (is_one_unless begins.now others.now (64 * from)) (is_one_in ends.now (64 * from))
        (64 * (to - from)) }
    ensures inside { (n : ℕ) → n < 64 * (to - from) → bit_in words.new (64 * from + n)
        ≡ (if in_run false (is_one_unless begins.now others.now (64 * from)) (is_one_in ends.now (64 * from)) n then 0
        else bit_in words.old (64 * from + n)) }
    ensures outside { (i : ℕ) → (i < 64 * from) ⊎ (64 * to ≤ i) → bit_in words.new i ≡ bit_in words.old i }
    ensures counted { (n : ℕ) → 64 * to ≤ n → sum_over (bit_in words.new) 0 n + result ≡ sum_over (bit_in words.old) 0 n }
{
    let mut at = from;
    let mut count = 0;
    let mut go_on = false;
    while at < to {
        let runs = runs_between(word_unless(begins, others, at), ends[at], go_on);
        count += clear_in_word(words, at, runs.inside);
        go_on = runs.go_on;
        at += 1;
    }
    count
}

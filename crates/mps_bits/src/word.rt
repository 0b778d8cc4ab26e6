// One word of 64 bits; bit 0 is its lowest.
#![tactic(auto)]

ghost use Rattle.std.specs.Prelude.{◌≡◌, ◌≢◌, ℕ, ◌+◌, ◌-◌, ◌*◌, ◌^◌, ◌<◌, ◌≤◌, ◌↔◌, ◌⊎◌, if◌then◌else◌, MatchOption};
ghost use Rattle.std.specs.Int.{bit_at};
ghost use Rattle.mps_bits.specs.OneWord.{IsClearIn, IsLowestRunIn};
ghost use Rattle.mps_bits.specs.OpenRuns.{goes_on, in_run, is_one, AreRunsApart};

/// A word of ones.
const LOW_WORD: u128 = 0xffff_ffff_ffff_ffff;

/// The bits in runs, and whether a run goes on after the highest of them.
#[derive(Clone, Copy)]
pub(crate) struct Runs {
    pub(crate) inside: u64,
    pub(crate) go_on: bool,
}

/// A word whose `width` lowest bits are set.
pub(crate) fn low_ones(width: usize) -> u64
    requires nonzero { 0 < width }
    requires fits { width ≤ 64 }
    ensures { result ≡ 2 ^ width - 1 }
{
    u64::MAX >> (64 - width)
}

/// The index of the lowest set bit.
pub fn lowest_one(word: u64) -> usize
    requires { 0 < word }
    ensures in_word { result < 64 }
    ensures set { bit_at word result ≡ 1 }
    ensures below { (i : ℕ) → i < result → bit_at word i ≡ 0 }
{
    word.trailing_zeros() as usize
}

/// The word without the bit at `index`.
#[inline(always)]
pub fn without_bit(word: u64, index: usize) -> u64
    requires { index < 64 }
    ensures gone { bit_at result index ≡ 0 }
    ensures others { (i : ℕ) → i < 64 → i ≢ index → bit_at result i ≡ bit_at word i }
{
    word & !(1 << index)
}

/// The bits in the runs that begin at bits of `begins`. Each ends at the next bit of `ends`, which may be the one at which it begins.
/// `first` says whether a run goes on before the lowest bit. One sum finds them all: what a begin carries passes up to the next end.
#[inline(always)]
pub(crate) fn runs_between(begins: u64, ends: u64, first: bool) -> Runs
    requires apart { AreRunsApart first (is_one begins) (is_one ends) 64 }
    ensures inside { (i : ℕ) → i < 64 → is_one result.inside i ≡ in_run first (is_one begins) (is_one ends) i }
    ensures rest { result.go_on ≡ goes_on first (is_one begins) (is_one ends) 64 }
{
    let others = !ends;
    let sum = others as u128 + begins as u128 + first as u128;
    Runs {
        inside: (sum & LOW_WORD) as u64 ^ others,
        go_on: sum >> 64 != 0,
    }
}

/// The index of the highest set bit.
pub(crate) fn highest_one(word: u64) -> usize
    requires { 0 < word }
    ensures in_word { result < 64 }
    ensures set { bit_at word result ≡ 1 }
    ensures above { (i : ℕ) → result < i → bit_at word i ≡ 0 }
{
    63 - word.leading_zeros() as usize
}

/// The indexes in `word` from which on `count` bits are set. It doubles the length of the runs, so it takes at most six steps.
pub(crate) fn run_starts(word: u64, count: usize) -> u64
    requires nonzero { 0 < count }
    requires fits { count ≤ 64 }
    ensures { (i : ℕ) → (bit_at result i ≡ 1) ↔ ((k : ℕ) → k < count → bit_at word (i + k) ≡ 1) }
{
    let mut starts = word;
    let mut length = 1;
    while length < count {
        let step = length.min(count - length);
        starts &= starts >> step;
        length += step;
    }
    starts
}

/// The word with `width` bits from `low` on set, or cleared.
pub(crate) fn with_bits(word: u64, low: usize, width: usize, value: bool) -> u64
    requires nonzero { 0 < width }
    requires fits { low + width ≤ 64 }
    ensures inside { (i : ℕ) → low ≤ i → i < low + width → bit_at result i ≡ (if value then 1 else 0) }
    ensures unchanged { (i : ℕ) → i < 64 → (i < low) ⊎ (low + width ≤ i) → bit_at result i ≡ bit_at word i }
{
    let mask = low_ones(width) << low;
    if value { word | mask } else { word & !mask }
}

/// The word with the last of `width` bits from `low` on set, and the others of these cleared.
#[inline(always)]
pub(crate) fn with_last(word: u64, low: usize, width: usize) -> u64
    requires nonzero { 0 < width }
    requires fits { low + width ≤ 64 }
    ensures last { bit_at result (low + width - 1) ≡ 1 }
    ensures others { (i : ℕ) → low ≤ i → i < low + width - 1 → bit_at result i ≡ 0 }
    ensures unchanged { (i : ℕ) → i < 64 → (i < low) ⊎ (low + width ≤ i) → bit_at result i ≡ bit_at word i }
{
    with_bits(with_bits(word, low, width, false), low + width - 1, 1, true)
}

/// The `width` bits from `low` on, as the lowest bits of a word.
pub(crate) fn bits_from(word: u64, low: usize, width: usize) -> u64
    requires nonzero { 0 < width }
    requires fits { low + width ≤ 64 }
    ensures inside { (i : ℕ) → i < width → bit_at result i ≡ bit_at word (low + i) }
    ensures above { (i : ℕ) → width ≤ i → bit_at result i ≡ 0 }
{
    (word >> low) & low_ones(width)
}

/// Where the lowest run of `count` clear bits begins among the `width` lowest bits.
pub(crate) fn clear_run(word: u64, width: usize, count: usize) -> Option<usize>
    requires nonzero { 0 < count }
    requires nonzero_width { 0 < width }
    requires fits { width ≤ 64 }
    ensures { MatchOption result ((p : ℕ) → p + count ≤ width → ¬ IsClearIn word p count) (λ p. IsLowestRunIn word width count p) }
{
    if count > width {
        return None;
    }
    let starts = run_starts(!word & low_ones(width), count);
    if starts == 0 {
        None
    } else {
        Some(lowest_one(starts))
    }
}

// What the tables by grain have: entries, first grains, bounds of gaps, and what a fix asks.
#![tactic(auto)]

ghost use Rattle.std.specs.Prelude.{◌≡◌, ◌≢◌, ℕ, ◌+◌, ◌^◌, ◌<◌, ◌≤◌, ◌⊎◌, true, false, length, get_or, drop, IfSome, IfNone};
ghost use Rattle.mps_base.specs.Address.{grain_of};
ghost use Rattle.mps_seg.specs.declared.entry.Entry.TheVariants.{Free};
ghost use Rattle.mps_seg.specs.Table.{first_entry, first_at, with_any_gap, IsCondemnedFirst, NoneCondemnedFirst};

use crate::Owner;
use mps_base::{Addr, Rank};
use mps_bits::Bits;
use mps_gaps::GapBounds;

/// What the table of segments has for a grain.
#[derive(Clone, Copy)]
pub(crate) enum Entry {
    /// No segment begins at this grain.
    Free,
    /// A segment of n grains begins here.
    First {
        grains: u32,
        pool: u32,
        generation: u32,
        rank: Rank,
    },
}

/// What a fix asks of the condemned segment in which a grain lies.
#[derive(Clone, Copy)]
pub(crate) struct CondemnedSegment {
    pub(crate) owner: Owner,
    pub(crate) rank: Rank,
}

/// The first grain from `start` on at which a segment begins.
pub(crate) fn first_entry_from(table: &[Entry], start: usize) -> Option<usize>
    ensures value { result ≡ first_entry start (drop start table.now) }
    ensures in_table { IfSome result (λ grain. grain < length table.now) }
{
    for grain in start..table.len() {
        if let Entry::First { .. } = table[grain] {
            return Some(grain);
        }
    }
    None
}

/// The lowest grain from `start` on at which a condemned segment begins. Bits of other grains are passed over. `start` is tried by itself,
/// since a collection reclaims one segment after another, and mostly there is no grain between two of them.
pub(crate) fn condemned_entry_from(table: &[Entry], condemned: &Bits, start: usize) -> Option<usize>
    requires at_most { length table.now < 2 ^ 32 }
    requires in_bits { length table.now ≤ length condemned.now }
    ensures sound { IfSome result (λ grain. IsCondemnedFirst table.now condemned.now start grain) }
    ensures none { IfNone result (NoneCondemnedFirst table.now condemned.now start (length table.now)) }
{
    if begins_condemned(table, condemned, start) {
        return Some(start);
    }
    let mut from = start;
    while let Some(grain) = condemned.next_set_below(from, table.len()) {
        if is_first(table[grain]) {
            return Some(grain);
        }
        from = grain + 1;
    }
    None
}

/// Whether a condemned segment begins at this grain.
#[inline(always)]
fn begins_condemned(table: &[Entry], condemned: &Bits, grain: usize) -> bool
    requires in_bits { length table.now ≤ length condemned.now }
    ensures sound { result ≡ true → IsCondemnedFirst table.now condemned.now grain grain }
{
    grain < table.len() && condemned.test(grain) && is_first(table[grain])
}

/// Whether a segment begins at the grain with this entry.
fn is_first(entry: Entry) -> bool
    ensures sound { result ≡ true → entry ≢ Free }
    ensures complete { result ≡ false → entry ≡ Free }
{
    matches!(entry, Entry::First { .. })
}

/// Writes the same for `grains` grains from `grain` on, as all that lie in one segment have it.
pub(crate) fn note_grains<T: Copy>(table: &mut [T], grain: usize, grains: usize, value: T)
    requires { grain + grains ≤ length table.old }
    ensures size { length table.new ≡ length table.old }
    ensures written { (g : ℕ) (d : T) → grain ≤ g → g < grain + grains → get_or table.new g d ≡ value }
    ensures unchanged { (g : ℕ) (d : T) → (g < grain) ⊎ (grain + grains ≤ g) → get_or table.new g d ≡ get_or table.old g d }
{
    for at in grain..grain + grains {
        table[at] = value;
    }
}

/// From now on the segment in which an address lies may have a gap of any length.
pub(crate) fn allow_any_gap(firsts: &[u32], bounds: &mut GapBounds, at: Addr)
    requires in_firsts { grain_of at.0 < length firsts.now }
    requires in_bounds { first_at firsts.now at.0 < length bounds.old }
    ensures { bounds.new ≡ with_any_gap firsts.now bounds.old at.0 }
{
    let first = firsts[at.grain()] as usize;
    if bounds.at(first) != u32::MAX {
        bounds.set(first, u32::MAX);
    }
}

// A segment is reclaimed at the end of a collection.
#![tactic(auto)]

ghost use Rattle.std.specs.Prelude.{◌≡◌, ℕ, ◌+◌, ◌-◌, ◌%◌, ◌<◌, ◌≤◌, ◌⊎◌, length, slice_index};
ghost use Rattle.mps_base.specs.Address.{word_of, bytes_of_word};
ghost use Rattle.mps_base.specs.Run.{runs_within};
ghost use Rattle.mps_extents.specs.Extents.{AreWhole};
ghost use Rattle.mps_seg.specs.Segs.{LiesIn, held_runs};
ghost use Rattle.mps_amc.specs.Moving.{run_at};
ghost use Rattle.mps_amc.specs.Reclaiming.{IsSpan, CanReclaim, LiesInPad, ArePadded, IsReclaimed};

use crate::Amc;
use mps_base::{Addr, BYTES_OF_GRAIN, BYTES_OF_WORD, Trail};
use mps_format::Format;
use mps_seg::Segs;

/// The most words that a pad has.
const MAX_PAD_WORDS: u64 = 65_536;

impl Amc {
    /// Reclaims the segment at `base` at the end of a collection. Its blocks that weren't kept are freed, in ascending order. If
    /// nothing is left in it it is given back; else the words around its blocks become pads.
    pub fn reclaim_seg<F: Format>(&self, segs: &mut Segs, trail: &mut Trail, format: &F, base: Addr)
        requires aligned { base.0 % bytes_of_word ≡ 0 }
        requires segment { CanReclaim segs.old base.0 trail.old.spare }
        ensures { IsReclaimed (F.layout format.now) segs.old trail.old base segs.new trail.new }
    {
        let _ = segs.grains();
        let bytes = BYTES_OF_GRAIN * u64::from(segs.segment(base).grains);
        let end = Addr(base.0 + bytes);
        segs.drop_lost(trail, base);
        if segs.is_full(base, end) {
            segs.blocks_are_covered();
            return;
        }
        if segs.is_empty(base) {
            segs.give(trail, base);
        } else {
            segs.segments_are_held();
            pad_around(segs, format, base, end);
        }
    }
}

/// Turns the words of the segment from `base` to `end` that no block of it has into pads.
fn pad_around<F: Format>(segs: &mut Segs, format: &F, base: Addr, end: Addr)
    requires aligned { base.0 % bytes_of_word ≡ 0 }
    requires span { IsSpan segs.old base.0 end.0 }
    requires held { LiesIn (held_runs segs.old) (record { from = word_of base.0; count = word_of end.0 - word_of base.0 }) }
    requires whole { AreWhole (word_of base.0) (word_of end.0) segs.old.covered }
    ensures state { segs.new ≡ record segs.old { words = segs.new.words } }
    ensures words { ArePadded (F.layout format.now) (word_of base.0) (word_of end.0)
        (runs_within (word_of base.0) (word_of end.0) segs.old.blocks) segs.old.words segs.new.words }
{
    let _ = segs.grains();
    let mut from = base;
    while let Some(hole) = segs.next_hole(base, from, end) {
        pad_words(segs, format, hole.from, hole.to);
        from = hole.to;
    }
}

/// Turns the words from `from` on up to `to` into pads.
fn pad_words<F: Format>(segs: &mut Segs, format: &F, from: Addr, to: Addr)
    requires aligned { from.0 % bytes_of_word ≡ 0 }
    requires held { word_of from.0 < word_of to.0
        → LiesIn (held_runs segs.old) (record { from = word_of from.0; count = word_of to.0 - word_of from.0 }) }
    requires in_arena { word_of to.0 ≤ length segs.old.words }
    ensures state { segs.new ≡ record segs.old { words = segs.new.words } }
    ensures size { length segs.new.words ≡ length segs.old.words }
    ensures pads { (i : ℕ) → word_of from.0 ≤ i → i < word_of to.0
        → LiesInPad (F.layout format.now) (word_of from.0) (word_of to.0) segs.new.words i }
    ensures others { (i : ℕ) → (i < word_of from.0) ⊎ (word_of to.0 ≤ i) → slice_index segs.new.words i ≡ slice_index segs.old.words i }
{
    let mut at = from;
    while at.word() < to.word() {
        let words = ((to.word() - at.word()) as u64).min(MAX_PAD_WORDS) as u32;
        pad_piece(segs, format, at, words);
        at = Addr(at.0 + BYTES_OF_WORD * u64::from(words));
    }
}

/// Turns `words` words into one pad.
fn pad_piece<F: Format>(segs: &mut Segs, format: &F, at: Addr, words: u32)
    requires aligned { at.0 % bytes_of_word ≡ 0 }
    requires held { LiesIn (held_runs segs.old) (run_at at.0 1) }
    requires in_arena { word_of at.0 + words ≤ length segs.old.words }
    requires nonzero { 0 < words }
    requires at_most { words ≤ 65536 }
    ensures state { segs.new ≡ record segs.old { words = segs.new.words } }
    ensures size { length segs.new.words ≡ length segs.old.words }
    ensures head { slice_index segs.new.words (word_of at.0) ≡ (F.layout format.now).pad_head words }
    ensures others { (i : ℕ) → (i < word_of at.0) ⊎ (word_of at.0 + words ≤ i)
        → slice_index segs.new.words i ≡ slice_index segs.old.words i }
{
    let memory = segs.words_from_mut(at);
    pad_first(format, memory, words);
}

/// Turns the first `words` words into one pad.
fn pad_first<F: Format>(format: &F, memory: &mut [u64], words: u32)
    requires whole { words ≤ length memory.old }
    requires nonzero { 0 < words }
    requires at_most { words ≤ 65536 }
    ensures head { slice_index memory.new 0 ≡ (F.layout format.now).pad_head words }
    ensures rest { (i : ℕ) → words ≤ i → slice_index memory.new i ≡ slice_index memory.old i }
{
    format.pad(&mut memory[..words as usize]);
}

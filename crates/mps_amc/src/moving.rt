// A block moves.
#![tactic(auto)]

ghost use Rattle.std.specs.Prelude.{◌≡◌, ℕ, ◌+◌, ◌%◌, ◌<◌, ◌≤◌, ◌⊎◌, length, take, slice_index, slice_range};
ghost use Rattle.mps_base.specs.Address.{word_of, bytes_of_word};
ghost use Rattle.mps_format.specs.Blocks.{IsBlock, BeginsForwarded};
ghost use Rattle.mps_seg.specs.Segs.{CanCover, LiesIn, held_runs};
ghost use Rattle.mps_amc.specs.Moving.{AreCopied, BlockStands, IsBlockOf, run_at, moved_to};

use mps_base::Addr;
use mps_format::Format;
use mps_seg::Segs;

/// Moves the block of `words` words at `at` to free words, where it is grey, and leaves a forwarded block.
#[inline(always)]
pub(crate) fn move_block<F: Format>(segs: &mut Segs, format: &F, at: Addr, to: Addr, words: u32)
    requires aligned { at.0 % bytes_of_word ≡ 0 }
    requires stands { BlockStands (F.layout format.now) segs.old.words at.0 words }
    requires block { IsBlockOf segs.old at.0 words }
    requires free { CanCover segs.old (run_at to.0 words) }
    ensures state { segs.new ≡ record (moved_to segs.old at.0 to.0 words) { words = segs.new.words } }
    ensures words { AreCopied (F.layout format.now) segs.old.words segs.new.words at.0 to.0 words }
    ensures rest { (rest : ℕ) → 0 < rest → CanCover segs.old (run_at to.0 (words + rest))
        → CanCover segs.new (record { from = word_of to.0 + words; count = rest }) }
{
    let _ = segs.grains();
    segs.move_block(at, to, words);
    forward_block(segs, format, at, words, to);
}

/// Leaves a forwarded block in place of the block of `words` words at `at`.
#[inline(always)]
fn forward_block<F: Format>(segs: &mut Segs, format: &F, at: Addr, words: u32, to: Addr)
    requires aligned { at.0 % bytes_of_word ≡ 0 }
    requires held { LiesIn (held_runs segs.old) (run_at at.0 1) }
    requires inside { word_of at.0 + words ≤ length segs.old.words }
    requires block { IsBlock (F.layout format.now) (slice_range segs.old.words (word_of at.0) (word_of at.0 + words)) }
    ensures state { segs.new ≡ record segs.old { words = segs.new.words } }
    ensures size { length segs.new.words ≡ length segs.old.words }
    ensures forwarded { BeginsForwarded (F.layout format.now) (slice_range segs.new.words (word_of at.0) (word_of at.0 + words)) words }
    ensures leads { slice_index (slice_range segs.new.words (word_of at.0) (word_of at.0 + words)) 1 ≡ to.0 }
    ensures others { (i : ℕ) → (i < word_of at.0) ⊎ (word_of at.0 + words ≤ i)
        → slice_index segs.new.words i ≡ slice_index segs.old.words i }
{
    let memory = segs.words_from_mut(at);
    forward_first(format, memory, words, to);
}

/// Leaves a forwarded block in place of the block that the first `words` words are.
#[inline(always)]
fn forward_first<F: Format>(format: &F, memory: &mut [u64], words: u32, to: Addr)
    requires whole { words ≤ length memory.old }
    requires block { IsBlock (F.layout format.now) (take words memory.old) }
    ensures forwarded { BeginsForwarded (F.layout format.now) (take words memory.new) words }
    ensures leads { slice_index (take words memory.new) 1 ≡ to.0 }
    ensures rest { (i : ℕ) → words ≤ i → slice_index memory.new i ≡ slice_index memory.old i }
{
    format.forward(&mut memory[..words as usize], to);
}

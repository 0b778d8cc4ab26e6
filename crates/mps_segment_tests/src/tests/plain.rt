// Plain tables of four grains, and many pseudo-random steps in which the segments are compared with them.
use super::calls::{fill, free_over, give_over, grey_at, grey_over, keep_at, marks_at, summary_at};
use mps_base::Addr;
use mps_seg::Segs;
use std::alloc::{AllocError, Global};

/// What plain tables say: where the block begins that owns a word, how many words the block has that begins at a word, whether that
/// block is grey and whether it is kept; which grains are held, each as a segment of one grain, and the summary of each.
#[derive(Drop)]
struct Plain {
    owners: Vec<u64>,
    sizes: Vec<u64>,
    grey: Vec<u64>,
    kept: Vec<u64>,
    held: [u64; 5],
    summaries: [u64; 5],
}

impl Plain {
    fn new(alloc: Global) -> Result<Plain, AllocError> {
        Ok(Plain {
            owners: vec![in alloc; 0u64; 2560]?,
            sizes: vec![in alloc; 0u64; 2560]?,
            grey: vec![in alloc; 0u64; 2560]?,
            kept: vec![in alloc; 0u64; 2560]?,
            held: [0; 5],
            summaries: [0; 5],
        })
    }

    /// Where a block is to lie: in the lowest gap, or else at the lowest free grain, which is then held. 0 if neither is.
    fn place(&mut self, words: u64) -> u64 {
        let gap = self.lowest_gap(words);
        if gap != 0 {
            return gap;
        }
        self.hold_lowest()
    }

    /// The lowest gap in the grains that are held, or 0.
    fn lowest_gap(&self, words: u64) -> u64 {
        for grain in 1..5 {
            if entry(&self.held, grain) == 1 {
                let at = plain_gap(&self.owners, 512 * grain, words);
                if at != 0 {
                    return at;
                }
            }
        }
        0
    }

    /// Holds the lowest grain that isn't, and returns its first word; 0 if all are.
    fn hold_lowest(&mut self) -> u64 {
        for grain in 1..5u64 {
            if entry(&self.held, grain) == 0 {
                write(&mut self.held, grain, 1, 1);
                write(&mut self.summaries, grain, 1, 0);
                return 512 * grain;
            }
        }
        0
    }

    /// Whether a grain was held and no block owns a word of it; then it is held no longer.
    fn give(&mut self, grain: u64) -> bool {
        if entry(&self.held, grain) == 0
            || plain_gap(&self.owners, grain.wrapping_mul(512), 512) == 0
        {
            return false;
        }
        write(&mut self.held, grain, 1, 0);
        true
    }
}

/// An entry of a table, or 0 past its end.
fn entry(table: &[u64], index: u64) -> u64 {
    table.get(index as usize).copied().unwrap_or(0)
}

/// Writes `count` entries of a table from an index on.
fn write(table: &mut [u64], index: u64, count: u64, value: u64) {
    for e in table.iter_mut().skip(index as usize).take(count as usize) {
        *e = value;
    }
}

/// The first of the 512 words from `low` on from which on `words` of them have no owner, or 0.
fn plain_gap(owners: &[u64], low: u64, words: u64) -> u64 {
    let mut free = 0u64;
    for word in 0..512u64 {
        if entry(owners, low.wrapping_add(word)) == 0 {
            free = free.wrapping_add(1);
            if free == words {
                return low.wrapping_add(word).wrapping_sub(words).wrapping_add(1);
            }
        } else {
            free = 0;
        }
    }
    0
}

/// Makes a block in both, and says whether they agree.
fn agree_on_fill(alloc: Global, plain: &mut Plain, segs: &mut Segs, words: u32) -> bool {
    let want = plain.place(words as u64);
    let got = fill(alloc, segs, 7, words).map_or(0, |at| at.0 / 8);
    if want != 0 {
        write(&mut plain.owners, want, words as u64, want);
        write(&mut plain.sizes, want, 1, words as u64);
    }
    got == want
        && agree_on_greying(plain, segs, want, words % 2 == 0)
        && agree_on_keeping(plain, segs, want, words % 3 == 0)
}

/// Makes the block that begins at a word grey in both if asked, and says whether they agree on which block of its grain is the
/// lowest grey one.
fn agree_on_greying(plain: &mut Plain, segs: &mut Segs, word: u64, grey: bool) -> bool {
    let at = Addr(word.wrapping_mul(8));
    if grey && word != 0 && word < 2560 {
        grey_at(segs, at);
        write(&mut plain.grey, word, 1, 1);
    }
    grey_over(segs, at).map_or(0, |found| found.0 / 8) == lowest_grey(&plain.grey, word / 512)
}

/// Keeps the block that begins at a word in both if asked, and says whether they agree on whether it is kept.
fn agree_on_keeping(plain: &mut Plain, segs: &mut Segs, word: u64, keep: bool) -> bool {
    let at = Addr(word.wrapping_mul(8));
    if keep && word != 0 && word < 2560 {
        keep_at(segs, at);
        write(&mut plain.kept, word, 1, 1);
    }
    let [_, kept, _] = marks_at(segs, at);
    kept == (entry(&plain.kept, word) == 1)
}

/// The lowest word of a grain that is marked, or 0.
fn lowest_grey(grey: &[u64], grain: u64) -> u64 {
    let low = grain.wrapping_mul(512);
    for word in 0..512u64 {
        if entry(grey, low.wrapping_add(word)) == 1 {
            return low.wrapping_add(word);
        }
    }
    0
}

/// Frees the block over a word in both, and gives back its segment if it is empty; says whether they agree.
fn agree_on_free(alloc: Global, plain: &mut Plain, segs: &mut Segs, word: u64) -> bool {
    let owner = entry(&plain.owners, word);
    let got = free_over(segs, word.wrapping_mul(8)).map_or(0, |at| at.0 / 8);
    if owner != 0 {
        let words = entry(&plain.sizes, owner);
        write(&mut plain.owners, owner, words, 0);
        write(&mut plain.sizes, owner, 1, 0);
        write(&mut plain.grey, owner, 1, 0);
        write(&mut plain.kept, owner, 1, 0);
    }
    let marks = agree_on_greying(plain, segs, word, false)
        && agree_on_keeping(plain, segs, owner, false);
    let given = plain.give(word / 512);
    marks && got == owner && give_over(alloc, segs, Addr(word.wrapping_mul(8))) == given
}

/// How many entries of a table aren't 0.
fn count_used(table: &[u64]) -> usize {
    let mut used = 0usize;
    for e in table {
        if *e != 0 {
            used = used.saturating_add(1);
        }
    }
    used
}

/// Whether both have as many blocks, as many words in them, and as many grains that are held.
fn agree_on_counts(plain: &Plain, segs: &Segs) -> bool {
    segs.live_blocks() == count_used(&plain.sizes)
        && segs.live_words() == count_used(&plain.owners)
        && segs.grains_held_by(7, 0) as usize == count_used(&plain.held)
}

/// Notes in both that a word refers to a zone, and says whether they agree on the summary of the grain of that word.
fn agree_on_writes(plain: &mut Plain, segs: &mut Segs, word: u64, zone: u64) -> bool {
    let grain = word / 512;
    segs.note_write(Addr(word.wrapping_mul(8)), Addr(zone.wrapping_mul(4096)));
    if entry(&plain.held, grain) == 1 {
        let zones = entry(&plain.summaries, grain) | 1 << (zone % 64);
        write(&mut plain.summaries, grain, 1, zones);
    }
    summary_at(segs, Addr(grain.wrapping_mul(4096))).0 == entry(&plain.summaries, grain)
}

/// A block made or freed in both, of the number's choice, and whether they agree.
fn agree_on_block(alloc: Global, plain: &mut Plain, segs: &mut Segs, seed: u64) -> bool {
    if seed >> 63 == 0 {
        agree_on_fill(alloc, plain, segs, ((seed >> 33) % 64) as u32 + 1)
    } else {
        agree_on_free(alloc, plain, segs, (seed >> 40) % 2560)
    }
}

/// One step of the number's choice in both, and whether they agree.
fn agree_once(alloc: Global, plain: &mut Plain, segs: &mut Segs, seed: u64) -> bool {
    agree_on_block(alloc, plain, segs, seed)
        && agree_on_counts(plain, segs)
        && agree_on_writes(plain, segs, (seed >> 20) % 2560, (seed >> 45) % 64)
}

/// 2,000 pseudo-random steps in both: the first number at which they disagree.
fn first_disagreement(alloc: Global, plain: &mut Plain, segs: &mut Segs) -> Option<u64> {
    let mut seed = 1u64;
    for _ in 0..2000 {
        seed = seed
            .wrapping_mul(6364136223846793005)
            .wrapping_add(1442695040888963407);
        if !agree_once(alloc, plain, segs, seed) {
            return Some(seed);
        }
    }
    None
}

/// Does the same with plain tables of its own.
pub(super) fn first_disagreement_with_plain_tables(
    alloc: Global,
    segs: &mut Segs,
) -> Result<Option<u64>, AllocError> {
    let mut plain = Plain::new(alloc)?;
    let seed = first_disagreement(alloc, &mut plain, segs);
    drop(plain);
    Ok(seed)
}

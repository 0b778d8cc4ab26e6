// The free words of a buffer, and where a block or a reservation is placed in them.
#![tactic(auto)]

ghost use Rattle.std.specs.Prelude.{◌≡◌, ◌+◌, ◌<◌, ◌≤◌, Ok, Err, IfOk, IfErr, MatchResult};
ghost use Rattle.mps_base.specs.Address.{word_of, max_block_words};
ghost use Rattle.mps_arena.specs.Arena.{answer_of_placement};
ghost use Rattle.mps_seg.specs.Segs.{moves_after, CanCover};
ghost use Rattle.mps_seg.specs.Buffer.{IsAtHand, placement_at_front, rest_at_hand, with_place};

use crate::Segs;
use mps_base::{Addr, BYTES_OF_WORD, Rank, Refusal, Trail, WORDS_OF_GRAIN};

/// Free words of a segment: `count` words from the word `from` on, by their numbers. No block and no reservation covers them.
#[derive(Clone, Copy)]
pub struct Buffer {
    pub from: u32,
    pub count: u32,
}

/// Where words lie that were placed, and the free words that are left after them.
#[derive(Clone, Copy)]
pub struct Placed {
    pub at: Addr,
    pub rest: Buffer,
}

impl Buffer {
    /// Finds `words` words for a block or a reservation: a prefix of these free words, or where they are too few the first words of a
    /// new segment of a pool, a generation and a rank. The rest is what is left of them. Nothing covers any of the words yet. Refuses
    /// `CommitLimit` and `NoRun` as `Segs::take` does, and a refusal changes nothing.
    #[inline(always)]
    pub fn place(
        self,
        segs: &mut Segs,
        trail: &mut Trail,
        pool: u32,
        generation: u32,
        rank: Rank,
        words: u32,
    ) -> Result<Placed, Refusal>
        requires nonzero { 0 < words }
        requires at_most { words ≤ max_block_words }
        requires fits { 0 < trail.old.spare }
        requires at_hand { IsAtHand segs.old self }
        ensures value { MatchResult result (λ placed. answer_of_placement (placement_at_front segs.old self words) ≡ Ok placed.at)
            (λ why. answer_of_placement (placement_at_front segs.old self words) ≡ Err why) }
        ensures state { segs.new ≡ with_place segs.old pool generation rank (placement_at_front segs.old self words) }
        ensures moves { trail.new ≡ moves_after (placement_at_front segs.old self words) pool generation trail.old }
        ensures rest { MatchResult result (λ placed. placed.rest ≡ rest_at_hand self (placement_at_front segs.old self words) words)
            (λ _. self ≡ rest_at_hand self (placement_at_front segs.old self words) words) }
        ensures free { IfOk result (λ placed. CanCover segs.new (record { from = word_of placed.at.0; count = words })) }
        ensures all_free { IfOk result (λ placed.
            CanCover segs.new (record { from = word_of placed.at.0; count = words + placed.rest.count })) }
        ensures follows { IfOk result (λ placed. placed.rest.from ≡ word_of placed.at.0 + words) }
        ensures unchanged { IfErr result (λ _. segs.new ≡ segs.old) }
        ensures unmoved { IfErr result (λ _. trail.new ≡ trail.old) }
    {
        let _ = segs.grains(); // so few that a word's number fits
        if words <= self.count {
            return Ok(Placed {
                at: Addr(BYTES_OF_WORD * self.from as u64),
                rest: Buffer {
                    from: self.from + words,
                    count: self.count - words,
                },
            });
        }
        let at = segs.take(trail, pool, words, generation, rank)?;
        let grains = (words + (WORDS_OF_GRAIN as u32 - 1)) / WORDS_OF_GRAIN as u32;
        Ok(Placed {
            at,
            rest: Buffer {
                from: at.word() as u32 + words,
                count: WORDS_OF_GRAIN as u32 * grains - words,
            },
        })
    }
}

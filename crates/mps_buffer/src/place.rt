// Where a reservation is placed.
#![tactic(auto)]

ghost use Rattle.std.specs.Prelude.{◌≡◌, ◌<◌, ◌≤◌, true, Ok, Err, IfOk, MatchResult};
ghost use Rattle.mps_base.specs.Address.{word_of, max_block_words};
ghost use Rattle.mps_seg.specs.Arena.{answer_of_placement};
ghost use Rattle.mps_seg.specs.Segs.{moves_after, CanCover};
ghost use Rattle.mps_buffer.specs.Points.{CanCoverAfter, placement_at, with_place, buffer_after};
ghost use Rattle.mps_seg.specs.Buffer.{IsAtHand, run_of};

use crate::point::Point;
use mps_base::{Refusal, Trail};
use mps_seg::{Placed, Segs};

/// Finds `words` words for a reservation at a point: in a pool that moves blocks where its buffer places them, in any other the lowest
/// gap of the pool and the rank, or a new segment. Nothing covers them yet. The rest is what is then at hand at the point.
pub(crate) fn place(
    segs: &mut Segs,
    trail: &mut Trail,
    p: &Point,
    words: u32,
) -> Result<Placed, Refusal>
    requires nonzero { 0 < words }
    requires at_most { words ≤ max_block_words }
    requires fits { 0 < trail.old.spare }
    requires at_hand { IsAtHand segs.old p.now.buffer }
    ensures value { MatchResult result (λ placed. answer_of_placement (placement_at p.now segs.old words) ≡ Ok placed.at)
        (λ why. answer_of_placement (placement_at p.now segs.old words) ≡ Err why) }
    ensures state { MatchResult result (λ _. segs.new ≡ with_place segs.old p.now (placement_at p.now segs.old words))
        (λ _. segs.new ≡ segs.old) }
    ensures moves { MatchResult result (λ _. trail.new ≡ moves_after (placement_at p.now segs.old words) p.now.pool 0 trail.old)
        (λ _. trail.new ≡ trail.old) }
    ensures buffer { IfOk result (λ placed. placed.rest ≡ buffer_after p.now (placement_at p.now segs.old words) words) }
    ensures free { IfOk result (λ placed. CanCover segs.new (record { from = word_of placed.at.0; count = words })) }
    ensures rest { IfOk result (λ placed. p.now.is_copying ≡ true → 0 < placed.rest.count
        → CanCoverAfter segs.new (record { from = word_of placed.at.0; count = words }) (run_of placed.rest)) }
{
    if !p.is_copying {
        let at = segs.place(trail, p.pool, p.rank, words)?;
        return Ok(Placed { at, rest: p.buffer });
    }
    p.buffer.place(segs, trail, p.pool, 0, p.rank, words)
}

// Reserving words at a point.
#![tactic(auto)]

ghost use Rattle.std.specs.Prelude.{◌≡◌, ◌<◌, ◌≤◌, true, Ok, Err, Some, IfOk, MatchResult};
ghost use Rattle.mps_base.specs.Address.{word_of, max_block_words};
ghost use Rattle.mps_base.specs.Placement.{Place};
ghost use Rattle.mps_base.specs.Run.{Run};
ghost use Rattle.mps_seg.specs.Arena.{answer_of_placement};
ghost use Rattle.mps_seg.specs.Buffer.{IsAtHand, rest_at_hand, run_of};
ghost use Rattle.mps_seg.specs.Segs.{CanCover, at_word, moves_after};
ghost use Rattle.mps_buffer.specs.Points.{AreApart, CanCoverAfter, after_open, buffer_after, placement_at, run_of_held, with_place, with_reservation};

use crate::place::place;
use crate::point::{Held, Point};
use mps_base::{Addr, BYTES_OF_WORD, Refusal, Trail};
use mps_seg::{Buffer, Placed, Segs};

/// Reserves words at a point, which has the reservation from then on.
#[inline(always)]
pub(crate) fn reserve_at(
    segs: &mut Segs,
    trail: &mut Trail,
    p: &mut Point,
    flips: u64,
    head: u64,
    words: u32,
) -> Result<Held, Refusal>
    requires nonzero { 0 < words }
    requires at_most { words ≤ max_block_words }
    requires fits { 0 < trail.old.spare }
    requires at_hand { IsAtHand segs.old p.old.buffer }
    ensures value { MatchResult result
        (λ held. (answer_of_placement (placement_at p.old segs.old words) ≡ Ok held.at)
        × (held ≡ record { at = held.at; head = head; words = words; flips = flips }))
        (λ why. answer_of_placement (placement_at p.old segs.old words) ≡ Err why) }
    ensures state { MatchResult result
        (λ held. segs.new ≡ with_reservation (with_place segs.old p.old (placement_at p.old segs.old words)) held)
        (λ _. segs.new ≡ segs.old) }
    ensures point { MatchResult result (λ held. p.new ≡ after_open p.old (placement_at p.old segs.old words) held) (λ _. p.new ≡ p.old) }
    ensures moves { MatchResult result (λ _. trail.new ≡ moves_after (placement_at p.old segs.old words) p.old.pool 0 trail.old)
        (λ _. trail.new ≡ trail.old) }
    ensures at_hand { p.old.is_copying ≡ true
        → IfOk result (λ _. IsAtHand segs.new (buffer_after p.old (placement_at p.old segs.old words) words)) }
    ensures others { IfOk result (λ held. (r : Run) → CanCover segs.old r → AreApart r (run_of_held held) → CanCover segs.new r) }
{
    if p.is_copying && words <= p.buffer.count {
        let buffer = Buffer {
            from: p.buffer.from,
            count: p.buffer.count,
        };
        let placed = front(segs, buffer, words);
        let held = Held {
            at: placed.at,
            head,
            words,
            flips,
        };
        hold(segs, p, held, placed.rest);
        return Ok(held);
    }
    reserve_elsewhere(segs, trail, p, flips, head, words)
}

/// As `reserve_at`, of words that may lie anywhere. The place of the result is in this function, so that a reservation whose words are at
/// hand doesn't clear it.
#[inline(always)]
fn reserve_elsewhere(
    segs: &mut Segs,
    trail: &mut Trail,
    p: &mut Point,
    flips: u64,
    head: u64,
    words: u32,
) -> Result<Held, Refusal>
    requires nonzero { 0 < words }
    requires at_most { words ≤ max_block_words }
    requires fits { 0 < trail.old.spare }
    requires at_hand { IsAtHand segs.old p.old.buffer }
    ensures value { MatchResult result
        (λ held. (answer_of_placement (placement_at p.old segs.old words) ≡ Ok held.at)
        × (held ≡ record { at = held.at; head = head; words = words; flips = flips }))
        (λ why. answer_of_placement (placement_at p.old segs.old words) ≡ Err why) }
    ensures state { MatchResult result
        (λ held. segs.new ≡ with_reservation (with_place segs.old p.old (placement_at p.old segs.old words)) held)
        (λ _. segs.new ≡ segs.old) }
    ensures point { MatchResult result (λ held. p.new ≡ after_open p.old (placement_at p.old segs.old words) held) (λ _. p.new ≡ p.old) }
    ensures moves { MatchResult result (λ _. trail.new ≡ moves_after (placement_at p.old segs.old words) p.old.pool 0 trail.old)
        (λ _. trail.new ≡ trail.old) }
    ensures at_hand { p.old.is_copying ≡ true
        → IfOk result (λ _. IsAtHand segs.new (buffer_after p.old (placement_at p.old segs.old words) words)) }
    ensures others { IfOk result (λ held. (r : Run) → CanCover segs.old r → AreApart r (run_of_held held) → CanCover segs.new r) }
{
    let held = reserve_apart(segs, trail, p, flips, head, words)?;
    Ok(held)
}

/// As `reserve_at`. Not inlined, to keep a reservation small whose words are at hand.
#[inline(never)]
fn reserve_apart(
    segs: &mut Segs,
    trail: &mut Trail,
    p: &mut Point,
    flips: u64,
    head: u64,
    words: u32,
) -> Result<Held, Refusal>
    requires nonzero { 0 < words }
    requires at_most { words ≤ max_block_words }
    requires fits { 0 < trail.old.spare }
    requires at_hand { IsAtHand segs.old p.old.buffer }
    ensures value { MatchResult result
        (λ held. (answer_of_placement (placement_at p.old segs.old words) ≡ Ok held.at)
        × (held ≡ record { at = held.at; head = head; words = words; flips = flips }))
        (λ why. answer_of_placement (placement_at p.old segs.old words) ≡ Err why) }
    ensures state { MatchResult result
        (λ held. segs.new ≡ with_reservation (with_place segs.old p.old (placement_at p.old segs.old words)) held)
        (λ _. segs.new ≡ segs.old) }
    ensures point { MatchResult result (λ held. p.new ≡ after_open p.old (placement_at p.old segs.old words) held) (λ _. p.new ≡ p.old) }
    ensures moves { MatchResult result (λ _. trail.new ≡ moves_after (placement_at p.old segs.old words) p.old.pool 0 trail.old)
        (λ _. trail.new ≡ trail.old) }
    ensures at_hand { p.old.is_copying ≡ true
        → IfOk result (λ _. IsAtHand segs.new (buffer_after p.old (placement_at p.old segs.old words) words)) }
    ensures others { IfOk result (λ held. (r : Run) → CanCover segs.old r → AreApart r (run_of_held held) → CanCover segs.new r) }
{
    let placed = place(segs, trail, p, words)?;
    let held = Held {
        at: placed.at,
        head,
        words,
        flips,
    };
    hold(segs, p, held, placed.rest);
    Ok(held)
}

/// Where the first words of a buffer lie, which has enough of them, and the rest of it. Nothing covers them yet.
#[inline(always)]
fn front(segs: &Segs, buffer: Buffer, words: u32) -> Placed
    requires nonzero { 0 < words }
    requires enough { words ≤ buffer.count }
    requires at_hand { IsAtHand segs.now buffer }
    ensures value { result ≡ record { at = at_word buffer.from; rest = rest_at_hand buffer (Place buffer.from) words } }
    ensures free { CanCover segs.now (record { from = word_of result.at.0; count = words }) }
    ensures rest { 0 < result.rest.count
        → CanCoverAfter segs.now (record { from = word_of result.at.0; count = words }) (run_of result.rest) }
{
    let _ = segs.grains(); // so few that a word's number fits
    Placed {
        at: Addr(BYTES_OF_WORD * buffer.from as u64),
        rest: Buffer {
            from: buffer.from + words,
            count: buffer.count - words,
        },
    }
}

/// A point has a reservation from now on, of words that nothing covers. They are 0 but for the head.
#[inline(always)]
fn hold(segs: &mut Segs, p: &mut Point, held: Held, rest: Buffer)
    requires nonzero { 0 < held.words }
    requires free { CanCover segs.old (run_of_held held) }
    ensures state { segs.new ≡ with_reservation segs.old held }
    ensures point { p.new ≡ record p.old { buffer = rest; reservation = Some held } }
{
    p.buffer.from = rest.from;
    p.buffer.count = rest.count;
    p.reservation = Some(held);
    segs.cover(held.at, held.words);
    let _ = segs.grains(); // its words have the reservation
    segs.clear(held.at, held.words);
    let _ = segs.grains();
    segs.set_word(held.at, held.head);
}

// The points.
#![tactic(auto)]

ghost use Rattle.std.specs.Prelude.{◌≡◌, ◌≢◌, ℕ, ◌+◌, ◌^◌, ◌<◌, ◌≤◌, ◌==◌, if◌then◌else◌, true, Ok, Err, Some, None, option_map, map, length, get_or, IsTrue, IfOk, IfErr, IfSome, IfNone, MatchResult, Contains};
ghost use Rattle.mps_base.specs.Address.{word_of, max_block_words};
ghost use Rattle.mps_base.specs.Trail.{with_move};
ghost use Rattle.mps_base.specs.declared.moves.Move.TheVariants.{Commit};
ghost use Rattle.mps_base.specs.declared.refusal.Refusal.TheVariants.{TooMany};
ghost use Rattle.mps_seg.specs.Arena.{answer_of_placement};
ghost use Rattle.mps_base.specs.Run.{Run};
ghost use Rattle.mps_seg.specs.Segs.{SegsState, CanCover, moves_after};
ghost use Rattle.mps_buffer.specs.declared.point.Point.{Point};
ghost use Rattle.mps_buffer.specs.declared.point.Held.{Held};
ghost use Rattle.mps_buffer.specs.Points.{no_points, point_at, with_point, placement_at, buffer_after, AreApart, with_place, with_reservation, with_block, without_reservation, run_of_held, after_close, after_open, IsOpenAt, after_all_end, AreReserved, without_free_words, points_after_flip, after_end_at, IsReservedAt, new_point, IsMade, AllTaken, is_place, is_reserved_now, has_live_reservation, WereMadeBefore};
ghost use Rattle.mps_buffer.specs.Tokens.{token_of};
ghost use Rattle.mps_seg.specs.Buffer.{IsAtHand};

use crate::point::{Point, Reserved};
use crate::reserving::reserve_at;
use mps_base::{Addr, Flipped, Move, Rank, Refusal, Trail};
use mps_format::Format;
use mps_seg::{Buffer, Segs};
use std::alloc::{AllocError, Global};
use std::marker::Model;

/// How many points there may be.
const MAX_POINTS: usize = 256;

/// The points of an arena. `new` is the only call that allocates.
#[derive(Drop)]
pub struct Points {
    points: Vec<Option<Point>>,
    flips: u64,
}

impl Model for Points {
    ghost use Rattle.mps_buffer.specs.Points.{PointsState};

    ghost Value = { PointsState };

    ghost use Rattle.mps_buffer.specs.Points.{WereMadeBefore};

    ghost view = { λ p. record { points = p.points.items; flips = p.flips } };

    ghost invariant = { λ p. WereMadeBefore p.flips (record { points = p.points.items; flips = p.flips }) };
}

impl Points {
    /// No points, and room for 256.
    pub fn new(alloc: Global) -> Result<Points, AllocError>
        ensures { IfOk result (λ points. points ≡ no_points) }
    {
        Ok(Points {
            points: Vec::from_array(alloc, [None; MAX_POINTS])?,
            flips: 0,
        })
    }

    /// The point under a key, if there is one.
    #[inline(always)]
    pub fn get(&self, key: u32) -> Option<Point>
        ensures { result ≡ point_at self.now key }
    {
        if (key as usize) < self.points.len() {
            self.points[key as usize]
        } else {
            None
        }
    }

    /// How many flips there were.
    #[inline(always)]
    pub fn flips(&self) -> u64
        ensures { result ≡ self.now.flips }
    {
        self.flips
    }

    /// Whether a point has a reservation that no flip ended.
    pub fn has_live_reservation(&self) -> bool
        ensures { result ≡ has_live_reservation self.now }
    {
        let flips = self.flips;
        self.points
            .iter()
            .any(|point| is_reserved_now(flips, *point))
    }

    /// No reservation remembers a flip that is still to come.
    pub fn reservations_are_past(&self)
        ensures { WereMadeBefore self.now.flips self.now }
    {
        let _ = &self.points;
    }

    /// Makes a point of a pool under a key that is free. Refuses `TooMany` if there are 256.
    pub fn add(&mut self, pool: u32, rank: Rank, is_copying: bool) -> Result<u32, Refusal>
        ensures made { IfOk result (λ key. IsMade self.old self.new key (new_point pool rank is_copying)) }
        ensures refused { IfErr result (λ why. (why ≡ TooMany 256) × (self.new ≡ self.old) × AllTaken self.old.points) }
    {
        let Some(key) = free_key(&self.points) else {
            return Err(Refusal::TooMany { limit: 256 });
        };
        self.points[key as usize] = Some(Point {
            pool,
            rank,
            is_copying,
            buffer: Buffer { from: 0, count: 0 },
            reservation: None,
        });
        Ok(key)
    }

    /// Drops a point. Its key is free again.
    pub fn drop_point(&mut self, point: u32)
        requires { point < length self.old.points }
        ensures { self.new ≡ with_point self.old point None }
    {
        self.points[point as usize] = None;
    }

    /// Whether a reservation of `words` words fits in the buffer of a point, or in a gap, so that it takes no new segment.
    pub fn fits(&self, segs: &Segs, point: u32, words: u32) -> bool
        requires nonzero { 0 < words }
        requires there { (p : Point) × (point_at self.now point ≡ Some p) × (point < length self.now.points) }
        ensures { (p : Point) → point_at self.now point ≡ Some p → result ≡ is_place (placement_at p segs.now words) }
    {
        let Some(p) = self.points[point as usize] else {
            unreachable!()
        };
        has_place(segs, &p, words)
    }

    /// Reserves `words` words at a point that has no open reservation, for a block with this head. The words are 0 but for the head.
    /// Refuses `CommitLimit` and `NoRun` as `Segs::take` does; a refusal changes nothing. The rest of the buffer can be covered, and so can
    /// other words that could be and lie apart from the reservation.
    #[inline(always)]
    pub fn reserve_words(
        &mut self,
        segs: &mut Segs,
        trail: &mut Trail,
        point: u32,
        head: u64,
        words: u32,
    ) -> Result<Reserved, Refusal>
        requires nonzero { 0 < words }
        requires at_most { words ≤ max_block_words }
        requires fits { 0 < trail.old.spare }
        requires there { (p : Point) × (point_at self.old point ≡ Some p) × IsAtHand segs.old p.buffer × (point < length self.old.points) }
        ensures value { (p : Point) → point_at self.old point ≡ Some p
            → MatchResult result (λ token. (answer_of_placement (placement_at p segs.old words) ≡ Ok token.held.at)
            × (token ≡ record { point = point; held = record { at = token.held.at; head = head; words = words; flips = self.old.flips } }))
            (λ why. answer_of_placement (placement_at p segs.old words) ≡ Err why) }
        ensures state { (p : Point) → point_at self.old point ≡ Some p
            → MatchResult result (λ token. segs.new ≡ with_reservation (with_place segs.old p (placement_at p segs.old words)) token.held)
            (λ _. segs.new ≡ segs.old) }
        ensures points { (p : Point) → point_at self.old point ≡ Some p
            → MatchResult result
            (λ token. self.new ≡ with_point self.old point (Some (after_open p (placement_at p segs.old words) token.held)))
            (λ _. self.new ≡ self.old) }
        ensures moves { (p : Point) → point_at self.old point ≡ Some p
            → MatchResult result (λ _. trail.new ≡ moves_after (placement_at p segs.old words) p.pool 0 trail.old)
            (λ _. trail.new ≡ trail.old) }
        ensures at_hand { (p : Point) → point_at self.old point ≡ Some p → p.is_copying ≡ true
            → IfOk result (λ _. IsAtHand segs.new (buffer_after p (placement_at p segs.old words) words)) }
        ensures others { IfOk result (λ token. (r : Run) → CanCover segs.old r → AreApart r (run_of_held token.held)
            → CanCover segs.new r) }
    {
        let flips = self.flips;
        let Some(p) = &mut self.points[point as usize] else {
            unreachable!()
        };
        let held = reserve_at(segs, trail, p, flips, head, words)?;
        Ok(Reserved::new(point, held))
    }

    /// Reserves a block at a point that has no open reservation, of the size that a format gives to the head, which it accepts. Else as
    /// `reserve_words`.
    pub fn reserve<F: Format>(
        &mut self,
        segs: &mut Segs,
        trail: &mut Trail,
        point: u32,
        format: &F,
        head: u64,
    ) -> Result<Reserved, Refusal>
        requires accepted { IsTrue ((F.layout format.now).is_valid head) }
        requires fits { 0 < trail.old.spare }
        requires there { (p : Point) × (point_at self.old point ≡ Some p) × IsAtHand segs.old p.buffer × (point < length self.old.points) }
        ensures value { (p : Point) → point_at self.old point ≡ Some p
            → MatchResult result
            (λ token. (answer_of_placement (placement_at p segs.old ((F.layout format.now).size head)) ≡ Ok token.held.at)
            × (token ≡ record {
              point = point;
              held = record { at = token.held.at; head = head; words = (F.layout format.now).size head; flips = self.old.flips };
            }))
            (λ why. answer_of_placement (placement_at p segs.old ((F.layout format.now).size head)) ≡ Err why) }
        ensures state { (p : Point) → point_at self.old point ≡ Some p
            → MatchResult result
            (λ token. segs.new
            ≡ with_reservation (with_place segs.old p (placement_at p segs.old ((F.layout format.now).size head))) token.held)
            (λ _. segs.new ≡ segs.old) }
        ensures points { (p : Point) → point_at self.old point ≡ Some p
            → MatchResult result
            (λ token. self.new
            ≡ with_point self.old point (Some (after_open p (placement_at p segs.old ((F.layout format.now).size head)) token.held)))
            (λ _. self.new ≡ self.old) }
        ensures moves { (p : Point) → point_at self.old point ≡ Some p
            → MatchResult result
            (λ _. trail.new ≡ moves_after (placement_at p segs.old ((F.layout format.now).size head)) p.pool 0 trail.old)
            (λ _. trail.new ≡ trail.old) }
        ensures at_hand { (p : Point) → point_at self.old point ≡ Some p → p.is_copying ≡ true
            → IfOk result
            (λ _. IsAtHand segs.new
            (buffer_after p (placement_at p segs.old ((F.layout format.now).size head)) ((F.layout format.now).size head))) }
        ensures others { IfOk result (λ token. (r : Run) → CanCover segs.old r → AreApart r (run_of_held token.held)
            → CanCover segs.new r) }
    {
        let words = format.words(head);
        self.reserve_words(segs, trail, point, head, words)
    }

    /// The token of the open reservation of a point, if there is a point under the key and it has one.
    #[inline(always)]
    pub(crate) fn token(&self, key: u32) -> Option<Reserved>
        ensures { result ≡ token_of key (point_at self.now key) }
    {
        let held = self.get(key)?.reservation?;
        Some(Reserved::new(key, held))
    }

    /// The reservation becomes a block, whose address is returned. `Flipped` if a flip came since the reserve.
    #[inline(always)]
    pub fn commit(
        &mut self,
        segs: &mut Segs,
        trail: &mut Trail,
        token: Reserved,
    ) -> Result<Addr, Flipped>
        requires open { IsOpenAt self.old token.point token.held }
        requires reserved { token.held.flips ≡ self.old.flips → Contains segs.old.reservations (run_of_held token.held) }
        requires fits { 0 < trail.old.spare }
        ensures sound { IfOk result (λ at. (at ≡ token.held.at) × (token.held.flips ≡ self.old.flips)) }
        ensures flipped { IfErr result (λ _. token.held.flips ≢ self.old.flips) }
        ensures points { (p : Point) → point_at self.old token.point ≡ Some p
            → self.new ≡ with_point self.old token.point (Some (after_close p)) }
        ensures state { MatchResult result (λ _. segs.new ≡ with_block segs.old token.held) (λ _. segs.new ≡ segs.old) }
        ensures moves { (p : Point) → point_at self.old token.point ≡ Some p
            → MatchResult result (λ at. trail.new ≡ with_move trail.old (Commit at token.held.words p.pool)) (λ _. trail.new ≡ trail.old) }
    {
        let (point, held) = token.spend();
        let pool = close(&mut self.points[point as usize]);
        if held.flips != self.flips {
            return Err(Flipped);
        }
        segs.commit(held.at, held.words);
        trail.push(Move::Commit {
            at: held.at,
            words: held.words,
            pool,
        });
        Ok(held.at)
    }

    /// Gives up the reservation. Its words are free again, if no flip came since the reserve.
    pub fn abandon(&mut self, segs: &mut Segs, token: Reserved)
        requires open { IsOpenAt self.old token.point token.held }
        requires reserved { token.held.flips ≡ self.old.flips → Contains segs.old.reservations (run_of_held token.held) }
        ensures points { (p : Point) → point_at self.old token.point ≡ Some p
            → self.new ≡ with_point self.old token.point (Some (after_close p)) }
        ensures state { segs.new ≡ (if token.held.flips == self.old.flips then without_reservation segs.old token.held else segs.old) }
    {
        let (point, held) = token.spend();
        let _pool = close(&mut self.points[point as usize]);
        if held.flips == self.flips {
            segs.uncover(held.at, held.words);
        }
    }

    /// A flip comes: all reservations end, and the buffer of each point is empty.
    pub fn flip(&mut self, segs: &mut Segs)
        requires fits { self.old.flips < 2 ^ 63 }
        requires reserved { AreReserved self.old.flips self.old.points segs.old }
        ensures points { self.new ≡ points_after_flip self.old }
        ensures state { segs.new ≡ after_all_end self.old.flips self.old.points segs.old }
    {
        self.end_all(segs);
        empty_all(&mut self.points);
        self.flips += 1;
    }

    /// Ends all reservations that no flip has ended.
    pub(crate) fn end_all(&self, segs: &mut Segs)
        requires { AreReserved self.now.flips self.now.points segs.old }
        ensures { segs.new ≡ after_all_end self.now.flips self.now.points segs.old }
    {
        end_all(&self.points, self.flips, segs);
    }
}

/// Whether a reservation at a point needs no new segment.
fn has_place(segs: &Segs, p: &Point, words: u32) -> bool
    requires { 0 < words }
    ensures { result ≡ is_place (placement_at p.now segs.now words) }
{
    if p.is_copying {
        words <= p.buffer.count
    } else {
        segs.lowest_gap(p.pool, p.rank, words).is_some()
    }
}

/// Whether a point has a reservation, and no flip came since it was made, if there were this many.
fn is_reserved_now(flips: u64, point: Option<Point>) -> bool
    ensures { result ≡ is_reserved_now flips point }
{
    let Some(p) = point else {
        return false;
    };
    match p.reservation {
        Some(held) => held.flips == flips,
        None => false,
    }
}

/// The lowest key under which there is no point.
fn free_key(points: &[Option<Point>]) -> Option<u32>
    ensures sound { IfSome result (λ key. (key < length points.now) × (get_or points.now key None ≡ None)) }
    ensures complete { IfNone result (AllTaken points.now) }
{
    for key in 0..MAX_POINTS as u32 {
        if (key as usize) < points.len() && points[key as usize].is_none() {
            return Some(key);
        }
    }
    None
}

/// Ends the reservation of a point, if it has one, and returns the number of its pool.
#[inline(always)]
fn close(place: &mut Option<Point>) -> u32
    requires { (p : Point) × (place.old ≡ Some p) }
    ensures point { (p : Point) → place.old ≡ Some p → place.new ≡ Some (after_close p) }
    ensures pool { (p : Point) → place.old ≡ Some p → result ≡ p.pool }
{
    let Some(p) = place else { unreachable!() };
    p.reservation = None;
    p.pool
}

/// Ends the reservations of these points that no flip has ended.
fn end_all(points: &[Option<Point>], flips: u64, segs: &mut Segs)
    requires { AreReserved flips points.now segs.old }
    ensures { segs.new ≡ after_all_end flips points.now segs.old }
{
    for p in points {
        end_at(*p, flips, segs);
    }
}

/// Ends the reservation of a point, if it has one that no flip has ended.
fn end_at(p: Option<Point>, flips: u64, segs: &mut Segs)
    requires { IsReservedAt flips p segs.old }
    ensures { segs.new ≡ after_end_at flips p segs.old }
{
    if let Some(p) = p {
        if let Some(held) = p.reservation {
            if held.flips == flips {
                segs.uncover(held.at, held.words);
            }
        }
    }
}

/// Empties the buffers of these points.
fn empty_all(points: &mut [Option<Point>])
    ensures { points.new ≡ map (option_map without_free_words) points.old }
{
    for i in 0..points.len() {
        points[i] = emptied_point(points[i]);
    }
}

/// A point with an empty buffer.
fn emptied_point(p: Option<Point>) -> Option<Point>
    ensures { result ≡ option_map without_free_words p }
{
    let p = p?;
    Some(Point {
        buffer: Buffer { from: 0, count: 0 },
        ..p
    })
}

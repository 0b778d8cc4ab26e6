// Points for a client that knows them by their keys.
#![tactic(auto)]

ghost use Rattle.std.specs.Prelude.{◌≡◌, ◌≢◌, ℕ, ◌+◌, ◌^◌, ◌<◌, ◌≤◌, true, Ok, Err, Some, None, option_map, length, IfOk, IfErr, MatchResult};
ghost use Rattle.mps_base.specs.Address.{word_of, max_block_words};
ghost use Rattle.mps_base.specs.Trail.{with_move};
ghost use Rattle.mps_base.specs.declared.moves.Move.TheVariants.{Commit};
ghost use Rattle.mps_base.specs.declared.refusal.Refusal.TheVariants.{TooMany};
ghost use Rattle.mps_seg.specs.Arena.{answer_of_placement};
ghost use Rattle.mps_base.specs.Run.{Run};
ghost use Rattle.mps_seg.specs.Segs.{CanCover, moves_after};
ghost use Rattle.mps_buffer.specs.declared.point.Point.{Point};
ghost use Rattle.mps_buffer.specs.declared.point.Held.{Held};
ghost use Rattle.mps_buffer.specs.Points.{no_points, point_at, with_point, placement_at, buffer_after, AreApart, with_place, with_reservation, with_block, after_close, after_open, after_all_end, AreReserved, points_after_flip, after_end_at, IsReserved, IsReservedAt, new_point, IsMade, AllTaken, WereMadeBefore, has_live_reservation, is_place};
ghost use Rattle.mps_seg.specs.Buffer.{IsAtHand};
ghost use Rattle.mps_buffer.specs.Tokens.{HasOpen, IsClosedAt};

use crate::point::Point;
use crate::points::Points;
use mps_base::{Addr, Flipped, Rank, Refusal, Trail};
use mps_seg::Segs;
use std::alloc::{AllocError, Global};
use std::marker::Model;

/// Points for a client that knows them by their keys and has no place for tokens. A token has what the point has under its key, so it is
/// made when its reservation ends. `new` is the only call that allocates, and `finish` ends its use: like a token, it can't be let go.
pub struct OpenPoints {
    points: Points,
}

impl Model for OpenPoints {
    ghost use Rattle.mps_buffer.specs.Points.{PointsState};

    ghost Value = { PointsState };

    ghost view = { λ o. o.points };
}

impl OpenPoints {
    /// No points, and room for 256.
    pub fn new(alloc: Global) -> Result<OpenPoints, AllocError>
        ensures { IfOk result (λ points. points ≡ no_points) }
    {
        Ok(OpenPoints {
            points: Points::new(alloc)?,
        })
    }

    /// The point under a key, if there is one.
    #[inline(always)]
    pub fn get(&self, key: u32) -> Option<Point>
        ensures { result ≡ point_at self.now key }
    {
        self.points.get(key)
    }

    /// How many flips there were.
    #[inline(always)]
    pub fn flips(&self) -> u64
        ensures { result ≡ self.now.flips }
    {
        self.points.flips()
    }

    /// Whether a point has a reservation that no flip ended.
    pub fn has_live_reservation(&self) -> bool
        ensures { result ≡ has_live_reservation self.now }
    {
        self.points.has_live_reservation()
    }

    /// No reservation remembers a flip that is still to come.
    pub fn reservations_are_past(&self)
        ensures { WereMadeBefore self.now.flips self.now }
    {
        self.points.reservations_are_past();
    }

    /// Makes a point of a pool under a key that is free. Refuses `TooMany` if there are 256.
    pub fn add(&mut self, pool: u32, rank: Rank, is_copying: bool) -> Result<u32, Refusal>
        ensures made { IfOk result (λ key. IsMade self.old self.new key (new_point pool rank is_copying)) }
        ensures refused { IfErr result (λ why. (why ≡ TooMany 256) × (self.new ≡ self.old) × AllTaken self.old.points) }
    {
        self.points.add(pool, rank, is_copying)
    }

    /// Drops a point that has no open reservation. Its key is free again.
    pub fn drop_point(&mut self, key: u32)
        requires { (p : Point) × IsClosedAt self.old key p }
        ensures { self.new ≡ with_point self.old key None }
    {
        self.points.drop_point(key);
    }

    /// Whether a reservation of `words` words fits in the buffer of a point, or in a gap, so that it takes no new segment.
    pub fn fits(&self, segs: &Segs, key: u32, words: u32) -> bool
        requires nonzero { 0 < words }
        requires there { (p : Point) × IsClosedAt self.now key p }
        ensures { (p : Point) → point_at self.now key ≡ Some p → result ≡ is_place (placement_at p segs.now words) }
    {
        self.points.fits(segs, key, words)
    }

    /// Reserves `words` words at a point that has no open reservation, for a block with this head, and returns where they lie. They are
    /// 0 but for the head. Refuses `CommitLimit` and `NoRun` as `Segs::take` does; a refusal changes nothing.
    #[inline(always)]
    pub fn reserve(
        &mut self,
        segs: &mut Segs,
        trail: &mut Trail,
        key: u32,
        head: u64,
        words: u32,
    ) -> Result<Addr, Refusal>
        requires nonzero { 0 < words }
        requires at_most { words ≤ max_block_words }
        requires fits { 0 < trail.old.spare }
        requires there { (p : Point) × IsClosedAt self.old key p × IsAtHand segs.old p.buffer }
        ensures value { (p : Point) → point_at self.old key ≡ Some p → result ≡ answer_of_placement (placement_at p segs.old words) }
        ensures state { (p : Point) → point_at self.old key ≡ Some p
            → MatchResult result
            (λ at. segs.new
            ≡ with_reservation (with_place segs.old p (placement_at p segs.old words))
            (record { at = at; head = head; words = words; flips = self.old.flips }))
            (λ _. segs.new ≡ segs.old) }
        ensures points { (p : Point) → point_at self.old key ≡ Some p
            → MatchResult result
            (λ at. self.new
            ≡ with_point self.old key (Some (after_open p (placement_at p segs.old words)
            (record { at = at; head = head; words = words; flips = self.old.flips }))))
            (λ _. self.new ≡ self.old) }
        ensures moves { (p : Point) → point_at self.old key ≡ Some p
            → MatchResult result (λ _. trail.new ≡ moves_after (placement_at p segs.old words) p.pool 0 trail.old)
            (λ _. trail.new ≡ trail.old) }
        ensures at_hand { (p : Point) → point_at self.old key ≡ Some p → p.is_copying ≡ true
            → IfOk result (λ _. IsAtHand segs.new (buffer_after p (placement_at p segs.old words) words)) }
        ensures others { IfOk result (λ at. (r : Run) → CanCover segs.old r
            → AreApart r (record { from = word_of at.0; count = words }) → CanCover segs.new r) }
    {
        let token = self.points.reserve_words(segs, trail, key, head, words)?;
        let (_, held) = token.spend();
        Ok(held.at)
    }

    /// The open reservation of a point becomes a block, whose address is returned. `Flipped` if a flip came since the reserve. The
    /// point has no reservation from now on.
    #[inline(always)]
    pub fn commit(&mut self, segs: &mut Segs, trail: &mut Trail, key: u32) -> Result<Addr, Flipped>
        requires open { (p : Point) × (h : Held) × HasOpen self.old key p h × IsReserved self.old.flips (Some h) segs.old }
        requires fits { 0 < trail.old.spare }
        ensures sound { (p : Point) → (h : Held) → HasOpen self.old key p h
            → IfOk result (λ at. (at ≡ h.at) × (h.flips ≡ self.old.flips)) }
        ensures flipped { (p : Point) → (h : Held) → HasOpen self.old key p h → IfErr result (λ _. h.flips ≢ self.old.flips) }
        ensures points { (p : Point) → point_at self.old key ≡ Some p → self.new ≡ with_point self.old key (Some (after_close p)) }
        ensures state { (p : Point) → (h : Held) → HasOpen self.old key p h
            → MatchResult result (λ _. segs.new ≡ with_block segs.old h) (λ _. segs.new ≡ segs.old) }
        ensures moves { (p : Point) → (h : Held) → HasOpen self.old key p h
            → MatchResult result (λ at. trail.new ≡ with_move trail.old (Commit at h.words p.pool)) (λ _. trail.new ≡ trail.old) }
    {
        let Some(token) = self.points.token(key) else {
            unreachable!()
        };
        self.points.commit(segs, trail, token)
    }

    /// Gives up the open reservation of the point under a key, if there is one. Its words are free again, if no flip came since
    /// the reserve.
    pub fn abandon(&mut self, segs: &mut Segs, key: u32)
        requires within { key < length self.old.points }
        requires reserved { IsReservedAt self.old.flips (point_at self.old key) segs.old }
        ensures points { self.new ≡ with_point self.old key (option_map after_close (point_at self.old key)) }
        ensures state { segs.new ≡ after_end_at self.old.flips (point_at self.old key) segs.old }
    {
        if let Some(token) = self.points.token(key) {
            self.points.abandon(segs, token);
        }
    }

    /// A flip comes: all reservations end, and the buffer of each point is empty.
    pub fn flip(&mut self, segs: &mut Segs)
        requires fits { self.old.flips < 2 ^ 63 }
        requires reserved { AreReserved self.old.flips self.old.points segs.old }
        ensures points { self.new ≡ points_after_flip self.old }
        ensures state { segs.new ≡ after_all_end self.old.flips self.old.points segs.old }
    {
        self.points.flip(segs);
    }

    /// Gives up each open reservation, and lets the points go.
    pub fn finish(self, segs: &mut Segs)
        requires { AreReserved self.flips self.points segs.old }
        ensures { segs.new ≡ after_all_end self.flips self.points segs.old }
    {
        let OpenPoints { points } = self;
        points.end_all(segs);
    }
}

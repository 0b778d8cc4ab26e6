// The copying pools.
#![tactic(auto)]

ghost use Rattle.std.specs.Prelude.{◌≡◌, ℕ, ◌+◌, ◌*◌, ◌%◌, ◌<◌, ◌≤◌, ◌⊎◌, true, false, Some, length, slice_index, drop, IfSome, IfNone, MatchResult, map, Contains};
ghost use Rattle.mps_base.specs.Address.{word_of, bytes_of_word, words_of_grain};
ghost use Rattle.mps_base.specs.Segment.{Segment, segment_over};
ghost use Rattle.mps_seg.specs.Buffer.{IsAtHand};
ghost use Rattle.mps_amc.specs.Moving.{BlockStands, IsBlockOf, IsForwarded, IsUnforwarded, size_at, nailed};
ghost use Rattle.mps_amc.specs.Amc.{no_pools, with_pool, row_after_flip, tails_after_flip, HasTail, tail_of, with_tail, IsFixed, FixesAt};

use crate::moving::move_block;
use mps_base::{Addr, Move, Rank, Trail};
use mps_format::Format;
use mps_seg::{Buffer, Segs};
use std::alloc::{AllocError, Global};
use std::marker::Model;

/// The copying pools: for each generation of each of them, the rest of the last segment that the running collection took for it.
#[derive(Drop)]
pub struct Amc {
    tails: Vec<Vec<Buffer>>,
}

impl Model for Amc {
    ghost use Rattle.std.specs.Prelude.{map};
    ghost use Rattle.mps_amc.specs.Amc.{AmcState};

    ghost Value = { AmcState };

    ghost view = { λ a. record { tails = map (λ row. row.items) a.tails.items } };
}

impl Amc {
    /// No pools. Takes no memory.
    pub fn new(alloc: Global) -> Amc
        ensures { result ≡ no_pools }
    {
        Amc {
            tails: Vec::new(alloc),
        }
    }

    /// One more pool, whose blocks move to n generations, with empty tails.
    pub fn add_pool(&mut self, alloc: Global, generations: u32) -> Result<(), AllocError>
        ensures { MatchResult result (λ _. self.new ≡ with_pool self.old generations) (λ _. self.new ≡ self.old) }
    {
        let none = Buffer { from: 0, count: 0 };
        let row = vec![in alloc; none; generations as usize]?;
        self.tails.push(row)?;
        Ok(())
    }

    /// All tails are empty: what a collection moves after a flip goes to segments that it takes.
    pub fn flip(&mut self)
        ensures { self.new ≡ tails_after_flip self.old }
    {
        empty_rows(&mut self.tails);
    }

    /// Keeps the block at `at` where it lies, as an ambiguous reference to it asks at a flip. A block that is kept already is left as it
    /// is.
    pub fn nail(&self, segs: &mut Segs, at: Addr)
        requires { word_of at.0 < words_of_grain * (segs.old.grains + 1) }
        ensures { segs.new ≡ nailed segs.old at.0 }
    {
        segs.nail(at);
    }

    /// The tail of a generation of a pool.
    fn tail(&self, pool: u32, generation: u32) -> Buffer
        requires { HasTail self.now pool generation }
        ensures { result ≡ tail_of self.now pool generation }
    {
        self.tails[pool as usize][generation as usize]
    }

    /// Sets the tail of a generation of a pool.
    fn set_tail(&mut self, pool: u32, generation: u32, tail: Buffer)
        requires { HasTail self.old pool generation }
        ensures { self.new ≡ with_tail self.old pool generation tail }
    {
        self.tails[pool as usize][generation as usize] = tail;
    }

    /// Keeps the block at `at`, which isn't kept yet: it moves to a generation of its pool, or if there is no room it stays. Returns
    /// where it then lies. It is grey.
    #[inline(always)]
    pub fn keep<F: Format>(
        &mut self,
        segs: &mut Segs,
        trail: &mut Trail,
        format: &F,
        at: Addr,
        pool: u32,
        generation: u32,
    ) -> Addr
        requires aligned { at.0 % bytes_of_word ≡ 0 }
        requires stands { BlockStands (F.layout format.now) segs.old.words at.0 (size_at (F.layout format.now) segs.old.words at.0) }
        requires block { IsBlockOf segs.old at.0 (size_at (F.layout format.now) segs.old.words at.0) }
        requires tail { HasTail self.old pool generation }
        requires at_hand { IsAtHand segs.old (tail_of self.old pool generation) }
        requires fits { 1 < trail.old.spare }
        ensures kept { IsFixed (F.layout format.now) self.old self.new segs.old segs.new trail.old trail.new at pool generation
            (size_at (F.layout format.now) segs.old.words at.0) result }
        ensures stands { BlockStands (F.layout format.now) segs.new.words result.0 (size_at (F.layout format.now) segs.old.words at.0) }
        ensures at_hand { IsAtHand segs.new (tail_of self.new pool generation) }
    {
        let words = format.words(segs.word(at));
        self.keep_block(segs, trail, format, at, pool, generation, words)
    }

    /// Fixes the block at `at` and returns its address: the forwarding address if it has moved, `at` if it is kept already. Any other
    /// block is kept now: it moves to this generation of its pool, or stays if there is no space.
    pub fn fix<F: Format>(
        &mut self,
        segs: &mut Segs,
        trail: &mut Trail,
        format: &F,
        at: Addr,
        generation: u32,
    ) -> Addr
        requires aligned { at.0 % bytes_of_word ≡ 0 }
        requires in_arena { word_of at.0 < length segs.old.words }
        requires block { IsUnforwarded (F.layout format.now) segs.old.words at.0
            → BlockStands (F.layout format.now) segs.old.words at.0 (size_at (F.layout format.now) segs.old.words at.0)
            × IsBlockOf segs.old at.0 (size_at (F.layout format.now) segs.old.words at.0) }
        requires segment { (t : Segment) × (segment_over segs.old.segments at.0 ≡ Some t) × HasTail self.old t.pool generation
            × IsAtHand segs.old (tail_of self.old t.pool generation) }
        requires fits { 1 < trail.old.spare }
        ensures fixed { FixesAt (F.layout format.now) self.old segs.old trail.old at generation self.new segs.new trail.new result }
        ensures at_hand { (t : Segment) → segment_over segs.old.segments at.0 ≡ Some t
            → IsAtHand segs.new (tail_of self.new t.pool generation) }
    {
        if let Some(to) = forwarded_from(segs, format, at) {
            return to;
        }
        let _ = segs.grains();
        if segs.is_kept(at) {
            return at;
        }
        let pool = pool_at(segs, at);
        self.keep(segs, trail, format, at, pool, generation)
    }

    /// Keeps a block of `words` words, as `keep` does.
    #[inline(always)]
    fn keep_block<F: Format>(
        &mut self,
        segs: &mut Segs,
        trail: &mut Trail,
        format: &F,
        at: Addr,
        pool: u32,
        generation: u32,
        words: u32,
    ) -> Addr
        requires aligned { at.0 % bytes_of_word ≡ 0 }
        requires stands { BlockStands (F.layout format.now) segs.old.words at.0 words }
        requires block { IsBlockOf segs.old at.0 words }
        requires tail { HasTail self.old pool generation }
        requires at_hand { IsAtHand segs.old (tail_of self.old pool generation) }
        requires fits { 1 < trail.old.spare }
        ensures fixed { IsFixed (F.layout format.now) self.old self.new segs.old segs.new trail.old trail.new at pool generation words
            result }
        ensures stands { BlockStands (F.layout format.now) segs.new.words result.0 words }
        ensures at_hand { IsAtHand segs.new (tail_of self.new pool generation) }
    {
        let _ = segs.grains();
        let tail = self.tail(pool, generation);
        match tail.place(segs, trail, pool, generation, Rank::Exact, words) {
            Ok(placed) => {
                self.set_tail(pool, generation, placed.rest);
                move_block(segs, format, at, placed.at, words);
                trail.push(Move::Moved {
                    from: at,
                    to: placed.at,
                });
                placed.at
            }
            Err(_) => {
                segs.keep_in_place(at);
                trail.push(Move::Stay { at });
                at
            }
        }
    }
}

/// Where the block has moved that was at `at`; None if no forwarded block begins there.
#[inline(always)]
pub fn forwarded_from<F: Format>(segs: &Segs, format: &F, at: Addr) -> Option<Addr>
    requires held { (t : Segment) × (segment_over segs.now.segments at.0 ≡ Some t) }
    ensures sound { IfSome result (λ to. IsForwarded (F.layout format.now) segs.now.words at.0 to.0) }
    ensures complete { IfNone result (IsUnforwarded (F.layout format.now) segs.now.words at.0) }
{
    format.forwarded(segs.words_from(at))
}

/// The pool of the segment in which an address lies.
fn pool_at(segs: &Segs, at: Addr) -> u32
    requires { (t : Segment) × (segment_over segs.now.segments at.0 ≡ Some t) }
    ensures { (t : Segment) → segment_over segs.now.segments at.0 ≡ Some t → result ≡ t.pool }
{
    let Some(base) = segs.segment_of(at) else {
        unreachable!()
    };
    segs.segment(base).pool
}

/// Empties these rows of tails.
fn empty_rows(rows: &mut [Vec<Buffer>])
    ensures { map (λ row. row.items) rows.new ≡ map row_after_flip (map (λ row. row.items) rows.old) }
{
    for i in 0..rows.len() {
        rows[i].fill(Buffer { from: 0, count: 0 });
    }
}

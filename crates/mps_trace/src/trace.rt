// The collector's state, and how it fixes references.
#![tactic(auto)]

ghost use Rattle.std.specs.Prelude.{◌≡◌, ℕ, ◌+◌, ◌*◌, ◌%◌, ◌<◌, ◌≤◌, true, false, IsTrue, Some, length, slice_index, slice_get, MatchResult, IfErr, IfSome, IsOk};
ghost use Rattle.std.specs.Option.{ForSome};
ghost use Rattle.mps_base.specs.Address.{word_of, bytes_of_word, words_of_grain, max_block_words};
ghost use Rattle.mps_base.specs.Segment.{Segment, segment_over};
ghost use Rattle.mps_seg.specs.Collecting.{is_condemned_at, owner_of};
ghost use Rattle.mps_format.specs.declared.pool.Policy.{Policy};
ghost use Rattle.mps_gen.specs.State.{max_chains, max_generations, max_pools};
ghost use Rattle.mps_amc.specs.Amc.{tails_after_flip};
ghost use Rattle.mps_amc.specs.Moving.{nailed};
ghost use Rattle.mps_gen.specs.State.{is_on_chain};
ghost use Rattle.mps_trace.specs.Flip.{is_automatic, moves_blocks};
ghost use Rattle.mps_trace.specs.Finding.{CanFind, FindsTo};
ghost use Rattle.mps_trace.specs.Trace.{traced, KeepsTo, FixesTo, CanKeep, CanFix, no_pools, with_chain, with_pool};
ghost use Rattle.mps_base.specs.declared.address.Addr.{Addr};
ghost use Rattle.mps_trace.specs.Reclaim.{CanReclaimAt, Reclaims};
ghost use Rattle.mps_trace.specs.Scan.{FixesCell, CanFixCell, AreReadyIn, ScansAll, CanScan, Scanned, CanScanGrey, ScansOne, IsDrained};

use crate::finding::{find_in, segment_at};
use crate::noting::note_copy;
use mps_amc::Amc;
use mps_base::{Addr, BYTES_OF_WORD, Rank, Refusal, Trail};
use mps_format::{Format, Policy};
use mps_gen::Chains;
use mps_mark::Mark;
use mps_seg::{Owner, SegmentInfo, Segs};
use std::alloc::{AllocError, Global};
use std::marker::Model;

/// What a collection knows of pools: the policy of each automatic pool, the words at hand of copying pools, and the chains.
#[derive(Drop)]
pub struct Trace<F: Format> {
    formats: Vec<Option<Policy<F>>>,
    amc: Amc,
    chains: Chains,
}

impl<F: Format> Model for Trace<F> {
    ghost use Rattle.mps_trace.specs.Trace.{TraceState};

    ghost Value = { TraceState F };

    ghost view = { λ t. record { formats = t.formats.items; amc = t.amc; chains = t.chains } };
}

impl<F: Format> Trace<F> {
    /// No pools. Takes no memory.
    pub fn new(alloc: Global) -> Trace<F>
        ensures { result ≡ no_pools }
    {
        Trace {
            formats: Vec::new(alloc),
            amc: Amc::new(alloc),
            chains: Chains::new(),
        }
    }

    /// Makes a chain whose generations have these capacities, in grains, and returns its number. Refuses `TooMany` if there are 16.
    pub fn chain(&mut self, capacities: &[u32]) -> Result<u32, Refusal>
        requires nonempty { 0 < length capacities.now }
        requires at_most { length capacities.now ≤ max_generations }
        ensures state { MatchResult result (λ number. (number ≡ length self.old.chains.chains)
            × (self.new ≡ with_chain self.old capacities.now)) (λ _. self.new ≡ self.old) }
        ensures fits { length self.old.chains.chains < max_chains → IsOk result }
        ensures full { IfErr result (λ why. (why ≡ Refusal.TooMany max_chains) × (length self.old.chains.chains ≡ max_chains)) }
    {
        self.chains.chain(capacities)
    }

    /// The chains, and the chain of each pool.
    pub fn chains(&self) -> &Chains
        ensures { result.now ≡ self.now.chains }
    {
        &self.chains
    }

    /// One more pool, on a chain or on none, with an empty tail for each of n generations. `format` is None if it isn't collected.
    pub fn add_pool(
        &mut self,
        alloc: Global,
        format: Option<Policy<F>>,
        chain: Option<u32>,
        generations: u32,
    ) -> Result<(), AllocError>
        requires few { length self.old.chains.of_pool < max_pools }
        requires known { ForSome chain (λ number. number < length self.old.chains.chains) }
        ensures state { MatchResult result (λ _. self.new ≡ with_pool self.old format chain generations) (λ _. self.new ≡ self.old) }
    {
        self.formats.push(format)?;
        match self.amc.add_pool(alloc, generations) {
            Ok(()) => {
                self.chains.pool(chain);
                Ok(())
            }
            Err(error) => {
                self.formats.pop();
                Err(error)
            }
        }
    }

    /// All tails are empty, as a flip leaves them.
    pub(crate) fn drop_tails(&mut self)
        ensures { self.new ≡ record self.old { amc = tails_after_flip self.old.amc } }
    {
        self.amc.flip();
    }

    /// Whether a pool is automatic.
    pub(crate) fn is_automatic(&self, pool: u32) -> bool
        ensures { result ≡ is_automatic self.now.formats pool }
    {
        (pool as usize) < self.formats.len() && self.formats[pool as usize].is_some()
    }

    /// Whether a pool is on a chain.
    pub(crate) fn is_on(&self, chain: u32, pool: u32) -> bool
        ensures { result ≡ is_on_chain self.now.chains chain pool }
    {
        self.chains.is_on(chain, pool)
    }

    /// Whether a collection moves the blocks of a pool.
    pub(crate) fn moves_blocks(&self, pool: u32) -> bool
        ensures { result ≡ moves_blocks self.now.formats pool }
    {
        match self.formats.get(pool as usize) {
            Some(Some(policy)) => policy.moves,
            _ => false,
        }
    }

    /// Keeps the block at `at` where it lies, as an ambiguous reference to it asks at a flip.
    pub(crate) fn nail(&self, segs: &mut Segs, at: Addr)
        requires { word_of at.0 < words_of_grain * (segs.old.grains + 1) }
        ensures { segs.new ≡ nailed segs.old at.0 }
    {
        self.amc.nail(segs, at);
    }

    /// Where the block lies now to which an address leads; None if it is white. One in a segment that isn't condemned is where it was.
    pub fn find(&self, segs: &Segs, at: Addr) -> Option<Addr>
        requires { CanFind F.layout self.now.formats segs.now at }
        ensures found { FindsTo F.layout self.now.formats segs.now at result }
        ensures aligned { IfSome result (λ to. to.0 % bytes_of_word ≡ 0) }
    {
        let _ = segs.grains(); // its words are those of the marks
        let Some(owner) = segs.policy_at(at) else {
            return Some(at);
        };
        let Some(policy) = self.formats[owner.pool as usize] else {
            unreachable!()
        };
        find_in(segs, policy, at)
    }

    /// Keeps the white block at `at` as its pool does: it moves, or it stays where it lies. Returns where it then lies. It is grey.
    pub(crate) fn keep(&mut self, segs: &mut Segs, trail: &mut Trail, at: Addr) -> Addr
        requires { CanKeep F.layout self.old.formats self.old.chains (traced self.old segs.old trail.old) at }
        ensures kept { KeepsTo F.layout self.old.formats self.old.chains (traced self.old segs.old trail.old) at
            (traced self.new segs.new trail.new) result }
        ensures unchanged { self.new ≡ record self.old { amc = self.new.amc } }
        ensures aligned { result.0 % bytes_of_word ≡ 0 }
        ensures size { length segs.new.words ≡ length segs.old.words }
    {
        let Some(
            SegmentInfo {
                pool,
                generation,
                ..
            },
        ) = segment_at(segs, at)
        else {
            unreachable!()
        };
        let Some(policy) = self.formats[pool as usize] else {
            unreachable!()
        };
        self.keep_as(segs, trail, policy, Owner { pool, generation }, at)
    }

    /// Keeps the white block at `at` of a segment with this owner, as the policy of the pool says.
    #[inline(always)]
    fn keep_as(
        &mut self,
        segs: &mut Segs,
        trail: &mut Trail,
        policy: Policy<F>,
        owner: Owner,
        at: Addr,
    ) -> Addr
        requires can { CanKeep F.layout self.old.formats self.old.chains (traced self.old segs.old trail.old) at }
        requires owned { (t : Segment) → segment_over segs.old.segments at.0 ≡ Some t → owner ≡ owner_of t }
        requires known { slice_get self.old.formats owner.pool ≡ Some (Some policy) }
        ensures kept { KeepsTo F.layout self.old.formats self.old.chains (traced self.old segs.old trail.old) at
            (traced self.new segs.new trail.new) result }
        ensures unchanged { self.new ≡ record self.old { amc = self.new.amc } }
        ensures aligned { result.0 % bytes_of_word ≡ 0 }
        ensures size { length segs.new.words ≡ length segs.old.words }
    {
        if policy.moves {
            return self.keep_moving(segs, trail, policy, owner, at);
        }
        let _ = segs.grains(); // its words are those of the marks
        segs.keep_in_place(at);
        at
    }

    /// Keeps the white block at `at` of a segment with this owner, whose pool moves its blocks.
    #[inline(never)]
    fn keep_moving(
        &mut self,
        segs: &mut Segs,
        trail: &mut Trail,
        policy: Policy<F>,
        owner: Owner,
        at: Addr,
    ) -> Addr
        requires moves { policy.moves ≡ true }
        requires can { CanKeep F.layout self.old.formats self.old.chains (traced self.old segs.old trail.old) at }
        requires owned { (t : Segment) → segment_over segs.old.segments at.0 ≡ Some t → owner ≡ owner_of t }
        requires known { slice_get self.old.formats owner.pool ≡ Some (Some policy) }
        ensures kept { KeepsTo F.layout self.old.formats self.old.chains (traced self.old segs.old trail.old) at
            (traced self.new segs.new trail.new) result }
        ensures unchanged { self.new ≡ record self.old { amc = self.new.amc } }
        ensures aligned { result.0 % bytes_of_word ≡ 0 }
        ensures size { length segs.new.words ≡ length segs.old.words }
    {
        let generation = self.chains.target(owner.pool, owner.generation);
        let to = self
            .amc
            .keep(segs, trail, &policy.format, at, owner.pool, generation);
        note_copy(segs, &policy.format, at, to);
        to
    }

    /// Fixes a reference: returns where the block at `at` lies then. It stays in a segment that isn't condemned, else its pool decides.
    #[inline(always)]
    pub fn fix(&mut self, segs: &mut Segs, trail: &mut Trail, at: Addr) -> Addr
        requires { CanFix F.layout self.old segs.old trail.old at }
        ensures fixed { FixesTo F.layout self.old.formats self.old.chains (traced self.old segs.old trail.old) at
            (traced self.new segs.new trail.new) result }
        ensures unchanged { self.new ≡ record self.old { amc = self.new.amc } }
        ensures aligned { result.0 % bytes_of_word ≡ 0 }
        ensures size { length segs.new.words ≡ length segs.old.words }
    {
        let _ = segs.grains(); // its words are those of the marks
        let Some(owner) = segs.policy_at(at) else {
            return at;
        };
        let Some(policy) = self.formats[owner.pool as usize] else {
            unreachable!()
        };
        match find_in(segs, policy, at) {
            Some(to) => to,
            None => self.keep_as(segs, trail, policy, owner, at),
        }
    }

    /// Fixes the reference in a cell of the block at `at`: its block is fixed, and it leads to where that then lies. Null stays null.
    #[inline(always)]
    fn fix_cell(&mut self, segs: &mut Segs, trail: &mut Trail, format: &F, at: Addr, cell: u32)
        requires aligned { at.0 % bytes_of_word ≡ 0 }
        requires held { (t : Segment) × (segment_over segs.old.segments at.0 ≡ Some t) }
        requires at_most { cell < max_block_words }
        requires inside { word_of at.0 + cell < length segs.old.words }
        requires can { CanFixCell F.layout (F.layout format.now) self.old segs.old trail.old at cell }
        ensures fixed { FixesCell F.layout (F.layout format.now) self.old.formats self.old.chains at cell
            (traced self.old segs.old trail.old) (traced self.new segs.new trail.new) }
        ensures unchanged { self.new ≡ record self.old { amc = self.new.amc } }
        ensures size { length segs.new.words ≡ length segs.old.words }
    {
        let words = segs.words_from(at);
        let word = words[cell as usize];
        let target = format.target(word);
        if target.0 == 0 {
            return;
        }
        let to = self.fix(segs, trail, target);
        segs.set_reference(at, cell, format.retarget(word, to), to);
    }

    /// Fixes the references of the block at `at` with this head, in ascending order.
    #[inline(always)]
    fn fix_cells(&mut self, segs: &mut Segs, trail: &mut Trail, format: &F, head: u64, at: Addr)
        requires aligned { at.0 % bytes_of_word ≡ 0 }
        requires held { (t : Segment) × (segment_over segs.old.segments at.0 ≡ Some t) }
        requires valid { IsTrue ((F.layout format.now).is_valid head) }
        requires inside { word_of at.0 + (F.layout format.now).size head ≤ length segs.old.words }
        requires ready { AreReadyIn F.layout (F.layout format.now) self.old segs.old trail.old head at }
        ensures all { ScansAll F.layout (F.layout format.now) self.old.formats self.old.chains head at
            (traced self.old segs.old trail.old) (traced self.new segs.new trail.new) }
        ensures unchanged { self.new ≡ record self.old { amc = self.new.amc } }
        ensures size { length segs.new.words ≡ length segs.old.words }
    {
        let mut from = 0;
        while let Some(cell) = format.ref_from(head, from) {
            self.fix_cell(segs, trail, format, at, cell);
            from = cell + 1;
        }
    }

    /// The format of the objects in the segment over `at`, whose pool is automatic.
    #[inline(always)]
    pub(crate) fn format_over(&self, segs: &Segs, at: Addr) -> F
        requires { (t : Segment) × (format : Policy F) × (segment_over segs.now.segments at.0 ≡ Some t)
            × (slice_get self.now.formats t.pool ≡ Some (Some format)) }
        ensures { (t : Segment) (format : Policy F) → segment_over segs.now.segments at.0 ≡ Some t
            → slice_get self.now.formats t.pool ≡ Some (Some format) → result ≡ format.format }
    {
        let pool = segs.pool_over(at);
        let Some(format) = self.formats[pool as usize] else {
            unreachable!()
        };
        format.format
    }

    /// Scans the block at `at`: each of its references is fixed, and it is grey no longer.
    #[inline(always)]
    pub fn scan(&mut self, segs: &mut Segs, trail: &mut Trail, at: Addr)
        requires { CanScan F.layout self.old segs.old trail.old at }
        ensures scanned { Scanned F.layout self.old.formats self.old.chains (traced self.old segs.old trail.old) at
            (traced self.new segs.new trail.new) }
        ensures unchanged { self.new ≡ record self.old { amc = self.new.amc } }
    {
        let format = self.format_over(segs, at);
        let head = segs.held_word(at);
        self.fix_cells(segs, trail, &format, head, at);
        let _ = segs.grains(); // its words are those of the marks
        segs.blacken(at);
    }

    /// Scans one of the grey blocks that aren't weak, and returns whether there was one. Which one it is is open.
    #[inline(always)]
    pub fn scan_next(&mut self, segs: &mut Segs, trail: &mut Trail) -> bool
        requires { CanScanGrey F.layout self.old segs.old trail.old }
        ensures scanned { result ≡ true → ScansOne F.layout self.old.formats self.old.chains (traced self.old segs.old trail.old)
            (traced self.new segs.new trail.new) }
        ensures drained { result ≡ false → IsDrained segs.old }
        ensures idle { result ≡ false → (segs.new ≡ segs.old) × (trail.new ≡ trail.old) × (self.new ≡ self.old) }
        ensures unchanged { self.new ≡ record self.old { amc = self.new.amc } }
    {
        let Some(grey) = segs.next_grey(Rank::Exact) else {
            return false;
        };
        let at = Addr(BYTES_OF_WORD * grey.word() as u64);
        self.scan(segs, trail, at);
        true
    }

    /// Reclaims the segment at `base` as its pool does: what wasn't kept is freed, and if nothing is left the segment is given back.
    pub fn reclaim(&self, segs: &mut Segs, trail: &mut Trail, base: Addr)
        requires { CanReclaimAt F.layout self.now segs.old trail.old base }
        ensures { Reclaims F.layout self.now.formats segs.old trail.old base segs.new trail.new }
    {
        let pool = segs.segment(base).pool;
        let Some(format) = self.formats[pool as usize] else {
            unreachable!()
        };
        if format.moves {
            self.amc.reclaim_seg(segs, trail, &format.format, base);
        } else {
            Mark.reclaim_seg(segs, trail, base);
        }
    }
}

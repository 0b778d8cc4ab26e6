// The table of pools.
#![tactic(auto)]

ghost use Rattle.std.specs.Prelude.{◌≡◌, ℕ, ◌^◌, ◌<◌, ◌≤◌, Some, None, length, map, slice_get, IfErr, IfNone, IfSome, IsOk, MatchResult};
ghost use Rattle.std.specs.Option.{option_map, ForSome};
ghost use Rattle.mps_base.specs.Segment.{Segment, segment_over};
ghost use Rattle.mps_buffer.specs.Points as buffer;
ghost use Rattle.mps_gen.specs.State.{max_chains, max_generations, max_pools};
ghost use Rattle.mps_ld.specs.State as ld;
ghost use Rattle.mps_format.specs.Pools.{policy_of_pool};
ghost use Rattle.mps_trace.specs.Access.{CanAccess, AccessesTo};
ghost use Rattle.mps_trace.specs.Begin.{Begins, EndsAtOnce};
ghost use Rattle.mps_trace.specs.Flip.{moving_of, zones_at_flip, zones_of};
ghost use Rattle.mps_pools.specs.Collecting.{CanCollectPools, CanCondemn, ArePoolsCollected, IsTraceOf};
ghost use Rattle.mps_pools.specs.Pools.{none_made, tails_on, trace_of, with_chain, with_one_more};
ghost use Rattle.mps_trace.specs.Registration.{AreFindable, FindsRegistration};
ghost use Rattle.mps_trace.specs.Trace.{traced};
ghost use Rattle.mps_trace.specs.Unit.{CanUnit, AreUnitsReady, UnitTo, LastUnitTo, UnitsTo, EndsWithin};

use arrayvec::ArrayVec;
use mps_base::{Addr, Refusal, Trail};
use mps_buffer::OpenPoints;
use mps_final::Finals;
use mps_format::{Format, Pool, policy_of_pool, size_of_pool};
use mps_gen::{Chains, MAX_CHAINS};
use mps_ld::Epochs;
use mps_manual::Manual;
use mps_root::Roots;
use mps_seg::Segs;
use mps_trace::{Band, Condemn, Running, Trace};
use std::alloc::{AllocError, Global};
use std::marker::Model;

/// The pools of a heap by their numbers, the sizes of their manual blocks, and what its collector knows of them.
#[derive(Drop)]
pub struct Pools<F: Format> {
    pools: Vec<Pool<F>>,
    manual: Manual,
    trace: Trace<F>,
    // How many generations each chain has.
    generations: ArrayVec<u32, MAX_CHAINS>,
}

impl<F: Format> Model for Pools<F> {
    ghost use Rattle.mps_pools.specs.Inside.{AreSoundPools};
    ghost use Rattle.mps_pools.specs.Pools.{PoolsState};

    ghost Value = { PoolsState F };

    ghost view = { λ p. record { pools = p.pools.items; sizes = p.manual; chains = p.trace.chains; tails = p.trace.amc } };

    ghost invariant = { λ p. AreSoundPools p.pools.items p.generations.items p.trace };
}

impl<F: Format> Pools<F> {
    /// No pools. Takes no memory.
    pub fn new(alloc: Global) -> Pools<F>
        ensures { result ≡ none_made }
    {
        Pools {
            pools: Vec::new(alloc),
            manual: Manual::new(alloc),
            trace: Trace::new(alloc),
            generations: ArrayVec::new(),
        }
    }

    /// How many pools there are.
    pub fn count(&self) -> usize
        ensures { result ≡ length self.now.pools }
    {
        self.pools.len()
    }

    /// The pool with a number, if there is one.
    #[inline(always)]
    pub fn get(&self, number: u32) -> Option<Pool<F>>
        ensures { result ≡ slice_get self.now.pools number }
    {
        self.pools.get(number as usize).copied()
    }

    /// The sizes of manual blocks, by the number of the pool.
    pub fn manual(&self) -> &Manual
        ensures { result.now ≡ self.now.sizes }
    {
        &self.manual
    }

    /// The chains, and the chain of each pool.
    pub fn chains(&self) -> &Chains
        ensures { result.now ≡ self.now.chains }
    {
        self.trace.chains()
    }

    /// How many chains there are.
    pub fn chain_count(&self) -> usize
        ensures { result ≡ length self.now.chains.chains }
    {
        self.generations.len()
    }

    /// How many generations a chain has; None if there is none of this number.
    pub fn generations_on(&self, chain: u32) -> Option<u32>
        ensures { result ≡ option_map length (slice_get self.now.chains.chains chain) }
    {
        self.generations.get(chain as usize).copied()
    }

    /// How many tails a pool on a chain has, or a pool on none.
    fn tails_on(&self, chain: Option<u32>) -> u32
        requires known { ForSome chain (λ number. number < length self.now.chains.chains) }
        ensures { result ≡ tails_on self.now.chains chain }
    {
        match chain {
            Some(number) => self.generations[number as usize],
            None => 1,
        }
    }

    /// Makes a chain whose generations have these capacities, in grains, and returns its number. Refuses `TooMany` if there are 16.
    pub fn chain(&mut self, capacities: &[u32]) -> Result<u32, Refusal>
        requires nonempty { 0 < length capacities.now }
        requires at_most { length capacities.now ≤ max_generations }
        ensures state { MatchResult result (λ number. (number ≡ length self.old.chains.chains)
            × (self.new ≡ record self.old { chains = with_chain self.old.chains capacities.now })) (λ _. self.new ≡ self.old) }
        ensures fits { length self.old.chains.chains < max_chains → IsOk result }
        ensures full { IfErr result (λ why. (why ≡ Refusal.TooMany max_chains) × (length self.old.chains.chains ≡ max_chains)) }
    {
        self.trace.chains().are_sound();
        let number = self.trace.chain(capacities)?;
        self.trace.chains().are_sound();
        self.generations.push(capacities.len() as u32);
        Ok(number)
    }

    /// Makes one pool more, on a chain or on none.
    pub fn add(&mut self, pool: Pool<F>, chain: Option<u32>) -> Result<(), AllocError>
        requires few { length self.old.pools < max_pools }
        requires known { ForSome chain (λ number. number < length self.old.chains.chains) }
        ensures state { MatchResult result (λ _. self.new ≡ with_one_more self.old pool chain) (λ _. self.new ≡ self.old) }
    {
        self.trace.chains().are_sound();
        let alloc = *self.pools.allocator();
        let tails = self.tails_on(chain);
        self.pools.reserve(1)?;
        self.manual.add(size_of_pool(pool))?;
        if let Err(error) = self
            .trace
            .add_pool(alloc, policy_of_pool(pool), chain, tails)
        {
            self.manual.remove_last();
            return Err(error);
        }
        let Ok(()) = self.pools.push(pool) else {
            unreachable!()
        };
        Ok(())
    }

    /// Begins a collection of what is to be condemned: the flip alone, and no unit. None if nothing is condemned: the collection has
    /// ended.
    pub fn begin(
        &mut self,
        segs: &mut Segs,
        trail: &mut Trail,
        roots: &mut Roots,
        points: &mut OpenPoints,
        finals: &mut Finals,
        epochs: &mut Epochs,
        what: Condemn,
    ) -> Option<Running>
        requires few_flips { points.old.flips < 2 ^ 63 }
        requires few_epochs { epochs.old.count < 2 ^ 63 }
        requires can { CanCondemn F.layout (trace_of self.old.pools self.old.chains self.old.tails) what points.old roots.old finals.old
            segs.old trail.old }
        ensures begun { IfSome result (λ run. Begins F.layout (trace_of self.old.pools self.old.chains self.old.tails).formats
            (trace_of self.old.pools self.old.chains self.old.tails).chains what points.old roots.old finals.old
            (traced (trace_of self.old.pools self.old.chains self.old.tails) segs.old trail.old) roots.new finals.new
            (traced (trace_of self.new.pools self.new.chains self.new.tails) segs.new trail.new) run) }
        ensures ended { IfNone result (EndsAtOnce (trace_of self.old.pools self.old.chains self.old.tails).formats
            (trace_of self.old.pools self.old.chains self.old.tails).chains what points.old roots.old finals.old
            (traced (trace_of self.old.pools self.old.chains self.old.tails) segs.old trail.old) roots.new finals.new
            (traced (trace_of self.new.pools self.new.chains self.new.tails) segs.new trail.new)) }
        ensures unchanged { self.new ≡ record self.old { tails = self.new.tails } }
        ensures points { points.new ≡ buffer.points_after_flip points.old }
        ensures epochs { epochs.new ≡ ld.epochs_after_flip epochs.old
            (zones_at_flip (map policy_of_pool self.old.pools) self.old.chains what segs.old.segments) }
    {
        self.trace
            .begin(segs, trail, roots, points, finals, epochs, what)
    }

    /// Collects everything, from the flip to the end, within `most` units.
    pub fn collect(
        &mut self,
        segs: &mut Segs,
        trail: &mut Trail,
        roots: &mut Roots,
        points: &mut OpenPoints,
        finals: &mut Finals,
        epochs: &mut Epochs,
        most: u64,
    )
        requires few_flips { points.old.flips < 2 ^ 63 }
        requires few_epochs { epochs.old.count < 2 ^ 63 }
        requires can { CanCollectPools F.layout self.old.pools self.old.chains points.old roots.old finals.old segs.old trail.old most }
        ensures unchanged { self.new ≡ record self.old { tails = self.new.tails } }
        ensures collected { ArePoolsCollected F.layout self.old.pools self.old.chains points.old roots.old finals.old segs.old trail.old
            most roots.new finals.new segs.new trail.new }
        ensures points { points.new ≡ buffer.points_after_flip points.old }
        ensures epochs { epochs.new
            ≡ ld.epochs_after_flip epochs.old (zones_of (moving_of (map policy_of_pool self.old.pools) segs.old.segments)) }
    {
        self.trace
            .collect(segs, trail, roots, points, finals, epochs, most);
    }

    /// Does nothing: a caller knows that each pool has a tail for each generation to which its blocks move.
    pub fn tails_are_listed(&self)
        ensures { IsTraceOf self.now.pools self.now.chains (trace_of self.now.pools self.now.chains self.now.tails) }
    {
        let _ = &self.trace;
    }

    /// One unit of a running collection. None if the collection has ended.
    pub fn unit(
        &mut self,
        segs: &mut Segs,
        trail: &mut Trail,
        finals: &mut Finals,
        running: Running,
    ) -> Option<Running>
        requires { CanUnit F.layout (trace_of self.old.pools self.old.chains self.old.tails) segs.old trail.old finals.old running }
        ensures goes_on { IfSome result (λ next. UnitTo F.layout (trace_of self.old.pools self.old.chains self.old.tails).formats
            (trace_of self.old.pools self.old.chains self.old.tails).chains
            (traced (trace_of self.old.pools self.old.chains self.old.tails) segs.old trail.old)
            finals.old running (traced (trace_of self.new.pools self.new.chains self.new.tails) segs.new trail.new) finals.new next) }
        ensures ended { IfNone result (LastUnitTo F.layout (trace_of self.old.pools self.old.chains self.old.tails).formats
            (traced (trace_of self.old.pools self.old.chains self.old.tails) segs.old trail.old) running
            (traced (trace_of self.new.pools self.new.chains self.new.tails) segs.new trail.new) × (finals.new ≡ finals.old)) }
        ensures unchanged { self.new ≡ record self.old { tails = self.new.tails } }
    {
        self.trace.unit(segs, trail, finals, running)
    }

    /// At most n units. None if the collection has ended.
    pub fn finish(
        &mut self,
        segs: &mut Segs,
        trail: &mut Trail,
        finals: &mut Finals,
        running: Running,
        most: u64,
    ) -> Option<Running>
        requires { AreUnitsReady F.layout (trace_of self.old.pools self.old.chains self.old.tails) segs.old trail.old finals.old running
            most }
        ensures goes_on { IfSome result (λ next. UnitsTo F.layout (trace_of self.old.pools self.old.chains self.old.tails).formats
            (trace_of self.old.pools self.old.chains self.old.tails).chains
            (traced (trace_of self.old.pools self.old.chains self.old.tails) segs.old trail.old)
            finals.old running most (traced (trace_of self.new.pools self.new.chains self.new.tails) segs.new trail.new) finals.new next) }
        ensures ended { IfNone result (EndsWithin F.layout (trace_of self.old.pools self.old.chains self.old.tails).formats
            (trace_of self.old.pools self.old.chains self.old.tails).chains
            (traced (trace_of self.old.pools self.old.chains self.old.tails) segs.old trail.old)
            finals.old running most (traced (trace_of self.new.pools self.new.chains self.new.tails) segs.new trail.new) finals.new) }
        ensures unchanged { self.new ≡ record self.old { tails = self.new.tails } }
    {
        self.trace.finish(segs, trail, finals, running, most)
    }

    /// The position of the first registration of the block that lies at an address now; None if it has none.
    pub fn registration_of(&self, segs: &Segs, finals: &mut Finals, at: Addr) -> Option<usize>
        requires { AreFindable F.layout (map policy_of_pool self.now.pools) segs.now finals.old.registered }
        ensures unchanged { finals.new ≡ finals.old }
        ensures found { FindsRegistration F.layout (map policy_of_pool self.now.pools) segs.now finals.old.registered at.0 result }
    {
        self.trace.registration_of(segs, finals, at)
    }

    /// The read barrier of a running collection for a block at `at`, before a reference in it is read.
    pub fn access(&mut self, segs: &mut Segs, trail: &mut Trail, band: Band, at: Addr)
        requires { (t : Segment) → segment_over segs.old.segments at.0 ≡ Some t
            → CanAccess F.layout band (trace_of self.old.pools self.old.chains self.old.tails) segs.old trail.old t }
        ensures accessed { (t : Segment) → segment_over segs.old.segments at.0 ≡ Some t
            → AccessesTo F.layout (trace_of self.old.pools self.old.chains self.old.tails).formats
            (trace_of self.old.pools self.old.chains self.old.tails).chains band t
            (traced (trace_of self.old.pools self.old.chains self.old.tails) segs.old trail.old)
            (traced (trace_of self.new.pools self.new.chains self.new.tails) segs.new trail.new) }
        ensures unchanged { self.new ≡ record self.old { tails = self.new.tails } }
        ensures idle { segment_over segs.old.segments at.0 ≡ None
            → (segs.new ≡ segs.old) × (trail.new ≡ trail.old) × (self.new ≡ self.old) }
    {
        self.trace.access(segs, trail, band, at);
    }
}

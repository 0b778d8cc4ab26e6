// The heap at rest.
#![tactic(auto)]

ghost use Rattle.std.specs.Prelude.{◌≡◌, ◌<◌, ◌≤◌, [], slice_get, IfOk};
ghost use Rattle.mps_base.specs.Address.{max_grains};
ghost use Rattle.mps_buffer.specs.Points.{AreReserved};
ghost use Rattle.mps_names.specs.State.{no_counts};
ghost use Rattle.mps_root.specs.State.{HasItem};
ghost use Rattle.mps_heap_spec.specs.Arena.{new_heap};
ghost use Rattle.mps_heap_spec.specs.Objects.{with_slot};

mod finding;
mod keyed;

use mps_buffer::OpenPoints;
use mps_final::Finals;
use mps_format::Format;
use mps_heap_spec::{ArenaState, Entry};
use mps_ld::{Epochs, Ld};
use mps_names::Names;
use mps_neighbours::Neighbours;
use mps_pools::Pools;
use mps_root::Roots;
use mps_seg::Segs;
use mps_trace::Running;
use std::alloc::{AllocError, Global};
use std::marker::Model;

/// A heap at rest, generic in the format of its objects. It must be consumed by `finish`, which ends its open reservations.
pub struct State<F: Format> {
    pub segs: Segs,
    pub roots: Roots,
    pub live_roots: usize,
    pub live_slots: usize,
    pub points: OpenPoints,
    pub live_points: usize,
    pub finals: Finals,
    pub epochs: Epochs,
    pub dependencies: Vec<Ld>,
    pub pools: Pools<F>,
    pub names: Names,
    pub arena: ArenaState,
    pub beside: Neighbours,
    pub running: Option<Running>,
}

impl<F: Format> Model for State<F> {
    ghost use Rattle.mps_heap_spec.specs.State.{HeapState};

    ghost Value = { HeapState F };

    ghost view = { λ s. record {
      segs = s.segs;
      roots = s.roots;
      live_roots = s.live_roots;
      live_slots = s.live_slots;
      points = s.points;
      live_points = s.live_points;
      finals = s.finals;
      epochs = s.epochs;
      dependencies = s.dependencies.items;
      pools = s.pools.pools;
      sizes = s.pools.sizes;
      chains = s.pools.chains;
      tails = s.pools.tails;
      names = s.names;
      arena = s.arena;
      beside = record {
        dependents = s.beside.dependents;
        transforms = s.beside.transforms;
        caches = s.beside.caches;
        frames = s.beside.frames;
      };
      running = s.running;
    } };
}

impl<F: Format> State<F> {
    /// A heap in which nothing was made, over a new arena of the grains 1 to `grains`, with a commit limit in grains.
    pub fn new(alloc: Global, grains: u32, limit: u32) -> Result<State<F>, AllocError>
        requires nonzero { 0 < grains }
        requires at_most { grains ≤ max_grains }
        ensures state { IfOk result (λ h. h ≡ new_heap grains limit h.names) }
        ensures names { IfOk result (λ h. h.names.entries ≡ []) }
        ensures counts { IfOk result (λ h. h.names.counts ≡ no_counts) }
    {
        let finals = Finals::new(alloc)?;
        let names = Names::new(alloc)?;
        let beside = Neighbours::new(alloc)?;
        let segs = Segs::new(alloc, grains, limit)?;
        let Ok(points) = OpenPoints::new(alloc) else {
            drop(segs);
            return Err(AllocError);
        };
        Ok(State {
            segs,
            roots: Roots::new(alloc),
            live_roots: 0,
            live_slots: 0,
            points,
            live_points: 0,
            finals,
            epochs: Epochs::new(),
            dependencies: Vec::new(alloc),
            pools: Pools::new(alloc),
            names,
            arena: ArenaState::Unclamped,
            beside,
            running: None,
        })
    }

    /// The word of a number, which is its address divided by 8; none if the arena has no such word.
    pub fn item(&self, word: usize) -> Option<u64>
        ensures { result ≡ slice_get self.now.segs.words word }
    {
        self.segs.item(word)
    }

    /// Writes a slot that was found.
    pub fn set_slot(&mut self, slot: Entry<u64>, at: u64)
        requires { HasItem self.old.roots.tables slot.key slot.index }
        ensures { self.new ≡ with_slot self.old slot at }
    {
        self.roots.set_slot(slot.key, slot.index, at);
    }

    /// Ends each open reservation, and lets the heap go.
    pub fn finish(self)
        requires { AreReserved self.points.flips self.points.points self.segs }
    {
        let State {
            segs,
            roots,
            live_roots: _,
            live_slots: _,
            points,
            live_points: _,
            finals,
            epochs: _,
            dependencies,
            pools,
            names,
            arena: _,
            beside,
            running: _,
        } = self;
        let mut segs = segs;
        points.finish(&mut segs);
        drop(segs);
        drop(roots);
        drop(finals);
        drop(dependencies);
        drop(pools);
        drop(names);
        drop(beside);
    }
}

// The heap.
#![tactic(auto)]

mod allocating;
mod areas;
mod arena;
mod caching;
mod collecting;
mod depending;
mod finalizing;
mod framing;
mod keyed;
mod labelling;
mod lending;
mod making;
mod manual;
mod objects;
mod pairing;
mod transforming;

ghost use Rattle.std.specs.Prelude.{◌≡◌, ◌≤◌, ◌<◌, slice_get, IfOk};
ghost use Rattle.mps_base.specs.Address.{max_grains};
ghost use Rattle.mps_heap.specs.Right.{IsNewHeap};
ghost use Rattle.mps_refinement.specs.InWorlds.{SaysWord};

use mps_format::Format;
use mps_heap_state::State;
use std::alloc::{AllocError, Global};
use std::marker::Model;

/// A heap, generic in the format of its objects. It represents a world of the model, and after each call the world after that call.
/// It must be consumed by `finish`, which ends its open reservations.
pub struct Heap<F: Format> {
    state: State<F>,
}

impl<F: Format> Model for Heap<F> {
    ghost use Rattle.mps_heap_spec.specs.State.{HeapState};
    ghost use Rattle.mps_refinement.specs.StandsForSome.{StandsForSome};

    ghost Value = { HeapState F };

    ghost view = { λ h. h.state };

    ghost invariant = { λ h. StandsForSome F.layout h.state };
}

impl<F: Format> Heap<F> {
    /// A heap in a new arena of the grains 1 to `grains`, in which nothing was made, with a commit limit in grains. All memory that the
    /// arena's calls ever need is taken here and by the calls that make things.
    pub fn new(alloc: Global, grains: u32, limit: u32) -> Result<Heap<F>, AllocError>
        requires nonzero { 0 < grains }
        requires at_most { grains ≤ max_grains }
        ensures right { IfOk result (λ heap. IsNewHeap F.layout grains limit heap) }
        ensures grains { IfOk result (λ heap. heap.segs.grains ≡ grains) }
    {
        let state = State::new(alloc, grains, limit)?;
        Ok(Heap { state })
    }

    /// The word of a number, which is its address divided by 8; none if the arena has no such word.
    pub fn word(&self, number: usize) -> Option<u64>
        ensures value { result ≡ slice_get self.now.segs.words number }
        ensures right { SaysWord F.layout self.now number result }
    {
        self.state.item(number)
    }

    /// Ends each open reservation, and lets the heap go.
    pub fn finish(self) {
        let Heap { state } = self;
        state.finish();
    }
}

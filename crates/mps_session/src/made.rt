// A heap with the moves of its last call.
ghost use Rattle.std.specs.Prelude.{◌≡◌, ◌<◌, ◌≤◌, slice_get, IfOk, OnErr, OnOk, IsTrue, []};
ghost use Rattle.mps_base.specs.Address.{max_grains};
ghost use Rattle.mps_commands.specs.Asked.{IsAsked};
ghost use Rattle.mps_commands.specs.Range.{IsInRange};
ghost use Rattle.mps_format.specs.AnyFormat.{any_layout};
ghost use Rattle.mps_heap.specs.Right.{IsNewHeap};
ghost use Rattle.mps_session.specs.Memory.{call_takes_memory};
ghost use Rattle.mps_session.specs.Standing.{HeapStands, HeapStandsStill, IsAnswered};

use crate::calls;
use mps_base::{Move, Trail};
use mps_format::AnyFormat;
use mps_heap::Heap;
use mps_model::{Call, Reply};
use std::alloc::{AllocError, Global};
use std::marker::Model;

/// A heap, and the moves of the last call.
pub struct Made {
    heap: Heap<AnyFormat>,
    trail: Trail,
}

impl Model for Made {
    ghost use Rattle.mps_session.specs.Session.{MadeState};
    ghost use Rattle.mps_session.specs.Standing.{StandsForScript};

    ghost Value = { MadeState };

    ghost view = { λ m. record { heap = m.heap; trail = m.trail } };

    ghost invariant = { λ m. StandsForScript m.heap m.trail };
}

impl Made {
    /// The heap of a new arena, which made no move, with room for the moves of two collections: no call makes more. The numbers are in
    /// grains.
    pub fn new(alloc: Global, grains: u32, limit: u32) -> Result<Made, AllocError>
        requires nonzero { 0 < grains }
        requires at_most { grains ≤ max_grains }
        ensures right { IfOk result (λ made. IsNewHeap any_layout grains limit made.heap) }
        ensures unmoved { IfOk result (λ made. made.trail.moves ≡ []) }
    {
        let heap = Heap::new(alloc, grains, limit)?;
        let trail = match Trail::new(alloc, 2 * heap.most_moves()) {
            Ok(trail) => trail,
            Err(why) => {
                heap.finish();
                return Err(why);
            }
        };
        Ok(Made { heap, trail })
    }

    /// Answers a call, and writes the reply. An `Err` says that memory is out.
    #[inline(always)]
    pub fn answer(&mut self, call: &Call, reply: &mut Reply) -> Result<(), AllocError>
        requires range { IsInRange call.now }
        requires asked { IsAsked (HeapStands self.old.heap) call.now }
        ensures right { OnOk result (IsAnswered self.old.heap call.now self.new.trail.moves reply.new self.new.heap) }
        ensures unchanged { OnErr result (HeapStandsStill self.old.heap self.new.heap) }
        ensures memory { OnErr result (IsTrue (call_takes_memory call.now)) }
    {
        self.trail.clear();
        calls::answer(&mut self.heap, &mut self.trail, call, reply)
    }

    /// The moves of the last call.
    #[inline(always)]
    pub fn moves(&self) -> &[Move]
        ensures { result.now ≡ self.now.trail.moves }
    {
        self.trail.moves()
    }

    /// The word of a number, which is its address divided by 8; none if the arena has no such word.
    #[inline(always)]
    pub fn word(&self, number: usize) -> Option<u64>
        ensures { result ≡ slice_get self.now.heap.segs.words number }
    {
        self.heap.word(number)
    }

    /// Ends the heap.
    pub fn finish(self) {
        let Made { heap, trail: _ } = self;
        heap.finish();
    }
}

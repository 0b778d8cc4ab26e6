// Answers the calls on the heap of an arena.
ghost use Rattle.std.specs.Prelude.{◌≡◌, ◌*◌, ◌<◌, ◌≤◌, OnErr, OnOk, IsTrue, false, []};
ghost use Rattle.mps_commands.specs.Range.{IsInRange};
ghost use Rattle.mps_model.specs.FirstCall.{is_arena};
ghost use Rattle.mps_refinement.specs.Collecting.{can_collect};
ghost use Rattle.mps_refinement.specs.RightMoving.{KeepsRoom};
ghost use Rattle.mps_session.specs.Memory.{call_takes_memory};
ghost use Rattle.mps_session.specs.Groups.{is_frequent};
ghost use Rattle.mps_session.specs.Standing.{HeapStandsStill, IsAnswered};
ghost use Rattle.mps_refinement.specs.TraceCollect.{most_moves};

use crate::grouping::{Group, group_of};
use crate::{areas, arena, caching, collecting, making, manual, moving, reading, writing};
use mps_base::Trail;
use mps_format::AnyFormat;
use mps_heap::Heap;
use mps_model::{Call, Reply};
use std::alloc::AllocError;

/// Answers a call, writes the reply, and appends the moves to the empty trail. An `Err` says that memory is out.
#[inline(always)]
pub fn answer(
    heap: &mut Heap<AnyFormat>,
    trail: &mut Trail,
    call: &Call,
    reply: &mut Reply,
) -> Result<(), AllocError>
    requires range { IsInRange call.now }
    requires other { is_arena call.now ≡ false }
    requires few_flips { IsTrue (can_collect heap.old) }
    requires empty { trail.old.moves ≡ [] }
    requires grains { 0 < heap.old.segs.grains }
    requires fits { 2 * most_moves heap.old.segs.grains ≤ trail.old.spare }
    ensures right { OnOk result (IsAnswered heap.old call.now trail.new.moves reply.new heap.new) }
    ensures unchanged { OnErr result (HeapStandsStill heap.old heap.new) }
    ensures memory { OnErr result (IsTrue (call_takes_memory call.now)) }
    ensures room { KeepsRoom trail.old trail.new }
{
    match group_of(call) {
        Group::Reading => {
            reading::answer(heap, call, reply);
            Ok(())
        }
        Group::Moving => {
            moving::answer(heap, trail, call, reply);
            Ok(())
        }
        Group::Manual => {
            manual::answer(heap, trail, call, reply);
            Ok(())
        }
        Group::Writing => {
            writing::answer(heap, call, reply);
            Ok(())
        }
        Group::Seldom => answer_seldom(heap, trail, call, reply),
    }
}

/// Executes the rare calls, writes the reply, and appends the moves to the empty trail. An `Err` says that memory is out. Not inlined, to
/// keep the stack frame of the frequent calls small.
#[inline(never)]
fn answer_seldom(
    heap: &mut Heap<AnyFormat>,
    trail: &mut Trail,
    call: &Call,
    reply: &mut Reply,
) -> Result<(), AllocError>
    requires range { IsInRange call.now }
    requires other { is_arena call.now ≡ false }
    requires seldom { is_frequent call.now ≡ false }
    requires few_flips { IsTrue (can_collect heap.old) }
    requires empty { trail.old.moves ≡ [] }
    requires fits { 2 * most_moves heap.old.segs.grains ≤ trail.old.spare }
    ensures right { OnOk result (IsAnswered heap.old call.now trail.new.moves reply.new heap.new) }
    ensures unchanged { OnErr result (HeapStandsStill heap.old heap.new) }
    ensures memory { OnErr result (IsTrue (call_takes_memory call.now)) }
    ensures room { KeepsRoom trail.old trail.new }
{
    if let Some(given) = collecting::answer(heap, trail, call) {
        *reply = given;
        return Ok(());
    }
    if let Some(given) = areas::answer(heap, call) {
        *reply = given;
        return Ok(());
    }
    if let Some(given) = arena::answer(heap, call) {
        *reply = given;
        return Ok(());
    }
    if let Some(given) = caching::answer(heap, call) {
        *reply = given;
        return Ok(());
    }
    *reply = making::answer(heap, call)?;
    Ok(())
}

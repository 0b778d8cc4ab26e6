// Answers the calls on objects that may make moves.
ghost use Rattle.std.specs.Prelude.{◌≡◌, ◌*◌, ◌<◌, ◌≤◌, IsTrue, [], true};
ghost use Rattle.mps_refinement.specs.Collecting.{can_collect};
ghost use Rattle.mps_refinement.specs.RightMoving.{KeepsRoom};
ghost use Rattle.mps_session.specs.Groups.{may_move};
ghost use Rattle.mps_session.specs.Standing.{IsAnswered};
ghost use Rattle.mps_refinement.specs.TraceCollect.{most_moves};

use crate::telling::{committed, done};
use mps_base::Trail;
use mps_format::AnyFormat;
use mps_heap::Heap;
use mps_model::{Call, Reply};

/// Answers a call that makes an object or reads a reference, appends its moves to the empty trail, and writes the reply.
#[inline(never)]
pub fn answer(heap: &mut Heap<AnyFormat>, trail: &mut Trail, call: &Call, reply: &mut Reply)
    requires which { may_move call.now ≡ true }
    requires few_flips { IsTrue (can_collect heap.old) }
    requires empty { trail.old.moves ≡ [] }
    requires grains { 0 < heap.old.segs.grains }
    requires fits { 2 * most_moves heap.old.segs.grains ≤ trail.old.spare }
    ensures right { IsAnswered heap.old call.now trail.new.moves reply.new heap.new }
    ensures room { KeepsRoom trail.old trail.new }
{
    match *call {
        Call::Reserve { point, head } => done(reply, heap.reserve(trail, point, head)),
        Call::Commit { point, target } => committed(reply, heap.commit(trail, point, target)),
        Call::Get {
            target,
            source,
            cell,
        } => done(reply, heap.get(trail, target, source, cell)),
        _ => unreachable!(),
    }
}

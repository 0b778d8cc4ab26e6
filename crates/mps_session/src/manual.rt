// Answers the calls that make or end manual blocks, and those on their frames.
ghost use Rattle.std.specs.Prelude.{◌≡◌, ◌*◌, ◌<◌, ◌≤◌, [], true};
ghost use Rattle.mps_refinement.specs.RightMoving.{KeepsRoom};
ghost use Rattle.mps_session.specs.Groups.{is_manual};
ghost use Rattle.mps_session.specs.Standing.{IsAnswered};
ghost use Rattle.mps_refinement.specs.TraceCollect.{most_moves};

use crate::telling::{count, done};
use mps_base::Trail;
use mps_format::AnyFormat;
use mps_heap::Heap;
use mps_model::{Call, Reply};

/// Answers a call that makes or ends a manual block, puts one into a cache or takes it out, flushes a cache, or opens or closes a frame.
/// It appends its moves to the empty trail, and writes the reply.
#[inline(never)]
pub fn answer(heap: &mut Heap<AnyFormat>, trail: &mut Trail, call: &Call, reply: &mut Reply)
    requires which { is_manual call.now ≡ true }
    requires empty { trail.old.moves ≡ [] }
    requires grains { 0 < heap.old.segs.grains }
    requires fits { 2 * most_moves heap.old.segs.grains ≤ trail.old.spare }
    ensures right { IsAnswered heap.old call.now trail.new.moves reply.new heap.new }
    ensures room { KeepsRoom trail.old trail.new }
{
    match *call {
        Call::Alloc { pool, words, place } => done(reply, heap.alloc(trail, pool, words, place)),
        Call::Free { place } => done(reply, heap.free(trail, place)),
        Call::CacheAlloc {
            cache,
            words,
            place,
        } => done(reply, heap.calloc(trail, cache, words, place)),
        Call::CacheFree { cache, place } => done(reply, heap.cfree(trail, cache, place)),
        Call::CacheFlush { cache } => {
            let _ = heap.moves_of_cflush(cache); // at most 1,024
            done(reply, heap.cflush(trail, cache))
        }
        Call::Push { pool } => count(reply, heap.push(pool)),
        Call::Pop { pool, frame } => {
            let _ = heap.most_moves(); // no fewer than this makes
            done(reply, heap.pop(trail, pool, frame))
        }
        _ => unreachable!(),
    }
}

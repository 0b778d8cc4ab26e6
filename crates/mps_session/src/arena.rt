// Answers the calls on the arena, those that drop a thing, and that which makes a label.
ghost use Rattle.std.specs.Prelude.{◌≡◌, IfNone, IfSome, is_some, []};
ghost use Rattle.mps_commands.specs.Range.{IsInRange};
ghost use Rattle.mps_model.specs.declared.call.Call.TheVariants as call;
ghost use Rattle.mps_session.specs.Groups.{is_on_arena};
ghost use Rattle.mps_session.specs.Standing.{IsAnswered};

use crate::replies::{done, interned};
use mps_base::Addr;
use mps_format::AnyFormat;
use mps_heap::Heap;
use mps_model::{Call, Reply};

/// Answers a call on the arena, one that drops a thing, or one that makes a label; `None` if it is another.
pub fn answer(heap: &mut Heap<AnyFormat>, call: &Call) -> Option<Reply>
    requires range { IsInRange call.now }
    ensures right { IfSome result (λ reply. IsAnswered heap.old call.now [] reply heap.new) }
    ensures which { is_some result ≡ is_on_arena call.now }
    ensures unchanged { IfNone result (heap.new ≡ heap.old) }
{
    match *call {
        Call::Limit { limit } => Some(done(heap.limit(limit as u32))),
        Call::Committed => Some(Reply::Number(u64::from(heap.committed()))),
        Call::Clamp => Some(clamp(heap)),
        Call::Release => Some(release(heap)),
        Call::Live => Some(live(heap)),
        Call::Dump { at } => Some(dump(heap, Addr(at))),
        Call::DropRoot { root } => Some(done(heap.drop_root(root))),
        Call::DropPoint { point } => Some(done(heap.drop_point(point))),
        Call::Intern { label } => Some(interned(heap.intern(label))),
        _ => None,
    }
}

fn clamp(heap: &mut Heap<AnyFormat>) -> Reply
    ensures { IsAnswered heap.old call.Clamp [] result heap.new }
{
    heap.clamp();
    Reply::Ok
}

fn release(heap: &mut Heap<AnyFormat>) -> Reply
    ensures { IsAnswered heap.old call.Release [] result heap.new }
{
    heap.release();
    Reply::Ok
}

fn live(heap: &Heap<AnyFormat>) -> Reply
    ensures { IsAnswered heap.now call.Live [] result heap.now }
{
    let (blocks, words) = heap.live();
    Reply::Pair(blocks, words)
}

fn dump(heap: &Heap<AnyFormat>, at: Addr) -> Reply
    ensures { IsAnswered heap.now (call.Dump at.0) [] result heap.now }
{
    match heap.dump(at) {
        Ok(words) => Reply::Words(at, words),
        Err(why) => Reply::Refused(why),
    }
}

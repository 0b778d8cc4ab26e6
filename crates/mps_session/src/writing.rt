// Answers the calls that write a slot, or a word of an object, a reservation or a manual block.
ghost use Rattle.std.specs.Prelude.{◌≡◌, [], true};
ghost use Rattle.mps_commands.specs.Range.{IsInRange};
ghost use Rattle.mps_session.specs.Groups.{writes_words};
ghost use Rattle.mps_session.specs.Standing.{IsAnswered};

use crate::telling::done;
use mps_format::AnyFormat;
use mps_heap::Heap;
use mps_model::{Call, Reply};

/// Answers a call that writes a slot or a word, and writes the reply.
#[inline(never)]
pub fn answer(heap: &mut Heap<AnyFormat>, call: &Call, reply: &mut Reply)
    requires which { writes_words call.now ≡ true }
    requires range { IsInRange call.now }
    ensures { IsAnswered heap.old call.now [] reply.new heap.new }
{
    match *call {
        Call::Put {
            target,
            cell,
            source,
        } => done(reply, heap.put(target, cell, source)),
        Call::SetNumber { slot, cell, value } => done(reply, heap.set_num(slot, cell, value)),
        Call::Copy { target, source } => done(reply, heap.copy(target, source)),
        Call::Clear { slot } => done(reply, heap.clear(slot)),
        Call::InitNumber { point, cell, value } => done(reply, heap.init_num(point, cell, value)),
        Call::InitReference {
            point,
            cell,
            source,
        } => done(reply, heap.init_ref(point, cell, source)),
        Call::Store { place, word, value } => done(reply, heap.store(place, word, value)),
        Call::SetTag { slot, cell, tag } => done(reply, heap.set_tag(slot, cell, tag as u8)),
        _ => unreachable!(),
    }
}

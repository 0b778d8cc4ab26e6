// Answers the calls that read a slot, or a word of an object or a manual block.
ghost use Rattle.std.specs.Prelude.{◌≡◌, [], true};
ghost use Rattle.mps_session.specs.Groups.{reads_words};
ghost use Rattle.mps_session.specs.Standing.{IsAnswered};

use crate::telling::{address, head, labelled, number, tag, yes_or_no};
use mps_format::AnyFormat;
use mps_heap::Heap;
use mps_model::{Call, Reply};

/// Answers a call that reads a slot or a word, and writes the reply. It stands by itself, as what a function enters with is room for all
/// its calls, and scripts read more than they do anything else.
#[inline(never)]
pub fn answer(heap: &Heap<AnyFormat>, call: &Call, reply: &mut Reply)
    requires which { reads_words call.now ≡ true }
    ensures { IsAnswered heap.now call.now [] reply.new heap.now }
{
    match *call {
        Call::Number { slot, cell } => number(reply, heap.num(slot, cell)),
        Call::Same { slot, other } => yes_or_no(reply, heap.same(slot, other)),
        Call::Null { slot } => yes_or_no(reply, heap.is_null(slot)),
        Call::Head { slot } => head(reply, heap.head(slot)),
        Call::Address { slot } => address(reply, heap.addr(slot)),
        Call::Load { place, word } => number(reply, heap.load(place, word)),
        Call::Tag { slot, cell } => tag(reply, heap.tag(slot, cell)),
        Call::Label { slot, label } => labelled(reply, heap.label(slot, label)),
        _ => unreachable!(),
    }
}

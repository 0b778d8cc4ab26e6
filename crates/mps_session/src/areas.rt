// Answers the calls on areas, registrations, messages, dependencies, transforms and dependents.
ghost use Rattle.std.specs.Prelude.{◌≡◌, IfNone, IfSome, is_some, []};
ghost use Rattle.mps_session.specs.Groups.{is_on_areas};
ghost use Rattle.mps_session.specs.Standing.{IsAnswered};

use crate::replies::{self, block, done, message, yes_or_no};
use mps_format::AnyFormat;
use mps_heap::Heap;
use mps_model::{Call, Reply};

/// Answers a call on an area, a registration, a message, a dependency, a transform or a dependent; `None` if it is another.
pub fn answer(heap: &mut Heap<AnyFormat>, call: &Call) -> Option<Reply>
    ensures right { IfSome result (λ reply. IsAnswered heap.old call.now [] reply heap.new) }
    ensures which { is_some result ≡ is_on_areas call.now }
    ensures unchanged { IfNone result (heap.new ≡ heap.old) }
{
    match *call {
        Call::Poke { word, value } => Some(block(heap.poke(word, value))),
        Call::Peek { word } => Some(replies::word(heap.peek(word))),
        Call::Pin { word, slot } => Some(done(heap.pin(word, slot))),
        Call::Take { slot, word } => Some(done(heap.take(slot, word))),
        Call::Finalize { slot } => Some(done(heap.finalize(slot))),
        Call::Definalize { slot } => Some(done(heap.definalize(slot))),
        Call::Message { slot } => Some(message(heap.message(slot))),
        Call::DependencyReset { dependency } => Some(done(heap.ld_reset(dependency))),
        Call::DependencyAdd { dependency, slot } => Some(done(heap.ld_add(dependency, slot))),
        Call::DependencyMerge { dependency, source } => Some(done(heap.ld_merge(
            dependency, source,
        ))),
        Call::DependencyStale { dependency } => Some(yes_or_no(heap.ld_stale(dependency))),
        Call::Transform { transform } => Some(done(heap.transform(transform))),
        Call::TransformAdd {
            transform,
            old,
            new,
        } => Some(done(heap.transadd(transform, old, new))),
        Call::TransformApply { transform } => Some(yes_or_no(heap.transapply(transform))),
        Call::TransformDrop { transform } => Some(done(heap.transdrop(transform))),
        Call::Depend { holder, dependent } => Some(done(heap.depend(holder, dependent))),
        Call::Undepend { holder } => Some(done(heap.undepend(holder))),
        _ => None,
    }
}

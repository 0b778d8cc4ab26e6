// Answers the calls that begin a collection, or have one in progress go on or end.
ghost use Rattle.std.specs.Prelude.{◌≡◌, ◌*◌, ◌≤◌, ◌<◌, IfNone, IfSome, IsTrue, is_some, []};
ghost use Rattle.mps_model.specs.declared.call.Call.TheVariants as call;
ghost use Rattle.mps_refinement.specs.Collecting.{can_collect};
ghost use Rattle.mps_refinement.specs.RightMoving.{KeepsRoom};
ghost use Rattle.mps_session.specs.Groups.{is_collection};
ghost use Rattle.mps_session.specs.Standing.{IsAnswered};
ghost use Rattle.mps_refinement.specs.TraceCollect.{most_moves};

use crate::replies::{done, progress};
use mps_base::Trail;
use mps_format::AnyFormat;
use mps_heap::{Heap, Steps};
use mps_model::{Call, Reply};
use std::marker::Brand;
use std::sync::ledger::{Blank, Ledger};

/// Answers a call that begins a collection, or has one in progress go on or end, and appends its moves to the empty trail; `None` if it
/// is another.
pub fn answer(heap: &mut Heap<AnyFormat>, trail: &mut Trail, call: &Call) -> Option<Reply>
    requires few_flips { IsTrue (can_collect heap.old) }
    requires empty { trail.old.moves ≡ [] }
    requires fits { 2 * most_moves heap.old.segs.grains ≤ trail.old.spare }
    ensures right { IfSome result (λ reply. IsAnswered heap.old call.now trail.new.moves reply heap.new) }
    ensures which { is_some result ≡ is_collection call.now }
    ensures unchanged { IfNone result (heap.new ≡ heap.old) }
    ensures unmoved { IfNone result (trail.new ≡ trail.old) }
    ensures room { KeepsRoom trail.old trail.new }
{
    match *call {
        Call::Start => Some(done(heap.start(trail))),
        Call::StartChain { chain, generation } => {
            Some(done(heap.start_chain(trail, chain, generation)))
        }
        Call::Collect => Some(collect(heap, trail)),
        Call::Park => Some(park(heap, trail)),
        Call::Step { units } => Some(step(heap, trail, units)),
        _ => None,
    }
}

/// Does a full collection.
fn collect(heap: &mut Heap<AnyFormat>, trail: &mut Trail) -> Reply
    requires few_flips { IsTrue (can_collect heap.old) }
    requires empty { trail.old.moves ≡ [] }
    requires fits { 2 * most_moves heap.old.segs.grains ≤ trail.old.spare }
    ensures right { IsAnswered heap.old call.Collect trail.new.moves result heap.new }
    ensures room { KeepsRoom trail.old trail.new }
{
    heap.collect(trail);
    Reply::Ok
}

fn park(heap: &mut Heap<AnyFormat>, trail: &mut Trail) -> Reply
    requires empty { trail.old.moves ≡ [] }
    requires fits { most_moves heap.old.segs.grains ≤ trail.old.spare }
    ensures right { IsAnswered heap.old call.Park trail.new.moves result heap.new }
    ensures room { KeepsRoom trail.old trail.new }
{
    heap.park(trail);
    Reply::Ok
}

/// Has a collection in progress do units, which nobody counts.
fn step(heap: &mut Heap<AnyFormat>, trail: &mut Trail, units: u64) -> Reply
    requires empty { trail.old.moves ≡ [] }
    requires fits { most_moves heap.old.segs.grains ≤ trail.old.spare }
    ensures right { IsAnswered heap.old (call.Step units) trail.new.moves result heap.new }
    ensures room { KeepsRoom trail.old trail.new }
{
    counted_step::<Brand>(heap, trail, units, Blank::new(1))
}

/// The same, where they are counted in a new ledger.
fn counted_step<L: Ledger>(
    heap: &mut Heap<AnyFormat>,
    trail: &mut Trail,
    units: u64,
    blank: Blank,
) -> Reply
    requires name { blank.name ≡ L.name }
    requires parts { blank.parts ≡ L.parts }
    requires nonzero { 0 < blank.parts }
    requires empty { trail.old.moves ≡ [] }
    requires fits { most_moves heap.old.segs.grains ≤ trail.old.spare }
    ensures right { IsAnswered heap.old (call.Step units) trail.new.moves result heap.new }
    ensures room { KeepsRoom trail.old trail.new }
{
    let mut steps = Steps::<L>::new(blank);
    progress(heap.step(trail, units, &mut steps))
}

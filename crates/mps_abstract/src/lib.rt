//! The abstract collector: what a collection in progress keeps, over the worlds of `mps_model` and the colours of objects,
//! with no word, bit or forwarding in it. Each function is a theorem: its contract is the statement.
#![tactic(auto)]

mod clients;
mod flips;
mod whole;

ghost use Rattle.mps_abstract.specs.DueLaws.{RunningIsLegal, WorkIsDue};
ghost use Rattle.mps_abstract.specs.Leaving.{UnitsLeaveTheRest, ABarrierLeavesTheRest};
ghost use Rattle.mps_abstract.specs.Staying.{AKeptObjectStays, AKeptObjectStaysAtABarrier};
ghost use Rattle.mps_abstract.specs.Laws.{ReachableIsKept, AUnitKeepsRunning, UnitsRunOut, ABarrierKeepsRunning};

pub use clients::clients_keep_running;
pub use flips::{a_flip_begins_running, a_flip_leaves_few_units, summaries_remember};
pub use whole::a_whole_collection_is_exact;

/// Once nothing but weak objects is grey, whatever is reachable from the client, or from what the collection is known to
/// keep, is live and isn't white. So what is white then is garbage.
pub fn reachable_is_kept()
    ensures { ReachableIsKept }
{}

/// A unit of a collection keeps its invariant, its moves are legal and one unit's, and fewer units are left. In the last one
/// the collection ends, and then all that is referred to is live.
pub fn a_unit_keeps_running()
    ensures { AUnitKeepsRunning }
{}

/// A sequence of units is one of the model's, and a collection takes at most as many as were left.
pub fn units_run_out()
    ensures { UnitsRunOut }
{}

/// A read barrier keeps the invariant, and the client never reads a white object after it.
pub fn a_barrier_keeps_running()
    ensures { ABarrierKeepsRunning }
{}

/// The moves of units are those that are due of a `step`, of a poll and of a `park`, and the moves of a read barrier those of a
/// `get`.
pub fn work_is_due()
    ensures { WorkIsDue }
{}

/// If a collection runs, what the client holds is live and kept as a legal step asks, units are left, and `poke` answers
/// `block` rightly.
pub fn running_is_legal()
    ensures { RunningIsLegal }
{}

/// Over units, and to the end of a collection, an object that isn't white stays so, and where it lies.
pub fn a_kept_object_stays()
    ensures { AKeptObjectStays }
{}

/// Units change objects, registrations and messages, where objects lie, segments, tails and the collection, and nothing else of a
/// world.
pub fn units_leave_the_rest()
    ensures { UnitsLeaveTheRest }
{}

/// A read barrier changes nothing of a world but what units change. What isn't white stays so over it, and where it lies.
pub fn a_barrier_leaves_the_rest()
    ensures rest { ABarrierLeavesTheRest }
    ensures in_place { AKeptObjectStaysAtABarrier }
{}

//! The refinement relation between heap states and worlds of the model, and the proof that each call is a legal step.
//! Each function is a theorem: its contract is the statement.
#![tactic(auto)]

ghost use Rattle.mps_refinement.specs.Collect.Collecting.{ACollectIsRight};
ghost use Rattle.mps_refinement.specs.Following.{DueMovesFollow, FlipActsAreSame, FollowedWorldsStayRight, SplatsFollow};
ghost use Rattle.mps_refinement.specs.QuietCalls.{QuietCallsRunOn};
ghost use Rattle.mps_refinement.specs.UnitsLeft.{UnitsStayWithin};

/// What it does is the call `collect`: its step is legal in each world for which the heap stood, the heap stands for the world after it,
/// and its trail keeps its room.
pub fn a_collect_is_right<F>()
    ensures { ACollectIsRight F }
{}

/// While a collection runs, each call that makes no moves is a legal step. It preserves the invariant of the abstract collector, and leaves
/// no more units than there were.
pub fn quiet_calls_run_on()
    ensures { QuietCallsRunOn }
{}

/// Whatever calls came since the flip of a collection, the units that were asked of it and those that a heap has left of it are no more
/// than it may take.
pub fn units_stay_within<F>()
    ensures { UnitsStayWithin F }
{}

/// Moves of one collection that are legal from a world without its pairs of dependents are legal from the world, and lead where they lead
/// without pairs. Besides, the splats clear the cells of the dependents of their holders, and the pairs of objects that are freed end.
pub fn splats_follow()
    ensures { SplatsFollow }
{}

/// If such moves are due of a `step`, a `get`, a poll, a `park` or a full collection without pairs, they are due of it with them.
pub fn due_moves_follow()
    ensures { DueMovesFollow }
{}

/// The act of a flip is the same with pairs and without them.
pub fn flip_acts_are_same()
    ensures { FlipActsAreSame }
{}

/// What a legal step asks of the world after it stays true if cells of dependents are cleared and pairs end.
pub fn followed_worlds_stay_right()
    ensures { FollowedWorldsStayRight }
{}

//! What is true of every history: laws of the definitions of `mps_model`. Each function is a theorem: its
//! contract is the statement.
#![tactic(auto)]

ghost use Rattle.mps_laws.specs.OneHistory.{LogTellsOneHistory};
ghost use Rattle.mps_laws.specs.Held.{HeldObjectsAreLive, GetsReachLiveObjects};
ghost use Rattle.mps_laws.specs.Staying.{HeldBlocksStay, HeldThroughoutStays, AddressesStayRight};
ghost use Rattle.mps_laws.specs.Depending.{FreshDependenciesHold};
ghost use Rattle.mps_laws.specs.Replay.{StepReplaysToLiveBlocks, LogReplaysToLiveBlocks, LabelledLogReplays};
ghost use Rattle.mps_laws.specs.OnePlace.{BlocksAreInOnePlace};
ghost use Rattle.mps_laws.specs.FrameBlocks.{BlocksOfFramesStand};
ghost use Rattle.mps_laws.specs.Flipping.{StepFlipsOnceAtMost, FlipsAreNoMoreThanSteps};
ghost use Rattle.mps_laws.specs.WellFormed.{ReachedWorldsAreWellFormed, WorldsInStepsAreWellFormed, ArenaMadeAgainLeavesSegments};

/// Commands with their lines, their answers and the log determine the history: no two histories have one log.
pub fn a_log_tells_one_history()
    ensures { LogTellsOneHistory }
{}

/// The records of a legal step, replayed from the live blocks before it, give the live blocks after it; so the log of a legal
/// history replays, without a bad record, to exactly its live blocks. Both over any table of object formats.
pub fn a_log_replays_to_the_live_blocks()
    ensures step { StepReplaysToLiveBlocks }
    ensures log { LogReplaysToLiveBlocks }
{}

/// The log of version 2 of a legal history, in which names are interned and addresses labelled, replays without a bad record to exactly
/// the live blocks and as many interned names as there are labels. So each name is interned by the number of those before it, and
/// each labelled address is that of a live block.
pub fn a_labelled_log_replays()
    ensures { LabelledLogReplays }
{}

/// What a client holds is live, after each step: whatever stands in a slot, a hold of an area word, a message, a live
/// reservation, a table of blocks or a cache; and if no collection runs, whatever a live object refers to or a pair of a transform names.
pub fn held_objects_are_live()
    ensures { HeldObjectsAreLive }
{}

/// A `get` never reaches a freed block: if it is accepted the object that it reads is live, and its target slot is then
/// null or refers to a live object, the one in the cell.
pub fn gets_reach_live_objects()
    ensures { GetsReachLiveObjects }
{}

/// What stands in a slot, a hold of an area word, a message or a live reservation at the end of a step stays where it is, for as
/// long as it lives, up to the next step that has a flip: also while a collection runs, and if the client drops it meanwhile.
/// What it holds at both ends lives, so it lies where it lay.
pub fn held_blocks_stay()
    ensures while_live { HeldBlocksStay }
    ensures held { HeldThroughoutStays }
{}

/// The address that `addr` answers stays right up to the next step that has a flip: the object lies there for as long as it
/// lives.
pub fn addresses_stay_right()
    ensures { AddressesStayRight }
{}

/// If `ldstale` answers `no`, each block on which the dependency depends lies at the address where it was when it was added,
/// unless it is live no more.
pub fn fresh_dependencies_hold()
    ensures { FreshDependenciesHold }
{}

/// No manual block is in two of the places of tables of blocks and of caches, nor twice in one of them. So what is freed, kept in a
/// cache or taken from it is shown by no other place.
pub fn a_block_is_in_one_place()
    ensures { BlocksAreInOnePlace }
{}

/// A block that stands in the frames of a pool is live, and in exactly one place of a table of blocks. So a pop frees live blocks alone,
/// and empties one place for each.
pub fn blocks_of_frames_stand()
    ensures { BlocksOfFramesStand }
{}

/// A legal step flips at most once, whatever its call is; so a legal history has no more flips than steps.
pub fn a_step_flips_once_at_most()
    ensures step { StepFlipsOnceAtMost }
    ensures history { FlipsAreNoMoreThanSteps }
{}

/// Each world that a legal history reaches is well-formed, if no command but the first makes an arena, as in any script:
/// objects have the cells of their formats, whatever lies in the arena lies apart in held segments of its pool, and what the
/// client holds is of the right kind. So is each world that legal moves of a collector lead to from there, in the middle of a
/// step, if what the client holds is live in it and the arena counts as unclamped. The premise is needed: in a legal history that
/// makes the arena again, a segment lies outside the arena that it leaves.
pub fn reached_worlds_are_well_formed()
    ensures well_formed { ReachedWorldsAreWellFormed }
    ensures in_steps { WorldsInStepsAreWellFormed }
    ensures premise { ArenaMadeAgainLeavesSegments }
{}

//! What a call of the client changes of a world, as data: one case for each way. The function is a theorem: its contract is
//! the statement.
#![tactic(auto)]

ghost use Rattle.mps_changes.specs.Change.{EachCallChanges};

/// Each call that is accepted changes the world in one of these ways, and its checks found what stands with it.
pub fn each_call_changes()
    ensures { EachCallChanges }
{}

// A running collection, once a registration is gone.
#![tactic(auto)]

ghost use Rattle.std.specs.Prelude.{◌≡◌};
ghost use Rattle.mps_heap_spec.specs.Finalizing.{running_without};
ghost use Rattle.mps_model.specs.Collecting.{without_position};

use mps_trace::Running;

/// How far a running collection is once the registration at a position was taken away.
pub fn running_without(position: usize, running: Running) -> Running
    ensures { result ≡ running_without position running }
{
    Running {
        next: without_position(running.next, position),
        registered_before: without_position(running.registered_before, position),
        ..running
    }
}

/// How many are left of the first `count` registrations once the one at a position was taken away.
fn without_position(count: usize, position: usize) -> usize
    ensures { result ≡ without_position count position }
{
    if position < count { count - 1 } else { count }
}

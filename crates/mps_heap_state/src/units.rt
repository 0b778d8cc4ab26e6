// How a collection begins, and units of the one that runs, as calls have it do some.
ghost use Rattle.std.specs.Prelude.{◌≡◌};
ghost use Rattle.mps_buffer.specs.Points.{WereMadeBefore};
ghost use Rattle.mps_heap_spec.specs.Collecting.{CanStart, IsStarted};
ghost use Rattle.mps_heap_spec.specs.Following.{Follows};
ghost use Rattle.mps_heap_spec.specs.Units.{CanDoUnits, HasDoneUnits, IsWhole, units_to_end};

use crate::State;
use crate::following::follow;
use mps_base::Trail;
use mps_format::Format;
use mps_heap_spec::ArenaState;
use mps_trace::{Condemn, most_units};

/// Does nothing: a caller knows that its tables of marks have their sizes, that each pool has a tail, that registrations and chains are
/// few, and that no reservation remembers a flip that is still to come.
pub fn is_whole<F: Format>(state: &State<F>)
    ensures whole { IsWhole state.now }
    ensures made_before { WereMadeBefore state.now.points.flips state.now.points }
{
    state.segs.tables_are_whole();
    state.pools.tails_are_listed();
    state.pools.chains().are_sound();
    state.finals.registrations_are_few();
    state.points.reservations_are_past();
}

/// Begins a collection of what is to be condemned: the flip alone, and no unit. The arena is unclamped then, and no transform has a pair.
pub fn begin<F: Format>(state: &mut State<F>, trail: &mut Trail, what: Condemn)
    requires { CanStart F.layout what state.old trail.old }
    ensures { IsStarted F.layout what state.old trail.old state.new trail.new }
{
    state.running = state.pools.begin(
        &mut state.segs,
        trail,
        &mut state.roots,
        &mut state.points,
        &mut state.finals,
        &mut state.epochs,
        what,
    );
    state.arena = ArenaState::Unclamped;
    state.beside.transforms.empty_all();
}

/// Does n units of the collection that runs, or fewer if it ends in them, and follows their moves.
pub fn do_units<F: Format>(state: &mut State<F>, trail: &mut Trail, n: u64)
    requires { CanDoUnits F.layout state.old trail.old n }
    ensures { Follows F.layout trail.old (HasDoneUnits F.layout state.old trail.old n) state.new trail.new }
{
    let Some(running) = state.running else {
        return;
    };
    let first = trail.moves().len();
    state.running = state
        .pools
        .finish(&mut state.segs, trail, &mut state.finals, running, n);
    follow(state, trail, first);
}

/// Ends the collection that runs: does the most units that it can have, and follows their moves.
pub fn end_collection<F: Format>(state: &mut State<F>, trail: &mut Trail)
    requires { CanDoUnits F.layout state.old trail.old (units_to_end state.old) }
    ensures { Follows F.layout trail.old (HasDoneUnits F.layout state.old trail.old (units_to_end state.old)) state.new trail.new }
{
    state.finals.registrations_are_few();
    let most = most_units(state.segs.grains(), state.finals.registered() as u32);
    do_units(state, trail, most);
}

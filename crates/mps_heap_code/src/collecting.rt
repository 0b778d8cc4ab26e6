// A full collection, and one that is begun alone.
ghost use Rattle.std.specs.Prelude.{◌≡◌, ◌+◌, ◌*◌, ◌^◌, ◌<◌, ◌≤◌, min, IsTrue, IfOk};
ghost use Rattle.mps_base.specs.Run.{total};
ghost use Rattle.mps_seg.specs.Segs.{held_runs};
ghost use Rattle.mps_heap_spec.specs.Collecting.{can_collect, check_start, check_start_chain, CanCollectAll, CanStart, IsCollected, Starts};
ghost use Rattle.mps_heap_spec.specs.Following.{Follows};
ghost use Rattle.mps_trace.specs.Collect.{most_moves};

use mps_base::{Name, Refusal, Trail};
use mps_format::Format;
use mps_heap_spec::ArenaState;
use mps_heap_state::State;
use mps_heap_state::following::follow;
use mps_heap_state::units::begin;
use mps_trace::{Condemn, most_units};

/// The most flips that a heap counts.
const MAX_FLIPS: u64 = 1 << 63;

/// Whether everything can be collected: one flip more can be counted.
pub fn can_collect<F: Format>(state: &State<F>) -> bool
    ensures { result ≡ can_collect state.now }
{
    state.points.flips() < MAX_FLIPS
}

/// How many moves a full collection makes at most: the room that its trail needs.
pub fn most_moves<F: Format>(state: &State<F>) -> u32
    ensures value { result ≡ most_moves state.now.segs.grains }
    ensures at_most { result ≤ 2 ^ 21 }
{
    mps_trace::most_moves(state.segs.grains())
}

/// How many moves a collection of what there is needs room for: three for each word of a live block, two for each grain that is held, and
/// six, but no more than `most_moves`.
pub fn moves_needed<F: Format>(state: &State<F>) -> u32
    ensures value { result ≡ min (3 * total state.now.segs.blocks + 2 * total (held_runs state.now.segs) + 6)
        (most_moves state.now.segs.grains) }
    ensures at_most { result ≤ 2 ^ 21 }
{
    let most = most_moves(state);
    let words = state.segs.live_words() as u64;
    if words >= u64::from(most) {
        return most;
    }
    let needed = 3 * words + 2 * u64::from(state.segs.committed()) + 6;
    if needed >= u64::from(most) {
        return most;
    }
    needed as u32
}

/// Collects everything, from the flip to the end, parks the arena, takes all pairs from its transforms, and follows the moves.
pub fn collect<F: Format>(state: &mut State<F>, trail: &mut Trail)
    requires built { IsTrue (can_collect state.old) }
    requires few_epochs { state.old.epochs.count < 2 ^ 63 }
    requires can { CanCollectAll F.layout state.old trail.old }
    ensures collected { Follows F.layout trail.old (IsCollected F.layout state.old trail.old) state.new trail.new }
{
    state.finals.registrations_are_few();
    let most = most_units(state.segs.grains(), state.finals.registered() as u32);
    let first = trail.moves().len();
    state.pools.collect(
        &mut state.segs,
        trail,
        &mut state.roots,
        &mut state.points,
        &mut state.finals,
        &mut state.epochs,
        most,
    );
    state.arena = ArenaState::Parked;
    state.beside.transforms.empty_all();
    follow(state, trail, first);
}

/// Begins a collection of everything: the flip alone, and no unit. The arena is unclamped then. Refuses `Running` if a collection runs.
pub fn start<F: Format>(state: &mut State<F>, trail: &mut Trail) -> Result<(), Refusal>
    requires can { IfOk (check_start state.old) (λ what. CanStart F.layout what state.old trail.old) }
    ensures { Starts F.layout (check_start state.old) state.old trail.old result state.new trail.new }
{
    let what = check_start(state)?;
    begin(state, trail, what);
    Ok(())
}

/// Begins a collection of the generations of a chain up to one: the flip alone, and no unit. The arena is unclamped then. Refuses
/// `BadName` if no chain has this name, `BadIndex` if it has no such generation, and `Running` if a collection runs.
pub fn start_chain<F: Format>(
    state: &mut State<F>,
    trail: &mut Trail,
    chain: Name,
    oldest: u64,
) -> Result<(), Refusal>
    requires can { IfOk (check_start_chain state.old chain oldest) (λ what. CanStart F.layout what state.old trail.old) }
    ensures { Starts F.layout (check_start_chain state.old chain oldest) state.old trail.old result state.new trail.new }
{
    let what = check_start_chain(state, chain, oldest)?;
    begin(state, trail, what);
    Ok(())
}

/// What a `start` of everything condemns, if it isn't refused.
fn check_start<F: Format>(state: &State<F>) -> Result<Condemn, Refusal>
    ensures { result ≡ check_start state.now }
{
    match state.running {
        None => Ok(Condemn::Everything),
        Some(_) => Err(Refusal::Running),
    }
}

/// What a `start` of the generations of a chain up to one condemns, if it isn't refused.
fn check_start_chain<F: Format>(
    state: &State<F>,
    chain: Name,
    oldest: u64,
) -> Result<Condemn, Refusal>
    ensures { result ≡ check_start_chain state.now chain oldest }
{
    let on = state.chain_named(chain)?;
    if u64::from(on.value) <= oldest {
        return Err(Refusal::BadIndex);
    }
    if state.running.is_some() {
        return Err(Refusal::Running);
    }
    Ok(Condemn::Generations {
        chain: on.key,
        oldest: oldest as u32,
    })
}

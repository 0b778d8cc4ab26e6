// A step of a collection, and the count of its units.
ghost use Rattle.std.specs.Prelude.{◌≡◌, ℕ, ◌+◌, ◌<◌, ◌≤◌, IfNone, IfSome, IsSome};
ghost use Rattle.mps_pools.specs.Pools.{trace_of};
ghost use Rattle.mps_trace.specs.Trace.{traced};
ghost use Rattle.mps_trace.specs.Unit.{AreUnitsReady, EndsWithin, UnitsTo};
ghost use Rattle.mps_heap_spec.specs.Units.{CanDoUnits, HasStepped, progress_of};
ghost use Rattle.mps_heap_code.specs.Ticks.{HasTicked};
ghost use Rattle.mps_heap_spec.specs.declared.arena.ArenaState.TheVariants as arena;

use mps_base::Trail;
use mps_final::Finals;
use mps_format::Format;
use mps_heap_spec::{ArenaState, Progress};
use mps_heap_state::State;
use mps_heap_state::following::follow;
use mps_pools::Pools;
use mps_seg::Segs;
use mps_trace::Running;
use std::marker::Model;
use std::sync::ledger::{Blank, Book, Ledger, Share};

/// How many units were done, in the ledger of whoever counts them. It takes no bytes and no time: proofs alone see the count.
#[derive(Drop)]
pub struct Steps<L: Ledger> {
    book: Book<L>,
    share: Share<L>,
}

impl<L: Ledger> Model for Steps<L> {
    ghost use Rattle.std.specs.Prelude.{ℕ, ◌<◌};

    ghost Value = { ℕ };

    ghost view = { λ s. s.book.total };

    ghost invariant = { λ s. 0 < s.share.parts };
}

impl<L: Ledger> Steps<L> {
    /// No unit yet, in a ledger of at least one part.
    pub fn new(blank: Blank) -> Steps<L>
        requires name { blank.name ≡ L.name }
        requires parts { blank.parts ≡ L.parts }
        requires nonzero { 0 < blank.parts }
        ensures { result ≡ 0 }
    {
        let (book, share) = blank.open();
        Steps { book, share }
    }

    /// One unit more.
    fn tick(&mut self)
        ensures { self.new ≡ self.old + 1 }
    {
        self.book.add(&mut self.share, 1);
    }
}

/// Does n units of a running collection, each of which ticks, or fewer if it ends in them: None then.
fn count_units<F: Format, L: Ledger>(
    pools: &mut Pools<F>,
    segs: &mut Segs,
    trail: &mut Trail,
    finals: &mut Finals,
    running: Running,
    n: u64,
    steps: &mut Steps<L>,
) -> Option<Running>
    requires { AreUnitsReady F.layout (trace_of pools.old.pools pools.old.chains pools.old.tails) segs.old trail.old finals.old running n }
    ensures goes_on { IfSome result (λ next. UnitsTo F.layout (trace_of pools.old.pools pools.old.chains pools.old.tails).formats
        (trace_of pools.old.pools pools.old.chains pools.old.tails).chains
        (traced (trace_of pools.old.pools pools.old.chains pools.old.tails) segs.old trail.old)
        finals.old running n (traced (trace_of pools.new.pools pools.new.chains pools.new.tails) segs.new trail.new) finals.new next) }
    ensures ended { IfNone result (EndsWithin F.layout (trace_of pools.old.pools pools.old.chains pools.old.tails).formats
        (trace_of pools.old.pools pools.old.chains pools.old.tails).chains
        (traced (trace_of pools.old.pools pools.old.chains pools.old.tails) segs.old trail.old)
        finals.old running n (traced (trace_of pools.new.pools pools.new.chains pools.new.tails) segs.new trail.new) finals.new) }
    ensures unchanged { pools.new ≡ record pools.old { tails = pools.new.tails } }
    ensures all { IsSome result → steps.new ≡ steps.old + n }
    ensures at_most { steps.new ≤ steps.old + n }
{
    let mut running = running;
    for _ in 0..n {
        steps.tick();
        match pools.unit(segs, trail, finals, running) {
            Some(next) => running = next,
            None => return None,
        }
    }
    Some(running)
}

/// Whether a collection is in progress.
fn progress<F: Format>(state: &State<F>) -> Progress
    ensures { result ≡ progress_of state.now }
{
    match state.running {
        Some(_) => Progress::More,
        None => Progress::Idle,
    }
}

/// Has an unclamped arena do n units of the collection that runs, or fewer if it ends in them, and says whether one is in progress then.
/// Each unit ticks. The moves that were made are followed.
pub fn step<F: Format, L: Ledger>(
    state: &mut State<F>,
    trail: &mut Trail,
    n: u64,
    steps: &mut Steps<L>,
) -> Progress
    requires { state.old.arena ≡ arena.Unclamped → CanDoUnits F.layout state.old trail.old n }
    ensures stepped { HasStepped F.layout state.old trail.old n state.new trail.new result }
    ensures ticked { HasTicked state.old n result steps.old steps.new }
{
    let ArenaState::Unclamped = state.arena else {
        return progress(state);
    };
    let Some(running) = state.running else {
        return Progress::Idle;
    };
    let first = trail.moves().len();
    state.running = count_units(
        &mut state.pools,
        &mut state.segs,
        trail,
        &mut state.finals,
        running,
        n,
        steps,
    );
    follow(state, trail, first);
    progress(state)
}

// How a heap follows the moves that its collector made.
ghost use Rattle.std.specs.Prelude.{◌≡◌, drop};
ghost use Rattle.mps_dep.specs.State.{dependent_of};
ghost use Rattle.mps_heap_spec.specs.Following.{is_passed_by, is_reclaim, move_followed, moves_followed, splat_followed};

use crate::State;
use mps_base::{Addr, Move, Trail};
use mps_format::Format;
use mps_trace::Band;

/// Follows the moves of a trail but for the first of them, as many as are given. Where a Splat cleared a reference of a holder, that of its
/// dependent becomes null, and a Free ends the pairs of its block. Without a pair there is nothing to do.
pub fn follow<F: Format>(state: &mut State<F>, trail: &Trail, first: usize)
    ensures { state.new ≡ moves_followed F.layout state.old (drop first trail.now.moves) }
{
    if state.beside.dependents.is_empty() {
        return;
    }
    for position in first..trail.moves().len() {
        follow_move(state, trail.moves()[position]);
    }
}

// Follows one move.
fn follow_move<F: Format>(state: &mut State<F>, made: Move)
    ensures { state.new ≡ move_followed F.layout state.old made }
{
    match made {
        Move::Splat { holder, cell } => follow_splat(state, holder, cell),
        Move::Free { at } => state.beside.dependents.forget(at),
        _ => {}
    }
}

// A reference of a holder was cleared: that of its dependent becomes null, if it has one that isn't passed by.
fn follow_splat<F: Format>(state: &mut State<F>, holder: Addr, cell: u32)
    ensures { state.new ≡ splat_followed F.layout state.old (dependent_of state.old.beside.dependents holder.0) cell }
{
    let Some(at) = state.beside.dependents.dependent(holder) else {
        return;
    };
    if is_passed_by(state, at) {
        return;
    }
    let Some(format) = state.format_over(at.0) else {
        return;
    };
    state
        .beside
        .dependents
        .follow(&mut state.segs, &format, Move::Splat { holder, cell });
}

// Whether a dependent is passed by: a collection that reclaims its condemned segments doesn't keep it.
fn is_passed_by<F: Format>(state: &State<F>, at: Addr) -> bool
    ensures { result ≡ is_passed_by state.now at.0 }
{
    match state.running {
        Some(running) => is_reclaim(running.band) && state.segs.is_white(at),
        None => false,
    }
}

fn is_reclaim(band: Band) -> bool
    ensures { result ≡ is_reclaim band }
{
    matches!(band, Band::Reclaim)
}

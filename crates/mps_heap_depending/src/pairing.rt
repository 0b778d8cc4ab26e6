// The calls that give an object a dependent, and take it away again.
ghost use Rattle.std.specs.Prelude.{◌≡◌, false};
ghost use Rattle.std.specs.Option.{option_map_or};
ghost use Rattle.mps_format.specs.Pools.{is_weak_pool};
ghost use Rattle.mps_seg.specs.Collecting.{rank_at};
ghost use Rattle.mps_heap_spec.specs.Coming.{Comes};
ghost use Rattle.mps_heap_spec.specs.Pairing.{dependent_linked, dependent_unlinked, is_weak_at, may_depend, with_pair_checked, without_dependent};
ghost use Rattle.mps_heap_spec.specs.State.{pool_over};

use mps_base::{Addr, Rank, Refusal, Slot};
use mps_format::{Format, is_weak};
use mps_heap_state::State;
use mps_seg::Segs;

/// The rank of the segment in which an address lies, `Exact` if it lies in none.
fn rank_over(segs: &Segs, at: u64) -> Rank
    ensures { result ≡ rank_at segs.now at }
{
    match segs.segment_of(Addr(at)) {
        Some(base) => segs.segment(base).rank,
        None => Rank::Exact,
    }
}

/// Whether the object at an address is weak.
fn is_weak_at<F: Format>(state: &State<F>, at: u64) -> bool
    ensures { result ≡ is_weak_at state.now at }
{
    match rank_over(&state.segs, at) {
        Rank::Weak => true,
        Rank::Exact => false,
    }
}

/// Whether an object lies in a pool that may hold weak ones.
fn is_in_weak_pool<F: Format>(state: &State<F>, at: u64) -> bool
    ensures { result ≡ option_map_or is_weak_pool (pool_over state.now at) false }
{
    match state.pool_over(at) {
        Some(pool) => is_weak(pool),
        None => false,
    }
}

/// Whether an object may be the dependent of another: that one is weak, and this one isn't, of a pool that may hold weak ones.
fn may_depend<F: Format>(state: &State<F>, holder: u64, dependent: u64) -> bool
    ensures { result ≡ may_depend state.now holder dependent }
{
    is_weak_at(state, holder) && is_in_weak_pool(state, dependent) && !is_weak_at(state, dependent)
}

/// A holder has this dependent, in place of an earlier one. Refuses `TooMany` if it has none and there are 1,024 pairs.
fn link<F: Format>(state: &mut State<F>, holder: u64, dependent: u64) -> Result<(), Refusal>
    ensures { Comes state.old (with_pair_checked state.old holder dependent) result state.new }
{
    state.beside.dependents.link(Addr(holder), Addr(dependent))
}

/// A holder has no dependent any more. Refuses `NotLinked` if it has none.
fn unlink<F: Format>(state: &mut State<F>, holder: u64) -> Result<(), Refusal>
    ensures { Comes state.old (without_dependent state.old holder) result state.new }
{
    let at = Addr(holder);
    if state.beside.dependents.dependent(at).is_none() {
        return Err(Refusal::NotLinked);
    }
    let _ = state.beside.dependents.unlink(at);
    Ok(())
}

/// The object in a slot, a weak one, has the one in another slot as its dependent, in place of an earlier one: where one of its references
/// becomes null in a collection, so does the reference of the same number in the dependent. Refuses what slots and objects do,
/// `WrongPool` if the holder isn't weak, or the dependent is weak or of a pool that can't hold weak objects, and `TooMany` if the holder
/// has none and there are 1,024 pairs.
pub fn depend<F: Format>(state: &mut State<F>, holder: Slot, dependent: Slot) -> Result<(), Refusal>
    ensures { Comes state.old (dependent_linked F.layout state.old holder dependent) result state.new }
{
    let from = state.slot_in(holder)?;
    let to = state.slot_in(dependent)?;
    let weak = state.object_at(from.value)?;
    let exact = state.object_at(to.value)?;
    if !may_depend(state, weak.at, exact.at) {
        return Err(Refusal::WrongPool);
    }
    link(state, weak.at, exact.at)
}

/// The object in a slot has no dependent any more. Refuses `NotLinked` if it has none.
pub fn undepend<F: Format>(state: &mut State<F>, holder: Slot) -> Result<(), Refusal>
    ensures { Comes state.old (dependent_unlinked F.layout state.old holder) result state.new }
{
    let weak = state.object_in(holder)?;
    unlink(state, weak.at)
}

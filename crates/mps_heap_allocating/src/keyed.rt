// The calls by which a client allocates objects at a point that was found by its key.
ghost use Rattle.std.specs.Prelude.{◌≡◌, ◌<◌, ◌≤◌, IfOk};
ghost use Rattle.mps_base.specs.Address.{max_block_words};
ghost use Rattle.mps_buffer.specs.Tokens.{IsClosedAt};
ghost use Rattle.mps_seg.specs.Table.{IsMarked};
ghost use Rattle.mps_heap_spec.specs.State.{IsReady};
ghost use Rattle.mps_heap_spec.specs.Coming.{Comes, ComesMoving};
ghost use Rattle.mps_heap_spec.specs.Keyed.{IsPointAt, IsTableAt};
ghost use Rattle.mps_heap_spec.specs.Polling.{CanPoll, HasReserved};
ghost use Rattle.mps_heap_spec.specs.Allocating.{after_commit, check_reserve, number_initialised, reference_initialised};

use crate::allocating::{
    block_held, check_point, has_work, keep_new, reserve_checked, reserve_with_work,
    set_reserved_reference, set_reserved_word,
};
use mps_base::{Name, Refusal, Trail};
use mps_format::Format;
use mps_heap_spec::{
    Committed, Kept, Located, Reserving, number_cell_at, reference_cell_at, reservation_of,
};
use mps_heap_state::State;

/// The point at which a block is to be reserved, and the size of the block.
#[inline(always)]
fn check_reserve<F: Format>(
    state: &State<F>,
    x: Kept<Name>,
    head: u64,
) -> Result<Reserving, Refusal>
    requires { IsPointAt state.now x }
    ensures value { result ≡ check_reserve F.layout state.now x.value head }
    ensures closed { IfOk result (λ r. IsClosedAt state.now.points r.point.key r.point.value) }
    ensures nonzero { IfOk result (λ r. 0 < r.words) }
    ensures at_most { IfOk result (λ r. r.words ≤ max_block_words) }
{
    let point = state.point_at(x)?;
    check_point(state, x.value, point, head)
}

/// Reserves a block with this head at a point. It polls first, if its checks pass, and is then judged anew.
#[inline(always)]
pub fn reserve<F: Format>(
    state: &mut State<F>,
    trail: &mut Trail,
    x: Kept<Name>,
    head: u64,
) -> Result<(), Refusal>
    requires there { IsPointAt state.old x }
    requires ready { IsReady state.old }
    requires fits { 0 < trail.old.spare }
    requires can { CanPoll F.layout state.old trail.old }
    ensures { HasReserved F.layout state.old trail.old x.value head result state.new trail.new }
{
    let r = check_reserve(state, x, head)?;
    if has_work(state) {
        return reserve_with_work(state, trail, x.value, head, r.point.key, r.words);
    }
    reserve_checked(state, trail, x.value, head, r.point.key, r.words)
}

/// Writes the number in cell `k` of the reservation of a point. Refuses `NotOpen` if it has none.
#[inline(always)]
pub fn init_num<F: Format>(
    state: &mut State<F>,
    x: Kept<Name>,
    k: u64,
    value: u64,
) -> Result<(), Refusal>
    requires { IsPointAt state.old x }
    ensures { Comes state.old (number_initialised F.layout state.old x.value k value) result state.new }
{
    let point = state.point_at(x)?;
    let held = reservation_of(point.value)?;
    let block = block_held(state, point.value, held)?;
    let cell = number_cell_at(&state.segs, &block, k)?;
    set_reserved_word(state, held, cell.word, value);
    Ok(())
}

/// Cell `k` of the reservation of a point refers to what a slot has.
#[inline(always)]
pub fn init_ref<F: Format>(
    state: &mut State<F>,
    x: Kept<Name>,
    k: u64,
    source: Located,
) -> Result<(), Refusal>
    requires point { IsPointAt state.old x }
    requires source { IsTableAt state.old source }
    ensures { Comes state.old (reference_initialised F.layout state.old x.value k source.slot) result state.new }
{
    let point = state.point_at(x)?;
    let from = state.slot_at(source)?;
    let held = reservation_of(point.value)?;
    let block = block_held(state, point.value, held)?;
    let cell = reference_cell_at(&state.segs, &block, k)?;
    set_reserved_reference(state, held, &block, cell, from.value);
    Ok(())
}

/// The reservation of a point becomes an object, to which a slot refers from now on; if a flip came since the reserve, it is given
/// up and the slot stays.
#[inline(always)]
pub fn commit<F: Format>(
    state: &mut State<F>,
    trail: &mut Trail,
    x: Kept<Name>,
    target: Located,
) -> Result<Committed, Refusal>
    requires point { IsPointAt state.old x }
    requires target { IsTableAt state.old target }
    requires ready { IsReady state.old }
    requires fits { 0 < trail.old.spare }
    ensures came { ComesMoving state.old trail.old (after_commit state.old trail.old x.value target.slot) result state.new trail.new }
    ensures tables { IsMarked state.old.segs.grains state.old.segs.marks state.old.segs.condemned state.old.segs.summaries }
{
    state.segs.tables_are_whole();
    let point = state.point_at(x)?;
    let slot = state.slot_at(target)?;
    let _held = reservation_of(point.value)?;
    match state.points.commit(&mut state.segs, trail, point.key) {
        Ok(at) => {
            state.segs.blocks_are_in_order();
            keep_new(state, at);
            state.set_slot(slot, at.0);
            Ok(Committed::AsBlock)
        }
        Err(_) => Ok(Committed::AsFlipped),
    }
}

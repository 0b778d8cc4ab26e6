// The calls on slots and objects.
ghost use Rattle.std.specs.Prelude.{◌≡◌, ◌<◌, Some, Ok, Err, OnOk, IfErr, MatchResult};
ghost use Rattle.mps_heap_spec.specs.Tagging.{tag_count};
ghost use Rattle.mps_heap_spec.specs.Coming.{Comes};
ghost use Rattle.mps_trace.specs.Trace.{Traced};
ghost use Rattle.mps_trace.specs.declared.running.Running.{Running};
ghost use Rattle.mps_heap_spec.specs.Getting.{CanGet, IsAccessed, IsGot, with_traced};
ghost use Rattle.mps_heap_spec.specs.Objects.{after_copy, after_clear, are_same, is_null, head_in, address_in, number_in, number_set, reference_got, reference_put, tag_got, tag_set};

use mps_base::{Addr, Refusal, Slot, Trail};
use mps_format::Format;
use mps_heap_spec::{
    number_cell_at, reference_cell_at, tag_of, with_tag, write_reference, write_word,
};
use mps_heap_state::State;
use mps_heap_state::following::follow;
use mps_heap_state::units::is_whole;
use mps_trace::Band;

/// A slot becomes another. Refuses `BadName` and `BadIndex` of the one, and then of the other.
pub fn copy<F: Format>(state: &mut State<F>, target: Slot, source: Slot) -> Result<(), Refusal>
    ensures { Comes state.old (after_copy state.old target source) result state.new }
{
    let into = state.slot_in(target)?;
    let from = state.slot_in(source)?;
    state.set_slot(into, from.value);
    Ok(())
}

/// A slot becomes null.
pub fn clear<F: Format>(state: &mut State<F>, slot: Slot) -> Result<(), Refusal>
    ensures { Comes state.old (after_clear state.old slot) result state.new }
{
    let into = state.slot_in(slot)?;
    state.set_slot(into, 0);
    Ok(())
}

/// Whether two slots hold the same.
#[inline(always)]
pub fn same<F: Format>(state: &State<F>, slot: Slot, other: Slot) -> Result<bool, Refusal>
    ensures { result ≡ are_same state.now slot other }
{
    let one = state.slot_in(slot)?;
    let two = state.slot_in(other)?;
    Ok(one.value == two.value)
}

/// Whether a slot is null.
#[inline(always)]
pub fn is_null<F: Format>(state: &State<F>, slot: Slot) -> Result<bool, Refusal>
    ensures { result ≡ is_null state.now slot }
{
    let from = state.slot_in(slot)?;
    Ok(from.value == 0)
}

/// The head of the object in a slot. Refuses `NullRef` if the slot is null.
#[inline(always)]
pub fn head<F: Format>(state: &State<F>, slot: Slot) -> Result<u64, Refusal>
    ensures { result ≡ head_in F.layout state.now slot }
{
    let object = state.object_in(slot)?;
    Ok(object.head)
}

/// The address of the object in a slot.
#[inline(always)]
pub fn addr<F: Format>(state: &State<F>, slot: Slot) -> Result<u64, Refusal>
    ensures { result ≡ address_in F.layout state.now slot }
{
    let object = state.object_in(slot)?;
    Ok(object.at)
}

/// An address, as a type of its own.
pub fn as_address(at: Result<u64, Refusal>) -> Result<Addr, Refusal>
    ensures same { MatchResult result (λ address. at ≡ Ok address.0) (λ why. at ≡ Err why) }
{
    Ok(Addr(at?))
}

/// The number in cell `k` of the object in a slot. Refuses `BadIndex` past the last cell, and `NotANumber` if the cell is a
/// reference or the head.
#[inline(always)]
pub fn num<F: Format>(state: &State<F>, slot: Slot, k: u64) -> Result<u64, Refusal>
    ensures { result ≡ number_in F.layout state.now slot k }
{
    let object = state.object_in(slot)?;
    let cell = number_cell_at(&state.segs, &object, k)?;
    Ok(cell.value)
}

/// Writes the number in cell `k` of the object in a slot.
pub fn set_num<F: Format>(
    state: &mut State<F>,
    slot: Slot,
    k: u64,
    value: u64,
) -> Result<(), Refusal>
    ensures { Comes state.old (number_set F.layout state.old slot k value) result state.new }
{
    let object = state.object_in(slot)?;
    let cell = number_cell_at(&state.segs, &object, k)?;
    write_word(&mut state.segs, cell.word, value);
    Ok(())
}

/// A slot becomes what cell `k` of an object refers to.
#[inline(always)]
fn read_reference<F: Format>(
    state: &mut State<F>,
    target: Slot,
    source: Slot,
    k: u64,
) -> Result<(), Refusal>
    ensures { Comes state.old (reference_got F.layout state.old target source k) result state.new }
{
    let into = state.slot_in(target)?;
    let object = state.object_in(source)?;
    let cell = reference_cell_at(&state.segs, &object, k)?;
    let at = object.format.target(cell.value);
    state.set_slot(into, at.0);
    Ok(())
}

/// What `get` does first while a collection runs: if it isn't refused, the read barrier for its object.
fn access<F: Format>(
    state: &mut State<F>,
    trail: &mut Trail,
    band: Band,
    target: Slot,
    source: Slot,
    k: u64,
) -> Result<(), Refusal>
    requires runs { (run : Running) × (state.old.running ≡ Some run) × (run.band ≡ band) }
    requires can { CanGet F.layout state.old trail.old target source k }
    ensures accessed { OnOk result ((x : Traced) × IsAccessed F.layout state.old trail.old target source k x
        × (state.new ≡ with_traced state.old x) × (trail.new ≡ x.moves)) }
    ensures refused { IfErr result (λ why. (reference_got F.layout state.old target source k ≡ Err why) × (state.new ≡ state.old)
        × (trail.new ≡ trail.old)) }
{
    let _into = state.slot_in(target)?;
    let object = state.object_in(source)?;
    let _cell = reference_cell_at(&state.segs, &object, k)?;
    is_whole(state);
    state
        .pools
        .access(&mut state.segs, trail, band, Addr(object.at));
    Ok(())
}

/// `get` while a collection runs: the moves of its barrier are followed before the cell is read.
#[inline(never)]
fn get_after_barrier<F: Format>(
    state: &mut State<F>,
    trail: &mut Trail,
    band: Band,
    target: Slot,
    source: Slot,
    k: u64,
) -> Result<(), Refusal>
    requires runs { (run : Running) × (state.old.running ≡ Some run) × (run.band ≡ band) }
    requires can { CanGet F.layout state.old trail.old target source k }
    ensures { IsGot F.layout state.old trail.old target source k result state.new trail.new }
{
    let first = trail.moves().len();
    match access(state, trail, band, target, source, k) {
        Ok(()) => {
            follow(state, trail, first);
            read_reference(state, target, source, k)
        }
        Err(why) => Err(why),
    }
}

/// A slot becomes what cell `k` of an object refers to, after the read barrier for the object, if a collection runs. Refuses `NotARef`
/// if the cell is no reference.
pub fn get<F: Format>(
    state: &mut State<F>,
    trail: &mut Trail,
    target: Slot,
    source: Slot,
    k: u64,
) -> Result<(), Refusal>
    requires { CanGet F.layout state.old trail.old target source k }
    ensures outcome { IsGot F.layout state.old trail.old target source k result state.new trail.new }
{
    match state.running {
        None => read_reference(state, target, source, k),
        Some(running) => get_after_barrier(state, trail, running.band, target, source, k),
    }
}

/// Cell `k` of the object in a slot refers to what another slot has, and keeps its tag. The summary of the object's segment gains the zone
/// of that, if it isn't null.
pub fn put<F: Format>(
    state: &mut State<F>,
    target: Slot,
    k: u64,
    source: Slot,
) -> Result<(), Refusal>
    ensures outcome { Comes state.old (reference_put F.layout state.old target k source) result state.new }
{
    let into = state.slot_in(target)?;
    let from = state.slot_in(source)?;
    let object = state.object_at(into.value)?;
    let cell = reference_cell_at(&state.segs, &object, k)?;
    write_reference(&mut state.segs, &object, cell, from.value);
    Ok(())
}

/// The tag of the reference in cell `k` of the object in a slot.
#[inline(always)]
pub fn tag<F: Format>(state: &State<F>, slot: Slot, k: u64) -> Result<u8, Refusal>
    ensures { result ≡ tag_got F.layout state.now slot k }
{
    let object = state.object_in(slot)?;
    let cell = reference_cell_at(&state.segs, &object, k)?;
    Ok(tag_of(cell.value))
}

/// The reference in cell `k` of the object in a slot has another tag, and refers to what it did.
pub fn set_tag<F: Format>(state: &mut State<F>, slot: Slot, k: u64, tag: u8) -> Result<(), Refusal>
    requires fits { tag < tag_count }
    ensures outcome { Comes state.old (tag_set F.layout state.old slot k tag) result state.new }
{
    let object = state.object_in(slot)?;
    let cell = reference_cell_at(&state.segs, &object, k)?;
    let word = with_tag(&object.format, cell.value, tag);
    write_word(&mut state.segs, cell.word, word);
    Ok(())
}

// The calls on slots, objects and words of areas that were found by keys.
ghost use Rattle.std.specs.Prelude.{◌≡◌};
ghost use Rattle.mps_heap_spec.specs.Areas.{after_poke, answer_of_peek};
ghost use Rattle.mps_heap_spec.specs.Coming.{Comes};
ghost use Rattle.mps_heap_spec.specs.Getting.{CanGet, IsGot};
ghost use Rattle.mps_heap_spec.specs.Keyed.{IsAreaAt, IsTableAt};
ghost use Rattle.mps_heap_spec.specs.Objects.{after_clear, after_copy, are_same, address_in, head_in, is_null, number_in, number_set, reference_got, reference_put};

use crate::areas::{is_hold, set_area_word};
use crate::objects;
use mps_base::{Refusal, Trail};
use mps_format::Format;
use mps_heap_spec::{
    Located, block_over, number_cell_at, reference_cell_at, write_reference, write_word,
};
use mps_heap_state::State;
use mps_root::Stored;

/// A slot becomes another. Refuses `BadIndex` of the one, and then of the other.
#[inline(always)]
pub fn copy<F: Format>(
    state: &mut State<F>,
    target: Located,
    source: Located,
) -> Result<(), Refusal>
    requires target { IsTableAt state.old target }
    requires source { IsTableAt state.old source }
    ensures { Comes state.old (after_copy state.old target.slot source.slot) result state.new }
{
    let into = state.slot_at(target)?;
    let from = state.slot_at(source)?;
    state.set_slot(into, from.value);
    Ok(())
}

/// A slot becomes null.
#[inline(always)]
pub fn clear<F: Format>(state: &mut State<F>, slot: Located) -> Result<(), Refusal>
    requires { IsTableAt state.old slot }
    ensures { Comes state.old (after_clear state.old slot.slot) result state.new }
{
    let into = state.slot_at(slot)?;
    state.set_slot(into, 0);
    Ok(())
}

/// Whether two slots hold the same.
#[inline(always)]
pub fn same<F: Format>(state: &State<F>, slot: Located, other: Located) -> Result<bool, Refusal>
    requires slot { IsTableAt state.now slot }
    requires other { IsTableAt state.now other }
    ensures { result ≡ are_same state.now slot.slot other.slot }
{
    let one = state.slot_at(slot)?;
    let two = state.slot_at(other)?;
    Ok(one.value == two.value)
}

/// Whether a slot is null.
#[inline(always)]
pub fn is_null<F: Format>(state: &State<F>, slot: Located) -> Result<bool, Refusal>
    requires { IsTableAt state.now slot }
    ensures { result ≡ is_null state.now slot.slot }
{
    let from = state.slot_at(slot)?;
    Ok(from.value == 0)
}

/// The head of the object in a slot.
#[inline(always)]
pub fn head<F: Format>(state: &State<F>, slot: Located) -> Result<u64, Refusal>
    requires { IsTableAt state.now slot }
    ensures { result ≡ head_in F.layout state.now slot.slot }
{
    let object = state.object_by(slot)?;
    Ok(object.head)
}

/// The address of the object in a slot.
#[inline(always)]
pub fn addr<F: Format>(state: &State<F>, slot: Located) -> Result<u64, Refusal>
    requires { IsTableAt state.now slot }
    ensures { result ≡ address_in F.layout state.now slot.slot }
{
    let object = state.object_by(slot)?;
    Ok(object.at)
}

/// The number in cell `k` of the object in a slot.
#[inline(always)]
pub fn num<F: Format>(state: &State<F>, slot: Located, k: u64) -> Result<u64, Refusal>
    requires { IsTableAt state.now slot }
    ensures { result ≡ number_in F.layout state.now slot.slot k }
{
    let object = state.object_by(slot)?;
    let cell = number_cell_at(&state.segs, &object, k)?;
    Ok(cell.value)
}

/// Writes the number in cell `k` of the object in a slot.
#[inline(always)]
pub fn set_num<F: Format>(
    state: &mut State<F>,
    slot: Located,
    k: u64,
    value: u64,
) -> Result<(), Refusal>
    requires { IsTableAt state.old slot }
    ensures { Comes state.old (number_set F.layout state.old slot.slot k value) result state.new }
{
    let object = state.object_by(slot)?;
    let cell = number_cell_at(&state.segs, &object, k)?;
    write_word(&mut state.segs, cell.word, value);
    Ok(())
}

/// A slot becomes what cell `k` of an object refers to.
#[inline(always)]
fn read_reference<F: Format>(
    state: &mut State<F>,
    target: Located,
    source: Located,
    k: u64,
) -> Result<(), Refusal>
    requires target { IsTableAt state.old target }
    requires source { IsTableAt state.old source }
    ensures { Comes state.old (reference_got F.layout state.old target.slot source.slot k) result state.new }
{
    let into = state.slot_at(target)?;
    let object = state.object_by(source)?;
    let cell = reference_cell_at(&state.segs, &object, k)?;
    let at = object.format.target(cell.value);
    state.set_slot(into, at.0);
    Ok(())
}

/// A slot becomes what cell `k` of an object refers to, after the read barrier for the object, if a collection runs.
#[inline(always)]
pub fn get<F: Format>(
    state: &mut State<F>,
    trail: &mut Trail,
    target: Located,
    source: Located,
    k: u64,
) -> Result<(), Refusal>
    requires target { IsTableAt state.old target }
    requires source { IsTableAt state.old source }
    requires can { CanGet F.layout state.old trail.old target.slot source.slot k }
    ensures outcome { IsGot F.layout state.old trail.old target.slot source.slot k result state.new trail.new }
{
    match state.running {
        None => read_reference(state, target, source, k),
        Some(_) => objects::get(state, trail, target.slot, source.slot, k),
    }
}

/// Cell `k` of the object in a slot refers to what another slot has, and keeps its tag.
#[inline(always)]
pub fn put<F: Format>(
    state: &mut State<F>,
    target: Located,
    k: u64,
    source: Located,
) -> Result<(), Refusal>
    requires target { IsTableAt state.old target }
    requires source { IsTableAt state.old source }
    ensures { Comes state.old (reference_put F.layout state.old target.slot k source.slot) result state.new }
{
    let into = state.slot_at(target)?;
    let from = state.slot_at(source)?;
    let object = state.object_at(into.value)?;
    let cell = reference_cell_at(&state.segs, &object, k)?;
    write_reference(&mut state.segs, &object, cell, from.value);
    Ok(())
}

/// Stores a word in an area, and answers whether it holds an object from now on.
#[inline(always)]
pub fn poke<F: Format>(state: &mut State<F>, place: Located, word: u64) -> Result<bool, Refusal>
    requires { IsAreaAt state.old place }
    ensures { Comes state.old (after_poke state.old place.slot word) result state.new }
{
    let at = state.word_at(place)?;
    let block = block_over(&state.segs, word);
    let holds = is_hold(state, word, block);
    set_area_word(state, at, Stored { word, holds });
    Ok(holds)
}

/// The word at a place of an area.
#[inline(always)]
pub fn peek<F: Format>(state: &State<F>, place: Located) -> Result<u64, Refusal>
    requires { IsAreaAt state.now place }
    ensures { result ≡ answer_of_peek state.now place.slot }
{
    let at = state.word_at(place)?;
    Ok(at.value.word)
}

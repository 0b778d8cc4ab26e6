// The calls on areas.
ghost use Rattle.std.specs.Prelude.{◌≡◌};
ghost use Rattle.mps_root.specs.State.{HasItem};
ghost use Rattle.mps_heap_spec.specs.Coming.{Comes};
ghost use Rattle.mps_heap_spec.specs.Areas.{block_over, lies_in_object, is_of_pool, is_hold, with_area_word, after_poke, answer_of_peek, held_by, after_take, after_pin};

use mps_base::{Addr, Refusal, Slot};
use mps_format::Format;
use mps_heap_spec::{Entry, block_over, is_of_pool};
use mps_heap_state::State;
use mps_root::Stored;

/// Writes a word of an area that was found.
pub(crate) fn set_area_word<F: Format>(state: &mut State<F>, at: Entry<Stored>, word: Stored)
    requires { HasItem state.old.roots.areas at.key at.index }
    ensures { state.new ≡ with_area_word state.old at word }
{
    state.roots.set_word(at.key, at.index, word);
}

/// Whether a word lies in an object, that of the block over it.
fn lies_in_object<F: Format>(state: &State<F>, word: u64, block: Option<u64>) -> bool
    ensures { result ≡ lies_in_object state.now word block }
{
    let Some(at) = block else {
        return false;
    };
    is_of_pool(word, at, state.pool_over(at))
}

/// Whether a word holds an object from now on: one in which it lies, and which isn't white.
pub(crate) fn is_hold<F: Format>(state: &State<F>, word: u64, block: Option<u64>) -> bool
    ensures { result ≡ is_hold state.now word block }
{
    let Some(at) = block else {
        return false;
    };
    lies_in_object(state, word, block) && !state.segs.is_white(Addr(at))
}

/// Stores a word in an area, and answers whether it holds an object from now on.
pub fn poke<F: Format>(state: &mut State<F>, place: Slot, word: u64) -> Result<bool, Refusal>
    ensures { Comes state.old (after_poke state.old place word) result state.new }
{
    let at = state.word_in(place)?;
    let block = block_over(&state.segs, word);
    let holds = is_hold(state, word, block);
    set_area_word(state, at, Stored { word, holds });
    Ok(holds)
}

/// The word at a place of an area.
pub fn peek<F: Format>(state: &State<F>, place: Slot) -> Result<u64, Refusal>
    ensures { result ≡ answer_of_peek state.now place }
{
    let at = state.word_in(place)?;
    Ok(at.value.word)
}

/// Stores the address of the object in a slot in an area, where it holds the object from now on.
pub fn pin<F: Format>(state: &mut State<F>, place: Slot, slot: Slot) -> Result<(), Refusal>
    ensures { Comes state.old (after_pin F.layout state.old place slot) result state.new }
{
    let at = state.word_in(place)?;
    let object = state.object_in(slot)?;
    let word = object.at;
    let holds = true;
    set_area_word(state, at, Stored { word, holds });
    Ok(())
}

/// The object that a word holds.
fn held_by<F: Format>(state: &State<F>, word: Stored) -> Result<u64, Refusal>
    ensures { result ≡ held_by state.now word }
{
    if !word.holds {
        return Err(Refusal::NotARef);
    }
    block_over(&state.segs, word.word).ok_or(Refusal::NotARef)
}

/// A slot becomes the object that a word of an area holds. Refuses `NotARef` if it holds none.
pub fn take<F: Format>(state: &mut State<F>, slot: Slot, place: Slot) -> Result<(), Refusal>
    ensures { Comes state.old (after_take state.old slot place) result state.new }
{
    let into = state.slot_in(slot)?;
    let at = state.word_in(place)?;
    let object = held_by(state, at.value)?;
    state.set_slot(into, object);
    Ok(())
}

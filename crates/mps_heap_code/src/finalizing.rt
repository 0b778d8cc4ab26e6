// The calls on registrations and messages.
ghost use Rattle.mps_heap_spec.specs.Coming.{Comes};
ghost use Rattle.mps_heap_spec.specs.Finalizing.{message_taken, after_finalize, CanUnregister, IsUnregistered};

use mps_base::{Addr, Refusal, Slot};
use mps_format::Format;
use mps_heap_spec::running_without;
use mps_heap_state::State;

/// Registers the object in a slot once more. Refuses `TooMany` if there are 65,536 registrations and messages.
pub fn finalize<F: Format>(state: &mut State<F>, slot: Slot) -> Result<(), Refusal>
    ensures { Comes state.old (after_finalize F.layout state.old slot) result state.new }
{
    let object = state.object_in(slot)?;
    state.finals.register(Addr(object.at))
}

/// Takes away the first registration of the object in a slot, and from the registrations that a running collection counts. Refuses
/// `NotRegistered` if it has none.
pub fn definalize<F: Format>(state: &mut State<F>, slot: Slot) -> Result<(), Refusal>
    requires { CanUnregister F.layout state.old }
    ensures { IsUnregistered F.layout state.old slot result state.new }
{
    let object = state.object_in(slot)?;
    let at = Addr(object.at);
    let Some(running) = state.running else {
        return state.finals.unregister(at);
    };
    let Some(position) = state
        .pools
        .registration_of(&state.segs, &mut state.finals, at)
    else {
        return Err(Refusal::NotRegistered);
    };
    state.finals.remove(position);
    state.running = Some(running_without(position, running));
    Ok(())
}

/// A slot becomes the object of the first message, which is taken; false if none waits, and then the slot stays.
pub fn message<F: Format>(state: &mut State<F>, slot: Slot) -> Result<bool, Refusal>
    ensures { Comes state.old (message_taken state.old slot) result state.new }
{
    let into = state.slot_in(slot)?;
    let Some(at) = state.finals.take() else {
        return Ok(false);
    };
    state.set_slot(into, at.0);
    Ok(true)
}

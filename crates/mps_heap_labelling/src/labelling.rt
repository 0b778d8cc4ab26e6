// The calls on labels of the log.
ghost use Rattle.std.specs.Prelude.{◌≡◌, ◌<◌, None, OnOk};
ghost use Rattle.mps_names.specs.State.{thing_named};
ghost use Rattle.mps_heap_spec.specs.Finding.{label_named};
ghost use Rattle.mps_heap_spec.specs.Labelling.{IsInterning, check_label, labelled};

use mps_base::{Addr, Name, Refusal, Slot};
use mps_format::Format;
use mps_heap_spec::refuse_at_limit;
use mps_heap_state::State;
use mps_names::Thing;

/// How many labels there may be.
const MAX_LABELS: u32 = 256;

/// The number of the label that has a name.
#[inline(always)]
fn label_named<F: Format>(state: &State<F>, name: Name) -> Result<u32, Refusal>
    ensures { result ≡ label_named state.now name }
{
    let Some(number) = state.names.label(name) else {
        return Err(Refusal::BadName);
    };
    Ok(number)
}

/// Refuses a label if its name is taken or there are 256.
fn check_label<F: Format>(state: &State<F>, name: Name) -> Result<(), Refusal>
    ensures value { result ≡ check_label state.now name }
    ensures free { OnOk result (thing_named state.now.names name ≡ None) }
    ensures few { OnOk result (state.now.names.counts.labels < 256) }
{
    state.names.refuse_taken(name)?;
    refuse_at_limit(state.names.label_count(), MAX_LABELS)
}

/// Makes a label, in the room that there is for its name, and returns its number. Refuses `NameTaken`, and `TooMany` if there are 256.
pub fn intern<F: Format>(state: &mut State<F>, name: Name) -> Result<u32, Refusal>
    ensures outcome { IsInterning state.old name result state.new }
{
    check_label(state, name)?;
    let number = state.names.label_count() as u32;
    state.names.take(name, Thing::Label(number));
    Ok(number)
}

/// The address of the object in a slot, and the number of a label. Refuses as `addr` does, and then `BadName` if the name is no
/// label's.
pub fn label<F: Format>(state: &State<F>, slot: Slot, name: Name) -> Result<(Addr, u32), Refusal>
    ensures { result ≡ labelled F.layout state.now slot name }
{
    let object = state.object_in(slot)?;
    let number = label_named(state, name)?;
    Ok((Addr(object.at), number))
}

// The calls on dependencies.
ghost use Rattle.std.specs.Prelude.{◌≡◌, ℕ, List};
ghost use Rattle.mps_ld.specs.Flips.{AreFlips};
ghost use Rattle.mps_heap_spec.specs.Coming.{Comes};
ghost use Rattle.mps_heap_spec.specs.Finding.{dependency_named};
ghost use Rattle.mps_heap_spec.specs.Depending.{with_dependency, dependency_reset, dependency_added, dependency_merged, is_dependency_stale};

use mps_base::{Addr, Name, Refusal, Slot};
use mps_format::Format;
use mps_heap_spec::{Kept, item, under};
use mps_heap_state::State;
use mps_ld::Ld;
use mps_names::Thing;

/// The dependency that has a name.
fn dependency_named<F: Format>(state: &State<F>, name: Name) -> Result<Kept<Ld>, Refusal>
    ensures { result ≡ dependency_named state.now name }
{
    let Some(Thing::Dependency(key)) = state.names.get(name) else {
        return Err(Refusal::BadName);
    };
    under(key, item(&state.dependencies, key as usize))
}

/// Writes the dependency with a number; nothing if there is none.
fn set_dependency<F: Format>(state: &mut State<F>, number: u32, d: Ld)
    ensures { state.new ≡ with_dependency state.old number d }
{
    if (number as usize) < state.dependencies.len() {
        state.dependencies[number as usize] = d;
    }
}

/// A dependency depends on nothing any more.
pub fn ld_reset<F: Format>(state: &mut State<F>, name: Name) -> Result<(), Refusal>
    ensures { Comes state.old (dependency_reset state.old name) result state.new }
{
    let d = dependency_named(state, name)?;
    let reset = Ld::new(&state.epochs);
    set_dependency(state, d.key, reset);
    Ok(())
}

/// A dependency depends on the object in a slot too.
pub fn ld_add<F: Format>(state: &mut State<F>, name: Name, slot: Slot) -> Result<(), Refusal>
    ensures { Comes state.old (dependency_added F.layout state.old name slot) result state.new }
{
    let d = dependency_named(state, name)?;
    let object = state.object_in(slot)?;
    let mut changed = d.value;
    changed.add(Addr(object.at));
    set_dependency(state, d.key, changed);
    Ok(())
}

/// A dependency depends on what another depends on too.
pub fn ld_merge<F: Format>(state: &mut State<F>, name: Name, source: Name) -> Result<(), Refusal>
    ensures { Comes state.old (dependency_merged state.old name source) result state.new }
{
    let d = dependency_named(state, name)?;
    let e = dependency_named(state, source)?;
    let mut changed = d.value;
    changed.merge(&e.value);
    set_dependency(state, d.key, changed);
    Ok(())
}

/// Whether what a dependency depends on may have moved since.
pub fn ld_stale<F: Format>(state: &State<F>, name: Name) -> Result<bool, Refusal>
    ensures { (flips : List ℕ) → AreFlips state.now.epochs flips → result ≡ is_dependency_stale flips state.now name }
{
    let d = dependency_named(state, name)?;
    Ok(d.value.is_stale(&state.epochs))
}

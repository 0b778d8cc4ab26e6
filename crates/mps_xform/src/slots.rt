// A transform is applied to the slots of tables.
#![tactic(auto)]

ghost use Rattle.std.specs.Prelude.{◌≡◌, ◌<◌, ℕ, length, slice_set};
ghost use Rattle.mps_root.specs.State.{kept, HasItem, items_of};
ghost use Rattle.mps_xform.specs.Passing.{new_in};
ghost use Rattle.mps_xform.specs.Slots.{AreListedOnce, slot_after_apply, slots_after_apply, table_after_apply};
ghost use Rattle.mps_xform.specs.State.{new_address};

use crate::replacements::Replacements;
use crate::transforms::Transforms;
use mps_base::Addr;
use mps_root::Roots;

impl Transforms {
    /// Applies a transform to the slots of all tables: a slot that refers to an old address refers to its new one. Nothing else changes.
    pub fn apply_slots(&mut self, transform: u32, roots: &mut Roots)
        requires { AreListedOnce roots.old }
        ensures unchanged { self.new ≡ self.old }
        ensures slots { roots.new ≡ slots_after_apply (new_address self.old transform) roots.old }
        ensures again { AreListedOnce roots.new }
    {
        self.replacements.fill(&self.pairs, transform);
        apply_to_tables(&self.replacements, roots);
    }
}

// Applies the pairs to the slots of all tables, table by table.
fn apply_to_tables(replacements: &Replacements, roots: &mut Roots)
    requires { AreListedOnce roots.old }
    ensures { roots.new ≡ slots_after_apply (new_in replacements.now) roots.old }
{
    for index in 0..roots.order().len() {
        let key = roots.order()[index];
        apply_to_table(replacements, roots, key);
    }
}

// Applies the pairs to the slots of the table under a key.
fn apply_to_table(replacements: &Replacements, roots: &mut Roots, key: usize)
    ensures { roots.new ≡ record roots.old
        { tables = slice_set roots.old.tables key (table_after_apply (new_in replacements.now) (kept roots.old.tables key)) } }
{
    for index in 0..slots_of(roots, key) {
        let to = slot_after_apply(replacements, roots.slot(key, index));
        roots.set_slot(key, index, to);
    }
}

// What a slot refers to, after the pairs were applied to it.
fn slot_after_apply(replacements: &Replacements, at: u64) -> u64
    ensures { result ≡ slot_after_apply (new_in replacements.now) at }
{
    match replacements.get(Addr(at)) {
        Some(pair) => pair.new.0,
        None => at,
    }
}

// How many slots the table under a key has, 0 if there is none.
fn slots_of(roots: &Roots, key: usize) -> usize
    ensures count { result ≡ length (items_of roots.now.tables key) }
    ensures listed { (index : ℕ) → index < result → HasItem roots.now.tables key index }
{
    match roots.slots(key) {
        Some(slots) => slots.len(),
        None => 0,
    }
}

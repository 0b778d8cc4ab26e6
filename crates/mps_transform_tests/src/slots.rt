// A transform is applied to slots, which `blocking` does in random steps too.
ghost use Rattle.std.specs.Prelude.{◌≡◌};
ghost use Rattle.mps_root.specs.State.{no_roots};
ghost use Rattle.mps_xform.specs.State.{no_transforms};

use mps_base::Addr;
use mps_root::Roots;
use mps_xform::{Pair, Transforms};
use std::alloc::{AllocError, Global};

// Makes a transform with the pairs 0x2000 to 0x3000 and 0x3000 to 0x4000. Whether both were added.
fn make_pairs(transforms: &mut Transforms) -> bool
    requires { transforms.old ≡ no_transforms }
{
    let transform = transforms.make();
    let first = Pair {
        transform,
        old: Addr(0x2000),
        new: Addr(0x3000),
        inside: false,
    };
    let second = Pair {
        transform,
        old: Addr(0x3000),
        new: Addr(0x4000),
        inside: false,
    };
    transforms.add(first) == Ok(()) && transforms.add(second) == Ok(())
}

// Makes a table of three slots, of which the last is null, and applies a transform to it. The key of the table.
fn apply_to_slots(
    transforms: &mut Transforms,
    transform: u32,
    roots: &mut Roots,
    first: u64,
    second: u64,
) -> Result<usize, AllocError>
    requires { roots.old ≡ no_roots }
    ensures { transforms.new ≡ transforms.old }
{
    let key = roots.table(3)?;
    roots.set_slot(key, 0, first);
    roots.set_slot(key, 1, second);
    transforms.apply_slots(transform, roots);
    Ok(key)
}

// Does so with roots of its own. Whether these are the slots then.
fn has_slots(
    alloc: Global,
    transforms: &mut Transforms,
    transform: u32,
    slots: [u64; 2],
    expected: &[u64],
) -> Result<bool, AllocError>
    ensures { transforms.new ≡ transforms.old }
{
    let mut roots = Roots::new(alloc);
    let key = apply_to_slots(transforms, transform, &mut roots, slots[0], slots[1])?;
    let alike = roots.slots(key) == Some(expected);
    drop(roots);
    Ok(alike)
}

// A slot after a transform, by the first pair that has its address.
fn plain_slot(pairs: &[Pair], transform: u32, slot: u64) -> u64 {
    for pair in pairs {
        if pair.transform == transform && pair.old.0 == slot {
            return pair.new.0;
        }
    }
    slot
}

// Whether a transform makes of two slots what it makes of them in a plain list, and leaves a null one.
pub(crate) fn slots_alike(
    alloc: Global,
    transforms: &mut Transforms,
    transform: u32,
    plain: &[Pair],
    slots: [u64; 2],
) -> Result<bool, AllocError>
    ensures { transforms.new ≡ transforms.old }
{
    let expected = [
        plain_slot(plain, transform, slots[0]),
        plain_slot(plain, transform, slots[1]),
        0,
    ];
    has_slots(alloc, transforms, transform, slots, &expected)
}

#[test]
fn each_slot_leads_to_its_new_address_once(rt: HostRuntime) -> Result<(), AllocError> {
    let mut transforms = Transforms::new(rt.alloc())?;
    let made = make_pairs(&mut transforms);
    let expected = [0x3000, 0x4000, 0];
    let applied = has_slots(rt.alloc(), &mut transforms, 0, [0x2000, 0x3000], &expected);
    drop(transforms);
    assert!(rt; made && applied == Ok(true));
    Ok(())
}

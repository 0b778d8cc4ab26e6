// Each call once, the most pairs, and 2,000 random steps beside a plain list.
ghost use Rattle.std.specs.Prelude.{◌≡◌, true};
ghost use Rattle.mps_xform.specs.State.{is_live, no_transforms};

use mps_base::Addr;
use mps_xform::{AddRefusal, Pair, Transforms};
use std::alloc::AllocError;
use std::process::Abort;

// A pair of a transform.
fn pair(transform: u32, old: u64, new: u64) -> Pair
    ensures { result.transform ≡ transform }
{
    Pair {
        transform,
        old: Addr(old),
        new: Addr(new),
        inside: false,
    }
}

// An old address is refused twice in a transform, and another transform takes the number of one that was dropped.
fn check_added(rt: &impl Abort, transforms: &mut Transforms)
    requires { transforms.old ≡ no_transforms }
{
    assert!(rt; transforms.has_room());
    let first = transforms.make();
    assert_eq!(rt; first, 0);
    assert!(rt; transforms.add(pair(first, 8, 16)) == Ok(()));
    assert!(rt; transforms.add(pair(first, 8, 24)) == Err(AddRefusal::OldTwice));
    transforms.empty_all();
    assert!(rt; transforms.add(pair(first, 8, 24)) == Ok(()));
    transforms.drop_transform(first);
    assert!(rt; transforms.has_room());
    let again = transforms.make();
    assert_eq!(rt; again, 0);
    assert!(rt; transforms.add(pair(again, 8, 16)) == Ok(()));
}

#[test]
fn an_old_address_once_a_transform(rt: HostRuntime) -> Result<(), AllocError> {
    let mut transforms = Transforms::new(rt.alloc())?;
    check_added(&rt, &mut transforms);
    drop(transforms);
    Ok(())
}

// The most pairs, and one more, which is refused.
fn check_full(rt: &impl Abort, transforms: &mut Transforms)
    requires { transforms.old ≡ no_transforms }
{
    let number = transforms.make();
    for old in 0..4_096 {
        assert!(rt; transforms.add(pair(number, 8 * old, 8)) == Ok(()));
    }
    assert!(rt; transforms.add(pair(number, 80_000, 8)) == Err(AddRefusal::TooMany));
    assert!(rt; transforms.add(pair(number, 80, 8)) == Err(AddRefusal::OldTwice));
}

#[test]
fn refuses_a_pair_more_than_4096(rt: HostRuntime) -> Result<(), AllocError> {
    let mut transforms = Transforms::new(rt.alloc())?;
    check_full(&rt, &mut transforms);
    drop(transforms);
    Ok(())
}

// Whether a step has the same answer in the plain list.
fn agree(
    transforms: &mut Transforms,
    number: u32,
    plain: &mut Vec<u64>,
    choice: u64,
    old: u64,
) -> Result<bool, AllocError>
    requires { is_live transforms.old number ≡ true }
    ensures { is_live transforms.new number ≡ true }
{
    if choice == 0 {
        plain.clear();
        transforms.empty_all();
        return Ok(true);
    }
    let twice = plain.contains(&old);
    if !twice {
        plain.push(old)?;
    }
    let refusal = transforms.add(pair(number, old, 8)).err();
    Ok(refusal == twice.then_some(AddRefusal::OldTwice))
}

// Takes 2,000 steps. Whether each has the same answer in the plain list.
fn all_agree(transforms: &mut Transforms, plain: &mut Vec<u64>) -> Result<bool, AllocError>
    requires { transforms.old ≡ no_transforms }
{
    let number = transforms.make();
    let mut seed = 1u64;
    for _ in 0..2_000 {
        seed = seed
            .wrapping_mul(6364136223846793005)
            .wrapping_add(1442695040888963407);
        let old = 8 * ((seed >> 40) % 64);
        if !agree(transforms, number, plain, (seed >> 33) % 64, old)? {
            return Ok(false);
        }
    }
    Ok(true)
}

#[test]
fn stays_beside_a_plain_list(rt: HostRuntime) -> Result<(), AllocError> {
    let mut plain = Vec::new(rt.alloc());
    let mut transforms = Transforms::new(rt.alloc())?;
    let alike = all_agree(&mut transforms, &mut plain);
    drop(transforms);
    drop(plain);
    assert!(rt; alike == Ok(true));
    Ok(())
}

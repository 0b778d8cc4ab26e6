// Each call once, the most pairs, and 2,000 random steps beside a plain list.
use mps_base::{Addr, Refusal};
use mps_dep::{Dependents, Pair};
use std::alloc::AllocError;
use std::process::Abort;

// Of pairs some end with their holders, some with their dependents, and one is taken away.
fn check_ends(rt: &impl Abort, dependents: &mut Dependents) {
    dependents.forget(Addr(8));
    assert!(rt; dependents.link(Addr(8), Addr(16)) == Ok(()));
    assert!(rt; dependents.link(Addr(24), Addr(16)) == Ok(()));
    assert!(rt; dependents.link(Addr(8), Addr(32)) == Ok(()));
    assert!(rt; dependents.dependent(Addr(8)) == Some(Addr(32)));
    assert!(rt; dependents.dependent(Addr(0x100008)) == None);
    dependents.forget(Addr(0x100010));
    assert!(rt; dependents.dependent(Addr(24)) == Some(Addr(16)));
    dependents.forget(Addr(16));
    assert!(rt; dependents.dependent(Addr(24)) == None);
    assert!(rt; dependents.unlink(Addr(8)) == Some(Addr(32)));
    assert!(rt; dependents.unlink(Addr(8)) == None);
}

#[test]
fn a_pair_ends_with_either_block(rt: HostRuntime) -> Result<(), AllocError> {
    let mut dependents = Dependents::new(rt.alloc())?;
    check_ends(&rt, &mut dependents);
    drop(dependents);
    Ok(())
}

// The most pairs, and one more, which is refused.
fn check_full(rt: &impl Abort, dependents: &mut Dependents) {
    for number in 0..1_024 {
        assert!(rt; dependents.link(Addr(8 * number), Addr(8)) == Ok(()));
    }
    assert!(rt; dependents.link(Addr(80_000), Addr(8)) == Err(Refusal::TooMany { limit: 1_024 }));
    assert!(rt; dependents.link(Addr(800), Addr(16)) == Ok(()));
    assert!(rt; dependents.dependent(Addr(800)) == Some(Addr(16)));
}

#[test]
fn refuses_a_pair_more_than_1024(rt: HostRuntime) -> Result<(), AllocError> {
    let mut dependents = Dependents::new(rt.alloc())?;
    check_full(&rt, &mut dependents);
    drop(dependents);
    Ok(())
}

// Whether a step has the same answer in the plain list.
fn agree(
    dependents: &mut Dependents,
    plain: &mut Vec<Pair>,
    choice: u64,
    number: u64,
) -> Result<bool, AllocError> {
    let holder = Addr(8 * (number % 32));
    let before = plain.iter().find(|pair| pair.holder == holder);
    let before = before.map(|pair| pair.dependent);
    if dependents.dependent(holder) != before {
        return Ok(false);
    }
    match choice {
        0 => {
            plain.retain(|pair| pair.holder != holder && pair.dependent != holder);
            dependents.forget(holder);
            Ok(true)
        }
        1 | 2 => {
            plain.retain(|pair| pair.holder != holder);
            Ok(dependents.unlink(holder) == before)
        }
        _ => {
            let dependent = Addr(8 * (number % 31) + 0x100000 * (number % 3));
            plain.retain(|pair| pair.holder != holder);
            plain.push(Pair { holder, dependent })?;
            Ok(dependents.link(holder, dependent) == Ok(()))
        }
    }
}

// Takes 2,000 steps. Whether each has the same answer in the plain list.
fn all_agree(dependents: &mut Dependents, plain: &mut Vec<Pair>) -> Result<bool, AllocError> {
    let mut seed = 1u64;
    for _ in 0..2_000 {
        seed = seed
            .wrapping_mul(6364136223846793005)
            .wrapping_add(1442695040888963407);
        if !agree(dependents, plain, (seed >> 33) % 8, seed >> 40)? {
            return Ok(false);
        }
    }
    Ok(true)
}

#[test]
fn stays_beside_a_plain_list(rt: HostRuntime) -> Result<(), AllocError> {
    let mut plain = Vec::new(rt.alloc());
    let mut dependents = Dependents::new(rt.alloc())?;
    let alike = all_agree(&mut dependents, &mut plain);
    drop(dependents);
    drop(plain);
    assert!(rt; alike == Ok(true));
    Ok(())
}

// A map over addresses of words below 16 MiB, over others, over both, and over some that fall into few places of its table.
use crate::AddressMap;
use std::alloc::{AllocError, Global};

/// The secret of the map, for which addresses that collide are known.
const SECRET: u64 = 5;

/// Numbers whose sums, added by xor to what the hashes of that secret begin with, leave the low bits of a hash nearly as they are.
const STEPS: [u64; 10] = [
    0x005f_aa90_bde5_0000,
    0x04db_0dfb_54e5_5000,
    0x0774_5eb6_9f55_7000,
    0x01b1_a214_be1a_0000,
    0x02c2_e0ec_d64f_6000,
    0x01c6_5d3a_88ba_3000,
    0x0665_f4be_c7f5_9000,
    0x04fb_6a51_48e5_2000,
    0x0656_2e22_8bec_f000,
    0x042e_2092_c4a0_8000,
];

/// An address for each number below 1,024: these fall into a few places of 4,096.
fn colliding(number: u64) -> u64 {
    let mut sum: u64 = 0;
    let mut left = number;
    for step in STEPS {
        if left & 1 == 1 {
            sum = sum.wrapping_add(step);
        }
        left >>= 1;
    }
    0x98f4_be12_2f51_0f25 ^ sum
}

/// All addresses are put in, each with its number, and every third is taken out; whether each call answers as it should, and
/// what is listed.
fn fill_and_empty(alloc: Global, addresses: &[u64]) -> Result<(bool, Vec<(u64, u64)>), AllocError> {
    let mut map: AddressMap<u64> = AddressMap::new(alloc, SECRET);
    let mut right = true;
    for (number, at) in addresses.iter().enumerate() {
        right &= map.get(*at).is_none();
        right &= map.insert(*at, number as u64)?.is_none();
        right &= map.insert(*at, number as u64)? == Some(number as u64);
    }
    for (number, at) in addresses.iter().enumerate() {
        if number % 3 == 0 {
            right &= map.remove(*at) == Some(number as u64);
            right &= map.remove(*at).is_none();
        }
        right &= map.get(*at).is_some() == (number % 3 != 0);
    }
    Ok((right, map.into_sorted()?))
}

#[test]
fn addresses_of_an_arena(rt: HostRuntime) -> Result<(), AllocError> {
    let mut addresses: Vec<u64> = Vec::new(rt.alloc());
    for number in 0..1024u64 {
        addresses.push(0x1000 + 8 * number)?;
    }
    let (right, entries) = fill_and_empty(rt.alloc(), &addresses)?;
    assert!(rt; right);
    assert_eq!(rt; entries.len(), 682);
    assert_eq!(rt; entries.first().copied(), Some((0x1008, 1)));
    assert_eq!(rt; entries.last().copied(), Some((0x2ff0, 1022)));
    Ok(())
}

#[test]
fn addresses_that_collide(rt: HostRuntime) -> Result<(), AllocError> {
    let mut addresses: Vec<u64> = Vec::new(rt.alloc());
    for number in 0..1024u64 {
        addresses.push(colliding(number))?;
    }
    let (right, entries) = fill_and_empty(rt.alloc(), &addresses)?;
    assert!(rt; right);
    assert_eq!(rt; entries.len(), 682);
    for entry in &entries {
        assert_eq!(rt; addresses.get(entry.1 as usize).copied(), Some(entry.0));
    }
    Ok(())
}

#[test]
fn addresses_of_both_kinds(rt: HostRuntime) -> Result<(), AllocError> {
    let mut addresses: Vec<u64> = Vec::new(rt.alloc());
    for number in 0..300u64 {
        addresses.push(0x00ff_fc00 + 4 * number)?;
    }
    let (right, entries) = fill_and_empty(rt.alloc(), &addresses)?;
    assert!(rt; right);
    assert_eq!(rt; entries.len(), 200);
    assert_eq!(rt; entries.first().copied(), Some((0x00ff_fc04, 1)));
    assert_eq!(rt; entries.get(1).copied(), Some((0x00ff_fc08, 2)));
    assert_eq!(rt; entries.last().copied(), Some((0x0100_00ac, 299)));
    Ok(())
}

#[test]
fn addresses_far_apart(rt: HostRuntime) -> Result<(), AllocError> {
    let mut map: AddressMap<u64> = AddressMap::new(rt.alloc(), 7);
    for at in [u64::MAX, 0x0100_0000, 0x00ff_fff8, 0x00ff_ffff, 8, 7, 0] {
        assert!(rt; map.remove(at).is_none());
        assert!(rt; map.insert(at, !at)?.is_none());
        assert_eq!(rt; map.get(at), Some(!at));
    }
    assert!(rt; map.get(16).is_none());
    assert!(rt; map.get(9).is_none());
    let entries = map.into_sorted()?;
    assert_eq!(rt; entries.len(), 7);
    assert_eq!(rt; entries.first().copied(), Some((0, u64::MAX)));
    assert_eq!(rt; entries.last().copied(), Some((u64::MAX, 0)));
    Ok(())
}

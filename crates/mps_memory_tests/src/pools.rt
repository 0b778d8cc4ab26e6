// The table of pools where nothing is held, and a pool on a chain.
ghost use Rattle.std.specs.Prelude.{◌≡◌};
ghost use Rattle.mps_pools.specs.Pools.{none_made};
ghost use Rattle.mps_seg.specs.Segs.{new_segments};

use mps_base::{Addr, Kind, Trail};
use mps_format::{Front, Pool};
use mps_pools::Pools;
use mps_seg::Segs;
use mps_trace::Band;
use std::alloc::AllocError;
use std::process::Abort;

/// Reads at an address where nothing is held, in each band of a collection.
fn access_in_each_band(pools: &mut Pools<Front>, segs: &mut Segs, trail: &mut Trail)
    requires { segs.old ≡ new_segments 8 8 }
{
    for band in [Band::Exact, Band::Final, Band::Weak, Band::Reclaim] {
        pools.access(segs, trail, band, Addr(0x1000));
    }
}

#[test]
fn a_barrier_where_nothing_is_held_does_nothing(rt: HostRuntime) -> Result<(), AllocError> {
    let mut trail = Trail::new(rt.alloc(), 2)?;
    let mut pools: Pools<Front> = Pools::new(rt.alloc());
    let mut segs = Segs::new(rt.alloc(), 8, 8)?;
    access_in_each_band(&mut pools, &mut segs, &mut trail);
    drop(segs);
    drop(pools);
    let moves = trail.moves().len();
    drop(trail);
    assert_eq!(rt; moves, 0);
    Ok(())
}

/// Makes a chain, a pool on it and one on none.
fn check_made(rt: &impl Abort, pools: &mut Pools<Front>) -> Result<(), AllocError>
    requires { pools.old ≡ none_made }
{
    assert!(rt; pools.chain(&[4, 8]) == Ok(0));
    let kind = Kind::Amc;
    pools.add(
        Pool::Automatic {
            kind,
            format: Front,
        },
        Some(0),
    )?;
    pools.add(Pool::AnySize, None)?;
    assert!(rt; pools.chain_count() == 1);
    assert!(rt; pools.generations_on(0) == Some(2));
    assert!(rt; pools.generations_on(1) == None);
    assert!(rt; pools.chains().chain_of(0) == Some(0));
    assert!(rt; pools.chains().chain_of(1) == None);
    Ok(())
}

#[test]
fn makes_a_pool_on_a_chain(rt: HostRuntime) -> Result<(), AllocError> {
    let mut pools = Pools::new(rt.alloc());
    let made = check_made(&rt, &mut pools);
    drop(pools);
    made
}

// Two pools of a chain and one of none.
ghost use Rattle.std.specs.Prelude.{◌<◌, ◌≤◌};
ghost use Rattle.mps_base.specs.Address.{max_block_words};

use crate::due_now;
use mps_base::{Rank, Refusal, Trail};
use mps_gen::{Chains, DueGeneration};
use mps_seg::Segs;
use std::alloc::{AllocError, Global};

/// Takes a segment of these grains for a generation of a pool.
fn take(
    alloc: Global,
    segs: &mut Segs,
    pool: u32,
    generation: u32,
    grains: u8,
) -> Result<(), Refusal> {
    let mut trail = Trail::new(alloc, 1).map_err(|_| Refusal::OutOfMemory)?;
    let words = 512 * u32::from(grains);
    if words != 0 && words <= 65_536 {
        segs.take(&mut trail, pool, words, generation, Rank::Exact)?;
    }
    Ok(())
}

/// A chain of two generations, on which are pools 0 and 2, and a pool on none.
fn two_generations() -> Chains {
    let mut chains = Chains::new();
    let _ = chains.chain(&[1, 2]);
    let _ = chains.pool(Some(0));
    let _ = chains.pool(None);
    let _ = chains.pool(Some(0));
    chains
}

#[test]
fn knows_what_is_due(rt: HostRuntime) -> Result<(), AllocError> {
    let chains = two_generations();
    let mut segs = Segs::new(rt.alloc(), 40, 40)?;
    assert!(rt; take(rt.alloc(), &mut segs, 1, 0, 9) == Ok(()));
    assert!(rt; take(rt.alloc(), &mut segs, 0, 0, 1) == Ok(()));
    assert!(rt; due_now(&chains, &segs) == None);
    assert!(rt; take(rt.alloc(), &mut segs, 2, 0, 1) == Ok(()));
    let young = due_now(&chains, &segs);
    assert!(rt;
        young
            == Some(DueGeneration {
                chain: 0,
                generation: 0
            })
    );
    assert!(rt; take(rt.alloc(), &mut segs, 2, 1, 3) == Ok(()));
    let old = due_now(&chains, &segs);
    assert!(rt;
        old == Some(DueGeneration {
            chain: 0,
            generation: 1
        })
    );
    drop(segs);
    Ok(())
}

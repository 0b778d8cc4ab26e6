// All that stands beside the blocks.
#![tactic(auto)]

ghost use Rattle.std.specs.Prelude.{◌≡◌, [], IfOk};
ghost use Rattle.mps_snc.specs.State.{no_pools};
ghost use Rattle.mps_xform.specs.State.{no_transforms};

use mps_dep::Dependents;
use mps_sac::Caches;
use mps_snc::Frames;
use mps_xform::Transforms;
use std::alloc::{AllocError, Global};

/// The tables beside the blocks, each with the calls of its own crate. A heap holds them as one field. All room comes from `new`, but
/// that of a pool of frames.
#[derive(Drop)]
pub struct Neighbours {
    pub dependents: Dependents,
    pub transforms: Transforms,
    pub caches: Caches,
    pub frames: Frames,
}

impl Neighbours {
    /// Nothing stands beside the blocks.
    pub fn new(alloc: Global) -> Result<Neighbours, AllocError>
        ensures dependents { IfOk result (λ beside. beside.dependents ≡ []) }
        ensures transforms { IfOk result (λ beside. beside.transforms ≡ no_transforms) }
        ensures caches { IfOk result (λ beside. beside.caches ≡ []) }
        ensures frames { IfOk result (λ beside. beside.frames ≡ no_pools) }
    {
        Ok(Neighbours {
            dependents: Dependents::new(alloc)?,
            transforms: Transforms::new(alloc)?,
            caches: Caches::new(alloc)?,
            frames: Frames::new(alloc)?,
        })
    }
}

// A collection where nothing is held.
ghost use Rattle.std.specs.Prelude.{◌≡◌, ◌<◌, ◌^◌};
ghost use Rattle.mps_buffer.specs.Tokens.{NoneIsOpen};
ghost use Rattle.mps_seg.specs.Segs.{new_segments};

use mps_base::{Move, Trail, ZoneSet};
use mps_buffer::OpenPoints;
use mps_final::Finals;
use mps_format::Front;
use mps_ld::Epochs;
use mps_root::Roots;
use mps_seg::Segs;
use mps_trace::{Condemn, Running, Trace};
use std::alloc::{AllocError, Global};

/// Begins a collection where nothing is held.
fn begin_with(
    alloc: Global,
    segs: &mut Segs,
    trail: &mut Trail,
    points: &mut OpenPoints,
) -> Result<Option<Running>, AllocError>
    requires segs { segs.old ≡ new_segments 8 8 }
    requires none_open { NoneIsOpen points.old.points }
    requires few_flips { points.old.flips < 2 ^ 63 }
    requires fits { 1 < trail.old.spare }
    ensures none_open { NoneIsOpen points.new.points }
{
    let mut finals = Finals::new(alloc)?;
    let mut roots = Roots::new(alloc);
    let mut epochs = Epochs::new();
    let mut trace: Trace<Front> = Trace::new(alloc);
    let begun = trace.begin(
        segs,
        trail,
        &mut roots,
        points,
        &mut finals,
        &mut epochs,
        Condemn::Everything,
    );
    drop(trace);
    drop(epochs);
    drop(roots);
    drop(finals);
    Ok(begun)
}

/// Does so with points of its own.
fn begin(alloc: Global, segs: &mut Segs, trail: &mut Trail) -> Result<Option<Running>, AllocError>
    requires segs { segs.old ≡ new_segments 8 8 }
    requires fits { 1 < trail.old.spare }
{
    let mut points = OpenPoints::new(alloc)?;
    let begun = begin_with(alloc, segs, trail, &mut points);
    points.finish(segs);
    begun
}

/// Whether moves are a flip that condemns nothing, and the end of the collection.
fn are_flip_and_end(moves: &[Move]) -> bool {
    let flip = Move::Flip {
        zones: ZoneSet(0),
        chain: 16,
        generation: 0,
    };
    moves == [flip, Move::End].as_slice()
}

#[test]
fn a_collection_of_nothing_ends_at_once(rt: HostRuntime) -> Result<(), AllocError> {
    let mut trail = Trail::new(rt.alloc(), 2)?;
    let mut segs = Segs::new(rt.alloc(), 8, 8)?;
    let begun = begin(rt.alloc(), &mut segs, &mut trail);
    drop(segs);
    let flipped = are_flip_and_end(trail.moves());
    drop(trail);
    assert!(rt; begun? == None);
    assert!(rt; flipped);
    Ok(())
}

// Each call once, the most open frames, and 2,000 random steps beside plain lists.
#![tactic(auto)]

ghost use Rattle.std.specs.Prelude.{IsSome};
ghost use Rattle.mps_snc.specs.State.{pool_at};

use crate::{Block, Frames, Place};
use mps_base::{Addr, Refusal};
use std::alloc::AllocError;

// A block at an address, in a place of the same number.
fn block(at: u64) -> Block {
    Block {
        at: Addr(at),
        place: Place {
            table: 0,
            index: at as usize,
        },
    }
}

#[test]
fn the_latest_block_goes_first(rt: HostRuntime) -> Result<(), AllocError> {
    let mut frames = Frames::new(rt.alloc())?;
    let made = frames.new_pool()?;
    frames.add_pool(7, made);
    assert!(rt; frames.is_pool(7) && frames.has_room(7));
    assert!(rt; !frames.is_pool(6) && frames.has_room(64));
    frames.note(6, block(32));
    frames.note(7, block(8));
    assert!(rt; frames.push(7) == Ok(0));
    frames.note(7, block(16));
    assert!(rt; frames.push(7) == Ok(1));
    frames.note(7, block(24));
    assert_eq!(rt; frames.frames(7), 2);
    assert!(rt; frames.pop(7, 0) == Some(block(24)));
    assert_eq!(rt; frames.frames(7), 2);
    assert!(rt; frames.pop(7, 0) == Some(block(16)));
    assert!(rt; frames.pop(7, 0) == None);
    assert_eq!(rt; frames.frames(7), 0);
    Ok(())
}

#[test]
fn refuses_one_frame_more_than_4096(rt: HostRuntime) -> Result<(), AllocError> {
    let mut frames = Frames::new(rt.alloc())?;
    let made = frames.new_pool()?;
    frames.add_pool(0, made);
    let made = frames.new_pool()?;
    frames.add_pool(1, made);
    for number in 0..4_095 {
        assert!(rt; frames.push(0) == Ok(number));
    }
    assert!(rt; frames.push(1) == Ok(0));
    assert!(rt; frames.push(1) == Err(Refusal::TooMany { limit: 4_096 }));
    assert!(rt; frames.push(0) == Err(Refusal::TooMany { limit: 4_096 }));
    Ok(())
}

// A pool as it is to be.
#[derive(Drop)]
struct Plain {
    blocks: Vec<u64>,
    frames: Vec<usize>,
}

// Whether a push has the same answer in the plain lists.
fn pushed_alike(frames: &mut Frames, plain: &mut Plain) -> Result<bool, AllocError>
    requires { IsSome (pool_at frames.old 3) }
    ensures { IsSome (pool_at frames.new 3) }
{
    let open = plain.frames.len();
    plain.frames.push(plain.blocks.len())?;
    Ok(frames.push(3).ok().map(|number| number as usize) == Some(open))
}

// Whether a pop of some open frame has the same answer in the plain lists.
fn popped_alike(frames: &mut Frames, plain: &mut Plain, number: u64) -> bool
    requires { IsSome (pool_at frames.old 3) }
    ensures { IsSome (pool_at frames.new 3) }
{
    let frame = (number % 5) as u32;
    if frame >= frames.frames(3) || frame as usize >= plain.frames.len() {
        return frames.frames(3) as usize == plain.frames.len();
    }
    let popped = frames.pop(3, frame).map(|block| block.at.0);
    if plain.blocks.len() > plain.frames[frame as usize] {
        return popped == plain.blocks.pop();
    }
    plain.frames.truncate(frame as usize);
    popped.is_none() && frames.frames(3) == frame
}

// Whether a step has the same answer in the plain lists.
fn agree(
    frames: &mut Frames,
    plain: &mut Plain,
    choice: u64,
    number: u64,
) -> Result<bool, AllocError>
    requires { IsSome (pool_at frames.old 3) }
    ensures { IsSome (pool_at frames.new 3) }
{
    match choice {
        0 => pushed_alike(frames, plain),
        1 | 2 | 3 if frames.has_room(3) => {
            plain.blocks.push(number)?;
            frames.note(3, block(number));
            Ok(true)
        }
        _ => Ok(popped_alike(frames, plain, number)),
    }
}

#[test]
fn stays_beside_plain_lists(rt: HostRuntime) -> Result<(), AllocError> {
    let mut frames = Frames::new(rt.alloc())?;
    let made = frames.new_pool()?;
    frames.add_pool(3, made);
    let mut plain = Plain {
        blocks: Vec::new(rt.alloc()),
        frames: Vec::new(rt.alloc()),
    };
    let mut seed = 1u64;
    for _ in 0..2_000u32 {
        seed = seed
            .wrapping_mul(6364136223846793005)
            .wrapping_add(1442695040888963407);
        assert!(rt; agree(&mut frames, &mut plain, (seed >> 33) % 8, seed >> 40)?);
    }
    Ok(())
}

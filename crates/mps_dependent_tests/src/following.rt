// What follows from a move, in an arena with blocks: two examples, and 2,000 random steps beside plain lists.
ghost use Rattle.std.specs.Prelude.{◌<◌};

use mps_base::{Addr, Move, Rank, Refusal, Trail};
use mps_dep::{Dependents, Pair};
use mps_format::Front;
use mps_seg::Segs;
use std::alloc::{AllocError, Global};

/// A head of the format `front`: three words, of which the first after the head is a reference.
const HEAD: u64 = 0x1_0000_0301;

// Writes a word of the arena, where it has it.
fn write(segs: &mut Segs, at: Addr, word: u64) {
    if segs.item(at.word()).is_some() {
        segs.set_word(at, word);
    }
}

// Makes a block of three words in a segment of its own, whose other words are 13, and follows a Splat of a cell of its holder and the
// Free of its holder. The words of the block after each.
fn follow_both(
    segs: &mut Segs,
    trail: &mut Trail,
    dependents: &mut Dependents,
    cell: u32,
) -> Result<[Option<u64>; 4], Refusal>
    requires { 0 < trail.old.spare }
{
    let holder = Addr(0x2008);
    let at = segs.take(trail, 0, 3, 0, Rank::Exact)?;
    segs.commit_block(at, 3);
    write(segs, at, HEAD);
    write(segs, Addr(0x1008), 13);
    write(segs, Addr(0x1010), 13);
    dependents.link(holder, at)?;
    dependents.follow(segs, &Front, Move::Splat { holder, cell });
    let first = segs.item(Addr(0x1008).word());
    let second = segs.item(Addr(0x1010).word());
    dependents.follow(segs, &Front, Move::Free { at: holder });
    write(segs, Addr(0x1008), 13);
    dependents.follow(segs, &Front, Move::Splat { holder, cell: 1 });
    let last = segs.item(Addr(0x1008).word());
    Ok([
        first,
        second,
        last,
        dependents.dependent(holder).map(|at| at.0),
    ])
}

// Does so in an arena of its own.
fn follow(alloc: Global, cell: u32) -> Result<Result<[Option<u64>; 4], Refusal>, AllocError> {
    let mut trail = Trail::new(alloc, 1)?;
    let mut dependents = Dependents::new(alloc)?;
    let mut segs = Segs::new(alloc, 3, 2)?;
    let words = follow_both(&mut segs, &mut trail, &mut dependents, cell);
    drop(segs);
    drop(dependents);
    drop(trail);
    Ok(words)
}

#[test]
fn a_reference_is_cleared_and_keeps_its_tag(rt: HostRuntime) -> Result<(), AllocError> {
    let words = follow(rt.alloc(), 1)?;
    assert!(rt; words == Ok([Some(5), Some(13), Some(13), None]));
    Ok(())
}

#[test]
fn a_number_stays(rt: HostRuntime) -> Result<(), AllocError> {
    let words = follow(rt.alloc(), 2)?;
    assert!(rt; words == Ok([Some(13), Some(13), Some(13), None]));
    Ok(())
}

/// The addresses that become dependents: those of two blocks, one inside the first, and one of no block.
const DEPENDENTS: [u64; 4] = [0x1000, 0x2000, 0x1008, 0x4000];

/// Words that the blocks have in place of a head, each with how many references it says there are: of an invalid head none counts.
const HEADS: [(u64, u32); 8] = [
    (0x1_0000_0501, 1),
    (0x2_0000_0501, 2),
    (0x3_0000_0501, 3),
    (0x4_0000_0501, 4),
    (0x5_0000_0501, 0),
    (0x2_0000_0503, 0),
    (0x1_0000_0101, 0),
    (0, 0),
];

// The pairs, how many references each of the two blocks has, and its four cells after the head, those of the first block first.
#[derive(Drop)]
struct Plain {
    pairs: Vec<Pair>,
    references: [u32; 2],
    cells: Vec<u64>,
}

// Makes a block of five words in a segment of its own. Its address, None if there is no grain for it.
fn make_with(segs: &mut Segs, trail: &mut Trail) -> Option<Addr>
    requires { 0 < trail.old.spare }
{
    let Ok(at) = segs.take(trail, 0, 5, 0, Rank::Exact) else {
        return None;
    };
    segs.commit_block(at, 5);
    Some(at)
}

// Does the same with a trail of its own.
fn make_block(alloc: Global, segs: &mut Segs) -> Result<Option<Addr>, AllocError> {
    let mut trail = Trail::new(alloc, 1)?;
    let at = make_with(segs, &mut trail);
    drop(trail);
    Ok(at)
}

// The dependent of a holder in a plain list.
fn plain_dependent(pairs: &[Pair], holder: Addr) -> Option<Addr> {
    let pair = pairs.iter().find(|pair| pair.holder == holder)?;
    Some(pair.dependent)
}

// What a Splat does in the plain lists.
fn plain_splat(plain: &mut Plain, holder: Addr, cell: u32) {
    let Some(Addr(dependent)) = plain_dependent(&plain.pairs, holder) else {
        return;
    };
    let block = match dependent {
        0x1000 => 0usize,
        0x2000 => 1,
        _ => return,
    };
    if cell == 0 || cell > 4 || cell > plain.references[block] {
        return;
    }
    let index = 4 * block + cell as usize - 1;
    if index < plain.cells.len() {
        plain.cells[index] %= 8;
    }
}

// What a move does in the plain lists.
fn plain_follow(plain: &mut Plain, made: Move) {
    match made {
        Move::Splat { holder, cell } => plain_splat(plain, holder, cell),
        Move::Free { at } => plain
            .pairs
            .retain(|pair| pair.holder != at && pair.dependent != at),
        _ => {}
    }
}

// Whether a pair is linked as in the plain lists.
fn linked_alike(
    dependents: &mut Dependents,
    plain: &mut Plain,
    holder: Addr,
    dependent: Addr,
) -> Result<bool, AllocError> {
    plain.pairs.retain(|pair| pair.holder != holder);
    plain.pairs.push(Pair { holder, dependent })?;
    Ok(dependents.link(holder, dependent) == Ok(()))
}

// Writes a word of a block, and notes it in the plain lists. Cell 0 gets one of the heads.
fn write_cell(segs: &mut Segs, plain: &mut Plain, block: usize, cell: usize, word: u64)
    requires block { block < 2 }
    requires cell { cell < 5 }
{
    let at = Addr(0x1000 * (block as u64 + 1) + 8 * cell as u64);
    let index = 4 * block + cell;
    if cell == 0 {
        let (head, references) = HEADS[(word % 8) as usize];
        plain.references[block] = references;
        write(segs, at, head);
    } else if index - 1 < plain.cells.len() {
        plain.cells[index - 1] = word;
        write(segs, at, word);
    }
}

// Whether the cells of the block at a word are those of a list.
fn has_cells(segs: &Segs, from: usize, cells: &[u64]) -> bool {
    let mut at = from;
    for cell in cells {
        if segs.item(at) != Some(*cell) {
            return false;
        }
        at = at.saturating_add(1);
    }
    true
}

// Whether the holders have the dependents of the plain lists, and the blocks their cells.
fn are_alike(dependents: &Dependents, segs: &Segs, plain: &Plain) -> bool {
    for number in 0..8u64 {
        let holder = Addr(0x3000 + 8 * number);
        if dependents.dependent(holder) != plain_dependent(&plain.pairs, holder) {
            return false;
        }
    }
    plain.cells.len() == 8
        && has_cells(segs, 513, &plain.cells[..4])
        && has_cells(segs, 1025, &plain.cells[4..])
}

// A move that is followed, of these bytes.
fn a_move(kind: u8, holder: Addr, dependent: Addr, cell: u32) -> Move {
    match kind % 16 {
        0 => Move::Free { at: holder },
        1 => Move::Free { at: dependent },
        2 => Move::Unseg { base: dependent },
        _ => Move::Splat { holder, cell },
    }
}

// Whether a step has the same result in the plain lists.
fn agree(
    dependents: &mut Dependents,
    segs: &mut Segs,
    plain: &mut Plain,
    bytes: [u8; 8],
) -> Result<bool, AllocError> {
    let [choice, holder, dependent, cell, kind, word, _, _] = bytes;
    let holder = Addr(0x3000 + 8 * u64::from(holder % 8));
    let dependent = Addr(DEPENDENTS[dependent as usize % 4]);
    if choice < 32 {
        if !linked_alike(dependents, plain, holder, dependent)? {
            return Ok(false);
        }
    } else if choice < 128 {
        let block = kind as usize % 2;
        write_cell(segs, plain, block, cell as usize % 5, u64::from(word));
    } else {
        let made = a_move(kind, holder, dependent, u32::from(cell % 6));
        plain_follow(plain, made);
        dependents.follow(segs, &Front, made);
    }
    Ok(are_alike(dependents, segs, plain))
}

// Takes 2,000 steps. Whether each has the same result in the plain lists.
fn all_agree(
    dependents: &mut Dependents,
    segs: &mut Segs,
    plain: &mut Plain,
) -> Result<bool, AllocError> {
    let mut seed = 1u64;
    for _ in 0..2_000 {
        seed = seed
            .wrapping_mul(6364136223846793005)
            .wrapping_add(1442695040888963407);
        let bytes = (seed ^ (seed >> 32)).to_be_bytes();
        if !agree(dependents, segs, plain, bytes)? {
            return Ok(false);
        }
    }
    Ok(true)
}

// Makes the blocks and takes the steps, beside plain lists of blocks whose words are 0.
fn stay_alike(
    alloc: Global,
    dependents: &mut Dependents,
    segs: &mut Segs,
) -> Result<bool, AllocError> {
    let first = make_block(alloc, segs)?;
    let second = make_block(alloc, segs)?;
    if first != Some(Addr(0x1000)) || second != Some(Addr(0x2000)) {
        return Ok(false);
    }
    let mut plain = Plain {
        pairs: Vec::new(alloc),
        references: [0, 0],
        cells: vec![in alloc; 0u64; 8usize]?,
    };
    let alike = all_agree(dependents, segs, &mut plain);
    drop(plain);
    alike
}

#[test]
fn follows_as_plain_lists_do(rt: HostRuntime) -> Result<(), AllocError> {
    let mut dependents = Dependents::new(rt.alloc())?;
    let mut segs = Segs::new(rt.alloc(), 3, 3)?;
    let alike = stay_alike(rt.alloc(), &mut dependents, &mut segs);
    drop(segs);
    drop(dependents);
    assert!(rt; alike == Ok(true));
    Ok(())
}

// Placements at the edges, words, marks and summaries, and many pseudo-random steps that are compared with plain tables.
mod calls;
mod plain;
mod steps;

use self::plain::first_disagreement_with_plain_tables;
use self::steps::{Marking, Placing, Step, Writing, first_wrong};
use mps_base::{Addr, Rank, Refusal, ZoneSet};
use mps_seg::{Owner, Segs};
use std::alloc::{AllocError, Global};
use std::process::Abort;

/// Blocks fill gaps, new segments and the whole limit of three grains.
const PLACES: [Step; 20] = [
    Step::Place(Placing::Fill(0, 500, Ok(Addr(0x1000)))),
    Step::Place(Placing::Fill(0, 10, Ok(Addr(0x1fa0)))),
    Step::Place(Placing::Fill(0, 3, Ok(Addr(0x2000)))),
    Step::Place(Placing::Fill(0, 2, Ok(Addr(0x1ff0)))),
    Step::Place(Placing::Fill(
        1,
        513,
        Err(Refusal::CommitLimit {
            committed: 2,
            need: 2,
            limit: 3,
        }),
    )),
    Step::Place(Placing::Fill(1, 512, Ok(Addr(0x3000)))),
    Step::Place(Placing::Fill(
        1,
        1,
        Err(Refusal::CommitLimit {
            committed: 3,
            need: 1,
            limit: 3,
        }),
    )),
    Step::Place(Placing::Committed(3)),
    Step::Place(Placing::Next(0x1001, Some(Addr(0x2000)))),
    Step::Place(Placing::Next(0x3001, None)),
    Step::Place(Placing::Block(0x1f9f, Some(Addr(0x1000)))),
    Step::Place(Placing::Block(0x1fa0, Some(Addr(0x1fa0)))),
    Step::Place(Placing::Block(0x2018, None)),
    Step::Place(Placing::Free(0x1000, Some(Addr(0x1000)))),
    Step::Place(Placing::Block(0x1000, None)),
    Step::Place(Placing::Gap(Rank::Exact, 500, Some(Addr(0x1000)))),
    Step::Place(Placing::Gap(Rank::Exact, 510, None)),
    Step::Place(Placing::Gap(Rank::Weak, 1, None)),
    Step::Place(Placing::Limit(2, Err(Refusal::BelowCommitted))),
    Step::Place(Placing::Limit(4, Ok(()))),
];

/// A block moves after another, and its old words are free again.
const MOVED: [Step; 9] = [
    Step::Place(Placing::Fill(0, 4, Ok(Addr(0x1000)))),
    Step::Place(Placing::Fill(0, 3, Ok(Addr(0x1020)))),
    Step::Write(Writing::Word(0x1008, 7)),
    Step::Place(Placing::Move(0x1018, Some(Addr(0x1038)))),
    Step::Mark(Marking::Marks(0x1000, [false, false, false])),
    Step::Mark(Marking::Marks(0x1038, [false, false, true])),
    Step::Write(Writing::Words(0x1038, [0, 7, 0, 0])),
    Step::Place(Placing::Block(0x1000, None)),
    Step::Place(Placing::Gap(Rank::Exact, 4, Some(Addr(0x1000)))),
];

/// A reservation becomes a block, the block is freed, and its segment given back.
const RESERVATION: [Step; 9] = [
    Step::Place(Placing::Reserve(Ok(Addr(0x1000)))),
    Step::Place(Placing::Walk(0x1000, Some(Addr(0x1000)))),
    Step::Place(Placing::Walk(0x1008, None)),
    Step::Place(Placing::Segment(0x2fff, Some(Addr(0x1000)))),
    Step::Place(Placing::Segment(0x3000, None)),
    Step::Place(Placing::Give(0x2000, false)),
    Step::Place(Placing::Free(0x1ff8, Some(Addr(0x1000)))),
    Step::Place(Placing::Give(0x2000, true)),
    Step::Place(Placing::Committed(0)),
];

/// The words of a block are borrowed and written, cleared, written and copied over themselves.
const WORDS: [Step; 13] = [
    Step::Write(Writing::Size(4)),
    Step::Place(Placing::Fill(0, 4, Ok(Addr(0x1000)))),
    Step::Write(Writing::Two(0x1008, 7)),
    Step::Write(Writing::Words(0x1000, [0, 7, 7, 0])),
    Step::Write(Writing::Clear(0x1000, 4)),
    Step::Write(Writing::Word(0x1000, 5)),
    Step::Write(Writing::Held(0x1018, 9)),
    Step::Write(Writing::Words(0x1000, [5, 0, 0, 9])),
    Step::Write(Writing::Word(0x1008, 6)),
    Step::Write(Writing::CopyUp(0x1000, 2)),
    Step::Write(Writing::Words(0x1000, [5, 5, 6, 9])),
    Step::Write(Writing::Clear(0x1008, 1)),
    Step::Write(Writing::Words(0x1000, [5, 0, 6, 9])),
];

const IN_POOL_0: Owner = Owner {
    pool: 0,
    generation: 0,
};

/// The marks of a block in its life.
const MARKS: [Step; 28] = [
    Step::Place(Placing::Fill(0, 600, Ok(Addr(0x1000)))),
    Step::Mark(Marking::Marks(0x1000, [false, false, false])),
    Step::Mark(Marking::Policy(0x2ff8, None)),
    Step::Mark(Marking::Condemn(0x2ff8, true)),
    Step::Mark(Marking::Policy(0x2ff8, Some(IN_POOL_0))),
    Step::Mark(Marking::Policy(0x3000, None)),
    Step::Mark(Marking::NextCondemned(0x1000, Some(Addr(0x1000)))),
    Step::Mark(Marking::NextCondemned(0x1001, None)),
    Step::Mark(Marking::Marks(0x1000, [true, false, false])),
    Step::Mark(Marking::Keep(0x1000)),
    Step::Mark(Marking::Grey(0x1000)),
    Step::Mark(Marking::Marks(0x1000, [false, true, true])),
    Step::Mark(Marking::NextGrey(Rank::Exact, Some(Addr(0x1000)))),
    Step::Mark(Marking::NextGrey(Rank::Weak, None)),
    Step::Mark(Marking::GreyIn(0x2000, Some(Addr(0x1000)))),
    Step::Mark(Marking::Blacken(0x1000)),
    Step::Mark(Marking::NextGrey(Rank::Exact, None)),
    Step::Mark(Marking::GreyIn(0x1000, None)),
    Step::Mark(Marking::GreyAll(0x1000, true)),
    Step::Mark(Marking::GreyIn(0x1000, Some(Addr(0x1000)))),
    Step::Mark(Marking::Live(1, 600)),
    Step::Place(Placing::Free(0x1000, Some(Addr(0x1000)))),
    Step::Mark(Marking::Live(0, 0)),
    Step::Mark(Marking::Marks(0x1000, [true, false, false])),
    Step::Mark(Marking::End),
    Step::Mark(Marking::NextCondemned(0, None)),
    Step::Mark(Marking::Marks(0x1000, [false, false, false])),
    Step::Mark(Marking::Grains(0x1000, 2)),
];

/// Writes at holders in a segment and in none.
const SUMMARIES: [Step; 8] = [
    Step::Place(Placing::Fill(0, 600, Ok(Addr(0x1000)))),
    Step::Write(Writing::Note(0x2ff8, 0x3ff8)),
    Step::Write(Writing::Note(0x1000, 0x40000)),
    Step::Write(Writing::Note(0x3000, 0x1000)),
    Step::Write(Writing::Summary(0x1000, ZoneSet(0b1001))),
    Step::Write(Writing::Summary(0x3000, ZoneSet(0))),
    Step::Write(Writing::SetSummary(0x1000, ZoneSet(8))),
    Step::Write(Writing::Summary(0x1000, ZoneSet(8))),
];

/// The index of the first of these steps that answers otherwise in new segments of four grains.
fn first_wrong_of(alloc: Global, limit: u32, steps: &[Step]) -> Result<Option<usize>, AllocError> {
    let mut segs = Segs::new(alloc, 4, limit)?;
    let wrong = first_wrong(alloc, &mut segs, steps);
    drop(segs);
    Ok(wrong)
}

fn compare(rt: &impl Abort, alloc: Global, limit: u32, steps: &[Step]) -> Result<(), AllocError> {
    let wrong = first_wrong_of(alloc, limit, steps)?;
    assert_eq!(rt; wrong, None);
    Ok(())
}

#[test]
fn steps_answer_as_tables_say(rt: HostRuntime) -> Result<(), AllocError> {
    compare(&rt, rt.alloc(), 3, &PLACES)?;
    compare(&rt, rt.alloc(), 4, &RESERVATION)?;
    compare(&rt, rt.alloc(), 4, &MOVED)?;
    compare(&rt, rt.alloc(), 4, &WORDS)?;
    compare(&rt, rt.alloc(), 4, &MARKS)?;
    compare(&rt, rt.alloc(), 4, &SUMMARIES)
}

/// The first of 2,000 pseudo-random numbers by which the segments and plain tables disagree.
fn disagreement(alloc: Global) -> Result<Option<u64>, AllocError> {
    let mut segs = Segs::new(alloc, 4, 4)?;
    let seed = first_disagreement_with_plain_tables(alloc, &mut segs);
    drop(segs);
    seed
}

#[test]
fn agrees_with_plain_tables(rt: HostRuntime) -> Result<(), AllocError> {
    let seed = disagreement(rt.alloc())?;
    assert_eq!(rt; seed, None);
    Ok(())
}

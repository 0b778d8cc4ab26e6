// One call each, and what it is to answer.
use super::calls::{
    blacken_at, clear_at, condemn_over, copy_up, fill, free_over, gap, give_over, grains_over,
    grey_all_over, grey_at, grey_over, has_words, keep_at, marks_at, move_over, reserve_and_commit,
    set_summary_at, summary_at, walk_over, write_held, write_two, write_word,
};
use mps_base::{Addr, Rank, Refusal, ZoneSet};
use mps_seg::{Owner, Segs};
use std::alloc::Global;

/// A call, and its answer last.
pub(super) enum Step {
    Place(Placing),
    Mark(Marking),
    Write(Writing),
}

/// Blocks and segments.
pub(super) enum Placing {
    /// A block of words in a pool.
    Fill(u32, u32, Result<Addr, Refusal>),
    /// A block of 600 words by way of a reservation.
    Reserve(Result<Addr, Refusal>),
    /// The block over a byte is freed.
    Free(u64, Option<Addr>),
    /// The segment over an address is given back if it is empty.
    Give(u64, bool),
    /// The block over a byte.
    Block(u64, Option<Addr>),
    /// The segment over an address.
    Segment(u64, Option<Addr>),
    /// The lowest segment from an address on.
    Next(u64, Option<Addr>),
    /// The lowest block from an address on in the segment over it.
    Walk(u64, Option<Addr>),
    /// The block over a byte moves to the lowest gap of pool 0 that fits, and where it then lies.
    Move(u64, Option<Addr>),
    /// The lowest gap for words in pool 0.
    Gap(Rank, u32, Option<Addr>),
    /// How many grains are held.
    Committed(u32),
    /// Another limit.
    Limit(u32, Result<(), Refusal>),
}

/// The marks of a collection.
pub(super) enum Marking {
    /// The segment over an address is condemned if there is one.
    Condemn(u64, bool),
    /// The pool and the generation of the condemned segment over an address.
    Policy(u64, Option<Owner>),
    /// The lowest condemned segment from an address on.
    NextCondemned(u64, Option<Addr>),
    /// A block is kept.
    Keep(u64),
    /// A block becomes grey.
    Grey(u64),
    /// All blocks of the segment over an address become grey, if there is one.
    GreyAll(u64, bool),
    /// A block is grey no longer.
    Blacken(u64),
    /// The collection is over.
    End,
    /// Whether a block is white, kept and grey.
    Marks(u64, [bool; 3]),
    /// A grey block of a rank.
    NextGrey(Rank, Option<Addr>),
    /// The lowest grey block of the segment over an address.
    GreyIn(u64, Option<Addr>),
    /// How many blocks there are, and how many words they have.
    Live(usize, usize),
    /// How many grains the segment over an address has.
    Grains(u64, u32),
}

/// Words and summaries.
pub(super) enum Writing {
    /// How many grains the arena has.
    Size(u32),
    /// The two words from an address on, borrowed to be written.
    Two(u64, u64),
    /// The word at an address.
    Word(u64, u64),
    /// The word at an address in a segment.
    Held(u64, u64),
    /// Words are copied to the word after the first one and the words after that.
    CopyUp(u64, u32),
    /// Words are cleared.
    Clear(u64, u32),
    /// The four words from an address on.
    Words(u64, [u64; 4]),
    /// A reference is stored at a holder, to a target.
    Note(u64, u64),
    /// The summary of a segment is set.
    SetSummary(u64, ZoneSet),
    /// The summary of a segment.
    Summary(u64, ZoneSet),
}

fn places_well(alloc: Global, segs: &mut Segs, step: &Placing) -> bool {
    match step {
        Placing::Fill(pool, words, made) => fill(alloc, segs, *pool, *words) == *made,
        Placing::Reserve(made) => reserve_and_commit(alloc, segs) == *made,
        Placing::Free(byte, began) => free_over(segs, *byte) == *began,
        Placing::Give(at, given) => give_over(alloc, segs, Addr(*at)) == *given,
        Placing::Block(byte, began) => segs.block_at(*byte) == *began,
        Placing::Segment(at, base) => segs.segment_of(Addr(*at)) == *base,
        Placing::Next(from, base) => segs.next_segment(Addr(*from)) == *base,
        Placing::Walk(from, began) => walk_over(segs, Addr(*from)) == *began,
        Placing::Move(byte, to) => move_over(segs, *byte) == *to,
        Placing::Gap(rank, words, at) => gap(segs, 0, *rank, *words) == *at,
        Placing::Committed(grains) => segs.committed() == *grains,
        Placing::Limit(limit, set) => segs.set_limit(*limit) == *set,
    }
}

fn marks_well(segs: &mut Segs, step: &Marking) -> bool {
    match step {
        Marking::Condemn(at, there) => condemn_over(segs, Addr(*at)) == *there,
        Marking::Policy(at, owner) => segs.policy_at(Addr(*at)) == *owner,
        Marking::NextCondemned(from, base) => segs.next_condemned(Addr(*from)) == *base,
        Marking::Keep(at) => keep_at(segs, Addr(*at)),
        Marking::Grey(at) => grey_at(segs, Addr(*at)),
        Marking::GreyAll(at, there) => grey_all_over(segs, Addr(*at)) == *there,
        Marking::Blacken(at) => blacken_at(segs, Addr(*at)),
        Marking::End => {
            segs.end_collection();
            true
        }
        Marking::Marks(at, marks) => marks_at(segs, Addr(*at)) == *marks,
        Marking::NextGrey(rank, at) => segs.next_grey(*rank) == *at,
        Marking::GreyIn(at, lowest) => grey_over(segs, Addr(*at)) == *lowest,
        Marking::Live(blocks, words) => {
            segs.live_blocks() == *blocks && segs.live_words() == *words
        }
        Marking::Grains(at, grains) => grains_over(segs, Addr(*at)) == *grains,
    }
}

fn writes_well(segs: &mut Segs, step: &Writing) -> bool {
    match step {
        Writing::Size(grains) => segs.grains() == *grains,
        Writing::Two(at, word) => write_two(segs, Addr(*at), *word),
        Writing::Word(at, word) => write_word(segs, Addr(*at), *word),
        Writing::Held(at, word) => write_held(segs, Addr(*at), *word),
        Writing::CopyUp(at, words) => copy_up(segs, Addr(*at), *words),
        Writing::Clear(at, words) => clear_at(segs, Addr(*at), *words),
        Writing::Words(at, words) => has_words(segs, Addr(*at), words),
        Writing::Note(holder, target) => {
            segs.note_write(Addr(*holder), Addr(*target));
            true
        }
        Writing::SetSummary(base, zones) => set_summary_at(segs, Addr(*base), *zones),
        Writing::Summary(base, zones) => summary_at(segs, Addr(*base)) == *zones,
    }
}

fn holds(alloc: Global, segs: &mut Segs, step: &Step) -> bool {
    match step {
        Step::Place(step) => places_well(alloc, segs, step),
        Step::Mark(step) => marks_well(segs, step),
        Step::Write(step) => writes_well(segs, step),
    }
}

/// The index of the first step that answers otherwise.
pub(super) fn first_wrong(alloc: Global, segs: &mut Segs, steps: &[Step]) -> Option<usize> {
    for index in 0..steps.len() {
        if !holds(alloc, segs, &steps[index]) {
            return Some(index);
        }
    }
    None
}

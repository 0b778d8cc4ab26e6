// Searches at the edges of grains, and many pseudo-random marks that are compared with plain lists.
ghost use Rattle.std.specs.Prelude.{◌≡◌, length};

use mps_base::Rank;
use mps_marks::Marks;
use std::alloc::{AllocError, Global};
use std::process::Abort;

/// The lowest grey block in a range, None if the table has no such range.
fn lowest(marks: &Marks, rank: Rank, from: usize, to: usize) -> Option<usize> {
    if to <= marks.words() {
        marks.grey_in(rank, from, to)
    } else {
        None
    }
}

/// A search for the lowest grey block of a rank, and the answer.
struct Search {
    rank: Rank,
    from: usize,
    to: usize,
    answer: Option<usize>,
}

/// What is asked if the blocks at 511 and 51,199 are grey of rank exact, and the block at 600 of rank weak.
const SEARCHES: [Search; 8] = [
    Search {
        rank: Rank::Exact,
        from: 0,
        to: 51_200,
        answer: Some(511),
    },
    Search {
        rank: Rank::Exact,
        from: 0,
        to: 511,
        answer: None,
    },
    Search {
        rank: Rank::Exact,
        from: 511,
        to: 512,
        answer: Some(511),
    },
    Search {
        rank: Rank::Exact,
        from: 512,
        to: 51_200,
        answer: Some(51_199),
    },
    Search {
        rank: Rank::Exact,
        from: 512,
        to: 51_199,
        answer: None,
    },
    Search {
        rank: Rank::Exact,
        from: 600,
        to: 600,
        answer: None,
    },
    Search {
        rank: Rank::Weak,
        from: 0,
        to: 51_200,
        answer: Some(600),
    },
    Search {
        rank: Rank::Weak,
        from: 601,
        to: 51_200,
        answer: None,
    },
];

fn compare_search(rt: &impl Abort, marks: &Marks, search: &Search) {
    let answer = lowest(marks, search.rank, search.from, search.to);
    assert!(rt;
        answer == search.answer,
        "from {} to {}",
        search.from,
        search.to
    );
}

fn compare_searches(rt: &impl Abort, marks: &Marks) {
    for search in &SEARCHES {
        compare_search(rt, marks, search);
    }
}

#[test]
fn searches_at_the_edges_of_grains(rt: HostRuntime) -> Result<(), AllocError> {
    let mut marks = Marks::new(rt.alloc(), 100)?;
    marks.set_grey(511, Rank::Exact);
    marks.set_grey(51_199, Rank::Exact);
    marks.set_grey(600, Rank::Weak);
    compare_searches(&rt, &marks);
    drop(marks);
    Ok(())
}

/// The marks of two blocks in their lives.
fn compare_marks(rt: &impl Abort, marks: &mut Marks)
    requires { length marks.old.kept ≡ 1024 }
{
    assert!(rt; marks.next_grey(Rank::Weak).is_none());
    marks.set_grey(600, Rank::Weak);
    marks.keep(600);
    assert!(rt; marks.is_kept(600) && marks.is_grey(600));
    assert!(rt; marks.next_grey(Rank::Exact).is_none());
    marks.blacken(600);
    assert!(rt; marks.is_kept(600) && !marks.is_grey(600));
    marks.clear(600);
    marks.set_grey(7, Rank::Exact);
    assert!(rt; !marks.is_kept(600));
    marks.clear_all();
    assert_eq!(rt; marks.grey_count(Rank::Exact), 0);
}

#[test]
fn marks_come_and_go(rt: HostRuntime) -> Result<(), AllocError> {
    let mut marks = Marks::new(rt.alloc(), 2)?;
    compare_marks(&rt, &mut marks);
    drop(marks);
    Ok(())
}

/// The index of the first `true`, if there is one.
fn first_set(bits: &[bool]) -> Option<usize> {
    bits.iter().position(|bit| *bit)
}

/// Checks what the marks answer at a rank against a plain list of the grey blocks.
fn agrees(rt: &impl Abort, marks: &mut Marks, rank: Rank, plain: &[bool]) {
    let count = plain.iter().filter(|bit| **bit).count();
    assert_eq!(rt; marks.grey_count(rank), count);
    match marks.next_grey(rank) {
        Some(word) => assert_eq!(rt; plain.get(word).copied(), Some(true)),
        None => assert_eq!(rt; count, 0),
    }
}

/// Writes an entry of a plain list.
fn write(plain: &mut [bool], word: usize, value: bool) {
    if word < plain.len() {
        plain[word] = value;
    }
}

/// Marks as plain lists.
#[derive(Drop)]
struct Plain {
    exact: Vec<bool>,
    weak: Vec<bool>,
}

/// One pseudo-random change of the marks and of the plain lists.
fn change(marks: &mut Marks, plain: &mut Plain, kind: u64, word: usize) {
    if word >= marks.words() {
        return;
    }
    match kind {
        0 => {
            marks.set_grey(word, Rank::Exact);
            write(&mut plain.exact, word, true);
        }
        1 => {
            marks.set_grey(word, Rank::Weak);
            write(&mut plain.weak, word, true);
        }
        _ => {
            marks.blacken(word);
            write(&mut plain.exact, word, false);
            write(&mut plain.weak, word, false);
        }
    }
}

/// Compares all answers after a change.
fn compare_step(rt: &impl Abort, marks: &mut Marks, plain: &Plain) {
    agrees(rt, marks, Rank::Exact, &plain.exact);
    agrees(rt, marks, Rank::Weak, &plain.weak);
    let got = lowest(marks, Rank::Exact, 0, 1536);
    assert!(rt; got == first_set(&plain.exact));
}

/// 2,000 pseudo-random changes.
fn compare_steps(rt: &impl Abort, marks: &mut Marks, plain: &mut Plain) {
    let mut seed = 1u64;
    for _ in 0..2000 {
        seed = seed
            .wrapping_mul(6364136223846793005)
            .wrapping_add(1442695040888963407);
        let word = ((seed >> 40) % 96 * 16) as usize;
        change(marks, plain, (seed >> 33) % 4, word);
        compare_step(rt, marks, plain);
    }
}

/// The plain lists of three grains without a mark.
fn plain_lists(alloc: Global) -> Result<Plain, AllocError> {
    Ok(Plain {
        exact: vec![in alloc; false; 1536]?,
        weak: vec![in alloc; false; 1536]?,
    })
}

#[test]
fn agrees_with_plain_lists(rt: HostRuntime) -> Result<(), AllocError> {
    let mut plain = plain_lists(rt.alloc())?;
    let mut marks = Marks::new(rt.alloc(), 3)?;
    compare_steps(&rt, &mut marks, &mut plain);
    drop(marks);
    drop(plain);
    Ok(())
}

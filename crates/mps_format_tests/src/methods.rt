// Tables of what single methods answer, at each format through its bound.
ghost use Rattle.std.specs.Prelude.{◌≡◌, ◌≤◌, ◌%◌, length};
ghost use Rattle.mps_format.specs.Layout.{IsPadLength};

use mps_base::Addr;
use mps_format::{AnyFormat, Format, Front, Leaf, Mapped};
use std::alloc::Global;
use std::process::Abort;
use std::test::Fail;

/// The first reference from a cell on, if the format accepts the head.
fn first_reference<F: Format>(format: &F, head: u64, from: u32) -> Option<u32> {
    if format.accepts(head) {
        format.ref_from(head, from)
    } else {
        None
    }
}

/// The same for the format of a number.
fn first_reference_by(number: u32, head: u64, from: u32) -> Option<u32> {
    match number {
        1 => first_reference(&Front, head, from),
        2 => first_reference(&Mapped, head, from),
        _ => first_reference(&Leaf, head, from),
    }
}

/// A format's number, a head, a cell, and the first reference from that cell on.
const REFERENCES: [(u32, u64, u32, Option<u32>); 15] = [
    (1, 0x1_0000_0301, 0, Some(1)),
    (1, 0x1_0000_0301, 1, Some(1)),
    (1, 0x1_0000_0301, 2, None),
    (1, 0x201, 0, None),
    (1, 0x2_0000_0301, 2, Some(2)),
    (1, 0xffff_0100_0001, 65_535, Some(65_535)),
    (1, 0xffff_0100_0001, 65_536, None),
    (2, 0x6_0000_0302, 0, Some(1)),
    (2, 0x6_0000_0302, 2, Some(2)),
    (2, 0x6_0000_0302, 3, None),
    (2, 0x202, 0, None),
    (2, 0xffff_fffe_0000_2002, 31, Some(31)),
    (2, 0xffff_fffe_0000_2002, 32, None),
    (3, 0x203, 0, None),
    (3, 0x100_0003, 4_294_967_295, None),
];

fn check_first_reference(rt: &impl Abort, case: &(u32, u64, u32, Option<u32>)) {
    let (number, head, from, want) = *case;
    assert!(rt; 1 <= number && number <= 3);
    assert_eq!(rt; first_reference_by(number, head, from), want);
    assert_eq!(rt;
        first_reference(&AnyFormat::numbered(number), head, from),
        want
    );
}

#[test]
fn first_references(rt: HostRuntime) {
    for case in &REFERENCES {
        check_first_reference(&rt, case);
    }
}

/// A reference word leads to this target, and to another it is that word.
fn check_word<F: Format>(rt: &impl Abort, format: &F, word: u64, target: u64, to: u64, want: u64)
    requires { to % 8 ≡ 0 }
{
    assert_eq!(rt; format.target(word), Addr(target));
    assert_eq!(rt; format.retarget(word, Addr(to)), want);
}

/// So it is in each format.
fn check_word_in_each(rt: &impl Abort, word: u64, target: u64, to: u64, want: u64)
    requires { to % 8 ≡ 0 }
{
    check_word(rt, &Front, word, target, to, want);
    check_word(rt, &Mapped, word, target, to, want);
    check_word(rt, &Leaf, word, target, to, want);
    check_word(rt, &AnyFormat::numbered(2), word, target, to, want);
}

/// A word, its target, a new target, and the word that has it.
const WORDS: [(u64, u64, u64, u64); 7] = [
    (0, 0, 0, 0),
    (0x2000, 0x2000, 0x3008, 0x3008),
    (0x2005, 0x2000, 0x3008, 0x300d),
    (0x2007, 0x2000, 0, 7),
    (5, 0, 0x3008, 0x300d),
    (0xffff_ffff_ffff_ffff, 0xffff_ffff_ffff_fff8, 8, 15),
    (1, 0, 0xffff_ffff_ffff_fff8, 0xffff_ffff_ffff_fff9),
];

#[test]
fn targets_and_tags(rt: HostRuntime) {
    for (word, target, to, want) in WORDS {
        assert!(rt; to % 8 == 0);
        check_word_in_each(&rt, word, target, to, want);
    }
}

/// Words, and the target of the whole forwarded block that begins them.
const FORWARDED: [(&[u64], Option<Addr>); 12] = [
    (&[], None),
    (&[0x204], None),
    (&[0x204, 0x2000], Some(Addr(0x2000))),
    (&[0x304, 0x2000], None),
    (&[0x304, 0x2000, 7], Some(Addr(0x2000))),
    (&[0x304, 0x2000, 7, 7], Some(Addr(0x2000))),
    (&[0x104, 0x2000], None),
    (&[0x4, 0x2000], None),
    (&[0x100_0104, 0x2000], None),
    (&[0x1_0000_0204, 0x2000], None),
    (&[0x203, 0x2000], None),
    (&[0x205, 0x2000], None),
];

/// The words begin with a block that was forwarded to this target, or with none.
fn check_forwarded<F: Format>(rt: &impl Abort, format: &F, words: &[u64], want: Option<Addr>) {
    assert_eq!(rt; format.forwarded(words), want);
}

/// So it is in each format.
fn check_forwarded_in_each(rt: &impl Abort, words: &[u64], want: Option<Addr>) {
    check_forwarded(rt, &Front, words, want);
    check_forwarded(rt, &Mapped, words, want);
    check_forwarded(rt, &Leaf, words, want);
    check_forwarded(rt, &AnyFormat::numbered(1), words, want);
}

#[test]
fn forwarded_blocks(rt: HostRuntime) {
    for (words, want) in &FORWARDED {
        check_forwarded_in_each(&rt, words, *want);
    }
}

/// Makes words one pad, and gives its length as it is then skipped.
fn pad_and_skip<F: Format>(format: &F, mem: &mut [u64]) -> u32
    requires { IsPadLength (length mem.old) }
    ensures { result ≡ length mem.new }
{
    format.pad(mem);
    format.skip(mem)
}

/// A pad of this length begins with this word and is skipped whole.
fn check_pad<F: Format>(rt: &impl Abort, format: &F, mem: &mut [u64], want: u64)
    requires { IsPadLength (length mem.old) }
{
    assert_eq!(rt; pad_and_skip(format, mem) as usize, mem.len());
    assert_eq!(rt; mem[0], want);
}

/// The length of a pad, and its head.
const PADS: [(usize, u64); 5] = [
    (1, 0x105),
    (2, 0x205),
    (5, 0x505),
    (65_535, 0xff_ff05),
    (65_536, 0x100_0005),
];

/// So it is in each format, in words of which the pad takes the first.
fn check_pad_in_each(rt: &impl Abort, memory: &mut [u64], words: usize, want: u64)
    requires { 65536 ≤ length memory.old }
{
    assert!(rt; 1 <= words && words <= 65_536);
    let mem = &mut memory[..words];
    check_pad(rt, &Front, mem, want);
    check_pad(rt, &Mapped, mem, want);
    check_pad(rt, &Leaf, mem, want);
    check_pad(rt, &AnyFormat::numbered(3), mem, want);
}

fn check_pads(rt: &impl Abort, memory: &mut [u64])
    requires { 65536 ≤ length memory.old }
{
    for (words, want) in &PADS {
        check_pad_in_each(rt, memory, *words, *want);
    }
}

#[test]
fn pads_of_each_length(rt: HostRuntime) -> Result<(), Fail> {
    let alloc: Global = rt.alloc();
    let mut memory = vec![in alloc; 0u64; 65_536]?;
    check_pads(&rt, &mut memory);
    drop(memory);
    Ok(())
}

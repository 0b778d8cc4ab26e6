// What the formats say of the words of the profile's examples and of their edges, and a format of the test's own.
ghost use Rattle.std.specs.Prelude.{◌≡◌, ℕ, ◌<◌, ◌≤◌, IsTrue, IfOk, length, vec_len, slice_index};
ghost use Rattle.mps_format.specs.Blocks.{IsBlock, BeginsBlock, BeginsForwarded};

use mps_base::Addr;
use mps_format::{AnyFormat, Format, Front, Head, Leaf, Mapped, put_head_text};
use std::alloc::Global;
use std::process::Abort;
use std::test::Fail;

/// A format whose last two cells are references.
#[derive(Clone, Copy)]
struct Tail;

impl Format for Tail {
    ghost use Rattle.mps_format.specs.TailExample.{tail_layout, tail_is_lawful};

    ghost layout = { λ _. tail_layout };

    fn accepts(&self, head: u64) -> bool {
        let size = head / 8;
        head % 8 == 1 && 3 <= size && size <= 65_536
    }

    fn words(&self, head: u64) -> u32 {
        (head / 8) as u32
    }

    fn skip(&self, mem: &[u64]) -> u32 {
        (mem[0] / 8) as u32
    }

    fn ref_from(&self, head: u64, from: u32) -> Option<u32> {
        let size = self.words(head);
        let first = from.max(size - 2);
        if first < size { Some(first) } else { None }
    }

    fn next_ref(&self, block: &[u64], from: u32) -> Option<u32> {
        self.ref_from(block[0], from)
    }

    fn forward(&self, block: &mut [u64], to: Addr) {
        block[0] = block[0] + 1;
        block[1] = to.0;
    }

    fn forwarded(&self, mem: &[u64]) -> Option<Addr> {
        let head = *mem.first()?;
        let size = head / 8;
        if head % 8 == 2 && 2 <= size && size <= 65_536 && size as usize <= mem.len() {
            Some(Addr(mem[1]))
        } else {
            None
        }
    }

    fn pad(&self, mem: &mut [u64]) {
        mem[0] = 8 * mem.len() as u64 + 3;
    }

    fn target(&self, word: u64) -> Addr {
        Addr(word - word % 8)
    }

    fn retarget(&self, word: u64, to: Addr) -> u64 {
        to.0 + word % 8
    }

    ghost lawful = { λ _. tail_is_lawful };
}

/// The reference cells of a block, as the bits of a mask, and how many there are.
fn references_of<F: Format>(format: &F, block: &[u64]) -> (u64, u32)
    requires { IsBlock (F.layout format.now) block.now }
    ensures at_most { result.1 ≤ length block.now }
    ensures none { (k : ℕ) → IsTrue ((F.layout format.now).is_reference (slice_index block.now 0) k) → 0 < result.1 }
{
    let mut mask = 0;
    let mut count = 0;
    let mut from = 0;
    while let Some(cell) = format.next_ref(block, from) {
        if cell < 64 {
            mask |= 1 << cell;
        }
        count += 1;
        from = cell + 1;
    }
    (mask, count)
}

/// Where the block that was at `here` now is: there, or where it was forwarded to.
fn place_now<F: Format>(format: &F, mem: &[u64], here: Addr) -> Addr
    ensures stayed { BeginsBlock (F.layout format.now) mem.now → result ≡ here }
    ensures moved { (size : ℕ) → BeginsForwarded (F.layout format.now) mem.now size → result.0 ≡ slice_index mem.now 1 }
{
    match format.forwarded(mem) {
        Some(to) => to,
        None => here,
    }
}

/// Forwards a block, and gives its length as it is then skipped.
fn forward_and_skip<F: Format>(format: &F, block: &mut [u64], to: Addr) -> u32
    requires { IsBlock (F.layout format.now) block.old }
    ensures same { result ≡ length block.new }
    ensures moved { BeginsForwarded (F.layout format.now) block.new (length block.old) }
    ensures target { slice_index block.new 1 ≡ to.0 }
{
    format.forward(block, to);
    format.skip(block)
}

/// The words of a head, or 0 if the format doesn't accept it.
fn size_of<F: Format>(format: &F, head: u64) -> u32 {
    if format.accepts(head) {
        format.words(head)
    } else {
        0
    }
}

/// The block is skipped, is where it is, and has these references, as a mask of its cells.
fn check_fresh<F: Format>(rt: &impl Abort, format: &F, block: &[u64], want: u64)
    requires { IsBlock (F.layout format.now) block.now }
{
    assert_eq!(rt; format.skip(block) as usize, block.len());
    assert_eq!(rt; place_now(format, block, Addr(0x1000)).0, 0x1000);
    let (mask, count) = references_of(format, block);
    assert_eq!(rt; mask, want);
    assert_eq!(rt; count, want.count_ones());
}

/// The block is forwarded, found at its new place, and still has its size. Then its words become one pad.
fn check_moved<F: Format>(rt: &impl Abort, format: &F, block: &mut [u64])
    requires { IsBlock (F.layout format.now) block.old }
{
    assert_eq!(rt;
        forward_and_skip(format, block, Addr(0x2000)) as usize,
        block.len()
    );
    assert_eq!(rt; place_now(format, block, Addr(0x1000)).0, 0x2000);
    assert_eq!(rt; size_of(format, block[0]), 0);
    format.pad(block);
    assert_eq!(rt; format.skip(block) as usize, block.len());
    assert_eq!(rt; place_now(format, block, Addr(0x1000)).0, 0x1000);
    assert_eq!(rt; size_of(format, block[0]), 0);
}

/// The format accepts the head with this size and these references, or, if the size is 0, doesn't accept it.
fn check_head<F: Format>(
    rt: &impl Abort,
    format: &F,
    memory: &mut [u64],
    head: u64,
    size: u32,
    want: u64,
)
    requires { 65536 ≤ length memory.old }
{
    assert_eq!(rt; size_of(format, head), size, "size of {head}");
    if format.accepts(head) {
        let block = &mut memory[..format.words(head) as usize];
        block[0] = head;
        check_fresh(rt, format, block, want);
        check_moved(rt, format, block);
    }
}

/// The memory that the largest block takes, in words.
fn memory(alloc: Global) -> Result<Vec<u64>, Fail>
    ensures { IfOk result (λ v. vec_len v ≡ 65536) }
{
    Ok(vec![in alloc; 0; 65_536]?)
}

/// A format's number, a head, its size or 0 if it is none, and its references.
const HEADS: [(u32, u64, u32, u64); 21] = [
    (1, 0x1_0000_0301, 3, 0b10),
    (1, 0x201, 2, 0),
    (1, 0x1_0000_0201, 2, 0b10),
    (1, 0x2_0000_0301, 3, 0b110),
    (1, 0x3_0000_0301, 0, 0),
    (1, 0x2_0100_0001, 65_536, 0b110),
    (1, 0x100_0101, 0, 0),
    (1, 0x1_0000_0100_0001, 0, 0),
    (1, 0x101, 0, 0),
    (2, 0x6_0000_0302, 3, 0b110),
    (2, 0x202, 2, 0),
    (2, 0x7_0000_0302, 0, 0),
    (2, 0x8_0000_0302, 0, 0),
    (2, 0xffff_fffe_0000_2002, 32, 0xffff_fffe),
    (2, 0x2102, 0, 0),
    (2, 0x102, 0, 0),
    (3, 0x203, 2, 0),
    (3, 0x100_0003, 65_536, 0),
    (3, 0x100_0103, 0, 0),
    (3, 0x103, 0, 0),
    (3, 0x1_0000_0203, 0, 0),
];

/// The format of this number accepts the head with this size and these references, or doesn't.
fn check_numbered(rt: &impl Abort, memory: &mut [u64], case: &(u32, u64, u32, u64))
    requires { 65536 ≤ length memory.old }
{
    let (number, head, size, want) = *case;
    assert!(rt; 1 <= number && number <= 3);
    check_head(rt, &AnyFormat::numbered(number), memory, head, size, want);
}

fn check_heads(rt: &impl Abort, memory: &mut [u64])
    requires { 65536 ≤ length memory.old }
{
    for case in &HEADS {
        check_numbered(rt, memory, case);
    }
}

#[test]
fn heads_of_each_format(rt: HostRuntime) -> Result<(), Fail> {
    let mut memory = memory(rt.alloc())?;
    check_heads(&rt, &mut memory);
    drop(memory);
    Ok(())
}

/// A head of 3 words with this tag is one of each format exactly if the tag is that format's.
fn check_tag(rt: &impl Abort, memory: &mut [u64], tag: u64)
    requires fits { 65536 ≤ length memory.old }
    requires byte { tag < 256 }
{
    check_head(
        rt,
        &Front,
        memory,
        0x300 + tag,
        if tag == 1 { 3 } else { 0 },
        0,
    );
    check_head(
        rt,
        &Mapped,
        memory,
        0x300 + tag,
        if tag == 2 { 3 } else { 0 },
        0,
    );
    check_head(
        rt,
        &Leaf,
        memory,
        0x300 + tag,
        if tag == 3 { 3 } else { 0 },
        0,
    );
}

/// So it is for every tag.
fn check_tags(rt: &impl Abort, memory: &mut [u64])
    requires { 65536 ≤ length memory.old }
{
    for tag in 0..256 {
        check_tag(rt, memory, tag);
    }
}

/// The format of the test's own accepts its heads, and no others.
fn check_tail(rt: &impl Abort, memory: &mut [u64])
    requires { 65536 ≤ length memory.old }
{
    check_head(rt, &Tail, memory, 41, 5, 0b11000);
    check_head(rt, &Tail, memory, 17, 0, 0);
}

#[test]
fn each_tag_with_a_plausible_rest(rt: HostRuntime) -> Result<(), Fail> {
    let mut memory = memory(rt.alloc())?;
    check_tags(&rt, &mut memory);
    check_tail(&rt, &mut memory);
    drop(memory);
    Ok(())
}

#[test]
fn words_of_forwarded_blocks_pads_and_references(rt: HostRuntime) {
    let mut block = [0x203, 7];
    Leaf.forward(&mut block, Addr(0x3008));
    assert_eq!(rt; block, [0x204, 0x3008]);
    let mut words = [9, 9, 9, 9, 9];
    Leaf.pad(&mut words);
    assert_eq!(rt; words[0], 0x505);
    let mut word = [9];
    Front.pad(&mut word);
    assert_eq!(rt; word, [0x105]);
    let nothing: [u64; 0] = [];
    assert_eq!(rt; Front.forwarded(&nothing), None);
    assert_eq!(rt; Front.forwarded(&[0x304, 0x2000]), None);
    assert_eq!(rt; Mapped.target(0x2005), Addr(0x2000));
    assert_eq!(rt; Mapped.retarget(0x2005, Addr(0x3008)), 0x300d);
    assert_eq!(rt; Mapped.retarget(0x2005, Addr(0)), 5);
}

/// A text, and the word that it represents.
const HEAD_TEXTS: [(&[u8], u64); 9] = [
    (b"f:3:1", 4_294_968_065),
    (b"f:2:0", 0x201),
    (b"m:3:6", 0x6_0000_0302),
    (b"l:2", 0x203),
    (b"l:65536", 0x100_0003),
    (b"l:65537", 0),
    (b"f:3:3", 0),
    (b"m:16777218:0", 0),
    (b"f:18446744073709551615:18446744073709551615", 0),
];

/// Texts of no head.
const OTHER_TEXTS: [&[u8]; 12] = [
    b"",
    b"f",
    b"f:3",
    b"f:3:",
    b"f:03:1",
    b"f:3:1:",
    b"f:+3:1",
    b"x:3",
    b"l:2:0",
    b"l:",
    b"l: 2",
    b"l:18446744073709551616",
];

/// A head has this text.
fn check_text(rt: &impl Abort, head: &Head, text: &[u8]) {
    let mut out = [0; Head::MAX_TEXT_BYTES];
    let length = head.put_text(&mut out);
    assert_eq!(rt; out.get(..length), Some(text));
}

/// The word of a head has this text, if it is one.
fn check_text_of_word(rt: &impl Abort, word: u64, text: &[u8]) {
    let mut out = [0; Head::MAX_TEXT_BYTES];
    if word != 0 {
        let length = put_head_text(word, &mut out);
        assert_eq!(rt; out.get(..length), Some(text));
    }
}

/// A text is read as a head that represents this word, and printed again.
fn check_head_text(rt: &impl Abort, text: &[u8], word: u64) {
    let head = Head::parse(text).expect(rt, "a head text");
    assert_eq!(rt; head.word(), word);
    check_text(rt, &head, text);
    check_text_of_word(rt, word, text);
}

#[test]
fn head_texts(rt: HostRuntime) {
    for (text, word) in HEAD_TEXTS {
        check_head_text(&rt, text, word);
    }
    for text in OTHER_TEXTS {
        assert_eq!(rt; Head::parse(text), None);
    }
}

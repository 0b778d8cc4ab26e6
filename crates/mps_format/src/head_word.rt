// A head word as three numbers, and what the formats of this crate share: the heads of forwarded blocks and of pads.
ghost use Rattle.std.specs.Prelude.{◌≡◌, ℕ, ◌≤◌, ◌%◌, ◌^◌, ◌<◌, length, slice_index, OnSome};
ghost use Rattle.mps_format.specs.Layout.{IsBlockSize, IsPadLength};
ghost use Rattle.mps_format.specs.Fields.{tag_field, size_field, extra_field, forwarded_word, pad_word};
ghost use Rattle.mps_format.specs.References.{target_of, with_target};

use mps_base::Addr;

/// The most words that a block or a pad has.
pub const MAX_WORDS: u32 = 65_536;

/// The tag of a head of the format `front`.
pub const FRONT: u64 = 1;

/// The tag of a head of the format `mapped`.
pub const MAPPED: u64 = 2;

/// The tag of a head of the format `leaf`.
pub const LEAF: u64 = 3;

/// The tag of a forwarded block's head.
const FORWARDED: u64 = 4;

/// The tag of a pad's head.
const PAD: u64 = 5;

/// The number in the bits 0 to 7, which says of which kind the head is.
pub fn tag_of_head(head: u64) -> u64
    ensures { result ≡ tag_field head }
{
    head % 0x100
}

/// The number in the bits 8 to 31, in words.
pub fn size_of_head(head: u64) -> u32
    ensures { result ≡ size_field head }
{
    (head / 0x100 % 0x100_0000) as u32
}

/// The number in the bits 32 to 63.
pub fn extra_of_head(head: u64) -> u32
    ensures { result ≡ extra_field head }
{
    (head / 0x1_0000_0000) as u32
}

/// Writes the head of a forwarded block over the head of a block, and the target into word 1.
pub fn write_forwarded(block: &mut [u64], to: Addr)
    requires at_least { 2 ≤ length block.old }
    requires size { length block.old ≡ size_field (slice_index block.old 0) }
    ensures head { slice_index block.new 0 ≡ forwarded_word (length block.old) }
    ensures target { slice_index block.new 1 ≡ to.0 }
{
    block[0] = FORWARDED + 0x100 * u64::from(size_of_head(block[0]));
    block[1] = to.0;
}

/// The target of the forwarded block that begins `mem`.
pub fn target_of_forwarded(mem: &[u64]) -> Option<Addr>
    ensures complete { (size : ℕ) → IsBlockSize size → size ≤ length mem.now → slice_index mem.now 0 ≡ forwarded_word size
        → result ≡ Some (record { 0 = slice_index mem.now 1 }) }
    ensures sound { OnSome result ((size : ℕ) × (IsBlockSize size × (size ≤ length mem.now)
        × (slice_index mem.now 0 ≡ forwarded_word size))) }
{
    let head = *mem.first()?;
    let size = size_of_head(head);
    if head != FORWARDED + 0x100 * u64::from(size) {
        return None;
    }
    if 2 <= size && size <= MAX_WORDS && size as usize <= mem.len() {
        Some(Addr(mem[1]))
    } else {
        None
    }
}

/// Writes the head of a pad.
pub fn write_pad(mem: &mut [u64])
    requires { IsPadLength (length mem.old) }
    ensures { slice_index mem.new 0 ≡ pad_word (length mem.old) }
{
    mem[0] = PAD + 0x100 * mem.len() as u64;
}

/// The address in a reference word.
pub fn target_of_word(word: u64) -> Addr
    ensures { result.0 ≡ target_of word }
{
    Addr(word - word % 8)
}

/// The reference word with this target and the tag of `word`.
pub fn word_with_target(word: u64, to: Addr) -> u64
    requires { to.0 % 8 ≡ 0 }
    ensures { result ≡ with_target word to.0 }
{
    to.0 + word % 8
}

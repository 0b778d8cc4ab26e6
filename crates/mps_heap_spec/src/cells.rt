// The cells of a block, as its format reads them.
#![tactic(auto)]

ghost use Rattle.std.specs.Prelude.{◌≡◌, ◌+◌, ◌%◌, ◌<◌, ◌^◌, slice_set, IsTrue, IfOk};
ghost use Rattle.mps_base.specs.Address.{word_of};
ghost use Rattle.mps_model.specs.Graph.{has_references};
ghost use Rattle.mps_model.specs.Tagging.{tag_count};
ghost use Rattle.mps_heap_spec.specs.Finding.{cell_at, number_cell_at, reference_cell_at, retagged, retargeted};
ghost use Rattle.mps_heap_spec.specs.Referring.{referring};

use crate::{Block, CellFound};
use mps_base::{Addr, BYTES_OF_WORD, Refusal};
use mps_format::Format;
use mps_seg::Segs;

/// How many tags a reference may have: 0 to 7.
const TAGS: u64 = 8;

/// Whether cell `k` of a block with this head is a reference.
#[inline(always)]
fn is_reference<F: Format>(format: &F, head: u64, k: u32) -> bool
    requires { IsTrue ((F.layout format.now).is_valid head) }
    ensures { result ≡ (F.layout format.now).is_reference head k }
{
    match format.ref_from(head, k) {
        Some(first) => first == k,
        None => false,
    }
}

/// Whether a block with this head has a reference.
#[inline(always)]
pub fn any_references<F: Format>(format: &F, head: u64) -> bool
    requires { IsTrue ((F.layout format.now).is_valid head) }
    ensures { result ≡ has_references (F.layout format.now) head }
{
    match format.ref_from(head, 0) {
        Some(_) => true,
        None => false,
    }
}

/// The reference word that leads to an address, a multiple of 8, and has the tag of another.
pub fn with_target<F: Format>(format: &F, word: u64, to: u64) -> u64
    ensures { result ≡ retargeted (F.layout format.now) word to }
{
    if to % 8 == 0 {
        format.retarget(word, Addr(to))
    } else {
        word
    }
}

/// The tag of a reference word.
#[inline(always)]
pub fn tag_of(word: u64) -> u8
    ensures { result ≡ word % tag_count }
{
    (word % TAGS) as u8
}

/// The reference word that leads to what another does, and has this tag.
#[inline(always)]
pub fn with_tag<F: Format>(format: &F, word: u64, tag: u8) -> u64
    requires { tag < tag_count }
    ensures { result ≡ retagged (F.layout format.now) word tag }
{
    format.target(word).0 + u64::from(tag)
}

/// The number of the word of cell `k` of a block at an address.
#[inline(always)]
fn word_of_cell(at: u64, k: u64) -> usize
    requires { k < 2 ^ 32 }
    ensures { result ≡ word_of at + k }
{
    Addr(at).word() + k as usize
}

/// Cell `k` of a block.
#[inline(always)]
fn cell_at<F: Format>(segs: &Segs, b: &Block<F>, k: u64) -> Result<CellFound, Refusal>
    requires { IsTrue ((F.layout b.now.format).is_valid b.now.head) }
    ensures value { result ≡ cell_at F.layout segs.now.words b.now k }
    ensures at_most { IfOk result (λ _. k < 2 ^ 32) }
{
    if u64::from(b.format.words(b.head)) <= k {
        return Err(Refusal::BadIndex);
    }
    let word = word_of_cell(b.at, k);
    let Some(value) = segs.item(word) else {
        return Err(Refusal::BadIndex);
    };
    Ok(CellFound { word, value })
}

/// Cell `k` of a block, if it is a number.
#[inline(always)]
pub fn number_cell_at<F: Format>(segs: &Segs, b: &Block<F>, k: u64) -> Result<CellFound, Refusal>
    requires { IsTrue ((F.layout b.now.format).is_valid b.now.head) }
    ensures { result ≡ number_cell_at F.layout segs.now.words b.now k }
{
    let cell = cell_at(segs, b, k)?;
    if k == 0 || is_reference(&b.format, b.head, k as u32) {
        return Err(Refusal::NotANumber);
    }
    Ok(cell)
}

/// Cell `k` of a block, if it is a reference.
#[inline(always)]
pub fn reference_cell_at<F: Format>(segs: &Segs, b: &Block<F>, k: u64) -> Result<CellFound, Refusal>
    requires { IsTrue ((F.layout b.now.format).is_valid b.now.head) }
    ensures { result ≡ reference_cell_at F.layout segs.now.words b.now k }
{
    let cell = cell_at(segs, b, k)?;
    if !is_reference(&b.format, b.head, k as u32) {
        return Err(Refusal::NotARef);
    }
    Ok(cell)
}

/// Writes a word, by its number; nothing if the arena has no such word.
pub fn write_word(segs: &mut Segs, word: usize, value: u64)
    ensures { segs.new ≡ record segs.old { words = slice_set segs.old.words word value } }
{
    let _ = segs.grains(); // the address of a word fits
    if segs.item(word).is_some() {
        segs.set_word(Addr(BYTES_OF_WORD * word as u64), value);
    }
}

/// Lets a reference cell of a block lead to an address, a multiple of 8. It keeps its tag, and the summary of the block's segment gains
/// the zone of the address. Null, 0, has no zone.
pub fn write_reference<F: Format>(segs: &mut Segs, b: &Block<F>, cell: CellFound, to: u64)
    ensures { segs.new ≡ referring (F.layout b.now.format) segs.old b.now.at cell to }
{
    let word = with_target(&b.format, cell.value, to);
    write_word(segs, cell.word, word);
    if to != 0 {
        segs.note_write(Addr(b.at), Addr(to));
    }
}

// Names, as words and at the beginning of a line.
ghost use Rattle.std.specs.Prelude.{◌≡◌, ◌+◌, ◌≤◌, None, Some, length, take, drop, IfSome, MatchOption};
ghost use Rattle.std.specs.Int.{bytes_low_first};
ghost use Rattle.mps_base.specs.Name.{is_name_byte};
ghost use Rattle.mps_line_words.specs.Gathered.{gathered};
ghost use Rattle.mps_line_words.specs.Name.{NamesAreUnique, after_name, name_from, name_of};
ghost use Rattle.mps_line_words.specs.Reading.{headed};
ghost use Rattle.mps_line_words.specs.Word.{words, word_at, after_word};

use crate::words::after_spaces;
use mps_base::{MAX_NAME_BYTES, Name, is_name};
use std::marker::Model;

/// The bytes that are gathered in a number.
const GATHERED_BYTES: usize = 8;

/// The bytes of half of such a number.
const HALF_BYTES: usize = 4;

/// Which bytes may stand in a name.
static NAME_BYTES: [bool; 256] = [
    false, false, false, false, false, false, false, false, false, false, false, false, false,
    false, false, false, false, false, false, false, false, false, false, false, false, false,
    false, false, false, false, false, false, false, false, false, false, false, false, false,
    false, false, false, false, false, false, false, false, false, true, true, true, true, true,
    true, true, true, true, true, false, false, false, false, false, false, false, false, false,
    false, false, false, false, false, false, false, false, false, false, false, false, false,
    false, false, false, false, false, false, false, false, false, false, false, false, false,
    false, false, true, false, true, true, true, true, true, true, true, true, true, true, true,
    true, true, true, true, true, true, true, true, true, true, true, true, true, true, true,
    false, false, false, false, false, false, false, false, false, false, false, false, false,
    false, false, false, false, false, false, false, false, false, false, false, false, false,
    false, false, false, false, false, false, false, false, false, false, false, false, false,
    false, false, false, false, false, false, false, false, false, false, false, false, false,
    false, false, false, false, false, false, false, false, false, false, false, false, false,
    false, false, false, false, false, false, false, false, false, false, false, false, false,
    false, false, false, false, false, false, false, false, false, false, false, false, false,
    false, false, false, false, false, false, false, false, false, false, false, false, false,
    false, false, false, false, false, false, false, false, false, false, false, false, false,
    false, false, false, false, false, false, false, false, false, false, false, false, false,
    false, false, false,
];

/// Whether a byte may stand in a name. Spaces and dots, at which a name ends, are found by the first comparison.
#[inline(always)]
fn is_name_byte(byte: u8) -> bool
    ensures { result ≡ is_name_byte byte }
{
    byte >= b'0' && NAME_BYTES[byte as usize]
}

/// What stands after the bytes at the beginning that may stand in a name.
#[inline(always)]
pub fn after_name(bytes: &[u8]) -> &[u8]
    ensures rest { result.now ≡ after_name bytes.now }
    ensures at_most { length result.now ≤ length bytes.now }
{
    let mut rest = bytes;
    while let [first, later @ ..] = rest {
        if !is_name_byte(*first) {
            return rest;
        }
        rest = later;
    }
    rest
}

/// The bytes of the word at the beginning, if it is a name, and what stands after it.
#[inline(always)]
fn name_at(line: &[u8]) -> Option<(&[u8], &[u8])>
    ensures { MatchOption result (name_of (word_at line.now) ≡ None)
        (λ p. (name_of (word_at line.now) ≡ Some (name_from p.0.now)) × (p.1.now ≡ after_word line.now)
        × (length p.0.now ≤ 16)) }
{
    let [b'a'..=b'z', later @ ..] = line else {
        return None;
    };
    let rest = after_name(later);
    match rest {
        [] | [b' ', ..] => {}
        _ => return None,
    }
    let name = &line[..line.len() - rest.len()];
    if name.len() > MAX_NAME_BYTES {
        return None;
    }
    Some((name, rest))
}

/// The bytes of the first word, if it is a name, and what stands after it. The name is made of them if it is to stand, once the
/// words after it are in their forms (`WrittenName`).
#[inline(always)]
pub fn next_name(bytes: &[u8]) -> Option<(&[u8], &[u8])>
    ensures found { MatchOption result (headed name_of (words bytes.now) ≡ None)
        (λ p. headed name_of (words bytes.now) ≡ Some (name_from p.0.now, words p.1.now)) }
    ensures at_most { IfSome result (λ p. length p.0.now ≤ 16) }
{
    name_at(after_spaces(bytes))
}

/// The number whose bytes these are, the first lowest. They are read one by one.
#[inline(always)]
fn gathered_singly(bytes: &[u8]) -> u64
    requires { length bytes.now ≤ 8 }
    ensures { result ≡ gathered bytes.now }
{
    let mut number = 0;
    let mut left = bytes.len();
    while left > 0 {
        number = number * 256 + u64::from(bytes[left - 1]);
        left -= 1;
    }
    number
}

/// The number of the four bytes from an index on, the first lowest. The compiler makes one load of it.
#[inline(always)]
fn gathered_four(bytes: &[u8], at: usize) -> u64
    requires { at + 4 ≤ length bytes.now }
    ensures { result ≡ gathered (take 4 (drop at bytes.now)) }
{
    let low = u64::from(bytes[at]) + 256 * u64::from(bytes[at + 1]);
    let high = u64::from(bytes[at + 2]) + 256 * u64::from(bytes[at + 3]);
    low + 65536 * high
}

/// The number whose bytes these are, the first lowest. Of four bytes or more the first four are one half, and the other half is what
/// is above them in the last four.
#[inline(always)]
fn gathered(bytes: &[u8]) -> u64
    requires { length bytes.now ≤ 8 }
    ensures { result ≡ gathered bytes.now }
{
    if bytes.len() < HALF_BYTES {
        return gathered_singly(bytes);
    }
    let low = gathered_four(bytes, 0);
    let last = gathered_four(bytes, bytes.len() - HALF_BYTES);
    let high = last >> (8 * (GATHERED_BYTES - bytes.len()));
    low + high * 0x1_0000_0000
}

/// The same of a word of more than 8 bytes.
#[cold]
#[inline(never)]
fn long_number(word: &[u8]) -> u128
    requires longer { 8 ≤ length word.now }
    requires at_most { length word.now ≤ 16 }
    ensures { result ≡ gathered word.now }
{
    let low = gathered(&word[..GATHERED_BYTES]);
    let high = gathered(&word[GATHERED_BYTES..]);
    u128::from(low) + u128::from(high) * 0x1_0000_0000_0000_0000
}

/// The name of its bytes. They are one number first, and copied as one piece: what is stored byte by byte can't be loaded together
/// soon.
#[inline(always)]
pub fn name_from(name: &[u8]) -> Name
    requires { length name.now ≤ 16 }
    ensures { result ≡ name_from name.now }
{
    let mut bytes = [0u8; MAX_NAME_BYTES];
    if let [byte] = name {
        bytes[..GATHERED_BYTES].copy_from_slice(&u64::from(*byte).to_le_bytes());
    } else if name.len() <= GATHERED_BYTES {
        bytes[..GATHERED_BYTES].copy_from_slice(&gathered(name).to_le_bytes());
    } else {
        bytes.copy_from_slice(&long_number(name).to_le_bytes());
    }
    Name { bytes }
}

/// Two words that write one name are the same word: no byte of a name is 0, so a name ends where its zeros begin.
pub fn names_are_unique()
    ensures { NamesAreUnique }
{}

/// A name as it stands in a line: its bytes. It is made if it is to stand, so that it isn't copied on the way. Contracts see the
/// name.
#[derive(Debug, Drop)]
pub struct WrittenName<'a> {
    bytes: &'a [u8],
}

impl<'a> Model for WrittenName<'a> {
    ghost use Rattle.std.specs.Prelude.{◌≤◌, length};
    ghost use Rattle.mps_base.specs.declared.names.Name.{Name};
    ghost use Rattle.mps_line_words.specs.Name.{name_from};

    ghost Value = { Name };

    ghost view = { λ n. name_from n.bytes.now };

    ghost invariant = { λ n. length n.bytes.now ≤ 16 };
}

impl<'a> WrittenName<'a> {
    /// The name of these bytes.
    #[inline(always)]
    pub fn new(bytes: &'a [u8]) -> WrittenName<'a>
        requires { length bytes.now ≤ 16 }
        ensures { result ≡ name_from bytes.now }
    {
        WrittenName { bytes }
    }

    /// Makes the name.
    #[inline(always)]
    pub fn name(&self) -> Name
        ensures { result ≡ self.now }
    {
        name_from(self.bytes)
    }
}

/// The name that a word writes.
#[inline(always)]
pub fn name_of(word: &[u8]) -> Option<Name>
    ensures { result ≡ name_of word.now }
{
    if !is_name(word) {
        return None;
    }
    Some(name_from(word))
}

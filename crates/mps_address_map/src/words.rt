// A table by the word of an address.

ghost use Rattle.std.specs.Prelude.{◌≡◌, ◌*◌, ◌<◌, ◌≤◌, ℕ, List, Some, None, false, nat_eq, length, IfSome, IfNone, IfOk, OnOk};
ghost use Rattle.mps_address_map.specs.Words.{words_of, at_word, ChangesWord};

use std::alloc::{AllocError, Global};

/// The most words that a table has: those of 16 MiB.
const MOST_WORDS: usize = 0x20_0000;

/// The word of an address, if a table may have one for it.
#[inline(always)]
pub(crate) fn word_at(at: u64) -> Option<usize>
    ensures word { IfSome result (λ word. (word < 2097152) × (at ≡ 8 * word)) }
    ensures other { IfNone result ((word : ℕ) → word < 2097152 → nat_eq at (8 * word) ≡ false) }
{
    if at % 8 == 0 && at < 0x100_0000 {
        Some((at / 8) as usize)
    } else {
        None
    }
}

/// What a table has at a word.
#[inline(always)]
pub(crate) fn value_at<V: Copy>(words: &[Option<V>], word: usize) -> Option<V>
    ensures { result ≡ at_word words.now word }
{
    if word < words.len() {
        words[word]
    } else {
        None
    }
}

/// Sets the value at a word, and answers the one that was there.
#[inline(always)]
pub(crate) fn insert_word<V: Copy>(
    words: &mut Vec<Option<V>>,
    word: usize,
    value: V,
) -> Result<Option<V>, AllocError>
    requires low { word < 2097152 }
    requires size { length words.old.items ≤ 2097152 }
    ensures old { IfOk result (λ old. old ≡ at_word words.old.items word) }
    ensures changes { OnOk result (ChangesWord words.old.items words.new.items word (Some value)) }
    ensures size { length words.new.items ≤ 2097152 }
{
    if words.len() <= word {
        grow(words, word)?;
    }
    let old = words[word];
    words[word] = Some(value);
    Ok(old)
}

/// Takes the value at a word away, and answers it.
#[inline(always)]
pub(crate) fn remove_word<V: Copy>(words: &mut Vec<Option<V>>, word: usize) -> Option<V>
    ensures value { result ≡ at_word words.old.items word }
    ensures changes { ChangesWord words.old.items words.new.items word None }
    ensures size { length words.new.items ≡ length words.old.items }
{
    if words.len() <= word {
        return None;
    }
    let old = words[word];
    words[word] = None;
    old
}

/// Makes a table longer so that it has a word: twice as long, or as long as the word needs.
#[cold]
#[inline(never)]
fn grow<V: Copy>(words: &mut Vec<Option<V>>, word: usize) -> Result<(), AllocError>
    requires low { word < 2097152 }
    requires short { length words.old.items ≤ word }
    ensures room { OnOk result (word < length words.new.items) }
    ensures size { length words.new.items ≤ 2097152 }
    ensures same { (q : ℕ) → at_word words.new.items q ≡ at_word words.old.items q }
{
    let wanted = (2 * words.len()).max(word + 1).min(MOST_WORDS);
    words.resize(wanted, None)
}

/// The addresses of a table's words with their values, in ascending order.
pub(crate) fn list_words<V: Copy>(
    alloc: Global,
    words: Vec<Option<V>>,
) -> Result<Vec<(u64, V)>, AllocError>
    requires size { length words.items ≤ 2097152 }
    ensures { IfOk result (λ entries. entries.items ≡ words_of words.items) }
{
    let mut entries = Vec::new(alloc);
    for word in 0..words.len() {
        if let Some(value) = words[word] {
            entries.push((8 * word as u64, value))?;
        }
    }
    Ok(entries)
}

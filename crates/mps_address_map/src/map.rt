// A map by addresses.

ghost use Rattle.std.specs.Prelude.{◌≡◌, ◌++◌, ℕ, List, Some, None, nat_eq, IfOk, OnOk, OnErr};
ghost use Rattle.std.specs.List.{IsDistinct};
ghost use Rattle.std.specs.Map.{keys_of};
ghost use Rattle.mps_address_map.specs.AddressMap.{found_at, Changes, Lists};

use crate::secret::SecretHashes;
use crate::words::{insert_word, list_words, remove_word, value_at, word_at};
use indexmap::IndexMap;
use std::alloc::{AllocError, Global};
use std::marker::Model;

/// A map by addresses. A table has the words of the lowest 16 MiB, and a hash table all other addresses: higher ones, and
/// those that aren't multiples of 8. Its hashes begin with a secret, so nobody who chooses addresses can foresee which collide.
#[derive(Drop)]
pub struct AddressMap<V: Copy> {
    alloc: Global,
    low: Vec<Option<V>>,
    high: IndexMap<u64, V, SecretHashes>,
}

impl<V: Copy> Model for AddressMap<V> {
    ghost use Rattle.std.specs.Prelude.{◌≡◌, ◌*◌, ◌<◌, ◌≤◌, ℕ, List, ◌++◌, length, None};
    ghost use Rattle.mps_address_map.specs.AddressMap.{found_at};
    ghost use Rattle.mps_address_map.specs.Words.{words_of};

    ghost Value = { List (ℕ × V) };

    ghost view = { λ m. words_of m.low.items ++ m.high.entries };

    ghost invariant = { λ m. (length m.low.items ≤ 2097152)
        × ((word : ℕ) → word < 2097152 → found_at m.high.entries (8 * word) ≡ None) };
}

impl<V: Copy> AddressMap<V> {
    ghost use Rattle.std.specs.Prelude.{[]};

    /// An empty map. The secret is a random number. Whoever knows it can choose addresses that make calls slow, but no answer
    /// depends on it.
    pub fn new(alloc: Global, secret: u64) -> AddressMap<V>
        ensures { result ≡ [] }
    {
        AddressMap {
            alloc,
            low: Vec::new(alloc),
            high: IndexMap::with_hasher(alloc, SecretHashes::new(secret)),
        }
    }

    /// The value at an address.
    #[inline(always)]
    pub fn get(&self, at: u64) -> Option<V>
        ensures { result ≡ found_at self.now at }
    {
        match word_at(at) {
            Some(word) => value_at(&self.low, word),
            None => get_high(&self.high, at),
        }
    }

    /// Sets the value at an address, and answers the one that was there.
    #[inline(always)]
    pub fn insert(&mut self, at: u64, value: V) -> Result<Option<V>, AllocError>
        ensures old { IfOk result (λ old. old ≡ found_at self.old at) }
        ensures changes { OnOk result (Changes self.old self.new at (Some value)) }
    {
        match word_at(at) {
            Some(word) => insert_word(&mut self.low, word, value),
            None => insert_high(&mut self.high, at, value),
        }
    }

    /// Takes the value at an address away, and answers it.
    #[inline(always)]
    pub fn remove(&mut self, at: u64) -> Option<V>
        ensures value { result ≡ found_at self.old at }
        ensures changes { Changes self.old self.new at None }
    {
        match word_at(at) {
            Some(word) => remove_word(&mut self.low, word),
            None => remove_high(&mut self.high, at),
        }
    }

    /// All addresses with their values, in ascending order.
    pub fn into_sorted(self) -> Result<Vec<(u64, V)>, AllocError>
        ensures { IfOk result (λ entries. Lists self entries.items) }
    {
        let mut entries = list_words(self.alloc, self.low)?;
        append_high(self.high, &mut entries)?;
        entries.sort_unstable_by_key(|entry| entry.0);
        Ok(entries)
    }
}

#[inline(never)]
fn get_high<V: Copy>(high: &IndexMap<u64, V, SecretHashes>, at: u64) -> Option<V>
    ensures { result ≡ found_at high.now.entries at }
{
    high.get(&at).copied()
}

/// Sets the value at an address, and answers the one that was there. Without memory nothing changes.
#[inline(never)]
fn insert_high<V: Copy>(
    high: &mut IndexMap<u64, V, SecretHashes>,
    at: u64,
    value: V,
) -> Result<Option<V>, AllocError>
    ensures old { IfOk result (λ old. old ≡ found_at high.old.entries at) }
    ensures changes { OnOk result (Changes high.old.entries high.new.entries at (Some value)) }
    ensures same { OnErr result (high.new.entries ≡ high.old.entries) }
{
    match high.insert(at, value) {
        Ok(old) => Ok(old),
        Err(_) => Err(AllocError),
    }
}

#[inline(never)]
fn remove_high<V: Copy>(high: &mut IndexMap<u64, V, SecretHashes>, at: u64) -> Option<V>
    ensures value { result ≡ found_at high.old.entries at }
    ensures changes { Changes high.old.entries high.new.entries at None }
{
    high.swap_remove(&at)
}

/// Puts all entries after others.
fn append_high<V: Copy>(
    high: IndexMap<u64, V, SecretHashes>,
    entries: &mut Vec<(u64, V)>,
) -> Result<(), AllocError>
    ensures all { OnOk result (entries.new.items ≡ entries.old.items ++ high.entries) }
    ensures once { IsDistinct nat_eq (keys_of high.entries) }
{
    entries.extend(high)?;
    Ok(())
}

// The roots.
#![tactic(auto)]

ghost use Rattle.std.specs.Prelude.{◌≡◌, ◌<◌, ◌≤◌, ◌++◌, ◌∷◌, [], Some, None, length, slice_get, slice_index_or, slice_set, replicate, IfOk, OnErr, MatchResult, IsSome};
ghost use Rattle.std.specs.Option.{MatchOption};
ghost use Rattle.std.specs.List.{remove};
ghost use Rattle.mps_root.specs.State.{RootsState, no_roots, kept, HasItem, items_of, with_item, with_place, HasPlace, without, without_key, IsTableMade, IsAreaMade};

use slab::Slab;
use std::alloc::{AllocError, Global};
use std::marker::Model;

/// A word of an area. If it holds an object, it lies in that object, which it keeps alive and in place.
#[derive(Clone, Copy, Debug, PartialEq, Eq)]
pub struct Stored {
    pub word: u64,
    pub holds: bool,
}

/// The roots of a heap and its tables of blocks. A slot and a place is an address, or 0 if it is null. Only the calls that make
/// something allocate; if they find no memory, nothing changes.
#[derive(Drop)]
pub struct Roots {
    alloc: Global,
    tables: Slab<Vec<u64>>,
    // The keys of the tables, in the order in which they were made.
    order: Vec<usize>,
    areas: Slab<Vec<Stored>>,
    blocks: Vec<Vec<u64>>,
}

impl Model for Roots {
    ghost use Rattle.std.specs.Prelude.{map};
    ghost use Rattle.std.specs.Option.{option_map};
    ghost use Rattle.mps_root.specs.State.{RootsState};

    ghost Value = { RootsState };

    ghost view = { λ r. record {
      tables = map (option_map (λ slots. slots.items)) r.tables.slots;
      order = r.order.items;
      areas = map (option_map (λ words. words.items)) r.areas.slots;
      blocks = map (λ places. places.items) r.blocks.items;
    } };
}

impl Roots {
    /// No root.
    pub fn new(alloc: Global) -> Roots
        ensures { result ≡ no_roots }
    {
        Roots {
            alloc,
            tables: Slab::new(alloc),
            order: Vec::new(alloc),
            areas: Slab::new(alloc),
            blocks: Vec::new(alloc),
        }
    }

    /// Makes a table of n slots, all null, and returns its key.
    pub fn table(&mut self, n: u32) -> Result<usize, AllocError>
        ensures { MatchResult result (λ key. IsTableMade self.old self.new key n) (λ _. self.new ≡ self.old) }
    {
        self.tables.reserve(1)?;
        self.order.reserve(1)?;
        let slots = vec![in self.alloc; 0u64; n as usize]?;
        let key = self.tables.insert_reserved(slots);
        let Ok(()) = self.order.push(key) else {
            unreachable!()
        };
        Ok(key)
    }

    /// Makes an area of n words, all 0 and numbers, and returns its key.
    pub fn area(&mut self, n: u32) -> Result<usize, AllocError>
        ensures { MatchResult result (λ key. IsAreaMade self.old self.new key n) (λ _. self.new ≡ self.old) }
    {
        self.areas.reserve(1)?;
        let none = Stored {
            word: 0,
            holds: false,
        };
        let words = vec![in self.alloc; none; n as usize]?;
        Ok(self.areas.insert_reserved(words))
    }

    /// Makes a table of n places for blocks, all null, and returns its number.
    pub fn blocks(&mut self, n: u32) -> Result<usize, AllocError>
        ensures { MatchResult result
            (λ number. (number ≡ length self.old.blocks) × (self.new ≡ record self.old { blocks = self.old.blocks ++ replicate n 0 ∷ [] }))
            (λ _. self.new ≡ self.old) }
    {
        let number = self.blocks.len();
        let places = vec![in self.alloc; 0u64; n as usize]?;
        self.blocks.push(places)?;
        Ok(number)
    }

    /// Drops a table.
    pub fn drop_table(&mut self, key: usize)
        requires { IsSome (kept self.old.tables key) }
        ensures { self.new ≡ record self.old { tables = without self.old.tables key; order = without_key self.old.order key } }
    {
        let _ = self.tables.remove(key);
        forget_key(&mut self.order, key);
    }

    /// Drops an area.
    pub fn drop_area(&mut self, key: usize)
        requires { IsSome (kept self.old.areas key) }
        ensures { self.new ≡ record self.old { areas = without self.old.areas key } }
    {
        let _ = self.areas.remove(key);
    }

    /// The slots of a table, if there is one under this key.
    #[inline(always)]
    pub fn slots(&self, key: usize) -> Option<&[u64]>
        ensures { MatchOption result (kept self.now.tables key ≡ None) (λ slots. kept self.now.tables key ≡ Some slots.now) }
    {
        Some(self.tables.get(key)?.as_slice())
    }

    /// The keys of the tables, in the order in which they were made.
    pub fn order(&self) -> &[usize]
        ensures { result.now ≡ self.now.order }
    {
        &self.order
    }

    /// What a slot refers to.
    pub fn slot(&self, key: usize, index: usize) -> u64
        requires { HasItem self.now.tables key index }
        ensures { result ≡ slice_index_or (items_of self.now.tables key) index 0 }
    {
        self.tables[key][index]
    }

    /// Writes a slot.
    pub fn set_slot(&mut self, key: usize, index: usize, address: u64)
        requires { HasItem self.old.tables key index }
        ensures { self.new ≡ record self.old { tables = with_item self.old.tables key index address } }
    {
        self.tables[key][index] = address;
    }

    /// The words of an area, if there is one under this key.
    pub fn words(&self, key: usize) -> Option<&[Stored]>
        ensures { MatchOption result (kept self.now.areas key ≡ None) (λ words. kept self.now.areas key ≡ Some words.now) }
    {
        Some(self.areas.get(key)?.as_slice())
    }

    /// A number above the keys of all areas.
    pub fn area_keys(&self) -> usize
        ensures { length self.now.areas ≤ result }
    {
        self.areas.capacity()
    }

    /// A word of an area.
    pub fn word(&self, key: usize, index: usize) -> Stored
        requires { HasItem self.now.areas key index }
        ensures { result ≡ slice_index_or (items_of self.now.areas key) index result }
    {
        self.areas[key][index]
    }

    /// Writes a word of an area.
    pub fn set_word(&mut self, key: usize, index: usize, word: Stored)
        requires { HasItem self.old.areas key index }
        ensures { self.new ≡ record self.old { areas = with_item self.old.areas key index word } }
    {
        self.areas[key][index] = word;
    }

    /// How many tables of blocks were made.
    pub fn block_tables(&self) -> usize
        ensures { result ≡ length self.now.blocks }
    {
        self.blocks.len()
    }

    /// The places of a table of blocks.
    pub fn places(&self, number: usize) -> &[u64]
        requires { number < length self.now.blocks }
        ensures { slice_get self.now.blocks number ≡ Some result.now }
    {
        &self.blocks[number]
    }

    /// What a place of a table of blocks has.
    pub fn place(&self, number: usize, index: usize) -> u64
        requires { HasPlace self.now.blocks number index }
        ensures { result ≡ slice_index_or (slice_index_or self.now.blocks number []) index 0 }
    {
        self.blocks[number][index]
    }

    /// Writes a place of a table of blocks.
    pub fn set_place(&mut self, number: usize, index: usize, address: u64)
        requires { HasPlace self.old.blocks number index }
        ensures { self.new ≡ record self.old { blocks = with_place self.old.blocks number index address } }
    {
        self.blocks[number][index] = address;
    }
}

// Takes a key out of the order.
fn forget_key(order: &mut Vec<usize>, key: usize)
    ensures { order.new.items ≡ without_key order.old.items key }
{
    if let Some(index) = index_of(order, key) {
        let _ = order.remove(index);
    }
}

// The index of the first key that is this one.
fn index_of(keys: &[usize], key: usize) -> Option<usize>
    ensures { MatchOption result (keys.now ≡ without_key keys.now key)
        (λ index. (index < length keys.now) × (remove keys.now index ≡ without_key keys.now key)) }
{
    for index in 0..keys.len() {
        if keys[index] == key {
            return Some(index);
        }
    }
    None
}

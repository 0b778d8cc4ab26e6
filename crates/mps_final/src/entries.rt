// Rows of entries, of which those that are 0 were removed.
#![tactic(auto)]

ghost use Rattle.std.specs.Prelude.{◌≡◌, ◌+◌, ◌<◌, ◌≤◌, length, max, slice_index_or, vec_capacity, vec_len};
ghost use Rattle.mps_final.specs.State.{position_of, max_finals};
ghost use Rattle.mps_final.specs.Inside.{live, max_entries, IsEntry, StandBefore};

/// As many entries again as there may be registrations.
pub(crate) const MAX_ENTRIES: usize = 131_072;

/// As many removed entries may stay, however few registrations there are.
const MAX_REMOVED: usize = 64;

/// Where the last search ended: n registrations stand before the entry at this index.
#[derive(Clone, Copy)]
pub(crate) struct Cursor {
    pub(crate) position: usize,
    pub(crate) index: usize,
}

impl Cursor {
    pub(crate) const START: Cursor = Cursor {
        position: 0,
        index: 0,
    };
}

/// A registration: the index of its entry, and its address.
#[derive(Clone, Copy)]
pub(crate) struct Found {
    pub(crate) index: usize,
    pub(crate) address: u64,
}

/// Goes to the registration at a position.
pub(crate) fn seek(entries: &[u64], cursor: &mut Cursor, position: usize) -> Found
    requires before { StandBefore entries.now cursor.old.position cursor.old.index }
    requires within { cursor.old.index ≤ length entries.now }
    requires there { position < length (live entries.now) }
    ensures entry { IsEntry entries.now position result.index }
    ensures address { result.address ≡ slice_index_or (live entries.now) position 0 }
    ensures cursor { cursor.new ≡ record { position = position; index = result.index } }
{
    let from = if position < cursor.position {
        Cursor::START
    } else {
        *cursor
    };
    let index = index_of(entries, from.position, from.index, position);
    *cursor = Cursor { position, index };
    Found {
        index,
        address: entries[index],
    }
}

// The index of the registration that has `wanted` others before it. The search begins at an index that has `position` before it.
fn index_of(entries: &[u64], position: usize, index: usize, wanted: usize) -> usize
    requires before { StandBefore entries.now position index }
    requires within { index ≤ length entries.now }
    requires ahead { position ≤ wanted }
    requires there { wanted < length (live entries.now) }
    ensures { IsEntry entries.now wanted result }
{
    let mut position = position;
    let mut index = index;
    while index < entries.len() {
        if entries[index] != 0 {
            if position == wanted {
                return index;
            }
            position += 1;
        }
        index += 1;
    }
    unreachable!()
}

/// The position of the first registration of an address.
pub(crate) fn position_in(entries: &[u64], at: u64) -> Option<usize>
    requires { 0 < at }
    ensures { result ≡ position_of (live entries.now) at }
{
    let mut position = 0;
    for entry in entries {
        if *entry == at {
            return Some(position);
        }
        if *entry != 0 {
            position += 1;
        }
    }
    None
}

/// Makes room for one more entry beside those of `count` registrations. Where more entries were removed than there are registrations,
/// and more than 64, they are taken out: so a search passes few of them, and each is taken out once.
pub(crate) fn make_room(entries: &mut Vec<u64>, count: usize, cursor: &mut Cursor)
    requires counted { count ≡ length (live entries.old.items) }
    requires few { length (live entries.old.items) < max_finals }
    requires before { StandBefore entries.old.items cursor.old.position cursor.old.index }
    requires within { cursor.old.index ≤ length entries.old.items }
    ensures unchanged { live entries.new.items ≡ live entries.old.items }
    ensures fits { vec_len entries.new < max_entries }
    ensures short { vec_len entries.new ≤ count + max count 64 }
    ensures before { StandBefore entries.new.items cursor.new.position cursor.new.index }
    ensures within { cursor.new.index ≤ length entries.new.items }
    ensures capacity { vec_capacity entries.new ≡ vec_capacity entries.old }
{
    let removed = entries.len() - count;
    if removed > count.max(MAX_REMOVED) {
        entries.retain(|entry| *entry != 0);
        *cursor = Cursor::START;
    }
}

// The client's calls, one for each command of a script.
use mps_base::{Kind, Name, Rank, Slot};
use std::mem::size_of;

// A run writes one for each line.
const _: () = prove!(size_of::<Call>() <= 88);

/// A command of a script. Numbers stand as the script gives them. A head is the word that its text represents, 0 if
/// its numbers break the rules of its format. A format is its number: 1 front, 2 mapped, 3 leaf.
#[derive(Clone, Copy, Debug, PartialEq, Eq)]
pub enum Call {
    // Making things.
    /// `arena GRAINS LIMIT`: makes the arena, with a commit limit in grains.
    Arena {
        grains: u64,
        limit: u64,
    },
    /// `limit N`: sets the commit limit, in grains.
    Limit {
        limit: u64,
    },
    /// `committed`: the grains held.
    Committed,
    /// `chain C CAPS`: makes a chain of generations; the first `count` capacities count, in grains.
    Chain {
        chain: Name,
        count: u8,
        capacities: [u64; 8],
    },
    /// `pool P KIND FORMAT`: makes an automatic pool on no chain.
    Pool {
        pool: Name,
        kind: Kind,
        format: u64,
    },
    /// `pool P KIND FORMAT C`: makes a copying pool on a chain.
    PoolOnChain {
        pool: Name,
        kind: Kind,
        format: u64,
        chain: Name,
    },
    /// `pool P mfs SIZE`: makes a manual pool of blocks of one size, in words.
    PoolMfs {
        pool: Name,
        words: u64,
    },
    /// `pool P mvff`: makes a manual pool of blocks of any sizes.
    PoolMvff {
        pool: Name,
    },
    /// `table T N`: makes an exact root of n slots.
    Table {
        table: Name,
        length: u64,
    },
    /// `area A N`: makes an ambiguous root of n words.
    Area {
        area: Name,
        length: u64,
    },
    /// `blocks B N`: makes a table of n places for manual blocks.
    Blocks {
        blocks: Name,
        length: u64,
    },
    /// `droproot R`: drops a table or an area.
    DropRoot {
        root: Name,
    },
    /// `ap X P exact` or `ap X P weak`: makes an allocation point.
    Point {
        point: Name,
        pool: Name,
        rank: Rank,
    },
    /// `dropap X`: drops an allocation point.
    DropPoint {
        point: Name,
    },
    /// `ld D`: makes a location dependency.
    Dependency {
        dependency: Name,
    },

    // Allocation.
    /// `reserve X HEAD`: reserves a block at a point.
    Reserve {
        point: Name,
        head: u64,
    },
    /// `init X K VALUE`: writes a number into the reservation.
    InitNumber {
        point: Name,
        cell: u64,
        value: u64,
    },
    /// `init X K SLOT`: writes the reference in a slot into the reservation.
    InitReference {
        point: Name,
        cell: u64,
        source: Slot,
    },
    /// `commit X SLOT`: makes the reservation an object, and refers to it from a slot.
    Commit {
        point: Name,
        target: Slot,
    },
    /// `alloc P SIZE B.I`: makes a manual block of n words.
    Alloc {
        pool: Name,
        words: u64,
        place: Slot,
    },
    /// `free B.I`: frees a manual block.
    Free {
        place: Slot,
    },
    /// `load B.I K`: a word of a manual block.
    Load {
        place: Slot,
        word: u64,
    },
    /// `store B.I K VALUE`: writes a word of a manual block.
    Store {
        place: Slot,
        word: u64,
        value: u64,
    },

    // Objects and slots.
    /// `get DST SRC K`: reads a reference cell into a slot.
    Get {
        target: Slot,
        source: Slot,
        cell: u64,
    },
    /// `put DST K SRC`: writes a reference cell from a slot.
    Put {
        target: Slot,
        cell: u64,
        source: Slot,
    },
    /// `num S K`: a number cell.
    Number {
        slot: Slot,
        cell: u64,
    },
    /// `setnum S K VALUE`: writes a number cell.
    SetNumber {
        slot: Slot,
        cell: u64,
        value: u64,
    },
    /// `copy DST SRC`: copies a slot.
    Copy {
        target: Slot,
        source: Slot,
    },
    /// `clear S`: makes a slot null.
    Clear {
        slot: Slot,
    },
    /// `same S S2`: whether two slots hold the same.
    Same {
        slot: Slot,
        other: Slot,
    },
    /// `null S`: whether a slot is null.
    Null {
        slot: Slot,
    },
    /// `head S`: the head of an object.
    Head {
        slot: Slot,
    },
    /// `addr S`: the address of an object.
    Address {
        slot: Slot,
    },

    // Tags and labels.
    /// `settag S K N`: writes the tag of a reference cell, modulo 8.
    SetTag {
        slot: Slot,
        cell: u64,
        tag: u64,
    },
    /// `tag S K`: the tag of a reference cell.
    Tag {
        slot: Slot,
        cell: u64,
    },
    /// `intern L`: makes a label of the log.
    Intern {
        label: Name,
    },
    /// `label S L`: labels an object in the log.
    Label {
        slot: Slot,
        label: Name,
    },

    // Dependents.
    /// `depend S T`: an object becomes the dependent of a weak one: its references go with those of the weak one.
    Depend {
        holder: Slot,
        dependent: Slot,
    },
    /// `undepend S`: takes the dependent of an object away.
    Undepend {
        holder: Slot,
    },

    // Transforms.
    /// `transform X`: makes a transform, without pairs.
    Transform {
        transform: Name,
    },
    /// `transadd X S T`: adds a pair of an old object and the new one that is to stand in its place.
    TransformAdd {
        transform: Name,
        old: Slot,
        new: Slot,
    },
    /// `transapply X`: replaces the references to the old objects of a transform, all at once, and drops it.
    TransformApply {
        transform: Name,
    },
    /// `transdrop X`: drops a transform.
    TransformDrop {
        transform: Name,
    },

    // Allocation caches.
    /// `cache Q P CLASSES`: makes an allocation cache over a pool. Its classes are the first `count` of eight pairs: the size of the
    /// blocks in words, and how many of them it keeps at most. A size above 65,536, which is refused, stands here as 65,537.
    Cache {
        cache: Name,
        pool: Name,
        count: u8,
        sizes: [u32; 8],
        limits: [u8; 8],
    },
    /// `calloc Q SIZE B.I`: puts the block that was cached last in the class of this size, in words, into a place, or makes one.
    CacheAlloc {
        cache: Name,
        words: u64,
        place: Slot,
    },
    /// `cfree Q B.I`: caches the block in a place if its class has room, and frees it else.
    CacheFree {
        cache: Name,
        place: Slot,
    },
    /// `cflush Q`: frees all blocks in a cache.
    CacheFlush {
        cache: Name,
    },

    // Frames.
    /// `pool P snc`: makes a manual pool of blocks of any sizes, which are freed frame by frame.
    PoolFrames {
        pool: Name,
    },
    /// `push P`: opens a frame of a pool.
    Push {
        pool: Name,
    },
    /// `pop P N`: closes the frame of this number and those after it, and frees the blocks that were made since it was opened.
    Pop {
        pool: Name,
        frame: u64,
    },

    // Areas.
    /// `poke A.I VALUE`: stores a word into an area.
    Poke {
        word: Slot,
        value: u64,
    },
    /// `peek A.I`: a word of an area.
    Peek {
        word: Slot,
    },
    /// `pin A.I S`: stores the address of an object into an area.
    Pin {
        word: Slot,
        slot: Slot,
    },
    /// `take S A.I`: reads the object that a word of an area holds into a slot.
    Take {
        slot: Slot,
        word: Slot,
    },

    // Collection.
    /// `start`: begins a full collection.
    Start,
    /// `start C I`: begins a collection of the generations 0 to I of a chain.
    StartChain {
        chain: Name,
        generation: u64,
    },
    /// `step N`: n units of collection.
    Step {
        units: u64,
    },
    /// `collect`: a whole collection; the arena is then parked.
    Collect,
    /// `clamp`: the arena polls nothing and steps nothing.
    Clamp,
    /// `park`: ends a running collection; the arena is then parked.
    Park,
    /// `release`: the arena is unclamped.
    Release,
    /// `finalize S`: registers an object for finalization.
    Finalize {
        slot: Slot,
    },
    /// `definalize S`: takes away the earliest registration of an object.
    Definalize {
        slot: Slot,
    },
    /// `message S`: takes the first finalization message.
    Message {
        slot: Slot,
    },
    /// `ldreset D`: empties a dependency.
    DependencyReset {
        dependency: Name,
    },
    /// `ldadd D S`: adds the place of an object to a dependency.
    DependencyAdd {
        dependency: Name,
        slot: Slot,
    },
    /// `ldmerge D E`: merges the second dependency into the first.
    DependencyMerge {
        dependency: Name,
        source: Name,
    },
    /// `ldstale D`: whether something that the dependency depends on may have moved.
    DependencyStale {
        dependency: Name,
    },
    /// `live`: how many blocks live, and of how many words together.
    Live,
    /// `dump HEX`: the words of the block at an address.
    Dump {
        at: u64,
    },
}

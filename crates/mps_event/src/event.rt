// What a record is of, by its code.

ghost use Rattle.std.specs.Prelude.{◌≡◌};

use crate::version::Version;

// The codes, by their events.
const ARENA_CREATE: u16 = 1;

const LIMIT_SET: u16 = 2;

const POOL_CREATE: u16 = 16;

const FLIP: u16 = 32;

const END: u16 = 33;

const SEG_ALLOC: u16 = 48;

const SEG_FREE: u16 = 49;

const SPLAT: u16 = 64;

const COMMIT: u16 = 80;

const ALLOC: u16 = 81;

const MOVE: u16 = 82;

const STAY: u16 = 83;

const POST: u16 = 84;

const FREE: u16 = 85;

const INTERN: u16 = 96;

const LABEL: u16 = 97;

/// What a record is of: each event has a code and a number of fields of its own.
#[derive(Clone, Copy, Debug, PartialEq, Eq)]
pub enum Event {
    /// The arena was made: its grains, and the commit limit in grains.
    ArenaCreate,
    /// The commit limit was set, in grains.
    LimitSet,
    /// A pool was made: its number, its kind and its param.
    PoolCreate,
    /// A collection flipped: the zones of what moves, the number of the chain (16 for all pools), and the generation.
    Flip,
    /// The collection ended.
    End,
    /// A segment was taken: its base, its grains, its pool and its generation.
    SegAlloc,
    /// A segment was given back: its base.
    SegFree,
    /// A weak reference became null: the address of the block that holds it, and the cell.
    Splat,
    /// A reservation became a block: its address, its words and its pool.
    Commit,
    /// A manual block was made: its address, its words and its pool.
    Alloc,
    /// A block was moved: from where, and to where.
    Move,
    /// A block stayed where it is, if there is no room: its address.
    Stay,
    /// A registration became a message: the address of its block.
    Post,
    /// A block was freed: its address.
    Free,
    /// A name was interned, in version 2 alone: its number, and its 16 bytes as two numbers.
    Intern,
    /// An address was labelled, in version 2 alone: the address, and the number of the name.
    Label,
}

impl Event {
    ghost use Rattle.mps_event.specs.Event.{event_of, code_of, field_count_of};

    /// The event that a code of a log of this version represents. None exactly if it represents none.
    #[inline(always)]
    pub fn of_code(code: u16, version: Version) -> Option<Event>
        ensures { result ≡ event_of version code }
    {
        match (code, version) {
            (ARENA_CREATE, _) => Some(Event::ArenaCreate),
            (LIMIT_SET, _) => Some(Event::LimitSet),
            (POOL_CREATE, _) => Some(Event::PoolCreate),
            (FLIP, _) => Some(Event::Flip),
            (END, _) => Some(Event::End),
            (SEG_ALLOC, _) => Some(Event::SegAlloc),
            (SEG_FREE, _) => Some(Event::SegFree),
            (SPLAT, _) => Some(Event::Splat),
            (COMMIT, _) => Some(Event::Commit),
            (ALLOC, _) => Some(Event::Alloc),
            (MOVE, _) => Some(Event::Move),
            (STAY, _) => Some(Event::Stay),
            (POST, _) => Some(Event::Post),
            (FREE, _) => Some(Event::Free),
            (INTERN, Version::Two) => Some(Event::Intern),
            (LABEL, Version::Two) => Some(Event::Label),
            _ => None,
        }
    }

    /// The code of the event's records.
    pub fn code(self) -> u16
        ensures { result ≡ code_of self }
    {
        match self {
            Event::ArenaCreate => ARENA_CREATE,
            Event::LimitSet => LIMIT_SET,
            Event::PoolCreate => POOL_CREATE,
            Event::Flip => FLIP,
            Event::End => END,
            Event::SegAlloc => SEG_ALLOC,
            Event::SegFree => SEG_FREE,
            Event::Splat => SPLAT,
            Event::Commit => COMMIT,
            Event::Alloc => ALLOC,
            Event::Move => MOVE,
            Event::Stay => STAY,
            Event::Post => POST,
            Event::Free => FREE,
            Event::Intern => INTERN,
            Event::Label => LABEL,
        }
    }

    /// How many fields the event's records have: at most 4.
    #[inline(always)]
    pub fn field_count(self) -> u16
        ensures { result ≡ field_count_of self }
    {
        match self {
            Event::End => 0,
            Event::LimitSet | Event::SegFree | Event::Stay | Event::Post | Event::Free => 1,
            Event::ArenaCreate | Event::Splat | Event::Move | Event::Label => 2,
            Event::PoolCreate | Event::Flip | Event::Commit | Event::Alloc | Event::Intern => 3,
            Event::SegAlloc => 4,
        }
    }
}

// The records of a log, read and written.
use mps_event::{BadMagic, LogFault, Version, first, header, put};
use std::test::Fail;

// A log of version 1: one object is made, moved, and its old segment given back.
const LOG: [u8; 72] = [
    77, 80, 83, 76, 79, 71, 1, 0, // the header
    80, 0, 3, 0, 7, 0, 0, 0, 0, 16, 0, 0, 0, 0, 0, 0, 3, 0, 0, 0, 0, 0, 0, 0, 0, 0, 0, 0, 0, 0, 0,
    0, 82, 0, 2, 0, 10, 0, 0, 0, 0, 16, 0, 0, 0, 0, 0, 0, 0, 32, 0, 0, 0, 0, 0, 0, 33, 0, 0, 0, 10,
    0, 0, 0,
];

fn code_at(from: usize, ended: bool) -> Result<Option<u16>, LogFault> {
    match LOG.get(from..) {
        Some(bytes) => match first(bytes, ended, Version::One) {
            Ok(Some(entry)) => Ok(Some(entry.code())),
            Ok(None) => Ok(None),
            Err(fault) => Err(fault),
        },
        None => Ok(None),
    }
}

#[test]
fn the_records_of_a_log(rt: HostRuntime) -> Result<(), Fail> {
    assert_eq!(rt; header(&LOG), Ok(Version::One));
    assert_eq!(rt; header(&LOG[..7]), Err(BadMagic));
    assert_eq!(rt; code_at(8, true), Ok(Some(80)));
    assert_eq!(rt; code_at(40, true), Ok(Some(82)));
    assert_eq!(rt; code_at(64, true), Ok(Some(33)));
    assert_eq!(rt; code_at(72, true), Ok(None));
    assert_eq!(rt; code_at(66, false), Ok(None));
    assert_eq!(rt; code_at(66, true), Err(LogFault::Cut));
    assert_eq!(rt; code_at(9, true), Err(LogFault::UnknownCode));
    Ok(())
}

// `9 Intern 0 ring`, and the same with a blank for the name.
const RING: [u8; 32] = [
    96, 0, 3, 0, 9, 0, 0, 0, 0, 0, 0, 0, 0, 0, 0, 0, b'r', b'i', b'n', b'g', 0, 0, 0, 0, 0, 0, 0,
    0, 0, 0, 0, 0,
];

const BLANK: [u8; 32] = [
    96, 0, 3, 0, 9, 0, 0, 0, 0, 0, 0, 0, 0, 0, 0, 0, b' ', 0, 0, 0, 0, 0, 0, 0, 0, 0, 0, 0, 0, 0,
    0, 0,
];

// A record of three fields.
#[derive(Clone, Copy, Debug, PartialEq, Eq)]
struct Three {
    code: u16,
    line: u32,
    fields: [u64; 3],
}

const INTERN: Three = Three {
    code: 96,
    line: 9,
    fields: [0, 0x676e_6972, 0],
};

fn three_at_front(bytes: &[u8], ended: bool, version: Version) -> Result<Option<Three>, LogFault> {
    match first(bytes, ended, version)? {
        Some(entry) if entry.count() == 3 => Ok(Some(Three {
            code: entry.code(),
            line: entry.line(),
            fields: [entry.field(0), entry.field(1), entry.field(2)],
        })),
        _ => Ok(None),
    }
}

#[test]
fn an_interned_name_is_read_again(rt: HostRuntime) -> Result<(), Fail> {
    let mut room = [7u8; 40];
    let size = put(
        &mut room,
        INTERN.line,
        INTERN.code,
        &INTERN.fields,
        Version::Two,
    );
    assert_eq!(rt; size, 32);
    assert_eq!(rt; room[32], 7);
    assert_eq!(rt;
        three_at_front(&room, false, Version::Two),
        Ok(Some(INTERN))
    );
    Ok(())
}

#[test]
fn each_front_is_read_or_at_fault(rt: HostRuntime) -> Result<(), Fail> {
    let cases = [
        (&RING[..], Version::Two, Ok(Some(INTERN))),
        (&RING[..31], Version::Two, Err(LogFault::Cut)),
        (&RING[..], Version::One, Err(LogFault::UnknownCode)),
        (&BLANK[..], Version::Two, Err(LogFault::BadString)),
        (&BLANK[..31], Version::Two, Err(LogFault::Cut)),
    ];
    for (bytes, version, front) in cases {
        assert_eq!(rt; three_at_front(bytes, true, version), front);
    }
    Ok(())
}

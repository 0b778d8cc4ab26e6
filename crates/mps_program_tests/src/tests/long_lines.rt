// Scripts with lines of the greatest length, and of one byte more.
use super::scripts::{ScriptCase, check_script};
use super::{Ends, HEADER};
use mps_desk::DeskCall;
use std::alloc::Global;
use std::process::Abort;
use std::test::Fail;

/// A script whose second line is a byte, n times.
#[derive(Clone, Copy)]
struct LongLine {
    byte: u8,
    length: usize,
    case: ScriptCase,
}

fn check_long_line(rt: &impl Abort, alloc: Global, long: &LongLine) -> Result<(), Fail> {
    let mut script = Vec::from_slice(alloc, b"arena 8 8\n")?;
    script.resize(long.length.saturating_add(10), long.byte)?;
    script.extend_from_slice(b"\ntable t 1\n")?;
    check_script(rt, alloc, &script, &long.case)
}

/// A line of 4096 bytes is read, and one of 4097 is bad, also where that can't be reported, and where a line of spaces comes byte
/// by byte.
const LONG_LINES: [LongLine; 5] = [
    LongLine {
        byte: b'#',
        length: 4096,
        case: ScriptCase {
            script: b"",
            most: 0,
            failing: Some((DeskCall::Err, 2)),
            ends: Ends {
                status: 0,
                printed: b"ok\nok\n",
                reported: b"",
            },
            log: HEADER,
            log_bytes: 32,
        },
    },
    LongLine {
        byte: b'#',
        length: 4097,
        case: ScriptCase {
            script: b"",
            most: 0,
            failing: Some((DeskCall::Err, 2)),
            ends: Ends {
                status: 6,
                printed: b"ok\n",
                reported: b"mps: script line 2: bad line\n",
            },
            log: HEADER,
            log_bytes: 32,
        },
    },
    LongLine {
        byte: b'#',
        length: 4097,
        case: ScriptCase {
            script: b"",
            most: 0,
            failing: Some((DeskCall::Err, 1)),
            ends: Ends {
                status: 6,
                printed: b"ok\n",
                reported: b"",
            },
            log: HEADER,
            log_bytes: 32,
        },
    },
    LongLine {
        byte: b' ',
        length: 4096,
        case: ScriptCase {
            script: b"",
            most: 1,
            failing: None,
            ends: Ends {
                status: 0,
                printed: b"ok\nok\n",
                reported: b"",
            },
            log: HEADER,
            log_bytes: 32,
        },
    },
    LongLine {
        byte: b' ',
        length: 4097,
        case: ScriptCase {
            script: b"",
            most: 1,
            failing: None,
            ends: Ends {
                status: 6,
                printed: b"ok\n",
                reported: b"mps: script line 2: bad line\n",
            },
            log: HEADER,
            log_bytes: 32,
        },
    },
];

#[test]
fn a_line_of_4096_bytes_is_the_longest(rt: HostRuntime) -> Result<(), Fail> {
    for long in &LONG_LINES {
        check_long_line(&rt, rt.alloc(), long)?;
    }
    Ok(())
}

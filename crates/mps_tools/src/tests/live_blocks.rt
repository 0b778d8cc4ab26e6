// The live blocks of whole and damaged logs.
use super::answers::{Case, Tool, compare, compare_in_pieces, damaged};
use super::logs::MOVED;
use mps_desk::DeskCall;
use std::test::Fail;

// Two blocks are labelled. After the header there are Commit at 8, Alloc at 40, Intern at 72, Label at 104 and Label at 128.
const LABELLED: &[u8; 152] = b"MPSLOG\x02\x00\
    \x50\x00\x03\x00\x07\x00\x00\x00\x00\x10\x00\x00\x00\x00\x00\x00\x03\x00\x00\x00\x00\x00\x00\x00\x00\x00\x00\x00\x00\x00\x00\x00\
    \x51\x00\x03\x00\x08\x00\x00\x00\x00\x08\x00\x00\x00\x00\x00\x00\x0c\x00\x00\x00\x00\x00\x00\x00\x01\x00\x00\x00\x00\x00\x00\x00\
    \x60\x00\x03\x00\x09\x00\x00\x00\x00\x00\x00\x00\x00\x00\x00\x00ring\x00\x00\x00\x00\x00\x00\x00\x00\x00\x00\x00\x00\
    \x61\x00\x02\x00\x0a\x00\x00\x00\x00\x10\x00\x00\x00\x00\x00\x00\x00\x00\x00\x00\x00\x00\x00\x00\
    \x61\x00\x02\x00\x0b\x00\x00\x00\x00\x08\x00\x00\x00\x00\x00\x00\x00\x00\x00\x00\x00\x00\x00\x00";

// Whole logs, cut to a size, and what is printed of them.
const WHOLE: [(&[u8], usize, &[u8]); 4] = [
    (MOVED, 256, b"0x2000 3 0\n"),
    (MOVED, 208, b"0x1000 3 0\n"),
    (MOVED, 8, b""),
    (LABELLED, 152, b"0x800 12 1\n0x1000 3 0\n"),
];

// Logs, cut to a size and with one byte changed, and what is reported of them.
const BAD: [(&[u8], usize, usize, u8, &[u8]); 19] = [
    (MOVED, 0, 0, b'M', b"mps: log offset 0: bad header\n"),
    (MOVED, 7, 0, b'M', b"mps: log offset 0: bad header\n"),
    (MOVED, 256, 5, b'H', b"mps: log offset 0: bad header\n"),
    (MOVED, 256, 6, 3, b"mps: log offset 0: bad header\n"),
    (MOVED, 39, 0, b'M', b"mps: log offset 32: cut record\n"),
    (MOVED, 40, 0, b'M', b"mps: log offset 32: cut record\n"),
    (MOVED, 250, 0, b'M', b"mps: log offset 248: cut record\n"),
    (MOVED, 256, 32, 17, b"mps: log offset 32: unknown code\n"),
    (MOVED, 256, 34, 2, b"mps: log offset 32: bad count\n"),
    (MOVED, 256, 210, 3, b"mps: log offset 208: bad count\n"),
    (MOVED, 256, 216, 8, b"mps: log offset 208: bad replay\n"),
    (MOVED, 256, 225, 16, b"mps: log offset 208: bad replay\n"),
    (MOVED, 250, 216, 8, b"mps: log offset 208: bad replay\n"),
    (LABELLED, 152, 6, 1, b"mps: log offset 72: unknown code\n"),
    (LABELLED, 152, 80, 1, b"mps: log offset 72: bad replay\n"),
    (LABELLED, 152, 88, b'R', b"mps: log offset 72: bad string\n"),
    (LABELLED, 152, 93, b'x', b"mps: log offset 72: bad string\n"),
    (LABELLED, 152, 120, 1, b"mps: log offset 104: bad replay\n"),
    (LABELLED, 152, 136, 8, b"mps: log offset 128: bad replay\n"),
];

// The bytes that the desk reads and writes at once.
const PIECES: [usize; 4] = [usize::MAX, 1, 7, 255];

/// Each whole log gives its live blocks.
#[test]
fn whole_logs(rt: HostRuntime) -> Result<(), Fail> {
    for (log, size, printed) in WHOLE {
        let log = damaged(rt.alloc(), log, size, 0, b'M')?;
        let case = Case {
            tool: Tool::Blocks,
            input: &log,
            failing: &[],
            status: 0,
            printed,
            reported: b"",
        };
        compare_in_pieces(&rt, rt.alloc(), &case, &PIECES)?;
    }
    Ok(())
}

/// Each fault is named at its offset, the first one counts, and nothing is printed.
#[test]
fn damaged_logs(rt: HostRuntime) -> Result<(), Fail> {
    for (log, size, at, byte, reported) in BAD {
        let log = damaged(rt.alloc(), log, size, at, byte)?;
        let case = Case {
            tool: Tool::Blocks,
            input: &log,
            failing: &[],
            status: 6,
            printed: b"",
            reported,
        };
        compare_in_pieces(&rt, rt.alloc(), &case, &PIECES)?;
    }
    Ok(())
}

/// A call of the desk that fails ends the program with its status; where a report fails, the status stays.
#[test]
fn each_call_of_the_desk_may_fail(rt: HostRuntime) -> Result<(), Fail> {
    for (call, number, size, status, printed, reported) in [
        (
            DeskCall::Open,
            1u64,
            256usize,
            3u8,
            b"".as_slice(),
            b"mps: read failed\n".as_slice(),
        ),
        (DeskCall::Read, 2, 256, 3, b"", b"mps: read failed\n"),
        (DeskCall::Out, 2, 256, 4, b"0x200", b"mps: write failed\n"),
        (DeskCall::Err, 1, 250, 6, b"", b""),
        (DeskCall::Err, 2, 250, 6, b"", b"mps: "),
    ] {
        let log = damaged(rt.alloc(), MOVED, size, 0, b'M')?;
        let case = Case {
            tool: Tool::Blocks,
            input: &log,
            failing: &[(call, number)],
            status,
            printed,
            reported,
        };
        compare(&rt, rt.alloc(), &case, 5)?;
    }
    Ok(())
}

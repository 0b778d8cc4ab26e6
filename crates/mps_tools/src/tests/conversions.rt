// The portable text of whole and damaged logs.
use super::answers::{Case, Tool, compare, compare_in_pieces, damaged};
use super::logs::MOVED;
use crate::Kinds;
use bitflags::Flags;
use mps_desk::DeskCall;
use std::test::Fail;

// The portable text of `MOVED`.
const PORTABLE: &[u8] =
    b"mpslog 1\n1 1 8 8\n3 16 0 1 1\n5 48 1000 1 0 0\n7 80 1000 3 0\n10 32 2 10 0\n\
    10 48 2000 1 0 0\n10 82 1000 2000\n10 49 1000\n10 33\n";

// A block of 3 words is committed at 0x1000 and labelled `ring`. After the header there are Commit at 8, Intern at 40 and
// Label at 72.
const LABELLED: &[u8; 96] = b"MPSLOG\x02\x00\
    \x50\x00\x03\x00\x07\x00\x00\x00\x00\x10\x00\x00\x00\x00\x00\x00\x03\x00\x00\x00\x00\x00\x00\x00\x00\x00\x00\x00\x00\x00\x00\x00\
    \x60\x00\x03\x00\x09\x00\x00\x00\x00\x00\x00\x00\x00\x00\x00\x00ring\x00\x00\x00\x00\x00\x00\x00\x00\x00\x00\x00\x00\
    \x61\x00\x02\x00\x0a\x00\x00\x00\x00\x10\x00\x00\x00\x00\x00\x00\x00\x00\x00\x00\x00\x00\x00\x00";

// Its portable text.
const LABELS: &[u8] = b"mpslog 2\n7 80 1000 3 0\n9 96 0 676e6972 0\n10 97 1000 0\n";

// The bytes that the desk reads and writes at once.
const PIECES: [usize; 3] = [1, 7, 255];

/// The log as it is, cut, and with one byte changed: all before the fault is printed, which is named at its offset.
#[test]
fn whole_and_damaged_logs(rt: HostRuntime) -> Result<(), Fail> {
    for (size, at, byte, status, length, reported) in [
        (256usize, 0usize, b'M', 0u8, PORTABLE.len(), b"".as_slice()),
        (8, 0, b'M', 0, 9, b""),
        (39, 0, b'M', 6, 17, b"mps: log offset 32: cut record\n"),
        (40, 0, b'M', 6, 17, b"mps: log offset 32: cut record\n"),
        (
            250,
            0,
            b'M',
            6,
            PORTABLE.len() - 6,
            b"mps: log offset 248: cut record\n",
        ),
        (256, 32, 17, 6, 17, b"mps: log offset 32: unknown code\n"),
        (256, 32, 96, 6, 17, b"mps: log offset 32: unknown code\n"),
        (256, 34, 2, 6, 17, b"mps: log offset 32: bad count\n"),
        (256, 10, 3, 6, 9, b"mps: log offset 8: bad count\n"),
        (256, 5, b'H', 6, 0, b"mps: log offset 0: bad header\n"),
        (256, 6, 3, 6, 0, b"mps: log offset 0: bad header\n"),
        (7, 0, b'M', 6, 0, b"mps: log offset 0: bad header\n"),
        (0, 0, b'M', 6, 0, b"mps: log offset 0: bad header\n"),
    ] {
        let log = damaged(rt.alloc(), MOVED, size, at, byte)?;
        let case = Case {
            tool: Tool::Cnv(Kinds::all()),
            input: &log,
            failing: &[],
            status,
            printed: PORTABLE.get(..length).unwrap_or(b""),
            reported,
        };
        compare_in_pieces(&rt, rt.alloc(), &case, &PIECES)?;
    }
    Ok(())
}

/// A log of version 2 as it is, with a string that is no name, and cut.
#[test]
fn labelled_logs(rt: HostRuntime) -> Result<(), Fail> {
    for (size, at, byte, status, printed, reported) in [
        (96usize, 0usize, b'M', 0u8, LABELS, b"".as_slice()),
        (
            96,
            56,
            b'R',
            6,
            b"mpslog 2\n7 80 1000 3 0\n",
            b"mps: log offset 40: bad string\n",
        ),
        (
            71,
            56,
            b'R',
            6,
            b"mpslog 2\n7 80 1000 3 0\n",
            b"mps: log offset 40: cut record\n",
        ),
        (
            96,
            6,
            1,
            6,
            b"mpslog 1\n7 80 1000 3 0\n",
            b"mps: log offset 40: unknown code\n",
        ),
    ] {
        let log = damaged(rt.alloc(), LABELLED, size, at, byte)?;
        let case = Case {
            tool: Tool::Cnv(Kinds::all()),
            input: &log,
            failing: &[],
            status,
            printed,
            reported,
        };
        compare_in_pieces(&rt, rt.alloc(), &case, &PIECES)?;
    }
    Ok(())
}

/// Of some kinds the text has their lines alone, and a move from nowhere is a line like another.
#[test]
fn lines_of_some_kinds(rt: HostRuntime) -> Result<(), Fail> {
    for (log, at, byte, kinds, printed) in [
        (
            MOVED.as_slice(),
            0usize,
            b'M',
            Kinds::SEG | Kinds::OBJECT,
            b"mpslog 1\n5 48 1000 1 0 0\n7 80 1000 3 0\n10 48 2000 1 0 0\n10 82 1000 2000\n10 49 1000\n".as_slice(),
        ),
        (
            MOVED,
            216,
            8,
            Kinds::OBJECT,
            b"mpslog 1\n7 80 1000 3 0\n10 82 1008 2000\n",
        ),
        (
            LABELLED,
            0,
            b'M',
            Kinds::USER,
            b"mpslog 2\n9 96 0 676e6972 0\n10 97 1000 0\n",
        ),
        (LABELLED, 0, b'M', Kinds::ARENA | Kinds::REF, b"mpslog 2\n"),
    ] {
        let log = damaged(rt.alloc(), log, log.len(), at, byte)?;
        let case = Case {
            tool: Tool::Cnv(kinds),
            input: &log,
            failing: &[],
            status: 0,
            printed,
            reported: b"",
        };
        compare_in_pieces(&rt, rt.alloc(), &case, &PIECES)?;
    }
    Ok(())
}

/// A call of the desk that fails ends the program with its status.
#[test]
fn each_call_of_the_desk_may_fail(rt: HostRuntime) -> Result<(), Fail> {
    for (call, number, status, printed, reported) in [
        (
            DeskCall::Open,
            1u64,
            3u8,
            b"".as_slice(),
            b"mps: read failed\n".as_slice(),
        ),
        (
            DeskCall::Read,
            4,
            3,
            b"mpslog 1\n1 1 8 8\n",
            b"mps: read failed\n",
        ),
        (DeskCall::Out, 1, 4, b"", b"mps: write failed\n"),
    ] {
        let case = Case {
            tool: Tool::Cnv(Kinds::all()),
            input: MOVED,
            failing: &[(call, number)],
            status,
            printed,
            reported,
        };
        compare(&rt, rt.alloc(), &case, 16)?;
    }
    Ok(())
}

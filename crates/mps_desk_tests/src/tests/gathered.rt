// The program over a desk that takes parts of pieces and fails, with the buffers between the two.
use super::played::{Call, Played, PlayedDesk};
use super::{compare_bytes, words_of};
use mps_program::start_over;
use std::alloc::{AllocError, Global};
use std::process::Abort;
use std::test::Fail;

/// It commits one block and prints its number.
const SCRIPT: &[u8] =
    b"arena 8 8\ntable t 4\npool p amc front\nap x p exact\nreserve x f:3:1\ninit x 2 7\ncommit x t.0\nnum t.0 2\n";

const ANSWERS: &[u8] = b"ok\nok\nok\nok\nok\nok\nok\n7\n";

/// The length of a log with the header, and the records ArenaCreate, PoolCreate, SegAlloc and Commit.
const LOG_BYTES: usize = 136;

/// The results of some calls, and how a run of a script ends with them.
#[derive(Clone, Copy)]
struct PlayedCase {
    script: &'static [u8],
    played: &'static [(Call, Played)],
    status: u8,
    printed: &'static [u8],
    /// How many bytes of the log were taken.
    log_bytes: usize,
    reported: &'static [u8],
}

fn check_played(
    rt: &impl Abort,
    alloc: Global,
    script: &[u8],
    case: &PlayedCase,
) -> Result<(), Fail> {
    let (status, desk) = run_played(alloc, script, case.played)?;
    compare_played(rt, &desk, status, case);
    drop(desk);
    Ok(())
}

/// Runs a script over a desk that plays results, and returns the status and the desk.
fn run_played(
    alloc: Global,
    script: &[u8],
    played: &[(Call, Played)],
) -> Result<(u8, PlayedDesk), AllocError> {
    let words = words_of(alloc, "run")?;
    let desk = PlayedDesk::new(alloc, script, played)?;
    Ok(start_over(alloc, 7, Ok(words), desk))
}

fn compare_played(rt: &impl Abort, desk: &PlayedDesk, status: u8, case: &PlayedCase) {
    assert_eq!(rt; status, case.status);
    compare_bytes(rt, desk.printed(), case.printed, "printed");
    assert_eq!(rt; desk.logged().len(), case.log_bytes);
    compare_bytes(rt, desk.reported(), case.reported, "reported");
}

const LOG_FAILED: &[u8] = b"mps: log failed\n";

const WRITE_FAILED: &[u8] = b"mps: write failed\n";

const READ_FAILED: &[u8] = b"mps: read failed\n";

/// The header of the log is handed on before the first read, and all records and answers before the second.
const PLAYED: [PlayedCase; 16] = [
    PlayedCase {
        script: SCRIPT,
        played: &[],
        status: 0,
        printed: ANSWERS,
        log_bytes: LOG_BYTES,
        reported: b"",
    },
    PlayedCase {
        script: SCRIPT,
        played: &[
            (Call::Log, Played::Takes(1)),
            (Call::Log, Played::Takes(3)),
            (Call::Out, Played::Takes(1)),
            (Call::Out, Played::Takes(2)),
            (Call::Read, Played::Takes(1)),
            (Call::Read, Played::Takes(30)),
        ],
        status: 0,
        printed: ANSWERS,
        log_bytes: LOG_BYTES,
        reported: b"",
    },
    PlayedCase {
        script: SCRIPT,
        played: &[(Call::Log, Played::Fails)],
        status: 5,
        printed: b"",
        log_bytes: 0,
        reported: LOG_FAILED,
    },
    PlayedCase {
        script: SCRIPT,
        played: &[(Call::Log, Played::Takes(3)), (Call::Log, Played::Fails)],
        status: 5,
        printed: b"",
        log_bytes: 3,
        reported: LOG_FAILED,
    },
    PlayedCase {
        script: SCRIPT,
        played: &[
            (Call::Log, Played::Takes(8)),
            (Call::Log, Played::Takes(20)),
            (Call::Log, Played::Fails),
        ],
        status: 5,
        printed: b"",
        log_bytes: 28,
        reported: LOG_FAILED,
    },
    PlayedCase {
        script: SCRIPT,
        played: &[(Call::SettleLog, Played::Fails)],
        status: 5,
        printed: b"",
        log_bytes: 8,
        reported: LOG_FAILED,
    },
    PlayedCase {
        script: SCRIPT,
        played: &[
            (Call::SettleLog, Played::Takes(1)),
            (Call::SettleLog, Played::Fails),
        ],
        status: 5,
        printed: b"",
        log_bytes: LOG_BYTES,
        reported: LOG_FAILED,
    },
    PlayedCase {
        script: SCRIPT,
        played: &[(Call::Out, Played::Takes(4)), (Call::Out, Played::Fails)],
        status: 4,
        printed: b"ok\no",
        log_bytes: LOG_BYTES,
        reported: WRITE_FAILED,
    },
    PlayedCase {
        script: SCRIPT,
        played: &[(Call::SettleOut, Played::Fails)],
        status: 4,
        printed: b"",
        log_bytes: 8,
        reported: WRITE_FAILED,
    },
    PlayedCase {
        script: SCRIPT,
        played: &[
            (Call::SettleOut, Played::Takes(1)),
            (Call::SettleOut, Played::Fails),
        ],
        status: 4,
        printed: ANSWERS,
        log_bytes: LOG_BYTES,
        reported: WRITE_FAILED,
    },
    PlayedCase {
        script: b"arena 8 8\ncommitted",
        played: &[(Call::Read, Played::Takes(10)), (Call::Read, Played::Fails)],
        status: 3,
        printed: b"ok\n",
        log_bytes: 32,
        reported: READ_FAILED,
    },
    PlayedCase {
        script: b"arena 8 8\ncommitted",
        played: &[(Call::Read, Played::Takes(14)), (Call::Read, Played::Fails)],
        status: 3,
        printed: b"ok\n",
        log_bytes: 32,
        reported: READ_FAILED,
    },
    PlayedCase {
        script: b"arena 8 8\nlimit 08\n",
        played: &[(Call::Err, Played::Fails)],
        status: 6,
        printed: b"ok\n",
        log_bytes: 32,
        reported: b"",
    },
    PlayedCase {
        script: b"arena 8 8\nlimit 08\n",
        played: &[(Call::Err, Played::Takes(5)), (Call::Err, Played::Fails)],
        status: 6,
        printed: b"ok\n",
        log_bytes: 32,
        reported: b"mps: ",
    },
    PlayedCase {
        script: SCRIPT,
        played: &[(Call::Open, Played::Fails)],
        status: 3,
        printed: b"",
        log_bytes: 0,
        reported: READ_FAILED,
    },
    PlayedCase {
        script: SCRIPT,
        played: &[(Call::Create, Played::Fails)],
        status: 5,
        printed: b"",
        log_bytes: 0,
        reported: LOG_FAILED,
    },
];

#[test]
fn each_call_of_the_inner_desk_may_fail(rt: HostRuntime) -> Result<(), Fail> {
    for case in &PLAYED {
        check_played(&rt, rt.alloc(), case.script, case)?;
    }
    Ok(())
}

/// A block of 500 words.
const LARGE_BLOCK: &[u8] =
    b"arena 8 8\ntable t 1\npool p amc front\nap x p exact\nreserve x f:500:0\ncommit x t.0\n";

/// The answers are more than what waits at most, and come between two reads: handing them on, the log's bytes come first.
const LONG_ANSWERS: [PlayedCase; 2] = [
    PlayedCase {
        script: LARGE_BLOCK,
        played: &[(Call::Log, Played::Takes(8)), (Call::Log, Played::Fails)],
        status: 5,
        printed: b"",
        log_bytes: 8,
        reported: LOG_FAILED,
    },
    PlayedCase {
        script: LARGE_BLOCK,
        played: &[(Call::Out, Played::Takes(4)), (Call::Out, Played::Fails)],
        status: 4,
        printed: b"ok\no",
        log_bytes: LOG_BYTES,
        reported: WRITE_FAILED,
    },
];

/// The script, and then 40 times a command that prints all words of the block.
fn with_long_answers(alloc: Global, script: &[u8]) -> Result<Vec<u8>, AllocError> {
    let mut long = Vec::from_slice(alloc, script)?;
    for _ in 0..40 {
        long.extend_from_slice(b"dump 0x1000\n")?;
    }
    Ok(long)
}

/// Without a fault all is printed.
fn check_long(rt: &impl Abort, alloc: Global) -> Result<(), Fail> {
    let script = with_long_answers(alloc, LARGE_BLOCK)?;
    let (status, desk) = run_played(alloc, &script, &[])?;
    let printed = desk.printed().len();
    drop(desk);
    assert_eq!(rt; status, 0);
    assert!(rt; printed > 65_536);
    Ok(())
}

/// Checks a case whose script has long answers.
fn check_long_played(rt: &impl Abort, alloc: Global, case: &PlayedCase) -> Result<(), Fail> {
    let script = with_long_answers(alloc, case.script)?;
    check_played(rt, alloc, &script, case)
}

#[test]
fn answers_that_are_more_than_waits_at_most(rt: HostRuntime) -> Result<(), Fail> {
    check_long(&rt, rt.alloc())?;
    for case in &LONG_ANSWERS {
        check_long_played(&rt, rt.alloc(), case)?;
    }
    Ok(())
}

// Scripts on standard input.
use super::{
    ARENA_AGAIN, COLLECTED, COLLECTED_ANSWERS, COMMENTS, Ends, FIRST, FIRST_ANSWERS, FIRST_LOG,
    FULL_ARENA, FULL_ARENA_ANSWERS, HEADER, HEADS, HEADS_ANSWERS, LABELLED, LABELLED_ANSWERS,
    NO_ARENA_FIRST, SPACED, SPACED_ANSWERS, TAGGED, TAGGED_ANSWERS, compare, run,
};
use mps_desk::{DeskCall, MemDesk};
use std::alloc::{AllocError, Global};
use std::process::Abort;
use std::test::Fail;

/// The program over a script on standard input.
#[derive(Clone, Copy)]
pub(super) struct ScriptCase {
    pub(super) script: &'static [u8],
    /// The most bytes that a call of the desk handles, 0 where it handles all.
    pub(super) most: usize,
    /// The call of the desk that fails, by its number.
    pub(super) failing: Option<(DeskCall, u64)>,
    pub(super) ends: Ends,
    /// What the log begins with, and its length.
    pub(super) log: &'static [u8],
    pub(super) log_bytes: usize,
}

pub(super) fn check_script(
    rt: &impl Abort,
    alloc: Global,
    script: &[u8],
    case: &ScriptCase,
) -> Result<(), Fail> {
    let mut desk = MemDesk::new(alloc);
    let checked = check_script_on(rt, alloc, &mut desk, script, case);
    drop(desk);
    checked
}

/// Checks each case of a table.
fn check_all(rt: &impl Abort, alloc: Global, cases: &[ScriptCase]) -> Result<(), Fail> {
    for case in cases {
        check_script(rt, alloc, case.script, case)?;
    }
    Ok(())
}

fn check_script_on(
    rt: &impl Abort,
    alloc: Global,
    desk: &mut MemDesk,
    script: &[u8],
    case: &ScriptCase,
) -> Result<(), Fail> {
    lay_script(desk, script, case)?;
    let status = run(alloc, desk, "run")?;
    compare(rt, desk, "run", status, &case.ends);
    compare_log(rt, desk, case);
    Ok(())
}

fn lay_script(desk: &mut MemDesk, script: &[u8], case: &ScriptCase) -> Result<(), AllocError> {
    desk.add_file("-", script)?;
    if case.most > 0 {
        desk.pieces(case.most);
    }
    lay_fault(desk, case.failing)
}

fn lay_fault(desk: &mut MemDesk, failing: Option<(DeskCall, u64)>) -> Result<(), AllocError> {
    let Some((call, number)) = failing else {
        return Ok(());
    };
    desk.fail(call, number)
}

fn compare_log(rt: &impl Abort, desk: &MemDesk, case: &ScriptCase) {
    let log = desk.file("mpsio.log").unwrap_or(&[]);
    assert_eq!(rt; log.len(), case.log_bytes);
    assert!(rt; log.starts_with(case.log));
}

/// Whole and in pieces of 1 and of 7 bytes, the first script has its answers, and its log byte for byte. Then scripts that
/// have no command, an arena that is full (also byte by byte), heads in their forms, and commands out of turn.
const SCRIPTS: [ScriptCase; 14] = [
    ScriptCase {
        script: FIRST,
        most: 0,
        failing: None,
        ends: Ends {
            status: 0,
            printed: FIRST_ANSWERS,
            reported: b"",
        },
        log: FIRST_LOG,
        log_bytes: 136,
    },
    ScriptCase {
        script: FIRST,
        most: 1,
        failing: None,
        ends: Ends {
            status: 0,
            printed: FIRST_ANSWERS,
            reported: b"",
        },
        log: FIRST_LOG,
        log_bytes: 136,
    },
    ScriptCase {
        script: FIRST,
        most: 7,
        failing: None,
        ends: Ends {
            status: 0,
            printed: FIRST_ANSWERS,
            reported: b"",
        },
        log: FIRST_LOG,
        log_bytes: 136,
    },
    ScriptCase {
        script: b"",
        most: 0,
        failing: None,
        ends: Ends {
            status: 0,
            printed: b"",
            reported: b"",
        },
        log: HEADER,
        log_bytes: 8,
    },
    ScriptCase {
        script: COMMENTS,
        most: 0,
        failing: None,
        ends: Ends {
            status: 0,
            printed: b"",
            reported: b"",
        },
        log: HEADER,
        log_bytes: 8,
    },
    ScriptCase {
        script: FULL_ARENA,
        most: 0,
        failing: None,
        ends: Ends {
            status: 0,
            printed: FULL_ARENA_ANSWERS,
            reported: b"",
        },
        log: HEADER,
        log_bytes: 136,
    },
    ScriptCase {
        script: FULL_ARENA,
        most: 1,
        failing: None,
        ends: Ends {
            status: 0,
            printed: FULL_ARENA_ANSWERS,
            reported: b"",
        },
        log: HEADER,
        log_bytes: 136,
    },
    ScriptCase {
        script: COLLECTED,
        most: 0,
        failing: None,
        ends: Ends {
            status: 0,
            printed: COLLECTED_ANSWERS,
            reported: b"",
        },
        log: FIRST_LOG,
        log_bytes: 256,
    },
    ScriptCase {
        script: TAGGED,
        most: 0,
        failing: None,
        ends: Ends {
            status: 0,
            printed: TAGGED_ANSWERS,
            reported: b"",
        },
        log: HEADER,
        log_bytes: 256,
    },
    ScriptCase {
        script: LABELLED,
        most: 0,
        failing: None,
        ends: Ends {
            status: 0,
            printed: LABELLED_ANSWERS,
            reported: b"",
        },
        log: FIRST_LOG,
        log_bytes: 368,
    },
    ScriptCase {
        script: HEADS,
        most: 0,
        failing: None,
        ends: Ends {
            status: 0,
            printed: HEADS_ANSWERS,
            reported: b"",
        },
        log: HEADER,
        log_bytes: 168,
    },
    ScriptCase {
        script: SPACED,
        most: 0,
        failing: None,
        ends: Ends {
            status: 0,
            printed: SPACED_ANSWERS,
            reported: b"",
        },
        log: HEADER,
        log_bytes: 32,
    },
    ScriptCase {
        script: NO_ARENA_FIRST,
        most: 0,
        failing: None,
        ends: Ends {
            status: 6,
            printed: b"",
            reported: b"mps: script line 2: bad line\n",
        },
        log: HEADER,
        log_bytes: 8,
    },
    ScriptCase {
        script: ARENA_AGAIN,
        most: 0,
        failing: None,
        ends: Ends {
            status: 6,
            printed: b"ok\n",
            reported: b"mps: script line 3: bad line\n",
        },
        log: HEADER,
        log_bytes: 32,
    },
];

#[test]
fn scripts_and_their_answers(rt: HostRuntime) -> Result<(), Fail> {
    check_all(&rt, rt.alloc(), &SCRIPTS)
}

/// The first script over a desk at which one call fails: the run ends there, and all before it is printed and logged.
const FAILING_CALLS: [ScriptCase; 6] = [
    ScriptCase {
        script: FIRST,
        most: 0,
        failing: Some((DeskCall::Open, 1)),
        ends: Ends {
            status: 3,
            printed: b"",
            reported: b"mps: read failed\n",
        },
        log: b"",
        log_bytes: 0,
    },
    ScriptCase {
        script: FIRST,
        most: 0,
        failing: Some((DeskCall::Create, 1)),
        ends: Ends {
            status: 5,
            printed: b"",
            reported: b"mps: log failed\n",
        },
        log: b"",
        log_bytes: 0,
    },
    ScriptCase {
        script: FIRST,
        most: 0,
        failing: Some((DeskCall::Log, 1)),
        ends: Ends {
            status: 5,
            printed: b"",
            reported: b"mps: log failed\n",
        },
        log: b"",
        log_bytes: 0,
    },
    ScriptCase {
        script: FIRST,
        most: 0,
        failing: Some((DeskCall::Log, 3)),
        ends: Ends {
            status: 5,
            printed: b"ok\nok\n",
            reported: b"mps: log failed\n",
        },
        log: HEADER,
        log_bytes: 32,
    },
    ScriptCase {
        script: FIRST,
        most: 0,
        failing: Some((DeskCall::Read, 2)),
        ends: Ends {
            status: 3,
            printed: FIRST_ANSWERS,
            reported: b"mps: read failed\n",
        },
        log: FIRST_LOG,
        log_bytes: 136,
    },
    ScriptCase {
        script: FIRST,
        most: 0,
        failing: Some((DeskCall::Out, 3)),
        ends: Ends {
            status: 4,
            printed: b"ok\nok\n",
            reported: b"mps: write failed\n",
        },
        log: HEADER,
        log_bytes: 64,
    },
];

#[test]
fn each_call_of_the_desk_may_fail(rt: HostRuntime) -> Result<(), Fail> {
    check_all(&rt, rt.alloc(), &FAILING_CALLS)
}

/// A line in the form of no command, after lines that are in the grammar, and what these answer.
struct BadLineCase {
    before: &'static [u8],
    answers: &'static [u8],
    log_bytes: usize,
    lines: &'static [&'static [u8]],
}

/// An unknown command, words too few and too many, numbers out of their range and in a wrong form, and bytes that are no white
/// space: where `arena` may stand, and after it.
const BAD_LINES: [BadLineCase; 2] = [
    BadLineCase {
        before: b"\n",
        answers: b"",
        log_bytes: 8,
        lines: &[
            b"arena 0 8",
            b"arena 8",
            b"arena 8 8\r",
            b"arena\t8 8",
            b"arena 8\x00 8",
            b"\t# x",
        ],
    },
    BadLineCase {
        before: b"arena 8 8\n",
        answers: b"ok\n",
        log_bytes: 32,
        lines: &[
            b"foo",
            b"\xc3\xa9",
            b"table t",
            b"table t 1 1",
            b"table t 0",
            b"table t 01",
            b"table T 1",
            b"table\tt 1",
            b"reserve x f:2:0 f:2:0",
            b"reserve x f:2:x",
            b"reserve x f:2:0\t",
            b"live\r",
            b"live\x00",
            b"committed\t",
            b"committed\r",
            b"limit 08",
            b"limit 2049",
            b"limit 18446744073709551616",
            b"pool P9 mvff",
            b"table abcdefghijklmnopq 1",
            b"settag t.0 1 8",
            b"settag t.0 1 05",
            b"settag t.0 1",
            b"intern abcdefghijklmnopq",
            b"label t.0",
            b"\x00",
        ],
    },
];

/// A script with this line, before another one.
fn script_with(alloc: Global, before: &[u8], line: &[u8]) -> Result<Vec<u8>, AllocError> {
    let mut script = Vec::from_slice(alloc, before)?;
    script.extend_from_slice(line)?;
    script.extend_from_slice(b"\narena 8 8\n")?;
    Ok(script)
}

fn check_bad_line(
    rt: &impl Abort,
    alloc: Global,
    case: &BadLineCase,
    line: &[u8],
    most: usize,
) -> Result<(), Fail> {
    let script = script_with(alloc, case.before, line)?;
    let expected = ScriptCase {
        script: b"",
        most,
        failing: None,
        ends: Ends {
            status: 6,
            printed: case.answers,
            reported: b"mps: script line 2: bad line\n",
        },
        log: HEADER,
        log_bytes: case.log_bytes,
    };
    check_script(rt, alloc, &script, &expected)
}

/// Checks each line of a case, whole and byte by byte.
fn check_bad_lines(rt: &impl Abort, alloc: Global, case: &BadLineCase) -> Result<(), Fail> {
    for line in case.lines {
        check_bad_line(rt, alloc, case, line, 0)?;
        check_bad_line(rt, alloc, case, line, 1)?;
    }
    Ok(())
}

#[test]
fn a_line_in_the_form_of_no_command_is_bad(rt: HostRuntime) -> Result<(), Fail> {
    for case in &BAD_LINES {
        check_bad_lines(&rt, rt.alloc(), case)?;
    }
    Ok(())
}

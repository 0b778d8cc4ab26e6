// Runs and readers over real files and devices that fail: each ends before anything is printed.
use super::words_of;
use mps_desk::HostDesk;
use mps_program::start_over;
use std::alloc::{AllocError, Global};
use std::fs::{remove_file, write};
use std::test::Fail;

const SCRIPT_FILE: &str = "mps_cli_test.script";

/// A line of words, and the status with which it ends.
struct HostCase {
    line: &'static str,
    status: u8,
}

const HOST_CASES: [HostCase; 9] = [
    HostCase {
        line: "run mps_cli_test.absent",
        status: 3,
    },
    HostCase {
        line: "run .",
        status: 3,
    },
    HostCase {
        line: "run -o . mps_cli_test.script",
        status: 5,
    },
    HostCase {
        line: "run -o mps_cli_test.script mps_cli_test.script",
        status: 5,
    },
    HostCase {
        line: "run -o /dev/full mps_cli_test.script",
        status: 5,
    },
    HostCase {
        line: "cnv -f mps_cli_test.absent",
        status: 3,
    },
    HostCase {
        line: "cnv -f mps_cli_test.script",
        status: 6,
    },
    HostCase {
        line: "blocks -f mps_cli_test.script",
        status: 6,
    },
    HostCase {
        line: "txt -l mps_cli_test.script",
        status: 6,
    },
];

/// Runs the program with the words of a line over a real desk, and returns the status.
fn run_host(alloc: Global, desk: HostDesk, line: &str) -> Result<u8, AllocError> {
    let words = words_of(alloc, line)?;
    let (status, desk) = start_over(alloc, 7, Ok(words), desk);
    drop(desk);
    Ok(status)
}

#[test]
fn each_call_of_the_real_desk_may_fail(rt: HostRuntime) -> Result<(), Fail> {
    write(&rt, SCRIPT_FILE, b"arena 8 8\n")?;
    for case in &HOST_CASES {
        let status = run_host(rt.alloc(), HostDesk::new(&rt), case.line)?;
        assert_eq!(rt; status, case.status, "{}", case.line);
    }
    remove_file(&rt, SCRIPT_FILE)?;
    Ok(())
}

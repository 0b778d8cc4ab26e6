// The words of the command line.
use super::{Ends, FIRST, FIRST_ANSWERS, FIRST_LOG, GENERATED, HEADER, USAGE, compare, run};
use mps_desk::MemDesk;
use std::alloc::Global;
use std::process::Abort;
use std::test::Fail;

/// A line of words over a desk with a script `s`, the log `l` of the first script and an empty standard input.
#[derive(Clone, Copy)]
struct WordsCase {
    line: &'static str,
    ends: Ends,
    /// What the file `a` holds after the run, where there is one.
    named: Option<&'static [u8]>,
    /// What `mpsio.log` holds.
    usual: Option<&'static [u8]>,
}

fn check_words(rt: &impl Abort, alloc: Global, case: &WordsCase) -> Result<(), Fail> {
    let mut desk = MemDesk::new(alloc);
    let checked = check_words_on(rt, alloc, &mut desk, case);
    drop(desk);
    checked
}

fn check_words_on(
    rt: &impl Abort,
    alloc: Global,
    desk: &mut MemDesk,
    case: &WordsCase,
) -> Result<(), Fail> {
    desk.add_file("s", FIRST)?;
    desk.add_file("l", FIRST_LOG)?;
    let status = run(alloc, desk, case.line)?;
    compare(rt, desk, case.line, status, &case.ends);
    compare_files(rt, desk, case);
    Ok(())
}

fn compare_files(rt: &impl Abort, desk: &MemDesk, case: &WordsCase) {
    compare_file(rt, desk.file("a"), case.named, case.line);
    compare_file(rt, desk.file("mpsio.log"), case.usual, case.line);
}

fn compare_file(rt: &impl Abort, got: Option<&[u8]>, wanted: Option<&[u8]>, line: &str) {
    assert_eq!(rt; got, wanted, "{line}");
}

/// Each line of words has its answers, and its log goes to the file that is named and no other.
const LINES_OF_WORDS: [WordsCase; 17] = [
    WordsCase {
        line: "",
        ends: Ends {
            status: 2,
            printed: b"",
            reported: USAGE,
        },
        named: None,
        usual: None,
    },
    WordsCase {
        line: "run --help",
        ends: Ends {
            status: 2,
            printed: b"",
            reported: USAGE,
        },
        named: None,
        usual: None,
    },
    WordsCase {
        line: "run -o a -o b",
        ends: Ends {
            status: 2,
            printed: b"",
            reported: USAGE,
        },
        named: None,
        usual: None,
    },
    WordsCase {
        line: "run -o -",
        ends: Ends {
            status: 2,
            printed: b"",
            reported: USAGE,
        },
        named: None,
        usual: None,
    },
    WordsCase {
        line: "cnv -k seg,",
        ends: Ends {
            status: 2,
            printed: b"",
            reported: USAGE,
        },
        named: None,
        usual: None,
    },
    WordsCase {
        line: "gen -r 1 1000001",
        ends: Ends {
            status: 2,
            printed: b"",
            reported: USAGE,
        },
        named: None,
        usual: None,
    },
    WordsCase {
        line: "gen 1 1000001",
        ends: Ends {
            status: 2,
            printed: b"",
            reported: USAGE,
        },
        named: None,
        usual: None,
    },
    WordsCase {
        line: "run",
        ends: Ends {
            status: 0,
            printed: b"",
            reported: b"",
        },
        named: None,
        usual: Some(HEADER),
    },
    WordsCase {
        line: "run -o a s",
        ends: Ends {
            status: 0,
            printed: FIRST_ANSWERS,
            reported: b"",
        },
        named: Some(FIRST_LOG),
        usual: None,
    },
    WordsCase {
        line: "run s",
        ends: Ends {
            status: 0,
            printed: FIRST_ANSWERS,
            reported: b"",
        },
        named: None,
        usual: Some(FIRST_LOG),
    },
    WordsCase {
        line: "run absent",
        ends: Ends {
            status: 3,
            printed: b"",
            reported: b"mps: read failed\n",
        },
        named: None,
        usual: None,
    },
    WordsCase {
        line: "cnv",
        ends: Ends {
            status: 3,
            printed: b"",
            reported: b"mps: read failed\n",
        },
        named: None,
        usual: None,
    },
    WordsCase {
        line: "cnv -f l -k object",
        ends: Ends {
            status: 0,
            printed: b"mpslog 2\n7 80 1000 3 0\n",
            reported: b"",
        },
        named: None,
        usual: None,
    },
    WordsCase {
        line: "cnv -f -",
        ends: Ends {
            status: 6,
            printed: b"",
            reported: b"mps: log offset 0: bad header\n",
        },
        named: None,
        usual: None,
    },
    WordsCase {
        line: "txt",
        ends: Ends {
            status: 6,
            printed: b"",
            reported: b"mps: text line 1: bad line\n",
        },
        named: None,
        usual: None,
    },
    WordsCase {
        line: "blocks -f l",
        ends: Ends {
            status: 0,
            printed: b"0x1000 3 0\n",
            reported: b"",
        },
        named: None,
        usual: None,
    },
    WordsCase {
        line: "gen 1 0",
        ends: Ends {
            status: 0,
            printed: GENERATED,
            reported: b"",
        },
        named: None,
        usual: None,
    },
];

#[test]
fn each_line_of_words_has_its_answers(rt: HostRuntime) -> Result<(), Fail> {
    for case in &LINES_OF_WORDS {
        check_words(&rt, rt.alloc(), case)?;
    }
    Ok(())
}

/// A run of a generated script prints the last two answers, and its log is that of the same script run by `run`.
fn check_generated_run(rt: &impl Abort, alloc: Global, desk: &mut MemDesk) -> Result<(), Fail> {
    desk.add_file("s", GENERATED)?;
    let status = run(alloc, desk, "gen -r 1 0")?;
    let ends = Ends {
        status: 0,
        printed: b"0 0\n0\n",
        reported: b"",
    };
    compare(rt, desk, "gen -r 1 0", status, &ends);
    let status = run(alloc, desk, "run -o a s")?;
    compare_logs(rt, desk, status);
    Ok(())
}

fn compare_logs(rt: &impl Abort, desk: &MemDesk, status: u8) {
    assert_eq!(rt; status, 0);
    assert!(rt; desk.file("a").is_some());
    compare_file(rt, desk.file("a"), desk.file("mpsio.log"), "gen -r 1 0");
}

#[test]
fn a_generated_script_is_run(rt: HostRuntime) -> Result<(), Fail> {
    let mut desk = MemDesk::new(rt.alloc());
    let checked = check_generated_run(&rt, rt.alloc(), &mut desk);
    drop(desk);
    checked
}

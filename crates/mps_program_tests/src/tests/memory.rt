// A run without memory.
use super::{FIRST, FIRST_ANSWERS, compare_bytes, run};
use mps_desk::MemDesk;
use mps_program::{NoWords, start};
use std::alloc::Global;
use std::process::Abort;
use std::test::Fail;

/// The first script where an allocation may fail, which `rt try --test --fail-alloc N` makes happen: the answers so far
/// stand printed, and the status and the report say what failed. All answers stand there exactly with status 0.
#[test]
fn an_allocation_may_fail(rt: HostRuntime) -> Result<(), Fail> {
    let mut desk = MemDesk::new(rt.alloc());
    let checked = check_memory(&rt, rt.alloc(), &mut desk);
    drop(desk);
    checked
}

fn check_memory(rt: &impl Abort, alloc: Global, desk: &mut MemDesk) -> Result<(), Fail> {
    desk.add_file("-", FIRST)?;
    let status = run(alloc, desk, "run")?;
    assert!(rt; [0, 3, 4, 5, 8].contains(&status), "{status}");
    compare_bytes(rt, desk.reported(), report_of(status), "run");
    compare_answers(rt, desk, status);
    Ok(())
}

/// Where there is no memory for the words, nothing but that is reported.
#[test]
fn words_without_memory(rt: HostRuntime) {
    let mut desk = MemDesk::new(rt.alloc());
    check_words_without_memory(&rt, rt.alloc(), &mut desk);
    drop(desk);
}

fn check_words_without_memory(rt: &impl Abort, alloc: Global, desk: &mut MemDesk) {
    let status = start(alloc, 7, Err(NoWords::OutOfMemory), desk);
    assert_eq!(rt; status, 8);
    compare_bytes(rt, desk.reported(), b"mps: out of memory\n", "no words");
    compare_bytes(rt, desk.printed(), b"", "no words");
}

fn compare_answers(rt: &impl Abort, desk: &MemDesk, status: u8) {
    let is_whole = desk.printed() == FIRST_ANSWERS;
    assert!(rt; FIRST_ANSWERS.starts_with(desk.printed()), "{status}");
    assert_eq!(rt; status == 0, is_whole, "{status}");
}

fn report_of(status: u8) -> &'static [u8] {
    match status {
        0 => b"",
        3 => b"mps: read failed\n",
        4 => b"mps: write failed\n",
        5 => b"mps: log failed\n",
        _ => b"mps: out of memory\n",
    }
}

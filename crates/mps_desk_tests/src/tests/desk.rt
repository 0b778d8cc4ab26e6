// What no clause of `mps_desk` says: that calls succeed with ample memory, and what becomes of real files.
use super::compare_bytes;
use mps_base::{Addr, Move, Trail};
use mps_desk::{Desk, DeskCall, HostDesk, MemDesk};
use mps_gathering::Gathering;
use std::fs::{remove_file, write};
use std::process::Abort;
use std::test::Fail;

const LOG_FILE: &str = "mps_desk_test.log";

const INPUT_FILE: &str = "mps_desk_test.input";

#[test]
fn a_desk_in_memory(rt: HostRuntime) -> Result<(), Fail> {
    let mut desk = MemDesk::new(rt.alloc());
    let printed = prints_in_pieces(&rt, &mut desk);
    drop(desk);
    printed
}

fn prints_in_pieces(rt: &impl Abort, desk: &mut MemDesk) -> Result<(), Fail> {
    desk.pieces(4);
    desk.fail(DeskCall::Out, 2)?;
    desk.out(b"answer\n")?;
    assert!(rt; desk.out(b"more\n").is_err());
    compare_bytes(rt, desk.printed(), b"answ", "out");
    Ok(())
}

/// What is logged and settled is in the file.
#[test]
fn a_real_file(rt: HostRuntime) -> Result<(), Fail> {
    let mut desk = HostDesk::new(&rt);
    let read = logs_and_reads(&rt, &mut desk);
    drop(desk);
    read?;
    remove_file(&rt, LOG_FILE)?;
    Ok(())
}

fn logs_and_reads(rt: &impl Abort, desk: &mut impl Desk) -> Result<(), Fail> {
    desk.create(LOG_FILE)?;
    desk.log(b"record")?;
    desk.settle_log()?;
    desk.open(LOG_FILE)?;
    reads(rt, desk, b"record")?;
    reads(rt, desk, b"")
}

/// The next read gives these bytes.
fn reads(rt: &impl Abort, desk: &mut impl Desk, expected: &[u8]) -> Result<(), Fail> {
    let mut buf = [0u8; 16];
    let count = desk.read(&mut buf)?;
    assert_eq!(rt; count, expected.len());
    assert!(rt; buf.starts_with(expected));
    Ok(())
}

/// No log is made of the open input, which stays as it is.
#[test]
fn the_input_stays(rt: HostRuntime) -> Result<(), Fail> {
    write(&rt, INPUT_FILE, b"script")?;
    let mut desk = HostDesk::new(&rt);
    let refused = refuses_the_input(&rt, &mut desk);
    drop(desk);
    refused?;
    remove_file(&rt, INPUT_FILE)?;
    Ok(())
}

fn refuses_the_input(rt: &impl Abort, desk: &mut impl Desk) -> Result<(), Fail> {
    desk.open(INPUT_FILE)?;
    assert!(rt; desk.create(INPUT_FILE).is_err());
    assert!(rt; desk.create("./mps_desk_test.input").is_err());
    reads(rt, desk, b"script")
}

/// A directory is neither read nor made a log.
#[test]
fn a_directory_is_no_file(rt: HostRuntime) {
    let mut desk = HostDesk::new(&rt);
    refuses_a_directory(&rt, &mut desk);
    drop(desk);
}

fn refuses_a_directory(rt: &impl Abort, desk: &mut impl Desk) {
    assert!(rt; desk.open(".").is_err());
    assert!(rt; desk.create(".").is_err());
}

/// A fault of the log is known where it is settled, and at each call from then on.
#[test]
fn a_log_that_takes_nothing(rt: HostRuntime) -> Result<(), Fail> {
    let mut desk = Gathering::new(HostDesk::new(&rt), rt.alloc());
    let logged = logs_to_a_full_device(&rt, &mut desk);
    drop(desk);
    logged
}

fn logs_to_a_full_device(rt: &impl Abort, desk: &mut impl Desk) -> Result<(), Fail> {
    desk.create("/dev/full")?;
    desk.log(b"record")?;
    assert!(rt; desk.settle_log().is_err());
    assert!(rt; desk.log(b"record").is_err());
    assert!(rt; desk.settle_log().is_err());
    Ok(())
}

#[test]
fn a_trail(rt: HostRuntime) -> Result<(), Fail> {
    let mut trail = Trail::new(rt.alloc(), 2)?;
    trail.push(Move::End);
    trail.push(Move::Free { at: Addr(4096) });
    assert_eq!(rt; trail.moves().len(), 2);
    trail.clear();
    trail.push(Move::End);
    assert_eq!(rt; trail.moves().len(), 1);
    Ok(())
}

// Scripts whose lines loops make, and their answers.
mod full;
mod numbers;

use mps_desk::MemDesk;
use mps_run::run_script;
use mps_session::Session;
use std::alloc::{AllocError, Global};
use std::process::Abort;
use std::test::Fail;

/// The same text so many times, between two of which a number from 0 on may stand, with what each answers.
#[derive(Clone, Copy)]
struct Loop {
    before: &'static [u8],
    is_numbered: bool,
    after: &'static [u8],
    answers: &'static [u8],
    times: u32,
}

/// A script: its first lines, those that loops make, and its last lines, each with their answers.
#[derive(Clone, Copy)]
struct Case {
    name: &'static str,
    first: &'static [u8],
    first_answers: &'static [u8],
    loops: &'static [Loop],
    last: &'static [u8],
    last_answers: &'static [u8],
}

/// Runs the script of a case, and compares its answers.
fn check(rt: &impl Abort, alloc: Global, case: &Case) -> Result<(), Fail> {
    let script = script_of(alloc, case)?;
    let answers = answers_of(alloc, case)?;
    let mut desk = MemDesk::new(alloc);
    let checked = check_on(rt, alloc, &mut desk, case.name, &script, &answers);
    drop(desk);
    drop(answers);
    drop(script);
    checked
}

/// Checks each case of a table.
fn check_all(rt: &impl Abort, alloc: Global, cases: &[Case]) -> Result<(), Fail> {
    for case in cases {
        check(rt, alloc, case)?;
    }
    Ok(())
}

fn check_on(
    rt: &impl Abort,
    alloc: Global,
    desk: &mut MemDesk,
    name: &str,
    script: &[u8],
    answers: &[u8],
) -> Result<(), Fail> {
    desk.add_file("-", script)?;
    let status = run_script(alloc, Session::new(alloc), "mpsio.log", "-", desk);
    assert_eq!(rt; status, 0, "{name}");
    assert!(rt; desk.printed() == answers, "{name}");
    Ok(())
}

fn script_of(alloc: Global, case: &Case) -> Result<Vec<u8>, AllocError> {
    let mut script = Vec::from_slice(alloc, case.first)?;
    for each in case.loops {
        append_lines(alloc, &mut script, each)?;
    }
    script.extend_from_slice(case.last)?;
    Ok(script)
}

fn append_lines(alloc: Global, script: &mut Vec<u8>, each: &Loop) -> Result<(), AllocError> {
    for number in 0..each.times {
        script.extend_from_slice(each.before)?;
        if each.is_numbered {
            let digits = format!(in alloc; "{number}")?;
            script.extend_from_slice(digits.as_bytes())?;
        }
        script.extend_from_slice(each.after)?;
    }
    Ok(())
}

fn answers_of(alloc: Global, case: &Case) -> Result<Vec<u8>, AllocError> {
    let mut answers = Vec::from_slice(alloc, case.first_answers)?;
    for each in case.loops {
        append_answers(&mut answers, each)?;
    }
    answers.extend_from_slice(case.last_answers)?;
    Ok(answers)
}

fn append_answers(answers: &mut Vec<u8>, each: &Loop) -> Result<(), AllocError> {
    for _ in 0..each.times {
        answers.extend_from_slice(each.answers)?;
    }
    Ok(())
}

// What a tool answers at a desk in memory.
use crate::{Kinds, blocks, cnv, txt};
use mps_desk::{DeskCall, MemDesk};
use std::alloc::{AllocError, Global};
use std::process::Abort;

/// A tool that reads a log or a text.
#[derive(Clone, Copy)]
pub(super) enum Tool {
    Blocks,
    Cnv(Kinds),
    Txt,
}

/// What a tool is given, and what it answers.
#[derive(Clone, Copy)]
pub(super) struct Case<'a> {
    pub(super) tool: Tool,
    pub(super) input: &'a [u8],
    /// The calls of the desk that fail, each by its number.
    pub(super) failing: &'a [(DeskCall, u64)],
    pub(super) status: u8,
    pub(super) printed: &'a [u8],
    pub(super) reported: &'a [u8],
}

/// The case gives its answers, where the desk reads and writes in pieces of each of these sizes.
pub(super) fn compare_in_pieces(
    rt: &impl Abort,
    alloc: Global,
    case: &Case<'_>,
    sizes: &[usize],
) -> Result<(), AllocError> {
    for size in sizes {
        compare(rt, alloc, case, *size)?;
    }
    Ok(())
}

/// The case gives its answers, where the desk reads and writes at most this many bytes at once.
pub(super) fn compare(
    rt: &impl Abort,
    alloc: Global,
    case: &Case<'_>,
    size: usize,
) -> Result<(), AllocError> {
    let mut desk = desk_with(alloc, case, size)?;
    fail_calls(&mut desk, case.failing)?;
    let status = run(case.tool, alloc, &mut desk);
    compare_status(rt, case, status);
    compare_texts(rt, case, &desk);
    Ok(())
}

fn compare_status(rt: &impl Abort, case: &Case<'_>, status: u8) {
    assert_eq!(rt; status, case.status);
}

fn compare_texts(rt: &impl Abort, case: &Case<'_>, desk: &MemDesk) {
    assert_eq!(rt; desk.printed(), case.printed);
    assert_eq!(rt; desk.reported(), case.reported);
}

/// A desk with the input of the case, which reads and writes at most `size` bytes at once.
fn desk_with(alloc: Global, case: &Case<'_>, size: usize) -> Result<MemDesk, AllocError> {
    let mut desk = MemDesk::new(alloc);
    desk.add_file(input_name(case.tool), case.input)?;
    desk.pieces(size.max(1));
    Ok(desk)
}

/// The name of the file that a tool reads.
fn input_name(tool: Tool) -> &'static str {
    match tool {
        Tool::Blocks | Tool::Cnv(_) => "heap.log",
        Tool::Txt => "-",
    }
}

/// Lets these calls of the desk fail.
fn fail_calls(desk: &mut MemDesk, failing: &[(DeskCall, u64)]) -> Result<(), AllocError> {
    for (call, number) in failing {
        desk.fail(*call, *number)?;
    }
    Ok(())
}

/// Runs a tool on the file that it reads, and returns its status.
fn run(tool: Tool, alloc: Global, desk: &mut MemDesk) -> u8 {
    match tool {
        Tool::Blocks => blocks(alloc, 7, input_name(tool), desk),
        Tool::Cnv(kinds) => cnv(alloc, input_name(tool), kinds, desk),
        Tool::Txt => txt(alloc, 7, input_name(tool), desk),
    }
}

/// The log, with one byte changed and cut to a size.
pub(super) fn damaged(
    alloc: Global,
    log: &[u8],
    size: usize,
    at: usize,
    byte: u8,
) -> Result<Vec<u8>, AllocError> {
    let mut log = Vec::from_slice(alloc, log)?;
    if let Some(place) = log.get_mut(at) {
        *place = byte;
    }
    log.truncate(size);
    Ok(log)
}

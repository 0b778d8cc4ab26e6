// Real files, as the desk over them opens, reads and writes them.
ghost use Rattle.std.specs.Prelude.{◌<◌, ◌≤◌, length, IfSome};

use std::fs::{File, Metadata, OpenOptions, metadata, remove_file};
use std::io::{ErrorKind, Read, Write};
use std::os::fd::{AsFd, AsRawFd};
use std::os::unix::fs::{FileTypeExt, MetadataExt};

/// Which file a stream or an open input is.
#[derive(Clone, Copy, Debug, PartialEq, Eq)]
pub enum Identity {
    /// It is none that a log could harm.
    NoFile,
    File { device: u64, inode: u64 },
    /// The system doesn't say.
    Unknown,
}

/// An input that was opened, and which file it is.
#[derive(Drop)]
pub struct OpenInput {
    pub file: Option<File>,
    pub identity: Identity,
}

/// The numbers of the standard streams are below this one. No file gets one of them, also where a stream is closed.
const FIRST_FILE_NUMBER: i32 = 3;

/// The names under which a system may tell of the files that the standard streams are.
const STANDARD_INPUT_PATHS: [&str; 2] = ["/dev/stdin", "/proc/self/fd/0"];

const STANDARD_OUTPUT_PATHS: [&str; 2] = ["/dev/stdout", "/proc/self/fd/1"];

const STANDARD_ERROR_PATHS: [&str; 2] = ["/dev/stderr", "/proc/self/fd/2"];

/// Opens a file to be read. A directory is none.
pub fn open_to_read(rt: &HostRuntime, name: &str) -> Option<OpenInput> {
    let file = off_the_streams(File::open(rt, name).ok()?)?;
    let identity = identity_of_input(&file.metadata().ok()?)?;
    Some(OpenInput {
        file: Some(file),
        identity,
    })
}

/// Standard input. None where it is closed or a directory.
pub fn standard_input(rt: &HostRuntime) -> Option<OpenInput> {
    let _is_open = rt.stdin().as_fd().try_clone_to_owned().ok()?;
    let identity = match stream_metadata(rt, &STANDARD_INPUT_PATHS) {
        Some(metadata) => identity_of_input(&metadata)?,
        None => Identity::Unknown,
    };
    Some(OpenInput {
        file: None,
        identity,
    })
}

/// What the system tells of a standard stream under one of its names.
fn stream_metadata(rt: &HostRuntime, paths: &[&str; 2]) -> Option<Metadata> {
    match metadata(rt, paths[0]) {
        Ok(metadata) => Some(metadata),
        Err(_) => metadata(rt, paths[1]).ok(),
    }
}

/// Which file an open standard stream is to which the program writes. A terminal, a pipe or a device is none.
fn identity_of_output(rt: &HostRuntime, paths: &[&str; 2]) -> Identity {
    match stream_metadata(rt, paths) {
        Some(metadata) if metadata.is_file() => identity_of(&metadata),
        Some(_) => Identity::NoFile,
        None => Identity::Unknown,
    }
}

/// Opens a file to be written as the log, and makes it empty. None where that fails, and then there is no new file. None too of
/// the input and of the file that standard output or error goes to, which stay as they are. Of a file that isn't empty it is
/// None where the system doesn't say whether it is one of these.
pub fn make_for_log(rt: &HostRuntime, name: &str, input: Identity) -> Option<File> {
    let mut options = OpenOptions::new();
    options.write(true);
    match options.open(rt, name) {
        Ok(file) => empty_for_log(rt, off_the_streams(file)?, input),
        Err(error) if error.kind() == ErrorKind::NotFound => new_for_log(rt, name),
        Err(_) => None,
    }
}

/// Makes a new file.
fn new_for_log(rt: &HostRuntime, name: &str) -> Option<File> {
    let mut options = OpenOptions::new();
    options.write(true).create(true);
    let made = off_the_streams(options.open(rt, name).ok()?);
    if made.is_none() {
        let _ = remove_file(rt, name);
    }
    made
}

/// Makes an open file empty, unless it is one that is in use. Of a terminal and `/dev/null`, which hold nothing, any may be.
fn empty_for_log(rt: &HostRuntime, file: File, input: Identity) -> Option<File> {
    let metadata = file.metadata().ok()?;
    if metadata.file_type().is_char_device() {
        return Some(file);
    }
    if may_be(input, &metadata) || may_be_an_output(rt, &metadata) {
        return None;
    }
    if metadata.is_file() {
        file.set_len(0).ok()?;
    }
    Some(file)
}

/// Whether a file may be that to which standard output or error goes.
fn may_be_an_output(rt: &HostRuntime, metadata: &Metadata) -> bool {
    let output = standard_output(rt).unwrap_or(Identity::NoFile);
    let error = standard_error(rt).unwrap_or(Identity::NoFile);
    may_be(output, metadata) || may_be(error, metadata)
}

/// The file of standard output. None where that is closed.
fn standard_output(rt: &HostRuntime) -> Option<Identity> {
    let _is_open = rt.stdout().as_fd().try_clone_to_owned().ok()?;
    Some(identity_of_output(rt, &STANDARD_OUTPUT_PATHS))
}

/// The file of standard error. None where that is closed.
fn standard_error(rt: &HostRuntime) -> Option<Identity> {
    let _is_open = rt.stderr().as_fd().try_clone_to_owned().ok()?;
    Some(identity_of_output(rt, &STANDARD_ERROR_PATHS))
}

/// Whether a file may be the one that is meant. It isn't the unknown one where it is empty, as nothing of it is lost.
fn may_be(meant: Identity, metadata: &Metadata) -> bool {
    match meant {
        Identity::NoFile => false,
        Identity::File { .. } => meant == identity_of(metadata),
        Identity::Unknown => metadata.is_file() && metadata.len() > 0,
    }
}

/// The file under a number that no standard stream has.
fn off_the_streams(file: File) -> Option<File> {
    if file.as_raw_fd() >= FIRST_FILE_NUMBER {
        return Some(file);
    }
    let moved = file.try_clone().ok()?;
    if moved.as_raw_fd() >= FIRST_FILE_NUMBER {
        Some(moved)
    } else {
        None
    }
}

fn identity_of(metadata: &Metadata) -> Identity {
    Identity::File {
        device: metadata.dev(),
        inode: metadata.ino(),
    }
}

/// Which file this is. None of a directory.
fn identity_of_input(metadata: &Metadata) -> Option<Identity> {
    if metadata.is_dir() {
        None
    } else {
        Some(identity_of(metadata))
    }
}

/// Reads some bytes, again where a signal interrupted it. None where that failed.
pub fn read_some<R: Read>(from: &mut R, buf: &mut [u8]) -> Option<usize>
    ensures at_most { IfSome result (λ n. n ≤ length buf.new) }
{
    for _ in 0..u64::MAX {
        match from.read(buf) {
            Ok(count) => return Some(count),
            Err(error) if error.kind() == ErrorKind::Interrupted => {}
            Err(_) => return None,
        }
    }
    None
}

/// Writes at least one byte of a piece that has one, again where a signal interrupted it. None where that failed.
pub fn write_some<W: Write>(piece: &[u8], to: &mut W) -> Option<usize>
    ensures at_most { IfSome result (λ n. n ≤ length piece.now) }
    ensures nonzero { IfSome result (λ n. 0 < length piece.now → 0 < n) }
{
    for _ in 0..u64::MAX {
        match to.write(piece) {
            Ok(count) if count > 0 || piece.is_empty() => return Some(count),
            Err(error) if error.kind() == ErrorKind::Interrupted => {}
            _ => return None,
        }
    }
    None
}

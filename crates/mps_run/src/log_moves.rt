// The records of the moves of a command.
ghost use Rattle.std.specs.Prelude.{◌≡◌, ◌≤◌, ◌*◌, ◌∷◌, [], length, take, All, OnOk, OnErr};
ghost use Rattle.mps_base.specs.Record.{record_bytes, records_bytes};
ghost use Rattle.mps_event.specs.Grammar.{AreFields, IsRecord};
ghost use Rattle.mps_event.specs.Event.{code_of};
ghost use Rattle.mps_event.specs.declared.version.Version.TheVariants.{Two};
ghost use Rattle.mps_model.specs.Log.{record_of, records_of};
ghost use Rattle.mps_report.specs.Streams.{Logs, LogsPart};

use crate::log::{MAX_RECORD_BYTES, log_piece, put_record};
use mps_base::{Addr, Move};
use mps_desk::{Desk, Failed};
use mps_event::Event;

/// How many records are gathered before they are handed to the desk.
const MOVES_IN_A_BATCH: usize = 16;

/// How many moves a command has that makes or frees a block and besides takes or gives back its segment.
const MOVES_WITH_A_SEGMENT: usize = 2;

/// Writes the records of moves, in order. Most commands make one move or none, and some two; the many of a collection are gathered.
#[inline(always)]
pub(crate) fn log_moves<D: Desk>(desk: &mut D, line: u32, moves: &[Move]) -> Result<(), Failed>
    ensures logged { OnOk result (Logs (D.outside desk.old) (D.outside desk.new) (records_bytes (records_of moves.now line))) }
    ensures failed { OnErr result (LogsPart (D.outside desk.old) (D.outside desk.new) (records_bytes (records_of moves.now line))) }
    ensures recorded { OnOk result (All (IsRecord Two) (records_of moves.now line)) }
{
    match moves {
        [] => Ok(()),
        [moved] => log_move(desk, line, moved),
        [_, _] => log_two(desk, line, moves),
        _ => log_batches(desk, line, moves),
    }
}

/// Writes the records of at most two moves, in order, as one piece.
#[inline(never)]
fn log_two<D: Desk>(desk: &mut D, line: u32, moves: &[Move]) -> Result<(), Failed>
    requires at_most { length moves.now ≤ 2 }
    ensures logged { OnOk result (Logs (D.outside desk.old) (D.outside desk.new) (records_bytes (records_of moves.now line))) }
    ensures failed { OnErr result (LogsPart (D.outside desk.old) (D.outside desk.new) (records_bytes (records_of moves.now line))) }
    ensures recorded { All (IsRecord Two) (records_of moves.now line) }
{
    let mut bytes = [0u8; MOVES_WITH_A_SEGMENT * MAX_RECORD_BYTES];
    let length = put_moves(&mut bytes, line, moves);
    log_piece(desk, &bytes[..length])
}

/// Writes the records of many moves, in order.
#[inline(never)]
fn log_batches<D: Desk>(desk: &mut D, line: u32, moves: &[Move]) -> Result<(), Failed>
    ensures logged { OnOk result (Logs (D.outside desk.old) (D.outside desk.new) (records_bytes (records_of moves.now line))) }
    ensures failed { OnErr result (LogsPart (D.outside desk.old) (D.outside desk.new) (records_bytes (records_of moves.now line))) }
    ensures recorded { OnOk result (All (IsRecord Two) (records_of moves.now line)) }
{
    for batch in moves.chunks(MOVES_IN_A_BATCH) {
        log_batch(desk, line, batch)?;
    }
    Ok(())
}

/// Writes the records of a batch of moves, in order, as one piece.
fn log_batch<D: Desk>(desk: &mut D, line: u32, moves: &[Move]) -> Result<(), Failed>
    requires at_most { length moves.now ≤ 16 }
    ensures logged { OnOk result (Logs (D.outside desk.old) (D.outside desk.new) (records_bytes (records_of moves.now line))) }
    ensures failed { OnErr result (LogsPart (D.outside desk.old) (D.outside desk.new) (records_bytes (records_of moves.now line))) }
    ensures recorded { All (IsRecord Two) (records_of moves.now line) }
{
    let mut bytes = [0u8; MOVES_IN_A_BATCH * MAX_RECORD_BYTES];
    let length = put_moves(&mut bytes, line, moves);
    log_piece(desk, &bytes[..length])
}

/// Puts the records of moves at the beginning of the bytes, in order, and returns the length of all.
#[inline(always)]
fn put_moves(bytes: &mut [u8], line: u32, moves: &[Move]) -> usize
    requires fits { 64 * length moves.now ≤ length bytes.old }
    ensures written { take result bytes.new ≡ records_bytes (records_of moves.now line) }
    ensures at_most { result ≤ 64 * length moves.now }
    ensures recorded { All (IsRecord Two) (records_of moves.now line) }
{
    let mut length = 0;
    for moved in moves {
        length += put_move(&mut bytes[length..], line, moved);
    }
    length
}

/// Writes the record of a move.
#[inline(never)]
fn log_move<D: Desk>(desk: &mut D, line: u32, moved: &Move) -> Result<(), Failed>
    ensures logged { OnOk result (Logs (D.outside desk.old) (D.outside desk.new) (record_bytes (record_of moved.now line))) }
    ensures failed { OnErr result (LogsPart (D.outside desk.old) (D.outside desk.new) (record_bytes (record_of moved.now line))) }
    ensures recorded { IsRecord Two (record_of moved.now line) }
{
    let mut bytes = [0u8; MAX_RECORD_BYTES];
    let length = put_move(&mut bytes, line, moved);
    log_piece(desk, &bytes[..length])
}

/// Puts the record of a move at the beginning of the bytes, and returns its length.
#[inline(always)]
fn put_move(bytes: &mut [u8], line: u32, moved: &Move) -> usize
    requires fits { 64 ≤ length bytes.old }
    ensures written { take result bytes.new ≡ record_bytes (record_of moved.now line) }
    ensures at_most { result ≤ 64 }
    ensures recorded { IsRecord Two (record_of moved.now line) }
{
    match *moved {
        Move::Seg {
            base,
            grains,
            pool,
            generation,
        } => put_record(
            bytes,
            line,
            Event::SegAlloc,
            &[base.0, grains as u64, pool as u64, generation as u64],
        ),
        Move::Unseg { base } => put_record(bytes, line, Event::SegFree, &[base.0]),
        Move::Flip {
            zones,
            chain,
            generation,
        } => put_record(
            bytes,
            line,
            Event::Flip,
            &[zones.0, chain as u64, generation as u64],
        ),
        Move::End => put_record(bytes, line, Event::End, &[]),
        Move::Moved { from, to } => put_record(bytes, line, Event::Move, &[from.0, to.0]),
        Move::Stay { at } => put_record(bytes, line, Event::Stay, &[at.0]),
        Move::Splat { holder, cell } => put_record(
            bytes,
            line,
            Event::Splat,
            &[holder.0, cell as u64],
        ),
        Move::Post { at } => put_record(bytes, line, Event::Post, &[at.0]),
        Move::Commit { at, words, pool } => put_block(bytes, line, Event::Commit, at, words, pool),
        Move::Alloc { at, words, pool } => put_block(bytes, line, Event::Alloc, at, words, pool),
        Move::Free { at } => put_record(bytes, line, Event::Free, &[at.0]),
    }
}

/// Puts the record of an event that makes a block at the beginning of the bytes, and returns its length.
#[inline(always)]
fn put_block(bytes: &mut [u8], line: u32, event: Event, at: Addr, words: u32, pool: u32) -> usize
    requires known { AreFields Two (code_of event) (at.0 ∷ words ∷ pool ∷ []) }
    requires fits { 64 ≤ length bytes.old }
    ensures written { take result bytes.new
        ≡ record_bytes (record { line = line; code = code_of event; fields = at.0 ∷ words ∷ pool ∷ [] }) }
    ensures at_most { result ≤ 64 }
    ensures recorded { IsRecord Two (record { line = line; code = code_of event; fields = at.0 ∷ words ∷ pool ∷ [] }) }
{
    put_record(bytes, line, event, &[at.0, words as u64, pool as u64])
}

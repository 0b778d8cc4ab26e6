// The records of a command.
ghost use Rattle.std.specs.Prelude.{◌≡◌, ◌≤◌, ◌∷◌, ◌++◌, [], length, take, All, OnOk, OnErr};
ghost use Rattle.std.specs.Int.{w64, from_le_bytes, to_le_bytes};
ghost use Rattle.mps_base.specs.Record.{record_bytes, records_bytes};
ghost use Rattle.mps_event.specs.Grammar.{AreFields, IsRecord};
ghost use Rattle.mps_event.specs.Event.{code_of};
ghost use Rattle.mps_event.specs.declared.version.Version.TheVariants.{Two};
ghost use Rattle.mps_commands.specs.Range.{IsInRange};
ghost use Rattle.mps_model.specs.Log.{records_of, records_of_accepted, records_of_answered, records_of_label};
ghost use Rattle.mps_model.specs.Answer.{Replied};
ghost use Rattle.mps_model.specs.declared.reply.Reply.TheVariants as answer;
ghost use Rattle.mps_run.specs.Leaving.{log_header as header_of_log};
ghost use Rattle.mps_report.specs.Streams.{Logs, LogsPart};

use crate::log_moves::log_moves;
use mps_base::{Addr, Move};
use mps_desk::{Desk, Failed};
use mps_event::{Event, MFS_NUMBER, MVFF_NUMBER, SNC_NUMBER, Version, header_of, kind_number, put};
use mps_model::{Call, Reply};
use mps_report::log_all;

/// The most bytes of a record with four fields, and room to spare.
pub(crate) const MAX_RECORD_BYTES: usize = 64;

/// Writes the header of a log.
pub fn log_header<D: Desk>(desk: &mut D) -> Result<(), Failed>
    ensures logged { OnOk result (Logs (D.outside desk.old) (D.outside desk.new) header_of_log) }
    ensures failed { OnErr result (LogsPart (D.outside desk.old) (D.outside desk.new) header_of_log) }
{
    log_all(&header_of(Version::Two), desk)
}

/// Writes the records of a command: those of its moves, in order, then its own. `pools` were made before it.
#[inline(always)]
pub fn log_records<D: Desk>(
    desk: &mut D,
    line: u32,
    pools: u32,
    call: &Call,
    reply: &Reply,
    moves: &[Move],
) -> Result<(), Failed>
    requires range { IsInRange call.now }
    ensures logged { OnOk result (Logs (D.outside desk.old) (D.outside desk.new)
        (records_bytes (records_of moves.now line ++ records_of_answered pools call.now (Replied reply.now) line))) }
    ensures failed { OnErr result (LogsPart (D.outside desk.old) (D.outside desk.new)
        (records_bytes (records_of moves.now line ++ records_of_answered pools call.now (Replied reply.now) line))) }
    ensures recorded { OnOk result (All (IsRecord Two)
        (records_of moves.now line ++ records_of_answered pools call.now (Replied reply.now) line)) }
{
    log_moves(desk, line, moves)?;
    log_command(desk, line, pools as u64, call, reply)
}

/// Writes the records that a command has by its reply. `pools` were made before it.
#[inline(always)]
fn log_command<D: Desk>(
    desk: &mut D,
    line: u32,
    pools: u64,
    call: &Call,
    reply: &Reply,
) -> Result<(), Failed>
    requires range { IsInRange call.now }
    ensures logged { OnOk result (Logs (D.outside desk.old) (D.outside desk.new)
        (records_bytes (records_of_answered pools call.now (Replied reply.now) line))) }
    ensures failed { OnErr result (LogsPart (D.outside desk.old) (D.outside desk.new)
        (records_bytes (records_of_answered pools call.now (Replied reply.now) line))) }
    ensures recorded { All (IsRecord Two) (records_of_answered pools call.now (Replied reply.now) line) }
{
    match *reply {
        Reply::Ok => log_accepted(desk, line, pools, call),
        Reply::Interned(number) => log_interned(desk, line, call, number),
        Reply::Labelled(at, number) => log_labelled(desk, line, call, at, number),
        _ => Ok(()),
    }
}

/// Writes the record of an accepted command, where it has one. Few have: what writes theirs isn't inlined, as its places for
/// fields would be cleared for each command.
#[inline(always)]
fn log_accepted<D: Desk>(desk: &mut D, line: u32, pools: u64, call: &Call) -> Result<(), Failed>
    ensures logged { OnOk result (Logs (D.outside desk.old) (D.outside desk.new)
        (records_bytes (records_of_accepted pools call.now line))) }
    ensures failed { OnErr result (LogsPart (D.outside desk.old) (D.outside desk.new)
        (records_bytes (records_of_accepted pools call.now line))) }
    ensures recorded { All (IsRecord Two) (records_of_accepted pools call.now line) }
{
    match *call {
        Call::Arena { .. }
        | Call::Limit { .. }
        | Call::Pool { .. }
        | Call::PoolOnChain { .. }
        | Call::PoolMfs { .. }
        | Call::PoolMvff { .. }
        | Call::PoolFrames { .. } => log_made(desk, line, pools, call),
        _ => Ok(()),
    }
}

/// Writes the record of an accepted command that makes a pool or the arena, or sets its limit; of another command nothing. A new
/// pool's number is that of the pools before it.
#[cold]
#[inline(never)]
fn log_made<D: Desk>(desk: &mut D, line: u32, pools: u64, call: &Call) -> Result<(), Failed>
    ensures logged { OnOk result (Logs (D.outside desk.old) (D.outside desk.new)
        (records_bytes (records_of_accepted pools call.now line))) }
    ensures failed { OnErr result (LogsPart (D.outside desk.old) (D.outside desk.new)
        (records_bytes (records_of_accepted pools call.now line))) }
    ensures recorded { All (IsRecord Two) (records_of_accepted pools call.now line) }
{
    match *call {
        Call::Arena { grains, limit } => log_record(
            desk,
            line,
            Event::ArenaCreate,
            &[grains, limit],
        ),
        Call::Limit { limit } => log_record(desk, line, Event::LimitSet, &[limit]),
        Call::Pool { kind, format, .. } => {
            log_pool(desk, line, pools, kind_number(kind), format)
        }
        Call::PoolOnChain { kind, format, .. } => {
            log_pool(desk, line, pools, kind_number(kind), format)
        }
        Call::PoolMfs { words, .. } => log_pool(desk, line, pools, MFS_NUMBER, words),
        Call::PoolMvff { .. } => log_pool(desk, line, pools, MVFF_NUMBER, 0),
        Call::PoolFrames { .. } => log_pool(desk, line, pools, SNC_NUMBER, 0),
        _ => Ok(()),
    }
}

/// Writes the record of a pool: its number, that of its kind, and its format or the size of its blocks.
#[inline(always)]
fn log_pool<D: Desk>(
    desk: &mut D,
    line: u32,
    number: u64,
    kind: u64,
    parameter: u64,
) -> Result<(), Failed>
    requires known { AreFields Two (code_of Event.PoolCreate) (number ∷ kind ∷ parameter ∷ []) }
    ensures logged { OnOk result (Logs (D.outside desk.old) (D.outside desk.new)
        (record_bytes (record { line = line; code = code_of Event.PoolCreate; fields = number ∷ kind ∷ parameter ∷ [] }))) }
    ensures failed { OnErr result (LogsPart (D.outside desk.old) (D.outside desk.new)
        (record_bytes (record { line = line; code = code_of Event.PoolCreate; fields = number ∷ kind ∷ parameter ∷ [] }))) }
    ensures recorded { IsRecord Two (record { line = line; code = code_of Event.PoolCreate; fields = number ∷ kind ∷ parameter ∷ [] }) }
{
    log_record(desk, line, Event::PoolCreate, &[number, kind, parameter])
}

/// Writes the record of a call that made a label, with its number and the bytes of its name; of another call nothing.
#[cold]
#[inline(never)]
fn log_interned<D: Desk>(desk: &mut D, line: u32, call: &Call, number: u32) -> Result<(), Failed>
    requires range { IsInRange call.now }
    ensures logged { OnOk result (Logs (D.outside desk.old) (D.outside desk.new)
        (records_bytes (records_of_label call.now (Replied (answer.Interned number)) line))) }
    ensures failed { OnErr result (LogsPart (D.outside desk.old) (D.outside desk.new)
        (records_bytes (records_of_label call.now (Replied (answer.Interned number)) line))) }
    ensures recorded { All (IsRecord Two) (records_of_label call.now (Replied (answer.Interned number)) line) }
{
    match *call {
        Call::Intern { label } => {
            let low = number_of(&label.bytes[..8]);
            let high = number_of(&label.bytes[8..]);
            log_record(desk, line, Event::Intern, &[u64::from(number), low, high])
        }
        _ => Ok(()),
    }
}

/// Writes the record of a call that labelled an object; of another call nothing.
#[inline(never)]
fn log_labelled<D: Desk>(
    desk: &mut D,
    line: u32,
    call: &Call,
    at: Addr,
    number: u32,
) -> Result<(), Failed>
    ensures logged { OnOk result (Logs (D.outside desk.old) (D.outside desk.new)
        (records_bytes (records_of_label call.now (Replied (answer.Labelled at number)) line))) }
    ensures failed { OnErr result (LogsPart (D.outside desk.old) (D.outside desk.new)
        (records_bytes (records_of_label call.now (Replied (answer.Labelled at number)) line))) }
    ensures recorded { All (IsRecord Two) (records_of_label call.now (Replied (answer.Labelled at number)) line) }
{
    match *call {
        Call::Label { .. } => log_record(desk, line, Event::Label, &[at.0, u64::from(number)]),
        _ => Ok(()),
    }
}

/// Eight bytes as a number, the lowest first.
fn number_of(bytes: &[u8]) -> u64
    requires { length bytes.now ≡ 8 }
    ensures value { result ≡ from_le_bytes w64 bytes.now }
    ensures bytes { to_le_bytes w64 result ≡ bytes.now }
{
    u64::from_le_bytes([
        bytes[0], bytes[1], bytes[2], bytes[3], bytes[4], bytes[5], bytes[6], bytes[7],
    ])
}

/// Writes one record.
#[inline(always)]
fn log_record<D: Desk>(desk: &mut D, line: u32, event: Event, fields: &[u64]) -> Result<(), Failed>
    requires known { AreFields Two (code_of event) fields.now }
    requires at_most { length fields.now ≤ 4 }
    ensures logged { OnOk result (Logs (D.outside desk.old) (D.outside desk.new)
        (record_bytes (record { line = line; code = code_of event; fields = fields.now }))) }
    ensures failed { OnErr result (LogsPart (D.outside desk.old) (D.outside desk.new)
        (record_bytes (record { line = line; code = code_of event; fields = fields.now }))) }
    ensures recorded { IsRecord Two (record { line = line; code = code_of event; fields = fields.now }) }
{
    let mut bytes = [0u8; MAX_RECORD_BYTES];
    let length = put_record(&mut bytes, line, event, fields);
    log_piece(desk, &bytes[..length])
}

/// Writes a record to the log. As a rule a desk takes it whole; where it took a part, the rest follows.
#[inline(always)]
pub(crate) fn log_piece<D: Desk>(desk: &mut D, piece: &[u8]) -> Result<(), Failed>
    ensures logged { OnOk result (Logs (D.outside desk.old) (D.outside desk.new) piece.now) }
    ensures failed { OnErr result (LogsPart (D.outside desk.old) (D.outside desk.new) piece.now) }
{
    let Ok(count) = desk.log(piece) else {
        return Err(Failed);
    };
    if count == piece.len() {
        return Ok(());
    }
    log_all(&piece[count..], desk)
}

/// Puts a record at the beginning of the bytes, and returns its length.
#[inline(always)]
pub(crate) fn put_record(bytes: &mut [u8], line: u32, event: Event, fields: &[u64]) -> usize
    requires known { AreFields Two (code_of event) fields.now }
    requires at_most { length fields.now ≤ 4 }
    requires fits { 64 ≤ length bytes.old }
    ensures written { take result bytes.new ≡ record_bytes (record { line = line; code = code_of event; fields = fields.now }) }
    ensures at_most { result ≤ 64 }
    ensures recorded { IsRecord Two (record { line = line; code = code_of event; fields = fields.now }) }
{
    put(bytes, line, event.code(), fields, Version::Two)
}

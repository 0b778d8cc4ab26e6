// The answer line of a reply.
ghost use Rattle.std.specs.Prelude.{◌≡◌, ◌+◌, ◌<◌, ◌≤◌, ◌++◌, length, take, true};
ghost use Rattle.mps_model.specs.Answer.{Replied};
ghost use Rattle.mps_model.specs.declared.reply.Reply.TheVariants as reply;
ghost use Rattle.mps_model.specs.Text.{word_text, and_number, refusal_text, reply_text, line_of_answer};
ghost use Rattle.mps_answers.specs.Text.{is_printable};

use itoa::Buffer;
use mps_base::Refusal;
use mps_format::put_head_text;
use mps_model::Reply;
use mps_numerals::{put_decimal, put_hexadecimal, put_text as put};

/// Room for any answer line, in bytes.
pub const MAX_ANSWER_BYTES: usize = 64;

/// A space and a number.
fn put_spaced(out: &mut [u8], at: usize, n: u64) -> usize
    requires { at + 21 ≤ length out.old }
    ensures at_most { result ≤ at + 21 }
    ensures text { take result out.new ≡ take at out.old ++ and_number n }
{
    let at = put(b" ", out, at);
    put_decimal(n, out, at)
}

/// A word in hexadecimal.
#[inline(always)]
fn put_word(out: &mut [u8], at: usize, n: u64) -> usize
    requires { at + 18 ≤ length out.old }
    ensures at_most { result ≤ at + 18 }
    ensures text { take result out.new ≡ take at out.old ++ word_text n }
{
    let at = put(b"0x", out, at);
    put_hexadecimal(n, out, at)
}

/// The number of a refusal, and the numbers that it prints after it.
fn put_refusal(out: &mut [u8], at: usize, why: &Refusal) -> usize
    requires { at + 48 ≤ length out.old }
    ensures at_most { result ≤ at + 48 }
    ensures text { take result out.new ≡ take at out.old ++ refusal_text why.now }
{
    match *why {
        Refusal::BadName => put(b"1", out, at),
        Refusal::NameTaken => put(b"2", out, at),
        Refusal::BadIndex => put(b"3", out, at),
        Refusal::NullRef => put(b"4", out, at),
        Refusal::NotARef => put(b"5", out, at),
        Refusal::NotANumber => put(b"6", out, at),
        Refusal::BadHead => put(b"7", out, at),
        Refusal::Open => put(b"8", out, at),
        Refusal::NotOpen => put(b"9", out, at),
        Refusal::CommitLimit {
            committed,
            need,
            limit,
        } => {
            let at = put(b"10", out, at);
            put_three_spaced(out, at, committed, need, limit)
        }
        Refusal::NoRun { need, longest } => {
            let at = put(b"11", out, at);
            put_two_spaced(out, at, need, longest)
        }
        Refusal::NotABlock => put(b"12", out, at),
        Refusal::WrongPool => put(b"13", out, at),
        Refusal::NotRegistered => put(b"14", out, at),
        Refusal::BadSize => put(b"15", out, at),
        Refusal::TooMany { limit } => {
            let at = put(b"16", out, at);
            put_spaced_u32(out, at, limit)
        }
        Refusal::Running => put(b"17", out, at),
        Refusal::BelowCommitted => put(b"18", out, at),
        Refusal::OutOfMemory => put(b"19", out, at),
        Refusal::NotLinked => put(b"20", out, at),
        Refusal::OldTwice => put(b"21", out, at),
        Refusal::NotParked => put(b"22", out, at),
    }
}

/// A space and a number of 32 bits.
fn put_spaced_u32(out: &mut [u8], at: usize, n: u32) -> usize
    requires { at + 11 ≤ length out.old }
    ensures at_most { result ≤ at + 11 }
    ensures text { take result out.new ≡ take at out.old ++ and_number n }
{
    let at = put(b" ", out, at);
    let mut buffer = Buffer::new();
    put(buffer.format(n).as_bytes(), out, at)
}

/// A space and a number, twice.
fn put_two_spaced(out: &mut [u8], at: usize, first: u32, second: u32) -> usize
    requires { at + 22 ≤ length out.old }
    ensures at_most { result ≤ at + 22 }
    ensures text { take result out.new ≡ take at out.old ++ (and_number first ++ and_number second) }
{
    let at = put_spaced_u32(out, at, first);
    put_spaced_u32(out, at, second)
}

/// A space and a number, three times.
fn put_three_spaced(out: &mut [u8], at: usize, first: u32, second: u32, third: u32) -> usize
    requires { at + 33 ≤ length out.old }
    ensures at_most { result ≤ at + 33 }
    ensures text { take result out.new ≡ take at out.old ++ (and_number first ++ (and_number second ++ and_number third)) }
{
    let at = put_spaced_u32(out, at, first);
    put_two_spaced(out, at, second, third)
}

/// The answer line of a number of one digit.
#[inline(always)]
pub fn digit_line(digit: u64) -> [u8; 2]
    requires { digit < 10 }
    ensures { result ≡ line_of_answer (Replied (reply.Number digit)) }
{
    [b'0' + digit as u8, b'\n']
}

/// The answer of a reply, without its line feed.
fn put_plain(out: &mut [u8], reply: &Reply) -> usize
    requires { 64 ≤ length out.old }
    ensures at_most { result ≤ 60 }
    ensures text { take result out.new ≡ reply_text reply.now }
{
    match *reply {
        Reply::Ok => put(b"ok", out, 0),
        Reply::Flipped => put(b"flipped", out, 0),
        Reply::Number(n) => put_decimal(n, out, 0),
        Reply::Word(n) => put_word(out, 0, n),
        Reply::Yes => put(b"yes", out, 0),
        Reply::No => put(b"no", out, 0),
        Reply::Block => put(b"block", out, 0),
        Reply::Plain => put(b"number", out, 0),
        Reply::More => put(b"more", out, 0),
        Reply::Idle => put(b"idle", out, 0),
        Reply::None_ => put(b"none", out, 0),
        Reply::Head(head) => put_head_text(head, out),
        Reply::Pair(first, second) => {
            let at = put_decimal(first, out, 0);
            put_spaced(out, at, second)
        }
        Reply::Words(_, _) => 0,
        Reply::Interned(number) => put_decimal(u64::from(number), out, 0),
        Reply::Labelled(at, _) => put_word(out, 0, at.0),
        Reply::Refused(why) => {
            let at = put(b"refused ", out, 0);
            put_refusal(out, at, &why)
        }
    }
}

/// The answer line of a reply of any kind.
#[inline(never)]
fn put_line(out: &mut [u8], reply: &Reply) -> usize
    requires fits { 64 ≤ length out.old }
    requires printable { is_printable reply.now ≡ true }
    ensures at_most { result ≤ 64 }
    ensures text { take result out.new ≡ line_of_answer (Replied reply.now) }
{
    let at = put_plain(out, reply);
    put(b"\n", out, at)
}

/// The answer line of a word in hexadecimal.
#[inline(always)]
fn put_word_line(out: &mut [u8], word: u64) -> usize
    requires { 19 ≤ length out.old }
    ensures at_most { result ≤ 19 }
    ensures text { take result out.new ≡ line_of_answer (Replied (reply.Word word)) }
{
    let end = put_word(out, 0, word);
    put(b"\n", out, end)
}

/// Writes the answer line of a reply at the start of the buffer, and returns its length. What the buffer holds after it is
/// left open. The words of a dump are not printed here but from the arena. The address that a label gives is written in place.
#[inline(always)]
pub fn put_text(out: &mut [u8], reply: &Reply) -> usize
    requires fits { 64 ≤ length out.old }
    requires printable { is_printable reply.now ≡ true }
    ensures at_most { result ≤ 64 }
    ensures text { take result out.new ≡ line_of_answer (Replied reply.now) }
{
    match *reply {
        Reply::Labelled(at, _) => put_word_line(out, at.0),
        _ => put_line(out, reply),
    }
}

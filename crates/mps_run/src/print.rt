// The answer of a command.
ghost use Rattle.std.specs.Prelude.{◌≡◌, ◌≤◌, ◌<◌, ◌^◌, ◌∷◌, ◌++◌, length, take, drop, true, OnOk, OnErr};
ghost use Rattle.std.specs.List.{flat_map};
ghost use Rattle.mps_answers.specs.Text.{is_printable};
ghost use Rattle.mps_base.specs.Address.{word_of};
ghost use Rattle.mps_model.specs.Answer.{Replied, Dumped, answer_of};
ghost use Rattle.mps_model.specs.Text.{line_of_answer};
ghost use Rattle.mps_numerals.specs.Hexadecimal.{hexadecimal};
ghost use Rattle.mps_report.specs.Streams.{Prints, PrintsPart};
ghost use Rattle.mps_run.specs.Pieces.{and_word};

use mps_answers::{MAX_ANSWER_BYTES, digit_line, put_text};
use mps_base::Addr;
use mps_commands::Commands;
use mps_desk::{Desk, Failed};
use mps_model::Reply;
use mps_numerals::{put_hexadecimal, put_text as put};
use mps_report::print_all;

/// Room for a space, `0x` and the digits of a word.
const MAX_WORD_BYTES: usize = 19;

/// Prints the answer line of a reply, as one piece; that of words word by word, each of which is asked for only then.
#[inline(always)]
pub fn print<D: Desk, C: Commands>(desk: &mut D, reply: &Reply, commands: &C) -> Result<(), Failed>
    ensures printed { OnOk result (Prints (D.outside desk.old) (D.outside desk.new)
        (line_of_answer (answer_of (C.words commands.now) reply.now))) }
    ensures failed { OnErr result (PrintsPart (D.outside desk.old) (D.outside desk.new)
        (line_of_answer (answer_of (C.words commands.now) reply.now))) }
{
    match *reply {
        Reply::Ok => print_line(desk, b"ok\n"),
        Reply::Number(n) if n < 10 => print_line(desk, &digit_line(n)),
        Reply::Words(at, count) => print_words(desk, commands, at, count),
        _ => print_text(desk, reply),
    }
}

/// Prints the answer line of a reply that isn't words.
#[inline(always)]
fn print_text<D: Desk>(desk: &mut D, reply: &Reply) -> Result<(), Failed>
    requires { is_printable reply.now ≡ true }
    ensures printed { OnOk result (Prints (D.outside desk.old) (D.outside desk.new) (line_of_answer (Replied reply.now))) }
    ensures failed { OnErr result (PrintsPart (D.outside desk.old) (D.outside desk.new) (line_of_answer (Replied reply.now))) }
{
    let mut text = [0u8; MAX_ANSWER_BYTES];
    let length = put_text(&mut text, reply);
    print_line(desk, &text[..length])
}

/// Prints an answer line. As a rule a desk takes it whole; where it took a part, the rest follows.
#[inline(always)]
fn print_line<D: Desk>(desk: &mut D, line: &[u8]) -> Result<(), Failed>
    ensures printed { OnOk result (Prints (D.outside desk.old) (D.outside desk.new) line.now) }
    ensures failed { OnErr result (PrintsPart (D.outside desk.old) (D.outside desk.new) line.now) }
{
    let Ok(count) = desk.out(line) else {
        return Err(Failed);
    };
    if count == line.len() {
        return Ok(());
    }
    print_all(&line[count..], desk)
}

/// Prints the line of the words from an address on, as many as are asked for or as there are. It isn't inlined, as `print` has no words
/// as a rule.
#[cold]
#[inline(never)]
fn print_words<D: Desk, C: Commands>(
    desk: &mut D,
    commands: &C,
    at: Addr,
    count: u32,
) -> Result<(), Failed>
    ensures printed { OnOk result (Prints (D.outside desk.old) (D.outside desk.new)
        (line_of_answer (Dumped (take count (drop (word_of at.0) (C.words commands.now)))))) }
    ensures failed { OnErr result (PrintsPart (D.outside desk.old) (D.outside desk.new)
        (line_of_answer (Dumped (take count (drop (word_of at.0) (C.words commands.now)))))) }
{
    let from = at.word();
    if count == 0 {
        return print_all(b"\n", desk);
    }
    let Some(first) = commands.word(from) else {
        return print_all(b"\n", desk);
    };
    print_first_and_more(desk, commands, first, from + 1, count - 1)
}

/// Prints the line of a word and of the words from a number on, as many as are asked for or as there are.
fn print_first_and_more<D: Desk, C: Commands>(
    desk: &mut D,
    commands: &C,
    first: u64,
    from: usize,
    count: u32,
) -> Result<(), Failed>
    requires { from < 2 ^ 62 }
    ensures printed { OnOk result (Prints (D.outside desk.old) (D.outside desk.new)
        (line_of_answer (Dumped (first ∷ take count (drop from (C.words commands.now)))))) }
    ensures failed { OnErr result (PrintsPart (D.outside desk.old) (D.outside desk.new)
        (line_of_answer (Dumped (first ∷ take count (drop from (C.words commands.now)))))) }
{
    print_word(desk, b"0x", first)?;
    print_more_words(desk, commands, from, count)?;
    print_all(b"\n", desk)
}

/// Prints the words from a number on, each after a space, as many as are asked for or as there are.
fn print_more_words<D: Desk, C: Commands>(
    desk: &mut D,
    commands: &C,
    from: usize,
    count: u32,
) -> Result<(), Failed>
    requires { from < 2 ^ 62 }
    ensures printed { OnOk result (Prints (D.outside desk.old) (D.outside desk.new)
        (flat_map and_word (take count (drop from (C.words commands.now))))) }
    ensures failed { OnErr result (PrintsPart (D.outside desk.old) (D.outside desk.new)
        (flat_map and_word (take count (drop from (C.words commands.now))))) }
{
    for k in 0..count {
        let Some(word) = commands.word(from + k as usize) else {
            return Ok(());
        };
        print_word(desk, b" 0x", word)?;
    }
    Ok(())
}

/// Prints the hexadecimal digits of a word after a few bytes.
fn print_word<D: Desk>(desk: &mut D, before: &[u8], word: u64) -> Result<(), Failed>
    requires { length before.now ≤ 3 }
    ensures printed { OnOk result (Prints (D.outside desk.old) (D.outside desk.new) (before.now ++ hexadecimal word)) }
    ensures failed { OnErr result (PrintsPart (D.outside desk.old) (D.outside desk.new) (before.now ++ hexadecimal word)) }
{
    let mut text = [0u8; MAX_WORD_BYTES];
    let at = put(before, &mut text, 0);
    let length = put_hexadecimal(word, &mut text, at);
    print_all(&text[..length], desk)
}

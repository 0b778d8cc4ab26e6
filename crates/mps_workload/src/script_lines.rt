// Single lines of a generated script.

ghost use Rattle.std.specs.Prelude.{ℕ, ◌≡◌, ◌≤◌, ◌<◌, ◌+◌, ◌∷◌, ◌++◌, [], length, take, drop, decimal};
ghost use Rattle.mps_workload.specs.Script.{making_lines, ending_lines, allocating_lines, lines_of_kind};

use mps_numerals::{put_decimal, put_text};

/// A line of text alone, with its line feed.
fn put_plain(text: &[u8], line: &mut [u8; 64]) -> u32
    requires { length text.now ≤ 64 }
    ensures text { take result line.new ≡ text.now }
    ensures at_most { result ≤ 64 }
{
    put_text(text, line, 0) as u32
}

/// A line with a number in it. Inlined, so that the texts around it are copied by their known lengths.
#[inline(always)]
fn put_number(before: &[u8], number: u64, after: &[u8], line: &mut [u8; 64]) -> u32
    requires { length before.now + 20 + length after.now ≤ 64 }
    ensures text { take result line.new ≡ before.now ++ decimal number ++ after.now }
    ensures at_most { result ≤ 64 }
{
    let at = put_text(before, line, 0);
    let at = put_decimal(number, line, at);
    put_text(after, line, at) as u32
}

/// A line with two numbers in it. Inlined for the same reason.
#[inline(always)]
fn put_two_numbers(
    before: &[u8],
    first: u64,
    between: &[u8],
    second: u64,
    after: &[u8],
    line: &mut [u8; 64],
) -> u32
    requires { length before.now + 20 + length between.now + 20 + length after.now ≤ 64 }
    ensures text { take result line.new ≡ before.now ++ decimal first ++ between.now ++ decimal second ++ after.now }
    ensures at_most { result ≤ 64 }
{
    let at = put_text(before, line, 0);
    let at = put_decimal(first, line, at);
    let at = put_text(between, line, at);
    let at = put_decimal(second, line, at);
    put_text(after, line, at) as u32
}

/// One of the lines that make things, after n of them.
pub(crate) fn put_making(written: u8, line: &mut [u8; 64]) -> u32
    requires { written < 5 }
    ensures line { drop written making_lines ≡ take result line.new ∷ drop (written + 1) making_lines }
    ensures at_most { result ≤ 64 }
{
    match written {
        0 => put_plain(b"arena 1024 1024\n", line),
        1 => put_plain(b"chain c 4 8\n", line),
        2 => put_plain(b"pool p amc front c\n", line),
        3 => put_plain(b"table t 16\n", line),
        _ => put_plain(b"ap x p exact\n", line),
    }
}

/// One of the last lines, after n of them.
pub(crate) fn put_ending(written: u8, line: &mut [u8; 64]) -> u32
    requires { written < 3 }
    ensures line { drop written ending_lines ≡ take result line.new ∷ drop (written + 1) ending_lines }
    ensures at_most { result ≤ 64 }
{
    match written {
        0 => put_plain(b"collect\n", line),
        1 => put_plain(b"live\n", line),
        _ => put_plain(b"committed\n", line),
    }
}

/// One of the lines that make an object, after n of them.
pub(crate) fn put_allocating(
    written: u8,
    step: u64,
    slot: u64,
    target: u64,
    line: &mut [u8; 64],
) -> u32
    requires { written < 4 }
    ensures line { drop written (allocating_lines step slot target) ≡ take result line.new
        ∷ drop (written + 1) (allocating_lines step slot target) }
    ensures at_most { result ≤ 64 }
{
    match written {
        0 => put_plain(b"reserve x f:8:3\n", line),
        1 => put_number(b"init x 4 ", step, b"\n", line),
        2 => put_number(b"init x 1 t.", target, b"\n", line),
        _ => put_number(b"commit x t.", slot, b"\n", line),
    }
}

/// The line of a step that has one alone.
pub(crate) fn put_step(kind: u64, slot: u64, target: u64, line: &mut [u8; 64]) -> u32
    requires some { 4 ≤ kind }
    requires known { kind < 8 }
    ensures line { (step : ℕ) → lines_of_kind kind step slot target ≡ take result line.new ∷ [] }
    ensures at_most { result ≤ 64 }
{
    match kind {
        4 => put_two_numbers(b"put t.", slot, b" 2 t.", target, b"\n", line),
        5 => put_two_numbers(b"get t.", slot, b" t.", target, b" 1\n", line),
        6 => put_number(b"num t.", slot, b" 4\n", line),
        _ => put_plain(b"step 7\n", line),
    }
}

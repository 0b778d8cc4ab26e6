// The lines of the input, one by one, across reads of any size.
ghost use Rattle.std.specs.Prelude.{◌≡◌, ◌<◌, ◌≤◌, ◌↔◌, ℕ, [], length, IfOk, IfSome, OnOk, OnErr};
ghost use Rattle.mps_desk.specs.Desk.{HasRisen, OnlyReads};
ghost use Rattle.mps_lines.specs.Buffer.{nothing_read, length_of_line, rest_of_script, HeldGives, TakesIn, KeepsUnread, ComesNextOf, IsLast};

use crate::next::Next;
use memchr::memchr;
use mps_desk::{Desk, Failed};
use mps_line_words::MAX_LINE_BYTES;
use std::alloc::{AllocError, Global};
use std::marker::Model;

/// The most bytes of the input that are held at once.
const MAX_HELD_BYTES: usize = 65536;

/// The lines of the input. Bytes that were read and not yet given wait in a buffer of fixed size. Contracts see the line
/// that was given last and the bytes that wait.
#[derive(Drop)]
pub struct Lines {
    bytes: Vec<u8>,
    line_start: usize,
    line_end: usize,
    start: usize,
    end: usize,
}

impl Model for Lines {
    ghost use Rattle.std.specs.Prelude.{◌≡◌, ◌-◌, ◌≤◌, vec_len};
    ghost use Rattle.mps_lines.specs.Buffer.{LineBuffer, bytes_between};

    ghost Value = { LineBuffer };

    ghost view = { λ l. record {
      line = bytes_between l.line_start l.line_end l.bytes.items;
      waiting = bytes_between l.start l.end l.bytes.items;
      room = 65536 - l.end;
    } };

    ghost invariant = { λ l. (vec_len l.bytes ≡ 65536) × (l.line_start ≤ l.line_end) × (l.line_end ≤ 65536)
        × (l.start ≤ l.end) × (l.end ≤ 65536) };
}

/// How many bytes stand before the first line feed: all where there is none.
#[inline(always)]
fn length_of_line(bytes: &[u8]) -> usize
    ensures length { result ≡ length_of_line bytes.now }
    ensures at_most { result ≤ length bytes.now }
{
    memchr(b'\n', bytes).unwrap_or(bytes.len())
}

impl Lines {
    /// No bytes wait yet.
    pub fn new(alloc: Global) -> Result<Lines, AllocError>
        ensures { IfOk result (λ lines. lines ≡ nothing_read) }
    {
        Ok(Lines {
            bytes: Vec::from_elem(alloc, 0, MAX_HELD_BYTES)?,
            line_start: 0,
            line_end: 0,
            start: 0,
            end: 0,
        })
    }

    /// The line that was given last, without its line feed.
    pub fn line(&self) -> &[u8]
        ensures { result.now ≡ self.now.line }
    {
        &self.bytes[self.line_start..self.line_end]
    }

    /// Goes on to the next line.
    pub fn next<D: Desk>(&mut self, desk: &mut D) -> Result<Next, Failed>
        ensures next { IfOk result (λ next. ComesNextOf next (rest_of_script self.old (D.outside desk.old).input) self.new.line
            (rest_of_script self.new (D.outside desk.new).input)) }
        ensures counted { (D.outside desk.old).in_faults ≤ (D.outside desk.new).in_faults }
        // A failed read loses nothing, and no whole line waits then.
        ensures unread { OnErr result (KeepsUnread self.old self.new (D.outside desk.old).input (D.outside desk.new).input) }
        ensures steady { OnOk result ((D.outside desk.new).in_faults ≡ (D.outside desk.old).in_faults) }
        ensures cause { OnErr result (HasRisen (D.outside desk.old).in_faults (D.outside desk.new).in_faults) }
        ensures others { OnlyReads (D.outside desk.old) (D.outside desk.new) }
    {
        loop {
            if let Some(next) = self.next_held() {
                return Ok(next);
            }
            if self.fill(desk)? == 0 {
                return Ok(self.last());
            }
        }
    }

    /// The next line, where it waits whole, or more bytes than a line may have.
    #[inline(always)]
    pub fn next_held(&mut self) -> Option<Next>
        ensures { HeldGives self.old self.new result }
    {
        let length = length_of_line(&self.bytes[self.start..self.end]);
        if length > MAX_LINE_BYTES {
            return Some(Next::TooLong);
        }
        if length == self.end - self.start {
            return None;
        }
        self.line_start = self.start;
        self.line_end = self.start + length;
        self.start = self.line_end + 1;
        Some(Next::Line)
    }

    /// Reads more after what waits, and returns how many bytes; 0 at the end of the input.
    fn fill<D: Desk>(&mut self, desk: &mut D) -> Result<usize, Failed>
        requires { length self.old.waiting ≤ 4096 }
        ensures read { IfOk result (λ count. TakesIn self.old self.new (D.outside desk.old).input (D.outside desk.new).input count) }
        ensures end { IfOk result (λ count. count ≡ 0 → IfSome (D.outside desk.old).input (λ left. left ≡ [])) }
        ensures counted { (D.outside desk.old).in_faults ≤ (D.outside desk.new).in_faults }
        ensures waits { OnErr result (self.new.waiting ≡ self.old.waiting) }
        ensures input { OnErr result ((D.outside desk.new).input ≡ (D.outside desk.old).input) }
        ensures steady { OnOk result ((D.outside desk.new).in_faults ≡ (D.outside desk.old).in_faults) }
        ensures cause { OnErr result (HasRisen (D.outside desk.old).in_faults (D.outside desk.new).in_faults) }
        ensures others { OnlyReads (D.outside desk.old) (D.outside desk.new) }
    {
        if self.end == MAX_HELD_BYTES {
            self.move_down();
        }
        self.read_after(desk)
    }

    /// Moves what waits to the beginning of the buffer. The line that was given last is lost.
    fn move_down(&mut self)
        requires { length self.old.waiting ≤ 4096 }
        ensures waits { self.new.waiting ≡ self.old.waiting }
        ensures fits { 0 < self.new.room }
    {
        self.bytes.copy_within(self.start..self.end, 0);
        self.end -= self.start;
        self.start = 0;
    }

    /// Reads some bytes after what waits.
    fn read_after<D: Desk>(&mut self, desk: &mut D) -> Result<usize, Failed>
        requires { 0 < self.old.room }
        ensures read { IfOk result (λ count. TakesIn self.old self.new (D.outside desk.old).input (D.outside desk.new).input count) }
        ensures end { IfOk result (λ count. count ≡ 0 → IfSome (D.outside desk.old).input (λ left. left ≡ [])) }
        ensures counted { (D.outside desk.old).in_faults ≤ (D.outside desk.new).in_faults }
        ensures waits { OnErr result (self.new.waiting ≡ self.old.waiting) }
        ensures input { OnErr result ((D.outside desk.new).input ≡ (D.outside desk.old).input) }
        ensures steady { OnOk result ((D.outside desk.new).in_faults ≡ (D.outside desk.old).in_faults) }
        ensures cause { OnErr result (HasRisen (D.outside desk.old).in_faults (D.outside desk.new).in_faults) }
        ensures others { OnlyReads (D.outside desk.old) (D.outside desk.new) }
    {
        let count = desk.read(&mut self.bytes[self.end..])?;
        self.end += count;
        Ok(count)
    }

    /// The last line, which has no line feed, or the end.
    fn last(&mut self) -> Next
        ensures { IsLast self.old self.new result }
    {
        if self.start == self.end {
            return Next::End;
        }
        self.line_start = self.start;
        self.line_end = self.end;
        self.start = self.end;
        Next::Line
    }
}

// The lines of a generated script, one by one.

ghost use Rattle.std.specs.Prelude.{◌≡◌, ◌≢◌, ◌≤◌, ◌<◌, ◌∷◌, [], true, false, length, take, drop, MatchOption, IfSome};
ghost use Rattle.mps_workload.specs.Script.{script_lines, ending_lines, last_two_lines, next_state, number_below, state_after_step};
ghost use Rattle.mps_workload.specs.GenLines.{lines_left, CanStand};
ghost use Rattle.mps_workload.specs.declared.lines.Position.TheVariants as position;

use crate::script_lines::{put_allocating, put_ending, put_making, put_step};
use std::marker::Model;

/// The multiplier of the linear congruential generator.
const MULTIPLIER: u64 = 6364136223846793005;

/// Its increment.
const INCREMENT: u64 = 1442695040888963407;

/// Where a generator stands in its script.
#[derive(Clone, Copy, Debug, PartialEq, Eq)]
enum Position {
    /// After n of the lines that make things.
    Making(u8),
    /// Before a step.
    Stepping,
    /// Within a step that makes an object, after n lines of it: it goes into one slot and refers to another's.
    Allocating { written: u8, slot: u64, target: u64 },
    /// After n of the last lines.
    Ending(u8),
}

/// A position in a script, and what the lines from there on come from.
#[derive(Debug, Drop)]
struct Standing {
    state: u64,
    step: u64,
    count: u64,
    position: Position,
}

/// The lines of a generated script, one by one. It takes no memory. Contracts see the lines that are left.
#[derive(Debug, Drop)]
pub struct GenLines {
    standing: Standing,
}

impl Model for GenLines {
    ghost use Rattle.std.specs.Prelude.{ℕ, List};

    ghost Value = { List (List ℕ) };

    ghost use Rattle.mps_workload.specs.GenLines.{lines_left, CanStand};

    ghost view = { λ g. lines_left g.standing };

    ghost invariant = { λ g. CanStand g.standing };
}

impl GenLines {
    /// The lines of the script of a seed, of n steps.
    pub fn new(seed: u64, count: u64) -> GenLines
        requires { count ≤ 1000000 }
        ensures { result ≡ script_lines seed count }
    {
        GenLines {
            standing: Standing {
                state: seed,
                step: 0,
                count,
                position: Position::Making(0),
            },
        }
    }

    /// Writes the next line with its line feed at a prefix of `line`, and returns its length. None exactly after the
    /// last line.
    pub fn next_line(&mut self, line: &mut [u8; 64]) -> Option<u32>
        ensures line { MatchOption result ((self.old ≡ []) × (self.new ≡ [])) (λ length. self.old ≡ take length line.new ∷ self.new) }
        ensures at_most { IfSome result (λ length. length ≤ 64) }
    {
        let at = &mut self.standing;
        match at.position {
            Position::Making(written) => Some(at.making_line(written, line)),
            Position::Stepping if at.step < at.count => Some(at.step_line(line)),
            Position::Stepping => Some(at.ending_line(0, line)),
            Position::Allocating {
                written,
                slot,
                target,
            } => Some(at.allocating_line(written, slot, target, line)),
            Position::Ending(written) if written < 3 => Some(at.ending_line(written, line)),
            Position::Ending(_) => None,
        }
    }

    /// Whether just the last two lines are left: `live` and `committed`.
    pub fn are_two_left(&self) -> bool
        ensures two { result ≡ true → self.now ≡ last_two_lines }
        ensures others { result ≡ false → length self.now ≢ 2 }
    {
        match self.standing.position {
            Position::Ending(written) => written == 1,
            _ => false,
        }
    }
}

// Each method writes the next line from one position, goes past it, and returns its length.
impl Standing {
    /// One of the lines that make things.
    fn making_line(&mut self, written: u8, line: &mut [u8; 64]) -> u32
        requires here { self.old.position ≡ position.Making written }
        requires stands { CanStand self.old }
        ensures line { lines_left self.old ≡ take result line.new ∷ lines_left self.new }
        ensures at_most { result ≤ 64 }
        ensures stands { CanStand self.new }
    {
        let length = put_making(written, line);
        self.position = if written < 4 {
            Position::Making(written + 1)
        } else {
            Position::Stepping
        };
        length
    }

    /// The first line of a step.
    fn step_line(&mut self, line: &mut [u8; 64]) -> u32
        requires here { self.old.position ≡ position.Stepping }
        requires more { self.old.step < self.old.count }
        ensures line { lines_left self.old ≡ take result line.new ∷ lines_left self.new }
        ensures at_most { result ≤ 64 }
        ensures stands { CanStand self.new }
    {
        let Drawn {
            slot,
            target,
            kind,
            state,
        } = draw(self.state);
        self.state = state;
        let makes_an_object = kind < 4;
        if makes_an_object {
            self.position = Position::Allocating {
                written: 1,
                slot,
                target,
            };
            put_allocating(0, self.step, slot, target, line)
        } else {
            self.step += 1;
            put_step(kind, slot, target, line)
        }
    }

    /// Another line of a step that makes an object.
    fn allocating_line(&mut self, written: u8, slot: u64, target: u64, line: &mut [u8; 64]) -> u32
        requires here { self.old.position ≡ position.Allocating written slot target }
        requires stands { CanStand self.old }
        ensures line { lines_left self.old ≡ take result line.new ∷ lines_left self.new }
        ensures at_most { result ≤ 64 }
        ensures stands { CanStand self.new }
    {
        if written < 3 {
            self.position = Position::Allocating {
                written: written + 1,
                slot,
                target,
            };
            put_allocating(written, self.step, slot, target, line)
        } else {
            let length = put_allocating(3, self.step, slot, target, line);
            self.step += 1;
            self.position = Position::Stepping;
            length
        }
    }

    /// One of the last lines.
    fn ending_line(&mut self, written: u8, line: &mut [u8; 64]) -> u32
        requires here { lines_left self.old ≡ drop written ending_lines }
        requires some { written < 3 }
        ensures line { lines_left self.old ≡ take result line.new ∷ lines_left self.new }
        ensures at_most { result ≤ 64 }
        ensures stands { CanStand self.new }
    {
        self.position = Position::Ending(written + 1);
        put_ending(written, line)
    }
}

/// The three numbers of a step, and the state after them.
#[derive(Clone, Copy)]
struct Drawn {
    slot: u64,
    target: u64,
    kind: u64,
    state: u64,
}

/// Draws the three numbers of a step, in their order.
fn draw(state: u64) -> Drawn
    ensures slot { result.slot ≡ number_below 16 (next_state state) }
    ensures target { result.target ≡ number_below 16 (next_state (next_state state)) }
    ensures kind { result.kind ≡ number_below 8 (state_after_step state) }
    ensures after { result.state ≡ state_after_step state }
    ensures below { result.kind < 8 }
{
    let first = next(state);
    let second = next(first);
    let third = next(second);
    Drawn {
        slot: below(16, first),
        target: below(16, second),
        kind: below(8, third),
        state: third,
    }
}

/// The state after one.
fn next(state: u64) -> u64
    ensures { result ≡ next_state state }
{
    state.wrapping_mul(MULTIPLIER).wrapping_add(INCREMENT)
}

/// The number below a bound that a state gives.
fn below(bound: u64, state: u64) -> u64
    requires { 0 < bound }
    ensures { result ≡ number_below bound state }
{
    (state >> 33) % bound
}

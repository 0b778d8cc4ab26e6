// Short texts that a program reports.

ghost use Rattle.std.specs.Prelude.{◌≡◌, ◌≤◌, ◌+◌, ◌++◌, length, take, decimal};
ghost use Rattle.mps_report.specs.Streams.{Reports};

use crate::write::report_all;
use mps_desk::Desk;
use mps_numerals::{put_decimal, put_text};
use std::marker::Model;

/// A text of at most 96 bytes that is reported.
#[derive(Drop)]
pub struct Notice {
    bytes: [u8; 96],
    used: usize,
}

impl Model for Notice {
    ghost use Rattle.std.specs.Prelude.{◌≤◌, ℕ, List, take};

    ghost Value = { List ℕ };

    ghost view = { λ n. take n.used n.bytes };

    ghost invariant = { λ n. n.used ≤ 96 };
}

impl Notice {
    /// A text alone.
    pub fn plain(text: &[u8]) -> Notice
        requires { length text.now ≤ 96 }
        ensures { result ≡ text.now }
    {
        let mut bytes = [0u8; 96];
        let used = put_text(text, &mut bytes, 0);
        Notice { bytes, used }
    }

    /// A decimal number between two texts.
    pub fn with_number(before: &[u8], number: u64, after: &[u8]) -> Notice
        requires { length before.now + 20 + length after.now ≤ 96 }
        ensures { result ≡ before.now ++ decimal number ++ after.now }
    {
        let mut bytes = [0u8; 96];
        let at = put_text(before, &mut bytes, 0);
        let at = put_decimal(number, &mut bytes, at);
        let used = put_text(after, &mut bytes, at);
        Notice { bytes, used }
    }

    /// Reports it. A fault ends the reporting.
    pub fn report<D: Desk>(&self, desk: &mut D)
        ensures { Reports (D.outside desk.old) (D.outside desk.new) self.now }
    {
        report_all(&self.bytes[..self.used], desk);
    }
}

//! Marks of addresses: a table of bits, each of which stands for many addresses. One bit then says of most addresses that a set has none
//! of those that share it.
#![tactic(auto)]

ghost use Rattle.std.specs.Prelude.{◌≡◌, ◌<◌};
ghost use Rattle.mps_address_marks.specs.Marks.{mark_of};

use mps_base::Addr;

/// The index of the mark of an address in a table of n marks. Addresses that are 8n bytes apart have the same.
#[inline(always)]
pub fn mark_of(at: Addr, n: usize) -> usize
    requires { 0 < n }
    ensures value { result ≡ mark_of n at.0 }
    ensures within { result < n }
{
    at.word() % n
}

//! A desk that gathers what another desk is to log and print, and hands it on in large pieces.
#![tactic(auto)]

mod gathering;
mod held;
mod prefix;

pub use gathering::Gathering;

//! The trait `Commands`: what a machine that executes commands must guarantee.
#![tactic(auto)]

mod commands;

pub use commands::Commands;

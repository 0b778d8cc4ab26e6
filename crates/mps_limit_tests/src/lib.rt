//! Tests of limits: scripts that run on a session and whose lines loops make, up to each limit and in arenas that are full.
#![tactic(auto)]

#[cfg(test)]
mod tests;

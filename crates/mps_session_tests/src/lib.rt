//! Tests of the session of a script: scripts that run on it, with what they print, and some of them with what they log.
#![tactic(auto)]

#[cfg(test)]
mod tests;

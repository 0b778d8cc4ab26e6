//! Tests of the program: the words of the command line, lines of scripts, and desks of which calls fail.
#![tactic(auto)]

#[cfg(test)]
mod tests;

//! Tests of desks: in memory and over real files, and the program over desks of which any call fails or takes parts of pieces.
#![tactic(auto)]

#[cfg(test)]
mod tests;

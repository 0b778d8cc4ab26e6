//! Tests of marks, manual pools, points, the collector and the table of pools. They stand here since a crate that has tests is proved
//! twice.
#![tactic(auto)]

#[cfg(test)]
mod collector;
#[cfg(test)]
mod manual;
#[cfg(test)]
mod marks;
#[cfg(test)]
mod points;
#[cfg(test)]
mod pools;

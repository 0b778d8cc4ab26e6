//! `cnv`: the portable text of a log.
#![tactic(auto)]

mod conversion;
mod unwanted;

pub use conversion::cnv;

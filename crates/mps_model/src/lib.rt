//! The definitions on which the promises of the memory pool system stand, and the calls and replies that they speak of.
#![tactic(auto)]

mod call;
mod reply;

pub use call::Call;
pub use reply::Reply;

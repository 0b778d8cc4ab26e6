//! The session of a script: it answers commands on a heap, which `arena` makes.
#![tactic(auto)]

mod areas;
mod arena;
mod caching;
mod calls;
mod collecting;
mod grouping;
mod machine;
mod made;
mod making;
mod manual;
mod moving;
mod reading;
mod replies;
mod telling;
mod writing;

pub use machine::Session;

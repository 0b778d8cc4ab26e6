//! The calls of a heap on allocation caches.
#![tactic(auto)]

pub mod caching;

//! How the collector reads the client's objects: the trait `Format`, its laws, and the formats `front`, `mapped` and
//! `leaf`; and what the pools are that have such objects.
#![tactic(auto)]

mod any;
mod format;
mod front;
mod head;
mod head_word;
mod leaf;
mod mapped;
mod pair;
mod pool;
mod put;

pub use any::AnyFormat;
pub use format::Format;
pub use front::Front;
pub use head::{Head, put_head_text};
pub use leaf::Leaf;
pub use mapped::Mapped;
pub use pool::{
    Policy, Pool, format_of_pool, is_automatic, is_copying, is_leaf, is_moved_or_manual, is_weak,
    policy_of_pool, size_of_pool,
};

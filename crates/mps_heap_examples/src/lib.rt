//! A heap over a format of a runtime's own, and the inner loop of that runtime.
#![tactic(auto)]

mod addresses;
mod list;
mod tail;

pub use addresses::{
    add_to_first, find_again, is_where_noted, note_first, pin_and_collect, read_second,
    set_and_collect, set_first,
};
pub use list::{
    HEAD, collect, collect_often, make, mark_new, pop, push, sum, sum_by_key, sum_of_two,
};
pub use tail::Tail;

#[cfg(test)]
mod tests;

//! The call of a line whose command word begins with a letter `a` to `k`.
#![tactic(auto)]

mod a_to_b;
mod c;
mod caches;
mod cells;
mod chain;
mod d_to_f;
mod g_to_k;
mod points;

pub use a_to_b::call_of_a_to_b;
pub use c::call_of_c;
pub use d_to_f::call_of_d_to_f;
pub use g_to_k::call_of_g_to_k;

//! The call of a line whose command word begins with a letter `l` to `z`.
#![tactic(auto)]

mod l;
mod m_to_o;
mod p_to_r;
mod pools;
mod s_to_z;
mod tags;
mod transforms;

pub use l::call_of_l;
pub use m_to_o::call_of_m_to_o;
pub use p_to_r::call_of_p_to_r;
pub use s_to_z::call_of_s_to_z;

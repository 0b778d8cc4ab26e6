//! Numbers in texts, both ways: decimal, and hexadecimal in lower case, each without leading zeros.
#![tactic(auto)]

mod decimal;
mod hexadecimal;
mod put;
mod reading;

pub use decimal::{decimal_number, put_decimal};
pub use hexadecimal::{hexadecimal_number, put_hexadecimal};
pub use put::put_text;

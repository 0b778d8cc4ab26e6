//! The outside world as a program sees it: files and standard streams, each call of which may fail.
#![tactic(auto)]

mod calls;
mod desk;
mod host_desk;
mod host_file;
mod mem_desk;
mod quiet_desk;
mod requests;
mod stored_file;

pub use desk::{Desk, Failed};
pub use host_desk::HostDesk;
pub use mem_desk::{DeskCall, MemDesk};
pub use quiet_desk::QuietDesk;

//! What a program prints, logs and reports: whole pieces, a buffer of what is printed next, and the reasons to stop, each
//! with its report and its status.
#![tactic(auto)]

mod notice;
mod output;
mod stop;
mod write;

pub use notice::Notice;
pub use output::Output;
pub use stop::{BadPlace, NoBadPlace, Stop, notice_of_stop, report_ending, status_of_stop};
pub use write::{log_all, print_all, print_settled, report_all};

//! The records of a log, both ways: written into borrowed bytes, and read where they lie. A log is a header of 8 bytes and
//! then records without gaps. There are two versions of it; the second also interns names and labels addresses.
#![tactic(auto)]

mod event;
mod fault;
mod headers;
mod kinds;
mod laws;
mod name;
mod pool_kind;
mod reading;
mod record;
mod version;
mod writing;

pub use event::Event;
pub use fault::{BadMagic, LogFault};
pub use headers::{header, header_of};
pub use kinds::Kinds;
pub use laws::no_record_begins_another;
pub use name::is_padded_name;
pub use pool_kind::{MFS_NUMBER, MVFF_NUMBER, SNC_NUMBER, kind_number};
pub use reading::first;
pub use record::RecordRef;
pub use version::Version;
pub use writing::put;

//! The text of a journal: what editors did, at which samples, and how it is read and printed.
#![tactic(auto)]

mod canonical;
mod fault;
pub mod laws;
mod line;
mod reader;
mod standing;

pub use canonical::print;
pub use fault::{JournalFault, JournalKind};
pub use reader::{JOURNAL_LIMIT, read};

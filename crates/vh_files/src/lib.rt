//! The outside of the host: files, the text that it says, and the points where a live run may be held.
#![tactic(auto)]

mod disk;
mod due;
mod fields;
mod mem;
mod outside;
mod shelf;
mod sure;
mod whole;

pub use disk::{DiskFiles, OutSay};
pub use due::Op;
pub use fields::{field16, field32, field64};
pub use mem::{MemFiles, MemSay};
pub use outside::{Failed, Files, Gate, Say};
pub use sure::{SureFiles, SureSay};
pub use whole::{append_all, fill, say_all};

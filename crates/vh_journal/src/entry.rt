//! Journals and their entries.

use vh_params::Command;

/// What an editor did, and at which sample it took effect.
#[derive(Clone, Copy, Debug, PartialEq, Eq)]
pub struct Entry {
    /// In frames from the rendering's beginning, at most its length.
    pub sample: u32,
    /// The editor's number.
    pub editor: u32,
    /// The entry's place among those of its editor, from 0.
    pub seq: u32,
    pub command: Command,
}

/// The entries of a rendering, by rising sample.
#[derive(Drop, Debug)]
pub struct Journal {
    pub entries: Vec<Entry>,
}

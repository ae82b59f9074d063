//! What waits to be taken.

use vh_params::Command;

/// An edit or a message on its way from an editor, with its number among that editor's, from 0.
#[derive(Clone, Copy, Debug, PartialEq, Eq)]
pub struct Sent {
    pub editor: u32,
    pub seq: u32,
    pub command: Command,
}

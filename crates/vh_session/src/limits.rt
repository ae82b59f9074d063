//! The limits of a session.

/// Frames of a session, and the greatest sample of a breakpoint.
pub(crate) const MOST_FRAMES: u32 = 16_777_216;
/// Sizes of a pattern.
pub(crate) const MOST_SIZES: usize = 16;
/// Frames of a block.
pub(crate) const MOST_SIZE: u32 = 8192;

pub(crate) const MOST_NODES: u32 = 64;
/// Bytes of a file's name.
pub(crate) const MOST_FILE: usize = 255;

pub(crate) const MOST_WIRES: usize = 256;

pub(crate) const MOST_LANES: usize = 256;
/// Bits that a lane's grain may take away.
pub(crate) const MOST_GRAIN: u32 = 24;
/// Breakpoints of a lane.
pub(crate) const MOST_BREAKS: usize = 4096;

pub(crate) const MOST_EDITORS: usize = 8;
/// Words of all scripts together.
pub(crate) const MOST_SCRIPT_WORDS: u32 = 4096;
/// Numbers of a message.
pub(crate) const MOST_NUMBERS: usize = 4;
/// Bytes of a text.
pub const SESSION_LIMIT: u64 = 33_554_432;

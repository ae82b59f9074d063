//! Why a rendering stops before its end.

/// Why a rendering stops before its end.
#[derive(Clone, Copy, Debug, PartialEq, Eq)]
pub enum Stopped {
    /// Frames couldn't be read.
    ReadFailed,
    /// Frames couldn't be added.
    WriteFailed,
    /// What came is on no node of the session, or on no parameter of it that can be set.
    Unfit,
}

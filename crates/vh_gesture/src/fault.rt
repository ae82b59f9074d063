use thiserror::Error;

/// Why an editor's word is refused.
#[derive(Clone, Copy, Debug, PartialEq, Eq, Error)]
pub enum GestureFault {
    /// The editor has no reference to the node's controller.
    #[error("the editor has no reference to the node")]
    NoReference,
    /// The editor held the node 64 times already.
    #[error("the editor held the node 64 times already")]
    TooManyHolds,
    #[error("the node has no such parameter")]
    UnknownParam,
    #[error("the parameter can't be set")]
    ReadOnly,
    /// A value above 2^24.
    #[error("the value {0} is above 16777216")]
    OutOfRange(u32),
    #[error("the gesture is open already")]
    AlreadyOpen,
    #[error("the gesture isn't open")]
    NotOpen,
}

//! What editors do, and what processors answer.

use crate::label::Words;

/// An edit of a parameter, or a message to a node.
#[derive(Clone, Copy, Debug, PartialEq, Eq)]
pub enum Command {
    /// A gesture on a parameter begins (the SDK's `beginEdit`).
    Begin { node: u32, id: u32 },
    /// A parameter takes a normalised value, 0 to 2^24, within a gesture (`performEdit`).
    Perform { node: u32, id: u32, value: u32 },
    /// The gesture ends (`endEdit`).
    End { node: u32, id: u32 },
    /// A message to the node's processor (the SDK's `IMessage`).
    Tell { node: u32, words: Words },
}

/// A word of an editor's script.
#[derive(Clone, Copy, Debug, PartialEq, Eq)]
pub enum Word {
    Edit(Command),
    /// The editor takes one more reference to the node's controller.
    Hold(u32),
    /// The editor gives one back.
    Unhold(u32),
    /// The next word waits until this block is about to begin.
    Wait(u32),
}

/// A processor's answer to a message: the node, the sample of the message, and the words.
#[derive(Clone, Copy, Debug, PartialEq, Eq)]
pub struct Reply {
    pub node: u32,
    pub sample: u32,
    pub words: Words,
}

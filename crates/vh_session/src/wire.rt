//! Wires.

/// An end of a wire.
#[derive(Clone, Copy, Debug, PartialEq, Eq, Hash)]
pub enum End {
    /// The input, where a wire may begin.
    In,
    /// The output, where a wire may end.
    Out,
    Node(u32),
}

/// A wire from a node or the input to a node, into its main or its aux bus, or to the output.
#[derive(Clone, Copy, Debug, PartialEq, Eq, Hash)]
pub struct Wire {
    pub from: End,
    pub to: End,
    pub aux: bool,
}

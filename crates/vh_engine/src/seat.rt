//! Where a node sits among the wires.

use vh_session::End;

/// What reaches a node: the ends of the wires to its main bus and to its aux bus.
#[derive(Drop)]
pub(crate) struct Seat {
    pub(crate) main: Vec<End>,
    pub(crate) aux: Vec<End>,
}

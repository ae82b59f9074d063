//! What the rule on pieces comes to.

ghost use Rattle.vh_cut.specs.Laws.{PiecesLieEndToEnd};

/// The pieces lie end to end over all samples: none is empty, each is no longer than the size whose turn it
/// is, and none crosses a stop.
pub fn pieces_lie_end_to_end()
    ensures { PiecesLieEndToEnd }
{}

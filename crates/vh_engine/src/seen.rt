//! What is seen of the parameters.

ghost use Rattle.std.specs.Prelude.{◌≡◌, ◌<◌, ◌≤◌, ◌^◌, ℕ, length, sum_by, All, true};
ghost use Rattle.vh_component.specs.States.{of_processing};
ghost use Rattle.vh_counted.specs.Held.{value_of_opened};
ghost use Rattle.vh_plugin.specs.Class.{has_shown};
ghost use Rattle.vh_engine.specs.Seen.{seen_of_node, seen_of_all, AreShown};
ghost use Rattle.vh_engine.specs.Staged.{of_all, boards_of, board_at};

use crate::control::Control;
use vh_component::Processing;
use vh_plugin::Processor;

/// Writes what is seen of a node's parameters: what its processor has, and what it shows of read-only ones.
fn see_node<P: Processor + Drop>(processor: &Processing<P>, board: &[Control], values: &mut [u32])
    requires shown { All (λ control. control.shown ≡ true → has_shown (P.class_of (P.code (value_of_opened (of_processing processor.now)))).params control.id ≡ true) board.now }
    requires sent { All (λ control. control.sent ≤ 2 ^ 24) board.now }
    requires room { length values.old ≡ length board.now }
    ensures seen { values.new ≡ seen_of_node (P.class_of (P.code (value_of_opened (of_processing processor.now)))) (P.state (value_of_opened (of_processing processor.now))) board.now }
    ensures within { All (λ value. value ≤ 2 ^ 24) values.new }
{
    for (place, control) in board.iter().enumerate() {
        values[place] = if control.shown {
            processor.value().shown(control.id)
        } else {
            control.sent
        };
    }
}

/// Writes what is seen of all parameters, node by node.
pub(crate) fn see<P: Processor + Drop>(
    processors: &[Processing<P>],
    boards: &[Vec<Control>],
    values: &mut [u32],
)
    requires boards { length boards.now ≡ length processors.now }
    requires shown { AreShown P.class_of (of_all P.code processors.now) (boards_of boards.now) }
    requires sent { (node : ℕ) → node < length boards.now → All (λ control. control.sent ≤ 2 ^ 24) (board_at (boards_of boards.now) node) }
    requires room { length values.old ≡ sum_by (λ board. length board) (boards_of boards.now) }
    ensures seen { values.new ≡ seen_of_all P.class_of (of_all P.code processors.now) (of_all P.state processors.now) (boards_of boards.now) }
    ensures within { All (λ value. value ≤ 2 ^ 24) values.new }
{
    let mut at = 0;
    for (node, processor) in processors.iter().enumerate() {
        let board = &boards[node];
        let end = at + board.len();
        see_node(processor, board, &mut values[at..end]);
        at = end;
    }
}

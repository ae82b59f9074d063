//! What editors hold once they are done.

ghost use Rattle.std.specs.Prelude.{◌≡◌, ◌<◌, [], List, Bool, true, length, slice_index_or};
ghost use Rattle.vh_params.specs.Nodes.{Node};
ghost use Rattle.vh_params.specs.declared.command.Word.{Word};
ghost use Rattle.vh_gesture.specs.Laws.{AreSame};
ghost use Rattle.vh_gesture.specs.Tables.{IsOf, counts_in};
ghost use Rattle.vh_hands.specs.Hands.{at_script_end};

use vh_editors::Editors;
use vh_gesture::Gestures;

/// Editors who work at scripts, each at one of its own.
pub trait Worked {
    /// The nodes of the session.
    ghost nodes: { Self → List Node };

    /// The scripts, editor by editor.
    ghost scripts: { Self → List (List Word) };

    /// The scripts were worked through.
    ghost done: { Self → Bool };

    /// How many editors there are.
    fn count(&self) -> usize
        ensures { result ≡ length (scripts self.now) };

    /// What an editor has at its script's end.
    fn gestures(&self, editor: usize) -> &Gestures
        requires editor { editor < length (scripts self.now) }
        requires done { done self.now ≡ true }
        ensures nodes { IsOf (nodes self.now) result.now }
        ensures counts { AreSame (counts_in result.now) (at_script_end (nodes self.now) (slice_index_or (scripts self.now) editor [])) };
}

impl Worked for Editors {
    ghost nodes = { λ editors. editors.nodes };

    ghost scripts = { λ editors. editors.scripts };

    ghost done = { λ editors. editors.done };

    fn count(&self) -> usize {
        Editors::count(self)
    }

    fn gestures(&self, editor: usize) -> &Gestures {
        Editors::gestures(self, editor)
    }
}

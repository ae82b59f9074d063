//! Where edits and messages come from.

ghost use Rattle.std.specs.Prelude.{◌≡◌, ◌++◌, List, vec_capacity};
ghost use Rattle.vh_journal.specs.declared.entry.Entry.{Entry as Stored};
ghost use Rattle.vh_stage.specs.Playing.{IsUpTo, AreAt};

use vh_journal::Entry;

/// Where the edits and messages of a rendering come from while it is played.
pub trait Source {
    /// These are the entries that it gave so far.
    ghost gave: { Self → List Stored → Type 0 };

    /// What all else means that is meant by it.
    ghost Rest: { Type 0 };

    /// All else that is meant by it, which giving entries doesn't change.
    ghost rest: { Self → Rest };

    /// Puts the entries of block number `block` behind those of the journal, as far as its spare room goes. The block
    /// begins at sample `at`, and each of them is of that sample.
    fn take(&mut self, block: u32, at: u32, journal: &mut Vec<Entry>)
        requires gave { gave self.old journal.old.items }
        requires up_to { IsUpTo at journal.old.items }
        ensures gave { gave self.new journal.new.items }
        ensures added { (more : List Stored) × (journal.new.items ≡ journal.old.items ++ more) × AreAt at more }
        ensures capacity { vec_capacity journal.new ≡ vec_capacity journal.old }
        ensures rest { rest self.new ≡ rest self.old };
}

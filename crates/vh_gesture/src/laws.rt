//! Laws of the definitions: the contracts of these functions.

ghost use Rattle.vh_gesture.specs.Laws.{TableAcceptsScript, TableGivesEdits, TableCounts};

/// Judging a script word by word, a table accepts what is accepted of the script.
pub fn table_accepts_script()
    ensures { TableAcceptsScript }
{}

/// The commands that a table lets through are the script's edits.
pub fn table_gives_edits()
    ensures { TableGivesEdits }
{}

/// A table's numbers are the counts over the accepted words.
pub fn table_counts()
    ensures { TableCounts }
{}

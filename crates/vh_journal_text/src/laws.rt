//! Laws of the definitions: the contracts of these functions.

ghost use Rattle.vh_journal_text.specs.Faults.{FaultIsFirst, KindsInOrder};
ghost use Rattle.vh_journal_text.specs.Laws.{PrintedIsRead, ReadIsJournal};

/// The canonical text of a journal is read as this journal.
pub fn printed_is_read()
    ensures { PrintedIsRead }
{}

/// What is read is a journal: each entry may stand behind those before it.
pub fn read_is_journal()
    ensures { ReadIsJournal }
{}

/// A text's fault is that of its first line that has one: the lines before it say entries.
pub fn fault_is_first()
    ensures { FaultIsFirst }
{}

/// The line of an entry is refused exactly for the first rule that it breaks, in the order of the kinds.
pub fn kinds_in_order()
    ensures { KindsInOrder }
{}

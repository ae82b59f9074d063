//! What words, lines and numbers come to.

ghost use Rattle.vh_text.specs.Laws.{IsReadBack, WordsAreRuns};

/// The words of a line are its runs of bytes other than space: none is empty, each such byte is in one, and there
/// is a space between two of them.
pub fn words_are_runs()
    ensures { WordsAreRuns }
{}

/// Words and numbers that are written are read as they were.
pub fn written_is_read()
    ensures { IsReadBack }
{}

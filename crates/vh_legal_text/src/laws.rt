//! Laws of legal journals as texts.

ghost use Rattle.vh_legal_text.specs.Laws.{LegalReadsBack};

use vh_journal_text::laws::printed_is_read;
use vh_legal::laws::legal_is_journal;

/// A legal journal keeps the rules by which a text is read, so its canonical text says this journal and has no fault.
pub fn legal_reads_back()
    ensures { LegalReadsBack }
{
    legal_is_journal();
    printed_is_read();
}

//! Printing and reading.

ghost use Rattle.std.specs.Prelude.{◌≡◌, IfOk};
ghost use Rattle.vh_journal_text.specs.Items.{items_in, items_of};
ghost use Rattle.vh_legal.specs.Legal.{IsLegalFor};

use crate::laws::legal_reads_back;
use std::alloc::{AllocError, Global};
use vh_journal::{Entry, Journal};
use vh_journal_text::{print, read};
use vh_num::Refusal;
use vh_session::Session;

/// The journal that the text of a legal journal says: the same samples, editors, numbers and commands. Where there is
/// memory it is read; no fault is found.
pub fn read_back(alloc: Global, session: &Session, entries: &[Entry]) -> Result<Journal, AllocError>
    requires { IsLegalFor session.now entries.now }
    ensures { IfOk result (λ journal. items_in journal ≡ items_of entries.now) }
{
    legal_reads_back();
    let text = print(alloc, entries, &session.nodes)?;
    match read(alloc, &text, &session.nodes, session.length) {
        Ok(journal) => Ok(journal),
        Err(Refusal::Memory) => Err(AllocError),
        Err(Refusal::Fault(_)) => unreachable!(),
    }
}

//! Legal journals.

ghost use Rattle.std.specs.Prelude.{◌↔◌, IsTrue, IfOk, length};
ghost use Rattle.vh_session.specs.Names.{content_of};
ghost use Rattle.vh_legal.specs.Legal.{ArePlaced, IsLegalFor};

use crate::blocks::is_at_block;
use crate::script::has_played;
use std::alloc::{AllocError, Global};
use vh_journal::Entry;
use vh_session::Session;

/// Whether the editors of a session can have made a journal with these entries: the samples don't fall, each is one
/// where a block begins, with nothing to stop one, or the length; and the entries of each editor are the edits and
/// messages that its script comes to, each once, in order, numbered from 0.
///
/// It looks at each entry once for each editor, of which there are 8 at most, and at each word once.
pub fn is_legal(alloc: Global, session: &Session, entries: &[Entry]) -> Result<bool, AllocError>
    ensures { IfOk result (λ legal. IsTrue legal ↔ IsLegalFor session.now entries.now) }
{
    if !are_placed(session, entries) {
        return Ok(false);
    }
    for editor in 0..session.scripts.len() {
        let script = session.scripts[editor].as_slice();
        if !has_played(alloc, &session.nodes, script, editor as u32, entries)? {
            return Ok(false);
        }
    }
    Ok(true)
}

/// Whether the samples don't fall and are those of blocks, and each entry is an editor's of the session.
fn are_placed(session: &Session, entries: &[Entry]) -> bool
    ensures { IsTrue result ↔ ArePlaced session.now.length (content_of session.now).pattern (length session.now.scripts.items) entries.now }
{
    let sizes = session.block_sizes();
    let mut least = 0;
    for entry in entries {
        if entry.sample < least
            || entry.editor as usize >= session.scripts.len()
            || !is_at_block(session.length, sizes, entry.sample)
        {
            return false;
        }
        least = entry.sample;
    }
    true
}

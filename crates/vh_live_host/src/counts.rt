//! What became of the editors' words.

ghost use Rattle.std.specs.Prelude.{◌≡◌, ◌≤◌, ◌<◌, ◌^◌, length, IfOk};
ghost use Rattle.vh_params.specs.Nodes.{nodes_of};
ghost use Rattle.vh_session.specs.declared.session.Session.{Session as Played};
ghost use Rattle.vh_legal.specs.Legal.{IsLegalFor, by_editor, scripts_of};
ghost use Rattle.vh_editors.specs.Scripts.{refused_by_each};
ghost use Rattle.vh_live_host.specs.Played.{counts_in};

use std::alloc::{AllocError, Global};
use vh_answers::EditorCounts;
use vh_journal::Entry;

/// How many entries are an editor's.
fn entries_by(editor: u32, entries: &[Entry]) -> u32
    requires { length entries.now < 2 ^ 32 }
    ensures { result ≡ length (by_editor editor entries.now) }
{
    entries
        .iter()
        .filter(|entry| entry.editor == editor)
        .count() as u32
}

/// Of each editor how many of its words stand among these entries, a legal journal, and how many were refused.
pub(crate) fn counts(
    alloc: Global,
    entries: &[Entry],
    refused: &[u32],
) -> Result<Vec<EditorCounts>, AllocError>
    requires entries { length entries.now < 2 ^ 32 }
    requires editors { length refused.now < 2 ^ 32 }
    ensures { IfOk result (λ counts. (session : Played) → IsLegalFor session entries.now → refused.now ≡ refused_by_each (nodes_of session.nodes) (scripts_of session)
        → counts.items ≡ counts_in (nodes_of session.nodes) (record { session = session; journal = entries.now })) }
{
    let mut counts = Vec::new(alloc);
    for (editor, &refused) in refused.iter().enumerate() {
        counts.push(EditorCounts {
            accepted: entries_by(editor as u32, entries),
            refused,
        })?;
    }
    Ok(counts)
}

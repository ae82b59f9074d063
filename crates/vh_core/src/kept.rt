//! What a machine keeps, and what events make of it.

ghost use Rattle.std.specs.Prelude.{◌≡◌, ◌≤◌, ◌<◌, ◌+◌, ◌-◌, ◌^◌, ◌++◌, ◌∷◌, [], length, map, take, drop, OnOk, OnErr, IfOk, vec_len, vec_capacity};
ghost use Rattle.vh_params.specs.Nodes.{nodes_of};
ghost use Rattle.vh_core.specs.Accepting.{sent_by};
ghost use Rattle.std.specs.VecDeque.{deque_len, deque_capacity};
ghost use Rattle.vh_core.specs.Steps.{entry_at};
ghost use Rattle.vh_core.specs.Kept.{HasNothing, IsSameKept};

use crate::accept::sent_by;
use crate::returns::Return;
use crate::sent::Sent;
use std::alloc::{AllocError, Global};
use std::collections::VecDeque;
use vh_journal::Entry;
use vh_params::{NodeTable, Word};

/// A machine's state. What is seen of the parameters is kept beside it.
#[derive(Drop)]
pub(crate) struct Kept {
    pub(crate) puts: Vec<(u32, Word)>,
    pub(crate) inbox: VecDeque<Sent>,
    pub(crate) journal: Vec<Entry>,
    /// How many samples were rendered, and their frames, one behind the other.
    pub(crate) pos: u32,
    pub(crate) frames: Vec<i32>,
    pub(crate) flushed: bool,
    pub(crate) returns: VecDeque<Return>,
    /// What is seen of all parameters, and what their controllers have.
    pub(crate) values: Vec<u32>,
    pub(crate) controllers: Vec<u32>,
}

impl Kept {
    /// Nothing so far, with these first values.
    pub(crate) fn new(alloc: Global, firsts: &[u32]) -> Result<Kept, AllocError>
        ensures values { IfOk result (λ kept. kept.values.items ≡ firsts.now) }
        ensures controllers { IfOk result (λ kept. kept.controllers.items ≡ firsts.now) }
        ensures nothing { IfOk result HasNothing }
    {
        Ok(Kept {
            puts: Vec::new(alloc),
            inbox: VecDeque::new(alloc),
            journal: Vec::new(alloc),
            pos: 0,
            frames: Vec::new(alloc),
            flushed: false,
            returns: VecDeque::new(alloc),
            values: Vec::from_slice(alloc, firsts)?,
            controllers: Vec::from_slice(alloc, firsts)?,
        })
    }

    /// Makes room for so many entries and so many samples more, for a reply to each entry, and for a change of each
    /// parameter; and gives room for what is then seen.
    pub(crate) fn reserve(
        &mut self,
        alloc: Global,
        entries: usize,
        samples: usize,
    ) -> Result<Vec<u32>, AllocError>
        ensures same { IsSameKept self.old self.new }
        ensures entries { OnOk result (vec_len self.new.journal + entries ≤ vec_capacity self.new.journal) }
        ensures samples { OnOk result (vec_len self.new.frames + samples ≤ vec_capacity self.new.frames) }
        ensures returns { OnOk result (deque_len self.new.returns + (vec_len self.new.journal + entries + length self.new.values.items) ≤ deque_capacity self.new.returns) }
        ensures shown { IfOk result (λ shown. shown.items ≡ []) }
        ensures room { IfOk result (λ shown. vec_len self.new.values ≤ vec_capacity shown) }
    {
        self.journal.reserve(entries)?;
        self.frames.reserve(samples)?;
        let most = self.journal.len() + entries + self.values.len();
        self.returns.reserve(most)?;
        Vec::with_capacity(alloc, self.values.len())
    }
}

/// An editor puts a word.
pub(crate) fn put(
    alloc: Global,
    nodes: &NodeTable,
    editor: u32,
    word: Word,
    puts: &mut Vec<(u32, Word)>,
    inbox: &mut VecDeque<Sent>,
) -> Result<(), AllocError>
    requires { length puts.old.items < 2 ^ 32 - 1 }
    ensures puts { OnOk result (puts.new.items ≡ puts.old.items ++ (editor, word) ∷ []) }
    ensures inbox { OnOk result (inbox.new.items ≡ inbox.old.items ++ sent_by (nodes_of nodes.now) puts.old.items editor word) }
    ensures same_puts { OnErr result (puts.new.items ≡ puts.old.items) }
    ensures same_inbox { OnErr result (inbox.new.items ≡ inbox.old.items) }
{
    puts.reserve(1)?;
    inbox.reserve(1)?;
    let sent = sent_by(alloc, nodes, puts, editor, &word)?;
    if let Some(sent) = sent {
        inbox.push_back_reserved(sent);
    }
    puts.push_reserved((editor, word));
    Ok(())
}

/// Takes the oldest of what waits, so many, at a sample.
pub(crate) fn take_in(
    count: usize,
    sample: u32,
    inbox: &mut VecDeque<Sent>,
    journal: &mut Vec<Entry>,
)
    requires { vec_len journal.old + count ≤ vec_capacity journal.old }
    ensures inbox { inbox.new.items ≡ drop count inbox.old.items }
    ensures journal { journal.new.items ≡ journal.old.items ++ map (entry_at sample) (take count inbox.old.items) }
{
    for _ in 0..count {
        let Some(sent) = inbox.pop_front() else {
            return;
        };
        journal.push_reserved(Entry {
            sample,
            editor: sent.editor,
            seq: sent.seq,
            command: sent.command,
        });
    }
}

//! All editors of a session.

ghost use Rattle.std.specs.Prelude.{◌≡◌, ◌≤◌, ◌<◌, ◌++◌, ◌+◌, ℕ, true, false, List, [], length, map, sum, slice_index_or, vec_capacity, All, IfOk};
ghost use Rattle.vh_params.specs.Nodes.{nodes_of};
ghost use Rattle.vh_gesture.specs.Scripts.{accepted, commands, counts_after};
ghost use Rattle.vh_gesture.specs.Tables.{IsOf, counts_in};
ghost use Rattle.vh_gesture.specs.Laws.{AreSame};
ghost use Rattle.vh_journal.specs.declared.entry.Entry.{Entry as Stored};
ghost use Rattle.vh_session.specs.Names.{content_of};
ghost use Rattle.vh_legal.specs.Blocks.{IsAtBlock};
ghost use Rattle.vh_legal.specs.Legal.{IsLegal, script_at, scripts_of};
ghost use Rattle.vh_inbox.specs.Values.{item_of, new_drain, IsUpTo};
ghost use Rattle.vh_editors.specs.Scripts.{quotas_of, refused_by_each};
ghost use Rattle.vh_editors.specs.Gathered.{listed, refused_at, script_in, ArePlaced};
ghost use Rattle.vh_editors.specs.Values.{seated, ShareInbox};

use crate::editor::{Editor, work_all};
use std::alloc::{AllocError, Global};
use std::marker::Model;
use std::sync::Wait;
use std::thread::Threads;
use vh_files::Gate;
use vh_gesture::Gestures;
use vh_inbox::{Desk, Drain, inbox};
use vh_journal::Entry;
use vh_params::{NodeTable, Word};
use vh_session::Session;

/// The editors of a session, each at its desk with its script, and the nodes that their words name.
#[derive(Drop)]
pub struct Editors {
    nodes: NodeTable,
    list: Vec<Editor>,
    edits: usize,
    done: bool,
}

impl Model for Editors {
    ghost use Rattle.vh_editors.specs.Values.{AtEditors};

    ghost Value = { AtEditors };

    ghost use Rattle.vh_editors.specs.Seats.{editors_of, Keeps};

    ghost view = { editors_of };

    ghost invariant = { Keeps };
}

impl Editors {
    /// The editors of a session, seated at desks of an inbox of their own, and the inbox's drain. Each desk may put as
    /// many commands as its script has, and the inbox has room for all.
    pub fn new(alloc: Global, session: &Session) -> Result<(Editors, Drain), AllocError>
        ensures seated { IfOk result (λ made. made.0 ≡ seated made.1.inbox (nodes_of session.now.nodes) (scripts_of session.now) false) }
        ensures drain { IfOk result (λ made. made.1 ≡ new_drain made.1.inbox made.1.capacity (quotas_of (scripts_of session.now))) }
    {
        let scripts = session.scripts.as_slice();
        let quotas = count_each(alloc, scripts)?;
        let edits = total(quotas.as_slice()) as usize;
        let nodes = session.nodes.copy(alloc)?;
        let (desks, drain) = inbox(alloc, edits.max(1), quotas.as_slice(), &nodes)?;
        let list = seat_each(alloc, scripts, desks)?;
        let editors = Editors {
            nodes,
            list,
            edits,
            done: false,
        };
        Ok((editors, drain))
    }

    /// How many commands the scripts have together: no more entries than these may come.
    pub fn edits(&self) -> usize
        ensures { result ≡ sum (quotas_of self.now.scripts) }
    {
        self.edits
    }

    /// How many editors there are.
    pub fn count(&self) -> usize
        ensures { result ≡ length self.now.scripts }
    {
        self.list.len()
    }

    /// Each editor works through its script, in a thread of its own. The gate is asked before each word.
    pub fn work<R: Threads + Wait + Sync, G: Gate + Sync>(&mut self, rt: &R, gate: &G)
        requires { self.old.done ≡ false }
        ensures { self.new ≡ record self.old { done = true } }
    {
        work_all(rt, &self.nodes, gate, self.list.as_mut_slice());
        self.done = true;
    }

    /// What an editor has at the end of its script.
    pub fn gestures(&self, editor: usize) -> &Gestures
        requires there { editor < length self.now.scripts }
        requires done { self.now.done ≡ true }
        ensures nodes { IsOf self.now.nodes result.now }
        ensures counts { AreSame (counts_in result.now) (counts_after (accepted self.now.nodes (script_at self.now.scripts editor))) }
    {
        self.list[editor].desk.gestures()
    }

    /// Once the editors are done, takes what is left in their inbox into the journal, at sample `samples`, the
    /// rendering's length, and tells of each editor how many of its words were refused.
    pub fn gather<R: Wait>(
        self,
        rt: &R,
        mut drain: Drain,
        samples: u32,
        journal: &mut Vec<Entry>,
        refused: &mut Vec<u32>,
    )
        requires done { self.done ≡ true }
        requires inbox { ShareInbox drain.inbox self }
        requires quotas { drain.quotas ≡ quotas_of self.scripts }
        requires lists { drain.lists ≡ [] }
        requires taken { drain.taken ≡ map item_of journal.old.items }
        requires up_to { IsUpTo samples journal.old.items }
        requires room { sum (quotas_of self.scripts) ≤ vec_capacity journal.old }
        requires none { refused.old.items ≡ [] }
        requires places { length self.scripts ≤ vec_capacity refused.old }
        ensures legal { (pattern : List ℕ) → All (λ entry. IsAtBlock samples pattern entry.sample) journal.old.items → IsLegal self.nodes samples pattern self.scripts journal.new.items }
        ensures added { (more : List Stored) × (journal.new.items ≡ journal.old.items ++ more) × All (λ entry. entry.sample ≡ samples) more }
        ensures capacity { vec_capacity journal.new ≡ vec_capacity journal.old }
        ensures refused { refused.new.items ≡ refused_by_each self.nodes self.scripts }
    {
        let Editors { list, .. } = self;
        gather_all(&mut drain, list, refused);
        drain.take_all(rt, samples, journal);
    }
}

/// How many commands a script has.
fn count_commands(script: &[Word]) -> u32
    requires { length script.now ≤ 4096 }
    ensures { result ≡ length (commands script.now) }
{
    let mut count = 0;
    for word in script {
        if let Word::Edit(_) = *word {
            count += 1;
        }
    }
    count
}

/// How many commands each script has.
fn count_each(alloc: Global, scripts: &[Vec<Word>]) -> Result<Vec<u32>, AllocError>
    requires { All (λ script. length script.items ≤ 4096) scripts.now }
    ensures { IfOk result (λ counts. counts.items ≡ quotas_of (map (λ script. script.items) scripts.now)) }
{
    let mut counts = Vec::with_capacity(alloc, scripts.len())?;
    for script in scripts {
        counts.push_reserved(count_commands(script.as_slice()));
    }
    Ok(counts)
}

/// All of them together.
fn total(counts: &[u32]) -> u32
    requires { sum counts.now ≤ 4096 }
    ensures { result ≡ sum counts.now }
{
    counts.iter().sum()
}

/// An editor at each desk, with a copy of its script.
fn seat_each(
    alloc: Global,
    scripts: &[Vec<Word>],
    desks: Vec<Desk>,
) -> Result<Vec<Editor>, AllocError>
    requires few { length scripts.now ≤ 8 }
    requires count { length desks.items ≡ length scripts.now }
    ensures scripts { IfOk result (λ list. map script_in list.items ≡ map (λ script. script.items) scripts.now) }
    ensures places { IfOk result (λ list. ArePlaced desks.items list.items) }
{
    let mut list = Vec::with_capacity(alloc, scripts.len())?;
    for desk in desks {
        let number = list.len();
        let script = Vec::from_slice(alloc, scripts[number].as_slice())?;
        list.push_reserved(Editor {
            number: number as u32,
            desk,
            script,
        });
    }
    Ok(list)
}

/// Gathers all desks, and counts the refused words of each.
fn gather_all(drain: &mut Drain, editors: Vec<Editor>, refused: &mut Vec<u32>)
    requires inbox { All (λ editor. editor.desk.inbox ≡ drain.old.inbox) editors.items }
    requires room { length refused.old.items + length editors.items ≤ vec_capacity refused.old }
    ensures lists { drain.new ≡ record drain.old { lists = drain.old.lists ++ listed editors.items } }
    ensures refused { refused.new.items ≡ refused.old.items ++ map refused_at editors.items }
{
    for editor in editors {
        refused.push_reserved(drain.gather(editor.desk));
    }
}

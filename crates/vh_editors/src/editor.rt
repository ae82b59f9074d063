//! An editor at its desk.

ghost use Rattle.std.specs.Prelude.{◌≡◌, ◌<◌, ℕ, ◌∷◌, [], length, All, slice_index_or};
ghost use Rattle.vh_params.specs.Nodes.{nodes_of};
ghost use Rattle.vh_editors.specs.Editing.{stepped, through, worked, MayRun, MayWork};

use std::sync::Wait;
use std::thread::{self, Threads};
use vh_files::Gate;
use vh_inbox::Desk;
use vh_params::{NodeTable, Word};

/// An editor: its number, its desk, and the words that it works through.
#[derive(Drop)]
pub(crate) struct Editor {
    pub(crate) number: u32,
    pub(crate) desk: Desk,
    pub(crate) script: Vec<Word>,
}

/// The number of a wait, or 0.
fn waited(word: &Word) -> u32 {
    match *word {
        Word::Wait(block) => block,
        _ => 0,
    }
}

/// One word at a desk.
fn perform<R: Wait>(rt: &R, nodes: &NodeTable, desk: &mut Desk, word: &Word)
    requires { MayRun (nodes_of nodes.now) desk.old (word.now ∷ []) }
    ensures { desk.new ≡ stepped (nodes_of nodes.now) desk.old word.now }
{
    if let Word::Wait(_) = *word {
        return;
    }
    match desk.perform(rt, nodes, word) {
        Ok(()) => {}
        Err(_) => {}
    }
}

/// All words of a script at a desk. The gate is asked before each.
#[tactic(auto, using(crate::proofs::Steps::may_first, crate::proofs::Steps::may_next, crate::proofs::Steps::through_next))]
fn edit<R: Wait, G: Gate>(
    rt: &R,
    nodes: &NodeTable,
    gate: &G,
    number: u32,
    desk: &mut Desk,
    script: &[Word],
)
    requires may { MayRun (nodes_of nodes.now) desk.old script.now }
    ensures { desk.new ≡ through (nodes_of nodes.now) desk.old script.now }
{
    let mut blocks = 0;
    for i in 0..script.len() {
        let word = script[i];
        gate.before_word(number, i as u32, blocks);
        perform(rt, nodes, desk, &word);
        blocks = waited(&word);
    }
}

impl Editor {
    /// Works through the script.
    fn work<R: Wait, G: Gate>(&mut self, rt: &R, nodes: &NodeTable, gate: &G)
        requires { MayWork (nodes_of nodes.now) self.old }
        ensures { self.new ≡ worked (nodes_of nodes.now) self.old }
    {
        edit(rt, nodes, gate, self.number, &mut self.desk, &self.script);
    }
}

/// All editors work, each in a thread of its own.
pub(crate) fn work_all<R: Threads + Wait + Sync, G: Gate + Sync>(
    rt: &R,
    nodes: &NodeTable,
    gate: &G,
    editors: &mut [Editor],
)
    requires { All (MayWork (nodes_of nodes.now)) editors.old }
    ensures { (k : ℕ) (d : _) → k < length editors.old → slice_index_or editors.new k d ≡ worked (nodes_of nodes.now) (slice_index_or editors.old k d) }
{
    if editors.is_empty() {
        return;
    }
    let count = editors.len();
    thread::for_each_mut(
        rt,
        editors,
        count,
        &|_, editor| { editor.work(rt, nodes, gate) },
    );
}

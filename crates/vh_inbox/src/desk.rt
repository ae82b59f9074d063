ghost use Rattle.std.specs.Prelude.{◌≡◌, ◌≢◌, ◌↔◌, ◌≤◌, ◌<◌, ◌++◌, ◌∷◌, [], length, drop, sum, slice_index, Err, IsTrue, IfOk, OnOk, IsOk, IfErr};
ghost use Rattle.std.specs.Arc.{arc_value};
ghost use Rattle.crossbeam_queue.specs.Passes.{view, IsPassOf, ruled_capacity};
ghost use Rattle.vh_params.specs.Nodes.{nodes_of};
ghost use Rattle.vh_gesture.specs.Rules.{NamesNode};
ghost use Rattle.vh_gesture.specs.Scripts.{commands};
ghost use Rattle.vh_gesture.specs.Tables.{IsOf, fault_at};
ghost use Rattle.vh_inbox.specs.Lists.{first_number, first_sent};
ghost use Rattle.vh_inbox.specs.Rule.{desk_view};
ghost use Rattle.vh_inbox.specs.Values.{HasRoom, new_desk, performed, IsRefused, WasFull};

use crate::rule::{HandOver, Item, Line, Puts, View};
use crossbeam_queue::Pass;
use std::alloc::{AllocError, Global};
use std::marker::Model;
use std::sync::{Arc, Wait};
use thiserror::Error;
use vh_gesture::{GestureFault, Gestures};
use vh_params::{Command, NodeTable, Word};

/// Why a word isn't performed.
#[derive(Clone, Copy, Debug, PartialEq, Eq, Error)]
pub enum DeskRefused {
    #[error("{0}")]
    Gesture(GestureFault),
    /// The queue held as many commands as it has room for.
    #[error("the inbox is full")]
    Full,
}

/// Where one editor puts its commands: a pass of the queue, and the table of the editor's gestures.
#[derive(Drop)]
pub struct Desk {
    line: Arc<Line>,
    pass: Pass<Item, View>,
    number: u32,
    quota: u32,
    next: u32,
    refused: u32,
    gestures: Gestures,
}

impl Model for Desk {
    ghost use Rattle.vh_inbox.specs.Values.{AtDesk};

    ghost Value = { AtDesk };

    ghost use Rattle.vh_inbox.specs.AtDesks.{desk_of, IsDesk};

    ghost view = { desk_of };

    ghost invariant = { IsDesk };
}

impl Desk {
    /// The desk of the next list that the maker's pass has.
    #[tactic(auto, using(crate::proofs::Views::new_view))]
    pub(crate) fn new(
        alloc: Global,
        line: &Arc<Line>,
        pass: &mut Pass<Item, View>,
        number: u32,
        quota: u32,
        nodes: &NodeTable,
    ) -> Result<Desk, AllocError>
        requires pass { IsPassOf (arc_value line.now) pass.old }
        requires list { (first_number (view pass.old).lists ≡ number) × (first_sent (view pass.old).lists ≡ []) × (0 < length (view pass.old).lists) }
        requires quota { quota ≡ slice_index (view pass.old).quotas number }
        ensures pass { IsPassOf (arc_value line.now) pass.new }
        ensures inbox { pass.new.table_id ≡ pass.old.table_id }
        ensures left { OnOk result (view pass.new ≡ record (view pass.old) { lists = drop 1 (view pass.old).lists }) }
        ensures desk { IfOk result (λ desk. desk ≡ new_desk pass.old.table_id (ruled_capacity (arc_value line.now)) (view pass.old).quotas (nodes_of nodes.now) number) }
    {
        let gestures = Gestures::new(alloc, nodes)?;
        let theirs = Arc::try_clone(line)?;
        let own = line.another::<HandOver>(pass);
        Ok(Desk {
            line: theirs,
            pass: own,
            number,
            quota,
            next: 0,
            refused: 0,
            gestures,
        })
    }

    /// Judges the editor's next word, and counts it where it is accepted. A command then goes to the queue.
    pub fn perform<R: Wait>(
        &mut self,
        rt: &R,
        nodes: &NodeTable,
        word: &Word,
    ) -> Result<(), DeskRefused>
        requires nodes { IsOf (nodes_of nodes.now) self.old.table }
        requires node { NamesNode (nodes_of nodes.now) word.now }
        requires room { HasRoom self.old word.now }
        ensures ok { OnOk result ((fault_at (nodes_of nodes.now) self.old.table word.now ≡ None) × (self.new ≡ performed self.old word.now)) }
        ensures refused { IfErr result (IsRefused (nodes_of nodes.now) self.old word.now self.new) }
        ensures nodes { IsOf (nodes_of nodes.now) self.new.table }
        ensures never_full { sum self.old.quotas ≤ self.old.capacity → result ≢ Err DeskRefused.Full }
    {
        if let Err(fault) = self.gestures.check(nodes, word) {
            self.refused = self.refused.saturating_add(1);
            return Err(DeskRefused::Gesture(fault));
        }
        self.send(rt, word)?;
        self.gestures.apply(word);
        Ok(())
    }

    /// Puts a word's command, if it has one, at the end of the queue.
    fn send<R: Wait>(&mut self, rt: &R, word: &Word) -> Result<(), DeskRefused>
        requires room { HasRoom self.old word.now }
        ensures ok { OnOk result (self.new ≡ record self.old { list = self.old.list ++ commands (word.now ∷ []) }) }
        ensures full { IfErr result (λ why. (why ≡ DeskRefused.Full) × (self.new ≡ self.old) × WasFull self.old) }
        ensures never_full { sum self.old.quotas ≤ self.old.capacity → IsOk result }
    {
        match *word {
            Word::Edit(command) => self.put(rt, command),
            _ => Ok(()),
        }
    }

    /// Puts a command at the end of the queue.
    #[tactic(auto, using(crate::proofs::Views::has_put, crate::proofs::Learned::never_full))]
    fn put<R: Wait>(&mut self, rt: &R, command: Command) -> Result<(), DeskRefused>
        requires room { length self.old.list < slice_index self.old.quotas self.old.number }
        ensures ok { OnOk result (self.new ≡ record self.old { list = self.old.list ++ command ∷ [] }) }
        ensures full { IfErr result (λ why. (why ≡ DeskRefused.Full) × (self.new ≡ self.old) × WasFull self.old) }
        ensures never_full { sum self.old.quotas ≤ self.old.capacity → IsOk result }
    {
        let item = Item {
            editor: self.number,
            seq: self.next,
            command,
        };
        match self.line.push_as::<Puts, R>(rt, &mut self.pass, item) {
            Ok(()) => {
                self.next += 1;
                Ok(())
            }
            Err(_) => Err(DeskRefused::Full),
        }
    }

    /// Whether the desk put fewer commands than its quota.
    pub fn has_room(&self) -> bool
        ensures { IsTrue result ↔ (length self.now.list < slice_index self.now.quotas self.now.number) }
    {
        self.next < self.quota
    }

    /// How many words were refused by the rules on gestures, at most 2^32 - 1.
    pub fn refused(&self) -> u32
        ensures { result ≡ self.now.refused }
    {
        self.refused
    }

    /// The pass, and how many words were refused.
    pub(crate) fn into_parts(self) -> (Pass<Item, View>, u32)
        ensures inbox { result.0.table_id ≡ self.inbox }
        ensures nothing_out { result.0.me.1 ≡ [] }
        ensures knows { view result.0 ≡ desk_view self.quotas self.number self.list }
        ensures refused { result.1 ≡ self.refused }
    {
        let Desk { pass, refused, .. } = self;
        (pass, refused)
    }

    /// The table of the editor's gestures.
    pub fn gestures(&self) -> &Gestures
        ensures { result.now ≡ self.now.table }
    {
        &self.gestures
    }
}

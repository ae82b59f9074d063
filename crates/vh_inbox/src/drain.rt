ghost use Rattle.std.specs.Prelude.{◌≡◌, true, ◌<◌, ◌≤◌, ◌++◌, ◌∷◌, [], List, length, map, All, vec_capacity, IfSome, IfNone};
ghost use Rattle.std.specs.List.{AllByRecursion};
ghost use Rattle.std.specs.Arc.{arc_value};
ghost use Rattle.crossbeam_queue.specs.Passes.{view, IsPassOf, ruled_capacity};
ghost use Rattle.vh_inbox.specs.Lists.{desk_list};
ghost use Rattle.vh_inbox.specs.Facts.{AreOfDesks, sent_in};
ghost use Rattle.vh_inbox.specs.Values.{item_of, entry_at, IsUpTo, HasAll, Begins, Are};

use crate::desk::Desk;
use crate::rule::{Item, Line, TakeIn, Takes, View};
use crossbeam_queue::Pass;
use std::marker::Model;
use std::sync::{Arc, Wait};
use vh_journal::Entry;

/// Where the desks' commands are taken, by one thread.
#[derive(Drop)]
pub struct Drain {
    line: Arc<Line>,
    pass: Pass<Item, View>,
}

impl Model for Drain {
    ghost use Rattle.vh_inbox.specs.Values.{AtDrain};

    ghost Value = { AtDrain };

    ghost use Rattle.vh_inbox.specs.AtDrains.{drain_of, IsDrain};

    ghost view = { drain_of };

    ghost invariant = { IsDrain };
}

impl Drain {
    /// The drain of the maker's pass.
    pub(crate) fn new(line: Arc<Line>, pass: Pass<Item, View>) -> Drain
        requires pass { IsPassOf (arc_value line) pass }
        requires drains { (view pass).drains ≡ true }
        ensures { result ≡ record { inbox = pass.table_id; capacity = ruled_capacity (arc_value line); quotas = (view pass).quotas; taken = (view pass).taken; lists = (view pass).lists } }
    {
        Drain { line, pass }
    }

    /// Moves commands into the journal, oldest first, at a sample, until the queue was found empty or the
    /// journal's spare room is used. It takes no memory.
    #[tactic(auto, using(crate::proofs::Learned::are_begins, crate::proofs::Learned::entries_of_desks))]
    pub fn take_all<R: Wait>(&mut self, rt: &R, at: u32, journal: &mut Vec<Entry>)
        requires journal { map item_of journal.old.items ≡ self.old.taken }
        requires at { IsUpTo at journal.old.items }
        ensures taken { self.new ≡ record self.old { taken = map item_of journal.new.items } }
        ensures journal { (taken : List _) × (journal.new.items ≡ journal.old.items ++ map (entry_at at) taken) }
        ensures at { IsUpTo at journal.new.items }
        ensures capacity { vec_capacity journal.new ≡ vec_capacity journal.old }
        ensures editors { All (λ entry. entry.editor < length self.old.quotas) journal.new.items }
        ensures begins { AllByRecursion (Begins (map item_of journal.new.items)) self.old.lists }
        ensures all { HasAll self.old → sent_in self.old.lists ≤ vec_capacity journal.old → AllByRecursion (Are (map item_of journal.new.items)) self.old.lists }
    {
        for _ in 0..journal.capacity() - journal.len() {
            match self.next(rt) {
                Some(item) => journal.push_reserved(item.taken_at(at)),
                None => return,
            }
        }
        self.look();
    }

    /// Takes a desk's list in, once its editor is done. Answers how many of the editor's words were refused.
    pub fn gather(&mut self, desk: Desk) -> u32
        requires { desk.inbox ≡ self.old.inbox }
        ensures lists { self.new ≡ record self.old { lists = self.old.lists ++ desk_list desk.number desk.list ∷ [] } }
        ensures refused { result ≡ desk.refused }
    {
        let (pass, refused) = desk.into_parts();
        self.line.absorb::<TakeIn>(&mut self.pass, pass);
        refused
    }

    /// The oldest item, which is taken.
    #[tactic(auto, using(crate::proofs::Learned::all_at_empty))]
    fn next<R: Wait>(&mut self, rt: &R) -> Option<Item>
        ensures taken { IfSome result (λ taken. self.new ≡ record self.old { taken = self.old.taken ++ taken ∷ [] }) }
        ensures empty { IfNone result ((self.new ≡ self.old) × AllByRecursion (Are self.old.taken) self.old.lists × AreOfDesks (length self.old.quotas) self.old.taken) }
    {
        self.line.pop_as::<Takes, R>(rt, &mut self.pass)
    }

    /// What was taken so far of the lists that came back.
    #[tactic(auto, using(crate::proofs::Learned::begins_lists, crate::proofs::Learned::all_where_enough))]
    fn look(&mut self)
        ensures same { self.new ≡ self.old }
        ensures begins { AllByRecursion (Begins self.old.taken) self.old.lists }
        ensures editors { AreOfDesks (length self.old.quotas) self.old.taken }
        ensures all { HasAll self.old → sent_in self.old.lists ≤ length self.old.taken → AllByRecursion (Are self.old.taken) self.old.lists }
    {
        self.line.learn_as::<Takes>(&mut self.pass);
    }
}

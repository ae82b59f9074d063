//! The rule of the queue between desks and drain, and the steps that keep it.

ghost use Rattle.std.specs.Prelude.{◌≡◌};
ghost use Rattle.vh_inbox.specs.Values.{entry_at};

use crossbeam_queue::RuledArrayQueue;
use crossbeam_queue::protocol::{Join, Lesson, Outcome, Protocol, Split};
use std::collections::LinkedList;
use std::marker::PhantomData;
use vh_journal::Entry;
use vh_params::Command;

/// A command on its way to the drain: the number of the desk that put it, and its place among the desk's
/// commands, from 0.
#[derive(Clone, Copy, Debug, PartialEq, Eq)]
pub struct Item {
    pub editor: u32,
    pub seq: u32,
    pub command: Command,
}

impl Item {
    /// The entry of a command that is taken at this sample.
    pub(crate) fn taken_at(self, sample: u32) -> Entry
        ensures { result ≡ entry_at sample self }
    {
        Entry {
            sample,
            editor: self.editor,
            seq: self.seq,
            command: self.command,
        }
    }
}

/// What a desk put, oldest first. No value of it is made.
pub struct DeskList {
    pub number: u32,
    pub sent: LinkedList<Command>,
}

/// What a pass knows: the quotas of all desks, whether it is the drain's, what it took, and the lists that it
/// answers for. No value of it is made.
pub struct View {
    pub quotas: LinkedList<u32>,
    pub drains: bool,
    pub taken: LinkedList<Item>,
    pub lists: LinkedList<DeskList>,
}

/// Each desk's commands arrive once and in their order.
pub struct InOrder;

/// The queue from the desks to the drain.
pub type Line = RuledArrayQueue<Item, View, InOrder>;

impl Protocol<Item, View> for InOrder {
    ghost use Rattle.std.specs.Prelude.{[]};
    ghost use Rattle.vh_inbox.specs.Rule.{drain_view, Kept};

    ghost holds = { Kept };

    ghost first = { drain_view [] [] [] };
}

/// The quotas of all desks, which a call picks.
pub trait Quotas {
    ghost use Rattle.std.specs.Prelude.{ℕ, List};

    ghost quotas: { List ℕ };
}

/// The first step: the quotas are told.
pub struct Opening<Q> {
    of: PhantomData<Q>,
}

impl<Q: Quotas> Split<View> for Opening<Q> {
    ghost use Rattle.std.specs.Prelude.{[], length};
    ghost use Rattle.vh_inbox.specs.Lists.{empty_lists};
    ghost use Rattle.vh_inbox.specs.Rule.{drain_view, spent};

    ghost left = { λ v. drain_view Q.quotas [] (empty_lists 0 (length Q.quotas)) };

    ghost right = { λ v. spent };
}

/// The first list goes to a pass of its own.
pub struct HandOver;

impl Split<View> for HandOver {
    ghost use Rattle.std.specs.Prelude.{false, [], take, drop};
    ghost use Rattle.vh_inbox.specs.Rule.{pass_view};

    ghost left = { λ v. pass_view v.quotas v.drains v.taken (drop 1 v.lists) };

    ghost right = { λ v. pass_view v.quotas false [] (take 1 v.lists) };
}

/// The lists of a pass come back.
pub struct TakeIn;

impl Join<View> for TakeIn {
    ghost use Rattle.std.specs.Prelude.{◌++◌};
    ghost use Rattle.vh_inbox.specs.Rule.{pass_view, spent};

    ghost both = { λ v w. pass_view v.quotas v.drains v.taken (v.lists ++ w.lists) };

    ghost spent = { spent };
}

/// A desk puts a command.
pub struct Puts;

impl Outcome<Item, View> for Puts {
    ghost use Rattle.std.specs.Prelude.{◌≡◌};
    ghost use Rattle.vh_inbox.specs.Lists.{put_first};
    ghost use Rattle.vh_inbox.specs.Rule.{pass_view};

    ghost then = { λ v x w. w ≡ pass_view v.quotas v.drains v.taken (put_first x.command v.lists) };
}

impl Lesson<Item, View> for Puts {
    ghost use Rattle.vh_inbox.specs.Facts.{IsWithinQuotas};

    ghost fact = { IsWithinQuotas };
}

/// The drain takes an item.
pub struct Takes;

impl Outcome<Item, View> for Takes {
    ghost use Rattle.std.specs.Prelude.{◌≡◌, ◌++◌, ◌∷◌, []};
    ghost use Rattle.vh_inbox.specs.Rule.{pass_view};

    ghost then = { λ v x w. w ≡ pass_view v.quotas v.drains (v.taken ++ x ∷ []) v.lists };
}

impl Lesson<Item, View> for Takes {
    ghost use Rattle.vh_inbox.specs.Facts.{HasLists};

    ghost fact = { HasLists };
}

ghost use Rattle.std.specs.Prelude.{◌≡◌, ℕ, ◌≤◌, ◌<◌, ◌^◌, List, All, length, map, slice_index_or};
ghost use Rattle.vh_params.specs.Nodes.{Node, nodes_of};
ghost use Rattle.vh_params.specs.declared.command.Word.TheVariants.{Edit};
ghost use Rattle.vh_gesture.specs.Rules.{NamesNode};
ghost use Rattle.vh_gesture.specs.Tables.{IsOf};
ghost use Rattle.vh_inbox.specs.Values.{item_of, IsUpTo};
ghost use Rattle.inbox_tests.specs.Desks.{IsDeskOf};

use std::alloc::{AllocError, Global};
use std::sync::Wait;
use std::thread;
use std::thread::{Threads, join_mut};
use vh_inbox::{Desk, DeskRefused, Drain, inbox};
use vh_journal::Entry;
use vh_params::{Command, NodeTable, Word};

/// How often an editor tries a command at a full inbox, and the drain looks for the next ones.
const TURNS: u32 = 1 << 22;

/// The command at a place among those of an editor: gestures of three on parameter 1 of node 0.
pub fn command_at(seq: u32) -> Command
    ensures { (nodes : List Node) → 0 < length nodes → NamesNode nodes (Edit result) }
{
    match seq % 3 {
        0 => Command::Begin { node: 0, id: 1 },
        1 => Command::Perform {
            node: 0,
            id: 1,
            value: seq & 0xff_ffff,
        },
        _ => Command::End { node: 0, id: 1 },
    }
}

/// Puts a command, and waits for room as long as there are turns. Answers whether it was put.
fn put<R: Wait>(rt: &R, nodes: &NodeTable, desk: &mut Desk, command: Command) -> bool
    requires nodes { IsOf (nodes_of nodes.now) desk.old.table }
    requires node { NamesNode (nodes_of nodes.now) (Edit command) }
    ensures { IsDeskOf desk.old.inbox (nodes_of nodes.now) desk.new }
{
    for _ in 0..TURNS {
        if !desk.has_room() {
            return false;
        }
        match desk.perform(rt, nodes, &Word::Edit(command)) {
            Ok(()) => return true,
            Err(DeskRefused::Full) => thread::yield_now(),
            Err(DeskRefused::Gesture(_)) => return false,
        }
    }
    false
}

/// Puts an editor's first commands.
fn edit<R: Wait>(rt: &R, nodes: &NodeTable, desk: &mut Desk, count: u32)
    requires nodes { 0 < length (nodes_of nodes.now) }
    requires desk { IsOf (nodes_of nodes.now) desk.old.table }
    ensures { IsDeskOf desk.old.inbox (nodes_of nodes.now) desk.new }
{
    for seq in 0..count {
        if !put(rt, nodes, desk, command_at(seq)) {
            return;
        }
    }
}

/// Takes what comes, as long as there are turns and the journal has room.
fn take<R: Wait>(rt: &R, drain: &mut Drain, journal: &mut Vec<Entry>)
    requires journal { map item_of journal.old.items ≡ drain.old.taken }
    requires at { IsUpTo 0 journal.old.items }
    ensures drain { drain.new ≡ record drain.old { taken = map item_of journal.new.items } }
    ensures at { IsUpTo 0 journal.new.items }
{
    for _ in 0..TURNS {
        let before = journal.len();
        if before == journal.capacity() {
            return;
        }
        drain.take_all(rt, 0, journal);
        if journal.len() == before {
            thread::yield_now();
        }
    }
}

/// Runs the editors, each in a thread of its own.
fn edit_all<R: Threads + Wait + Sync>(rt: &R, nodes: &NodeTable, desks: &mut [Desk], count: u32)
    requires nodes { 0 < length (nodes_of nodes.now) }
    requires desks { All (λ desk. IsOf (nodes_of nodes.now) desk.table) desks.old }
    ensures { (k : ℕ) (d : _) → k < length desks.old → IsDeskOf (slice_index_or desks.old k d).inbox (nodes_of nodes.now) (slice_index_or desks.new k d) }
{
    if desks.is_empty() {
        return;
    }
    let threads = desks.len();
    thread::for_each_mut(
        rt,
        desks,
        threads,
        &|_, desk| { edit(rt, nodes, desk, count) },
    );
}

/// Runs the editors beside the drain.
fn beside<R: Threads + Wait + Sync>(
    rt: &R,
    nodes: &NodeTable,
    desks: &mut [Desk],
    count: u32,
    drain: &mut Drain,
    journal: &mut Vec<Entry>,
)
    requires nodes { 0 < length (nodes_of nodes.now) }
    requires desks { All (λ desk. IsOf (nodes_of nodes.now) desk.table) desks.old }
    requires journal { map item_of journal.old.items ≡ drain.old.taken }
    requires at { IsUpTo 0 journal.old.items }
    ensures desks { (k : ℕ) (d : _) → k < length desks.old → IsDeskOf (slice_index_or desks.old k d).inbox (nodes_of nodes.now) (slice_index_or desks.new k d) }
    ensures drain { drain.new ≡ record drain.old { taken = map item_of journal.new.items } }
    ensures at { IsUpTo 0 journal.new.items }
{
    join_mut(
        rt,
        &mut ||
            requires { (0 < length (nodes_of nodes.now)) × All (λ desk. IsOf (nodes_of nodes.now) desk.table) desks.now }
        { edit_all(rt, nodes, desks, count) },
        &mut || take(rt, drain, journal),
    );
}

/// Gathers all desks. Answers how many words were refused.
fn gather_all(drain: &mut Drain, mut desks: Vec<Desk>) -> u32
    requires { All (λ desk. desk.inbox ≡ drain.old.inbox) desks.items }
    ensures { drain.new ≡ record drain.old { lists = drain.new.lists } }
{
    let mut refused = 0u32;
    while let Some(desk) = desks.pop() {
        refused = refused.saturating_add(drain.gather(desk));
    }
    refused
}

/// An inbox of so many editors, each of which puts its first commands while the drain takes them: the entries in
/// the order in which they were taken, and how many words were refused.
#[tactic(auto, using(crate::proofs::Quotas::sum_fits, crate::proofs::Quotas::is_fresh))]
pub fn pass_through<R: Threads + Wait + Sync>(
    rt: &R,
    alloc: Global,
    nodes: &NodeTable,
    capacity: usize,
    editors: usize,
    count: u32,
) -> Result<(Vec<Entry>, u32), AllocError>
    requires nodes { 0 < length (nodes_of nodes.now) }
    requires capacity { (0 < capacity) × (capacity ≤ 4096) }
    requires editors { editors ≤ 8 }
    requires count { count < 2 ^ 28 }
{
    let quotas = Vec::from_elem(alloc, count, editors)?;
    let (mut desks, mut drain) = inbox(alloc, capacity, quotas.as_slice(), nodes)?;
    let mut journal = Vec::with_capacity(alloc, editors.saturating_mul(count as usize))?;
    beside(
        rt,
        nodes,
        desks.as_mut_slice(),
        count,
        &mut drain,
        &mut journal,
    );
    let refused = gather_all(&mut drain, desks);
    drain.take_all(rt, 0, &mut journal);
    Ok((journal, refused))
}

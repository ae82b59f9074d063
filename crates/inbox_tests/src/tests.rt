ghost use Rattle.std.specs.Prelude.{◌≡◌, ◌≤◌, ◌<◌, ◌+◌, ◌^◌, [], IsTrue, IfOk, length};
ghost use Rattle.vh_params.specs.Nodes.{nodes_of};
ghost use Rattle.vh_gesture.specs.Rules.{NamesNode};
ghost use Rattle.vh_gesture.specs.Tables.{IsOf};
ghost use Rattle.inbox_tests.specs.Desks.{IsDeskOf};

use super::{command_at, one_node, pass_through};
use std::alloc::Global;
use std::process::Abort;
use std::sync::Wait;
use std::test::Fail;
use vh_gesture::GestureFault;
use vh_inbox::{Desk, DeskRefused, Drain, inbox};
use vh_journal::Entry;
use vh_params::Command::{Begin, End, Perform};
use vh_params::{Command, NodeTable, Word};

const BEGIN: Word = Word::Edit(Begin { node: 0, id: 1 });

const END: Word = Word::Edit(End { node: 0, id: 1 });

/// An inbox of two desks.
#[tactic(auto, using(crate::proofs::Quotas::is_fresh))]
fn two_desks(
    rt: &impl Abort,
    alloc: Global,
    capacity: usize,
    quotas: [u32; 2],
    nodes: &NodeTable,
) -> Result<(Desk, Desk, Drain), Fail>
    requires capacity { (0 < capacity) × (capacity ≤ 4096) }
    ensures first { IfOk result (λ made. IsDeskOf made.2.inbox (nodes_of nodes.now) made.0) }
    ensures second { IfOk result (λ made. IsDeskOf made.2.inbox (nodes_of nodes.now) made.1) }
    ensures taken { IfOk result (λ made. made.2.taken ≡ []) }
{
    assert!(rt; quotas[0] < 100 && quotas[1] < 100);
    let (mut desks, drain) = inbox(alloc, capacity, &quotas, nodes)?;
    let second = desks.pop().expect(rt, "there is a second desk");
    let first = desks.pop().expect(rt, "there is a first desk");
    Ok((first, second, drain))
}

/// Performs a word of node 0 at a desk that has room.
#[tactic(auto, using(crate::proofs::Rooms::has_room))]
fn perform<R: Abort + Wait>(
    rt: &R,
    nodes: &NodeTable,
    desk: &mut Desk,
    word: Word,
) -> Result<(), DeskRefused>
    requires { IsOf (nodes_of nodes.now) desk.old.table }
    ensures { IsDeskOf desk.old.inbox (nodes_of nodes.now) desk.new }
{
    assert!(rt; desk.has_room() && is_there(nodes, &word));
    desk.perform(rt, nodes, &word)
}

/// Performs words of node 0, each of which is accepted.
fn accept<R: Abort + Wait>(rt: &R, nodes: &NodeTable, desk: &mut Desk, words: &[Word])
    requires { IsOf (nodes_of nodes.now) desk.old.table }
    ensures { IsDeskOf desk.old.inbox (nodes_of nodes.now) desk.new }
{
    for word in words {
        assert_eq!(rt; perform(rt, nodes, desk, *word), Ok(()));
    }
}

fn is_there(nodes: &NodeTable, word: &Word) -> bool
    ensures { IsTrue result → NamesNode (nodes_of nodes.now) word.now }
{
    match *word {
        Word::Edit(command) => match command {
            Begin { node, .. } => node < nodes.len(),
            Perform { node, .. } => node < nodes.len(),
            End { node, .. } => node < nodes.len(),
            Command::Tell { node, .. } => node < nodes.len(),
        },
        Word::Hold(node) => node < nodes.len(),
        Word::Unhold(node) => node < nodes.len(),
        Word::Wait(_) => true,
    }
}

#[test]
fn full_inbox_leaves_the_table(rt: HostRuntime) -> Result<(), Fail> {
    let nodes = one_node(rt.alloc()).expect(&rt, "there is memory");
    let (mut desk, _second, mut drain) = two_desks(&rt, rt.alloc(), 1, [2, 0], &nodes)?;
    let mut journal: Vec<Entry> = Vec::with_capacity(rt.alloc(), 2)?;
    // holds, drops and waits need no room
    let words = [Word::Hold(0), Word::Unhold(0), Word::Wait(3), BEGIN];
    accept(&rt, &nodes, &mut desk, &words);
    assert_eq!(rt;
        perform(&rt, &nodes, &mut desk, END),
        Err(DeskRefused::Full)
    );
    // the gesture is open still
    assert_eq!(rt;
        perform(&rt, &nodes, &mut desk, BEGIN),
        Err(DeskRefused::Gesture(GestureFault::AlreadyOpen))
    );
    drain.take_all(&rt, 0, &mut journal);
    accept(&rt, &nodes, &mut desk, &[END]);
    assert_eq!(rt; drain.gather(desk), 1);
    Ok(())
}

#[test]
#[tactic(auto, using(crate::proofs::Rooms::up_to_later))]
fn entries_come_oldest_first(rt: HostRuntime) -> Result<(), Fail> {
    let nodes = one_node(rt.alloc()).expect(&rt, "there is memory");
    let (mut first, mut second, mut drain) = two_desks(&rt, rt.alloc(), 8, [1, 2], &nodes)?;
    let mut journal: Vec<Entry> = Vec::with_capacity(rt.alloc(), 3)?;
    accept(&rt, &nodes, &mut second, &[BEGIN]);
    accept(&rt, &nodes, &mut first, &[BEGIN]);
    drain.take_all(&rt, 3, &mut journal);
    accept(&rt, &nodes, &mut second, &[END]);
    drain.take_all(&rt, 9, &mut journal);
    let want = [(3, 1, 0, BEGIN), (3, 0, 0, BEGIN), (9, 1, 1, END)];
    assert_eq!(rt; journal.len(), want.len());
    for (entry, wanted) in journal.iter().zip(&want) {
        let word = Word::Edit(entry.command);
        assert_eq!(rt; (entry.sample, entry.editor, entry.seq, word), *wanted);
    }
    Ok(())
}

/// The entries of each editor are its first commands, each once and in order.
fn assert_each_in_order(rt: &impl Abort, journal: &[Entry], editors: u32, count: u32) {
    for editor in 0..editors {
        let mut seq = 0;
        for entry in journal {
            if entry.editor == editor {
                assert!(rt; seq < count);
                assert_eq!(rt; (entry.seq, entry.command), (seq, command_at(seq)));
                seq += 1;
            }
        }
        assert_eq!(rt; seq, count);
    }
}

#[test]
fn each_desk_is_taken_in_order(rt: HostRuntime) -> Result<(), Fail> {
    let nodes = one_node(rt.alloc()).expect(&rt, "there is memory");
    for (editors, count, capacity) in [(1, 3000, 16), (2, 2000, 1), (8, 999, 64), (8, 30, 4096)] {
        let (journal, refused) = pass_through(&rt, rt.alloc(), &nodes, capacity, editors, count)?;
        assert_eq!(rt; refused, 0);
        assert_eq!(rt; journal.len(), editors * count as usize);
        assert_each_in_order(&rt, &journal, editors as u32, count);
    }
    Ok(())
}

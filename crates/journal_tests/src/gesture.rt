ghost use Rattle.std.specs.Prelude.{IsTrue};
ghost use Rattle.vh_params.specs.Nodes.{nodes_of};
ghost use Rattle.vh_gesture.specs.Rules.{NamesNode};
ghost use Rattle.vh_gesture.specs.Tables.{IsOf};

use crate::nodes::nodes;
use std::process::Abort;
use std::test::Fail;
use vh_gesture::GestureFault::{
    AlreadyOpen, NoReference, NotOpen, OutOfRange, ReadOnly, TooManyHolds, UnknownParam,
};
use vh_gesture::{GestureFault, Gestures};
use vh_params::Command::{Begin, End, Perform, Tell};
use vh_params::{NodeTable, Word};

fn is_there(nodes: &NodeTable, word: &Word) -> bool
    ensures { IsTrue result → NamesNode (nodes_of nodes.now) word.now }
{
    match *word {
        Word::Edit(command) => match command {
            Begin { node, .. } => node < nodes.len(),
            Perform { node, .. } => node < nodes.len(),
            End { node, .. } => node < nodes.len(),
            Tell { node, .. } => node < nodes.len(),
        },
        Word::Hold(node) => node < nodes.len(),
        Word::Unhold(node) => node < nodes.len(),
        Word::Wait(_) => true,
    }
}

/// Judges a word, and counts it where it is accepted.
fn fault_of(
    rt: &impl Abort,
    nodes: &NodeTable,
    gestures: &mut Gestures,
    word: Word,
) -> Option<GestureFault>
    requires { IsOf (nodes_of nodes.now) gestures.old }
    ensures { IsOf (nodes_of nodes.now) gestures.new }
{
    assert!(rt; is_there(nodes, &word));
    match gestures.check(nodes, &word) {
        Err(fault) => Some(fault),
        Ok(()) => {
            gestures.apply(&word);
            None
        }
    }
}

const fn begin(node: u32, id: u32) -> Word {
    Word::Edit(Begin { node, id })
}

const fn perform(id: u32, value: u32) -> Word {
    Word::Edit(Perform { node: 0, id, value })
}

const fn end(id: u32) -> Word {
    Word::Edit(End { node: 0, id })
}

#[test]
fn faults_in_their_order(rt: HostRuntime) -> Result<(), Fail> {
    let nodes = nodes(&rt, rt.alloc())?;
    let mut gestures = Gestures::new(rt.alloc(), &nodes)?;
    let high = 16_777_217;
    let rows = [
        (perform(1, high), Some(UnknownParam)),
        (perform(9, high), Some(ReadOnly)),
        (perform(0, high), Some(OutOfRange(high))),
        (perform(0, 0), Some(NotOpen)),
        (begin(0, 0), None),
        (begin(0, 0), Some(AlreadyOpen)),
        (perform(0, high - 1), None),
        (end(7), Some(NotOpen)),
        (Word::Unhold(0), None),
        // the gesture stays open, and no word but a wait is heard
        (end(0), Some(NoReference)),
        (perform(1, high), Some(NoReference)),
        (Word::Hold(0), Some(NoReference)),
        (Word::Wait(0), None),
        (begin(1, 0), None),
    ];
    for (word, fault) in rows {
        assert_eq!(rt;
            fault_of(&rt, &nodes, &mut gestures, word),
            fault,
            "{word:?}"
        );
    }
    Ok(())
}

#[test]
fn holds_and_references_are_counted(rt: HostRuntime) -> Result<(), Fail> {
    let nodes = nodes(&rt, rt.alloc())?;
    let mut gestures = Gestures::new(rt.alloc(), &nodes)?;
    for _ in 0..64 {
        assert_eq!(rt; fault_of(&rt, &nodes, &mut gestures, Word::Hold(1)), None);
    }
    let fault = fault_of(&rt, &nodes, &mut gestures, Word::Hold(1));
    assert_eq!(rt; fault, Some(TooManyHolds));
    assert!(rt; nodes.len() == 2);
    assert_eq!(rt; (gestures.holds(1), gestures.held(1)), (64, 65));
    assert_eq!(rt; (gestures.holds(0), gestures.held(0)), (0, 1));
    Ok(())
}

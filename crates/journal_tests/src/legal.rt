ghost use Rattle.std.specs.Prelude.{◌≡◌, ◌≤◌, IsTrue, All, length, take};
ghost use Rattle.vh_params.specs.Nodes.{nodes_of};
ghost use Rattle.vh_legal.specs.Values.{AreFirsts, IsWithinOne, param_count};

use crate::nodes::class;
use std::alloc::Global;
use std::process::Abort;
use std::test::Fail;
use vh_journal::Entry;
use vh_legal::{is_legal, value};
use vh_num::ONE;
use vh_params::Command::{Begin, End, Perform, Tell};
use vh_params::{Classes, Command, NodeTable, Words};
use vh_session::{Session, read};

/// A session of 200 frames, with two nodes and these further lines.
fn session(alloc: Global, pattern: &str, lines: &str) -> Result<Session, Fail> {
    let mut list = Vec::new(alloc);
    list.push(class(alloc)?)?;
    let classes = Classes::new(alloc, list)?;
    let text = format!(in alloc;
        "vsthost session 1\nlength 200\nchannels 1\nbits 16\npattern {pattern}\nnode a gain\nnode b gain\n{lines}"
    )?;
    Ok(read(alloc, text.as_bytes(), &classes)?)
}

const fn entry(sample: u32, editor: u32, seq: u32, command: Command) -> Entry {
    Entry {
        sample,
        editor,
        seq,
        command,
    }
}

const fn perform(value: u32) -> Command {
    Perform {
        node: 0,
        id: 0,
        value,
    }
}

/// Whether each parameter of each node has a value.
fn are_firsts(nodes: &NodeTable, firsts: &[u32]) -> bool
    ensures { IsTrue result → AreFirsts (nodes_of nodes.now) firsts.now }
{
    for first in firsts {
        if *first > ONE {
            return false;
        }
    }
    firsts.len() == params_before(nodes, nodes.len())
}

/// How many parameters the nodes before this one have together.
fn params_before(nodes: &NodeTable, node: u32) -> usize
    requires { node ≤ length (nodes_of nodes.now) }
    ensures { result ≡ param_count (take node (nodes_of nodes.now)) }
{
    let mut count = 0;
    for before in 0..node {
        count += nodes.table(before).params().len();
    }
    count
}

/// Whether a perform is of 1.0 at most.
fn is_within(command: Command) -> bool
    ensures { IsTrue result → IsWithinOne command }
{
    match command {
        Perform { value, .. } => value <= ONE,
        _ => true,
    }
}

/// Whether each perform is.
fn are_within(entries: &[Entry]) -> bool
    ensures { IsTrue result → All (λ entry. IsWithinOne entry.command) entries.now }
{
    for entry in entries {
        if !is_within(entry.command) {
            return false;
        }
    }
    true
}

/// The value of parameter 0 of a node, where all first values are 0.
fn value_at(rt: &impl Abort, session: &Session, entries: &[Entry], node: u32, sample: u32) -> u32 {
    let firsts = [0; 6];
    assert!(rt;
        are_firsts(&session.nodes, &firsts)
            && are_within(entries)
            && session.nodes.info(node, 0).is_some()
    );
    value(session, &firsts, entries, node, 0, sample)
}

#[test]
fn gestures_overlap_and_hold_lanes_still(rt: HostRuntime) -> Result<(), Fail> {
    let lanes = "lane a 0 0 0 4194304\nlane b 0 16 0 0\npoint 100 16777216";
    let session = session(rt.alloc(), "64", lanes)?;
    let entries = [
        entry(10, 0, 0, Begin { node: 0, id: 0 }),
        entry(20, 1, 0, Begin { node: 0, id: 0 }),
        entry(25, 2, 0, Begin { node: 1, id: 0 }),
        entry(30, 0, 1, perform(8_388_608)),
        entry(50, 2, 1, End { node: 1, id: 0 }),
        entry(64, 0, 2, End { node: 0, id: 0 }),
        entry(128, 1, 1, End { node: 0, id: 0 }),
    ];
    let rows = [
        (0, 29, 4_194_304),
        (0, 30, 8_388_608),
        (0, 127, 8_388_608),
        (0, 128, 4_194_304),
        (1, 24, 3_997_696),
        (1, 49, 4_194_304),
        (1, 50, 8_388_608),
    ];
    for (node, sample, wanted) in rows {
        let found = value_at(&rt, &session, &entries, node, sample);
        assert_eq!(rt; found, wanted, "at {sample}");
    }
    Ok(())
}

#[test]
fn blocks_begin_where_sizes_take_turns(rt: HostRuntime) -> Result<(), Fail> {
    let alloc = rt.alloc();
    let session = session(alloc, "37 64", "editor 0\ntell a 7")?;
    let tell = Tell {
        node: 0,
        words: Words::new(&[7]),
    };
    for (sample, wanted) in [
        (37, true),
        (64, false),
        (138, true),
        (200, true),
        (202, false),
    ] {
        let legal = is_legal(alloc, &session, &[entry(sample, 0, 0, tell)])?;
        assert_eq!(rt; legal, wanted, "at {sample}");
    }
    Ok(())
}

#[test]
fn a_journal_is_legal_or_wrong_in_one_way(rt: HostRuntime) -> Result<(), Fail> {
    let alloc = rt.alloc();
    let script =
        "editor 0\nbegin a 0\nbegin a 0\nperform a 0 16777217\nhold a\nend a 0\neditor 1\nwait 2\ntell a 7";
    let session = session(alloc, "64", script)?;
    let tell = Tell {
        node: 0,
        words: Words::new(&[7]),
    };
    let first = entry(0, 0, 0, Begin { node: 0, id: 0 });
    let second = entry(64, 1, 0, tell);
    let end = End { node: 0, id: 0 };
    let last = entry(192, 0, 1, end);
    assert!(rt; is_legal(alloc, &session, &[first, second, last])?);
    assert!(rt; !is_legal(alloc, &session, &[first, second])?);
    let wrong = [
        ("twice", [first, entry(64, 0, 1, end), last]),
        ("another editor's", [first, entry(64, 2, 0, tell), last]),
        ("a sample falls", [first, second, entry(0, 0, 1, end)]),
        ("a number jumps", [first, second, entry(192, 0, 2, end)]),
    ];
    for (name, entries) in wrong {
        assert!(rt; !is_legal(alloc, &session, &entries)?, "{name}");
    }
    Ok(())
}

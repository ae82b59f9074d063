//! Runs by content, and beside the engine.

use crate::drawn::fault_of;
use crate::play::{Ran, run};
use std::alloc::Global;
use std::test::Fail;
use vh_core::Event;
use vh_core::Event::{Audio, Back, Flush, Put};
use vh_journal::Entry;
use vh_params::{Command, Word, Words};

/// One gain of 64 frames.
const GAIN: &str =
    "vsthost session 1\nlength 64\nchannels 1\nbits 16\npattern 64\nnode a gain\nwire in a\nwire a out\n";

/// One tap of 64 frames.
const TAP: &str =
    "vsthost session 1\nlength 64\nchannels 1\nbits 16\npattern 64\nnode t tap\nwire in t\nwire t out\n";

/// A node of each class. A block begins at each sample, so edits may stand at any.
pub(crate) const ALL: &str =
    "vsthost session 1\nlength 100\nchannels 2\nbits 24\npattern 1\nnode a gain\nnode b balance\nnode c delay\nnode d onepole\nnode e crusher\nnode f gate\nnode g meter\nnode h tap\nparam a 0 4194304\nparam c 0 40970\nparam e 0 9000000\nwire in a\nwire a b\nwire b c\nwire c d\nwire d e\nwire e f\nwire a f aux\nwire f g\nwire g h\nwire h out\nlane a 0 3 5 100000\npoint 60 16000000\npoint 90 500000\nlane d 0 0 0 0\npoint 100 16777216\n";

/// An editor's gesture on a parameter of a node begins.
pub(crate) fn begin(editor: u32, node: u32) -> Event {
    edit(editor, Command::Begin { node, id: 0 })
}

/// The parameter takes a value.
pub(crate) fn perform(editor: u32, node: u32, value: u32) -> Event {
    edit(editor, Command::Perform { node, id: 0, value })
}

/// The gesture ends.
pub(crate) fn end(editor: u32, node: u32) -> Event {
    edit(editor, Command::End { node, id: 0 })
}

/// A message of one word.
pub(crate) fn tell(editor: u32, node: u32, word: u32) -> Event {
    let words = Words::new(&[word]);
    edit(editor, Command::Tell { node, words })
}

fn edit(editor: u32, command: Command) -> Event {
    Put {
        editor,
        word: Word::Edit(command),
    }
}

/// So much of what waits is taken, and so many frames are played.
pub(crate) fn audio(take: u32, frames: u32) -> Event {
    Audio { take, frames }
}

/// So much of what comes back reaches the controllers.
pub(crate) fn back(take: u32) -> Event {
    Back { take }
}

fn entry(sample: u32, editor: u32, seq: u32, command: Command) -> Entry {
    Entry {
        sample,
        editor,
        seq,
        command,
    }
}

/// Runs a session that is one.
fn come(alloc: Global, text: &str, events: &[Event]) -> Result<Ran, Fail> {
    Ok(run(alloc, text, events)?.ok_or("no session")?)
}

#[test]
fn edits_are_taken_at_the_sample_that_comes_next(rt: HostRuntime) -> Result<(), Fail> {
    let events = [begin(0, 0), audio(1, 64), end(0, 0), Flush];
    let ran = come(rt.alloc(), GAIN, &events)?;
    let begins = entry(0, 0, 0, Command::Begin { node: 0, id: 0 });
    let ends = entry(64, 0, 1, Command::End { node: 0, id: 0 });
    assert_eq!(rt; ran.journal.as_slice(), [begins, ends].as_slice());
    Ok(())
}

#[test]
fn numbers_beyond_what_is_there_mean_all(rt: HostRuntime) -> Result<(), Fail> {
    let events = [
        begin(0, 0),
        audio(9, 32),
        back(9),
        audio(0, 99),
        Flush,
        Flush,
    ];
    let ran = come(rt.alloc(), GAIN, &events)?;
    let begins = entry(0, 0, 0, Command::Begin { node: 0, id: 0 });
    assert_eq!(rt; ran.journal.as_slice(), [begins].as_slice());
    assert_eq!(rt; ran.pos, 64);
    assert_eq!(rt; ran.frames.as_slice(), [0i32; 64].as_slice());
    Ok(())
}

#[test]
fn words_of_editors_are_judged_and_numbered_apart(rt: HostRuntime) -> Result<(), Fail> {
    let events = [
        perform(0, 0, 5),
        begin(0, 0),
        begin(1, 0),
        Put {
            editor: 0,
            word: Word::Hold(0),
        },
        audio(1, 10),
        perform(1, 0, 7),
        end(2, 0),
        audio(1, 54),
        perform(0, 0, 9),
        Flush,
    ];
    let ran = come(rt.alloc(), GAIN, &events)?;
    let perform = |value: u32| Command::Perform {
        node: 0,
        id: 0,
        value,
    };
    let begin = Command::Begin { node: 0, id: 0 };
    let journal = [
        entry(0, 0, 0, begin),
        entry(10, 1, 0, begin),
        entry(64, 1, 1, perform(7)),
        entry(64, 0, 1, perform(9)),
    ];
    assert_eq!(rt; ran.puts, 7);
    assert_eq!(rt; ran.journal.as_slice(), journal.as_slice());
    assert_eq!(rt; ran.values.as_slice(), [9u32, 0].as_slice());
    Ok(())
}

/// Runs a tap whose parameter was performed, and then this message was put; so many come back.
fn told(alloc: Global, message: Event, count: u32) -> Result<Ran, Fail> {
    let events = [
        begin(0, 0),
        perform(0, 0, 777),
        message,
        audio(9, 64),
        back(count),
    ];
    come(alloc, TAP, &events)
}

#[test]
fn replies_and_echoes_come_back_in_their_order(rt: HostRuntime) -> Result<(), Fail> {
    let alloc = rt.alloc();
    let replied = told(alloc, tell(0, 0, 2), 1)?;
    assert_eq!(rt; replied.values.as_slice(), [777u32].as_slice());
    assert_eq!(rt; replied.controllers.as_slice(), [0u32].as_slice());
    let echoed = told(alloc, tell(0, 0, 2), 2)?;
    assert_eq!(rt; echoed.controllers.as_slice(), [777u32].as_slice());
    let refused = told(alloc, tell(0, 9, 2), 1)?;
    assert_eq!(rt; refused.controllers.as_slice(), [777u32].as_slice());
    Ok(())
}

/// Whether an engine that plays the journal to which these events come has the machine's frames and values.
fn is_as_played(alloc: Global, events: &[Event]) -> Result<bool, Fail> {
    let ran = come(alloc, ALL, events)?;
    let heard = engine_part::play(alloc, ALL, &[0; 200], 64, &ran.journal)?.ok_or("no rendering")?;
    Ok(!ran.journal.is_empty() && ran.is_heard(&heard))
}

#[test]
fn a_machine_comes_to_what_an_engine_plays(rt: HostRuntime) -> Result<(), Fail> {
    let gesture = [
        begin(0, 0),
        perform(0, 0, 1_000_000),
        audio(1, 20),
        audio(9, 40),
        end(0, 0),
        audio(9, 100),
        Flush,
        back(99),
    ];
    let messages = [
        tell(0, 6, 1),
        begin(1, 3),
        audio(1, 50),
        perform(1, 3, 8_000_000),
        tell(0, 7, 0),
        audio(2, 7),
        audio(9, 100),
        Flush,
        back(99),
    ];
    let alloc = rt.alloc();
    assert!(rt; is_as_played(alloc, &gesture)?);
    assert!(rt; is_as_played(alloc, &messages)?);
    Ok(())
}

#[test]
fn drawn_journals_are_played_alike(rt: HostRuntime) -> Result<(), Fail> {
    for seed in 0..40 {
        assert_eq!(rt; fault_of(rt.alloc(), seed)?, "", "at {seed}");
    }
    Ok(())
}

//! Sessions with drawn scripts, the events by which a machine comes to drawn journals of theirs, and what an engine makes
//! of these.

use crate::play::{Ran, run};
use crate::random::Random;
use crate::tests::ALL;
use std::alloc::{AllocError, Global};
use std::test::Fail;
use vh_builtin::BuiltIn;
use vh_core::Event::{self, Audio, Back, Flush, Put};
use vh_journal::Entry;
use vh_legal::is_legal;
use vh_num::ONE;
use vh_params::Word;
use vh_plugin::PluginSet;
use vh_session::{Session, read};

/// The parameters of the session with a node of each class, by their nodes. The meter's are only read, and no edit of
/// theirs is accepted.
const PARAMS: [(&str, u32); 15] = [
    ("a", 0),
    ("a", 1),
    ("b", 0),
    ("c", 0),
    ("c", 1),
    ("c", 2),
    ("d", 0),
    ("e", 0),
    ("e", 1),
    ("f", 0),
    ("f", 1),
    ("f", 2),
    ("g", 0),
    ("g", 1),
    ("h", 0),
];

/// Adds two gestures that overlap, with a message between. Now and then both are on one parameter, or a value is above
/// the most, and a word is refused.
fn add_gestures(alloc: Global, random: &mut Random, text: &mut String) -> Result<(), AllocError> {
    let (node, id) = PARAMS[random.below(15) as usize];
    let (other, beside) = PARAMS[random.below(15) as usize];
    let value = random.below(ONE + ONE / 8);
    let next = random.below(ONE + 1);
    let word = random.below(4);
    let lines = format!(in alloc;
        "begin {node} {id}\nperform {node} {id} {value}\nbegin {other} {beside}\ntell {node} {word}\nperform {other} {beside} {next}\nperform {node} {id} {next}\nend {node} {id}\ntell {other}\nend {other} {beside}\n"
    )?;
    text.push_str(lines.as_str())
}

/// The session with a node of each class, and three editors with drawn scripts.
fn drawn_session(alloc: Global, random: &mut Random) -> Result<String, AllocError> {
    let mut text = String::from_str(alloc, ALL)?;
    for editor in 0..3u32 {
        text.push_str(format!(in alloc; "editor {editor}\n")?.as_str())?;
        for _ in 0..random.below(4) {
            add_gestures(alloc, random, &mut text)?;
        }
    }
    Ok(text)
}

/// An editor that is drawn puts its next word, where it has one.
fn put_next(
    random: &mut Random,
    scripts: &[Vec<Word>],
    places: &mut [usize; 3],
    events: &mut Vec<Event>,
) -> Result<(), AllocError> {
    let editor = random.below(3);
    let place = &mut places[editor as usize];
    if let Some(script) = scripts.get(editor as usize)
        && let Some(word) = script.get(*place)
    {
        *place = place.saturating_add(1);
        let word = *word;
        events.push(Put { editor, word })?;
    }
    Ok(())
}

/// Puts what an editor has left.
fn put_rest(
    editor: u32,
    script: &[Word],
    place: usize,
    events: &mut Vec<Event>,
) -> Result<(), AllocError> {
    if let Some(rest) = script.get(place..) {
        for word in rest {
            let word = *word;
            events.push(Put { editor, word })?;
        }
    }
    Ok(())
}

/// Events of editors, audio and controllers in a drawn order, in which each editor's words are put.
fn drawn_events(
    alloc: Global,
    random: &mut Random,
    scripts: &[Vec<Word>],
) -> Result<Vec<Event>, AllocError> {
    let mut events = Vec::new(alloc);
    let mut places = [0; 3];
    for _ in 0..random.below(100) {
        let (take, frames) = (random.below(6), random.below(9));
        match random.below(4) {
            0 => events.push(Audio { take, frames })?,
            1 => events.push(Back { take })?,
            _ => put_next(random, scripts, &mut places, &mut events)?,
        }
    }
    for editor in 0..3u32 {
        if let Some(script) = scripts.get(editor as usize) {
            put_rest(editor, script, places[editor as usize], &mut events)?;
        }
    }
    add_end(random.below(30), &mut events)?;
    Ok(events)
}

/// All further frames, behind so many of what waits, and then the end.
fn add_end(take: u32, events: &mut Vec<Event>) -> Result<(), AllocError> {
    let frames = u32::MAX;
    events.push(Audio { take, frames })?;
    events.push(Flush)?;
    events.push(Back { take: u32::MAX })?;
    Ok(())
}

/// Puts the commands of a sample's entries.
fn put_at(journal: &[Entry], sample: u32, events: &mut Vec<Event>) -> Result<(), AllocError> {
    for entry in journal {
        if entry.sample == sample {
            let (editor, word) = (entry.editor, Word::Edit(entry.command));
            events.push(Put { editor, word })?;
        }
    }
    Ok(())
}

/// The events of a journal: each entry is put right before its sample, and taken at once.
fn events_of(alloc: Global, length: u32, journal: &[Entry]) -> Result<Vec<Event>, AllocError> {
    let mut events = Vec::new(alloc);
    for sample in 0..length {
        put_at(journal, sample, &mut events)?;
        let (take, frames) = (u32::MAX, 1);
        events.push(Audio { take, frames })?;
    }
    put_at(journal, length, &mut events)?;
    events.push(Flush)?;
    events.push(Back { take: u32::MAX })?;
    Ok(events)
}

/// A session of drawn scripts, and what a machine comes to by drawn events.
fn draw(alloc: Global, text: &str, random: &mut Random) -> Result<(Session, Ran), Fail> {
    let set = BuiltIn::new(alloc)?;
    let session = read(alloc, text.as_bytes(), set.classes())?;
    let events = drawn_events(alloc, random, &session.scripts)?;
    let ran = run(alloc, text, &events)?.ok_or("no session")?;
    Ok((session, ran))
}

/// Draws a session and events. Answers why the machine's journal isn't legal, or the machine over the journal's events, or
/// an engine that plays the journal, comes to anything else.
pub(crate) fn fault_of(alloc: Global, seed: u32) -> Result<&'static str, Fail> {
    let mut random = Random::new(seed);
    let text = drawn_session(alloc, &mut random)?;
    let (session, ran) = draw(alloc, text.as_str(), &mut random)?;
    if !is_legal(alloc, &session, &ran.journal)? {
        return Ok("no legal journal");
    }
    let events = events_of(alloc, session.length, &ran.journal)?;
    let again = run(alloc, text.as_str(), &events)?.ok_or("no session")?;
    if !ran.is_like(&again) {
        return Ok("another machine");
    }
    let size = 1 + random.below(64);
    let heard = engine_part::play(alloc, text.as_str(), &[0; 200], size, &ran.journal)?;
    let heard = heard.ok_or("no rendering")?;
    if !ran.is_heard(&heard) {
        return Ok("another engine");
    }
    Ok("")
}

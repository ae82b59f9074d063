//! The journal.

ghost use Rattle.std.specs.Prelude.{◌≡◌, ◌<◌, ◌≤◌, ◌^◌, [], ◌∷◌, ◌++◌, IfOk, OnOk, length};
ghost use Rattle.vh_params.specs.declared.command.Command.TheVariants.{Tell};
ghost use Rattle.vh_gen.specs.Gestures.{entry, one_zero, edit_of, gesture_from, behind_gesture, entries_of, gestures_end};

use crate::draws::Draws;
use std::alloc::{AllocError, Global};
use vh_journal::Entry;
use vh_params::{Command, Words};

/// How often something is done, and how many frames lie between.
const GESTURES: u32 = 170;

const FRAMES_BETWEEN: u32 = 384;

/// The place of the meter's class.
const METER: u32 = 6;

/// An entry of the first editor.
fn entry(gesture: u32, seq: usize, command: Command) -> Entry
    requires gesture { gesture < 170 }
    requires seq { seq < 2 ^ 32 }
    ensures { result ≡ entry gesture seq command }
{
    Entry {
        sample: FRAMES_BETWEEN * gesture,
        editor: 0,
        seq: seq as u32,
        command,
    }
}

/// The message of one word, 0.
fn one_zero() -> Words
    ensures { result ≡ one_zero }
{
    Words {
        list: [0, 0, 0, 0],
        len: 1,
    }
}

/// A meter is told 0.
fn tell(entries: &mut Vec<Entry>, gesture: u32, node: u32) -> Result<(), AllocError>
    requires gesture { gesture < 170 }
    requires few { length entries.old.items < 1024 }
    ensures { OnOk result (entries.new.items ≡ entries.old.items ++ entry gesture (length entries.old.items) (Tell node one_zero) ∷ []) }
{
    let words = one_zero();
    let told = entry(gesture, entries.len(), Command::Tell { node, words });
    entries.push(told)?;
    Ok(())
}

/// A node's first parameter gets a value.
fn edit(entries: &mut Vec<Entry>, gesture: u32, node: u32, value: u32) -> Result<(), AllocError>
    requires gesture { gesture < 170 }
    requires few { length entries.old.items < 1024 }
    ensures { OnOk result (entries.new.items ≡ entries.old.items ++ edit_of gesture (length entries.old.items) node value) }
{
    let id = 0;
    let begin = Command::Begin { node, id };
    let perform = Command::Perform { node, id, value };
    let end = Command::End { node, id };
    let seq = entries.len();
    entries.extend_from_slice(&[
        entry(gesture, seq, begin),
        entry(gesture, seq + 1, perform),
        entry(gesture, seq + 2, end),
    ])
}

/// What is done next, where the nodes have these classes.
fn draw_gesture(
    draws: &mut Draws,
    kinds: &[u32],
    gesture: u32,
    entries: &mut Vec<Entry>,
) -> Result<(), AllocError>
    requires some { 1 ≤ length kinds.now }
    requires few_kinds { length kinds.now ≤ 64 }
    requires gesture { gesture < 170 }
    requires few { length entries.old.items < 1024 }
    ensures entries { OnOk result (entries.new.items ≡ entries.old.items ++ gesture_from kinds.now draws.old.state gesture (length entries.old.items)) }
    ensures state { draws.new.state ≡ behind_gesture kinds.now draws.old.state }
{
    let node = draws.below(kinds.len() as u32);
    if kinds[node as usize] == METER {
        tell(entries, gesture, node)
    } else {
        let value = draws.value();
        edit(entries, gesture, node, value)
    }
}

/// The journal over nodes of these classes.
pub(crate) fn draw_gestures(
    alloc: Global,
    draws: &mut Draws,
    kinds: &[u32],
) -> Result<Vec<Entry>, AllocError>
    requires some { 1 ≤ length kinds.now }
    requires few { length kinds.now ≤ 64 }
    ensures entries { IfOk result (λ entries. entries.items ≡ entries_of kinds.now draws.old.state) }
    ensures state { OnOk result (draws.new.state ≡ gestures_end kinds.now draws.old.state) }
{
    let mut entries = Vec::new(alloc);
    for gesture in 0..GESTURES {
        draw_gesture(draws, kinds, gesture, &mut entries)?;
    }
    Ok(entries)
}

//! Entries at a block's first sample: edits are taken, and messages are given.

ghost use Rattle.std.specs.Prelude.{◌≡◌, ◌≤◌, ◌+◌, ◌^◌, ℕ, [], ◌∷◌, length, map, take, All, vec_len, vec_capacity};
ghost use Rattle.vh_component.specs.States.{of_processing};
ghost use Rattle.vh_counted.specs.Held.{value_of_opened, object_of_opened, numbers_of_opened};
ghost use Rattle.vh_meaning.specs.Scene.{Scene};
ghost use Rattle.vh_meaning.specs.Steps.{applied, applied_one};
ghost use Rattle.vh_meaning.specs.Rendering.{stops};
ghost use Rattle.vh_params.specs.Short.{words_in};
ghost use Rattle.vh_engine.specs.Between.{IsWithinOne, AreWithinOne};
ghost use Rattle.vh_engine.specs.Controls.{IsControl};
ghost use Rattle.vh_engine.specs.Nodes.{AreOf, sent_of};
ghost use Rattle.vh_engine.specs.Staged.{of_all, holders_of, boards_of, answer_of, standing_of, AreSame, AreBoards};
ghost use Rattle.vh_engine.specs.Told.{values_now_of, AreTaken, HaveTaken, IsOnNode, AreReady, IsStage};

use crate::control::Control;
use vh_component::Processing;
use vh_journal::Entry;
use vh_lane::Lane;
use vh_params::{Command, Reply, Words};
use vh_plugin::Processor;

/// Puts the values of a node's parameters at a sample into the first places of a list.
fn put_values(controls: &[Control], lanes: &[(u32, u32, Lane)], sample: u32, given: &mut [u32])
    requires controls { All (IsControl (length lanes.now) 0) controls.now }
    requires room { length controls.now ≤ length given.old }
    ensures values { take (length controls.now) given.new ≡ values_now_of lanes.now controls.now sample }
    ensures within { All (λ value. value ≤ 2 ^ 24) (take (length controls.now) given.new) }
{
    for (place, control) in controls.iter().enumerate() {
        given[place] = control.value_at(lanes, sample);
    }
}

/// The parameters of a node take an entry.
fn take_all(controls: &mut [Control], lanes: &[(u32, u32, Lane)], node: u32, entry: &Entry)
    requires controls { All (IsControl (length lanes.now) 1) controls.old }
    requires value { IsWithinOne entry.now.command }
    ensures taken { AreTaken lanes.now node (entry.now ∷ []) controls.old controls.new }
    ensures within { All (λ control. control.held ≤ 2 ^ 24) controls.new }
{
    for control in controls {
        control.take(lanes, node, entry);
    }
}

/// Gives a message to a node, with its values at a sample.
fn tell<P: Processor + Drop>(
    processor: &mut Processing<P>,
    controls: &[Control],
    lanes: &[(u32, u32, Lane)],
    sample: u32,
    words: &Words,
    given: &mut [u32],
) -> Words
    requires controls { All (IsControl (length lanes.now) 0) controls.now }
    requires params { AreOf (P.class_of (P.code (value_of_opened (of_processing processor.old)))).params controls.now }
    requires room { length controls.now ≤ length given.old }
    ensures reply { words_in result ≡ (P.class_of (P.code (value_of_opened (of_processing processor.old)))).reply (P.state (value_of_opened (of_processing processor.old))) (values_now_of lanes.now controls.now sample) (words_in words.now) }
    ensures state { P.state (value_of_opened (of_processing processor.new)) ≡ (P.class_of (P.code (value_of_opened (of_processing processor.old)))).told (P.state (value_of_opened (of_processing processor.old))) (values_now_of lanes.now controls.now sample) (words_in words.now) }
    ensures values { P.values (value_of_opened (of_processing processor.new)) ≡ P.values (value_of_opened (of_processing processor.old)) }
    ensures calls { P.calls (value_of_opened (of_processing processor.new)) ≡ P.calls (value_of_opened (of_processing processor.old)) }
    ensures code { P.code (value_of_opened (of_processing processor.new)) ≡ P.code (value_of_opened (of_processing processor.old)) }
    ensures phase { P.phase (value_of_opened (of_processing processor.new)) ≡ P.phase (value_of_opened (of_processing processor.old)) }
    ensures setup { P.last_setup (value_of_opened (of_processing processor.new)) ≡ P.last_setup (value_of_opened (of_processing processor.old)) }
    ensures object { object_of_opened (of_processing processor.new) ≡ object_of_opened (of_processing processor.old) }
    ensures numbers { numbers_of_opened (of_processing processor.new) ≡ numbers_of_opened (of_processing processor.old) }
    ensures given { length given.new ≡ length given.old }
{
    put_values(controls, lanes, sample, given);
    processor
        .value_mut()
        .notify(&given[..controls.len()], words)
}

/// Applies an entry at a sample.
fn apply<P: Processor + Drop>(
    entry: &Entry,
    sample: u32,
    lanes: &[(u32, u32, Lane)],
    processors: &mut [Processing<P>],
    boards: &mut [Vec<Control>],
    given: &mut [u32],
    replies: &mut Vec<Reply>,
)
    requires node { IsOnNode (length processors.old) entry.now.command }
    requires value { IsWithinOne entry.now.command }
    requires ready { AreReady P.class_of (of_all P.code processors.old) (length lanes.now) 1 (length given.old) (boards_of boards.old) }
    requires room { vec_len replies.old + length (stops (entry.now ∷ [])) ≤ vec_capacity replies.old }
    ensures applied { (scene : Scene) → IsStage P.class_of (of_all P.code processors.old) scene lanes.now (boards_of boards.old)
        → AreSame scene (applied_one scene sample entry.now (standing_of (of_all P.state processors.old) (boards_of boards.old) (map answer_of replies.old.items)))
        (standing_of (of_all P.state processors.new) (boards_of boards.new) (map answer_of replies.new.items)) }
    ensures taken { HaveTaken lanes.now (entry.now ∷ []) (boards_of boards.old) (boards_of boards.new) }
    ensures ready { (room : ℕ) → AreReady P.class_of (of_all P.code processors.old) (length lanes.now) (1 + room) (length given.old) (boards_of boards.old)
        → AreReady P.class_of (of_all P.code processors.new) (length lanes.now) room (length given.new) (boards_of boards.new) }
    ensures codes { of_all P.code processors.new ≡ of_all P.code processors.old }
    ensures values { of_all P.values processors.new ≡ of_all P.values processors.old }
    ensures calls { of_all P.calls processors.new ≡ of_all P.calls processors.old }
    ensures phases { of_all P.phase processors.new ≡ of_all P.phase processors.old }
    ensures setups { of_all P.last_setup processors.new ≡ of_all P.last_setup processors.old }
    ensures holders { holders_of processors.new ≡ holders_of processors.old }
    ensures given { length given.new ≡ length given.old }
    ensures replies { vec_len replies.new ≡ vec_len replies.old + length (stops (entry.now ∷ [])) }
    ensures capacity { vec_capacity replies.new ≡ vec_capacity replies.old }
{
    match entry.command {
        Command::Tell { node, words } => {
            let words = tell(
                &mut processors[node as usize],
                &boards[node as usize],
                lanes,
                sample,
                &words,
                given,
            );
            let reply = Reply {
                node,
                sample,
                words,
            };
            replies.push_reserved(reply);
        }
        Command::Begin { node, .. } | Command::Perform { node, .. } | Command::End { node, .. } => {
            take_all(&mut boards[node as usize], lanes, node, entry);
        }
    }
}

/// Applies entries at a sample, one by one.
pub(crate) fn apply_all<P: Processor + Drop>(
    entries: &[Entry],
    sample: u32,
    lanes: &[(u32, u32, Lane)],
    processors: &mut [Processing<P>],
    boards: &mut [Vec<Control>],
    given: &mut [u32],
    replies: &mut Vec<Reply>,
)
    requires nodes { All (λ entry. IsOnNode (length processors.old) entry.command) entries.now }
    requires values { AreWithinOne entries.now }
    requires ready { AreReady P.class_of (of_all P.code processors.old) (length lanes.now) (length entries.now) (length given.old) (boards_of boards.old) }
    requires room { vec_len replies.old + length (stops entries.now) ≤ vec_capacity replies.old }
    ensures applied { (scene : Scene) → IsStage P.class_of (of_all P.code processors.old) scene lanes.now (boards_of boards.old)
        → AreSame scene (applied scene sample entries.now (standing_of (of_all P.state processors.old) (boards_of boards.old) (map answer_of replies.old.items)))
        (standing_of (of_all P.state processors.new) (boards_of boards.new) (map answer_of replies.new.items)) }
    ensures taken { HaveTaken lanes.now entries.now (boards_of boards.old) (boards_of boards.new) }
    ensures stage { (scene : Scene) → IsStage P.class_of (of_all P.code processors.old) scene lanes.now (boards_of boards.old) → IsStage P.class_of (of_all P.code processors.new) scene lanes.now (boards_of boards.new) }
    ensures ready { (room : ℕ) → AreReady P.class_of (of_all P.code processors.old) (length lanes.now) (length entries.now + room) (length given.old) (boards_of boards.old)
        → AreReady P.class_of (of_all P.code processors.new) (length lanes.now) room (length given.new) (boards_of boards.new) }
    ensures sent { map sent_of (boards_of boards.new) ≡ map sent_of (boards_of boards.old) }
    ensures codes { of_all P.code processors.new ≡ of_all P.code processors.old }
    ensures values { of_all P.values processors.new ≡ of_all P.values processors.old }
    ensures calls { of_all P.calls processors.new ≡ of_all P.calls processors.old }
    ensures phases { of_all P.phase processors.new ≡ of_all P.phase processors.old }
    ensures setups { of_all P.last_setup processors.new ≡ of_all P.last_setup processors.old }
    ensures holders { holders_of processors.new ≡ holders_of processors.old }
    ensures given { length given.new ≡ length given.old }
    ensures replies { vec_len replies.new ≡ vec_len replies.old + length (stops entries.now) }
    ensures capacity { vec_capacity replies.new ≡ vec_capacity replies.old }
{
    for entry in entries {
        apply(entry, sample, lanes, processors, boards, given, replies);
    }
}

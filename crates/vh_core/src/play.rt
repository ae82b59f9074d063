//! Playing a session, sample by sample.
//!
//! A call of `laws` does nothing: the proof uses what it ensures.

ghost use Rattle.std.specs.Prelude.{◌≡◌, ◌≢◌, ◌≤◌, ◌<◌, ◌+◌, ◌*◌, ◌^◌, ◌++◌, ◌==◌, ℕ, List, [], ◌∷◌, length, map, slice_index_or, count_by, nat_le, All, vec_len, vec_capacity};
ghost use Rattle.std.specs.List.{range_with_len, flat_map};
ghost use Rattle.std.specs.VecDeque.{deque_len, deque_capacity};
ghost use Rattle.vh_num.specs.Frames.{Frame};
ghost use Rattle.vh_params.specs.Nodes.{nodes_of, node_at};
ghost use Rattle.vh_plugin.specs.Class.{Class, State, param_of};
ghost use Rattle.vh_session.specs.Names.{content_of};
ghost use Rattle.vh_session.specs.declared.wire.End.TheVariants.{Node as AtNode};
ghost use Rattle.vh_meaning.specs.Mix.{main_mix, aux_mix};
ghost use Rattle.vh_meaning.specs.Frames.{stepped};
ghost use Rattle.vh_meaning.specs.Trace.{IsConsistent};
ghost use Rattle.vh_meaning.specs.Values.{values_at};
ghost use Rattle.vh_meaning.specs.World.{silence, told_at, told_by, told, world};
ghost use Rattle.vh_meaning.specs.Rendering.{answer_of, answers_by, out_at};
ghost use Rattle.vh_params.specs.Short.{words_in};
ghost use Rattle.vh_meaning.specs.Scene.{scene_of};
ghost use Rattle.vh_legal.specs.Laws.{AreClassesOf};
ghost use Rattle.vh_core.specs.State.{scene_in, Reply as Answered};
ghost use Rattle.vh_core.specs.Steps.{replies_at};
ghost use Rattle.vh_core.specs.Playing.{IsPlayer, ArePlayers, AreAlike, HaveStates, setting_by, IsPlayable, ArePlayable, has_aux};
ghost use Rattle.vh_core.specs.Stage.{IsPlan, IsRoom, AreWithin, frames_in, values_in};
ghost use Rattle.vh_core.specs.Kept.{return_of};

use crate::mix::{aux_of, mix};
use crate::returns::Return;
use crate::stage::{Plan, Room};
use crate::values::value_node;
use std::collections::VecDeque;
use vh_journal::Entry;
use vh_params::{Command, Reply, Words};
use vh_plugin::Processor;
use vh_session::{End, Session};

/// Gives a message to its node, with the values behind the entries before it. The reply is on its way back.
fn tell_node<P: Processor + Drop>(
    session: &Session,
    plan: &Plan,
    processors: &mut [P],
    room: &mut Room,
    before: &[Entry],
    sample: u32,
    node: u32,
    words: &Words,
    returns: &mut VecDeque<Return>,
)
    requires node { node < length (nodes_of session.now.nodes) }
    requires plan { IsPlan (content_of session.now) plan.now }
    requires players { ArePlayers P.class_of P.code P.phase P.last_setup (content_of session.now) processors.old }
    requires room { IsRoom (content_of session.now) room.old }
    requires before { ArePlayable (length (nodes_of session.now.nodes)) before.now }
    requires returns { deque_len returns.old < deque_capacity returns.old }
    ensures states { (states : ℕ → State) → HaveStates P.state processors.old states
        → HaveStates P.state processors.new (told_at (scene_in (setting_by P.class_of P.code (content_of session.now) plan.now.firsts.items processors.old)) (values_at (scene_in (setting_by P.class_of P.code (content_of session.now) plan.now.firsts.items processors.old)) before.now sample) node (words_in words.now) states) }
    ensures reply { (states : ℕ → State) → HaveStates P.state processors.old states
        → map return_of returns.new.items ≡ map return_of returns.old.items ++ Answered (answer_of (scene_in (setting_by P.class_of P.code (content_of session.now) plan.now.firsts.items processors.old)) states (values_at (scene_in (setting_by P.class_of P.code (content_of session.now) plan.now.firsts.items processors.old)) before.now sample) sample node (words_in words.now)) ∷ [] }
    ensures alike { AreAlike P.code P.phase P.last_setup processors.old processors.new }
    ensures room { IsRoom (content_of session.now) room.new }
    ensures left { deque_len returns.new ≡ deque_len returns.old + 1 }
    ensures capacity { deque_capacity returns.new ≡ deque_capacity returns.old }
{
    value_node(session, plan, room, before, node, sample);
    let words = processors[node as usize].notify(&room.values[node as usize], words);
    returns.push_back_reserved(Return::Reply(Reply {
        node,
        sample,
        words,
    }));
}

/// Gives a command to its node, where it is a message.
fn give<P: Processor + Drop>(
    session: &Session,
    plan: &Plan,
    processors: &mut [P],
    room: &mut Room,
    before: &[Entry],
    sample: u32,
    command: &Command,
    returns: &mut VecDeque<Return>,
)
    requires command { IsPlayable (length (nodes_of session.now.nodes)) command.now }
    requires plan { IsPlan (content_of session.now) plan.now }
    requires players { ArePlayers P.class_of P.code P.phase P.last_setup (content_of session.now) processors.old }
    requires room { IsRoom (content_of session.now) room.old }
    requires before { ArePlayable (length (nodes_of session.now.nodes)) before.now }
    requires returns { deque_len returns.old < deque_capacity returns.old }
    ensures states { (states : ℕ → State) → HaveStates P.state processors.old states
        → HaveStates P.state processors.new (told_by (scene_in (setting_by P.class_of P.code (content_of session.now) plan.now.firsts.items processors.old)) (values_at (scene_in (setting_by P.class_of P.code (content_of session.now) plan.now.firsts.items processors.old)) before.now sample) command.now states) }
    ensures replies { (states : ℕ → State) → HaveStates P.state processors.old states
        → map return_of returns.new.items ≡ map return_of returns.old.items ++ map Answered (answers_by (scene_in (setting_by P.class_of P.code (content_of session.now) plan.now.firsts.items processors.old)) states (values_at (scene_in (setting_by P.class_of P.code (content_of session.now) plan.now.firsts.items processors.old)) before.now sample) sample command.now) }
    ensures alike { AreAlike P.code P.phase P.last_setup processors.old processors.new }
    ensures room { IsRoom (content_of session.now) room.new }
    ensures left { deque_len returns.new ≤ deque_len returns.old + 1 }
    ensures capacity { deque_capacity returns.new ≡ deque_capacity returns.old }
{
    match command {
        Command::Tell { node, words } => tell_node(
            session, plan, processors, room, before, sample, *node, words, returns,
        ),
        Command::Begin { .. } | Command::Perform { .. } | Command::End { .. } => {}
    }
}

/// Gives the messages of a sample to their nodes, one by one, each with the values behind the entries before it. The
/// replies are on their way back.
pub(crate) fn give_messages<P: Processor + Drop>(
    session: &Session,
    plan: &Plan,
    processors: &mut [P],
    room: &mut Room,
    journal: &[Entry],
    sample: u32,
    returns: &mut VecDeque<Return>,
)
    requires plan { IsPlan (content_of session.now) plan.now }
    requires players { ArePlayers P.class_of P.code P.phase P.last_setup (content_of session.now) processors.old }
    requires room { IsRoom (content_of session.now) room.old }
    requires journal { ArePlayable (length (nodes_of session.now.nodes)) journal.now }
    requires returns { deque_len returns.old + count_by (λ entry. entry.sample == sample) journal.now ≤ deque_capacity returns.old }
    ensures states { (states : ℕ → State) → HaveStates P.state processors.old states
        → HaveStates P.state processors.new (told (scene_in (setting_by P.class_of P.code (content_of session.now) plan.now.firsts.items processors.old)) journal.now sample states) }
    ensures replies { HaveStates P.state processors.old (world (scene_in (setting_by P.class_of P.code (content_of session.now) plan.now.firsts.items processors.old)) [] journal.now sample)
        → map return_of returns.new.items ≡ map return_of returns.old.items ++ replies_at (setting_by P.class_of P.code (content_of session.now) plan.now.firsts.items processors.old) journal.now sample }
    ensures alike { AreAlike P.code P.phase P.last_setup processors.old processors.new }
    ensures room { IsRoom (content_of session.now) room.new }
    ensures left { deque_len returns.new ≤ deque_len returns.old + count_by (λ entry. entry.sample == sample) journal.now }
    ensures capacity { deque_capacity returns.new ≡ deque_capacity returns.old }
{
    for place in 0..journal.len() {
        let entry = &journal[place];
        if entry.sample != sample {
            continue;
        }
        let before = &journal[..place];
        give(
            session,
            plan,
            processors,
            room,
            before,
            sample,
            &entry.command,
            returns,
        );
    }
}

/// Finds the values of all nodes at a sample.
fn set_values(session: &Session, plan: &Plan, room: &mut Room, journal: &[Entry], sample: u32)
    requires plan { IsPlan (content_of session.now) plan.now }
    requires room { IsRoom (content_of session.now) room.old }
    requires journal { ArePlayable (length (nodes_of session.now.nodes)) journal.now }
    ensures values { (class_of : ℕ → Class) (codes : List ℕ) → AreClassesOf class_of codes (content_of session.now)
        → (node : ℕ) → node < length (nodes_of session.now.nodes) → values_in room.new.values.items node ≡ values_at (scene_of class_of codes plan.now.firsts.items (content_of session.now)) journal.now sample node }
    ensures within { AreWithin (length (nodes_of session.now.nodes)) room.new }
    ensures room { IsRoom (content_of session.now) room.new }
{
    for node in 0..session.nodes.len() {
        value_node(session, plan, room, journal, node, sample);
    }
}

/// Plays a node's sample: at its values, from what reaches it.
fn play_node<P: Processor + Drop>(
    session: &Session,
    plan: &Plan,
    node: u32,
    processor: &mut P,
    room: &mut Room,
)
    requires node { node < length (nodes_of session.now.nodes) }
    requires plan { IsPlan (content_of session.now) plan.now }
    requires player { IsPlayer (P.class_of (P.code processor.old)) (P.phase processor.old) (P.last_setup processor.old) (map param_of (node_at (nodes_of session.now.nodes) node).params) session.now.channels (has_aux session.now.wires.items node) }
    requires room { IsRoom (content_of session.now) room.old }
    requires within { All (λ value. value ≤ 2 ^ 24) (values_in room.old.values.items node) }
    ensures frame { frames_in room.new.frames.items node ≡ (P.class_of (P.code processor.old)).output session.now.channels (P.state processor.old) (values_in room.old.values.items node)
        (main_mix session.now.channels session.now.wires.items (silence session.now.channels) (frames_in room.old.frames.items) (AtNode node))
        (aux_mix session.now.channels session.now.wires.items (silence session.now.channels) (frames_in room.old.frames.items) (AtNode node)) }
    ensures state { P.state processor.new ≡ (P.class_of (P.code processor.old)).next session.now.channels (P.state processor.old) (values_in room.old.values.items node)
        (main_mix session.now.channels session.now.wires.items (silence session.now.channels) (frames_in room.old.frames.items) (AtNode node))
        (aux_mix session.now.channels session.now.wires.items (silence session.now.channels) (frames_in room.old.frames.items) (AtNode node)) }
    ensures others { (other : ℕ) → other ≢ node → frames_in room.new.frames.items other ≡ frames_in room.old.frames.items other }
    ensures values { room.new.values ≡ room.old.values }
    ensures room { IsRoom (content_of session.now) room.new }
    ensures code { P.code processor.new ≡ P.code processor.old }
    ensures phase { P.phase processor.new ≡ P.phase processor.old }
    ensures setup { P.last_setup processor.new ≡ P.last_setup processor.old }
{
    let (wires, to) = (&session.wires, End::Node(node));
    mix(wires, &plan.input, &room.frames, to, false, &mut room.main);
    mix(wires, &plan.input, &room.frames, to, true, &mut room.aux);
    let aux = aux_of(wires, to, &room.aux);
    processor.set_first(&room.values[node as usize]);
    let frame = &mut room.frames[node as usize];
    processor.process(1, &plan.points, &room.main, aux, frame);
}

/// Plays a sample of all nodes, each behind its sources.
fn play_nodes<P: Processor + Drop>(
    session: &Session,
    plan: &Plan,
    processors: &mut [P],
    room: &mut Room,
)
    requires plan { IsPlan (content_of session.now) plan.now }
    requires players { ArePlayers P.class_of P.code P.phase P.last_setup (content_of session.now) processors.old }
    requires room { IsRoom (content_of session.now) room.old }
    requires within { AreWithin (length (nodes_of session.now.nodes)) room.old }
    ensures consistent { (states : ℕ → State) → HaveStates P.state processors.old states
        → IsConsistent (scene_in (setting_by P.class_of P.code (content_of session.now) plan.now.firsts.items processors.old)) states (values_in room.old.values.items) (silence session.now.channels) (frames_in room.new.frames.items) }
    ensures states { (states : ℕ → State) → HaveStates P.state processors.old states
        → HaveStates P.state processors.new (stepped (scene_in (setting_by P.class_of P.code (content_of session.now) plan.now.firsts.items processors.old)) states (values_in room.old.values.items) (silence session.now.channels) (frames_in room.new.frames.items)) }
    ensures alike { AreAlike P.code P.phase P.last_setup processors.old processors.new }
    ensures room { IsRoom (content_of session.now) room.new }
{
    for &node in &plan.order {
        play_node(session, plan, node, &mut processors[node as usize], room);
    }
}

/// Puts a frame behind the frames.
fn put_frame(frame: &[i32], frames: &mut Vec<i32>)
    requires { vec_len frames.old + length frame.now ≤ vec_capacity frames.old }
    ensures items { frames.new.items ≡ frames.old.items ++ frame.now }
    ensures long { vec_len frames.new ≡ vec_len frames.old + length frame.now }
    ensures capacity { vec_capacity frames.new ≡ vec_capacity frames.old }
{
    for &x in frame {
        frames.push_reserved(x);
    }
}

/// Plays a sample: its messages, then each node; and puts what reaches the output behind the frames.
fn play_sample<P: Processor + Drop>(
    session: &Session,
    plan: &Plan,
    processors: &mut [P],
    room: &mut Room,
    journal: &[Entry],
    sample: u32,
    frames: &mut Vec<i32>,
    returns: &mut VecDeque<Return>,
)
    requires plan { IsPlan (content_of session.now) plan.now }
    requires players { ArePlayers P.class_of P.code P.phase P.last_setup (content_of session.now) processors.old }
    requires room { IsRoom (content_of session.now) room.old }
    requires journal { ArePlayable (length (nodes_of session.now.nodes)) journal.now }
    requires states { HaveStates P.state processors.old (world (scene_in (setting_by P.class_of P.code (content_of session.now) plan.now.firsts.items processors.old)) [] journal.now sample) }
    requires frames { vec_len frames.old + session.now.channels ≤ vec_capacity frames.old }
    requires returns { deque_len returns.old + count_by (λ entry. entry.sample == sample) journal.now ≤ deque_capacity returns.old }
    ensures states { HaveStates P.state processors.new (world (scene_in (setting_by P.class_of P.code (content_of session.now) plan.now.firsts.items processors.old)) [] journal.now (sample + 1)) }
    ensures frames { frames.new.items ≡ frames.old.items ++ out_at (scene_in (setting_by P.class_of P.code (content_of session.now) plan.now.firsts.items processors.old)) [] journal.now sample }
    ensures replies { map return_of returns.new.items ≡ map return_of returns.old.items ++ replies_at (setting_by P.class_of P.code (content_of session.now) plan.now.firsts.items processors.old) journal.now sample }
    ensures alike { AreAlike P.code P.phase P.last_setup processors.old processors.new }
    ensures room { IsRoom (content_of session.now) room.new }
    ensures long { vec_len frames.new ≡ vec_len frames.old + session.now.channels }
    ensures long_capacity { vec_capacity frames.new ≡ vec_capacity frames.old }
    ensures left { deque_len returns.new ≤ deque_len returns.old + count_by (λ entry. entry.sample == sample) journal.now }
    ensures capacity { deque_capacity returns.new ≡ deque_capacity returns.old }
{
    vh_meaning::laws::interchange();
    vh_meaning::laws::out_from_frames();
    give_messages(session, plan, processors, room, journal, sample, returns);
    set_values(session, plan, room, journal, sample);
    play_nodes(session, plan, processors, room);
    let (wires, input) = (&session.wires, &plan.input);
    mix(wires, input, &room.frames, End::Out, false, &mut room.main);
    put_frame(&room.main, frames);
}

/// Plays so many samples from one on.
pub(crate) fn play<P: Processor + Drop>(
    session: &Session,
    plan: &Plan,
    processors: &mut [P],
    room: &mut Room,
    journal: &[Entry],
    from: u32,
    count: u32,
    frames: &mut Vec<i32>,
    returns: &mut VecDeque<Return>,
)
    requires plan { IsPlan (content_of session.now) plan.now }
    requires players { ArePlayers P.class_of P.code P.phase P.last_setup (content_of session.now) processors.old }
    requires room { IsRoom (content_of session.now) room.old }
    requires journal { ArePlayable (length (nodes_of session.now.nodes)) journal.now }
    requires states { HaveStates P.state processors.old (world (scene_in (setting_by P.class_of P.code (content_of session.now) plan.now.firsts.items processors.old)) [] journal.now from) }
    requires within { from + count < 2 ^ 32 }
    requires frames { vec_len frames.old + session.now.channels * count ≤ vec_capacity frames.old }
    requires returns { deque_len returns.old + count_by (λ entry. nat_le from entry.sample) journal.now ≤ deque_capacity returns.old }
    ensures states { HaveStates P.state processors.new (world (scene_in (setting_by P.class_of P.code (content_of session.now) plan.now.firsts.items processors.old)) [] journal.now (from + count)) }
    ensures frames { frames.new.items ≡ frames.old.items ++ flat_map (out_at (scene_in (setting_by P.class_of P.code (content_of session.now) plan.now.firsts.items processors.old)) [] journal.now) (range_with_len from count) }
    ensures replies { map return_of returns.new.items ≡ map return_of returns.old.items ++ flat_map (replies_at (setting_by P.class_of P.code (content_of session.now) plan.now.firsts.items processors.old) journal.now) (range_with_len from count) }
    ensures alike { AreAlike P.code P.phase P.last_setup processors.old processors.new }
    ensures room { IsRoom (content_of session.now) room.new }
    ensures left { deque_len returns.new ≤ deque_len returns.old + length journal.now }
    ensures capacity { deque_capacity returns.new ≡ deque_capacity returns.old }
{
    for sample in from..from + count {
        play_sample(
            session, plan, processors, room, journal, sample, frames, returns,
        );
    }
}
